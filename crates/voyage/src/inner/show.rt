// What the person is shown: a chart, a picture, or one sentence.
ghost use Rattle.bounded.specs.Laid.{Front};

use crate::inner::{Order, Problem, files};
use bounded::inner::{Ground, Unfit, memory};
use chart::{Ocean, put_chart};
use command::arguments::{Fault, fault_number};
use command::sentences::{FileFault, file_number, put_fault, put_file_fault, put_refusal};
use picture::{put_picture_head, put_picture_row, put_picture_tail};
use std::io::Write;
use std::rt::{Env, Files};
use text::Page;
use transfer::{Buffer, LargeBuffer, front, room};

// What is put on a page, printed; whether all of it was.
fn print<P: Print, F: FnOnce(&mut Page)>(to: &P, put: F) -> bool
    requires { F.IsAlwaysCallable put }
{
    let mut memory: LargeBuffer = room(0);
    let mut page = Page::new(&mut memory, 0);
    put(&mut page);
    to.write_all(page.written()).is_ok()
}

// The same, written to a file.
fn write<W: Write, F: FnOnce(&mut Page)>(to: &mut W, put: F) -> Result<(), FileFault>
    requires { F.IsAlwaysCallable put }
{
    let mut memory: LargeBuffer = room(0);
    let mut page = Page::new(&mut memory, 0);
    put(&mut page);
    files::write(to, page.written())
}

// One sentence that says what is wrong.
pub(crate) fn tell<R: Env, T: Print>(rt: &R, told: &T, problem: Problem) {
    match problem {
        Problem::Asked(fault) => print(told, |page| put_fault(page, fault_number(fault))),
        Problem::Refused(refusal, place) => {
            let number = u32::from(refusal) as usize;
            print(told, |page| put_refusal(page, number, place))
        }
        Problem::File(index, fault) => {
            let mut buffer: Buffer = room(0);
            let name = files::name(rt, index, &mut buffer);
            print(told, |page| put_file_fault(page, name, file_number(fault)))
        }
        Problem::Output => print(told, |page| {
            put_file_fault(page, b"standard output", file_number(FileFault::Unwritten))
        }),
    };
}

// The parts of the picture, from the top down.
fn picture<W: Write>(file: &mut W, ocean: &Ocean) -> Result<(), FileFault> {
    write(file, |page| put_picture_head(page, ocean))?;
    for y in 0..ocean.height {
        write(file, |page| put_picture_row(page, ocean, y))?;
    }
    write(file, |page| put_picture_tail(page, ocean))
}

// What a run left: the result and the picture where they are asked for, and the chart. What comes after one that cannot be written is left out.
fn laid<R: Env + Files + Print>(
    rt: &R,
    order: Order,
    ocean: &Ocean,
    bytes: &[u8],
) -> Result<(), Problem> {
    let Order { names, .. } = order;
    if names.result.is_some() {
        files::put_file(rt, names.result, |file| files::write(file, bytes)).map_err(
            |fault| Problem::File(names.result, fault),
        )?;
    }
    if names.picture.is_some() {
        files::put_file(rt, names.picture, |file| picture(file, ocean)).map_err(
            |fault| Problem::File(names.picture, fault),
        )?;
    }
    if print(rt, |page| put_chart(page, ocean)) {
        Ok(())
    } else {
        Err(Problem::Output)
    }
}

// Lays the ocean and shows it.
pub(crate) fn run<R: Env + Files + Print>(
    rt: &R,
    order: Order,
    sheet: &[u8],
    formed: bool,
    ground: Ground,
    noise: &[u32],
    words: &[u32],
) -> Result<(), Problem>
    requires { Front sheet.now formed }
{
    let mut domains: memory::Domains = room(0);
    let mut bytes: memory::Record = room(0);
    match bounded::inner::lay(sheet, formed, noise, words, &mut domains, &mut bytes) {
        Err(Unfit::Refused(refusal)) => Err(Problem::refused(sheet, refusal)),
        Err(Unfit::TooLarge) => Err(Problem::Asked(Fault::TooLarge)),
        Ok(run) => {
            let ocean = Ocean {
                width: ground.width,
                height: ground.height,
                mode: ground.mode,
                named: order.names.sheet.is_none(),
                end: u32::from(run.end) as usize,
                words: run.used,
                domains: front(&domains, ground.cells),
            };
            laid(rt, order, &ocean, front(&bytes, run.size))
        }
    }
}
