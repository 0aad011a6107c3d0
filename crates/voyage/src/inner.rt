// A command, carried out. Sentences go where the caller says: to standard error in `ocean`, to standard output where they are held to a file.
// A function takes as much of the system as it uses: `Env` for the arguments, `Files` for files, `Print` for standard output.
ghost use Rattle.std.specs.Prelude.{◌≡◌, ◌-◌};
ghost use Rattle.bounded.specs.Laid.{Front};
ghost use Rattle.command.specs.Arguments as meaning;
ghost use Rattle.command.specs.Arguments.{fault_of, Asked};

use bounded::inner::{Ground, Unfit, memory};
use command::arguments::{Fault, Plan};
use command::files::Names;
use command::sentences::FileFault;
use faults::inner::Place;
use files::Loaded;
use refusals::Refusal;
use std::rt::{Env, Files};
use transfer::{Buffer, front, room};

mod files;
mod sheets;
mod show;

// Why nothing is laid, or not all of it is shown: what is order, a sheet with its refusal's number, a file by its argument, or standard output.
#[derive(Clone, Copy)]
enum Problem {
    Asked(Fault),
    Refused(Refusal, Place),
    File(Option<usize>, FileFault),
    Output,
}

impl Problem {
    // Why a sheet was refused, and where it is wrong.
    fn refused(sheet: &[u8], refusal: Refusal) -> Problem {
        Problem::Refused(refusal, faults::inner::place_in(sheet, u32::from(refusal)))
    }
}

// One argument more, by its number; its text is what the system says.
fn take<R: Env>(rt: &R, plan: Plan, index: usize) -> Plan
    ensures { meaning.Taken plan index result }
{
    let mut buffer: Buffer = room(0);
    let n = transfer::argument(rt, index, &mut buffer);
    command::arguments::step(plan, index, &buffer[..n])
}

// What the arguments from one up to another ask for.
pub fn arguments<R: Env>(rt: &R, from: usize, end: usize) -> Plan
    ensures { Asked from (end - from) result }
{
    let mut plan = command::arguments::begin();
    for i in from..end {
        plan = take(rt, plan, i);
    }
    plan
}

// The files that are asked for, and the seed of noise and words where they are read from none.
#[derive(Clone, Copy)]
struct Order {
    names: Names,
    seed: Option<u32>,
}

// Noise and words from a seed, one of each for each cell.
fn laid_from_seed<R: Env + Files + Print>(
    rt: &R,
    order: Order,
    seed: u32,
    sheet: &[u8],
    formed: bool,
    ground: Ground,
) -> Result<(), Problem>
    requires { Front sheet.now formed }
{
    let cells = ground.cells;
    let mut noise: memory::Noise = room(0);
    let mut words: memory::Words = room(0);
    if cells <= words.len() {
        seed::fill_both(seed, &mut noise[..cells], &mut words[..cells]);
    }
    show::run(
        rt,
        order,
        sheet,
        formed,
        ground,
        front(&noise, cells),
        front(&words, cells),
    )
}

// The words of a file, and how many it has as they are counted.
fn words_from_file<R: Env + Files, C: FnOnce(Loaded) -> Option<usize>>(
    rt: &R,
    index: Option<usize>,
    out: &mut [u32],
    count: C,
) -> Result<usize, FileFault>
    requires { C.IsAlwaysCallable count }
{
    let mut bytes: Buffer = room(0);
    let loaded = files::load(rt, index, &mut bytes)?;
    seed::read(&bytes, out);
    count(loaded).ok_or(FileFault::Cut)
}

// Noise and words from files. More words than there are cells are never used, so no more than 1,024 are read.
fn laid_from_files<R: Env + Files + Print>(
    rt: &R,
    order: Order,
    sheet: &[u8],
    formed: bool,
    ground: Ground,
) -> Result<(), Problem>
    requires { Front sheet.now formed }
{
    let Order { names, .. } = order;
    let mut noise: memory::Noise = room(0);
    let mut words: memory::Words = room(0);
    let n = words_from_file(rt, names.noise, &mut noise, |file| {
        command::files::noise_words(file.bytes, file.more)
    })
    .map_err(|fault| Problem::File(names.noise, fault))?;
    let m = words_from_file(rt, names.words, &mut words, |file| {
        command::files::whole_words(file.bytes)
    })
    .map_err(|fault| Problem::File(names.words, fault))?;
    show::run(
        rt,
        order,
        sheet,
        formed,
        ground,
        front(&noise, n),
        front(&words, m),
    )
}

// Measures a sheet and lays it, from a seed or from files.
fn laid<R: Env + Files + Print>(
    rt: &R,
    order: Order,
    sheet: &[u8],
    formed: bool,
) -> Result<(), Problem>
    requires { Front sheet.now formed }
{
    match bounded::inner::measure(sheet, formed) {
        Err(Unfit::Refused(refusal)) => Err(Problem::refused(sheet, refusal)),
        Err(Unfit::TooLarge) => Err(Problem::Asked(Fault::TooLarge)),
        Ok(ground) => match order.seed {
            Some(seed) => laid_from_seed(rt, order, seed, sheet, formed, ground),
            None => laid_from_files(rt, order, sheet, formed, ground),
        },
    }
}

// A sheet from a file.
fn laid_from_file<R: Env + Files + Print>(rt: &R, order: Order) -> Result<(), Problem> {
    let index = order.names.sheet;
    let mut memory: memory::Sheet = room(0);
    match sheets::load(rt, index, &mut memory) {
        Err(fault) => Err(Problem::File(index, fault)),
        Ok(kept) => laid(rt, order, front(&memory, kept.bytes), kept.formed),
    }
}

// The sheet of the practice ocean, which is held whole.
fn laid_from_practice<R: Env + Files + Print>(
    rt: &R,
    order: Order,
    sheet: &[u8; 746],
) -> Result<(), Problem> {
    let formed = sheets::whole(sheet);
    laid(rt, order, sheet, formed)
}

// The practice ocean, or the sheet that is named; nothing is read or written where something is wrong with the names.
fn laid_as_asked<R: Env + Files + Print>(rt: &R, order: Order) -> Result<(), Problem> {
    if let Some(fault) = files::fault_of(rt, order.names) {
        return Err(Problem::Asked(fault));
    }
    if order.names.sheet.is_none() {
        laid_from_practice(rt, order, &practice::sheet())
    } else {
        laid_from_file(rt, order)
    }
}

// Carries out what the arguments ask for, and answers what is wrong with them.
pub fn carry_out<R: Env + Files + Print, T: Print>(rt: &R, plan: Plan, told: &T) -> Option<Fault>
    ensures { result ≡ fault_of plan }
{
    let wrong = command::arguments::fault_of(plan);
    let done = match wrong {
        Some(fault) => Err(Problem::Asked(fault)),
        None => laid_as_asked(
            rt,
            Order {
                names: command::files::names_of(plan),
                seed: command::files::seed_of(plan),
            },
        ),
    };
    if let Err(problem) = done {
        show::tell(rt, told, problem);
    }
    wrong
}
