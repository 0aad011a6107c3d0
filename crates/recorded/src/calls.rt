// Calls: a call is read, made and told. Lent memory starts full of sevens, since its old content is ignored.
ghost use Rattle.std.specs.Prelude.{◌≡◌, min, length};

use crate::choices::tell;
use crate::input::{Head, Ids, Numbers, Slices, Stop};
use crate::{input, print, sheets};
use refusals::Refusal;
use run::Ending;
use std::io::Read;
use transfer::room;

// What is called: a run that is told whole, a run whose refusal is told, propagation, a list that is looked up, a sheet that is written, one that is read.
#[derive(Clone, Copy)]
enum Call {
    Run,
    Refusal,
    Propagation,
    List,
    Writing,
    Reading,
}

impl From<u32> for Call {
    fn from(number: u32) -> Call {
        match number {
            0 => Call::Run,
            1 => Call::Refusal,
            2 => Call::Propagation,
            3 => Call::List,
            4 => Call::Writing,
            _ => Call::Reading,
        }
    }
}

// The front of a memory, of the length that a call asks for, and at most all of it.
pub(crate) fn lent<T>(memory: &mut [T], asked: usize) -> &mut [T]
    ensures { length result.now ≡ min asked (length memory.old) }
{
    let end = asked.min(memory.len());
    &mut memory[..end]
}

// Memory for domains.
pub(crate) type Domains = [u64; 1025];

// Work memory of a run. Each stands in the function that lends it, and the two large ones are written there: what a function hands out is copied.
pub(crate) const COUNTS: usize = 262145;

pub(crate) const PENDING: usize = 65537;

pub(crate) type Counts = [u8; COUNTS];

pub(crate) type Pending = [u32; PENDING];

pub(crate) type Floats = [f32; 2049];

pub(crate) type Marks = [u8; 2081];

// ---- a run

// The run, on parts of the memory of the lengths that the call asks for.
fn solve(head: &Head, slices: &Slices, domains: &mut Domains) -> Result<run::Stop, Refusal> {
    let mut counts: Counts = [7; COUNTS];
    let mut pending: Pending = [7; PENDING];
    let mut floats: Floats = room(7.0);
    let mut marks: Marks = room(7);
    run::run_numbers(
        slices.forbids,
        head.count,
        head.width,
        head.height,
        head.mode,
        slices.weights,
        slices.offsets,
        slices.ids,
        slices.noise,
        slices.words,
        lent(domains, head.lent[0]),
        lent(&mut counts, head.lent[1]),
        lent(&mut pending, head.lent[2]),
        lent(&mut floats, head.lent[3]),
        lent(&mut marks, head.lent[4]),
    )
}

// Says where the choices lead elsewhere than the run, which leaves all domains zero after a contradiction and has used a word for each choice.
fn compare<O: Print>(out: &O, stop: run::Stop, made: usize, domains: &[u64], again: &[u64]) {
    if made != stop.used {
        print::wrong(out, "the choices are not as many as the words");
    }
    if stop.end == Ending::Contradiction {
        if !again.contains(&0) {
            print::wrong(out, "the choices end in no contradiction");
        }
    } else if domains != again {
        print::wrong(out, "the choices lead to other domains");
    }
}

// A run, told whole.
fn run_told<O: Print>(out: &O, head: &Head, slices: &Slices) {
    let mut domains: Domains = room(7);
    match solve(head, slices, &mut domains) {
        Err(refusal) => print::refused(out, Some(refusal)),
        Ok(stop) => {
            let many = head.lent[0];
            let mut again: Domains = room(7);
            print::end(out, stop);
            print::line(out, "domains", lent(&mut domains, many));
            let made = tell(out, head, slices, &mut again);
            compare(
                out,
                stop,
                made,
                lent(&mut domains, many),
                lent(&mut again, many),
            );
        }
    }
}

// The refusal of a run, or that there is none.
fn refusal_told<O: Print>(out: &O, head: &Head, slices: &Slices) {
    let mut domains: Domains = room(7);
    print::refused(out, solve(head, slices, &mut domains).err());
}

// ---- propagation, and a list that is looked up

// The starting domains, of two numbers each; those that are not given are empty.
fn starting(halves: &[u32]) -> Domains {
    let mut domains = [0; 1025];
    for (domain, half) in domains.iter_mut().zip(halves.chunks(2)) {
        let high = half.get(1).copied().unwrap_or(0);
        *domain = u64::from(half[0]) | u64::from(high) << 32;
    }
    domains
}

// Propagation, told with what it leaves.
fn propagate_told<O: Print>(out: &O, head: &Head, slices: &Slices) {
    let mut domains = starting(slices.halves);
    let mut counts: Counts = [7; COUNTS];
    let mut pending: Pending = [7; PENDING];
    let answer = starting::propagate(
        head.count,
        slices.offsets,
        slices.ids,
        head.width,
        head.height,
        head.mode,
        lent(&mut domains, head.lent[0]),
        lent(&mut counts, head.lent[1]),
        lent(&mut pending, head.lent[2]),
    );
    print::refused(out, answer.err());
    print::line(out, "domains", lent(&mut domains, head.lent[0]));
}

// A list that is looked up, told with the number of the call beside it.
fn list_told<O: Print>(out: &O, head: &Head, slices: &Slices) {
    let Slices { offsets, ids, .. } = *slices;
    let list = adjacency::list(head.count, offsets, ids, head.pattern, head.direction);
    let looked_up = adjacency::list_refusal(head.count, offsets, ids, head.pattern, head.direction);
    print::line(out, "part", list);
    print::refused(out, looked_up.err());
}

// ---- a call of the stream

// Answers the next call of the stream, and whether there was one.
pub(crate) fn next<O: Print, I: Read>(out: &O, source: &mut I) -> Result<bool, Stop> {
    let Some(number) = input::number(source)? else {
        return Ok(false);
    };
    let mut numbers: Numbers = room(0);
    let mut ids: Ids = room(0);
    let (head, slices) = input::rest(source, &mut numbers, &mut ids)?;
    match Call::from(number) {
        Call::Run => run_told(out, &head, &slices),
        Call::Refusal => refusal_told(out, &head, &slices),
        Call::Propagation => propagate_told(out, &head, &slices),
        Call::List => list_told(out, &head, &slices),
        Call::Writing => sheets::write_told(out, &head, &slices),
        Call::Reading => sheets::read_told(out, &head, slices.ids),
    }
    Ok(true)
}
