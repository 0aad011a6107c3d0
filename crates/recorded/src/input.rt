// A call, from a stream, which is standard input. All of its numbers are u32, little-endian.
use std::fmt;
use std::io::Read;
use stream::inner::{CutOff, next_of};

// Why no more calls are answered.
#[derive(Clone, Copy)]
pub(crate) enum Stop {
    CutOff,
    TooLarge,
}

impl fmt::Display for Stop {
    fn fmt<W: fmt::Write>(&self, f: &mut fmt::Formatter<W>) -> fmt::Result {
        f.write_str(match self {
            Stop::CutOff => "the stream of calls is cut off",
            Stop::TooLarge => "a call is larger than this program takes",
        })
    }
}

impl From<CutOff> for Stop {
    fn from(_: CutOff) -> Stop {
        Stop::CutOff
    }
}

// The next number, or none where the stream ends here.
pub(crate) fn number<I: Read>(source: &mut I) -> Result<Option<u32>, CutOff> {
    let mut bytes = [0u8; 4];
    let got = transfer::read_full(source, &mut bytes);
    next_of(got, &bytes)
}

// The next number of a call.
fn inside<I: Read>(source: &mut I) -> Result<u32, CutOff> {
    number(source)?.ok_or(CutOff)
}

fn index<I: Read>(source: &mut I) -> Result<usize, CutOff> {
    Ok(inside(source)? as usize)
}

// Fills a slice with numbers.
fn fill<I: Read>(source: &mut I, out: &mut [u32]) -> Result<(), CutOff> {
    for slot in out {
        *slot = inside(source)?;
    }
    Ok(())
}

// Fills a slice with bytes.
fn bytes<I: Read>(source: &mut I, out: &mut [u8]) -> Result<(), CutOff> {
    if transfer::read_full(source, out) == out.len() {
        Ok(())
    } else {
        Err(CutOff)
    }
}

// What a call begins with, past the number of what is called.
#[derive(Clone, Copy)]
pub(crate) struct Head {
    pub(crate) count: usize,
    pub(crate) width: usize,
    pub(crate) height: usize,
    pub(crate) mode: usize,
    pub(crate) pattern: usize,
    pub(crate) direction: usize,
    // How many numbers each slice has.
    weights: u32,
    offsets: u32,
    noise: u32,
    words: u32,
    forbids: u32,
    halves: u32,
    // How much of each memory is lent.
    pub(crate) lent: [usize; 5],
}

impl Head {
    fn read<I: Read>(source: &mut I) -> Result<Head, CutOff> {
        Ok(Head {
            count: index(source)?,
            width: index(source)?,
            height: index(source)?,
            mode: index(source)?,
            pattern: index(source)?,
            direction: index(source)?,
            weights: inside(source)?,
            offsets: inside(source)?,
            noise: inside(source)?,
            words: inside(source)?,
            forbids: inside(source)?,
            halves: inside(source)?,
            lent: [
                index(source)?,
                index(source)?,
                index(source)?,
                index(source)?,
                index(source)?,
            ],
        })
    }

    // How many numbers all slices have.
    fn numbers(&self) -> usize {
        self.weights as usize
            + self.offsets as usize
            + self.noise as usize
            + self.words as usize
            + self.forbids as usize
            + self.halves as usize
    }

    // The slices, one after the other in what was read.
    fn slices<'a>(&self, numbers: &'a [u32], ids: &'a [u8]) -> Slices<'a> {
        let (weights, rest) = cut(numbers, self.weights);
        let (offsets, rest) = cut(rest, self.offsets);
        let (noise, rest) = cut(rest, self.noise);
        let (words, rest) = cut(rest, self.words);
        let (forbids, rest) = cut(rest, self.forbids);
        let (halves, _) = cut(rest, self.halves);
        Slices {
            weights,
            offsets,
            noise,
            words,
            forbids,
            halves,
            ids,
        }
    }
}

// So many numbers, and those after them.
fn cut<'a>(numbers: &'a [u32], many: u32) -> (&'a [u32], &'a [u32]) {
    numbers.split_at((many as usize).min(numbers.len()))
}

// The slices of a call.
#[derive(Clone, Copy)]
pub(crate) struct Slices<'a> {
    pub(crate) weights: &'a [u32],
    pub(crate) offsets: &'a [u32],
    pub(crate) noise: &'a [u32],
    pub(crate) words: &'a [u32],
    pub(crate) forbids: &'a [u32],
    pub(crate) halves: &'a [u32],
    pub(crate) ids: &'a [u8],
}

// Memory that a call is read into.
pub(crate) type Numbers = [u32; 32768];

pub(crate) type Ids = [u8; 65536];

// The rest of a call, past the number of what is called.
pub(crate) fn rest<'a, I: Read>(
    source: &mut I,
    numbers: &'a mut Numbers,
    ids: &'a mut Ids,
) -> Result<(Head, Slices<'a>), Stop> {
    let head = Head::read(source)?;
    let numbers = numbers.get_mut(..head.numbers()).ok_or(Stop::TooLarge)?;
    fill(source, numbers)?;
    let ids = ids.get_mut(..index(source)?).ok_or(Stop::TooLarge)?;
    bytes(source, ids)?;
    Ok((head, head.slices(numbers, ids)))
}
