// Numbers, words and sheets from a stream, which is standard input. No contract can say what a stream has; it says what is done with the memory that is
// lent and, of a sheet, that there are bytes whose front it has and all of which were judged.
ghost use Rattle.std.specs.Prelude.{◌≡◌, ◌≤◌, min, length, drop};
ghost use Rattle.replay.specs.Input.{Rest, Whole};

use bounded::inner::memory;
use scan::inner::{Scan, formed, past, start};
use std::io::Read;
use stream::inner::{CutOff, next_of};
use transfer::{Buffer, room};

// The next number, or none where the stream ends before it.
// `recorded` has the same four lines: a library could promise nothing of them, since no contract says what a stream has.
pub(crate) fn number<I: Read>(source: &mut I) -> Result<Option<u32>, CutOff> {
    let mut bytes = [0u8; 4];
    let got = transfer::read_full(source, &mut bytes);
    next_of(got, &bytes)
}

// Whether the input ends here: a read that failed gave nothing either, and fails again.
pub(crate) fn ended<I: Read>(source: &mut I) -> bool {
    let mut byte = [0u8; 1];
    matches!(source.read(&mut byte), Ok(0))
}

// Fills a slice with bytes.
fn bytes<I: Read>(source: &mut I, out: &mut [u8]) -> Result<(), CutOff> {
    if transfer::read_full(source, out) == out.len() {
        Ok(())
    } else {
        Err(CutOff)
    }
}

// ---- noise and words

// Reads past as many of the bytes that are left as a buffer takes, and answers how many are left then.
fn pass<I: Read>(source: &mut I, left: usize) -> usize
    ensures { result ≤ left }
{
    let mut buffer: Buffer = room(0);
    let many = left.min(buffer.len());
    let got = transfer::read_full(source, &mut buffer[..many]);
    left - got.min(left)
}

// Reads past so many bytes. Each turn reads past a byte or more, so there are no more turns than bytes.
fn skip<I: Read>(source: &mut I, many: usize) -> Result<(), CutOff> {
    let mut left = many;
    while left > 0 {
        let next = pass(source, left);
        if next == left {
            return Err(CutOff);
        }
        left = next;
    }
    Ok(())
}

// As many of so many bytes as there is room for, to the front of the memory; the rest is read past.
pub(crate) fn fill<I: Read>(source: &mut I, many: usize, memory: &mut [u8]) -> Result<(), CutOff>
    ensures { drop (min many (length memory.old)) memory.new ≡ drop (min many (length memory.old)) memory.old }
{
    let kept = many.min(memory.len());
    bytes(source, &mut memory[..kept])?;
    skip(source, many - kept)
}

// ---- a sheet

// The rest of a sheet is read past, as much at a time as a buffer takes, and judged from the state on that its front led to: whether all of it is one.
fn judge<I: Read>(source: &mut I, many: usize, state: Scan) -> Result<bool, CutOff>
    ensures { Rest many state result }
{
    let mut buffer: Buffer = room(0);
    let mut left = many;
    let mut reached = state;
    while left > 0 {
        let part = left.min(buffer.len());
        bytes(source, &mut buffer[..part])?;
        reached = past(reached, &buffer[..part]);
        left -= part;
    }
    Ok(formed(reached))
}

// A sheet of so many bytes: as many as there is room for go to the front of the memory, and all of them are judged.
pub(crate) fn sheet<I: Read>(
    source: &mut I,
    many: usize,
    memory: &mut memory::Sheet,
) -> Result<bool, CutOff>
    ensures { Whole many memory.new result }
{
    let kept = many.min(memory.len());
    bytes(source, &mut memory[..kept])?;
    judge(source, many - kept, past(start(), &memory[..kept]))
}
