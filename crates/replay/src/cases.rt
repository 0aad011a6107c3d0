// Cases: each is read whole, then answered. How much of one is kept, what it is answered, and the words for why no more is, are `stream`'s to say.
ghost use Rattle.std.specs.Prelude.{take};
ghost use Rattle.bounded.specs.Laid.{Front};

use crate::input;
use bounded::inner::memory;
use std::io::Read;
use stream::inner::sentences::{Reason, put_reason};
use stream::inner::{Answer, CutOff, Noise, Words};
use transfer::{Buffer, room};

// Says why no more is answered.
pub(crate) fn say<T: Print>(told: &T, reason: Reason) {
    let mut page: Buffer = room(0);
    let n = put_reason(reason as usize, &mut page);
    let _ = told.write_all(&page[..n]);
}

// A part of words, four bytes each, and how many bytes of it were sent.
fn words_in<I: Read>(source: &mut I, memory: &mut [u8]) -> Result<usize, CutOff> {
    let many = input::number(source)?.ok_or(CutOff)?;
    let size = 4 * (many as usize);
    input::fill(source, size, memory)?;
    Ok(size)
}

// The noise, the words and the answer, of a sheet of which so many bytes were sent.
fn rest<O: Print, I: Read>(
    out: &O,
    source: &mut I,
    size: usize,
    sheet: &[u8],
    formed: bool,
) -> Result<(), Reason>
    requires { Front (take size sheet.now) formed }
{
    let mut noise: Noise = room(0);
    let mut words: Words = room(0);
    let mut bytes: Answer = room(0);
    let noises = words_in(source, &mut noise)?;
    let many = words_in(source, &mut words)?;
    let n = stream::inner::answer(
        size, sheet, formed, noises, &noise, many, &words, &mut bytes,
    );
    out.write_all(&bytes[..n]).map_err(|_| Reason::Unwritten)
}

// Answers the next case, and whether there was one.
pub(crate) fn next<O: Print, I: Read>(out: &O, source: &mut I) -> Result<bool, Reason> {
    let Some(number) = input::number(source)? else {
        return if input::ended(source) {
            Ok(false)
        } else {
            Err(Reason::Unreadable)
        };
    };
    let size = number as usize;
    let mut sheet: memory::Sheet = room(0);
    let formed = input::sheet(source, size, &mut sheet)?;
    rest(out, source, size, &sheet, formed)?;
    Ok(true)
}
