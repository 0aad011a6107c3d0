// A case is answered in bytes. What it comes to, and when it is too large, is `bounded`'s to say.
ghost use Rattle.std.specs.Prelude.{List, ◌++◌, ◌≡◌, ℕ, ◌≤◌, length, take};
ghost use Rattle.records.specs.Laying.{pen, laid};
ghost use Rattle.records.specs.Numbers.{u16};
ghost use Rattle.bounded.specs.Laid.{laid_of, Held, Front};
ghost use Rattle.stream.specs.declared.inner.sentences.Reason.TheVariants.{CutOff};
ghost use Rattle.stream.specs.Cases.{next_of, parts, comes_to, answer_of};

use bounded::inner::{Unfit, memory};
use records::inner::{lay_bytes, lay_u16};
use sentences::Reason;
use transfer::{front, room};

pub mod sentences;

// What is told of a sheet that is too large.
const TOO_LARGE: usize = 65535;

// ---- a number of the stream

// Less than a number is there.
#[derive(Clone, Copy)]
pub struct CutOff;

impl From<CutOff> for Reason {
    ghost from_gives = { λ _ reason. reason ≡ CutOff };

    fn from(_: CutOff) -> Reason {
        Reason::CutOff
    }
}

// What a stream has next, where so many bytes of four were there: a number, or none since it ends here.
pub fn next_of(got: usize, bytes: &[u8; 4]) -> Result<Option<u32>, CutOff>
    ensures { result ≡ next_of got bytes.now }
{
    if got == 0 {
        return Ok(None);
    }
    if got < 4 {
        return Err(CutOff);
    }
    Ok(Some(u32::from_le_bytes(*bytes)))
}

// ---- room for what is kept of a case in bytes, but for its sheet, and for its answer

// The bytes of as many noise words as are kept.
pub type Noise = [u8; 4100];

// And of the words.
pub type Words = [u8; 4096];

// Two bytes more than the longest result has.
pub type Answer = [u8; 8204];

// ---- the answer: each writes it at the front of `out` and tells how many bytes it has

// A run that is done: 0, and its record.
fn tell_result(size: usize, res: &[u8], out: &mut [u8]) -> usize
    requires { (size ≤ length res.now) × (8202 ≡ length res.now) × (8204 ≡ length out.old) }
    ensures result_after { pen out.new result ≡ laid (u16 0 ++ take size res.now) (pen out.old 0) }
    ensures upper_bound { result ≤ 8204 }
{
    let at = lay_u16(0, out, 0);
    lay_bytes(&res[..size], out, at)
}

// A case in numbers is laid in memory that is long enough.
fn tell(
    sheet: &[u8],
    formed: bool,
    noise: &[u32],
    words: &[u32],
    domains: &mut [u64],
    res: &mut [u8],
    out: &mut [u8],
) -> usize
    requires { (1024 ≡ length domains.old) × (8202 ≡ length res.old) × (8204 ≡ length out.old) × Front sheet.now formed }
    ensures by_index { (b : List ℕ) → Held b sheet.now formed → pen out.new result ≡ laid (answer_of (laid_of b noise.now words.now)) (pen out.old 0) }
    ensures upper_bound { result ≤ 8204 }
{
    match bounded::inner::lay(sheet, formed, noise, words, domains, res) {
        Ok(laid) => tell_result(laid.size, res, out),
        Err(Unfit::Refused(refusal)) => lay_u16(u32::from(refusal) as usize, out, 0),
        Err(Unfit::TooLarge) => lay_u16(TOO_LARGE, out, 0),
    }
}

// A case in numbers.
fn answer_numbers(sheet: &[u8], formed: bool, noise: &[u32], words: &[u32], out: &mut [u8]) -> usize
    requires { (8204 ≡ length out.old) × Front sheet.now formed }
    ensures by_index { (b : List ℕ) → Held b sheet.now formed → pen out.new result ≡ laid (answer_of (laid_of b noise.now words.now)) (pen out.old 0) }
    ensures upper_bound { result ≤ 8204 }
{
    let mut domains: memory::Domains = room(0);
    let mut result: memory::Record = room(0);
    tell(sheet, formed, noise, words, &mut domains, &mut result, out)
}

// A case in bytes, its words unpacked into memory that is long enough.
fn unpack(
    sheet: &[u8],
    formed: bool,
    noise: &[u8],
    words: &[u8],
    first: &mut [u32],
    second: &mut [u32],
    out: &mut [u8],
) -> usize
    requires { (length noise.now ≤ 4100) × (length words.now ≤ 4096) × (1025 ≡ length first.old) × (1024 ≡ length second.old) × (8204 ≡ length out.old) × Front sheet.now formed }
    ensures by_index { (b : List ℕ) → Held b sheet.now formed → pen out.new result ≡ laid (answer_of (comes_to (parts b noise.now words.now))) (pen out.old 0) }
    ensures upper_bound { result ≤ 8204 }
{
    let n = noise.len() / 4;
    let w = words.len() / 4;
    seed::read(noise, first);
    seed::read(words, second);
    answer_numbers(sheet, formed, &first[..n], &second[..w], out)
}

// A case in bytes.
fn answer_bytes(sheet: &[u8], formed: bool, noise: &[u8], words: &[u8], out: &mut [u8]) -> usize
    requires { (length noise.now ≤ 4100) × (length words.now ≤ 4096) × (8204 ≡ length out.old) × Front sheet.now formed }
    ensures by_index { (b : List ℕ) → Held b sheet.now formed → pen out.new result ≡ laid (answer_of (comes_to (parts b noise.now words.now))) (pen out.old 0) }
    ensures upper_bound { result ≤ 8204 }
{
    let mut first: memory::Noise = room(0);
    let mut second: memory::Words = room(0);
    unpack(sheet, formed, noise, words, &mut first, &mut second, out)
}

// A case of whose sheet, noise and words so many bytes were sent, and as many are kept as there is room for; all of the sheet's were judged.
pub fn answer(
    size: usize,
    sheet: &[u8],
    formed: bool,
    noises: usize,
    noise: &Noise,
    many: usize,
    words: &Words,
    out: &mut Answer,
) -> usize
    requires { Front (take size sheet.now) formed }
    ensures by_index { (b : List ℕ) → Held b (take size sheet.now) formed → pen out.new result ≡ laid (answer_of (comes_to (parts b (take noises noise.now) (take many words.now)))) (pen out.old 0) }
    ensures upper_bound { result ≤ 8204 }
{
    let sheet = front(sheet, size);
    answer_bytes(sheet, formed, front(noise, noises), front(words, many), out)
}
