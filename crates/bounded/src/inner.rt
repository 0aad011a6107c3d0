// Measuring a sheet and laying it, for the programs. What matters is in `sheet::read` and `sheet::run_result`; here is room for them.
ghost use Rattle.std.specs.Prelude.{List, ◌≡◌, ℕ, ◌≤◌, length};
ghost use Rattle.bounded.specs.declared.inner.Unfit.TheVariants.{Refused};
ghost use Rattle.bounded.specs.Laid.{taken_told, measure_of, laid_told, outcome, laid_of, laid_at, Held, Front};

use memory::{Forbids, Ids, Offsets, Weights};
use refusals::Refusal;
use run::Ending;
use transfer::room;

pub mod memory;
mod reading;
mod running;

// The grid of a sheet that the programs take.
#[derive(Clone, Copy, Debug, PartialEq, Eq)]
pub struct Ground {
    pub width: usize,
    pub height: usize,
    pub mode: usize,
    pub cells: usize,
}

// Why the programs do not take a sheet: it is refused, or only the library takes one so large.
#[derive(Clone, Copy, Debug, PartialEq, Eq)]
pub enum Unfit {
    Refused(Refusal),
    TooLarge,
}

impl From<Refusal> for Unfit {
    ghost from_gives = { λ refusal unfit. unfit ≡ Refused refusal };

    fn from(refusal: Refusal) -> Unfit {
        Unfit::Refused(refusal)
    }
}

// How a run ended, with the words that it used and the length of its result.
#[derive(Clone, Copy, Debug, PartialEq, Eq)]
pub struct Laid {
    pub end: Ending,
    pub used: usize,
    pub size: usize,
}

// What a sheet is to the programs. Of its bytes they hold the front, and whether all of them are a sheet.
pub fn measure(sheet: &[u8], formed: bool) -> Result<Ground, Unfit>
    requires { Front sheet.now formed }
    ensures { (b : List ℕ) → Held b sheet.now formed → taken_told result ≡ measure_of b }
{
    let mut weights: Weights = room(0);
    let mut offsets: Offsets = room(0);
    let mut ids: Ids = room(0);
    let mut forbids: Forbids = room(0);
    let m = reading::read_in(
        sheet,
        formed,
        &mut weights,
        &mut offsets,
        &mut ids,
        &mut forbids,
    )?;
    let cells = m.height * m.width;
    if 4096 < cells * m.count {
        return Err(Unfit::TooLarge);
    }
    Ok(Ground {
        width: m.width,
        height: m.height,
        mode: m.mode,
        cells,
    })
}

// Lays a sheet with noise and words: its domains at the front of `domains`, and its result at the front of `out`.
pub fn lay(
    sheet: &[u8],
    formed: bool,
    noise: &[u32],
    words: &[u32],
    domains: &mut [u64],
    out: &mut [u8],
) -> Result<Laid, Unfit>
    requires { (1024 ≤ length domains.old) × (8202 ≤ length out.old) × Front sheet.now formed }
    ensures { (b : List ℕ) → Held b sheet.now formed → outcome (laid_told result) domains.new out.new
        ≡ laid_at (laid_of b noise.now words.now) domains.old out.old }
{
    let mut weights: Weights = room(0);
    let mut offsets: Offsets = room(0);
    let mut ids: Ids = room(0);
    let mut forbids: Forbids = room(0);
    running::lay_in(
        sheet,
        formed,
        noise,
        words,
        &mut weights,
        &mut offsets,
        &mut ids,
        &mut forbids,
        domains,
        out,
    )
}
