// A sheet that was read is run, in work memory for 4,096 cells times patterns. Follows docs/RULES.md, "Programs".
ghost use Rattle.std.specs.Prelude.{List, ◌≡◌, ℕ, ◌≤◌, length};
ghost use Rattle.adjacency.specs.Tables.{table};
ghost use Rattle.grid.specs.Grid.{grid};
ghost use Rattle.course.specs.Run.{given};
ghost use Rattle.bounded.specs.Laid.{laid_told, outcome, ran_of, laid_of, laid_at, Runnable, Held, Front, Reads};

use crate::inner::memory::{Counts, Floats, Marks, Pending};
use crate::inner::reading::read_in;
use crate::inner::{Laid, Unfit};
use transfer::room;

// The run of what nothing refuses but perhaps the noise, in work memory that suffices.
fn run_in(
    forbids: &[u32],
    count: usize,
    width: usize,
    height: usize,
    mode: usize,
    weights: &[u32],
    offsets: &[u32],
    ids: &[u8],
    noise: &[u32],
    words: &[u32],
    domains: &mut [u64],
    out: &mut [u8],
) -> Result<Laid, Unfit>
    requires { Runnable (table count offsets.now ids.now) weights.now (grid width height mode) forbids.now × (1024 ≤ length domains.old) × (8202 ≤ length out.old) }
    ensures { outcome (laid_told result) domains.new out.new
        ≡ laid_at (ran_of (given (table count offsets.now ids.now) weights.now (grid width height mode) noise.now) forbids.now words.now) domains.old out.old }
{
    let mut counts: Counts = room(0);
    let mut pending: Pending = room(0);
    let mut floats: Floats = room(0.0);
    let mut marks: Marks = room(0);
    let cells = height * width;
    let places = cells * count;
    let stop = sheet::run_result(
        forbids,
        count,
        width,
        height,
        mode,
        weights,
        offsets,
        ids,
        noise,
        words,
        &mut domains[..cells],
        &mut counts[..4 * places],
        &mut pending[..places],
        &mut floats[..2 * cells],
        &mut marks[..2 * cells + (cells + 31) / 32],
        out,
    )?;
    Ok(Laid {
        end: stop.end,
        used: stop.used,
        size: 10 + 8 * cells,
    })
}

// The sheet is read into slices that are long enough, and run where it is not too large.
pub(crate) fn lay_in(
    sheet: &[u8],
    formed: bool,
    noise: &[u32],
    words: &[u32],
    weights: &mut [u32],
    offsets: &mut [u32],
    ids: &mut [u8],
    forbids: &mut [u32],
    domains: &mut [u64],
    out: &mut [u8],
) -> Result<Laid, Unfit>
    requires { Reads weights.old offsets.old ids.old forbids.old × (1024 ≤ length domains.old) × (8202 ≤ length out.old) × Front sheet.now formed }
    ensures { (b : List ℕ) → Held b sheet.now formed → outcome (laid_told result) domains.new out.new
        ≡ laid_at (laid_of b noise.now words.now) domains.old out.old }
{
    let m = read_in(sheet, formed, weights, offsets, ids, forbids)?;
    let count = m.count;
    if 4096 < m.height * m.width * count {
        return Err(Unfit::TooLarge);
    }
    let starts = 4 * count + 1;
    let last = m.ids;
    let numbers = 3 * m.forbids;
    run_in(
        &forbids[..numbers],
        count,
        m.width,
        m.height,
        m.mode,
        &weights[..count],
        &offsets[..starts],
        &ids[..last],
        noise,
        words,
        domains,
        out,
    )
}
