// A run whose result is written. Follows docs/RULES.md, "Run" and "Sheet".
// Main property: a result is written only of a run's own outcome; nothing else here encodes one.
ghost use Rattle.std.specs.Prelude.{◌≡◌, ◌+◌, ◌*◌, ◌≤◌, ◌<◌, length};
ghost use Rattle.records.specs.Laying.{over};
ghost use Rattle.adjacency.specs.Tables.{table};
ghost use Rattle.grid.specs.Grid.{grid};
ghost use Rattle.course.specs.Run.{given, ended};
ghost use Rattle.course.specs.Called.{memory, outcome};
ghost use Rattle.run.specs.Answers.{answer_told};
ghost use Rattle.collapse.specs.Endings.{end_number};
ghost use Rattle.sheet.specs.Result.{result_of, result_outcome, result_called};

use grid::Grid;
use records::inner::{lay_head, lay_u16, lay_words};
use refusals::Refusal;
use run::Stop;

// The result's record at the front.
fn lay_result(stop: Stop, domains: &[u64], out: &mut [u8])
    requires { (stop.used < 65536) × (length domains.now ≤ 1024) × (10 + 8 * length domains.now ≤ length out.old) }
    ensures { out.new ≡ over (result_of (ended (end_number stop.end) stop.used domains.now)) out.old }
{
    let end = u32::from(stop.end) as usize;
    let place = lay_head(5, 4 + 8 * domains.len(), out, 0);
    let place = lay_u16(end, out, place);
    let place = lay_u16(stop.used, out, place);
    lay_words(domains, out, place);
}

// A run as `run::run_numbers` does it, with its result at the front of `out`; three numbers for each forbid.
// Lengths are those of `run`, and for `out` 10 bytes and 8 for each cell or more.
pub fn run_result(
    forbids: &[u32],
    count: usize,
    width: usize,
    height: usize,
    mode: usize,
    weights: &[u32],
    offsets: &[u32],
    ids: &[u8],
    noise: &[u32],
    words: &[u32],
    domains: &mut [u64],
    counts: &mut [u8],
    pending: &mut [u32],
    floats: &mut [f32],
    marks: &mut [u8],
    out: &mut [u8],
) -> Result<Stop, Refusal>
    ensures { result_outcome (outcome (answer_told result) (memory domains.new counts.new pending.new floats.new marks.new)) out.new
        ≡ result_called (given (table count offsets.now ids.now) weights.now (grid width height mode) noise.now) forbids.now words.now
        (memory domains.old counts.old pending.old floats.old marks.old) out.old }
{
    let grid = Grid {
        width,
        height,
        mode,
    };
    crate::check::judge_scalars(count, grid)?;
    if out.len() < 10 + 8 * grid.cells() {
        return Err(Refusal::BadLength);
    }
    let stop = run::run_numbers(
        forbids, count, width, height, mode, weights, offsets, ids, noise, words, domains, counts,
        pending, floats, marks,
    )?;
    lay_result(stop, domains, out);
    Ok(stop)
}
