// The run: forbids are laid, then a cell is observed and a pattern chosen there until the run ends.
// Follows docs/RULES.md, "Run" and "Refusals". Main property: every call is what `called` says of its inputs, so an ocean that is Decided violates no list.
#![tactic(auto)]

ghost use Rattle.std.specs.Prelude.{◌≡◌};
ghost use Rattle.adjacency.specs.Tables.{table};
ghost use Rattle.grid.specs.Grid.{grid};
ghost use Rattle.course.specs.Run.{given};
ghost use Rattle.course.specs.Called.{memory, outcome, called};
ghost use Rattle.run.specs.Answers.{answer_told};

use forbids::Forbid;
use grid::Grid;
use refusals::Refusal;

mod check;
pub mod inner;
mod numbers;

pub use collapse::{Ending, Stop};
pub use numbers::run_numbers;

// A run: refused, or from the forbids to its end.
// Lengths: P weights, 4 P + 1 offsets, a noise word and a domain for each cell, 4 P counts, P pending removals and 2 floats for each cell, 2 marks
// for each cell and one more for each 32 cells or part of them; at most 4,096 forbids.
pub fn run(
    forbids: &[Forbid],
    count: usize,
    width: usize,
    height: usize,
    mode: usize,
    weights: &[u32],
    offsets: &[u32],
    ids: &[u8],
    noise: &[u32],
    words: &[u32],
    domains: &mut [u64],
    counts: &mut [u8],
    pending: &mut [u32],
    floats: &mut [f32],
    marks: &mut [u8],
) -> Result<Stop, Refusal>
    ensures { outcome (answer_told result) (memory domains.new counts.new pending.new floats.new marks.new)
        ≡ called (given (table count offsets.now ids.now) weights.now (grid width height mode) noise.now) forbids.now words.now
        (memory domains.old counts.old pending.old floats.old marks.old) }
{
    let grid = Grid {
        width,
        height,
        mode,
    };
    let bad = forbids::inner::check_all(forbids, count, grid);
    inner::begin_judged(
        bad,
        forbids.len(),
        count,
        width,
        height,
        mode,
        weights,
        offsets,
        ids,
        noise,
        words,
        domains,
        counts,
        pending,
        floats,
        marks,
    )?;
    let mut i = 0;
    while i < forbids.len() {
        let f = forbids[i];
        if inner::lay_one(
            f.cell, f.pattern, f.keep, count, width, height, mode, weights, offsets, ids, noise,
            words, domains, counts, pending, floats, marks,
        ) {
            return Ok(inner::conclude(
                true, count, width, height, mode, weights, offsets, ids, noise, words, domains,
                counts, pending, floats, marks,
            ));
        }
        i += 1;
    }
    Ok(inner::conclude(
        false, count, width, height, mode, weights, offsets, ids, noise, words, domains, counts,
        pending, floats, marks,
    ))
}
