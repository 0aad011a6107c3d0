// A run whose forbids are lent as numbers, three for each: the cell, the pattern, and 0 to forbid it or any other to keep only it.
// Follows docs/RULES.md, "Run" and "Refusals". For programs, which hold no slice of structs; it goes through the same stages.
ghost use Rattle.std.specs.Prelude.{◌≡◌};
ghost use Rattle.adjacency.specs.Tables.{table};
ghost use Rattle.grid.specs.Grid.{grid, cells};
ghost use Rattle.course.specs.Run.{given};
ghost use Rattle.forbids.specs.Forbids.{Placed, forbids_of};
ghost use Rattle.course.specs.Called.{memory, outcome, called_numbers};
ghost use Rattle.run.specs.Answers.{answer_told};
ghost use Rattle.run.specs.Stages.{state_in, stage_of, standing, Standing, lay_all};

use crate::Stop;
use crate::inner::{begin_judged, conclude, lay_one};
use grid::Grid;
use refusals::Refusal;

// The forbids are laid in order, until one empties a cell; whether one did.
fn lay_numbers(
    forbids: &[u32],
    count: usize,
    width: usize,
    height: usize,
    mode: usize,
    weights: &[u32],
    offsets: &[u32],
    ids: &[u8],
    noise: &[u32],
    words: &[u32],
    domains: &mut [u64],
    counts: &mut [u8],
    pending: &mut [u32],
    floats: &mut [f32],
    marks: &mut [u8],
) -> bool
    requires { Standing (given (table count offsets.now ids.now) weights.now (grid width height mode) noise.now) (memory domains.old counts.old pending.old floats.old marks.old)
        × Placed count (cells (grid width height mode)) (forbids_of forbids.now) }
    ensures { stage_of count result (memory domains.new counts.new pending.new floats.new marks.new)
        ≡ lay_all (given (table count offsets.now ids.now) weights.now (grid width height mode) noise.now) (forbids_of forbids.now)
        (standing (state_in count (memory domains.old counts.old pending.old floats.old marks.old))) }
{
    let mut i = 0;
    while i < forbids.len() / 3 {
        if lay_one(
            forbids[3 * i],
            forbids[3 * i + 1],
            forbids[3 * i + 2],
            count,
            width,
            height,
            mode,
            weights,
            offsets,
            ids,
            noise,
            words,
            domains,
            counts,
            pending,
            floats,
            marks,
        ) {
            return true;
        }
        i += 1;
    }
    false
}

// A run: refused, or from the forbids to its end. Lengths are those of `run`, with three numbers for each forbid.
pub fn run_numbers(
    forbids: &[u32],
    count: usize,
    width: usize,
    height: usize,
    mode: usize,
    weights: &[u32],
    offsets: &[u32],
    ids: &[u8],
    noise: &[u32],
    words: &[u32],
    domains: &mut [u64],
    counts: &mut [u8],
    pending: &mut [u32],
    floats: &mut [f32],
    marks: &mut [u8],
) -> Result<Stop, Refusal>
    ensures { outcome (answer_told result) (memory domains.new counts.new pending.new floats.new marks.new)
        ≡ called_numbers (given (table count offsets.now ids.now) weights.now (grid width height mode) noise.now) forbids.now words.now
        (memory domains.old counts.old pending.old floats.old marks.old) }
{
    let grid = Grid {
        width,
        height,
        mode,
    };
    let bad = forbids::inner::judge_all(forbids, count, grid);
    let lent = forbids::inner::records_in(forbids);
    begin_judged(
        bad, lent, count, width, height, mode, weights, offsets, ids, noise, words, domains,
        counts, pending, floats, marks,
    )?;
    let empty = lay_numbers(
        forbids, count, width, height, mode, weights, offsets, ids, noise, words, domains, counts,
        pending, floats, marks,
    );
    Ok(conclude(
        empty, count, width, height, mode, weights, offsets, ids, noise, words, domains, counts,
        pending, floats, marks,
    ))
}
