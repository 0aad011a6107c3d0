// The turns of a run: a choice at the cell that is observed, with the word that comes next, until nothing is observed, no word is left or a cell is empty.
// Follows docs/RULES.md, "Run".
ghost use Rattle.std.specs.Prelude.{cond, ◌≡◌, ◌+◌, ◌*◌, ◌%◌, ◌<◌, length, get_or};
ghost use Rattle.adjacency.specs.Tables.{table};
ghost use Rattle.adjacency.specs.Weights.{Weighed, mask, weight_sum};
ghost use Rattle.grid.specs.Grid.{grid, cells};
ghost use Rattle.notes.specs.Blocks.{blocks, Watched};
ghost use Rattle.logarithms.specs.Lookups.{Lookups};
ghost use Rattle.notes.specs.Beside.{beside_in};
ghost use Rattle.propagation.specs.Lent.{state_of, Lent, Ground};
ghost use Rattle.notes.specs.Sizes.{Alongside, Roomy};
ghost use Rattle.std.specs.declared.ops.ControlFlow.{ControlFlow};
ghost use Rattle.collapse.specs.declared.Ending.{Ending};
ghost use Rattle.collapse.specs.Endings.{end_number};
ghost use Rattle.choice.specs.Choice.{taken};
ghost use Rattle.course.specs.Run as run;
ghost use Rattle.course.specs.Run.{given};
ghost use Rattle.collapse.specs.Steps.{idle, turn_of, stop_of, Found, Sightly, Laid, ended_as};

use crate::{Ending, Stop};
use propagation::inner::Pile;
use std::ops::ControlFlow;

// Whether every cell has one pattern.
fn decided(domains: &[u64]) -> bool
    ensures { result ≡ run.decided domains.now }
{
    let mut c = 0;
    while c < domains.len() {
        if words::inner::count_ones(domains[c]) != 1 {
            return false;
        }
        c += 1;
    }
    true
}

// The end of a run with nothing to observe, by whether every cell has one pattern.
fn still_end(domains: &[u64]) -> Ending
    ensures { end_number result ≡ cond (run.decided domains.now) 0 1 }
{
    if decided(domains) {
        return Ending::Decided;
    }
    Ending::Undecided
}

// The pattern that a word takes at a cell stays, the others go, and that is propagated.
fn choose_at(
    count: usize,
    offsets: &[u32],
    ids: &[u8],
    weights: &[u32],
    weighted: u64,
    logs: &[f32],
    sums: &[u16],
    width: usize,
    height: usize,
    mode: usize,
    noise: &[u32],
    cell: usize,
    word: u32,
    domains: &mut [u64],
    counts: &mut [u8],
    pending: &mut [u32],
    floats: &mut [f32],
    marks: &mut [u8],
) -> Pile
    requires lent { Lent count (length domains.old) domains.old counts.old pending.old idle }
    requires ground { Ground (table count offsets.now ids.now) (grid width height mode) (length domains.old) }
    requires alongside { Alongside count (length domains.old) weights.now noise.now floats.old marks.old × (weighted ≡ mask weights.now) × Lookups weights.now logs.now sums.now }
    requires cell_in_bounds { (cell < length domains.old) × (0 < weight_sum weights.now (get_or domains.old cell 0)) }
    ensures { (state_of count domains.new counts.new pending.new result (beside_in (length domains.new) floats.new marks.new)
        ≡ run.chosen (given (table count offsets.now ids.now) weights.now (grid width height mode) noise.now) cell
        (taken weights.now (get_or domains.old cell 0) (word % weight_sum weights.now (get_or domains.old cell 0)))
        (state_of count domains.old counts.old pending.old idle (beside_in (length domains.old) floats.old marks.old)))
        × Watched (length domains.old) domains.old floats.old marks.old domains.new floats.new marks.new }
{
    let domain = domains[cell];
    let sum = adjacency::inner::weight_sum(weights, domain);
    let pattern = choice::inner::choose(weights, domain, word % sum);
    crate::inner::laying::lay(
        count, offsets, ids, weights, weighted, logs, sums, width, height, mode, noise, cell,
        pattern, 1, domains, counts, pending, floats, marks,
    )
}

// One turn, from slices with nothing pending and no empty cell: nothing to observe or no word left, which ends the run, or a choice.
fn turn(
    count: usize,
    offsets: &[u32],
    ids: &[u8],
    weights: &[u32],
    weighted: u64,
    logs: &[f32],
    sums: &[u16],
    width: usize,
    height: usize,
    mode: usize,
    noise: &[u32],
    words: &[u32],
    used: usize,
    domains: &mut [u64],
    counts: &mut [u8],
    pending: &mut [u32],
    floats: &mut [f32],
    marks: &mut [u8],
) -> ControlFlow<Ending, Pile>
    requires lent { Lent count (length domains.old) domains.old counts.old pending.old idle }
    requires ground { Ground (table count offsets.now ids.now) (grid width height mode) (length domains.old) }
    requires weighed { Weighed count weights.now × Roomy (length domains.old) noise.now floats.old marks.old × (weighted ≡ mask weights.now) × Lookups weights.now logs.now sums.now }
    requires sightly { Sightly noise.now weighted domains.old floats.old marks.old }
    ensures { (turn_of result used (λ pile. state_of count domains.new counts.new pending.new pile (beside_in (length domains.new) floats.new marks.new))
        ≡ run.turn (given (table count offsets.now ids.now) weights.now (grid width height mode) noise.now) words.now used
        (state_of count domains.old counts.old pending.old idle (beside_in (length domains.old) floats.old marks.old)))
        × Found noise.now weighted domains.new floats.new marks.new }
{
    match choice::inner::observe(domains.len(), noise, domains, floats, marks, weighted) {
        None => ControlFlow::Break(still_end(domains)),
        Some(sight) => {
            if used < words.len() {
                return ControlFlow::Continue(choose_at(
                    count,
                    offsets,
                    ids,
                    weights,
                    weighted,
                    logs,
                    sums,
                    width,
                    height,
                    mode,
                    noise,
                    sight.cell,
                    words[used],
                    domains,
                    counts,
                    pending,
                    floats,
                    marks,
                ));
            }
            ControlFlow::Break(Ending::Paused)
        }
    }
}

// One turn, and where it leaves the turns: at the run's end, which is a contradiction after a choice that empties a cell, or with one more word used.
fn advance(
    count: usize,
    offsets: &[u32],
    ids: &[u8],
    weights: &[u32],
    weighted: u64,
    logs: &[f32],
    sums: &[u16],
    width: usize,
    height: usize,
    mode: usize,
    noise: &[u32],
    words: &[u32],
    used: usize,
    domains: &mut [u64],
    counts: &mut [u8],
    pending: &mut [u32],
    floats: &mut [f32],
    marks: &mut [u8],
) -> ControlFlow<Stop, usize>
    requires lent { Lent count (length domains.old) domains.old counts.old pending.old idle }
    requires ground { Ground (table count offsets.now ids.now) (grid width height mode) (length domains.old) }
    requires weighed { Weighed count weights.now × Roomy (length domains.old) noise.now floats.old marks.old × (weighted ≡ mask weights.now) × Lookups weights.now logs.now sums.now }
    requires sightly { Sightly noise.now weighted domains.old floats.old marks.old }
    ensures { (step : ControlFlow Ending Pile) × (result ≡ stop_of step used)
        × (turn_of step used (λ pile. state_of count domains.new counts.new pending.new pile (beside_in (length domains.new) floats.new marks.new))
        ≡ run.turn (given (table count offsets.now ids.now) weights.now (grid width height mode) noise.now) words.now used
        (state_of count domains.old counts.old pending.old idle (beside_in (length domains.old) floats.old marks.old)))
        × Found noise.now weighted domains.new floats.new marks.new }
{
    match turn(
        count, offsets, ids, weights, weighted, logs, sums, width, height, mode, noise, words,
        used, domains, counts, pending, floats, marks,
    ) {
        ControlFlow::Break(end) => ControlFlow::Break(Stop { end, used }),
        ControlFlow::Continue(pile) => {
            if pile.empty {
                return ControlFlow::Break(Stop {
                    end: Ending::Contradiction,
                    used: used + 1,
                });
            }
            ControlFlow::Continue(used + 1)
        }
    }
}

// Turn by turn to the run's end, with what an observation left in the marks of blocks. What an entropy is looked up in is laid out once for all turns.
fn take_turns(
    count: usize,
    offsets: &[u32],
    ids: &[u8],
    weights: &[u32],
    weighted: u64,
    width: usize,
    height: usize,
    mode: usize,
    noise: &[u32],
    words: &[u32],
    domains: &mut [u64],
    counts: &mut [u8],
    pending: &mut [u32],
    floats: &mut [f32],
    marks: &mut [u8],
) -> Stop
    requires lent { Lent count (length domains.old) domains.old counts.old pending.old idle }
    requires ground { Ground (table count offsets.now ids.now) (grid width height mode) (length domains.old) }
    requires weighed { Weighed count weights.now × Roomy (length domains.old) noise.now floats.old marks.old × (weighted ≡ mask weights.now) }
    requires marks_len { (length marks.old ≡ 2 * length domains.old + blocks (length domains.old)) × Found noise.now weighted domains.old floats.old marks.old }
    requires laid { Laid (given (table count offsets.now ids.now) weights.now (grid width height mode) noise.now)
        (state_of count domains.old counts.old pending.old idle (beside_in (length domains.old) floats.old marks.old)) }
    ensures { ended_as result domains.new
        ≡ run.collapse (given (table count offsets.now ids.now) weights.now (grid width height mode) noise.now) words.now (cells (grid width height mode) + 1) 0
        (state_of count domains.old counts.old pending.old idle (beside_in (length domains.old) floats.old marks.old)) }
{
    let logs = logarithms::inner::logs();
    let sums = adjacency::inner::four_sums(weights);
    let end = adjacency::inner::sixteens(count);
    let mut used = 0;
    loop {
        match advance(
            count,
            offsets,
            ids,
            weights,
            weighted,
            &logs,
            &sums[..end],
            width,
            height,
            mode,
            noise,
            words,
            used,
            domains,
            counts,
            pending,
            floats,
            marks,
        ) {
            ControlFlow::Break(stop) => return stop,
            ControlFlow::Continue(more) => used = more,
        }
    }
}

// Turn by turn to the run's end, from slices as some forbids leave them, with nothing pending and no empty cell.
// After a contradiction the domains are those where a cell was emptied; the caller writes them as zero.
// No block was looked at before. It looks before anything is laid out, since a run that has nothing to choose looks nothing up.
pub fn collapse(
    count: usize,
    offsets: &[u32],
    ids: &[u8],
    weights: &[u32],
    weighted: u64,
    width: usize,
    height: usize,
    mode: usize,
    noise: &[u32],
    words: &[u32],
    domains: &mut [u64],
    counts: &mut [u8],
    pending: &mut [u32],
    floats: &mut [f32],
    marks: &mut [u8],
) -> Stop
    requires lent { Lent count (length domains.old) domains.old counts.old pending.old idle }
    requires ground { Ground (table count offsets.now ids.now) (grid width height mode) (length domains.old) }
    requires weighed { Weighed count weights.now × Roomy (length domains.old) noise.now floats.old marks.old × (weighted ≡ mask weights.now) }
    requires marks_len { length marks.old ≡ 2 * length domains.old + blocks (length domains.old) }
    requires laid { Laid (given (table count offsets.now ids.now) weights.now (grid width height mode) noise.now)
        (state_of count domains.old counts.old pending.old idle (beside_in (length domains.old) floats.old marks.old)) }
    ensures { ended_as result domains.new
        ≡ run.collapse (given (table count offsets.now ids.now) weights.now (grid width height mode) noise.now) words.now (cells (grid width height mode) + 1) 0
        (state_of count domains.old counts.old pending.old idle (beside_in (length domains.old) floats.old marks.old)) }
{
    choice::inner::forget(domains.len(), marks);
    match choice::inner::observe(domains.len(), noise, domains, floats, marks, weighted) {
        None => Stop {
            end: still_end(domains),
            used: 0,
        },
        Some(_) => take_turns(
            count, offsets, ids, weights, weighted, width, height, mode, noise, words, domains,
            counts, pending, floats, marks,
        ),
    }
}
