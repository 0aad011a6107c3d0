// The stages of a call, over plain numbers: refused or begun, a forbid laid, concluded. Whoever holds the forbids goes through them in order.
// Follows docs/RULES.md, "Run" and "Refusals". A refusal ends the call; after a contradiction nothing is left but to write it.
// Each is lent every slice of the run, read or not, so that whoever holds the forbids lends the same ones each time.
ghost use Rattle.std.specs.Prelude.{◌≡◌, ◌<◌, false, length};
ghost use Rattle.refusals.specs.Refusals.{number_of};
ghost use Rattle.adjacency.specs.Tables.{table};
ghost use Rattle.grid.specs.Grid.{grid};
ghost use Rattle.choice.specs.Observer.{sight_of};
ghost use Rattle.course.specs.Run.{given, sighted};
ghost use Rattle.forbids.specs.Forbids.{asking};
ghost use Rattle.course.specs.Called.{memory, outcome};
ghost use Rattle.run.specs.Answers.{answer_told};
ghost use Rattle.run.specs.Stages.{state_in, begun_as, begun_by, stage_of, Standing, beginning, lay_at, concluding};

use crate::{Ending, Stop};
use choice::inner::Sight;
use refusals::Refusal;

// Every refusal in order, of which `bad` is that of the forbids; or the run begins.
pub fn begin_judged(
    bad: Result<(), Refusal>,
    lent: usize,
    count: usize,
    width: usize,
    height: usize,
    mode: usize,
    weights: &[u32],
    offsets: &[u32],
    ids: &[u8],
    noise: &[u32],
    words: &[u32],
    domains: &mut [u64],
    counts: &mut [u8],
    pending: &mut [u32],
    floats: &mut [f32],
    marks: &mut [u8],
) -> Result<(), Refusal>
    ensures { begun_as count result (memory domains.new counts.new pending.new floats.new marks.new)
        ≡ beginning (number_of bad) lent (given (table count offsets.now ids.now) weights.now (grid width height mode) noise.now)
        (memory domains.old counts.old pending.old floats.old marks.old) }
{
    crate::check::check(
        count,
        offsets,
        ids,
        weights,
        width,
        height,
        mode,
        noise,
        lent,
        domains.len(),
        counts.len(),
        pending.len(),
        floats.len(),
        marks.len(),
    )?;
    bad?;
    collapse::inner::begin_state(
        count,
        offsets,
        ids,
        weights,
        adjacency::inner::weighted_mask(weights),
        height * width,
        domains,
        counts,
        floats,
        marks,
    );
    Ok(())
}

// The same where a number tells the forbids' refusal, 0 for none. Any other number is answered as it is, whether a refusal has it or not.
pub fn begin(
    bad: u32,
    lent: usize,
    count: usize,
    width: usize,
    height: usize,
    mode: usize,
    weights: &[u32],
    offsets: &[u32],
    ids: &[u8],
    noise: &[u32],
    words: &[u32],
    domains: &mut [u64],
    counts: &mut [u8],
    pending: &mut [u32],
    floats: &mut [f32],
    marks: &mut [u8],
) -> Result<(), u32>
    ensures { begun_by count result (memory domains.new counts.new pending.new floats.new marks.new)
        ≡ beginning bad lent (given (table count offsets.now ids.now) weights.now (grid width height mode) noise.now)
        (memory domains.old counts.old pending.old floats.old marks.old) }
{
    if bad != 0 {
        crate::check::check(
            count,
            offsets,
            ids,
            weights,
            width,
            height,
            mode,
            noise,
            lent,
            domains.len(),
            counts.len(),
            pending.len(),
            floats.len(),
            marks.len(),
        )?;
        return Err(bad);
    }
    begin_judged(
        Ok(()),
        lent,
        count,
        width,
        height,
        mode,
        weights,
        offsets,
        ids,
        noise,
        words,
        domains,
        counts,
        pending,
        floats,
        marks,
    )?;
    Ok(())
}

// A forbid is laid; whether it emptied a cell, which is a contradiction.
pub fn lay_one(
    cell: u32,
    pattern: u32,
    keep: u32,
    count: usize,
    width: usize,
    height: usize,
    mode: usize,
    weights: &[u32],
    offsets: &[u32],
    ids: &[u8],
    noise: &[u32],
    words: &[u32],
    domains: &mut [u64],
    counts: &mut [u8],
    pending: &mut [u32],
    floats: &mut [f32],
    marks: &mut [u8],
) -> bool
    requires { Standing (given (table count offsets.now ids.now) weights.now (grid width height mode) noise.now) (memory domains.old counts.old pending.old floats.old marks.old)
        × (cell < length domains.old) × (pattern < count) }
    ensures { stage_of count result (memory domains.new counts.new pending.new floats.new marks.new)
        ≡ lay_at (given (table count offsets.now ids.now) weights.now (grid width height mode) noise.now) (asking cell pattern keep)
        (state_in count (memory domains.old counts.old pending.old floats.old marks.old)) }
{
    let logs = logarithms::inner::logs();
    let sums = adjacency::inner::four_sums(weights);
    let pile = collapse::inner::lay(
        count,
        offsets,
        ids,
        weights,
        adjacency::inner::weighted_mask(weights),
        &logs,
        &sums[..adjacency::inner::sixteens(count)],
        width,
        height,
        mode,
        noise,
        cell as usize,
        pattern as usize,
        keep,
        domains,
        counts,
        pending,
        floats,
        marks,
    );
    pile.empty
}

// What the run observes where it stands, with nothing known of any block. A run's own turns look only where something changed.
pub fn sight(
    count: usize,
    width: usize,
    height: usize,
    mode: usize,
    weights: &[u32],
    offsets: &[u32],
    ids: &[u8],
    noise: &[u32],
    domains: &mut [u64],
    counts: &mut [u8],
    pending: &mut [u32],
    floats: &mut [f32],
    marks: &mut [u8],
) -> Option<Sight>
    requires { Standing (given (table count offsets.now ids.now) weights.now (grid width height mode) noise.now) (memory domains.old counts.old pending.old floats.old marks.old) }
    ensures { (sight_of result ≡ sighted (given (table count offsets.now ids.now) weights.now (grid width height mode) noise.now)
        (state_in count (memory domains.old counts.old pending.old floats.old marks.old)))
        × Standing (given (table count offsets.now ids.now) weights.now (grid width height mode) noise.now)
        (memory domains.new counts.new pending.new floats.new marks.new) }
{
    choice::inner::forget(domains.len(), marks);
    choice::inner::observe(
        domains.len(),
        noise,
        domains,
        floats,
        marks,
        adjacency::inner::weighted_mask(weights),
    )
}

// What comes after the forbids: all memory zero where one of them emptied a cell, otherwise the turns, the answer, and the work memory zero.
pub(crate) fn conclude(
    empty: bool,
    count: usize,
    width: usize,
    height: usize,
    mode: usize,
    weights: &[u32],
    offsets: &[u32],
    ids: &[u8],
    noise: &[u32],
    words: &[u32],
    domains: &mut [u64],
    counts: &mut [u8],
    pending: &mut [u32],
    floats: &mut [f32],
    marks: &mut [u8],
) -> Stop
    requires { empty ≡ false → Standing (given (table count offsets.now ids.now) weights.now (grid width height mode) noise.now) (memory domains.old counts.old pending.old floats.old marks.old) }
    ensures { outcome (answer_told (Ok result)) (memory domains.new counts.new pending.new floats.new marks.new)
        ≡ concluding (given (table count offsets.now ids.now) weights.now (grid width height mode) noise.now) words.now
        (stage_of count empty (memory domains.old counts.old pending.old floats.old marks.old))
        (memory domains.old counts.old pending.old floats.old marks.old) }
{
    if empty {
        collapse::inner::finish(true, domains, counts, pending, floats, marks);
        return Stop {
            end: Ending::Contradiction,
            used: 0,
        };
    }
    let stop = collapse::inner::collapse(
        count,
        offsets,
        ids,
        weights,
        adjacency::inner::weighted_mask(weights),
        width,
        height,
        mode,
        noise,
        words,
        domains,
        counts,
        pending,
        floats,
        marks,
    );
    let contradiction = stop.end == Ending::Contradiction;
    collapse::inner::finish(contradiction, domains, counts, pending, floats, marks);
    stop
}
