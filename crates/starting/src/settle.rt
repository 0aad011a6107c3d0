// Starting domains that are accepted: the work list on them with nothing kept beside, and what is written at its end.
// Follows docs/RULES.md, "Propagation" and "Refusals".
ghost use Rattle.std.specs.Prelude.{◌≡◌, length};
ghost use Rattle.refusals.specs.Refusals.{answer};
ghost use Rattle.adjacency.specs.Tables.{table};
ghost use Rattle.grid.specs.Grid.{grid};
ghost use Rattle.propagation.specs.Lent.{Ground};
ghost use Rattle.starting.specs.Given.{Starting};
ghost use Rattle.starting.specs.Propagate.{reduced_from, outcome, outcome_at};

use propagation::inner::{zero_bytes, zero_domains, zero_pending};

// Propagates starting domains; whether a cell was emptied. No pattern has weight, so every weight sum is 0 and no note is read or written; the marks
// have room for 1,024 cells and their blocks.
fn reduce(
    count: usize,
    offsets: &[u32],
    ids: &[u8],
    width: usize,
    height: usize,
    mode: usize,
    domains: &mut [u64],
    counts: &mut [u8],
    pending: &mut [u32],
) -> bool
    requires ground { Ground (table count offsets.now ids.now) (grid width height mode) (length domains.old) }
    requires starting { Starting count domains.old counts.old pending.old }
    ensures value { result ≡ (reduced_from (table count offsets.now ids.now) (grid width height mode) domains.old).empty }
    ensures domains_after { domains.new ≡ (reduced_from (table count offsets.now ids.now) (grid width height mode) domains.old).domains }
{
    let begun = crate::given::begin(count, offsets, ids, domains, counts, pending);
    let logs = logarithms::inner::logs();
    let weights = [0u32; 64];
    let sums = [0u16; 256];
    let noise = [0u32; 1];
    let mut floats = [0.0f32; 1];
    let mut marks = [0u8; 2080];
    let pile = propagation::inner::propagate(
        count,
        offsets,
        ids,
        &weights[..count],
        0,
        &logs,
        &sums,
        width,
        height,
        mode,
        &noise,
        domains,
        counts,
        pending,
        &mut floats,
        &mut marks,
        begun,
    );
    pile.empty
}

// Propagates starting domains and writes what remains, all zero where a cell was emptied, and zero over the work memory; whether one was.
pub(crate) fn settle(
    count: usize,
    offsets: &[u32],
    ids: &[u8],
    width: usize,
    height: usize,
    mode: usize,
    domains: &mut [u64],
    counts: &mut [u8],
    pending: &mut [u32],
) -> bool
    requires ground { Ground (table count offsets.now ids.now) (grid width height mode) (length domains.old) }
    requires starting { Starting count domains.old counts.old pending.old }
    ensures { outcome (answer result) domains.new counts.new pending.new
        ≡ outcome_at 0 (table count offsets.now ids.now) (grid width height mode)
        domains.old counts.old pending.old }
{
    let empty = reduce(
        count, offsets, ids, width, height, mode, domains, counts, pending,
    );
    zero_bytes(counts);
    zero_pending(pending);
    if empty {
        zero_domains(domains);
        return true;
    }
    false
}
