// Propagation of starting domains: the public call.
// Follows docs/RULES.md, "Propagation".
// Main property: what is left is the greatest consistent subset of the starting domains, or a contradiction where that has an empty cell.
#![tactic(auto)]

ghost use Rattle.std.specs.Prelude.{◌≡◌};
ghost use Rattle.adjacency.specs.Tables.{table};
ghost use Rattle.grid.specs.Grid.{grid};
ghost use Rattle.starting.specs.Propagate.{outcome, propagated_told, propagate_of};

use refusals::Refusal;

mod check;
mod given;
mod settle;

// What propagation of starting domains comes to.
#[derive(Clone, Copy, Debug, PartialEq, Eq)]
pub enum Propagated {
    Consistent,
    Contradiction,
}

// Propagates starting domains: what remains of them, or all zero where a cell is left empty. Work memory ends as zero.
// Lengths: 4 P + 1 offsets, a domain for each cell, 4 P counts and P pending removals for each cell.
pub fn propagate(
    count: usize,
    offsets: &[u32],
    ids: &[u8],
    width: usize,
    height: usize,
    mode: usize,
    domains: &mut [u64],
    counts: &mut [u8],
    pending: &mut [u32],
) -> Result<Propagated, Refusal>
    ensures { outcome (propagated_told result) domains.new counts.new pending.new
        ≡ propagate_of (table count offsets.now ids.now) (grid width height mode)
        domains.old counts.old pending.old }
{
    check::check(
        count,
        offsets,
        ids,
        width,
        height,
        mode,
        domains,
        counts.len(),
        pending.len(),
    )?;
    let contradiction = settle::settle(
        count, offsets, ids, width, height, mode, domains, counts, pending,
    );
    if contradiction {
        return Ok(Propagated::Contradiction);
    }
    Ok(Propagated::Consistent)
}
