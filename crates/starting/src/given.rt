// Starting domains that are given: what they lack goes at once, since the domains lack it already.
// Follows docs/RULES.md, "Propagation".
ghost use Rattle.std.specs.Prelude.{[], ◌≡◌, ◌+◌, ◌^◌, ◌≤◌, ◌<◌, length};
ghost use Rattle.words.specs.Words.{has};
ghost use Rattle.adjacency.specs.Tables.{table};
ghost use Rattle.adjacency.specs.Accepted.{Accepted};
ghost use Rattle.consistency.specs.Domains.{emptied};
ghost use Rattle.consistency.specs.Worklist.{removal};
ghost use Rattle.consistency.specs.Start.{failing, missing};
ghost use Rattle.consistency.specs.Withdrawn.{work, withdrawn};
ghost use Rattle.consistency.specs.Withdrawn as meaning;
ghost use Rattle.propagation.specs.Lent.{pending_of, state_of};
ghost use Rattle.starting.specs.Given.{Starting, Spacious, given_state};

use propagation::inner::{Pile, start_counts};
use words::inner::{lacked_patterns, next_pattern, without_pattern};

// One pattern that a cell lacks: its counts are cleared, and its removal goes on the pile.
fn withdraw(
    count: usize,
    cell: usize,
    pattern: usize,
    counts: &mut [u8],
    pending: &mut [u32],
    top: usize,
)
    requires { Spacious count cell counts.old × (pattern < count) × (top < length pending.old) }
    ensures { work counts.new (pending_of count pending.new (top + 1))
        ≡ meaning.withdraw count (removal cell pattern) (work counts.old (pending_of count pending.old top)) }
{
    let slot = cell * count + pattern;
    propagation::inner::clear_all_directions(counts, slot * 4);
    pending[top] = propagation::inner::narrow(slot);
}

// All that a cell lacks, upward; the new height of the pile.
fn lack_at(
    count: usize,
    cell: usize,
    word: u64,
    counts: &mut [u8],
    pending: &mut [u32],
    height: usize,
) -> usize
    requires { Spacious count cell counts.old × (word < 2 ^ count) × (height + count ≤ length pending.old) }
    ensures { work counts.new (pending_of count pending.new result)
        ≡ withdrawn count (failing (has word) count 0 cell) (work counts.old (pending_of count pending.old height)) }
{
    let mut top = height;
    let mut left = lacked_patterns(word, count);
    while left != 0 {
        let pattern = next_pattern(left);
        withdraw(count, cell, pattern, counts, pending, top);
        top += 1;
        left = without_pattern(left, pattern);
    }
    top
}

// All that the starting domains lack, cell by cell; the height of the pile.
fn lack(count: usize, domains: &[u64], counts: &mut [u8], pending: &mut [u32]) -> usize
    requires { Starting count domains.now counts.old pending.old }
    ensures { work counts.new (pending_of count pending.new result)
        ≡ withdrawn count (missing count 0 domains.now) (work counts.old []) }
{
    let mut top = 0;
    let mut cell = 0;
    while cell < domains.len() {
        top = lack_at(count, cell, domains[cell], counts, pending, top);
        cell += 1;
    }
    top
}

// Whether a cell is empty.
fn any_empty(domains: &[u64]) -> bool
    ensures { result ≡ emptied domains.now }
{
    let mut cell = 0;
    while cell < domains.len() {
        if domains[cell] == 0 {
            return true;
        }
        cell += 1;
    }
    false
}

// Where the propagation of starting domains begins.
pub(crate) fn begin(
    count: usize,
    offsets: &[u32],
    ids: &[u8],
    domains: &[u64],
    counts: &mut [u8],
    pending: &mut [u32],
) -> Pile
    requires { Accepted (table count offsets.now ids.now) × Starting count domains.now counts.old pending.old }
    ensures { state_of count domains.now counts.new pending.new result (tt {0})
        ≡ given_state (table count offsets.now ids.now) domains.now }
{
    start_counts(count, offsets, ids, counts);
    let top = lack(count, domains, counts, pending);
    Pile {
        top: top,
        empty: any_empty(domains),
    }
}
