// The work list: the removal of a pattern, what it takes from its neighbours, and the propagation of what is pending. `Propagator` and `WaveCell` of the Rust.
// Follows docs/RULES.md, "Propagation".
ghost use Rattle.std.specs.Prelude.{◌≡◌, ℕ, ◌+◌, ◌*◌, ◌<◌, length, get_or, drop, true, List};
ghost use Rattle.adjacency.specs.Accepted.{AllBelow};
ghost use Rattle.adjacency.specs.Tables.{table};
ghost use Rattle.adjacency.specs.Weights.{mask, Weighed, weighted};
ghost use Rattle.grid.specs.Grid.{grid};
ghost use Rattle.logarithms.specs.Lookups.{Lookups};
ghost use Rattle.consistency.specs.Domains.{possible};
ghost use Rattle.consistency.specs.Worklist.{removal};
ghost use Rattle.notes.specs.Beside.{beside, beside_in, lessened, kept, unmarked};
ghost use Rattle.notes.specs.Watching.{watching};
ghost use Rattle.notes.specs.Sizes.{Alongside};
ghost use Rattle.notes.specs.Blocks.{Watched};
ghost use Rattle.logarithms.specs.Logs.{Logs};
ghost use Rattle.propagation.specs.Lent.{state_of, top_of, below_top, Lent, Ground};
ghost use Rattle.propagation.specs.Supports.{visits, until_loss};
ghost use Rattle.consistency.specs.Worklist as worklist;

use adjacency::inner::Table;
use grid::Grid;

// The pile of removals that are pending: its height, and whether a cell was emptied.
#[derive(Clone, Copy)]
pub struct Pile {
    pub top: usize,
    pub empty: bool,
}

fn wide(x: u8) -> usize
    ensures { result ≡ x }
{
    x as usize
}

fn slot(x: u32) -> usize
    ensures { result ≡ x }
{
    x as usize
}

pub fn narrow(x: usize) -> u32
    requires { x < 65536 }
    ensures { result ≡ x }
{
    x as u32
}

// Removes a pattern that is possible at a cell: the one place where a pattern goes, for forbids, choices and propagation alike.
pub fn remove(
    count: usize,
    weights: &[u32],
    logs: &[f32],
    cell: usize,
    pattern: usize,
    domains: &mut [u64],
    counts: &mut [u8],
    pending: &mut [u32],
    floats: &mut [f32],
    pile: Pile,
) -> Pile
    requires lent { Lent count (length domains.old) domains.old counts.old pending.old pile }
    requires weighed { Weighed count weights.now × ((p : ℕ) → weighted weights.now p ≡ true → length floats.old ≡ 2 * length domains.old) × Logs logs.now }
    requires cell_in_bounds { (cell < length domains.old) × (pattern < count) × (possible domains.old cell pattern ≡ 1) }
    ensures { (marks : List ℕ) → state_of count domains.new counts.new pending.new result (beside floats.new marks)
        ≡ worklist.remove count (lessened weights.now) (removal cell pattern)
        (state_of count domains.old counts.old pending.old pile (beside floats.old marks)) }
{
    let slot = cell * count + pattern;
    crate::inner::num_ways::clear_all_directions(counts, slot * 4);
    let word = words::inner::without_pattern(domains[cell], pattern);
    domains[cell] = word;
    let top = pile.top;
    pending[top] = narrow(slot);
    let weight = weights[pattern];
    notes::inner::lessen(logs, weight, cell, floats);
    Pile {
        top: top + 1,
        empty: pile.empty | (word == 0),
    }
}

// A pattern that is possible at a cell goes, proposes the entropy of what is left there, and touches the cell's block.
fn remove_and_propose(
    count: usize,
    weights: &[u32],
    weighted: u64,
    logs: &[f32],
    sums: &[u16],
    noise: &[u32],
    cells: usize,
    cell: usize,
    pattern: usize,
    domains: &mut [u64],
    counts: &mut [u8],
    pending: &mut [u32],
    floats: &mut [f32],
    marks: &mut [u8],
    pile: Pile,
) -> Pile
    requires lent { Lent count cells domains.old counts.old pending.old pile }
    requires alongside { Alongside count cells weights.now noise.now floats.old marks.old × (weighted ≡ mask weights.now) × Lookups weights.now logs.now sums.now }
    requires cell_lt_cells { (cell < cells) × (pattern < count) × (possible domains.old cell pattern ≡ 1) }
    ensures { state_of count domains.new counts.new pending.new result (beside floats.new marks.new)
        ≡ worklist.remove count (watching weights.now noise.now cells) (removal cell pattern)
        (state_of count domains.old counts.old pending.old pile (beside floats.old marks.old)) }
{
    let next = remove(
        count, weights, logs, cell, pattern, domains, counts, pending, floats, pile,
    );
    notes::inner::propose(
        count,
        weights,
        weighted,
        logs,
        sums,
        noise,
        cells,
        cell,
        pattern,
        domains[cell],
        floats,
        marks,
    );
    notes::inner::touch(cells, cell, marks);
    next
}

// From one entry on, takes one support from direction d from each pattern of a list, until one loses its last: that entry, or the list's end.
// The loop stands alone, without a removal in it, so that its values need not be kept in memory.
fn next_loss(base: usize, d: usize, list: &[u8], from: usize, counts: &mut [u8]) -> usize
    requires { (i : ℕ) → i < length list.now → (base + get_or list.now i 0) * 4 + d < length counts.old }
    ensures { visits (drop result list.now) counts.new ≡ until_loss base d (drop from list.now) counts.old }
{
    let mut i = from;
    while i < list.len() {
        if crate::inner::num_ways::try_decrement(counts, (base + wide(list[i])) * 4 + d) {
            return i;
        }
        i += 1;
    }
    i
}

// Takes one support from direction d from each pattern of a list at a cell, in its order; where it was the last, the pattern goes.
fn decrements(
    count: usize,
    weights: &[u32],
    weighted: u64,
    logs: &[f32],
    sums: &[u16],
    noise: &[u32],
    cells: usize,
    cell: usize,
    d: usize,
    list: &[u8],
    domains: &mut [u64],
    counts: &mut [u8],
    pending: &mut [u32],
    floats: &mut [f32],
    marks: &mut [u8],
    pile: Pile,
) -> Pile
    requires lent { Lent count cells domains.old counts.old pending.old pile }
    requires alongside { Alongside count cells weights.now noise.now floats.old marks.old × (weighted ≡ mask weights.now) × Lookups weights.now logs.now sums.now }
    requires cell_lt_cells { (cell < cells) × (d < 4) × AllBelow count list.now }
    ensures { state_of count domains.new counts.new pending.new result (beside floats.new marks.new)
        ≡ worklist.decrements count (watching weights.now noise.now cells) cell d list.now
        (state_of count domains.old counts.old pending.old pile (beside floats.old marks.old)) }
{
    let base = cell * count;
    let mut top = pile.top;
    let mut empty = pile.empty;
    let mut i = next_loss(base, d, list, 0, counts);
    while i < list.len() {
        let next = remove_and_propose(
            count,
            weights,
            weighted,
            logs,
            sums,
            noise,
            cells,
            cell,
            wide(list[i]),
            domains,
            counts,
            pending,
            floats,
            marks,
            Pile {
                top: top,
                empty: empty,
            },
        );
        top = next.top;
        empty = next.empty;
        i = next_loss(base, d, list, i + 1, counts);
    }
    Pile {
        top: top,
        empty: empty,
    }
}

// What the removal of pattern p from a cell takes from the neighbour in direction d, where there is one.
fn spread_in(
    count: usize,
    offsets: &[u32],
    ids: &[u8],
    weights: &[u32],
    weighted: u64,
    logs: &[f32],
    sums: &[u16],
    width: usize,
    height: usize,
    mode: usize,
    noise: &[u32],
    cells: usize,
    cell: usize,
    p: usize,
    d: usize,
    domains: &mut [u64],
    counts: &mut [u8],
    pending: &mut [u32],
    floats: &mut [f32],
    marks: &mut [u8],
    pile: Pile,
) -> Pile
    requires lent { Lent count cells domains.old counts.old pending.old pile }
    requires ground { Ground (table count offsets.now ids.now) (grid width height mode) cells × (cell < cells) × (p < count) × (d < 4) }
    requires alongside { Alongside count cells weights.now noise.now floats.old marks.old × (weighted ≡ mask weights.now) × Lookups weights.now logs.now sums.now }
    ensures { state_of count domains.new counts.new pending.new result (beside floats.new marks.new)
        ≡ worklist.spread_in (table count offsets.now ids.now) (grid width height mode) (watching weights.now noise.now cells) (removal cell p) d
        (state_of count domains.old counts.old pending.old pile (beside floats.old marks.old)) }
{
    let table = Table {
        count,
        offsets,
        ids,
    };
    let grid = Grid {
        width,
        height,
        mode,
    };
    match grid.neighbour_of(cell, d) {
        Some(n) => decrements(
            count,
            weights,
            weighted,
            logs,
            sums,
            noise,
            cells,
            n,
            d,
            table.list_of(p, d),
            domains,
            counts,
            pending,
            floats,
            marks,
            pile,
        ),
        None => pile,
    }
}

// What a removal takes from its neighbours, directions 0 to 3.
fn spread(
    count: usize,
    offsets: &[u32],
    ids: &[u8],
    weights: &[u32],
    weighted: u64,
    logs: &[f32],
    sums: &[u16],
    width: usize,
    height: usize,
    mode: usize,
    noise: &[u32],
    cells: usize,
    cell: usize,
    p: usize,
    domains: &mut [u64],
    counts: &mut [u8],
    pending: &mut [u32],
    floats: &mut [f32],
    marks: &mut [u8],
    pile: Pile,
) -> Pile
    requires lent { Lent count cells domains.old counts.old pending.old pile }
    requires ground { Ground (table count offsets.now ids.now) (grid width height mode) cells × (cell < cells) × (p < count) }
    requires alongside { Alongside count cells weights.now noise.now floats.old marks.old × (weighted ≡ mask weights.now) × Lookups weights.now logs.now sums.now }
    ensures { state_of count domains.new counts.new pending.new result (beside floats.new marks.new)
        ≡ worklist.spread (table count offsets.now ids.now) (grid width height mode) (watching weights.now noise.now cells) (removal cell p)
        (state_of count domains.old counts.old pending.old pile (beside floats.old marks.old)) }
{
    let mut top = pile.top;
    let mut empty = pile.empty;
    let mut d = 0;
    while d < 4 {
        let next = spread_in(
            count,
            offsets,
            ids,
            weights,
            weighted,
            logs,
            sums,
            width,
            height,
            mode,
            noise,
            cells,
            cell,
            p,
            d,
            domains,
            counts,
            pending,
            floats,
            marks,
            Pile {
                top: top,
                empty: empty,
            },
        );
        top = next.top;
        empty = next.empty;
        d += 1;
    }
    Pile {
        top: top,
        empty: empty,
    }
}

// Pops the removal on top of the pile and spreads it.
fn pop(
    count: usize,
    offsets: &[u32],
    ids: &[u8],
    weights: &[u32],
    weighted: u64,
    logs: &[f32],
    sums: &[u16],
    width: usize,
    height: usize,
    mode: usize,
    noise: &[u32],
    cells: usize,
    domains: &mut [u64],
    counts: &mut [u8],
    pending: &mut [u32],
    floats: &mut [f32],
    marks: &mut [u8],
    pile: Pile,
) -> Pile
    requires lent { Lent count cells domains.old counts.old pending.old pile }
    requires ground { Ground (table count offsets.now ids.now) (grid width height mode) cells × (0 < pile.top) }
    requires alongside { Alongside count cells weights.now noise.now floats.old marks.old × (weighted ≡ mask weights.now) × Lookups weights.now logs.now sums.now }
    ensures { state_of count domains.new counts.new pending.new result (beside floats.new marks.new)
        ≡ worklist.spread (table count offsets.now ids.now) (grid width height mode) (watching weights.now noise.now cells) (top_of count pending.old pile)
        (state_of count domains.old counts.old pending.old (below_top pile) (beside floats.old marks.old)) }
{
    let top = pile.top - 1;
    let u = slot(pending[top]);
    spread(
        count,
        offsets,
        ids,
        weights,
        weighted,
        logs,
        sums,
        width,
        height,
        mode,
        noise,
        cells,
        u / count,
        u % count,
        domains,
        counts,
        pending,
        floats,
        marks,
        Pile {
            top: top,
            empty: pile.empty,
        },
    )
}

// Propagates what is pending: pops until the pile is empty or a cell is. Every block in which something changed is touched.
pub fn propagate(
    count: usize,
    offsets: &[u32],
    ids: &[u8],
    weights: &[u32],
    weighted: u64,
    logs: &[f32],
    sums: &[u16],
    width: usize,
    height: usize,
    mode: usize,
    noise: &[u32],
    domains: &mut [u64],
    counts: &mut [u8],
    pending: &mut [u32],
    floats: &mut [f32],
    marks: &mut [u8],
    pile: Pile,
) -> Pile
    requires lent { Lent count (length domains.old) domains.old counts.old pending.old pile }
    requires ground { Ground (table count offsets.now ids.now) (grid width height mode) (length domains.old) }
    requires alongside { Alongside count (length domains.old) weights.now noise.now floats.old marks.old × (weighted ≡ mask weights.now) × Lookups weights.now logs.now sums.now }
    ensures { (state_of count domains.new counts.new pending.new result
        (beside_in (length domains.old) floats.new marks.new)
        ≡ worklist.propagated (table count offsets.now ids.now) (grid width height mode) (kept weights.now noise.now (length domains.old))
        (state_of count domains.old counts.old pending.old pile
        (unmarked (length domains.old) (beside_in (length domains.old) floats.old marks.old))))
        × Watched (length domains.old) domains.old floats.old marks.old domains.new floats.new marks.new }
{
    let cells = domains.len();
    notes::inner::unmark(cells, marks);
    let mut top = pile.top;
    let mut empty = pile.empty;
    while (0 < top) & !empty {
        let next = pop(
            count,
            offsets,
            ids,
            weights,
            weighted,
            logs,
            sums,
            width,
            height,
            mode,
            noise,
            cells,
            domains,
            counts,
            pending,
            floats,
            marks,
            Pile {
                top: top,
                empty: empty,
            },
        );
        top = next.top;
        empty = next.empty;
    }
    Pile {
        top: top,
        empty: empty,
    }
}
