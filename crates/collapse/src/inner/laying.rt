// What is asked to go from a cell, removed and propagated: one pattern, or all but one.
// Follows docs/RULES.md, "Run" and "Propagation".
ghost use Rattle.std.specs.Prelude.{true, ◌≡◌, List, [], ◌∷◌, ℕ, ◌*◌, ◌<◌, length};
ghost use Rattle.adjacency.specs.Tables.{table};
ghost use Rattle.adjacency.specs.Weights.{Weighed, weighted, mask};
ghost use Rattle.grid.specs.Grid.{grid};
ghost use Rattle.consistency.specs.Worklist.{removal, forbids};
ghost use Rattle.consistency.specs.Start.{others};
ghost use Rattle.notes.specs.Blocks.{Watched};
ghost use Rattle.logarithms.specs.Logs.{Logs};
ghost use Rattle.logarithms.specs.Lookups.{Lookups};
ghost use Rattle.notes.specs.Beside.{beside, beside_in, lessened};
ghost use Rattle.propagation.specs.Lent.{state_of, Lent, Ground};
ghost use Rattle.notes.specs.Sizes.{Alongside};
ghost use Rattle.course.specs.Run.{asked, laid, given};
ghost use Rattle.forbids.specs.Forbids.{asking};
ghost use Rattle.collapse.specs.Steps.{idle};

use propagation::inner::Pile;

// Removes every pattern of a cell but one, upward. What is left is read from the cell itself, so only patterns that are possible are visited.
fn remove_others(
    count: usize,
    weights: &[u32],
    logs: &[f32],
    cell: usize,
    pattern: usize,
    domains: &mut [u64],
    counts: &mut [u8],
    pending: &mut [u32],
    floats: &mut [f32],
    pile: Pile,
) -> Pile
    requires lent { Lent count (length domains.old) domains.old counts.old pending.old pile }
    requires weighed { Weighed count weights.now × ((p : ℕ) → weighted weights.now p ≡ true → length floats.old ≡ 2 * length domains.old) × Logs logs.now }
    requires cell_in_bounds { (cell < length domains.old) × (pattern < count) }
    ensures { (marks : List ℕ) → state_of count domains.new counts.new pending.new result (beside floats.new marks)
        ≡ forbids count (lessened weights.now) (others count cell pattern)
        (state_of count domains.old counts.old pending.old pile (beside floats.old marks)) }
{
    let mut next = pile;
    let mut left = words::inner::without_pattern(domains[cell], pattern);
    while left != 0 {
        next = propagation::inner::remove(
            count,
            weights,
            logs,
            cell,
            words::inner::next_pattern(left),
            domains,
            counts,
            pending,
            floats,
            next,
        );
        left = words::inner::without_pattern(domains[cell], pattern);
    }
    next
}

// Removes a pattern of a cell, where it is possible.
fn forbid_pattern(
    count: usize,
    weights: &[u32],
    logs: &[f32],
    cell: usize,
    pattern: usize,
    domains: &mut [u64],
    counts: &mut [u8],
    pending: &mut [u32],
    floats: &mut [f32],
    pile: Pile,
) -> Pile
    requires lent { Lent count (length domains.old) domains.old counts.old pending.old pile }
    requires weighed { Weighed count weights.now × ((p : ℕ) → weighted weights.now p ≡ true → length floats.old ≡ 2 * length domains.old) × Logs logs.now }
    requires cell_in_bounds { (cell < length domains.old) × (pattern < count) }
    ensures { (marks : List ℕ) → state_of count domains.new counts.new pending.new result (beside floats.new marks)
        ≡ forbids count (lessened weights.now) (removal cell pattern ∷ [])
        (state_of count domains.old counts.old pending.old pile (beside floats.old marks)) }
{
    if words::inner::has_pattern(domains[cell], pattern) {
        return propagation::inner::remove(
            count, weights, logs, cell, pattern, domains, counts, pending, floats, pile,
        );
    }
    pile
}

// Removes what a forbid asks for.
fn strike(
    count: usize,
    weights: &[u32],
    logs: &[f32],
    cell: usize,
    pattern: usize,
    keep: u32,
    domains: &mut [u64],
    counts: &mut [u8],
    pending: &mut [u32],
    floats: &mut [f32],
    pile: Pile,
) -> Pile
    requires lent { Lent count (length domains.old) domains.old counts.old pending.old pile }
    requires weighed { Weighed count weights.now × ((p : ℕ) → weighted weights.now p ≡ true → length floats.old ≡ 2 * length domains.old) × Logs logs.now }
    requires cell_in_bounds { (cell < length domains.old) × (pattern < count) }
    ensures { (marks : List ℕ) → state_of count domains.new counts.new pending.new result (beside floats.new marks)
        ≡ forbids count (lessened weights.now) (asked count (asking cell pattern keep))
        (state_of count domains.old counts.old pending.old pile (beside floats.old marks)) }
{
    if keep == 0 {
        return forbid_pattern(
            count, weights, logs, cell, pattern, domains, counts, pending, floats, pile,
        );
    }
    remove_others(
        count, weights, logs, cell, pattern, domains, counts, pending, floats, pile,
    )
}

// Lays a forbid, from slices with nothing pending and no empty cell: what it asks for goes, and that is propagated. Every block in which something changes is touched.
pub fn lay(
    count: usize,
    offsets: &[u32],
    ids: &[u8],
    weights: &[u32],
    weighted: u64,
    logs: &[f32],
    sums: &[u16],
    width: usize,
    height: usize,
    mode: usize,
    noise: &[u32],
    cell: usize,
    pattern: usize,
    keep: u32,
    domains: &mut [u64],
    counts: &mut [u8],
    pending: &mut [u32],
    floats: &mut [f32],
    marks: &mut [u8],
) -> Pile
    requires lent { Lent count (length domains.old) domains.old counts.old pending.old idle }
    requires ground { Ground (table count offsets.now ids.now) (grid width height mode) (length domains.old) }
    requires alongside { Alongside count (length domains.old) weights.now noise.now floats.old marks.old × (weighted ≡ mask weights.now) × Lookups weights.now logs.now sums.now }
    requires cell_in_bounds { (cell < length domains.old) × (pattern < count) }
    ensures { (state_of count domains.new counts.new pending.new result (beside_in (length domains.new) floats.new marks.new)
        ≡ laid (given (table count offsets.now ids.now) weights.now (grid width height mode) noise.now) (asking cell pattern keep)
        (state_of count domains.old counts.old pending.old idle (beside_in (length domains.old) floats.old marks.old)))
        × Watched (length domains.old) domains.old floats.old marks.old domains.new floats.new marks.new }
{
    notes::inner::touch(domains.len(), cell, marks);
    let pile = strike(
        count,
        weights,
        logs,
        cell,
        pattern,
        keep,
        domains,
        counts,
        pending,
        floats,
        Pile {
            top: 0,
            empty: false,
        },
    );
    propagation::inner::propagate(
        count, offsets, ids, weights, weighted, logs, sums, width, height, mode, noise, domains,
        counts, pending, floats, marks, pile,
    )
}
