// The searches, each for the first of its kind. Follows docs/RULES.md, "Refusals" and "Programs".
ghost use Rattle.std.specs.Prelude.{Bool, ◌≡◌, ℕ, ◌+◌, ◌*◌, ◌/◌, ◌<◌, length};
ghost use Rattle.refusals.specs.Refusals.{number};
ghost use Rattle.adjacency.specs.Accepted.{Laid, Listed};
ghost use Rattle.faults.specs.Places.{first_failing, Tells, list_fits, list_agrees, list_place, unanswered, pair_place, forbid_fits, forbid_place, place_at};

use crate::inner::Place;
use adjacency::inner::{Table, in_list, list_ok};
use forbids::inner::judge;
use grid::Grid;
use refusals::Refusal;

// The first number below the end that fails a test, the end where none does.
fn first_failing<F: Fn(usize) -> bool>(end: usize, fits: F) -> usize
    requires { (k : ℕ) → k < end → F.pre fits k }
    ensures { (f : ℕ → Bool) → Tells (F.post fits) f end → result ≡ first_failing f 0 end }
{
    for k in 0..end {
        if !fits(k) {
            return k;
        }
    }
    end
}

// ---- lists

// The first list that is not as it must be, 4P where all are.
fn bad_list(table: &Table) -> usize
    requires { Laid table.now }
    ensures { result ≡ first_failing (list_fits table.now) 0 (4 * table.now.count) }
{
    first_failing(
        4 * table.count,
        |k| list_ok(table.count, table.list_of(k / 4, k % 4)),
    )
}

// That list, by its pattern and its direction.
fn list_place(table: &Table) -> Place
    requires { Laid table.now }
    ensures { result ≡ list_place table.now }
{
    let k = bad_list(table);
    if k < 4 * table.count {
        return Place::List(k / 4, k % 4);
    }
    Place::Nowhere
}

// ---- agreement

// The first list that disagrees, 4P where none does.
fn one_sided(table: &Table) -> usize
    requires { Listed table.now }
    ensures { result ≡ first_failing (list_agrees table.now) 0 (4 * table.now.count) }
{
    first_failing(4 * table.count, |k| table.agrees_at(k / 4, k % 4))
}

// The first id of p's list for d whose own list for the opposite lacks p; 0 where there is none.
fn unanswered(table: &Table, p: usize, d: usize) -> usize
    requires { Listed table.now × (p < table.now.count) × (d < 4) }
    ensures { result ≡ unanswered table.now p d }
{
    let list = table.list_of(p, d);
    let back = directions::inner::opposite_of(d);
    for id in list {
        let q = usize::from(*id);
        if !in_list(p, table.list_of(q, back)) {
            return q;
        }
    }
    0
}

// The pattern, the direction and the id.
fn pair_place(table: &Table) -> Place
    requires { Laid table.now }
    ensures { result ≡ pair_place table.now }
{
    if table.bad_list() {
        return Place::Nowhere;
    }
    let k = one_sided(table);
    if k < 4 * table.count {
        let q = unanswered(table, k / 4, k % 4);
        return Place::Pair(k / 4, k % 4, q);
    }
    Place::Nowhere
}

// ---- forbids

// Whether forbid number i is not refused.
fn forbid_fits(forbids: &[u32], count: usize, grid: Grid, i: usize) -> bool
    requires { i < length forbids.now / 3 }
    ensures { result ≡ forbid_fits count grid forbids.now i }
{
    judge(forbids[3 * i], forbids[3 * i + 1], count, grid).is_ok()
}

// The first forbid that is refused, by its number; as many as there are where none is.
fn bad_forbid(forbids: &[u32], count: usize, grid: Grid) -> usize
    ensures { result ≡ first_failing (forbid_fits count grid forbids.now) 0 (length forbids.now / 3) }
{
    first_failing(forbids.len() / 3, |i| forbid_fits(forbids, count, grid, i))
}

// That forbid, and what it names.
fn forbid_place(forbids: &[u32], count: usize, grid: Grid) -> Place
    ensures { result ≡ forbid_place count grid forbids.now }
{
    let i = bad_forbid(forbids, count, grid);
    if i < forbids.len() / 3 {
        let cell = forbids[3 * i];
        let pattern = forbids[3 * i + 1];
        if judge(cell, pattern, count, grid) == Err(Refusal::BadCell) {
            return Place::Cell(i, cell as usize);
        }
        return Place::Pattern(i, pattern as usize);
    }
    Place::Nowhere
}

// ---- by the refusal

pub(crate) fn place_at(refusal: Refusal, table: &Table, grid: Grid, forbids: &[u32]) -> Place
    requires { Laid table.now }
    ensures { result ≡ place_at (number refusal) table.now grid forbids.now }
{
    match refusal {
        Refusal::BadList => list_place(table),
        Refusal::Disagree => pair_place(table),
        Refusal::BadCell | Refusal::BadPattern => forbid_place(forbids, table.count, grid),
        _ => Place::Nowhere,
    }
}
