// When a run is refused before its forbids are looked at. Follows docs/RULES.md, "Refusals".
ghost use Rattle.std.specs.Prelude.{◌≡◌, ◌≤◌};
ghost use Rattle.refusals.specs.Refusals.{number_of, first_of};
ghost use Rattle.adjacency.specs.Tables.{table};
ghost use Rattle.grid.specs.Grid.{grid};
ghost use Rattle.course.specs.Run.{given};
ghost use Rattle.course.specs.Called.{room, bad_memory, bad_lengths, base_tests};

use adjacency::inner::Table;
use grid::Grid;
use refusals::Refusal;

// Whether a slice that a run writes has not its published length; the last five are the lengths of those.
fn bad_memory(
    count: usize,
    cells: usize,
    domains: usize,
    counts: usize,
    pending: usize,
    floats: usize,
    marks: usize,
) -> bool
    requires { (count ≤ 64) × (cells ≤ 1024) }
    ensures { result ≡ bad_memory count cells (room domains counts pending floats marks) }
{
    if domains != cells {
        return true;
    }
    if counts != cells * count * 4 {
        return true;
    }
    if pending != cells * count {
        return true;
    }
    if floats != 2 * cells {
        return true;
    }
    marks != 2 * cells + (cells + 31) / 32
}

// Whether a lent slice has not its published length, or there are over 4,096 forbids.
fn bad_lengths(
    table: &Table,
    cells: usize,
    weights: &[u32],
    noise: &[u32],
    forbids: usize,
    domains: usize,
    counts: usize,
    pending: usize,
    floats: usize,
    marks: usize,
) -> bool
    requires { (table.now.count ≤ 64) × (cells ≤ 1024) }
    ensures { result ≡ bad_lengths table.now.count cells weights.now table.now.offsets noise.now forbids (room domains counts pending floats marks) }
{
    let count = table.count;
    if weights.len() != count {
        return true;
    }
    if table.bad_offsets() {
        return true;
    }
    if noise.len() != cells {
        return true;
    }
    if bad_memory(count, cells, domains, counts, pending, floats, marks) {
        return true;
    }
    4096 < forbids
}

// Whether a run with so many forbids and memory of these lengths is refused before its forbids are looked at.
pub(crate) fn check(
    count: usize,
    offsets: &[u32],
    ids: &[u8],
    weights: &[u32],
    width: usize,
    height: usize,
    mode: usize,
    noise: &[u32],
    forbids: usize,
    domains: usize,
    counts: usize,
    pending: usize,
    floats: usize,
    marks: usize,
) -> Result<(), Refusal>
    ensures { number_of result
        ≡ first_of (base_tests (given (table count offsets.now ids.now) weights.now (grid width height mode) noise.now)
        forbids (room domains counts pending floats marks)) }
{
    let table = Table {
        count,
        offsets,
        ids,
    };
    let grid = Grid {
        width,
        height,
        mode,
    };
    if adjacency::inner::bad_count(count) {
        return Err(Refusal::BadCount);
    }
    if grid.bad_size() {
        return Err(Refusal::BadSize);
    }
    if grid.bad_wrap() {
        return Err(Refusal::BadWrap);
    }
    if bad_lengths(
        &table,
        grid.cells(),
        weights,
        noise,
        forbids,
        domains,
        counts,
        pending,
        floats,
        marks,
    ) {
        return Err(Refusal::BadLength);
    }
    if adjacency::inner::over_weight(weights) {
        return Err(Refusal::BadWeights);
    }
    if table.bad_list() {
        return Err(Refusal::BadList);
    }
    if table.disagrees() {
        return Err(Refusal::Disagree);
    }
    Ok(())
}
