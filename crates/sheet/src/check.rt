// When a sheet's numbers are refused: the scalars, the lengths that are lent, and the rest. Follows docs/RULES.md, "Refusals".
ghost use Rattle.std.specs.Prelude.{◌≡◌, ◌+◌, ◌*◌, ◌≤◌, length};
ghost use Rattle.refusals.specs.Refusals.{number_of, first_of};
ghost use Rattle.sheet.specs.Called.{scalar_tests, content_tests, read_misfit, write_misfit};

use crate::Measures;
use adjacency::inner::Table;
use grid::Grid;
use refusals::Refusal;

// The first refusal of count and grid.
pub(crate) fn judge_scalars(count: usize, grid: Grid) -> Result<(), Refusal>
    ensures { number_of result ≡ first_of (scalar_tests count grid) }
{
    if adjacency::inner::bad_count(count) {
        return Err(Refusal::BadCount);
    }
    if grid.bad_size() {
        return Err(Refusal::BadSize);
    }
    if grid.bad_wrap() {
        return Err(Refusal::BadWrap);
    }
    Ok(())
}

// The first refusal of weights, lists and forbids.
pub(crate) fn judge_content(
    table: &Table,
    weights: &[u32],
    grid: Grid,
    forbids: &[u32],
) -> Result<(), Refusal>
    requires { length table.now.offsets ≡ 4 * table.now.count + 1 }
    ensures { number_of result ≡ first_of (content_tests table.now weights.now grid forbids.now) }
{
    if adjacency::inner::over_weight(weights) {
        return Err(Refusal::BadWeights);
    }
    if table.bad_list() {
        return Err(Refusal::BadList);
    }
    if table.disagrees() {
        return Err(Refusal::Disagree);
    }
    forbids::inner::judge_all(forbids, table.count, grid)
}

// Whether what is lent to be written has not its published length; what is needed is taken off the room bit by bit, so that no sum can wrap.
pub(crate) fn write_misfit(table: &Table, weights: &[u32], forbids: &[u32], room: usize) -> bool
    requires { table.now.count ≤ 64 }
    ensures { result ≡ write_misfit table.now weights.now forbids.now room }
{
    if weights.len() != table.count {
        return true;
    }
    if table.bad_offsets() {
        return true;
    }
    let records = forbids::inner::records_in(forbids);
    if 4096 < records {
        return true;
    }
    let fixed = 32 + 6 * table.count + 6 * records;
    if room < fixed {
        return true;
    }
    room - fixed < table.ids.len()
}

// Whether slices of these lengths have not the published length, or no room for a sheet of these measures.
pub(crate) fn read_misfit(
    m: Measures,
    weights: usize,
    offsets: usize,
    ids: usize,
    forbids: usize,
) -> bool
    requires { (m.count ≤ 64) × (m.forbids ≤ 4096) }
    ensures { result ≡ read_misfit m weights offsets ids forbids }
{
    if weights != m.count {
        return true;
    }
    if offsets != 4 * m.count + 1 {
        return true;
    }
    if ids < m.ids {
        return true;
    }
    forbids < 3 * m.forbids
}
