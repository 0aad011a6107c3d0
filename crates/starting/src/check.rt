// When starting domains are not propagated. Follows docs/RULES.md, "Refusals".
ghost use Rattle.std.specs.Prelude.{◌≡◌, ◌≤◌};
ghost use Rattle.refusals.specs.Refusals.{number_of};
ghost use Rattle.adjacency.specs.Tables.{table};
ghost use Rattle.grid.specs.Grid.{grid};
ghost use Rattle.starting.specs.Propagate.{bad_lengths, bad_domains, propagate_refusal};

use adjacency::inner::Table;
use grid::Grid;
use refusals::Refusal;

// Whether a lent slice has not its published length; `domains`, `counts` and `pending` are the lengths of those.
fn bad_lengths(table: &Table, cells: usize, domains: usize, counts: usize, pending: usize) -> bool
    requires { (table.now.count ≤ 64) × (cells ≤ 1024) }
    ensures { result ≡ bad_lengths table.now.count table.now.offsets cells domains counts pending }
{
    let count = table.count;
    if table.bad_offsets() {
        return true;
    }
    if domains != cells {
        return true;
    }
    if counts != cells * count * 4 {
        return true;
    }
    pending != cells * count
}

// Whether some starting domain has a pattern of `count` or more, looked at in cell order.
fn bad_domains(count: usize, domains: &[u64]) -> bool
    requires { count ≤ 64 }
    ensures { result ≡ bad_domains count domains.now }
{
    let mut cell = 0;
    while cell < domains.len() {
        if words::inner::beyond_count(domains[cell], count) {
            return true;
        }
        cell += 1;
    }
    false
}

// Whether starting domains are propagated with work memory of these lengths, or the first refusal.
pub(crate) fn check(
    count: usize,
    offsets: &[u32],
    ids: &[u8],
    width: usize,
    height: usize,
    mode: usize,
    domains: &[u64],
    counts: usize,
    pending: usize,
) -> Result<(), Refusal>
    ensures { number_of result
        ≡ propagate_refusal (table count offsets.now ids.now) (grid width height mode) domains.now counts pending }
{
    let table = Table {
        count,
        offsets,
        ids,
    };
    let grid = Grid {
        width,
        height,
        mode,
    };
    if adjacency::inner::bad_count(count) {
        return Err(Refusal::BadCount);
    }
    if grid.bad_size() {
        return Err(Refusal::BadSize);
    }
    if grid.bad_wrap() {
        return Err(Refusal::BadWrap);
    }
    if bad_lengths(&table, grid.cells(), domains.len(), counts, pending) {
        return Err(Refusal::BadLength);
    }
    if table.bad_list() {
        return Err(Refusal::BadList);
    }
    if table.disagrees() {
        return Err(Refusal::Disagree);
    }
    if bad_domains(count, domains) {
        return Err(Refusal::BadPattern);
    }
    Ok(())
}
