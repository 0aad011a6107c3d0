// The refusals of forbids, of records and of numbers three for each, for the crates above. Follows docs/RULES.md, "Refusals".
ghost use Rattle.std.specs.Prelude.{List, ◌≡◌, ℕ};
ghost use Rattle.refusals.specs.Refusals.{number_of, first_of};
ghost use Rattle.adjacency.specs.Tables.{table};
ghost use Rattle.grid.specs.Grid.{bad_cell};
ghost use Rattle.forbids.specs.Forbids.{place_tests, forbid_tests, forbids_of, records_in};

use crate::Forbid;
use grid::Grid;
use refusals::Refusal;

// Whether a cell is past the grid; the cells are not counted, so that no product can wrap.
fn past_grid(cell: usize, grid: Grid) -> bool
    ensures { result ≡ bad_cell grid cell }
{
    grid.width == 0 || grid.height <= cell / grid.width
}

// Whether one forbid is refused: for its cell, or else for its pattern.
pub fn judge(cell: u32, pattern: u32, count: usize, grid: Grid) -> Result<(), Refusal>
    ensures { number_of result ≡ first_of (place_tests count grid cell pattern) }
{
    if past_grid(cell as usize, grid) {
        return Err(Refusal::BadCell);
    }
    if count <= pattern as usize {
        return Err(Refusal::BadPattern);
    }
    Ok(())
}

// How many forbids are lent as numbers, three for each; one too many where they are not three for each.
pub fn records_in(forbids: &[u32]) -> usize
    ensures { result ≡ records_in forbids.now }
{
    if forbids.len() % 3 == 0 {
        return forbids.len() / 3;
    }
    4097
}

// The first refusal of forbids that are lent as numbers.
pub fn judge_all(forbids: &[u32], count: usize, grid: Grid) -> Result<(), Refusal>
    ensures { (offsets ids : List ℕ) → number_of result ≡ first_of (forbid_tests (table count offsets ids) grid (forbids_of forbids.now)) }
{
    for forbid in forbids.chunks_exact(3) {
        judge(forbid[0], forbid[1], count, grid)?;
    }
    Ok(())
}

// The first refusal of the forbids.
pub fn check_all(forbids: &[Forbid], count: usize, grid: Grid) -> Result<(), Refusal>
    ensures { (offsets ids : List ℕ) → number_of result ≡ first_of (forbid_tests (table count offsets ids) grid forbids.now) }
{
    for forbid in forbids {
        judge(forbid.cell, forbid.pattern, count, grid)?;
    }
    Ok(())
}
