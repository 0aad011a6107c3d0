// Sheets: the stored form of a table, a grid and forbids.
// Follows docs/RULES.md, "Sheet". Main property: reading undoes writing and writing undoes reading, for every sheet that is accepted.
#![tactic(auto)]

ghost use Rattle.std.specs.Prelude.{◌≡◌};
ghost use Rattle.adjacency.specs.Tables.{table};
ghost use Rattle.grid.specs.Grid.{grid};
ghost use Rattle.layout.specs.Lending.{lent};
ghost use Rattle.sheet.specs.Called.{sizes_told, sizes_asked, read_outcome, read_called, written_told, write_outcome, write_called};

use adjacency::inner::Table;
use grid::Grid;
use refusals::Refusal;

mod check;
mod reading;
mod result;

pub use result::run_result;

// How much a sheet holds: patterns, ids, the grid, and forbids.
#[derive(Clone, Copy, Debug, PartialEq, Eq)]
pub struct Measures {
    pub count: usize,
    pub ids: usize,
    pub width: usize,
    pub height: usize,
    pub mode: usize,
    pub forbids: usize,
}

// How much a sheet holds, so that a caller can lend room for it.
pub fn sizes(sheet: &[u8]) -> Result<Measures, Refusal>
    ensures { sizes_told result ≡ sizes_asked sheet.now }
{
    if !layout::inner::shape::well_formed(sheet) {
        return Err(Refusal::BadSheet);
    }
    Ok(reading::measure(sheet))
}

// The sheet's weights, offsets, ids and forbids in the lent slices, and how much it holds.
// Lengths: P weights and 4 P + 1 offsets, as many ids as the sheet has or more, three numbers for each of its forbids or more.
pub fn read(
    sheet: &[u8],
    weights: &mut [u32],
    offsets: &mut [u32],
    ids: &mut [u8],
    forbids: &mut [u32],
) -> Result<Measures, Refusal>
    ensures { read_outcome (sizes_told result) (lent weights.new offsets.new ids.new forbids.new)
        ≡ read_called sheet.now (lent weights.old offsets.old ids.old forbids.old) }
{
    if !layout::inner::shape::well_formed(sheet) {
        return Err(Refusal::BadSheet);
    }
    let m = reading::measure(sheet);
    let grid = Grid {
        width: m.width,
        height: m.height,
        mode: m.mode,
    };
    check::judge_scalars(m.count, grid)?;
    if check::read_misfit(m, weights.len(), offsets.len(), ids.len(), forbids.len()) {
        return Err(Refusal::BadLength);
    }
    reading::judge_sheet(sheet)?;
    layout::inner::filling::fill(sheet, weights, offsets, ids, forbids);
    Ok(m)
}

// The sheet of a table with its weights, a grid and forbids, at the front of `out`; three numbers for each forbid: cell, pattern, and 0 to
// forbid it or another to keep only it.
pub fn write(
    count: usize,
    weights: &[u32],
    offsets: &[u32],
    ids: &[u8],
    width: usize,
    height: usize,
    mode: usize,
    forbids: &[u32],
    out: &mut [u8],
) -> Result<usize, Refusal>
    ensures { write_outcome (written_told result) out.new
        ≡ write_called (table count offsets.now ids.now) weights.now (grid width height mode) forbids.now out.old }
{
    let table = Table {
        count,
        offsets,
        ids,
    };
    let grid = Grid {
        width,
        height,
        mode,
    };
    check::judge_scalars(count, grid)?;
    if check::write_misfit(&table, weights, forbids, out.len()) {
        return Err(Refusal::BadLength);
    }
    check::judge_content(&table, weights, grid, forbids)?;
    Ok(layout::inner::writing::lay_sheet(&table, weights, grid, forbids, out))
}
