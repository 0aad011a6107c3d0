// How much a sheet holds, and whether what it says is refused. Follows docs/RULES.md, "Sheet" and "Refusals".
ghost use Rattle.std.specs.Prelude.{true, ◌≡◌, ◌≤◌};
ghost use Rattle.refusals.specs.Refusals.{number_of, first_of};
ghost use Rattle.layout.specs.Tables.{table_of};
ghost use Rattle.layout.specs.Reading.{count_in, well_formed, sheet_in};
ghost use Rattle.sheet.specs.Called.{content_tests, measured};

use crate::Measures;
use crate::check::judge_content;
use adjacency::inner::Table;
use grid::Grid;
use layout::inner::filling::fill;
use layout::inner::shape::{count_of, forbids_of, grid_of, lists_of};
use records::inner::u16_at;
use refusals::Refusal;

// How much a sheet holds.
pub(crate) fn measure(sheet: &[u8]) -> Measures
    requires { well_formed sheet.now ≡ true }
    ensures { result ≡ measured (sheet_in sheet.now) }
{
    let count = count_of(sheet);
    let ids = lists_of(sheet).len() - 4 * count;
    let grid = grid_of(sheet);
    let forbids = forbids_of(sheet).len() / 6;
    Measures {
        count,
        ids,
        width: u16_at(grid, 0),
        height: u16_at(grid, 2),
        mode: u16_at(grid, 4),
        forbids,
    }
}

// The first refusal of what a sheet says. It is read into memory of its own, so that lent memory stays as it is:
// 64 weights, 257 offsets, 256 lists of at most 255 ids, and 4,096 forbids.
pub(crate) fn judge_sheet(sheet: &[u8]) -> Result<(), Refusal>
    requires { (well_formed sheet.now ≡ true) × (count_in sheet.now ≤ 64) }
    ensures { number_of result ≡ first_of (content_tests (table_of (sheet_in sheet.now)) (sheet_in sheet.now).weights (sheet_in sheet.now).grid
        (sheet_in sheet.now).forbids) }
{
    let mut weights = [0u32; 64];
    let mut offsets = [0u32; 257];
    let mut ids = [0u8; 65280];
    let mut forbids = [0u32; 12288];
    fill(sheet, &mut weights, &mut offsets, &mut ids, &mut forbids);
    let m = measure(sheet);
    let count = m.count;
    let starts = 4 * count + 1;
    let last = m.ids;
    let numbers = 3 * m.forbids;
    let table = Table {
        count,
        offsets: &offsets[..starts],
        ids: &ids[..last],
    };
    let grid = Grid {
        width: m.width,
        height: m.height,
        mode: m.mode,
    };
    judge_content(&table, &weights[..count], grid, &forbids[..numbers])
}
