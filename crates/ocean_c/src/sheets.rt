// Sheets, for C. Follows docs/RULES.md, "Sheet".
ghost use Rattle.std.specs.Prelude.{◌≡◌, length};
ghost use Rattle.adjacency.specs.Tables.{table};
ghost use Rattle.grid.specs.Grid.{grid};
ghost use Rattle.layout.specs.Lending.{lent};
ghost use Rattle.sheet.specs.Called.{sizes_asked, read_called, write_called};
ghost use Rattle.ocean_c.specs.Returned.{measures_of, sized, sized_of, read_returned, read_returned_of, write_returned, write_returned_of};

use crate::codes::{refused, was_read, written};
use sheet::Measures;

// How much a sheet holds, as six numbers: patterns, ids, width, height, mode, forbids.
fn lay_measures(m: Measures, measures: &mut [usize])
    requires { length measures.old ≡ 6 }
    ensures { measures.new ≡ measures_of m }
{
    measures[0] = m.count;
    measures[1] = m.ids;
    measures[2] = m.width;
    measures[3] = m.height;
    measures[4] = m.mode;
    measures[5] = m.forbids;
}

// How much a sheet holds, so that a caller can lend room for it.
#[unsafe(no_mangle)]
pub extern "C" fn murghidossu_sizes(sheet: &[u8], measures: &mut [usize]) -> u64
    ensures { sized result measures.new ≡ sized_of (sizes_asked sheet.now) measures.old }
{
    match sheet::sizes(sheet) {
        Err(refusal) => refused(refusal),
        Ok(m) => {
            if measures.len() != 6 {
                return 5;
            }
            lay_measures(m, measures);
            0
        }
    }
}

// The sheet's weights, offsets, ids and forbids in the lent slices; what it holds, `murghidossu_sizes` tells.
#[unsafe(no_mangle)]
pub extern "C" fn murghidossu_read(
    sheet: &[u8],
    weights: &mut [u32],
    offsets: &mut [u32],
    ids: &mut [u8],
    forbids: &mut [u32],
) -> u64
    ensures { read_returned result (lent weights.new offsets.new ids.new forbids.new)
        ≡ read_returned_of (read_called sheet.now (lent weights.old offsets.old ids.old forbids.old)) }
{
    was_read(sheet::read(sheet, weights, offsets, ids, forbids))
}

// The sheet of a table with its weights, a grid and forbids, at the front of `out`; the value is how many bytes.
#[unsafe(no_mangle)]
pub extern "C" fn murghidossu_write(
    count: usize,
    weights: &[u32],
    offsets: &[u32],
    ids: &[u8],
    width: usize,
    height: usize,
    mode: usize,
    forbids: &[u32],
    out: &mut [u8],
) -> u64
    ensures { write_returned result out.new
        ≡ write_returned_of (write_called (table count offsets.now ids.now) weights.now (grid width height mode) forbids.now out.old) }
{
    written(sheet::write(
        count, weights, offsets, ids, width, height, mode, forbids, out,
    ))
}
