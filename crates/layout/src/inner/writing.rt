// A sheet's bytes, record by record; each function answers the place past what it wrote. Follows docs/RULES.md, "Sheet".
ghost use Rattle.std.specs.Prelude.{[], ◌∷◌, ◌≡◌, ◌+◌, ◌*◌, ◌≤◌, ◌<◌, length};
ghost use Rattle.records.specs.Numbers.{u16s};
ghost use Rattle.records.specs.Records.{record_of};
ghost use Rattle.records.specs.Laying.{pen, laid};
ghost use Rattle.adjacency.specs.Accepted.{Accepted};
ghost use Rattle.layout.specs.Sheet.{list_bytes, bytes_of};
ghost use Rattle.layout.specs.Tables.{kind_of, lists_of, sheet_for, stored};
ghost use Rattle.layout.specs.Lending.{Small, Numbered, Fitting};

use adjacency::inner::Table;
use grid::Grid;
use records::inner::{lay_byte, lay_bytes, lay_head, lay_numbers, lay_u16};

// The first record: the count and the weights.
fn lay_weights(weights: &[u32], out: &mut [u8], at: usize) -> usize
    requires { Small weights.now × (length weights.now ≤ 64) × (at + 8 + 2 * length weights.now ≤ length out.old) }
    ensures { pen out.new result ≡ laid (record_of 1 (u16s (length weights.now ∷ weights.now))) (pen out.old at) }
{
    let place = lay_head(1, 2 + 2 * weights.len(), out, at);
    let place = lay_u16(weights.len(), out, place);
    lay_numbers(weights, out, place)
}

// ---- the lists

// One list: its length and its ids.
fn lay_list(list: &[u8], out: &mut [u8], at: usize) -> usize
    requires { (length list.now ≤ 64) × (at + 1 + length list.now ≤ length out.old) }
    ensures { pen out.new result ≡ laid (length list.now ∷ list.now) (pen out.old at) }
{
    let place = lay_byte(list.len(), out, at);
    lay_bytes(list, out, place)
}

// All lists in order.
fn lay_each_list(table: &Table, out: &mut [u8], at: usize) -> usize
    requires { Accepted table.now × (at + length (list_bytes (lists_of table.now)) ≤ length out.old) }
    ensures { pen out.new result ≡ laid (list_bytes (lists_of table.now)) (pen out.old at) }
{
    let mut place = at;
    for k in 0..4 * table.count {
        let list = table.list_of(k / 4, k % 4);
        place = lay_list(list, out, place);
    }
    place
}

// The second record: the lists.
fn lay_lists(table: &Table, out: &mut [u8], at: usize) -> usize
    requires { Accepted table.now × (at + 6 + 4 * table.now.count + length table.now.ids ≤ length out.old) }
    ensures { pen out.new result ≡ laid (record_of 2 (list_bytes (lists_of table.now))) (pen out.old at) }
{
    let place = lay_head(2, 4 * table.count + table.ids.len(), out, at);
    lay_each_list(table, out, place)
}

// ---- grid and forbids

// The third record: width, height and mode.
fn lay_grid(grid: Grid, out: &mut [u8], at: usize) -> usize
    requires { (grid.width < 65536) × (grid.height < 65536) × (grid.mode < 65536) × (at + 12 ≤ length out.old) }
    ensures { pen out.new result ≡ laid (record_of 3 (u16s (grid.width ∷ grid.height ∷ grid.mode ∷ []))) (pen out.old at) }
{
    let place = lay_head(3, 6, out, at);
    lay_numbers(
        &[grid.width as u32, grid.height as u32, grid.mode as u32],
        out,
        place,
    )
}

// Whether a forbid keeps, as it is stored.
fn kind_of(keep: u32) -> u32
    ensures { result ≡ kind_of keep }
{
    if keep == 0 { 0 } else { 1 }
}

// All forbids in order.
fn lay_each_forbid(forbids: &[u32], out: &mut [u8], at: usize) -> usize
    requires { Numbered forbids.now × (at + length (u16s (stored forbids.now)) ≤ length out.old) }
    ensures { pen out.new result ≡ laid (u16s (stored forbids.now)) (pen out.old at) }
{
    let mut place = at;
    for forbid in forbids.chunks_exact(3) {
        let kind = kind_of(forbid[2]);
        place = lay_numbers(&[forbid[0], forbid[1], kind], out, place);
    }
    place
}

// The fourth record: the forbids.
fn lay_forbids(forbids: &[u32], out: &mut [u8], at: usize) -> usize
    requires { Numbered forbids.now × (length forbids.now ≤ 12288) × (at + 6 + 2 * length forbids.now ≤ length out.old) }
    ensures { pen out.new result ≡ laid (record_of 4 (u16s (stored forbids.now))) (pen out.old at) }
{
    let place = lay_head(4, 6 * (forbids.len() / 3), out, at);
    lay_each_forbid(forbids, out, place)
}

// ---- the whole

// The four records from the front.
pub fn lay_sheet(
    table: &Table,
    weights: &[u32],
    grid: Grid,
    forbids: &[u32],
    out: &mut [u8],
) -> usize
    requires { Fitting table.now weights.now grid forbids.now
        × (32 + 6 * table.now.count + length table.now.ids + 2 * length forbids.now ≤ length out.old) }
    ensures { pen out.new result
        ≡ laid (bytes_of (sheet_for table.now weights.now grid forbids.now)) (pen out.old 0) }
{
    let place = lay_weights(weights, out, 0);
    let place = lay_lists(table, out, place);
    let place = lay_grid(grid, out, place);
    lay_forbids(forbids, out, place)
}
