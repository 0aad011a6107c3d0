// Where a sheet is wrong that was refused, for who tells a person of it.
ghost use Rattle.std.specs.Prelude.{true, ◌≡◌, ◌≤◌};
ghost use Rattle.refusals.specs.Refusals.{number};
ghost use Rattle.layout.specs.Reading.{count_in, well_formed, sheet_in};
ghost use Rattle.sheet.specs.Called.{measured};
ghost use Rattle.faults.specs.Places.{sheet_place, place_in};

use adjacency::inner::Table;
use grid::Grid;
use layout::inner::filling::fill;
use refusals::Refusal;
use sheet::Measures;

mod search;

// Patterns, forbids and cells are told by their numbers, from 0.
#[derive(Clone, Copy)]
pub enum Place {
    // No place, or none that was searched for.
    Nowhere,
    // The list of a pattern for a direction.
    List(usize, usize),
    // A pattern, a direction, and an id of that list whose own list for the opposite direction lacks the pattern.
    Pair(usize, usize, usize),
    // A forbid, and the cell that it names.
    Cell(usize, usize),
    // A forbid, and the pattern that it names.
    Pattern(usize, usize),
}

// A sheet of up to 64 patterns is read into memory of its own, whatever is wrong with it.
fn sheet_place(sheet: &[u8], m: Measures, refusal: Refusal) -> Place
    requires { (well_formed sheet.now ≡ true) × (count_in sheet.now ≤ 64) × (m ≡ measured (sheet_in sheet.now)) }
    ensures { result ≡ sheet_place (number refusal) (sheet_in sheet.now) }
{
    let mut weights = [0u32; 64];
    let mut offsets = [0u32; 257];
    let mut ids = [0u8; 65280];
    let mut forbids = [0u32; 12288];
    fill(sheet, &mut weights, &mut offsets, &mut ids, &mut forbids);
    let starts = 4 * m.count + 1;
    let last = m.ids;
    let numbers = 3 * m.forbids;
    let table = Table {
        count: m.count,
        offsets: &offsets[..starts],
        ids: &ids[..last],
    };
    let grid = Grid {
        width: m.width,
        height: m.height,
        mode: m.mode,
    };
    search::place_at(refusal, &table, grid, &forbids[..numbers])
}

// Where the sheet is wrong that was refused with this number.
// Any number is answered (docs/CONTRACTS.md): a Refusal in its place would ask more of callers.
pub fn place_in(sheet: &[u8], number: u32) -> Place
    ensures { result ≡ place_in number sheet.now }
{
    let Ok(refusal) = Refusal::try_from(number) else {
        return Place::Nowhere;
    };
    match sheet::sizes(sheet) {
        Err(_) => Place::Nowhere,
        Ok(m) => {
            if 64 < m.count {
                return Place::Nowhere;
            }
            sheet_place(sheet, m, refusal)
        }
    }
}
