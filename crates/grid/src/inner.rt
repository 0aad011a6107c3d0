// A grid's checks of sizes and mode, and the neighbour without checks, for the crates above.
// Follows docs/RULES.md, "Grid" and "Directions".
ghost use Rattle.std.specs.Prelude.{◌≡◌, ◌<◌, false};
ghost use Rattle.grid.specs.Grid.{cells, bad_side, bad_size, bad_wrap, Sized};
ghost use Rattle.grid.specs.Grid as meaning;

use crate::Grid;
use directions::inner::{step_x, step_y};

// Whether a side is 0 or over 64.
fn bad_side(side: usize) -> bool
    ensures { result ≡ bad_side side }
{
    side == 0 || 64 < side
}

// Where a step from a place on a side leads: on, back, to the other end where the side wraps, or nowhere.
fn along(wraps: bool, length: usize, place: usize, step: i8) -> Option<usize>
    requires { place < length }
    ensures { result ≡ meaning.along wraps length place step }
{
    if step > 0 {
        if place + 1 < length {
            return Some(place + 1);
        }
        return wraps.then_some(0);
    }
    if step < 0 {
        if place == 0 {
            return wraps.then_some(length - 1);
        }
        return Some(place - 1);
    }
    Some(place)
}

impl Grid {
    // Whether a side is bad or there are over 1,024 cells; the sides come first, so that the product cannot wrap.
    pub fn bad_size(self) -> bool
        ensures { result ≡ bad_size self.width self.height }
    {
        bad_side(self.width) || bad_side(self.height) || 1024 < self.height * self.width
    }

    // Whether the mode is over 3.
    pub fn bad_wrap(self) -> bool
        ensures { result ≡ bad_wrap self.mode }
    {
        3 < self.mode
    }

    // How many cells it has.
    pub fn cells(self) -> usize
        requires { bad_size self.width self.height ≡ false }
        ensures { result ≡ cells self }
    {
        self.height * self.width
    }

    // The neighbour of a cell of an accepted grid, or nothing at an edge.
    pub fn neighbour_of(self, cell: usize, direction: usize) -> Option<usize>
        requires { Sized self × (cell < cells self) × (direction < 4) }
        ensures { result ≡ meaning.neighbour self cell direction }
    {
        let x = along(
            self.mode % 2 == 1,
            self.width,
            cell % self.width,
            step_x(direction),
        )?;
        let y = along(
            2 <= self.mode,
            self.height,
            cell / self.width,
            step_y(direction),
        )?;
        Some(y * self.width + x)
    }
}
