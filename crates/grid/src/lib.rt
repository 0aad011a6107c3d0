// The grid: sizes, wrap modes and neighbours.
// Follows docs/RULES.md, "Grid"; stands for `Wrap`, `Coord` and `Grid` of the Rust.
// Main property: a step and the step in the opposite direction undo each other, at wrapped sides of length 1 and 2 too.
#![tactic(auto)]

ghost use Rattle.std.specs.Prelude.{◌≡◌};
ghost use Rattle.grid.specs.Grid.{grid};
ghost use Rattle.grid.specs.Answers.{near_of, neighbour_asked};

use refusals::Refusal;

pub mod inner;

// A grid as it is lent, accepted or not. The mode is a number, as docs/RULES.md and the C interface have it: any number may be lent, and a check refuses it.
#[derive(Clone, Copy)]
pub struct Grid {
    pub width: usize,
    pub height: usize,
    pub mode: usize,
}

// The neighbour of a cell in a direction, nothing at an edge; refused are, in this order, the size, the mode, the direction and the cell.
pub fn neighbour(
    width: usize,
    height: usize,
    mode: usize,
    cell: usize,
    direction: usize,
) -> Result<Option<usize>, Refusal>
    ensures { near_of result ≡ neighbour_asked (grid width height mode) cell direction }
{
    let grid = Grid {
        width,
        height,
        mode,
    };
    if grid.bad_size() {
        return Err(Refusal::BadSize);
    }
    if grid.bad_wrap() {
        return Err(Refusal::BadWrap);
    }
    if 3 < direction {
        return Err(Refusal::BadDirection);
    }
    if grid.cells() <= cell {
        return Err(Refusal::BadCell);
    }
    Ok(grid.neighbour_of(cell, direction))
}
