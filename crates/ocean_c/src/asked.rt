// What can be asked apart from a run, for C: a neighbour, an entropy, a choice. Follows docs/RULES.md, "Grid", "Entropy" and "Run".
ghost use Rattle.std.specs.Prelude.{◌≡◌, ◌<◌, IfSome};
ghost use Rattle.refusals.specs.Refusals.{answer};
ghost use Rattle.grid.specs.Grid.{grid};
ghost use Rattle.grid.specs.Answers.{neighbour_asked};
ghost use Rattle.logarithms.specs.Asked.{entropy_asked};
ghost use Rattle.choice.specs.Asked.{choice_asked};
ghost use Rattle.ocean_c.specs.Coded.{found_coded, entropy_coded};

use crate::codes::{accepted, refused};

// A cell or a pattern that was found: case 0 with its number, case 1 where there is none.
fn found(number: Option<usize>) -> u64
    requires { IfSome number (λ n. n < 4294967296) }
    ensures { result ≡ found_coded (answer number) }
{
    match number {
        Some(n) => accepted(0, n),
        None => accepted(1, 0),
    }
}

// The neighbour of a cell in a direction: case 0 with the cell, case 1 at an edge.
#[unsafe(no_mangle)]
pub extern "C" fn murghidossu_neighbour(
    width: usize,
    height: usize,
    mode: usize,
    cell: usize,
    direction: usize,
) -> u64
    ensures { result ≡ found_coded (neighbour_asked (grid width height mode) cell direction) }
{
    match grid::neighbour(width, height, mode, cell, direction) {
        Ok(near) => found(near),
        Err(refusal) => refused(refusal),
    }
}

// The entropy of a domain: case 0 with its bits, case 1 without a weighted pattern.
#[unsafe(no_mangle)]
pub extern "C" fn murghidossu_entropy_of(count: usize, weights: &[u32], domain: u64) -> u64
    ensures { result ≡ entropy_coded (entropy_asked count weights.now domain) }
{
    match logarithms::entropy_of(count, weights, domain) {
        Ok(Some(entropy)) => accepted(0, f32::to_bits(entropy) as usize),
        Ok(None) => accepted(1, 0),
        Err(refusal) => refused(refusal),
    }
}

// The pattern that a word chooses in a domain: case 0 with the pattern, case 1 without a weighted pattern.
#[unsafe(no_mangle)]
pub extern "C" fn murghidossu_choice_of(
    count: usize,
    weights: &[u32],
    domain: u64,
    word: u32,
) -> u64
    ensures { result ≡ found_coded (choice_asked count weights.now domain word) }
{
    match choice::choice_of(count, weights, domain, word) {
        Ok(chosen) => found(chosen),
        Err(refusal) => refused(refusal),
    }
}
