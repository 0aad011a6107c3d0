// What the observer keeps of each block of 32 cells, in a mark that any change in the block makes 0: a block whose mark is not 0 is not looked at again.
// Follows docs/RULES.md, "Run"; stands for the heap of the Rust's `Observer`. Main property: a mark that is not 0 is what a look at the block's cells gives.
ghost use Rattle.std.specs.Prelude.{List, ◌≡◌, ℕ, ◌+◌, ◌-◌, ◌*◌, ◌≤◌, ◌<◌, min, length, drop, set};
ghost use Rattle.notes.specs.Blocks.{blocks, block_at};
ghost use Rattle.choice.specs.Observer.{Lengths, notes_in, join, best_at};
ghost use Rattle.choice.specs.Cache.{start_of, decode, code_at, Fresh};

use crate::observer;
use notes::inner::Note;

fn narrow(x: usize) -> u8
    requires { x < 256 }
    ensures { result ≡ x }
{
    x as u8
}

fn wide(x: u8) -> usize
    ensures { result ≡ x }
{
    x as usize
}

// Where the block ends that starts there: the last one may be short.
fn block_end(start: usize, cells: usize) -> usize
    requires { start ≤ cells }
    ensures { result ≡ start + min 32 (cells - start) }
{
    if cells - start < 32 {
        cells
    } else {
        start + 32
    }
}

// A look at the cells of block y.
fn look(
    cells: usize,
    noise: &[u32],
    domains: &[u64],
    floats: &[f32],
    marks: &[u8],
    weighted: u64,
    y: usize,
) -> u8
    requires { Lengths cells noise.now domains.now floats.now marks.now × (start_of y ≤ cells) }
    ensures { result ≡ code_at (notes_in cells noise.now domains.now floats.now marks.now weighted) y }
{
    let start = y * 32;
    let end = block_end(start, cells);
    let best = observer::scan(cells, noise, domains, floats, marks, weighted, start, end);
    if best == cells {
        return 1;
    }
    narrow(best - start + 2)
}

// The mark of block y, after a look at its cells where it was 0.
pub(crate) fn renew(
    cells: usize,
    noise: &[u32],
    domains: &[u64],
    floats: &[f32],
    marks: &mut [u8],
    weighted: u64,
    y: usize,
) -> u8
    requires lengths { Lengths cells noise.now domains.now floats.now marks.old × (y < blocks cells) }
    requires fresh { Fresh (notes_in cells noise.now domains.now floats.now marks.old weighted) (drop (2 * cells) marks.old) }
    ensures { (result ≡ code_at (notes_in cells noise.now domains.now floats.now marks.old weighted) y)
        × (marks.new ≡ set marks.old (block_at cells y)
        (code_at (notes_in cells noise.now domains.now floats.now marks.old weighted) y)) }
{
    let mark = marks[2 * cells + y];
    if mark != 0 {
        return mark;
    }
    let seen = look(cells, noise, domains, floats, marks, weighted, y);
    marks[2 * cells + y] = seen;
    seen
}

// The best so far and the cell that a block's mark names.
pub(crate) fn held(
    cells: usize,
    noise: &[u32],
    floats: &[f32],
    marks: &[u8],
    best: usize,
    start: usize,
    mark: u8,
) -> usize
    requires { (length noise.now ≡ cells) × (length floats.now ≡ 2 * cells) × (cells ≤ length marks.now) × (best ≤ cells) × (2 ≤ mark → start + (mark - 2) < cells) }
    ensures { (result ≤ cells) × ((domains : List ℕ) (weighted : ℕ)
        → best_at cells (notes_in cells noise.now domains floats.now marks.now weighted) result
        ≡ join (best_at cells (notes_in cells noise.now domains floats.now marks.now weighted) best)
        (decode (notes_in cells noise.now domains floats.now marks.now weighted) start mark)) }
{
    if mark < 2 {
        return best;
    }
    let cell = start + (wide(mark) - 2);
    let note = Note::of_cell(noise, cells, cell, floats, marks);
    if observer::wins(cells, noise, floats, marks, best, note) {
        return cell;
    }
    best
}
