// The steps of a run, without checks. Follows docs/RULES.md, "Run".
ghost use Rattle.std.specs.Prelude.{List, ◌≡◌, ℕ, ◌*◌, ◌≤◌, ◌<◌, length, drop, Some};
ghost use Rattle.order.specs.Numbers.{Numbers};
ghost use Rattle.adjacency.specs.Weights.{Bounded, weight_sum};
ghost use Rattle.choice.specs.Observer.{Lengths, notes_in, best_at, observed_as, observe};
ghost use Rattle.choice.specs.Cache.{Fresh, recoded, forgotten};
ghost use Rattle.choice.specs.Choice.{taken};

use crate::blocks;
use notes::inner::Note;

// The cell to observe, with its entropy.
#[derive(Clone, Copy, Debug)]
pub struct Sight {
    pub cell: usize,
    pub entropy: f32,
}

// The best cell is told by its entropy alone.
fn told(cells: usize, noise: &[u32], floats: &[f32], marks: &[u8], best: usize) -> Option<Sight>
    requires { (length noise.now ≡ cells) × (length floats.now ≡ 2 * cells) × (cells ≤ length marks.now) × (best ≤ cells) }
    ensures { (domains : List ℕ) (weighted : ℕ)
        → result ≡ observed_as (best_at cells (notes_in cells noise.now domains floats.now marks.now weighted) best) }
{
    if best == cells {
        return None;
    }
    let note = Note::of_cell(noise, cells, best, floats, marks);
    Some(Sight {
        cell: best,
        entropy: note.entropy,
    })
}

// The cell to observe, or none: of those whose note counts, the least entropy, then the least noise word, then the least cell.
// Only the cells of blocks whose mark is 0 are looked at; afterwards no mark of a block is.
pub fn observe(
    cells: usize,
    noise: &[u32],
    domains: &[u64],
    floats: &[f32],
    marks: &mut [u8],
    weighted: u64,
) -> Option<Sight>
    requires lengths { Lengths cells noise.now domains.now floats.now marks.old }
    requires numbers { Numbers (drop cells floats.now) }
    requires fresh { Fresh (notes_in cells noise.now domains.now floats.now marks.old weighted) (drop (2 * cells) marks.old) }
    ensures { (result ≡ observe (notes_in cells noise.now domains.now floats.now marks.old weighted))
        × (marks.new ≡ recoded cells (notes_in cells noise.now domains.now floats.now marks.old weighted)
        marks.old) }
{
    let mut best = cells;
    let mut y = 0;
    while 2 * cells + y < marks.len() {
        let mark = blocks::renew(cells, noise, domains, floats, marks, weighted, y);
        best = blocks::held(cells, noise, floats, marks, best, y * 32, mark);
        y += 1;
    }
    told(cells, noise, floats, marks, best)
}

// The marks of the blocks 0: each block is looked at again.
pub fn forget(cells: usize, marks: &mut [u8])
    requires { 2 * cells ≤ length marks.old }
    ensures { marks.new ≡ forgotten cells marks.old }
{
    let mut i = 2 * cells;
    while i < marks.len() {
        marks[i] = 0;
        i += 1;
    }
}

// The pattern that a number takes, which is below the word's weight sum: only patterns of the word are visited.
pub fn choose(weights: &[u32], word: u64, number: u32) -> usize
    requires { Bounded weights.now word × (number < weight_sum weights.now word) }
    ensures { Some result ≡ taken weights.now word number }
{
    let mut left = word;
    let mut r = number;
    let mut p = words::inner::next_pattern(left);
    while weights[p] <= r {
        r -= weights[p];
        left = words::inner::without_least(left);
        p = words::inner::next_pattern(left);
    }
    p
}
