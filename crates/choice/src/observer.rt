// A look at some cells, one by one: the best cell so far, as a number that is `cells` for none, and how a further cell is held against it.
// Follows docs/RULES.md, "Run"; stands for `Observer` of the Rust, whose heap keeps old notes too: one that no longer counts never counts again,
// so one note for each cell decides. Main property: the cell found is the least of those whose note counts.
ghost use Rattle.std.specs.Prelude.{◌||◌, ◌≡◌, ◌-◌, ◌*◌, ◌≤◌, ◌<◌, eqb, length};
ghost use Rattle.words.specs.Words.{how_many};
ghost use Rattle.notes.specs.Notes.{note_of};
ghost use Rattle.choice.specs.Observer.{Lengths, notes_in, valid, better_than, join, candidate, best_in, best_at};

use notes::inner::Note;

// Whether the note of a cell that has several patterns counts. A count of 0 is no note.
fn valid(note: Note, word: u64, weighted: u64) -> bool
    requires { 2 ≤ how_many 64 word }
    ensures { result ≡ valid note.count word weighted }
{
    if note.count == 0 {
        return false;
    }
    words::inner::count_ones(words::inner::shared(word, weighted)) == note.count as usize
}

// Whether a note is better than another: the lesser entropy, then the lesser noise word.
fn better(note: Note, other: Note) -> bool
    ensures { result ≡ better_than note other }
{
    if note.entropy < other.entropy {
        return true;
    }
    if note.entropy == other.entropy {
        return note.noise < other.noise;
    }
    false
}

// Whether a later cell with this note wins against the best so far.
pub(crate) fn wins(
    cells: usize,
    noise: &[u32],
    floats: &[f32],
    marks: &[u8],
    best: usize,
    note: Note,
) -> bool
    requires { (length noise.now ≡ cells) × (length floats.now ≡ 2 * cells) × (cells ≤ length marks.now) × (best ≤ cells) }
    ensures { result ≡ (eqb best cells || better_than note (note_of noise.now cells best floats.now marks.now)) }
{
    if best == cells {
        return true;
    }
    better(note, Note::of_cell(noise, cells, best, floats, marks))
}

// The best so far and cell c, where its note counts. The ones of its word are counted last, and only where the cell is undecided and would win.
fn step(
    cells: usize,
    noise: &[u32],
    domains: &[u64],
    floats: &[f32],
    marks: &[u8],
    weighted: u64,
    best: usize,
    c: usize,
) -> usize
    requires { Lengths cells noise.now domains.now floats.now marks.now × (best ≤ cells) × (c < cells) }
    ensures { (result ≤ cells) × (best_at cells (notes_in cells noise.now domains.now floats.now marks.now weighted) result
        ≡ join (best_at cells (notes_in cells noise.now domains.now floats.now marks.now weighted) best)
        (candidate (notes_in cells noise.now domains.now floats.now marks.now weighted) c)) }
{
    if !words::inner::several(domains[c]) {
        return best;
    }
    let note = Note::of_cell(noise, cells, c, floats, marks);
    if !wins(cells, noise, floats, marks, best, note) {
        return best;
    }
    if !valid(note, domains[c], weighted) {
        return best;
    }
    c
}

// The best of the cells from `start` up to `end`.
pub(crate) fn scan(
    cells: usize,
    noise: &[u32],
    domains: &[u64],
    floats: &[f32],
    marks: &[u8],
    weighted: u64,
    start: usize,
    end: usize,
) -> usize
    requires { Lengths cells noise.now domains.now floats.now marks.now × (start ≤ end) × (end ≤ cells) }
    ensures { best_at cells (notes_in cells noise.now domains.now floats.now marks.now weighted) result
        ≡ best_in (notes_in cells noise.now domains.now floats.now marks.now weighted) start (end - start) }
{
    let mut best = cells;
    let mut c = start;
    while c < end {
        best = step(cells, noise, domains, floats, marks, weighted, best, c);
        c += 1;
    }
    best
}
