// What is noted of a cell, the running values, and the marks of blocks, for the crates above. Follows docs/RULES.md, "Propagation", "Run" and "Entropy".
ghost use Rattle.std.specs.Prelude.{List, ◌≡◌, ℕ, ◌+◌, ◌*◌, ◌^◌, ◌≤◌, ◌<◌, Float, length, drop};
ghost use Rattle.adjacency.specs.Weights.{Weighed, mask};
ghost use Rattle.logarithms.specs.Logs.{Logs};
ghost use Rattle.logarithms.specs.Lookups.{Lookups};
ghost use Rattle.notes.specs.Notes.{note_of, lowered};
ghost use Rattle.notes.specs.Blocks.{block_of, block_at, touched};
ghost use Rattle.notes.specs.Beside as meaning;
ghost use Rattle.notes.specs.Beside.{beside, beside_in};
ghost use Rattle.notes.specs.Sizes.{Alongside, Roomy};

// ---- notes

// What is noted of a cell: its entropy, with its noise word and how many of its patterns have weight.
#[derive(Clone, Copy)]
pub struct Note {
    pub entropy: f32,
    pub noise: u32,
    pub count: u32,
}

fn wide(x: u8) -> u32
    ensures { result ≡ x }
{
    x as u32
}

impl Note {
    // The note of a cell, from the noise words and what is kept beside the domains.
    pub fn of_cell(noise: &[u32], cells: usize, cell: usize, floats: &[f32], marks: &[u8]) -> Note
        requires { (cell < length noise.now) × (cells + cell < length floats.now) × (cell < length marks.now) }
        ensures { result ≡ note_of noise.now cells cell floats.now marks.now }
    {
        Note {
            entropy: floats[cells + cell],
            noise: noise[cell],
            count: wide(marks[cell]),
        }
    }

    // The note after a later entropy with its count, which replace the noted ones only if the entropy is strictly less.
    pub fn lowered(self, entropy: f32, count: u32) -> Note
        ensures { result ≡ lowered self entropy count }
    {
        if entropy < self.entropy {
            Note {
                entropy: entropy,
                noise: self.noise,
                count: count,
            }
        } else {
            self
        }
    }
}

// ---- blocks

// Something changed at a cell: what was found in its block no longer holds.
pub fn touch(cells: usize, cell: usize, marks: &mut [u8])
    requires { block_at cells (block_of cell) < length marks.old }
    ensures { marks.new ≡ touched cells cell marks.old }
{
    marks[2 * cells + cell / 32] = 0;
}

// ---- what a removal changes

// A removal of that weight takes w log w off the cell's running value; without weight there may be none to take it off.
pub fn lessen(logs: &[f32], weight: u32, cell: usize, floats: &mut [f32])
    requires { Logs logs.now × (weight ≤ 1024) × ((weight ≡ 0 → ⊥) → cell < length floats.old) }
    ensures { (marks : List ℕ) → beside floats.new marks ≡ meaning.lessened_by weight cell (beside floats.old marks) }
{
    if weight != 0 {
        floats[cell] = logarithms::inner::removed(logs, floats[cell], weight);
    }
}

// Whether a removal proposes an entropy: its pattern has weight, and the word after it a weighted pattern and two patterns or more.
fn proposes(count: usize, weights: &[u32], weighted: u64, pattern: usize, word: u64) -> bool
    requires weighed { Weighed count weights.now × (weighted ≡ mask weights.now) }
    requires count_bound { (count ≤ 64) × (pattern < count) × (word < 2 ^ count) }
    ensures { result ≡ meaning.proposes weights.now pattern word }
{
    if weights[pattern] == 0 {
        return false;
    }
    if words::inner::shared(word, weighted) == 0 {
        return false;
    }
    words::inner::several(word)
}

// A cell's first proposal in a propagation replaces its note; a later one only lowers it.
fn proposed(fresh: u8, old: Note, entropy: f32, count: u32) -> Note
    ensures { result ≡ meaning.proposed fresh old entropy count }
{
    if fresh == 0 {
        return Note {
            entropy: entropy,
            noise: old.noise,
            count: count,
        };
    }
    old.lowered(entropy, count)
}

// A cell's note is written, and that the cell was noted in this propagation.
fn write(note: Note, cells: usize, cell: usize, floats: &mut [f32], marks: &mut [u8])
    requires { (note.count < 256) × (cells + cell < length floats.old) × (cells + cell < length marks.old) }
    ensures { beside floats.new marks.new ≡ meaning.written cells cell note (beside floats.old marks.old) }
{
    floats[cells + cell] = note.entropy;
    marks[cell] = note.count as u8;
    marks[cells + cell] = 1;
}

// A cell's proposal of an entropy with its weighted count.
fn update_note(
    noise: &[u32],
    cells: usize,
    cell: usize,
    entropy: f32,
    weighted: u32,
    floats: &mut [f32],
    marks: &mut [u8],
)
    requires { Roomy cells noise.now floats.old marks.old × (cell < cells) × (weighted ≤ 64) }
    ensures { beside floats.new marks.new
        ≡ meaning.noted noise.now cells cell entropy weighted (beside floats.old marks.old) }
{
    let old = Note::of_cell(noise, cells, cell, floats, marks);
    let new = proposed(marks[cells + cell], old, entropy, weighted);
    write(new, cells, cell, floats, marks);
}

// A removal's proposal, where it makes one.
pub fn propose(
    count: usize,
    weights: &[u32],
    weighted: u64,
    logs: &[f32],
    sums: &[u16],
    noise: &[u32],
    cells: usize,
    cell: usize,
    pattern: usize,
    word: u64,
    floats: &mut [f32],
    marks: &mut [u8],
)
    requires alongside { Alongside count cells weights.now noise.now floats.old marks.old × (weighted ≡ mask weights.now) × Lookups weights.now logs.now sums.now }
    requires count_bound { (count ≤ 64) × (cell < cells) × (pattern < count) × (word < 2 ^ count) }
    ensures { beside floats.new marks.new
        ≡ meaning.proposing weights.now noise.now cells cell pattern word (beside floats.old marks.old) }
{
    if proposes(count, weights, weighted, pattern, word) {
        let sum = adjacency::inner::sum_of(sums, word);
        let entropy = logarithms::inner::entropy_from(logs, sum, floats[cell]);
        let ones = words::inner::count_ones(words::inner::shared(word, weighted));
        update_note(noise, cells, cell, entropy, ones as u32, floats, marks);
    }
}

// A propagation begins: no cell was noted in it yet. The marks of blocks stay.
pub fn unmark(cells: usize, marks: &mut [u8])
    requires { 2 * cells ≤ length marks.old }
    ensures { ((floats : List Float) → beside_in cells floats marks.new ≡ meaning.unmarked cells (beside_in cells floats marks.old))
        × (drop (2 * cells) marks.new ≡ drop (2 * cells) marks.old) }
{
    let mut i = cells;
    while i < 2 * cells {
        marks[i] = 0;
        i += 1;
    }
}
