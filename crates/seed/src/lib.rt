// Noise and words: from the bytes of a file, or, for a person who has none, from a seed: a counter that goes up by an odd step, each value mixed.
// Main property: what is filled is `drawn`, so one seed gives one ocean on every machine.
// The mixer is the 32-bit finaliser of MurmurHash3, and the step that of the golden ratio: both are used widely and mix well.
// This is no source of secrets.
#![tactic(auto)]

ghost use Rattle.std.specs.Prelude.{◌≡◌, ◌+◌, ◌*◌, ◌/◌, ◌%◌, ◌^◌, ◌<◌, length, bit_xor, slice_index};
ghost use Rattle.seed.specs.Seeds.{stepped, mixed, strip, drawn, both, drawn_both};
ghost use Rattle.seed.specs.Strips.{word_at, words_in};

// The bits, with the upper ones laid over the lower.
fn folded(x: u32, by: u32) -> u32
    requires { by < 32 }
    ensures { result ≡ bit_xor x (x / 2 ^ by) }
{
    x ^ (x >> by)
}

// The number mixed.
fn mix(x: u32) -> u32
    ensures { result ≡ mixed x }
{
    let once = folded(x, 16).wrapping_mul(0x85eb_ca6b);
    let twice = folded(once, 13).wrapping_mul(0xc2b2_ae35);
    folded(twice, 16)
}

// The counter's next value.
fn step(state: u32) -> u32
    ensures { result ≡ stepped state }
{
    state.wrapping_add(0x9e37_79b9)
}

// Fills what is lent with words that follow from the state, and answers the state after them.
fn fill(state: u32, out: &mut [u32]) -> u32
    ensures { strip out.new result ≡ drawn state (length out.old) }
{
    let mut now = state;
    for word in out {
        now = step(now);
        *word = mix(now);
    }
    now
}

// Fills the noise with the first words of a seed, and the words with those that follow.
pub fn fill_both(seed: u32, noise: &mut [u32], words: &mut [u32])
    ensures { both noise.new words.new ≡ drawn_both seed (length noise.old) (length words.old) }
{
    let state = fill(seed, noise);
    fill(state, words);
}

// A byte of the file, and 0 past its end.
fn byte_at(bytes: &[u8], i: usize) -> u8
    ensures { result ≡ slice_index bytes.now i }
{
    bytes.get(i).copied().unwrap_or(0)
}

// The word that starts at a byte, lowest byte first.
fn word_at(bytes: &[u8], i: usize) -> u32
    requires { i + 3 < 2 ^ 64 }
    ensures { result ≡ word_at bytes.now i }
{
    let a = byte_at(bytes, i);
    let b = byte_at(bytes, i + 1);
    let c = byte_at(bytes, i + 2);
    let d = byte_at(bytes, i + 3);
    u32::from_le_bytes([a, b, c, d])
}

// Fills what is lent with the words of a file, four bytes each; past the file's end they are 0.
pub fn read(bytes: &[u8], out: &mut [u32])
    ensures { out.new ≡ words_in bytes.now (length out.old) }
{
    for (i, word) in out.iter_mut().enumerate() {
        *word = word_at(bytes, 4 * i);
    }
}
