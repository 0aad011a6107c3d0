// What the crates above do with one domain word.
ghost use Rattle.std.specs.Prelude.{◌≡◌, ◌^◌, ◌≤◌, ◌<◌, leb};
ghost use Rattle.std.specs.Int.Bits.{bit_and};
ghost use Rattle.words.specs.Words.{has, without, joined, alone, full, lacked, beyond, how_many, least};

// Whether pattern p is in the word.
pub fn has_pattern(word: u64, p: usize) -> bool
    requires { p < 64 }
    ensures { result ≡ has word p }
{
    (word >> p) % 2 == 1
}

// The word without pattern p.
pub fn without_pattern(word: u64, p: usize) -> u64
    requires { p < 64 }
    ensures { result ≡ without word p }
{
    if (word >> p) % 2 == 1 {
        word - (1 << p)
    } else {
        word
    }
}

// The word with pattern p.
pub fn with_pattern(word: u64, p: usize) -> u64
    requires { p < 64 }
    ensures { result ≡ joined word p }
{
    if (word >> p) % 2 == 1 {
        word
    } else {
        word + (1 << p)
    }
}

// The word of pattern p alone.
pub fn lone_pattern(p: usize) -> u64
    requires { p < 64 }
    ensures { result ≡ alone p }
{
    1 << p
}

// The word of all of the patterns.
pub fn full_word(count: usize) -> u64
    requires { (1 ≤ count) × (count ≤ 64) }
    ensures { result ≡ full count }
{
    u64::MAX >> (64 - count)
}

// The patterns that are not in the word, of `count`.
pub fn lacked_patterns(word: u64, count: usize) -> u64
    requires { (1 ≤ count) × (count ≤ 64) × (word < 2 ^ count) }
    ensures { result ≡ lacked count word }
{
    full_word(count) - word
}

// Whether a pattern of `count` or more is in the word.
pub fn beyond_count(word: u64, count: usize) -> bool
    requires { count ≤ 64 }
    ensures { result ≡ beyond count word }
{
    count < 64 && word >> count != 0
}

// How many patterns are in the word.
pub fn count_ones(word: u64) -> usize
    ensures { result ≡ how_many 64 word }
{
    word.count_ones() as usize
}

// The least pattern of the word, and 64 where it has none.
pub fn next_pattern(word: u64) -> usize
    ensures { result ≡ least 64 word }
{
    word.trailing_zeros() as usize
}

// The word without its least pattern: what it shares with the number before it.
pub fn without_least(word: u64) -> u64
    requires { 0 < word }
    ensures { result ≡ without word (least 64 word) }
{
    word & (word - 1)
}

// Whether the word has two patterns or more; nothing is counted.
pub fn several(word: u64) -> bool
    ensures { result ≡ leb 2 (how_many 64 word) }
{
    word != 0 && without_least(word) != 0
}

// The patterns that are in both words.
pub fn shared(word: u64, mask: u64) -> u64
    ensures { result ≡ bit_and word mask }
{
    word & mask
}
