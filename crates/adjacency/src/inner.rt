// The checks of a table one by one, its lists without checks, and weights, for the crates above.
ghost use Rattle.std.specs.Prelude.{List, ◌≡◌, ℕ, ◌+◌, ◌*◌, ◌%◌, ◌^◌, ◌≤◌, ◌<◌, length, get_or, take};
ghost use Rattle.loops.specs.Tests.{all_to, elem};
ghost use Rattle.adjacency.specs.Tables.{list_of};
ghost use Rattle.adjacency.specs.Weights.{Bounded, weight_of, whole_weight, weight_sum, mask};
ghost use Rattle.adjacency.specs.Fours.{four_of, sixteens, Fours, fours_from};
ghost use Rattle.adjacency.specs.Checks.{bad_count, offsets_misfit, over_weight, rises_at, offsets_ok, list_ok, lists_ok, bad_list, agrees_at, disagree};
ghost use Rattle.adjacency.specs.Accepted.{Laid, Listed};

use std::marker::Model;

// The weight of pattern p.
pub fn weight_of(weights: &[u32], p: usize) -> u32
    requires { p < length weights.now }
    ensures { result ≡ weight_of weights.now p }
{
    weights[p]
}

// The sum of the weights of the patterns in the word. The loop walks from one pattern of the word to the next, and counts no index.
pub fn weight_sum(weights: &[u32], word: u64) -> u32
    requires { Bounded weights.now word }
    ensures { result ≡ weight_sum weights.now word }
{
    let mut sum: u32 = 0;
    let mut left = word;
    while left != 0 {
        let p = words::inner::next_pattern(left);
        sum += weights[p];
        left = words::inner::without_least(left);
    }
    sum
}

// The word of the patterns that have weight.
pub fn weighted_mask(weights: &[u32]) -> u64
    requires { length weights.now ≤ 64 }
    ensures { result ≡ mask weights.now }
{
    let mut word = 0;
    for (p, weight) in weights.iter().enumerate() {
        if *weight != 0 {
            word = words::inner::with_pattern(word, p);
        }
    }
    word
}

// ---- weight sums of fours

// How many entries the sums of so many patterns take.
pub fn sixteens(count: usize) -> usize
    requires { count ≤ 64 }
    ensures { result ≡ sixteens count }
{
    (count + 15) / 16 * 64
}

// The weight of pattern p, and 0 past the last.
fn weight_or_none(weights: &[u32], p: usize) -> u16
    requires { whole_weight weights.now ≤ 1024 }
    ensures { result ≡ weight_of weights.now p }
{
    weights.get(p).copied().unwrap_or(0) as u16
}

// Entry e, from those before it: that of its other patterns, and the weight of the last.
fn four_entry(weights: &[u32], sums: &[u16; 256], e: usize) -> u16
    requires { (whole_weight weights.now ≤ 1024) × (e < 256) × ((i : ℕ) → i < e → get_or sums.now i 0 ≡ weight_sum weights.now (four_of i)) }
    ensures { result ≡ weight_sum weights.now (four_of e) }
{
    if e % 16 == 0 {
        return 0;
    }
    let last = (e % 16).ilog2() as usize;
    let weight = weight_or_none(weights, e / 16 * 4 + last);
    sums[e - (1usize << last)] + weight
}

// The sums of all fours, to be lent: they are made once, and not at each look. A four without a pattern stays 0.
pub fn four_sums(weights: &[u32]) -> [u16; 256]
    requires { (length weights.now ≤ 64) × (whole_weight weights.now ≤ 1024) }
    ensures { (256 ≡ length result) × Fours weights.now (take (sixteens (length weights.now)) result) }
{
    let end = (weights.len() + 3) / 4 * 16;
    let mut sums = [0u16; 256];
    for e in 0..end {
        sums[e] = four_entry(weights, &sums, e);
    }
    sums
}

// The entries of the word's lowest four fours, from a place on.
fn fours_from(sums: &[u16], base: usize, word: u64) -> u32
    requires { (base + 64 ≤ length sums.now) × (length sums.now ≤ 256) }
    ensures { (result ≡ fours_from sums.now base word) × (result < 262144) }
{
    u32::from(sums[base + (word % 16) as usize])
        + u32::from(sums[base + 16 + (word / 16 % 16) as usize])
        + u32::from(sums[base + 32 + (word / 256 % 16) as usize])
        + u32::from(sums[base + 48 + (word / 4096 % 16) as usize])
}

// The weight sum of a word, looked up four patterns at a time.
pub fn sum_of(sums: &[u16], word: u64) -> u32
    requires { (length sums.now % 64 ≡ 0) × (length sums.now ≤ 256) }
    ensures { (weights : List ℕ) → Fours weights sums.now → word < 2 ^ length weights → result ≡ weight_sum weights word }
{
    let mut sum: u32 = 0;
    let mut left = word;
    for base in (0..sums.len()).step_by(64) {
        sum += fours_from(sums, base, left);
        left /= 65536;
    }
    sum
}

// ---- checks of a table

// Whether there is no pattern, or there are over 64.
pub fn bad_count(count: usize) -> bool
    ensures { result ≡ bad_count count }
{
    count == 0 || 64 < count
}

// Whether the weights' sum is over 1,024; no sum is made that could wrap.
pub fn over_weight(weights: &[u32]) -> bool
    ensures { result ≡ over_weight weights.now }
{
    let mut sum: u32 = 0;
    for weight in weights {
        if 1024 - sum < *weight {
            return true;
        }
        sum += *weight;
    }
    false
}

// ---- lists

// Whether x is in the list.
pub fn in_list(x: usize, list: &[u8]) -> bool
    ensures { result ≡ elem x list.now }
{
    list.iter().any(|q| x == usize::from(*q))
}

// Whether a list is not empty, ascends, and stays below `count`.
pub fn list_ok(count: usize, list: &[u8]) -> bool
    ensures { result ≡ list_ok count list.now }
{
    let Some(last) = list.last() else {
        return false;
    };
    usize::from(*last) < count && list.is_sorted_by(|a, b| a < b)
}

// ---- a table

// A table as it is lent, accepted or not: how many patterns, where each list starts, and the lists one after the other.
#[derive(Drop)]
pub struct Table<'o, 'i> {
    pub count: usize,
    pub offsets: &'o [u32],
    pub ids: &'i [u8],
}

impl<'o, 'i> Model for Table<'o, 'i> {
    ghost use Rattle.adjacency.specs.Tables as tables;

    ghost Value = { tables.Table };

    ghost view = { λ t. tables.table t.count t.offsets.now t.ids.now };
}

impl<'o, 'i> Table<'o, 'i> {
    // What p allows beside it in direction d: the ids between two offsets. A direction is its number, since it is a place in a flat table.
    pub fn list_of(&self, p: usize, d: usize) -> &'i [u8]
        requires { Laid self.now × (p < self.now.count) × (d < 4) }
        ensures { result.now ≡ list_of self.now p d }
    {
        let offsets = self.offsets;
        let k = 4 * p + d;
        &self.ids[offsets[k] as usize..offsets[k + 1] as usize]
    }

    // Whether the offsets are not 4P + 1.
    pub fn bad_offsets(&self) -> bool
        requires { self.now.count ≤ 64 }
        ensures { result ≡ offsets_misfit self.now.count self.now.offsets }
    {
        self.offsets.len() != 4 * self.count + 1
    }

    // Whether the offsets start at 0, never fall, and end at the ids' length.
    fn offsets_ok(&self) -> bool
        requires { length self.now.offsets ≡ 4 * self.now.count + 1 }
        ensures { result ≡ offsets_ok self.now }
    {
        self.offsets[0] == 0
            && self.offsets.is_sorted()
            && self.offsets[4 * self.count] as usize == self.ids.len()
    }

    // Whether each list is as it must be.
    fn lists_ok(&self) -> bool
        requires { Laid self.now }
        ensures { result ≡ lists_ok self.now }
    {
        for k in 0..4 * self.count {
            if !list_ok(self.count, self.list_of(k / 4, k % 4)) {
                return false;
            }
        }
        true
    }

    // Whether the offsets or a list are not as they must be.
    pub fn bad_list(&self) -> bool
        requires { length self.now.offsets ≡ 4 * self.now.count + 1 }
        ensures { result ≡ bad_list self.now }
    {
        !(self.offsets_ok() && self.lists_ok())
    }

    // Whether each q in p's list for d has p in its own list for the opposite.
    pub fn agrees_at(&self, p: usize, d: usize) -> bool
        requires { Listed self.now × (p < self.now.count) × (d < 4) }
        ensures { result ≡ agrees_at self.now p d }
    {
        let back = directions::inner::opposite_of(d);
        for q in self.list_of(p, d) {
            if !in_list(p, self.list_of(usize::from(*q), back)) {
                return false;
            }
        }
        true
    }

    // Whether two lists disagree.
    pub fn disagrees(&self) -> bool
        requires { Listed self.now }
        ensures { result ≡ disagree self.now }
    {
        for k in 0..4 * self.count {
            if !self.agrees_at(k / 4, k % 4) {
                return true;
            }
        }
        false
    }
}
