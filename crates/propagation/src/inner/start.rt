// How work memory starts and how it ends: the support counts of full domains, and all zero.
// Follows docs/RULES.md, "Propagation" and "Refusals".
ghost use Rattle.std.specs.Prelude.{◌≡◌, ℕ, ◌*◌, ◌/◌, ◌%◌, ◌≤◌, ◌<◌, length, get_or, replicate};
ghost use Rattle.std.specs.Float.{binary32};
ghost use Rattle.std.specs.Float.Ieee.{of_bits};
ghost use Rattle.directions.specs.Directions.{opposite};
ghost use Rattle.adjacency.specs.Tables.{table, list_of};
ghost use Rattle.adjacency.specs.Accepted.{Accepted};
ghost use Rattle.consistency.specs.Start.{start_counts};

use adjacency::inner::Table;
use directions::inner::opposite_of;

// ---- support counts

fn narrow(x: usize) -> u8
    requires { x < 256 }
    ensures { result ≡ x }
{
    x as u8
}

// The first cell's counts: pattern q has from direction d as many supports as its list for the opposite is long.
fn first_counts(count: usize, offsets: &[u32], ids: &[u8], counts: &mut [u8])
    requires { Accepted (table count offsets.now ids.now) × (4 * count ≤ length counts.old) }
    ensures { (k : ℕ) → k < 4 * count → get_or counts.new k 0
        ≡ length (list_of (table count offsets.now ids.now) (k / 4) (opposite (k % 4))) }
{
    let table = Table {
        count,
        offsets,
        ids,
    };
    let mut i = 0;
    while i < 4 * count {
        let back = opposite_of(i % 4);
        let list = table.list_of(i / 4, back);
        counts[i] = narrow(list.len());
        i += 1;
    }
}

// Every cell has the counts of the first: a copy of what stands one cell before is enough.
fn repeat_counts(count: usize, counts: &mut [u8])
    requires { (1 ≤ count) × (4 * count ≤ length counts.old) }
    ensures { (k : ℕ) → k < length counts.old → get_or counts.new k 0 ≡ get_or counts.old (k % (4 * count)) 0 }
{
    let mut i = 4 * count;
    while i < counts.len() {
        counts[i] = counts[i - 4 * count];
        i += 1;
    }
}

// The support counts with all patterns possible, at as many cells as there is room for.
pub fn start_counts(count: usize, offsets: &[u32], ids: &[u8], counts: &mut [u8])
    requires { Accepted (table count offsets.now ids.now) × (4 * count ≤ length counts.old) }
    ensures { (cells : ℕ) → length counts.old ≡ cells * count * 4
        → counts.new ≡ start_counts (table count offsets.now ids.now) cells }
{
    first_counts(count, offsets, ids, counts);
    repeat_counts(count, counts);
}

// ---- zero

// All support counts or marks zero.
pub fn zero_bytes(bytes: &mut [u8])
    ensures { bytes.new ≡ replicate (length bytes.old) 0 }
{
    let mut i = 0;
    while i < bytes.len() {
        bytes[i] = 0;
        i += 1;
    }
}

// All pending removals zero.
pub fn zero_pending(pending: &mut [u32])
    ensures { pending.new ≡ replicate (length pending.old) 0 }
{
    let mut i = 0;
    while i < pending.len() {
        pending[i] = 0;
        i += 1;
    }
}

// All domains zero.
pub fn zero_domains(domains: &mut [u64])
    ensures { domains.new ≡ replicate (length domains.old) 0 }
{
    let mut i = 0;
    while i < domains.len() {
        domains[i] = 0;
        i += 1;
    }
}

// All floats zero.
pub fn zero_floats(floats: &mut [f32])
    ensures { floats.new ≡ replicate (length floats.old) (of_bits binary32 0) }
{
    let mut i = 0;
    while i < floats.len() {
        floats[i] = 0.0;
        i += 1;
    }
}
