// How a run starts, and what it leaves in memory when it ends. Follows docs/RULES.md, "Run" and "Refusals".
ghost use Rattle.std.specs.Prelude.{false, cond, List, [], ◌++◌, ◌≡◌, ℕ, ◌-◌, ◌*◌, ◌≤◌, ◌<◌, length, drop, replicate};
ghost use Rattle.adjacency.specs.Tables.{table};
ghost use Rattle.adjacency.specs.Accepted.{Accepted};
ghost use Rattle.adjacency.specs.Weights.{Weighed, whole_weight, mask};
ghost use Rattle.grid.specs.Grid.{Grid};
ghost use Rattle.grid.specs.Grid as grids;
ghost use Rattle.logarithms.specs.Entropy.{running};
ghost use Rattle.logarithms.specs.Logs.{Front};
ghost use Rattle.consistency.specs.Worklist.{state};
ghost use Rattle.notes.specs.Beside.{beside_in};
ghost use Rattle.course.specs.Run.{first_count, first_entropy, given, begun};
ghost use Rattle.collapse.specs.Steps.{Opened};
ghost use Rattle.course.specs.Called.{memory, room, cleared};

use propagation::inner::{start_counts, zero_bytes, zero_domains, zero_floats, zero_pending};

// ---- the end

// Zero over the work memory, and over the domains after a contradiction.
pub fn finish(
    contradiction: bool,
    domains: &mut [u64],
    counts: &mut [u8],
    pending: &mut [u32],
    floats: &mut [f32],
    marks: &mut [u8],
)
    ensures { memory domains.new counts.new pending.new floats.new marks.new
        ≡ cleared (cond contradiction (replicate (length domains.old) 0) domains.old)
        (room (length domains.old) (length counts.old) (length pending.old) (length floats.old) (length marks.old)) }
{
    zero_bytes(counts);
    zero_pending(pending);
    zero_floats(floats);
    zero_bytes(marks);
    if contradiction {
        zero_domains(domains);
    }
}

// ---- the start

fn narrow(x: usize) -> u8
    requires { x < 256 }
    ensures { result ≡ x }
{
    x as u8
}

// How many patterns have weight, where that is two or more, and 0 otherwise.
fn first_count(weights: &[u32], weighted: u64) -> u8
    requires { (length weights.now ≤ 64) × (weighted ≡ mask weights.now) }
    ensures { result ≡ first_count weights.now }
{
    let many = words::inner::count_ones(weighted);
    if 2 <= many {
        return narrow(many);
    }
    0
}

// The entropy that each cell's note starts with, +0 where there is no note; `whole` is the whole weight.
fn first_entropy(weights: &[u32], weighted: u64, logs: &[f32], whole: u32, value: f32) -> f32
    requires { Front logs.now × (length weights.now ≤ 64) × (weighted ≡ mask weights.now) × (whole ≡ whole_weight weights.now) × (whole ≤ length logs.now)
        × (value ≡ running weights.now) }
    ensures { result ≡ first_entropy weights.now }
{
    if first_count(weights, weighted) == 0 {
        return 0.0;
    }
    logarithms::inner::entropy_from(logs, whole, value)
}

// The first `many` words are one word.
fn fill_domains(many: usize, word: u64, domains: &mut [u64])
    requires { many ≤ length domains.old }
    ensures { domains.new ≡ replicate many word ++ drop many domains.old }
{
    let mut i = 0;
    while i < many {
        domains[i] = word;
        i += 1;
    }
}

// The first `many` floats are one value.
fn fill_floats(many: usize, value: f32, floats: &mut [f32])
    requires { many ≤ length floats.old }
    ensures { floats.new ≡ replicate many value ++ drop many floats.old }
{
    let mut i = 0;
    while i < many {
        floats[i] = value;
        i += 1;
    }
}

// The first `many` marks are one number.
fn fill_marks(many: usize, number: u8, marks: &mut [u8])
    requires { many ≤ length marks.old }
    ensures { marks.new ≡ replicate many number ++ drop many marks.old }
{
    let mut i = 0;
    while i < many {
        marks[i] = number;
        i += 1;
    }
}

// A running value for each cell, then the first entropy for each, from a front of the logarithms that reaches the whole weight.
fn lay_floats(
    weights: &[u32],
    weighted: u64,
    logs: &[f32],
    whole: u32,
    cells: usize,
    floats: &mut [f32],
)
    requires front { Front logs.now × (length weights.now ≤ 64) × (weighted ≡ mask weights.now) × (whole ≡ whole_weight weights.now) × (whole ≤ length logs.now) }
    requires floats_len { length floats.old ≡ 2 * cells }
    ensures { floats.new ≡ replicate cells (running weights.now) ++ replicate cells (first_entropy weights.now) }
{
    let value = logarithms::inner::running(logs, weights);
    let entropy = first_entropy(weights, weighted, logs, whole, value);
    fill_floats(floats.len(), entropy, floats);
    fill_floats(cells, value, floats);
}

// A running value for each cell, then the first entropy for each. Where the whole weight is at most 64, only that many logarithms are laid out.
fn begin_floats(count: usize, weights: &[u32], weighted: u64, cells: usize, floats: &mut [f32])
    requires { (1 ≤ count) × (count ≤ 64) × Weighed count weights.now × (weighted ≡ mask weights.now) × (length floats.old ≡ 2 * cells) }
    ensures { floats.new ≡ replicate cells (running weights.now) ++ replicate cells (first_entropy weights.now) }
{
    let whole = adjacency::inner::weight_sum(weights, words::inner::full_word(count));
    if whole <= 64 {
        let few = logarithms::inner::few_logs();
        lay_floats(weights, weighted, &few, whole, cells, floats);
        return;
    }
    let logs = logarithms::inner::logs();
    lay_floats(weights, weighted, &logs, whole, cells, floats);
}

// A count for each cell's note, then zero: no cell was noted yet, and no block was looked at.
fn begin_marks(number: u8, cells: usize, marks: &mut [u8])
    requires { cells ≤ length marks.old }
    ensures { marks.new ≡ replicate cells number ++ replicate (length marks.old - cells) 0 }
{
    zero_bytes(marks);
    fill_marks(cells, number, marks);
}

// All domains full, with the support counts, running values and notes of that.
pub fn begin_state(
    count: usize,
    offsets: &[u32],
    ids: &[u8],
    weights: &[u32],
    weighted: u64,
    cells: usize,
    domains: &mut [u64],
    counts: &mut [u8],
    floats: &mut [f32],
    marks: &mut [u8],
)
    requires accepted { Accepted (table count offsets.now ids.now) × Weighed count weights.now × (weighted ≡ mask weights.now) }
    requires opened { Opened count cells domains.old counts.old floats.old marks.old }
    ensures { (g : Grid) (noise : List ℕ) → cells ≡ grids.cells g
        → state counts.new domains.new [] false (beside_in (length domains.new) floats.new marks.new)
        ≡ begun (given (table count offsets.now ids.now) weights.now g noise) }
{
    fill_domains(cells, words::inner::full_word(count), domains);
    start_counts(count, offsets, ids, counts);
    begin_floats(count, weights, weighted, cells, floats);
    begin_marks(first_count(weights, weighted), cells, marks);
}
