// Logarithms and entropy, for the crates above.
ghost use Rattle.std.specs.Prelude.{◌≡◌, ◌+◌, ◌≤◌, ◌<◌, length};
ghost use Rattle.adjacency.specs.Weights.{Bounded, whole_weight};
ghost use Rattle.refusals.specs.Refusals.{number_of};
ghost use Rattle.logarithms.specs.Logs.{log_of, Logs, Front};
ghost use Rattle.logarithms.specs.Entropy.{w_log_w, plus, minus, running, less, entropy};
ghost use Rattle.logarithms.specs.Asked.{domain_refusal};

use crate::table::{FEW, LOGS};
use refusals::Refusal;

// ---- logarithms

// The table, to be lent: it is laid out once, and not at each look.
pub fn logs() -> [f32; 1024]
    ensures { Logs result }
{
    LOGS
}

// The first 64 of it, for weights of at most that sum: a small table is laid out sooner.
pub fn few_logs() -> [f32; 64]
    ensures { Front result × (64 ≡ length result) }
{
    FEW
}

// The logarithm of n, from a front of the table that has it.
pub fn log2(logs: &[f32], n: usize) -> f32
    requires { Front logs.now × (1 ≤ n) × (n ≤ length logs.now) }
    ensures { result ≡ log_of n }
{
    logs[n - 1]
}

// w log w, of a weight that is not 0.
pub fn w_log_w(logs: &[f32], weight: u32) -> f32
    requires { Front logs.now × (1 ≤ weight) × (weight ≤ length logs.now) }
    ensures { result ≡ w_log_w weight }
{
    (weight as f32) * log2(logs, weight as usize)
}

// ---- running values

// What a pattern adds to the running value; a weight of 0 adds nothing.
fn added(logs: &[f32], value: f32, weight: u32) -> f32
    requires { Front logs.now × (weight ≤ length logs.now) }
    ensures { result ≡ plus value weight }
{
    if weight == 0 {
        return value;
    }
    value + w_log_w(logs, weight)
}

// What a removal leaves of the running value; a weight of 0 takes nothing away.
pub fn removed(logs: &[f32], value: f32, weight: u32) -> f32
    requires { Logs logs.now × (weight ≤ 1024) }
    ensures { result ≡ minus value weight }
{
    if weight == 0 {
        return value;
    }
    value - w_log_w(logs, weight)
}

// The running value of all patterns, summed upward.
pub fn running(logs: &[f32], weights: &[u32]) -> f32
    requires { Front logs.now × (whole_weight weights.now ≤ length logs.now) }
    ensures { result ≡ running weights.now }
{
    let mut value: f32 = 0.0;
    let mut p = 0;
    while p < weights.len() {
        value = added(logs, value, weights[p]);
        p += 1;
    }
    value
}

// The running value less the patterns that the word lacks, taken away upward.
pub fn less(logs: &[f32], weights: &[u32], word: u64) -> f32
    requires { Logs logs.now × Bounded weights.now word }
    ensures { result ≡ less weights.now word }
{
    let mut value = running(logs, weights);
    let mut p = 0;
    while p < weights.len() {
        if !words::inner::has_pattern(word, p) {
            value = removed(logs, value, weights[p]);
        }
        p += 1;
    }
    value
}

// ---- entropy

// The entropy of a weight sum that is not 0 and a running value.
pub fn entropy_from(logs: &[f32], sum: u32, value: f32) -> f32
    requires { Front logs.now × (1 ≤ sum) × (sum ≤ length logs.now) }
    ensures { result ≡ entropy sum value }
{
    log2(logs, sum as usize) - value / (sum as f32)
}

// Whether a domain may be asked about apart from a run.
pub fn check_domain(count: usize, weights: &[u32], domain: u64) -> Result<(), Refusal>
    ensures { number_of result ≡ domain_refusal count weights.now domain }
{
    if adjacency::inner::bad_count(count) {
        return Err(Refusal::BadCount);
    }
    if weights.len() != count {
        return Err(Refusal::BadLength);
    }
    if adjacency::inner::over_weight(weights) {
        return Err(Refusal::BadWeights);
    }
    if words::inner::beyond_count(domain, count) {
        return Err(Refusal::BadPattern);
    }
    Ok(())
}
