// Logarithms, the entropy of a domain, and notes.
// Follows docs/RULES.md, "Entropy"; stands for `WaveCellStats` and `EntropyWithNoise` of the Rust.
// Main property: the entropy of a domain is log2 of its weight sum minus its running value over that sum, each operation rounded once,
// and no entropy is a NaN.
#![tactic(auto)]

ghost use Rattle.std.specs.Prelude.{◌≡◌};
ghost use Rattle.logarithms.specs.Asked.{entropy_told, entropy_asked};

use refusals::Refusal;

pub mod inner;
mod table;

// The entropy of a domain, asked apart from a run, and none for a domain without a weighted pattern.
pub fn entropy_of(count: usize, weights: &[u32], domain: u64) -> Result<Option<f32>, Refusal>
    ensures { entropy_told result ≡ entropy_asked count weights.now domain }
{
    inner::check_domain(count, weights, domain)?;
    let sum = adjacency::inner::weight_sum(weights, domain);
    if sum == 0 {
        return Ok(None);
    }
    let logs = inner::logs();
    Ok(Some(inner::entropy_from(&logs, sum, inner::less(&logs, weights, domain))))
}
