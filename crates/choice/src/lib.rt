// Where to choose and what: the observer, and the pattern that a number takes.
// Follows docs/RULES.md, "Run"; stands for `Observer` and `choose_pattern_id` of the Rust. Main property: the cell observed is the least, by entropy, noise and cell,
// of those whose note counts, and a pattern is taken by as many numbers as it has weight.
#![tactic(auto)]

ghost use Rattle.std.specs.Prelude.{◌≡◌};
ghost use Rattle.choice.specs.Asked.{choice_told, choice_asked};

use refusals::Refusal;

mod blocks;
pub mod inner;
mod observer;

// The pattern that a word chooses in a domain, asked apart from a run, and none for a domain without a weighted pattern.
pub fn choice_of(
    count: usize,
    weights: &[u32],
    domain: u64,
    word: u32,
) -> Result<Option<usize>, Refusal>
    ensures { choice_told result ≡ choice_asked count weights.now domain word }
{
    logarithms::inner::check_domain(count, weights, domain)?;
    let sum = adjacency::inner::weight_sum(weights, domain);
    if sum == 0 {
        return Ok(None);
    }
    Ok(Some(inner::choose(weights, domain, word % sum)))
}
