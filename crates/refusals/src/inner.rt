// The number of what a check answers, for the calls that answer a number. Follows docs/RULES.md, "Refusals".
ghost use Rattle.std.specs.Prelude.{◌≡◌};
ghost use Rattle.refusals.specs.Refusals.{number_of};

use crate::Refusal;

// The number of a refusal, 0 where nothing is refused.
pub fn number_of(checked: Result<(), Refusal>) -> u32
    ensures { result ≡ number_of checked }
{
    match checked {
        Ok(()) => 0,
        Err(refusal) => u32::from(refusal),
    }
}
