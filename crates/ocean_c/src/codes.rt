// The number of each answer. Follows docs/RULES.md, "Refusals".
ghost use Rattle.std.specs.Prelude.{◌≡◌, ◌≤◌, ◌<◌};
ghost use Rattle.refusals.specs.Refusals.{number};
ghost use Rattle.starting.specs.Propagate.{propagated_told};
ghost use Rattle.run.specs.Answers.{answer_told};
ghost use Rattle.sheet.specs.Called.{sizes_told, written_told};
ghost use Rattle.ocean_c.specs.Coded.{cased, coded, settled_coded, accepted_coded, bytes_coded, used_in, bytes_in};

use refusals::Refusal;
use run::Stop;
use sheet::Measures;
use starting::Propagated;

// The number of a refusal.
pub(crate) fn refused(refusal: Refusal) -> u64
    ensures { result ≡ number refusal }
{
    u32::from(refusal) as u64
}

// The number of a case with its value.
pub(crate) fn accepted(case: u64, value: usize) -> u64
    requires { (case ≤ 3) × (value < 4294967296) }
    ensures { result ≡ cased case value }
{
    256 * case + 4294967296 * (value as u64)
}

// The number of a run's answer.
pub(crate) fn code_of(told: Result<Stop, Refusal>) -> u64
    requires { used_in (answer_told told) ≤ 1024 }
    ensures { result ≡ coded (answer_told told) }
{
    match told {
        Ok(stop) => {
            let case = u32::from(stop.end) as u64;
            accepted(case, stop.used)
        }
        Err(refusal) => refused(refusal),
    }
}

// The number of what propagation answers.
pub(crate) fn settled(told: Result<Propagated, Refusal>) -> u64
    ensures { result ≡ settled_coded (propagated_told told) }
{
    match told {
        Ok(Propagated::Consistent) => accepted(0, 0),
        Ok(Propagated::Contradiction) => accepted(1, 0),
        Err(refusal) => refused(refusal),
    }
}

// 0 for a sheet that was read; what it holds stands in the lent slices.
pub(crate) fn was_read(told: Result<Measures, Refusal>) -> u64
    ensures { result ≡ accepted_coded (sizes_told told) }
{
    match told {
        Ok(_) => 0,
        Err(refusal) => refused(refusal),
    }
}

// The number of how many bytes were written.
pub(crate) fn written(told: Result<usize, Refusal>) -> u64
    requires { bytes_in (written_told told) ≤ 41376 }
    ensures { result ≡ bytes_coded (written_told told) }
{
    match told {
        Ok(bytes) => accepted(0, bytes),
        Err(refusal) => refused(refusal),
    }
}
