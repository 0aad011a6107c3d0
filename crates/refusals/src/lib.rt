// The eleven refusals. A call that only accepts or refuses answers `Result<(), Refusal>`.
// Follows docs/RULES.md, "Refusals". Main property: each refusal has one number, and `first_of` names the first whose test holds.

#![tactic(auto)]

ghost use Rattle.std.specs.Prelude.{◌≡◌, ◌⊎◌, ◌<◌, MatchResult};
ghost use Rattle.refusals.specs.Refusals.{number};

pub mod inner;

// Why a call is refused.
#[derive(Clone, Copy, Debug, PartialEq, Eq)]
pub enum Refusal {
    BadSize,
    BadWrap,
    BadCount,
    BadWeights,
    BadLength,
    BadList,
    Disagree,
    BadCell,
    BadPattern,
    BadSheet,
    BadDirection,
}

// The number of a refusal.
impl From<Refusal> for u32 {
    ghost from_gives = { λ refusal n. n ≡ number refusal };

    fn from(refusal: Refusal) -> u32 {
        match refusal {
            Refusal::BadSize => 1,
            Refusal::BadWrap => 2,
            Refusal::BadCount => 3,
            Refusal::BadWeights => 4,
            Refusal::BadLength => 5,
            Refusal::BadList => 6,
            Refusal::Disagree => 7,
            Refusal::BadCell => 8,
            Refusal::BadPattern => 9,
            Refusal::BadSheet => 10,
            Refusal::BadDirection => 11,
        }
    }
}

// A number that no refusal has.
#[derive(Clone, Copy, Debug, PartialEq, Eq)]
pub struct NoRefusal(pub u32);

// The refusal that a number names.
impl TryFrom<u32> for Refusal {
    type Error = NoRefusal;

    ghost try_from_gives = { λ n r. MatchResult r (λ x. number x ≡ n) (λ _. (n ≡ 0) ⊎ (11 < n)) };

    fn try_from(n: u32) -> Result<Refusal, NoRefusal> {
        match n {
            1 => Ok(Refusal::BadSize),
            2 => Ok(Refusal::BadWrap),
            3 => Ok(Refusal::BadCount),
            4 => Ok(Refusal::BadWeights),
            5 => Ok(Refusal::BadLength),
            6 => Ok(Refusal::BadList),
            7 => Ok(Refusal::Disagree),
            8 => Ok(Refusal::BadCell),
            9 => Ok(Refusal::BadPattern),
            10 => Ok(Refusal::BadSheet),
            11 => Ok(Refusal::BadDirection),
            _ => Err(NoRefusal(n)),
        }
    }
}
