// A run's steps in code: the start, a forbid applied, one turn, all turns, and the end.
// Follows docs/RULES.md, "Run". Main property: each step is that of the run as it is defined in `course`.
#![tactic(auto)]

ghost use Rattle.std.specs.Prelude.{◌≡◌};
ghost use Rattle.collapse.specs.Endings.{end_number};

pub mod inner;

// How a run ends.
#[derive(Clone, Copy, Debug, PartialEq, Eq)]
pub enum Ending {
    Decided,
    Undecided,
    Paused,
    Contradiction,
}

// The number of an end, as a result stores it.
impl From<Ending> for u32 {
    ghost from_gives = { λ end n. n ≡ end_number end };

    fn from(end: Ending) -> u32 {
        match end {
            Ending::Decided => 0,
            Ending::Undecided => 1,
            Ending::Paused => 2,
            Ending::Contradiction => 3,
        }
    }
}

// How a run ended, and how many words it used.
#[derive(Clone, Copy, Debug, PartialEq, Eq)]
pub struct Stop {
    pub end: Ending,
    pub used: usize,
}
