// The four support counts of a pattern at a cell, as bytes of a lent slice: `NumWaysToBecomePattern` of the Rust.
ghost use Rattle.std.specs.Prelude.{◌≡◌, ◌+◌, ◌<◌, length};
ghost use Rattle.consistency.specs.Worklist.{four_cleared};
ghost use Rattle.propagation.specs.Supports.{visit, visit_at};

// Takes one support. True where it is the last: then the pattern goes, and clearing its counts is left to its removal.
// Which of the three it is (none, the last, more) is not to be foreseen, so the count is written in each case and nothing branches on it.
pub(crate) fn try_decrement(counts: &mut [u8], at: usize) -> bool
    requires { at < length counts.old }
    ensures { visit result counts.new ≡ visit_at counts.old at }
{
    let count = counts[at];
    counts[at] = count - (1 < count) as u8;
    count == 1
}

// A pattern that is gone has no supports from any direction.
pub fn clear_all_directions(counts: &mut [u8], at: usize)
    requires { at + 3 < length counts.old }
    ensures { counts.new ≡ four_cleared counts.old at }
{
    counts[at] = 0;
    counts[at + 1] = 0;
    counts[at + 2] = 0;
    counts[at + 3] = 0;
}
