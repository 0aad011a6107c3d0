//! ocean: lays an ocean and shows it. Thin: what matters is in the libraries, each call of which is proved to do what it says.
//!
//!     ocean                               the practice ocean, from a fixed seed
//!     ocean SHEET NOISE WORDS [RESULT]    a sheet, with its noise and words, and where its result goes
//!     ocean --seed N [SHEET [RESULT]]     noise and words from a seed
//!     ocean --svg FILE ..                 and a picture
//!
//! What went wrong is a sentence on standard error, and nothing is shown; tools/program makes a status of it.
#![tactic(auto)]

use transfer::argument_count;

fn main(rt: HostRuntime) {
    let plan = voyage::inner::arguments(&rt, 1, argument_count(&rt));
    voyage::inner::carry_out(&rt, plan, &rt.stderr());
}
