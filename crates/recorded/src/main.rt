//! Replays recorded calls: what a stream of calls on standard input is answered, on standard output. The gate compares that with what was recorded
//! (vectors/README.md): of 374 runs every end, count of words and domain, and every choice's cell, entropy bits and pattern; of 106 further runs the number of the
//! refusal; of 6 propagations that and the domains; of 8 lists that are looked up that and the part; of 46 sheets that are written that, the bytes and what
//! stays past them; of 98 that are read that, the entries and what stays past them; and of 40 calls with a slice of a wrong length that they are refused.
//! The choices come from a second pass (src/choices.rt), and where that pass leads elsewhere than the run, a line says so. A stream that is cut off ends with a
//! line that says so.
//! All numbers of the stream are u32, little-endian. A call is 18 of them, then its slices:
//!   what is called: 0 a run, told whole; 1 a run, of which the refusal is told; 2 propagation; 3 a list that is looked up; 4 a sheet that is written; 5 one that
//!   is read
//!   patterns, width, height, mode, the pattern asked for, the direction asked for
//!   how many weights, offsets, noise words, words, numbers of forbids (three for each) and numbers of starting domains (two for each, the lower half first)
//!   how many domains, support counts, pending removals, floats and marks are lent, at most what this program has; where a sheet is written, the first is the
//!   room for it, and where one is read they are weights, offsets, ids and numbers of forbids
//! then the numbers of those slices in that order, then how many ids there are, and the ids, a byte each; where a sheet is read those are its bytes.
//! What is printed is lines as in vectors/: `refused N`, `end E USED`, `domains ..`, `choice CELL BITS PATTERN`, `part ..`, `sheet BYTES`, `weights ..` and so on;
//! `sizes P IDS WIDTH HEIGHT MODE FORBIDS` is what a sheet holds, and `stayed N ..` how many entries past the last are as they were lent, for each slice.
#![tactic(auto)]

mod calls;
mod choices;
mod input;
mod print;
mod sheets;

// A proved loop has to end, and nothing says that a stream does: the turns are as many as no run uses up.
fn main(rt: HostRuntime) {
    let mut input = rt.reader();
    for _ in 0..u64::MAX {
        match calls::next(&rt, &mut input) {
            Ok(true) => {}
            Ok(false) => return,
            Err(stop) => {
                print::wrong(&rt, stop);
                return;
            }
        }
    }
}
