//! Replays cases: a stream of cases on standard input is answered on standard output, case by case, in bounded memory.
//! All numbers of the stream are little-endian. A case is:
//!   u32 length and that many bytes, a sheet
//!   u32 count and that many u32, the noise words
//!   u32 count and that many u32, the words
//! The answer is a u16, then the result's record where that is 0:
//!   0 the run is done
//!   1 to 11 the refusal's number: of the sheet, or, where that is taken, 5 for noise that is not a word for each cell
//!   65535 too large for this program: cells times patterns over 4,096, told after the sheet's refusals and before the noise's
//! A stream that is cut off in a case ends after the last whole one, and standard error says so; one that ends between two cases just ends.
//! Where an answer cannot be written to its end, standard error says so, and nothing more is read.
#![tactic(auto)]

mod cases;
mod input;

// What is answered goes to standard output, and why no more is to standard error.
// A proved loop has to end, and nothing says that a stream does: the turns are as many as no stream uses up.
fn main(rt: HostRuntime) {
    let mut input = rt.reader();
    for _ in 0..u64::MAX {
        match cases::next(&rt, &mut input) {
            Ok(true) => {}
            Ok(false) => return,
            Err(reason) => {
                cases::say(&rt.stderr(), reason);
                return;
            }
        }
    }
}
