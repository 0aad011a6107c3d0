// Lines on standard output, as they stand in vectors/. What cannot be written is left out, and shows when the output is held to what was recorded.
use refusals::Refusal;
use run::Stop;
use std::fmt::Display;

// A line: a name, and numbers after it.
pub(crate) fn line<O: Print, N: Display>(out: &O, name: &str, numbers: &[N]) {
    let _ = print!(out; "{name}");
    for number in numbers {
        let _ = print!(out; " {number}");
    }
    let _ = println!(out);
}

// A line that says what is wrong.
pub(crate) fn wrong<O: Print, W: Display + Drop>(out: &O, what: W) {
    let _ = println!(out; "{what}");
}

// The number of a refusal, 0 for none.
pub(crate) fn refused<O: Print>(out: &O, refusal: Option<Refusal>) {
    line(out, "refused", &[refusal.map_or(0, u32::from)]);
}

// How a run ended, by its number in vectors/, and how many words it used.
pub(crate) fn end<O: Print>(out: &O, stop: Stop) {
    line(out, "end", &[u32::from(stop.end) as usize, stop.used]);
}

// A choice, with the bits of its entropy.
pub(crate) fn choice<O: Print>(out: &O, cell: u32, entropy: f32, pattern: u32) {
    if entropy.is_nan() {
        let _ = println!(out; "choice {cell} NaN {pattern}");
    } else {
        let bits = entropy.to_bits();
        let _ = println!(out; "choice {cell} {bits:08x} {pattern}");
    }
}

// The bytes of a sheet, two hexadecimal digits each.
pub(crate) fn sheet<O: Print>(out: &O, bytes: &[u8]) {
    let _ = print!(out; "sheet ");
    for byte in bytes {
        let _ = print!(out; "{byte:02x}");
    }
    let _ = println!(out);
}
