// The choices of a run. A run tells its end alone, so its steps are gone through again (`trace_c`).
use crate::calls::{COUNTS, Counts, Domains, Floats, Marks, PENDING, Pending, lent};
use crate::input::{Head, Slices};
use crate::print;
use transfer::{front, room};

// Memory for what is told: a choice more than there can be, so that one too many shows. Two numbers tell a choice's place.
const MOST: usize = 1025;

type Places = [u32; 2050];

type Entropies = [f32; 1025];

// Tells each choice, and answers how many there were.
pub(crate) fn tell<O: Print>(
    out: &O,
    head: &Head,
    slices: &Slices,
    domains: &mut Domains,
) -> usize {
    let mut places: Places = room(7);
    let mut entropies: Entropies = room(7.0);
    let mut counts: Counts = [7; COUNTS];
    let mut pending: Pending = [7; PENDING];
    let mut floats: Floats = room(7.0);
    let mut marks: Marks = room(7);
    let words = front(slices.words, MOST);
    let most = words.len();
    let made = trace_c::murghidossu_trace(
        slices.forbids,
        head.count,
        head.width,
        head.height,
        head.mode,
        slices.weights,
        slices.offsets,
        slices.ids,
        slices.noise,
        words,
        &mut places[..2 * most],
        &mut entropies[..most],
        lent(domains, head.lent[0]),
        lent(&mut counts, head.lent[1]),
        lent(&mut pending, head.lent[2]),
        lent(&mut floats, head.lent[3]),
        lent(&mut marks, head.lent[4]),
    );
    for (place, entropy) in places.chunks(2).zip(&entropies).take(made) {
        if let [cell, pattern] = place {
            print::choice(out, *cell, *entropy, *pattern);
        }
    }
    made
}
