// Sheets: a call that writes one or reads one is made and told. Lent memory starts full of sevens, and what is told ends with how many of them stayed.
use crate::calls::lent;
use crate::input::{Head, Slices};
use crate::print;
use refusals::Refusal;
use sheet::Measures;
use transfer::{front, room};

type Bytes = [u8; 131072];

type Numbers = [u32; 16384];

// How many sevens there are from there up to there.
fn sevens<T: Copy + PartialEq + Drop, const N: usize>(
    memory: &[T; N],
    from: usize,
    to: usize,
    seven: T,
) -> usize {
    memory
        .iter()
        .take(to)
        .skip(from)
        .filter(|entry| **entry == seven)
        .count()
}

// ---- a sheet that is written

// Writing, to a part of the memory of the length that the call asks for.
fn write_in(head: &Head, slices: &Slices, out: &mut Bytes) -> Result<usize, Refusal> {
    sheet::write(
        head.count,
        slices.weights,
        slices.offsets,
        slices.ids,
        head.width,
        head.height,
        head.mode,
        slices.forbids,
        lent(out, head.lent[0]),
    )
}

// Writing, told with the bytes and with how many past them stayed.
pub(crate) fn write_told<O: Print>(out: &O, head: &Head, slices: &Slices) {
    let mut bytes: Bytes = room(7);
    let written = write_in(head, slices, &mut bytes);
    print::refused(out, written.err());
    let end = match written {
        Ok(n) => {
            print::sheet(out, front(&bytes, n));
            n
        }
        Err(_) => 0,
    };
    print::line(out, "stayed", &[sevens(&bytes, end, head.lent[0], 7)]);
}

// ---- a sheet that is read

// How much a sheet holds, or why that is not told.
fn tell_held<O: Print>(out: &O, held: Result<Measures, Refusal>) {
    print::refused(out, held.err());
    if let Ok(m) = held {
        print::line(
            out,
            "sizes",
            &[m.count, m.ids, m.width, m.height, m.mode, m.forbids],
        );
    }
}

// Memory that a sheet was read into; it stands in the function that lent it.
#[derive(Clone, Copy)]
struct Room<'a> {
    weights: &'a Numbers,
    offsets: &'a Numbers,
    ids: &'a Bytes,
    forbids: &'a Numbers,
}

// Where the entries of a sheet end in each slice.
#[derive(Clone, Copy)]
struct Ends {
    weights: usize,
    offsets: usize,
    ids: usize,
    forbids: usize,
}

impl Ends {
    // Nothing stands in them where it is refused.
    fn of(held: Result<Measures, Refusal>) -> Ends {
        match held {
            Err(_) => Ends {
                weights: 0,
                offsets: 0,
                ids: 0,
                forbids: 0,
            },
            Ok(m) => Ends {
                weights: m.count,
                offsets: 4 * m.count.min(64) + 1,
                ids: m.ids,
                forbids: 3 * m.forbids.min(4096),
            },
        }
    }
}

// The entries of a sheet that was read.
fn tell_entries<O: Print>(out: &O, ends: Ends, memory: Room) {
    let Room {
        weights,
        offsets,
        ids,
        forbids,
    } = memory;
    print::line(out, "weights", front(weights, ends.weights));
    print::line(out, "offsets", front(offsets, ends.offsets));
    print::line(out, "ids", front(ids, ends.ids));
    print::line(out, "forbids", front(forbids, ends.forbids));
}

// How many entries past each slice's last one stayed.
fn tell_stayed<O: Print>(out: &O, head: &Head, ends: Ends, memory: Room) {
    let [weights, offsets, ids, forbids, _] = head.lent;
    print::line(
        out,
        "stayed",
        &[
            sevens(memory.weights, ends.weights, weights, 7),
            sevens(memory.offsets, ends.offsets, offsets, 7),
            sevens(memory.ids, ends.ids, ids, 7),
            sevens(memory.forbids, ends.forbids, forbids, 7),
        ],
    );
}

// Reading, into parts of the memory of the lengths that the call asks for; told with what `sizes` tells of the same bytes, the entries and how many past
// them stayed.
pub(crate) fn read_told<O: Print>(out: &O, head: &Head, bytes: &[u8]) {
    tell_held(out, sheet::sizes(bytes));
    let mut weights: Numbers = room(7);
    let mut offsets: Numbers = room(7);
    let mut ids: Bytes = room(7);
    let mut forbids: Numbers = room(7);
    let held = sheet::read(
        bytes,
        lent(&mut weights, head.lent[0]),
        lent(&mut offsets, head.lent[1]),
        lent(&mut ids, head.lent[2]),
        lent(&mut forbids, head.lent[3]),
    );
    let memory = Room {
        weights: &weights,
        offsets: &offsets,
        ids: &ids,
        forbids: &forbids,
    };
    let ends = Ends::of(held);
    tell_held(out, held);
    if held.is_ok() {
        tell_entries(out, ends, memory);
    }
    tell_stayed(out, head, ends, memory);
}
