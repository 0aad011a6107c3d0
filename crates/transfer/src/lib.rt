//! What the programs share to read: room for bytes, a read up to the end, and the words that a program was started with.
//! Nothing here allocates. Of what a file or a stream has, no contract can speak; these say how much of the lent room is filled.
#![tactic(auto)]

ghost use Rattle.std.specs.Prelude.{◌≡◌, ◌≤◌, length, take};

use std::env::FillError;
use std::io::Read;
use std::rt::Env;

// Room of one value. That it is so long is all that is said of it, so that no proof holds thousands of entries.
pub fn room<T: Copy, const N: usize>(value: T) -> [T; N]
    ensures { N ≡ length result }
{
    [value; N]
}

// Bytes to read into or to write text into, as many as hold the name of any file, or a page.
pub type Buffer = [u8; 4096];

pub type LargeBuffer = [u8; 65536];

// The first n entries, or all of them where there are fewer.
pub fn front<'a, T>(entries: &'a [T], n: usize) -> &'a [T]
    ensures { result.now ≡ take n entries.now }
{
    entries.get(..n).unwrap_or(entries)
}

// One read: how many bytes it put at the start of the lent ones. A read that fails puts none there, as one at the end does.
pub fn read_once<R: Read>(reader: &mut R, room: &mut [u8]) -> usize
    ensures bound { result ≤ length room.new }
    ensures prefix { result ≡ length (take result room.new) }
{
    reader.read(room).unwrap_or(0)
}

// Reads until the lent bytes are full, the input ends or a read fails, and answers how many it put at their start. No room is no read.
pub fn read_full<R: Read>(reader: &mut R, room: &mut [u8]) -> usize
    ensures bound { result ≤ length room.new }
    ensures prefix { result ≡ length (take result room.new) }
{
    let size = room.len();
    let mut done = 0;
    for _ in 0..size {
        if done == size {
            break;
        }
        let n = read_once(reader, &mut room[done..]);
        if n == 0 {
            break;
        }
        done += n;
    }
    done
}

// Puts the text of an argument at the start of the lent bytes, and answers its length; 0 where there is no such argument, or it is longer than they are.
pub fn argument<E: Env>(rt: &E, index: usize, text: &mut [u8]) -> usize
    ensures bound { result ≤ length text.new }
    ensures prefix { result ≡ length (take result text.new) }
{
    rt.arg(index, text).unwrap_or(0)
}

// Whether there is an argument of this number, however long it is.
fn is_argument<E: Env>(rt: &E, index: usize) -> bool {
    let mut text = [0u8; 1];
    !matches!(rt.arg(index, &mut text), Err(FillError::NotPresent))
}

// How many arguments there are, the program's own name among them.
pub fn argument_count<E: Env>(rt: &E) -> usize {
    (0..usize::MAX)
        .find(|i| !is_argument(rt, *i))
        .unwrap_or(usize::MAX)
}
