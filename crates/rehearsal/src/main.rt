//! rehearsal: carries out commands of `ocean` one after the other, by the same functions, and shows each with all that it says and writes.
//! For the gate, which runs a program once and holds what it writes to a file. Its arguments are the words of all commands, `then` between two:
//!
//!     W ..           the words of a command of `ocean`
//!     bytes FILE     the bytes of a file, in hexadecimal
//!     text FILE      a file as it stands, up to 65,536 bytes
#![tactic(auto)]

ghost use Rattle.std.specs.Prelude.{◌≤◌, ◌<◌};

use std::rt::{Env, Files};
use std::{fs, str};
use transfer::{Buffer, LargeBuffer, room};

// Whether an argument is this word.
fn is_word<R: Env>(rt: &R, index: usize, word: &[u8]) -> bool {
    let mut text: Buffer = room(0);
    let n = transfer::argument(rt, index, &mut text);
    command::arguments::same(&text[..n], word)
}

// Where the command that starts here ends: at the next `then`, or at the last argument.
fn end_of<R: Env>(rt: &R, from: usize, count: usize) -> usize
    requires { from < count }
    ensures { (from ≤ result) × (result ≤ count) }
{
    (from..count)
        .find(|i| is_word(rt, *i, b"then"))
        .unwrap_or(count)
}

// Writes bytes on standard output. What cannot be written is left out, and shows when the output is held to the file.
fn say_all<R: Print>(rt: &R, bytes: &[u8]) {
    let _ = rt.write_all(bytes);
}

fn end_line<R: Print>(rt: &R) {
    say_all(rt, b"\n");
}

// A word of a command, as it was typed.
fn say_word<R: Env + Print>(rt: &R, index: usize) {
    let mut text: Buffer = room(0);
    let n = transfer::argument(rt, index, &mut text);
    say_all(rt, b" ");
    if n == 0 {
        say_all(rt, b"''");
    }
    say_all(rt, &text[..n]);
}

// The command, as a person types it.
fn say<R: Env + Print>(rt: &R, from: usize, end: usize) {
    for i in from..end {
        say_word(rt, i);
    }
    end_line(rt);
}

// The file that an argument names, opened to be read, or none.
fn named<R: Env + Files>(rt: &R, index: usize) -> Option<R::File> {
    let mut path: Buffer = room(0);
    let n = transfer::argument(rt, index, &mut path);
    let text = str::from_utf8(&path[..n]).ok()?;
    fs::open(rt, text).ok()
}

// Opens a file to be shown, or says that it is not there and answers none.
fn opened<R: Env + Files + Print>(rt: &R, index: usize) -> Option<R::File> {
    let file = named(rt, index);
    if file.is_none() {
        say_all(rt, b"(there is no such file)\n");
    }
    file
}

// Bytes in hexadecimal.
fn say_bytes<R: Print>(rt: &R, bytes: &[u8]) {
    for byte in bytes {
        let _ = print!(rt; "{byte:02x}");
    }
    end_line(rt);
}

fn show_bytes<R: Env + Files + Print>(rt: &R, index: usize) {
    let Some(mut file) = opened(rt, index) else {
        return;
    };
    let mut bytes: Buffer = room(0);
    let n = transfer::read_full(&mut file, &mut bytes);
    say_bytes(rt, &bytes[..n]);
}

fn show_text<R: Env + Files + Print>(rt: &R, index: usize) {
    let Some(mut file) = opened(rt, index) else {
        return;
    };
    let mut bytes: LargeBuffer = room(0);
    let n = transfer::read_full(&mut file, &mut bytes);
    say_all(rt, &bytes[..n]);
}

// What a command does: it shows the bytes of a file, or its text, or it is one of `ocean`.
#[derive(Clone, Copy)]
enum Command {
    Bytes,
    Text,
    Ocean,
}

// The command that starts with this word.
fn command_at<R: Env>(rt: &R, index: usize) -> Command {
    if is_word(rt, index, b"bytes") {
        Command::Bytes
    } else if is_word(rt, index, b"text") {
        Command::Text
    } else {
        Command::Ocean
    }
}

// One command, from one argument up to another.
fn rehearse<R: Env + Files + Print>(rt: &R, from: usize, end: usize)
    requires { from < end }
{
    let command = command_at(rt, from);
    say_all(rt, b"$");
    if let Command::Ocean = command {
        say_all(rt, b" ocean");
    }
    say(rt, from, end);
    match command {
        Command::Bytes => show_bytes(rt, from + 1),
        Command::Text => show_text(rt, from + 1),
        Command::Ocean => {
            let plan = voyage::inner::arguments(rt, from, end);
            voyage::inner::carry_out(rt, plan, rt);
        }
    }
}

// All commands, from the first argument on. Each ends past where it starts, at a `then` or at the last argument.
fn main(rt: HostRuntime) {
    let count = transfer::argument_count(&rt);
    let mut from = 1;
    while from < count {
        let end = end_of(&rt, from, count);
        if from < end {
            rehearse(&rt, from, end);
        }
        if end == count {
            return;
        }
        from = end + 1;
    }
}
