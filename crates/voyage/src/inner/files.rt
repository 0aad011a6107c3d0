// Files by the argument that names them, and what is wrong where one cannot be used.
ghost use Rattle.std.specs.Prelude.{◌≡◌, ◌≤◌, IfOk, length, take};

use command::arguments::Fault;
use command::files::{Names, Texts};
use command::sentences::FileFault;
use std::fs::OpenFile;
use std::io::{ErrorKind, Read, Write};
use std::rt::{Env, Files};
use std::{fs, io, str};
use transfer::{Buffer, room};

// Linux's numbers of what may be wrong with a file.
const NO_ENTRY: i32 = 2;

const NO_ACCESS: i32 = 13;

const IS_FOLDER: i32 = 21;

// The text of an argument in a buffer; no argument has the empty one.
pub(crate) fn name<'a, R: Env>(rt: &R, index: Option<usize>, buffer: &'a mut Buffer) -> &'a [u8]
    ensures { length result.now ≤ 4096 }
{
    let n = match index {
        Some(index) => transfer::argument(rt, index, buffer),
        None => 0,
    };
    &buffer[..n]
}

// What is wrong with the names of the files.
pub(crate) fn fault_of<R: Env>(rt: &R, names: Names) -> Option<Fault> {
    let mut sheet: Buffer = room(0);
    let mut noise: Buffer = room(0);
    let mut words: Buffer = room(0);
    let mut result: Buffer = room(0);
    let mut picture: Buffer = room(0);
    let texts = Texts {
        sheet: name(rt, names.sheet, &mut sheet),
        noise: name(rt, names.noise, &mut noise),
        words: name(rt, names.words, &mut words),
        result: name(rt, names.result, &mut result),
        picture: name(rt, names.picture, &mut picture),
    };
    command::files::fault_of(names, &texts)
}

// What is wrong with a file, by what the system says.
fn reason(error: &io::Error) -> FileFault {
    match error.raw_os_error() {
        Some(NO_ENTRY) => FileFault::Missing,
        Some(IS_FOLDER) => FileFault::Folder,
        Some(NO_ACCESS) => FileFault::Forbidden,
        _ => FileFault::Unusable,
    }
}

// The text of a file's name. One that is not UTF-8 is one that the system cannot be asked for.
fn path_of(name: &[u8]) -> Result<&str, FileFault> {
    str::from_utf8(name).map_err(|_| FileFault::Unusable)
}

// Opens the file of this name.
pub(crate) fn open<R: Env + Files>(rt: &R, index: Option<usize>) -> Result<R::File, FileFault> {
    let mut buffer: Buffer = room(0);
    let path = path_of(name(rt, index, &mut buffer))?;
    fs::open(rt, path).map_err(|error| reason(&error))
}

// The same of a file to be written, which is emptied, or made where there is none.
fn create<R: Env + Files>(rt: &R, index: Option<usize>) -> Result<R::File, FileFault> {
    let mut buffer: Buffer = room(0);
    let path = path_of(name(rt, index, &mut buffer))?;
    fs::create(rt, path).map_err(|error| reason(&error))
}

// One read of a file: how many bytes it put at the start of the lent ones.
pub(crate) fn read_once<F: Read>(file: &mut F, bytes: &mut [u8]) -> Result<usize, FileFault>
    ensures bound { IfOk result (λ n. n ≤ length bytes.new) }
    ensures prefix { IfOk result (λ n. n ≡ length (take n bytes.new)) }
{
    file.read(bytes).map_err(|error| reason(&error))
}

// How many bytes of a file were read, and whether there are more.
#[derive(Clone, Copy)]
pub(crate) struct Loaded {
    pub(crate) bytes: usize,
    pub(crate) more: bool,
}

// Reads the file of this name into the lent bytes. A read that failed is told of by the next, which fails again.
pub(crate) fn load<R: Env + Files>(
    rt: &R,
    index: Option<usize>,
    bytes: &mut [u8],
) -> Result<Loaded, FileFault> {
    let mut file = open(rt, index)?;
    let got = transfer::read_full(&mut file, bytes);
    let mut one = [0u8; 1];
    let rest = read_once(&mut file, &mut one)?;
    Ok(Loaded {
        bytes: got,
        more: rest > 0,
    })
}

// Writes bytes to their end.
pub(crate) fn write<W: Write>(to: &mut W, bytes: &[u8]) -> Result<(), FileFault> {
    to.write_all(bytes).map_err(|_| FileFault::Unwritten)
}

// Whether what was written to a file has arrived. Closing a file says nothing here, so the system is asked before; what cannot be asked, as a pipe, has.
fn arrived<F: OpenFile>(file: &F) -> bool {
    match file.sync_all() {
        Ok(()) => true,
        Err(error) => matches!(
            error.kind(),
            ErrorKind::InvalidInput | ErrorKind::Unsupported | ErrorKind::ReadOnlyFilesystem
        ),
    }
}

// Writes the file of this name, as `put` does, and closes it.
pub(crate) fn put_file<R: Env + Files, P: FnOnce(&mut R::File) -> Result<(), FileFault>>(
    rt: &R,
    index: Option<usize>,
    put: P,
) -> Result<(), FileFault>
    requires { P.IsAlwaysCallable put }
{
    let mut file = create(rt, index)?;
    put(&mut file)?;
    if arrived(&file) {
        Ok(())
    } else {
        Err(FileFault::Unwritten)
    }
}
