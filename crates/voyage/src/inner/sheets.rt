// The sheet of a file: its front is kept, and all of its bytes are judged as they are read past.
ghost use Rattle.std.specs.Prelude.{◌≡◌, ◌≤◌, length};
ghost use Rattle.bounded.specs.Laid.{Front};
ghost use Rattle.voyage.specs.Kept.{Holds, Led, Next};

use crate::inner::files;
use bounded::inner::memory;
use command::sentences::FileFault;
use scan::inner::{Scan, bad, formed, past, start};
use std::io::Read;
use std::rt::{Env, Files};
use transfer::{Buffer, front, room};

// How many bytes are kept, and whether all of them are a sheet.
#[derive(Clone, Copy)]
pub(crate) struct Kept {
    pub(crate) bytes: usize,
    pub(crate) formed: bool,
}

// Whether bytes that are held whole are a sheet.
pub(crate) fn whole(sheet: &[u8]) -> bool
    ensures { length sheet.now ≤ 90273 → Front sheet.now result }
{
    formed(past(start(), sheet))
}

// Where some bytes more of a file lead, or none at its end.
fn piece<F: Read>(file: &mut F, state: Scan) -> Result<Option<Scan>, FileFault>
    ensures { Next state result }
{
    let mut bytes: Buffer = room(0);
    let n = files::read_once(file, &mut bytes)?;
    if n == 0 {
        return Ok(None);
    }
    Ok(Some(past(state, &bytes[..n])))
}

// Where the rest of a file leads, up to its end or a piece after which its bytes are known to be no sheet.
// A proved loop has to end, and nothing says that a file does: the turns are as many as no file uses up.
fn rest<F: Read>(file: &mut F, state: Scan) -> Result<Scan, FileFault>
    ensures { Led state result }
{
    let mut reached = state;
    for _ in 0..u64::MAX {
        let Some(next) = piece(file, reached)? else {
            return Ok(reached);
        };
        reached = next;
        if bad(reached) {
            return Ok(reached);
        }
    }
    Ok(reached)
}

// A file that fills the memory: what is over is read past and judged too.
fn longer<F: Read>(file: &mut F, memory: &memory::Sheet) -> Result<Kept, FileFault>
    ensures { Holds result memory.now }
{
    let reached = rest(file, past(start(), memory))?;
    Ok(Kept {
        bytes: memory.len(),
        formed: formed(reached),
    })
}

// That a file which gave no more bytes came to its end. A read that failed gave none either, and fails again.
fn ended<F: Read>(file: &mut F) -> Result<(), FileFault> {
    let mut one = [0u8; 1];
    if files::read_once(file, &mut one)? == 0 {
        Ok(())
    } else {
        Err(FileFault::Unusable)
    }
}

// An open file, read to its end.
fn read<F: Read>(file: &mut F, memory: &mut memory::Sheet) -> Result<Kept, FileFault>
    ensures { Holds result memory.new }
{
    let n = transfer::read_full(file, memory);
    if n == memory.len() {
        return longer(file, memory);
    }
    ended(file)?;
    Ok(Kept {
        bytes: n,
        formed: whole(front(memory, n)),
    })
}

// The file of this name.
pub(crate) fn load<R: Env + Files>(
    rt: &R,
    index: Option<usize>,
    memory: &mut memory::Sheet,
) -> Result<Kept, FileFault>
    ensures { Holds result memory.new }
{
    let mut file = files::open(rt, index)?;
    read(&mut file, memory)
}
