// An operand opened and read in parts.
ghost use Rattle.std.specs.Io.{ReadsAtMost};
ghost use Rattle.program_io.specs.Moves.{PartOf};

use crate::arguments::Operand;
use crate::errors::{EFBIG, EILSEQ, EINTR, ENAMETOOLONG};
use std::fs::File;
use std::io::{Error, ErrorKind, Read, Result, Stdin};
use std::rt::Env;

// Interruptions that the reading of a part or the writing of an answer goes on after. Each loop has to end, so that one
// more counts as a failure; no signal comes nearly as often.
pub const MAX_INTERRUPTIONS: u64 = 1_000_000;

// Parts that an input may have. Each loop has to end; as a part has a byte at least, no input has as many.
pub const MAX_PARTS: u64 = u64::MAX;

// The error of an input that has more parts.
pub fn too_many_parts() -> Error {
    Error::from_raw_os_error(EFBIG)
}

// What an operand is read from.
#[derive(Drop)]
pub enum Source {
    StandardInput(Stdin),
    OpenFile(File),
}

// The file of a path. The library opens a path of UTF-8 alone.
fn open_path(rt: &HostRuntime, path: &[u8]) -> Result<Source> {
    let Ok(text) = std::str::from_utf8(path) else {
        return Err(Error::from_raw_os_error(EILSEQ));
    };
    Ok(Source::OpenFile(File::open(rt, text)?))
}

// The file that argument i names.
fn open_file(rt: &HostRuntime, i: usize) -> Result<Source> {
    let mut path = io::buffer();
    let Ok(n) = rt.arg(i, &mut path) else {
        return Err(Error::from_raw_os_error(ENAMETOOLONG));
    };
    open_path(rt, &path[..n])
}

pub fn open(rt: &HostRuntime, operand: Operand) -> Result<Source> {
    match operand {
        Operand::StandardInput => Ok(Source::StandardInput(rt.stdin())),
        Operand::Argument(i) => open_file(rt, i),
    }
}

impl Source {
    // One call that reads.
    fn read(&mut self, buffer: &mut [u8]) -> Result<usize>
        ensures { ReadsAtMost result buffer.new }
    {
        match self {
            Source::StandardInput(stdin) => stdin.read(buffer),
            Source::OpenFile(file) => file.read(buffer),
        }
    }

    // The next bytes, as many as one call brings, on after an interruption: their count, or None at the input's end. For an empty buffer
    // it is the end.
    pub fn read_part(&mut self, buffer: &mut [u8]) -> Result<Option<usize>>
        ensures { PartOf result buffer.new }
    {
        for _ in 0..=MAX_INTERRUPTIONS {
            match self.read(buffer) {
                Ok(0) => return Ok(None),
                Ok(n) => return Ok(Some(n)),
                Err(error) => {
                    if error.kind() != ErrorKind::Interrupted {
                        return Err(error);
                    }
                }
            }
        }
        Err(Error::from_raw_os_error(EINTR))
    }
}
