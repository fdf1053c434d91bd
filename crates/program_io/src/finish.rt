// The end of a program, with its status on descriptor 3 where it is asked to report one.
use crate::arguments::Operand;
use crate::errors::{EBADF, EPIPE};
use crate::start::Call;
use crate::status::Status;
use crate::write::write_whole;
use std::fs::{OpenOptions, metadata, symlink_metadata};
use std::io::{Error, Result};
use std::os::unix::fs::FileTypeExt;

const STATUS_FILENO: i32 = 3;

// The name of the same descriptor.
const STATUS_PATH: &str = "/proc/self/fd/3";

// How often the status is tried to write to a pipe or a socket.
const STATUS_TRIES: usize = 1_000;

// Whether the descriptor is open for writing, which its name tells.
fn takes_status(rt: &HostRuntime) -> bool {
    match symlink_metadata(rt, STATUS_PATH) {
        Ok(link) => !link.permissions().readonly(),
        Err(_) => false,
    }
}

// By the descriptor's name.
fn write_by_name(rt: &HostRuntime, digit: &[u8; 1]) -> Result<()> {
    let mut file = OpenOptions::new().append(true).open(rt, STATUS_PATH)?;
    write_whole(&mut file, digit)
}

// Whether the descriptor is a pipe or a socket. Opened by its name it would be another one, at which a program could wait for ever.
fn is_stream(rt: &HostRuntime) -> bool {
    match metadata(rt, STATUS_PATH) {
        Ok(it) => {
            let kind = it.file_type();
            kind.is_fifo() || kind.is_socket()
        }
        Err(_) => false,
    }
}

// By the descriptor's number once more, as a try may only have been interrupted.
fn write_again(digit: &[u8; 1]) -> Result<()> {
    for _ in 0..STATUS_TRIES {
        if io::write_all(STATUS_FILENO, digit) {
            return Ok(());
        }
    }
    Err(Error::from_raw_os_error(EPIPE))
}

// By the descriptor's number. Where that fails it tells no errno, so the status is written by name, or again where it goes to a pipe
// or a socket.
fn write_digit(rt: &HostRuntime, digit: &[u8; 1]) -> Result<()> {
    if io::write_all(STATUS_FILENO, digit) {
        return Ok(());
    }
    if !takes_status(rt) {
        return Err(Error::from_raw_os_error(EBADF));
    }
    if is_stream(rt) {
        return write_again(digit);
    }
    write_by_name(rt, digit)
}

impl Call<'_> {
    // Nothing follows: a status that can't be written is told by a message alone.
    pub fn finish<S: Into<Status>>(self, status: S) {
        let digit = status.into().digit();
        if self.reports {
            if let Err(error) = write_digit(self.program.rt, &digit) {
                self.program.say_error(b"descriptor 3", error);
            }
        }
    }

    // With an answer.
    pub fn answer(self, answer: &[u8]) {
        self.finish(self.program.put_answer(answer));
    }

    // Without one, as an operand can't be read.
    pub fn give_up(self, operand: Operand, error: Error) {
        let said = self.program.say_unread(operand, error);
        self.finish(self.program.put_no_answer(said));
    }
}
