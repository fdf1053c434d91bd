// The system's errors in words. The numbers are Linux's, on x86-64 and aarch64.
use std::fmt;
use std::io::{Error, ErrorKind};

pub const EPERM: i32 = 1;

pub const ENOENT: i32 = 2;

pub const EINTR: i32 = 4;

pub const EIO: i32 = 5;

pub const EBADF: i32 = 9;

pub const EAGAIN: i32 = 11;

pub const ENOMEM: i32 = 12;

pub const EACCES: i32 = 13;

pub const ENOTDIR: i32 = 20;

pub const EISDIR: i32 = 21;

pub const EINVAL: i32 = 22;

pub const EMFILE: i32 = 24;

pub const EFBIG: i32 = 27;

pub const ENOSPC: i32 = 28;

pub const EPIPE: i32 = 32;

pub const ENAMETOOLONG: i32 = 36;

pub const ELOOP: i32 = 40;

pub const EILSEQ: i32 = 84;

// A write that took nothing sets no number, and has the words of the number 0.
const NOTHING_TAKEN: &str = "nothing was taken";

// An error as messages show it. A number below 0 is shown as 0.
#[derive(Clone, Copy)]
pub struct Words(pub Error);

impl fmt::Display for Words {
    fn fmt<W: fmt::Write>(&self, f: &mut fmt::Formatter<W>) -> fmt::Result {
        match self.0.raw_os_error() {
            Some(number) => match words_of(number) {
                Some(words) => f.write_str(words),
                None => write!(f, "error {}", number.max(0)),
            },
            None => f.write_str(own_words(self.0.kind())),
        }
    }
}

// The library's own errors: a write that took nothing, and others that no program meets, as that for a path with a byte 0.
fn own_words(kind: ErrorKind) -> &'static str {
    match kind {
        ErrorKind::WriteZero => NOTHING_TAKEN,
        _ => "Input/output error",
    }
}

// The words for a number of the system's; None for one that has none here.
fn words_of(number: i32) -> Option<&'static str> {
    match number {
        0 => Some(NOTHING_TAKEN),
        EPERM => Some("Operation not permitted"),
        ENOENT => Some("No such file or directory"),
        EINTR => Some("Interrupted system call"),
        EIO => Some("Input/output error"),
        EBADF => Some("Bad file descriptor"),
        EAGAIN => Some("Resource temporarily unavailable"),
        ENOMEM => Some("Cannot allocate memory"),
        EACCES => Some("Permission denied"),
        ENOTDIR => Some("Not a directory"),
        EISDIR => Some("Is a directory"),
        EINVAL => Some("Invalid argument"),
        EMFILE => Some("Too many open files"),
        EFBIG => Some("File too large"),
        ENOSPC => Some("No space left on device"),
        EPIPE => Some("Broken pipe"),
        ENAMETOOLONG => Some("File name too long"),
        ELOOP => Some("Too many levels of symbolic links"),
        EILSEQ => Some("Invalid or incomplete multibyte or wide character"),
        _ => None,
    }
}
