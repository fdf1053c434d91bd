// Bytes written whole. Every write of a program is made here, but for the first try of a status.
use crate::stream::MAX_INTERRUPTIONS;
use std::io::{Error, ErrorKind, Result, Write};

// Writes on after a short write and after an interruption, and stops at the first failure. No bytes take no call.
pub fn write_whole<W: Write>(to: &mut W, bytes: &[u8]) -> Result<()> {
    let mut done: usize = 0;
    let mut interruptions = MAX_INTERRUPTIONS;
    while done < bytes.len() {
        match to.write(&bytes[done..]) {
            Ok(0) => return Err(Error::from(ErrorKind::WriteZero)),
            Ok(n) => done += n,
            Err(error) => {
                if error.kind() != ErrorKind::Interrupted || interruptions == 0 {
                    return Err(error);
                }
                interruptions -= 1;
            }
        }
    }
    Ok(())
}
