// What goes to standard output.
use crate::start::Program;
use crate::status::Status;
use crate::write::write_whole;

impl Program<'_> {
    // Bytes with the status that they give where they are written whole; else a message says why they are not.
    pub fn put<S: Into<Status>>(self, bytes: &[u8], status: S) -> Status {
        let whole = status.into();
        match write_whole(&mut self.rt.stdout(), bytes) {
            Ok(()) => whole,
            Err(error) => self.say_error(b"standard output", error),
        }
    }

    // An answer of several parts: whether this one is written whole, so that the next may be.
    pub fn put_part(self, bytes: &[u8]) -> bool {
        self.put(bytes, Status::Answered) == Status::Answered
    }

    pub fn put_answer(self, answer: &[u8]) -> Status {
        self.put(answer, Status::of(answer))
    }

    // The line in the place of an answer, behind the message that says why, with that message's status. An empty output
    // would be a plan of no operations; no program takes this line for a text.
    pub fn put_no_answer<S: Into<Status>>(self, said: S) -> Status {
        self.put(b"error\n", said)
    }
}
