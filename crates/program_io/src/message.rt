// Messages on standard error: a line each, which begins with the program's name. A line is put together first and
// written at once, so that the lines of two programs do not mix.
use crate::arguments::Operand;
use crate::errors::Words;
use crate::line::Line;
use crate::start::Program;
use crate::status::Status;
use crate::write::write_whole;
use std::fmt::Write;
use std::io::Error;
use std::rt::Env;

impl Program<'_> {
    // A line that begins with the program's name.
    fn line(self) -> Line {
        let mut line = Line::new();
        line.add(self.name);
        line.add(b": ");
        line
    }

    // Argument i between quotes. Of one that is too long there are the first bytes.
    fn add_argument(self, line: &mut Line, i: usize) {
        let mut argument = io::buffer();
        line.add(b"'");
        match self.rt.arg(i, &mut argument) {
            Ok(n) => line.add(&argument[..n]),
            Err(_) => {
                line.add(&argument);
                line.add(b"...");
            }
        }
        line.add(b"'");
    }

    // A message that can't be written leaves nothing to say it with: there is no answer either way.
    fn send(self, mut line: Line) -> Status {
        match write_whole(&mut self.rt.stderr(), line.ended()) {
            Ok(()) => Status::NoAnswer,
            Err(_) => Status::NoAnswer,
        }
    }

    // A line with an error's words behind it. A line takes what fits and has no errors of its own.
    fn send_error(self, mut line: Line, error: Error) -> Status {
        match write!(line, ": {}", Words(error)) {
            Ok(()) => self.send(line),
            Err(_) => self.send(line),
        }
    }

    // What is wrong.
    pub fn say(self, what: &[u8]) -> Status {
        let mut line = self.line();
        line.add(what);
        self.send(line)
    }

    // What is wrong with argument i.
    pub fn say_argument(self, i: usize, what: &[u8]) -> Status {
        let mut line = self.line();
        self.add_argument(&mut line, i);
        line.add(what);
        self.send(line)
    }

    // The error of a call on a descriptor that is named.
    pub fn say_error(self, what: &[u8], error: Error) -> Status {
        let mut line = self.line();
        line.add(what);
        self.send_error(line, error)
    }

    // The error of reading an operand.
    pub fn say_unread(self, operand: Operand, error: Error) -> Status {
        match operand {
            Operand::StandardInput => self.say_error(b"standard input", error),
            Operand::Argument(i) => {
                let mut line = self.line();
                self.add_argument(&mut line, i);
                self.send_error(line, error)
            }
        }
    }
}
