// Texts read into a lent buffer.
ghost use Rattle.std.specs.Prelude.{IfOk, IfSome};
ghost use Rattle.io.specs.Counts.{IsPrefixLen};

use crate::arguments::Operand;
use crate::start::Call;
use crate::stream::{Source, open};
use std::io::Result;

// Reads until the buffer is full or the input ends; the count of bytes at the front of the buffer.
fn read_all(source: &mut Source, text: &mut [u8]) -> Result<usize>
    ensures { IfOk result (λ n. IsPrefixLen n text.new) }
{
    let mut done: usize = 0;
    while done < text.len() {
        match source.read_part(&mut text[done..])? {
            Some(n) => done += n,
            None => break,
        }
    }
    Ok(done)
}

impl Call<'_> {
    // The text of an operand, at the front of a buffer; its count of bytes. Where it can't be read to its end, everything is said and
    // reported. A buffer of one byte more than a text may have lets a longer one reach the call that refuses it.
    pub fn read_text(self, operand: Operand, text: &mut [u8]) -> Option<usize>
        ensures { IfSome result (λ n. IsPrefixLen n text.new) }
    {
        match self.read_operand(operand, text) {
            Ok(n) => Some(n),
            Err(error) => {
                self.give_up(operand, error);
                None
            }
        }
    }

    fn read_operand(self, operand: Operand, text: &mut [u8]) -> Result<usize>
        ensures { IfOk result (λ n. IsPrefixLen n text.new) }
    {
        let mut source = open(self.program.rt, operand)?;
        read_all(&mut source, text)
    }
}
