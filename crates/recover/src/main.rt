// recover [CLOCKS]: the plan that `clk` lines play, or `fail` with number and line. The text may be of any length: it is read in
// parts, and no more is kept than the plan, where the controller stands, and the line that is not ended yet.
#![tactic(auto)]

ghost use Rattle.std.specs.Prelude.{IfOk};
ghost use Rattle.io.specs.Counts.{IsPrefixLen};

use model::limits::MAX_PLAN_BYTES;
use program_io::start::{Call, begin};
use program_io::stream::{MAX_PARTS, Source, open, too_many_parts};
use recover_answer::print_recovery;
use recover_line::at_first;
use recover_model::MAX_LINE_BYTES;
use recoverer::part::recover_part;
use std::io::Result;

const USAGE: &[u8] = b"usage: recover [CLOCKS]\n\
    CLOCKS is the file of clk lines, of any number, - or nothing for standard input.\n\
    Prints csu with the bits of each operation that they play, or fail, number, place.\n";

// A line that is not ended is shorter than the longest one, so that there is always room for one more.
const ROOM: usize = 2 * MAX_LINE_BYTES;

// Reads to the input's end, after a refusal too: an input that can't be read to its end is not answered for. The length of what is
// printed, at the front of a buffer.
fn read_clocks(source: &mut Source, plan: &mut [u8; MAX_PLAN_BYTES]) -> Result<usize>
    ensures { IfOk result (λ n. IsPrefixLen n plan.new) }
{
    let mut text = [0u8; ROOM];
    let mut answer = Ok(at_first());
    let mut held: usize = 0;
    for _ in 0..MAX_PARTS {
        let Some(n) = source.read_part(&mut text[held..])? else {
            return Ok(print_recovery(answer, &text[..held], plan));
        };
        let end = held + n;
        let recovery = recover_part(answer, &mut text[..end], plan);
        answer = recovery.answer;
        held = recovery.held;
    }
    Err(too_many_parts())
}

// The same for the operand that a call names.
fn read_operand(call: Call<'_>, plan: &mut [u8; MAX_PLAN_BYTES]) -> Result<usize>
    ensures { IfOk result (λ n. IsPrefixLen n plan.new) }
{
    let mut source = open(call.program.rt, call.first)?;
    read_clocks(&mut source, plan)
}

fn main(rt: HostRuntime) {
    let Some(call) = begin(&rt, b"recover", USAGE, 0, 1) else {
        return;
    };
    let mut plan = [0u8; MAX_PLAN_BYTES];
    match read_operand(call, &mut plan) {
        Ok(n) => call.answer(&plan[..n]),
        Err(error) => call.give_up(call.first, error),
    }
}
