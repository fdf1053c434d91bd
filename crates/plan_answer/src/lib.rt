// The plan program's lines.
#![tactic(auto)]

ghost use Rattle.io.specs.Counts.{IsPrefixLen};
ghost use Rattle.model.specs.Printed.{plan_program};
ghost use Rattle.program_text.specs.Printing.{PrintedTo};

use model::limits::{MAX_PLAN_BYTES, SEARCH_SIZE};
use planner::make_plan;
use program_lines::put_refusal;

// Room for the longest plan text. The line of a refusal is shorter.
pub const ROOM: usize = MAX_PLAN_BYTES;

// What the plan program prints for a network text, at the front of a buffer; its length.
pub fn print_plan(network: &[u8], out: &mut [u8; ROOM]) -> usize
    ensures printed_to { PrintedTo (plan_program network.now) out.old result out.new }
    ensures prefix_len { IsPrefixLen result out.new }
{
    let mut search = [0u16; SEARCH_SIZE];
    match make_plan(network, &mut search, out) {
        Ok(n) => n,
        Err(refusal) => put_refusal(out, refusal.kind.number(), refusal.place),
    }
}
