// The carry program's lines.
#![tactic(auto)]

ghost use Rattle.carry_model.specs.Carry.{carry_program};
ghost use Rattle.io.specs.Counts.{IsPrefixLen};
ghost use Rattle.program_text.specs.Printing.{PrintedTo};

use carrier::carry;
use carry_model::MAX_HOLD_BYTES;
use program_lines::put_refusal;

// Room for the lines of every configuration. The line of a refusal is shorter.
pub const ROOM: usize = MAX_HOLD_BYTES;

// What the carry program prints for a network text and a plan text, at the front of a buffer; its length.
pub fn print_carry(network: &[u8], plan: &[u8], out: &mut [u8; ROOM]) -> usize
    ensures printed_to { PrintedTo (carry_program network.now plan.now) out.old result out.new }
    ensures prefix_len { IsPrefixLen result out.new }
{
    match carry(network, plan, out) {
        Ok(n) => n,
        Err(refusal) => put_refusal(out, refusal.kind.number(), refusal.place),
    }
}
