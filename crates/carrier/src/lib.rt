// Carrying a setting into the next exercise: the `hold` lines of the configuration that a passed plan left.
#![tactic(auto)]

ghost use Rattle.carrier.specs.Call.{CarryReturned};

use hold_lines::write_holds;
use marker::mark_leaving;
use model::refusal::Refusal;

// The lines at the front of a buffer: the mark's refusals, then 13 where the buffer has no room for them.
pub fn carry(network: &[u8], plan: &[u8], holds: &mut [u8]) -> Result<usize, Refusal>
    ensures { CarryReturned network.now plan.now holds.old result holds.new }
{
    let left = mark_leaving(network, plan)?;
    write_holds(&left.nodes, &left.bits, &left.known, left.count, holds)
}
