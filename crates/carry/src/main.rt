// carry NETWORK PLAN: after a pass one `hold` line for each segment, with the bits that the plan left, or `fail` with number and
// place.
#![tactic(auto)]

use carry_answer::{ROOM, print_carry};
use model::limits::{MAX_NETWORK_BYTES, MAX_PLAN_BYTES};
use program_io::start::begin;

const USAGE: &[u8] = b"usage: carry NETWORK PLAN\n\
    NETWORK is the file of a network text, PLAN that of a plan text; - for one of them is standard input.\n\
    Prints, after a pass, hold for each segment with the bits that the plan left, or the mark's fail, number, place.\n";

fn main(rt: HostRuntime) {
    let Some(call) = begin(&rt, b"carry", USAGE, 2, 2) else {
        return;
    };
    let mut network = [0u8; MAX_NETWORK_BYTES + 1];
    let Some(n) = call.read_text(call.first, &mut network) else {
        return;
    };
    let mut plan = [0u8; MAX_PLAN_BYTES + 1];
    let Some(p) = call.read_text(call.second, &mut plan) else {
        return;
    };
    let mut out = [0u8; ROOM];
    let end = print_carry(&network[..n], &plan[..p], &mut out);
    call.answer(&out[..end]);
}
