// plan [NETWORK]: the plan text, nothing for a plan of no operations, or `fail` with number and place.
#![tactic(auto)]

use model::limits::MAX_NETWORK_BYTES;
use plan_answer::{ROOM, print_plan};
use program_io::start::begin;

const USAGE: &[u8] = b"usage: plan [NETWORK]\n\
    NETWORK is the file of a network text, - or nothing for standard input.\n\
    Prints the plan text, or fail, number, place.\n";

fn main(rt: HostRuntime) {
    let Some(call) = begin(&rt, b"plan", USAGE, 0, 1) else {
        return;
    };
    let mut text = [0u8; MAX_NETWORK_BYTES + 1];
    let Some(n) = call.read_text(call.first, &mut text) else {
        return;
    };
    let mut out = [0u8; ROOM];
    let end = print_plan(&text[..n], &mut out);
    call.answer(&out[..end]);
}
