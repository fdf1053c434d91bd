// clock [PLAN]: `clk` with TMS and TDI for each operation, or `fail` with number and place.
#![tactic(auto)]

use clock_answer::{ROOM, print_clocks};
use model::limits::MAX_PLAN_BYTES;
use program_io::start::begin;

const USAGE: &[u8] = b"usage: clock [PLAN]\n\
    PLAN is the file of a plan text, - or nothing for standard input.\n\
    Prints clk with the TMS and TDI bits of each operation, or fail, number, place.\n";

fn main(rt: HostRuntime) {
    let Some(call) = begin(&rt, b"clock", USAGE, 0, 1) else {
        return;
    };
    let mut text = [0u8; MAX_PLAN_BYTES + 1];
    let Some(n) = call.read_text(call.first, &mut text) else {
        return;
    };
    let mut out = [0u8; ROOM];
    let end = print_clocks(&text[..n], &mut out);
    call.answer(&out[..end]);
}
