// read [NETWORK]: `ok` with the counts of nodes, segment bits, distinct steering bits and the start path's bits, or
// `fail` with number and place.
#![tactic(auto)]

use model::limits::MAX_NETWORK_BYTES;
use program_io::start::begin;
use read_answer::{ROOM, print_reading};

const USAGE: &[u8] = b"usage: read [NETWORK]\n\
    NETWORK is the file of a network text, - or nothing for standard input.\n\
    Prints ok with the counts of nodes, segment bits, steering bits and path bits, or fail, number, place.\n";

fn main(rt: HostRuntime) {
    let Some(call) = begin(&rt, b"read", USAGE, 0, 1) else {
        return;
    };
    let mut text = [0u8; MAX_NETWORK_BYTES + 1];
    let Some(n) = call.read_text(call.first, &mut text) else {
        return;
    };
    let mut out = [0u8; ROOM];
    let end = print_reading(&text[..n], &mut out);
    call.answer(&out[..end]);
}
