// controller_table: the controller's table as the code has it, a line for each of the sixteen states:
// `state`, its number, the next state's number for TMS 0 and the one for TMS 1.
#![tactic(auto)]

ghost use Rattle.std.specs.Prelude.{◌+◌, ◌≤◌, length};
ghost use Rattle.io.specs.Counts.{IsPrefixLen};

use clock_writer::{STATES, State, next_state};
use program_io::start::begin;
use program_lines::put_line;

const USAGE: &[u8] = b"usage: controller_table\n\
    Prints state with its number and the next states for TMS 0 and TMS 1, for each state.\n";

// Room for sixteen lines of `state` and three fields, each a tab and at most 20 digits: 16 * (5 + 3 * 21 + 1) bytes.
const ROOM: usize = 1104;

fn put_state(out: &mut [u8], at: usize, state: State) -> usize
    requires { at + 69 ≤ length out.old }
    ensures { result ≤ at + 69 }
{
    let numbers = [state, next_state(state, b'0'), next_state(state, b'1')].map(State::number);
    put_line(out, at, b"state", &numbers)
}

fn put_states(out: &mut [u8]) -> usize
    requires { 1104 ≤ length out.old }
    ensures { IsPrefixLen result out.new }
{
    let mut end: usize = 0;
    for state in STATES {
        end = put_state(out, end, state);
    }
    end
}

fn main(rt: HostRuntime) {
    let Some(call) = begin(&rt, b"controller_table", USAGE, 0, 0) else {
        return;
    };
    let mut out = [0u8; ROOM];
    let n = put_states(&mut out);
    call.answer(&out[..n]);
}
