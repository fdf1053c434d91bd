// The test access port (TAP): the controller's table, the clock machine and the clock writer.
#![tactic(auto)]

ghost use Rattle.std.specs.Prelude.{◌≡◌, cond, option_map, ◌+◌, ◌≤◌, length, ltb};
ghost use Rattle.model.specs.Calls.{clocks_of, row_of, written};
ghost use Rattle.plan_text.specs.Form.{HasForm};
ghost use Rattle.plan_text.specs.Writing.{write_at};
ghost use Rattle.clock_writer.specs.Machine.{state_code, is_one, next_number, RunReturned};
ghost use Rattle.clock_writer.specs.Clocks.{tms_bytes, tdi_bytes, WroteClocks};

use model::refusal::{Kind, Refusal};
use plan_text::check_form;

// The controller's states, by their numbers.
#[derive(Clone, Copy, PartialEq, Eq)]
pub enum State {
    TestLogicReset,
    RunTestIdle,
    SelectDR,
    CaptureDR,
    ShiftDR,
    Exit1DR,
    PauseDR,
    Exit2DR,
    UpdateDR,
    SelectIR,
    CaptureIR,
    ShiftIR,
    Exit1IR,
    PauseIR,
    Exit2IR,
    UpdateIR,
}

// All of them, in the order of their numbers.
pub const STATES: [State; 16] = [
    State::TestLogicReset,
    State::RunTestIdle,
    State::SelectDR,
    State::CaptureDR,
    State::ShiftDR,
    State::Exit1DR,
    State::PauseDR,
    State::Exit2DR,
    State::UpdateDR,
    State::SelectIR,
    State::CaptureIR,
    State::ShiftIR,
    State::Exit1IR,
    State::PauseIR,
    State::Exit2IR,
    State::UpdateIR,
];

// The next state for TMS 0 and for TMS 1 of each state.
const NEXT: [[State; 2]; 16] = [
    [State::RunTestIdle, State::TestLogicReset],
    [State::RunTestIdle, State::SelectDR],
    [State::CaptureDR, State::SelectIR],
    [State::ShiftDR, State::Exit1DR],
    [State::ShiftDR, State::Exit1DR],
    [State::PauseDR, State::UpdateDR],
    [State::PauseDR, State::Exit2DR],
    [State::ShiftDR, State::UpdateDR],
    [State::RunTestIdle, State::SelectDR],
    [State::CaptureIR, State::TestLogicReset],
    [State::ShiftIR, State::Exit1IR],
    [State::ShiftIR, State::Exit1IR],
    [State::PauseIR, State::UpdateIR],
    [State::PauseIR, State::Exit2IR],
    [State::ShiftIR, State::UpdateIR],
    [State::RunTestIdle, State::SelectDR],
];

impl State {
    // The state's number, 0 to 15.
    pub fn number(self) -> usize
        ensures { result ≡ state_code self }
    {
        self as usize
    }

    // The state of a number.
    pub fn from_number(number: usize) -> Option<State>
        ensures { option_map state_code result ≡ cond (ltb number 16) (Some number) None }
    {
        STATES.get(number).copied()
    }
}

// The state after one clock.
pub fn next_state(state: State, tms: u8) -> State
    ensures { state_code result ≡ next_number (state_code state) (is_one tms) }
{
    NEXT[state as usize][usize::from(tms == b'1')]
}

// The clock machine: the state after the clocks of these TMS bytes.
pub fn run(state: State, tms: &[u8]) -> State
    ensures { RunReturned (state_code state) tms.now (state_code result) }
{
    let mut now = state;
    for &byte in tms {
        now = next_state(now, byte);
    }
    now
}

// The TMS of an operation of n bits, written from a place on; the place behind it.
pub fn write_tms(tms: &mut [u8], at: usize, n: usize) -> usize
    requires { at + (5 + n) ≤ length tms.old }
    ensures value { result ≡ at + (5 + n) }
    ensures tms_after { tms.new ≡ write_at at (tms_bytes n) tms.old }
{
    if n == 0 {
        return plan_text::put(tms, at, b"10110");
    }
    let shift = plan_text::put(tms, at, b"100");
    let last = plan_text::put_repeated(tms, shift, b'0', n - 1);
    plan_text::put(tms, last, b"110")
}

// The TDI of an operation, written from a place on: its bits while shifting, else 0; the place behind it.
pub fn write_tdi(tdi: &mut [u8], at: usize, bits: &[u8]) -> usize
    requires { at + (5 + length bits.now) ≤ length tdi.old }
    ensures value { result ≡ at + (5 + length bits.now) }
    ensures tdi_after { tdi.new ≡ write_at at (tdi_bytes bits.now) tdi.old }
{
    let shift = plan_text::put(tdi, at, b"000");
    let exit = plan_text::put(tdi, shift, bits);
    plan_text::put(tdi, exit, b"00")
}

// The clocks of a plan text of good form, written to buffers with room for them. A line and its clocks take as many
// bytes, so that they start at the same place.
fn write_lines(plan: &[u8], tms: &mut [u8], tdi: &mut [u8])
    requires has_form { HasForm plan.now }
    requires room { (length plan.now ≤ length tms.old) × (length plan.now ≤ length tdi.old) }
    ensures tms_after { tms.new ≡ written (row_of (λ c. c.tms) (clocks_of plan.now)) tms.old }
    ensures tdi_after { tdi.new ≡ written (row_of (λ c. c.tdi) (clocks_of plan.now)) tdi.old }
{
    let mut at: usize = 0;
    // A while, as the step varies.
    while at < plan.len() {
        let bits = plan_text::bits_at(plan, at);
        write_tms(tms, at, bits.len());
        at = write_tdi(tdi, at, bits);
    }
}

// The clock writer: the count of clocks written.
pub fn write_clocks(plan: &[u8], tms: &mut [u8], tdi: &mut [u8]) -> Result<usize, Refusal>
    ensures { WroteClocks plan.now tms.old tdi.old result tms.new tdi.new }
{
    check_form(plan)?;
    let n = plan.len();
    if tms.len() < n || tdi.len() < n {
        return Err(Kind::Buffer.at(n));
    }
    write_lines(plan, tms, tdi);
    Ok(n)
}
