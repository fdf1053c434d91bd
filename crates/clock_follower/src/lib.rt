// The controller followed over the clocks of a line: the counts that may refuse it, and the bytes that it adds to the plan's
// text. Clocks that leave the state as it is are taken at once.
#![tactic(auto)]

ghost use Rattle.std.specs.Prelude.{◌≡◌, true, false, map, option_map, ◌+◌, ◌≤◌, ◌<◌, length};
ghost use Rattle.model.specs.Limits.{max_operations, max_plan_bytes};
ghost use Rattle.model.specs.Tap.{state_at};
ghost use Rattle.recover_model.specs.ClockText.{max_line_bytes};
ghost use Rattle.recover_model.specs.RecoverCalls.{added_text};
ghost use Rattle.plan_text.specs.Writing.{write_at};
ghost use Rattle.clock_writer.specs.Machine.{state_code, is_one, next_number};
ghost use Rattle.clock_follower.specs.Counts.{progress_for, moved_on, offending, unless_offending, counts_by, CountsNothing};
ghost use Rattle.clock_follower.specs.Stretches.{EndsStretch, clocks_text, entry_text, stretch_text, clocks_from, AreBits, Wrote, StandsBefore, Played};

use clock_writer::{State, next_state};
use model::limits::{MAX_OPERATIONS, MAX_PLAN_BYTES};
use plan_text::put;
use text_runs::zeros::zeros_end;

// What is kept between two lines: the lines so far, the controller's state, the entries to Capture-DR, and the plan's bytes, 5 for each
// entry and 1 for each bit.
#[derive(Clone, Copy)]
pub struct Progress {
    pub lines: usize,
    pub state: State,
    pub entries: usize,
    pub bytes: usize,
}

// The controller's state, and the place behind the plan's text.
#[derive(Clone, Copy)]
pub struct Pen {
    pub state: State,
    pub at: usize,
}

// Whether TMS 0 leaves a state as it is, of those that are met: Run-Test/Idle, Shift-DR and Pause-DR.
fn waits(state: State) -> bool
    ensures { result ≡ true → next_number (state_code state) false ≡ state_code state }
{
    matches!(state, State::RunTestIdle | State::ShiftDR | State::PauseDR)
}

// The place behind a stretch, clocks of which all but the last leave the state: in a state that waits the zeros and the clock behind
// them, else one clock.
fn stretch_end(state: State, tms: &[u8], at: usize) -> usize
    requires { at < length tms.now }
    ensures { EndsStretch (state_code state) tms.now at result }
{
    if waits(state) {
        (zeros_end(tms, at) + 1).min(tms.len())
    } else {
        at + 1
    }
}

// After so many clocks in its state, the last of which leads to the next one.
fn moved(p: Progress, count: usize, next: State) -> Progress
    requires { (p.entries ≤ max_operations) × (p.bytes ≤ max_plan_bytes) × (count ≤ max_line_bytes) }
    ensures { progress_for result ≡ moved_on (progress_for p) count (state_code next) }
{
    let bits = if p.state == State::ShiftDR { count } else { 0 };
    let entry = usize::from(next == State::CaptureDR);
    Progress {
        state: next,
        entries: p.entries + entry,
        bytes: p.bytes + (5 * entry + bits),
        ..p
    }
}

// Entry to Select-IR, a seventeenth entry to Capture-DR, or too many bytes.
fn offends(p: Progress) -> bool
    ensures { result ≡ offending (progress_for p) }
{
    p.state == State::SelectIR || MAX_OPERATIONS < p.entries || MAX_PLAN_BYTES < p.bytes
}

// Whether a stretch from a state to another can change the counts or offend: it has bits, or leads to Capture-DR or Select-IR.
fn is_counted(state: State, next: State) -> bool
    ensures { result ≡ false → CountsNothing (state_code state) (state_code next) }
{
    state == State::ShiftDR || matches!(next, State::CaptureDR | State::SelectIR)
}

// After a stretch, or none where it is refused. Most stretches only change the state.
fn passed(p: Progress, count: usize, next: State) -> Option<Progress>
    requires { (p.entries ≤ max_operations) × (p.bytes ≤ max_plan_bytes) × (count ≤ max_line_bytes) }
    ensures { option_map progress_for result ≡ unless_offending (moved_on (progress_for p) count (state_code next)) }
{
    if !is_counted(p.state, next) {
        return Some(Progress { state: next, ..p });
    }
    let q = moved(p, count, next);
    if offends(q) { None } else { Some(q) }
}

// Over the clocks of these TMS bytes; none where they are refused.
pub fn follow(p: Progress, tms: &[u8]) -> Option<Progress>
    requires { (p.entries ≤ max_operations) × (p.bytes ≤ max_plan_bytes) × (length tms.now ≤ max_line_bytes) }
    ensures { option_map progress_for result ≡ counts_by (progress_for p) (map is_one tms.now) }
{
    let mut now = p;
    let mut i: usize = 0;
    // A while, as the step varies.
    while i < tms.len() {
        let end = stretch_end(now.state, tms, i);
        let next = next_state(now.state, tms[end - 1]);
        now = passed(now, end - i, next)?;
        i = end;
    }
    Some(now)
}

// What clocks with these TDI bits add in their state, from a place on: the bits in Shift-DR, the line's end in Update-DR; the place
// behind it.
#[tactic(auto, using(crate::proofs::Stretches::writing_nothing))]
fn put_clocks(plan: &mut [u8], at: usize, state: State, bits: &[u8]) -> usize
    requires { at + length (clocks_text (state_code state) bits.now) ≤ length plan.old }
    ensures value { result ≡ at + length (clocks_text (state_code state) bits.now) }
    ensures plan_after { plan.new ≡ write_at at (clocks_text (state_code state) bits.now) plan.old }
{
    match state {
        State::ShiftDR => put(plan, at, bits),
        State::UpdateDR => put(plan, at, b"\n"),
        _ => at,
    }
}

// What an entry to a state adds, from a place on: `csu` and its tab for Capture-DR; the place behind it.
#[tactic(auto, using(crate::proofs::Stretches::writing_nothing))]
fn put_entry(plan: &mut [u8], at: usize, next: State) -> usize
    requires { at + length (entry_text (state_code next)) ≤ length plan.old }
    ensures value { result ≡ at + length (entry_text (state_code next)) }
    ensures plan_after { plan.new ≡ write_at at (entry_text (state_code next)) plan.old }
{
    match next {
        State::CaptureDR => put(plan, at, b"csu\t"),
        _ => at,
    }
}

// What a stretch adds, from a place on; the place behind it.
#[tactic(auto, using(crate::proofs::Stretches::writing_both))]
fn put_stretch(plan: &mut [u8], at: usize, state: State, bits: &[u8], next: State) -> usize
    requires { at + length (stretch_text (state_code state) bits.now (state_code next)) ≤ length plan.old }
    ensures value { result ≡ at + length (stretch_text (state_code state) bits.now (state_code next)) }
    ensures plan_after { plan.new ≡ write_at at (stretch_text (state_code state) bits.now (state_code next)) plan.old }
{
    let behind = put_clocks(plan, at, state, bits);
    put_entry(plan, behind, next)
}

// What the clocks of these TMS and TDI bytes add to the plan's text.
pub fn write(pen: Pen, tms: &[u8], tdi: &[u8], plan: &mut [u8]) -> Pen
    requires clocks { (length tdi.now ≡ length tms.now) × AreBits tdi.now }
    requires room { pen.at + length (added_text (state_at (state_code pen.state)) (clocks_from tms.now tdi.now)) ≤ length plan.old }
    ensures { Wrote (state_code pen.state) pen.at tms.now tdi.now plan.old (state_code result.state) result.at plan.new }
{
    let mut state = pen.state;
    let mut at = pen.at;
    let mut i: usize = 0;
    // A while, as the step varies.
    while i < tms.len() {
        let end = stretch_end(state, tms, i);
        let next = next_state(state, tms[end - 1]);
        at = put_stretch(plan, at, state, &tdi[i..end], next);
        state = next;
        i = end;
    }
    Pen { state, at }
}

// Both at once, into a buffer with room for every plan, which is free where the clocks are refused: each stretch is counted before
// it is written, and what stands in the buffer is never more than what is counted.
pub fn play(p: Progress, place: usize, tms: &[u8], tdi: &[u8], plan: &mut [u8]) -> Option<Progress>
    requires limits { (p.entries ≤ max_operations) × (p.bytes ≤ max_plan_bytes) × (length tms.now ≤ max_line_bytes) }
    requires clocks_and_room { (length tdi.now ≡ length tms.now) × AreBits tdi.now × StandsBefore place (state_code p.state) p.bytes × (max_plan_bytes ≤ length plan.old) }
    ensures { Played (progress_for p) place tms.now tdi.now plan.old (option_map progress_for result) plan.new }
{
    let mut now = p;
    let mut at = place;
    let mut i: usize = 0;
    // A while, as the step varies.
    while i < tms.len() {
        let from = now.state;
        let end = stretch_end(from, tms, i);
        let next = next_state(from, tms[end - 1]);
        now = passed(now, end - i, next)?;
        at = put_stretch(plan, at, from, &tdi[i..end], next);
        i = end;
    }
    Some(now)
}
