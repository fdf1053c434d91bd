// The calls from a progress with the controller's state on: what a loop over lines takes, and the calls of lib.rt behind their numbers.
ghost use Rattle.std.specs.Prelude.{◌≡◌, cond, ◌&&◌, ◌≤◌, leb};
ghost use Rattle.model.specs.Answers.{answer, count_of};
ghost use Rattle.recover_model.specs.RecoverCalls.{under_way, can_go_on, bytes_written, step_line, recover_line, recover_end};
ghost use Rattle.clock_writer.specs.Machine.{state_code};
ghost use Rattle.clock_follower.specs.Counts.{progress_for};
ghost use Rattle.recover_line.specs.Answers.{progress_after, PutsLine, CanPut};

use clock_follower::{Pen, Progress, follow, write};
use clock_line::{count_clocks, tdi_of, tms_of};
use clock_writer::State;
use model::limits::{MAX_OPERATIONS, MAX_PLAN_BYTES};
use model::refusal::{Kind, Refusal};

// Whether a passage is under way, from the entry to Capture-DR up to the clock in Update-DR.
fn under_way(state: State) -> bool
    ensures { result ≡ under_way (state_code state) }
{
    matches!(
        state,
        State::CaptureDR
            | State::ShiftDR
            | State::Exit1DR
            | State::PauseDR
            | State::Exit2DR
            | State::UpdateDR
    )
}

// Whether a line can leave the controller in a state.
fn can_be_left(state: State) -> bool
    ensures { result ≡ (leb 1 (state_code state) && leb (state_code state) 8) }
{
    matches!(state, State::RunTestIdle | State::SelectDR) || under_way(state)
}

// Whether a line can follow: what no call leaves is refused.
pub fn can_go_on(p: Progress) -> bool
    ensures { result ≡ can_go_on (progress_for p) }
{
    p.lines < usize::MAX
        && can_be_left(p.state)
        && p.entries <= MAX_OPERATIONS
        && p.bytes <= MAX_PLAN_BYTES
        && !(under_way(p.state) && p.bytes == 0)
}

// The plan's bytes that stand in the buffer.
pub fn bytes_written(p: Progress) -> usize
    requires { cond (under_way (state_code p.state)) 1 0 ≤ p.bytes }
    ensures { result ≡ bytes_written (progress_for p) }
{
    p.bytes - usize::from(under_way(p.state))
}

// Where a line leads; nothing is written.
pub fn check_line(p: Progress, line: &[u8]) -> Result<Progress, Refusal>
    ensures { answer progress_for result ≡ progress_after (step_line (progress_for p) line.now) }
{
    if !can_go_on(p) {
        return Err(Kind::ClockLine.at(p.lines));
    }
    let place = p.lines + 1;
    let refusal = Kind::ClockLine.at(place);
    let clocks = count_clocks(line).ok_or(refusal)?;
    let q = follow(p, tms_of(line, clocks)).ok_or(refusal)?;
    Ok(Progress { lines: place, ..q })
}

// What a line of good form adds to the plan's text.
fn put_line(pen: Pen, line: &[u8], plan: &mut [u8]) -> Pen
    requires { CanPut (state_code pen.state) pen.at line.now plan.old }
    ensures { PutsLine (state_code pen.state) pen.at line.now plan.old (state_code result.state) result.at plan.new }
{
    let n = (line.len() - 5) / 2;
    write(pen, tms_of(line, n), tdi_of(line, n), plan)
}

// The call for a line, without its byte 10. It is followed before anything is written, so that a refusal leaves the plan as it was;
// a line that adds nothing to the plan is not looked at again.
pub fn recover_line(p: Progress, line: &[u8], plan: &mut [u8]) -> Result<Progress, Refusal>
    ensures result_value { answer progress_for result ≡ (recover_line (progress_for p) line.now plan.old).result }
    ensures plan_after { plan.new ≡ (recover_line (progress_for p) line.now plan.old).plan }
{
    let q = check_line(p, line)?;
    if plan.len() < q.bytes {
        return Err(Kind::Buffer.at(q.bytes));
    }
    let at = bytes_written(p);
    if at < bytes_written(q) {
        let pen = Pen { state: p.state, at };
        put_line(pen, line, plan);
    }
    Ok(q)
}

// The call for the end of the text, with the bytes behind its last byte 10.
#[tactic(auto, unfolding(recover_model::specs::RecoverCalls::recover_end))]
pub fn recover_end(p: Progress, rest: &[u8]) -> Result<usize, Refusal>
    ensures { count_of result ≡ recover_end (progress_for p) rest.now }
{
    if !can_go_on(p) {
        return Err(Kind::ClockLine.at(p.lines));
    }
    if !rest.is_empty() {
        return Err(Kind::ClockLine.at(p.lines + 1));
    }
    if p.state != State::RunTestIdle {
        return Err(Kind::ClockLine.at(p.lines));
    }
    Ok(p.bytes)
}
