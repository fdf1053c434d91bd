// Clocks back into a plan: the call for a line and the one for the end of the text, which a caller makes in turn.
#![tactic(auto)]

ghost use Rattle.std.specs.Prelude.{◌≡◌, cond, option_map, ◌≤◌};
ghost use Rattle.model.specs.Answers.{answer, count_of};
ghost use Rattle.recover_model.specs.RecoverCalls.{at_first, under_way, can_go_on, bytes_written, step_line, recover_line, recover_end};
ghost use Rattle.clock_follower.specs.Counts.{progress_for};
ghost use Rattle.recover_line.specs.Answers.{progress_after};
ghost use Rattle.recover_line.specs.Progress.{progress_from, if_state};

pub mod step;

use clock_writer::State;
use model::refusal::{Kind, Refusal};

// What a caller keeps between two calls, as four numbers: the lines so far, the controller's state by its number, the entries to
// Capture-DR, and the plan's bytes. They may be any: what no call leaves is refused.
#[derive(Clone, Copy)]
pub struct Progress {
    pub lines: usize,
    pub state: u8,
    pub entries: usize,
    pub bytes: usize,
}

// With the controller's state, as the steps take it; none where no state has this number.
pub fn known(p: Progress) -> Option<clock_follower::Progress>
    ensures { option_map progress_for result ≡ if_state (progress_from p) }
{
    let state = State::from_number(usize::from(p.state))?;
    Some(clock_follower::Progress {
        lines: p.lines,
        state,
        entries: p.entries,
        bytes: p.bytes,
    })
}

// As four numbers.
pub fn numbers_of(q: clock_follower::Progress) -> Progress
    ensures { progress_from result ≡ progress_for q }
{
    Progress {
        lines: q.lines,
        state: q.state as u8,
        entries: q.entries,
        bytes: q.bytes,
    }
}

// Before the first line.
pub fn at_first() -> Progress
    ensures { progress_from result ≡ at_first }
{
    Progress {
        lines: 0,
        state: State::RunTestIdle as u8,
        entries: 0,
        bytes: 0,
    }
}

// Whether a line can follow: what no call leaves is refused.
pub fn can_go_on(p: Progress) -> bool
    ensures { result ≡ can_go_on (progress_from p) }
{
    match known(p) {
        Some(q) => step::can_go_on(q),
        None => false,
    }
}

// The plan's bytes that stand in the buffer.
pub fn bytes_written(p: Progress) -> usize
    requires { cond (under_way p.state) 1 0 ≤ p.bytes }
    ensures { result ≡ bytes_written (progress_from p) }
{
    match known(p) {
        Some(q) => step::bytes_written(q),
        None => p.bytes,
    }
}

// Where a line leads; nothing is written.
pub fn check_line(p: Progress, line: &[u8]) -> Result<Progress, Refusal>
    ensures { answer progress_from result ≡ progress_after (step_line (progress_from p) line.now) }
{
    let from = known(p).ok_or(Kind::ClockLine.at(p.lines))?;
    let q = step::check_line(from, line)?;
    Ok(numbers_of(q))
}

// The call for a line, without its byte 10. A refusal leaves the plan as it was.
pub fn recover_line(p: Progress, line: &[u8], plan: &mut [u8]) -> Result<Progress, Refusal>
    ensures result_value { answer progress_from result ≡ (recover_line (progress_from p) line.now plan.old).result }
    ensures plan_after { plan.new ≡ (recover_line (progress_from p) line.now plan.old).plan }
{
    let from = known(p).ok_or(Kind::ClockLine.at(p.lines))?;
    let q = step::recover_line(from, line, plan)?;
    Ok(numbers_of(q))
}

// The call for the end of the text, with the bytes behind its last byte 10.
pub fn recover_end(p: Progress, rest: &[u8]) -> Result<usize, Refusal>
    ensures { count_of result ≡ recover_end (progress_from p) rest.now }
{
    let from = known(p).ok_or(Kind::ClockLine.at(p.lines))?;
    step::recover_end(from, rest)
}
