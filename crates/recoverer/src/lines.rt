// The lines that end in a text, one behind the other, into a buffer with room for every plan. It is free after a refusal, so that a line
// is followed once: counted and written at the same time.
ghost use Rattle.std.specs.Prelude.{◌≡◌, option_map, None, List, ℕ, ◌≤◌, length};
ghost use Rattle.model.specs.Limits.{max_plan_bytes};
ghost use Rattle.recover_model.specs.ClockText.{clk_line};
ghost use Rattle.clock_follower.specs.Counts.{progress_for};
ghost use Rattle.recover_line.specs.Progress.{progress_from, if_state};
ghost use Rattle.recoverer.specs.Parts.{PlayedLine, DidLines};

use clock_follower::play;
use clock_line::{find_line, tdi_of, tms_of};
use model::refusal::{Kind, Refusal};
use recover_line::step::{bytes_written, can_go_on};
use recover_line::{Progress, known, numbers_of};
use text::end_of;

// A line with so many clocks, none where it has not the form of a `clk` line.
fn play_line(
    p: clock_follower::Progress,
    line: &[u8],
    clocks: Option<usize>,
    plan: &mut [u8],
) -> Result<clock_follower::Progress, Refusal>
    requires { (clocks ≡ option_map length (clk_line line.now)) × (max_plan_bytes ≤ length plan.old) }
    ensures { PlayedLine (progress_for p) line.now plan.old result plan.new }
{
    if !can_go_on(p) {
        return Err(Kind::ClockLine.at(p.lines));
    }
    let place = p.lines + 1;
    let refusal = Kind::ClockLine.at(place);
    let n = clocks.ok_or(refusal)?;
    let at = bytes_written(p);
    let q = play(p, at, tms_of(line, n), tdi_of(line, n), plan).ok_or(refusal)?;
    Ok(clock_follower::Progress { lines: place, ..q })
}

// The progress after the lines that have ended, and where the rest starts.
#[derive(Clone, Copy)]
pub struct Lines {
    pub progress: Progress,
    pub at: usize,
}

// Where the state is none: the first line that has ended is refused.
fn refuse_line(p: Progress, text: &[u8]) -> Result<Lines, Refusal>
    requires { None ≡ if_state (progress_from p) }
    ensures { (plan : List ℕ) → DidLines (progress_from p) text.now plan result plan }
{
    if end_of(text, 0, b'\n') < text.len() {
        return Err(Kind::ClockLine.at(p.lines));
    }
    Ok(Lines { progress: p, at: 0 })
}

// The lines that have ended in turn, up to a refusal.
pub fn recover_lines(first: Progress, text: &[u8], plan: &mut [u8]) -> Result<Lines, Refusal>
    requires { max_plan_bytes ≤ length plan.old }
    ensures { DidLines (progress_from first) text.now plan.old result plan.new }
{
    let Some(from) = known(first) else {
        return refuse_line(first, text);
    };
    let mut progress = from;
    let mut at: usize = 0;
    let mut guess: usize = 0;
    while at < text.len() {
        let found = find_line(text, at, guess);
        let end = found.end;
        if end == text.len() {
            break;
        }
        progress = play_line(progress, &text[at..end], found.clocks, plan)?;
        guess = end - at;
        at = end + 1;
    }
    Ok(Lines {
        progress: numbers_of(progress),
        at,
    })
}
