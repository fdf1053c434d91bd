// Clocks back into a plan, under C names. A progress is four numbers: the lines so far, the controller's state by number, the entries
// to Capture-DR and the plan's bytes; before the first line 0, 1, 0, 0.
ghost use Rattle.std.specs.Prelude.{◌≡◌};
ghost use Rattle.recover_model.specs.RecoverCalls.{recover_text, recover_line, recover_end};
ghost use Rattle.recover_line.specs.Progress.{progress_from};
ghost use Rattle.c_api.specs.Numbers.{count_numbers};
ghost use Rattle.c_api.specs.Progress.{progress_in, progress_numbers, Alike, state_in};

use crate::numbers::{count_numbers, progress_numbers};
use clock_writer::State;
use recover_line::{Progress, recover_end, recover_line};
use recoverer::whole::recover_text;

// A state by its number; one that there is not is taken for Test-Logic-Reset, which no call leaves either.
fn state_of(number: usize) -> u8
    ensures { result ≡ state_in number }
{
    State::from_number(number).unwrap_or(State::TestLogicReset) as u8
}

// The progress of four numbers, or one that is answered alike.
fn progress_of(numbers: &[usize; 4]) -> Progress
    ensures { Alike (progress_from result) (progress_in numbers.now) }
{
    Progress {
        lines: numbers[0],
        state: state_of(numbers[1]),
        entries: numbers[2],
        bytes: numbers[3],
    }
}

// Writes the plan that a text of clocks plays to the front of plan. answer takes 0 and the count of bytes, or a refusal's number and
// place.
#[unsafe(no_mangle)]
pub extern "C" fn penthluk_recover(text: &[u8], plan: &mut [u8], answer: &mut [usize; 2])
    ensures answer_after { answer.new ≡ count_numbers (recover_text text.now plan.old).result }
    ensures plan_after { plan.new ≡ (recover_text text.now plan.old).plan }
{
    *answer = count_numbers(recover_text(text, plan));
}

// One line, without its byte 10, from a progress on. answer takes 0 and the progress after it, or a refusal's number and place and
// three zeros.
#[unsafe(no_mangle)]
pub extern "C" fn penthluk_recover_line(
    progress: &[usize; 4],
    line: &[u8],
    plan: &mut [u8],
    answer: &mut [usize; 5],
)
    ensures answer_after { answer.new ≡ progress_numbers (recover_line (progress_in progress.now) line.now plan.old).result }
    ensures plan_after { plan.new ≡ (recover_line (progress_in progress.now) line.now plan.old).plan }
{
    *answer = progress_numbers(recover_line(progress_of(progress), line, plan));
}

// The end of the text, with the bytes behind its last byte 10. answer takes 0 and the plan's bytes, or a refusal's number and place.
#[unsafe(no_mangle)]
pub extern "C" fn penthluk_recover_end(progress: &[usize; 4], rest: &[u8], answer: &mut [usize; 2])
    ensures { answer.new ≡ count_numbers (recover_end (progress_in progress.now) rest.now) }
{
    *answer = count_numbers(recover_end(progress_of(progress), rest));
}
