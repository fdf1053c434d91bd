// A text that comes in parts: the lines that have ended are followed, the rest is kept at the front of the caller's buffer.
ghost use Rattle.std.specs.Prelude.{◌≡◌, ◌≤◌, length};
ghost use Rattle.model.specs.Answers.{answer};
ghost use Rattle.model.specs.Limits.{max_plan_bytes};
ghost use Rattle.recover_model.specs.RecoverCalls.{unless_long};
ghost use Rattle.recover_line.specs.Progress.{progress_from};
ghost use Rattle.recoverer.specs.Parts.{answer_numbered, FollowedPart, DidPart, ListedAfter};

use crate::lines::{Lines, recover_lines};
use model::refusal::Refusal;
use recover_line::{Progress, check_line};
use recover_model::MAX_LINE_BYTES;

// A refusal by its number and place, which may be any: it is handed on as it is.
#[derive(Clone, Copy, PartialEq, Eq)]
pub struct Refused {
    pub number: usize,
    pub place: usize,
}

impl From<Refusal> for Refused {
    ghost use Rattle.std.specs.Prelude.{◌≡◌};
    ghost use Rattle.model.specs.Answers.{number_of};

    ghost from_gives = { λ r e. e ≡ record { number = number_of r.kind; place = r.place } };

    fn from(refusal: Refusal) -> Refused {
        Refused {
            number: refusal.kind.number(),
            place: refusal.place,
        }
    }
}

// The answer so far, and how many bytes are held.
#[derive(Drop)]
pub struct Recovery {
    pub answer: Result<Progress, Refused>,
    pub held: usize,
}

// A rest that is too long for a line is refused before its end comes.
fn unless_long(p: Progress, rest: &[u8]) -> Result<Progress, Refusal>
    ensures { answer progress_from result ≡ unless_long rest.now (progress_from p) }
{
    if rest.len() < MAX_LINE_BYTES {
        return Ok(p);
    }
    check_line(p, rest)
}

// The lines that have ended, and where the rest starts.
fn follow_part(
    so_far: Result<Progress, Refused>,
    text: &[u8],
    plan: &mut [u8],
) -> Result<Lines, Refused>
    requires { max_plan_bytes ≤ length plan.old }
    ensures { FollowedPart (answer_numbered progress_from so_far) text.now plan.old result plan.new }
{
    let lines = recover_lines(so_far?, text, plan)?;
    let progress = unless_long(lines.progress, &text[lines.at..])?;
    Ok(Lines { progress, ..lines })
}

// The next part of a text, behind the bytes held so far: what is held of it then stands at the front. The plan buffer has room for
// every plan, and is free after a refusal.
pub fn recover_part(so_far: Result<Progress, Refused>, text: &mut [u8], plan: &mut [u8]) -> Recovery
    requires { max_plan_bytes ≤ length plan.old }
    ensures did { DidPart (answer_numbered progress_from so_far) text.old plan.old (answer_numbered progress_from result.answer) result.held text.new plan.new }
    ensures listed { ListedAfter (answer_numbered progress_from so_far) (answer_numbered progress_from result.answer) }
{
    match follow_part(so_far, text, plan) {
        Ok(lines) => {
            text.copy_within(lines.at.., 0);
            Recovery {
                answer: Ok(lines.progress),
                held: text.len() - lines.at,
            }
        }
        Err(refused) => Recovery {
            answer: Err(refused),
            held: 0,
        },
    }
}
