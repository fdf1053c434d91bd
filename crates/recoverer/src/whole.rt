// A whole text in memory: its lines are written into a buffer of ours, so that a refusal leaves the lent one as it was.
ghost use Rattle.std.specs.Prelude.{◌≡◌, ◌≤◌, length};
ghost use Rattle.model.specs.Answers.{count_of};
ghost use Rattle.model.specs.Limits.{max_plan_bytes};
ghost use Rattle.recover_model.specs.RecoverCalls.{recover_text};
ghost use Rattle.recoverer.specs.Whole.{StandsIn};

use crate::lines::recover_lines;
use model::limits::MAX_PLAN_BYTES;
use model::refusal::{Kind, Refusal};
use plan_text::put;
use recover_line::{at_first, recover_end};

// The calls in turn, into a buffer with room for every plan: the plan's bytes.
fn recover_in_turn(text: &[u8], own: &mut [u8]) -> Result<usize, Refusal>
    requires { max_plan_bytes ≤ length own.old }
    ensures { StandsIn text.now (count_of result) own.new }
{
    let lines = recover_lines(at_first(), text, own)?;
    recover_end(lines.progress, &text[lines.at..])
}

// The call for a whole text: the plan's bytes, at the front of the buffer.
pub fn recover_text(text: &[u8], plan: &mut [u8]) -> Result<usize, Refusal>
    ensures result_value { count_of result ≡ (recover_text text.now plan.old).result }
    ensures plan_after { plan.new ≡ (recover_text text.now plan.old).plan }
{
    let mut own = [0u8; MAX_PLAN_BYTES];
    let count = recover_in_turn(text, &mut own)?;
    if plan.len() < count {
        return Err(Kind::Buffer.at(count));
    }
    put(plan, 0, &own[..count]);
    Ok(count)
}
