// The recover program's answer, where the plan stands already.
#![tactic(auto)]

ghost use Rattle.std.specs.Prelude.{◌≡◌};
ghost use Rattle.io.specs.Counts.{IsPrefixLen};
ghost use Rattle.recover_line.specs.Progress.{progress_from};
ghost use Rattle.recoverer.specs.Parts.{answer_numbered};
ghost use Rattle.program_text.specs.Printing.{PrintedTo};
ghost use Rattle.recover_answer.specs.Recovery.{recovery_shown, end_count};

use model::limits::MAX_PLAN_BYTES;
use program_lines::put_refusal;
use recover_line::{Progress, recover_end};
use recoverer::part::Refused;

// The plan's bytes at the end of a text, by the answer so far and the rest that is held.
fn plan_bytes(so_far: Result<Progress, Refused>, rest: &[u8]) -> Result<usize, Refused>
    ensures { answer_numbered (λ n. n) result ≡ end_count (answer_numbered progress_from so_far) rest.now }
{
    Ok(recover_end(so_far?, rest)?)
}

// What the recover program prints at the end of a text, by the answer so far, the rest that is held and the plan buffer, at the
// front of that buffer; its length.
pub fn print_recovery(
    so_far: Result<Progress, Refused>,
    rest: &[u8],
    plan: &mut [u8; MAX_PLAN_BYTES],
) -> usize
    ensures printed_to { PrintedTo (recovery_shown (answer_numbered progress_from so_far) rest.now plan.old) plan.old result plan.new }
    ensures prefix_len { IsPrefixLen result plan.new }
{
    match plan_bytes(so_far, rest) {
        Ok(count) => count,
        Err(refused) => put_refusal(plan, refused.number, refused.place),
    }
}
