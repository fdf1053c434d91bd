// Plan texts: their form, the line finder, and writing into a buffer.
#![tactic(auto)]

ghost use Rattle.std.specs.Prelude.{◌≡◌, map, ◌+◌, ◌≤◌, length, drop, replicate};
ghost use Rattle.model.specs.Tap.{bit_byte};
ghost use Rattle.model.specs.Answers.{count_of};
ghost use Rattle.plan_text.specs.Form.{plan_form};
ghost use Rattle.plan_text.specs.Lines.{bit_run, next_from};
ghost use Rattle.plan_text.specs.Writing.{write_at};

use model::limits::{MAX_OPERATIONS, MAX_PLAN_BYTES};
use model::refusal::{Kind, Refusal};

// The place of the first byte at or behind a place that is neither `0` nor `1`, or the length where there is none.
pub fn bits_end(s: &[u8], at: usize) -> usize
    requires { at ≤ length s.now }
    ensures { result ≡ at + length (bit_run (drop at s.now)) }
{
    text_runs::run_end(s, at, b'1')
}

// The place behind the line that starts at a place, if that has good form.
fn line_at(plan: &[u8], at: usize) -> Option<usize>
    requires { at ≤ length plan.now }
    ensures { result ≡ next_from plan.now at }
{
    if !plan[at..].starts_with(b"csu\t") {
        return None;
    }
    let bits = at + 4;
    let end = bits_end(plan, bits);
    if end == plan.len() {
        return None; // unended
    }
    if plan[end] != b'\n' {
        return None;
    }
    Some(end + 1)
}

// The form of a plan text, line by line: the count of its lines, or refusal 14 with its place.
pub fn check_form(plan: &[u8]) -> Result<usize, Refusal>
    ensures { count_of result ≡ plan_form plan.now }
{
    if MAX_PLAN_BYTES < plan.len() {
        return Err(Kind::PlanForm.at(0));
    }
    let mut at: usize = 0;
    let mut n: usize = 0;
    // A while, as the lines have different lengths.
    while at < plan.len() {
        let refusal = Kind::PlanForm.at(n + 1);
        if n == MAX_OPERATIONS {
            return Err(refusal);
        }
        at = line_at(plan, at).ok_or(refusal)?;
        n += 1;
    }
    Ok(n)
}

// The line finder: the bits of the line that starts at a place, as a part of the plan text.
pub fn bits_at(plan: &[u8], at: usize) -> &[u8]
    requires { at + 4 ≤ length plan.now }
    ensures { result.now ≡ map bit_byte (bit_run (drop (at + 4) plan.now)) }
{
    let end = bits_end(plan, at + 4);
    let start = at + 4;
    &plan[start..end]
}

// Bytes written into a buffer from a place on; the place behind them. A loop, as a copy by the library wants `memmove` of whoever links
// the calls under C names.
pub fn put(buf: &mut [u8], at: usize, new: &[u8]) -> usize
    requires { at + length new.now ≤ length buf.old }
    ensures value { result ≡ at + length new.now }
    ensures buf_after { buf.new ≡ write_at at new.now buf.old }
{
    for i in 0..new.len() {
        buf[at + i] = new[i];
    }
    at + new.len()
}

// A byte written n times from a place on; the place behind them.
#[tactic(auto, unfolding(crate::specs::Writing::write_at))]
pub fn put_repeated(buf: &mut [u8], at: usize, byte: u8, n: usize) -> usize
    requires { at + n ≤ length buf.old }
    ensures value { result ≡ at + n }
    ensures buf_after { buf.new ≡ write_at at (replicate n byte) buf.old }
{
    let end = at + n;
    buf[at..end].fill(byte);
    end
}
