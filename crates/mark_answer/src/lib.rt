// The mark program's lines.
#![tactic(auto)]

ghost use Rattle.std.specs.Prelude.{[], ◌∷◌, map, ◌+◌, ◌≤◌, length};
ghost use Rattle.model.specs.Printed.{number, line, got_lines, mark_program};
ghost use Rattle.program_lines.specs.Puts.{Puts};
ghost use Rattle.marker_targets.specs.Answers.{got_of};
ghost use Rattle.program_text.specs.Printing.{PrintedTo};
ghost use Rattle.io.specs.Counts.{IsPrefixLen};

use marker::mark;
use marker_targets::Got;
use program_lines::{put_line, put_refusal};

// Room for `pass` with two fields and four times `got` with three, each field a tab and at most 20 digits:
// (4 + 2 * 21 + 1) + 4 * (3 + 3 * 21 + 1) = 315 bytes.
pub const ROOM: usize = 512;

fn put_pass(out: &mut [u8], operations: usize, clocks: usize) -> usize
    requires { 47 ≤ length out.old }
    ensures puts { Puts 0 (line "pass" (number operations ∷ number clocks ∷ [])) out.old result out.new }
    ensures upper_bound { result ≤ 47 }
{
    put_line(out, 0, b"pass", &[operations, clocks])
}

fn put_got(out: &mut [u8], at: usize, row: Got) -> usize
    requires { at + 67 ≤ length out.old }
    ensures puts { Puts at (line "got" (number row.target ∷ number row.operation ∷ number row.place ∷ [])) out.old result out.new }
    ensures upper_bound { result ≤ at + 67 }
{
    put_line(out, at, b"got", &[row.target, row.operation, row.place])
}

// A line for each row.
fn put_gots(out: &mut [u8], at: usize, rows: &[Got]) -> usize
    requires { (length rows.now ≤ 4) × (at + 268 ≤ length out.old) }
    ensures { Puts at (got_lines (map got_of rows.now)) out.old result out.new }
{
    let mut next = at;
    for row in rows {
        next = put_got(out, next, *row);
    }
    next
}

// What the mark program prints for a network text and a plan text, at the front of a buffer; its length.
pub fn print_mark(network: &[u8], plan: &[u8], out: &mut [u8; ROOM]) -> usize
    ensures printed_to { PrintedTo (mark_program network.now plan.now) out.old result out.new }
    ensures prefix_len { IsPrefixLen result out.new }
{
    match mark(network, plan) {
        Ok(pass) => {
            let next = put_pass(out, pass.operations, pass.clocks);
            put_gots(out, next, &pass.gots.rows[..pass.gots.count])
        }
        Err(refusal) => put_refusal(out, refusal.kind.number(), refusal.place),
    }
}
