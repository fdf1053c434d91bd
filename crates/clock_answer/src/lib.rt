// The clock program's lines.
#![tactic(auto)]

ghost use Rattle.std.specs.Prelude.{[], ◌∷◌, ◌+◌, ◌*◌, ◌≤◌, length};
ghost use Rattle.io.specs.Counts.{IsPrefixLen};
ghost use Rattle.model.specs.Printed.{line, clock_program};
ghost use Rattle.plan_text.specs.Form.{HasForm};
ghost use Rattle.clock_writer.specs.Clocks.{tms_bytes, tdi_bytes};
ghost use Rattle.program_lines.specs.Puts.{Puts};
ghost use Rattle.program_text.specs.Printing.{PrintedTo};

use clock_writer::{write_tdi, write_tms};
use model::limits::{MAX_OPERATIONS, MAX_PLAN_BYTES};
use plan_text::{bits_at, check_form, put};
use program_lines::put_refusal;

// Room for the lines of the longest plan. The plan's line of n bits has n + 5 bytes, and so have its TMS and its TDI;
// `clk`, two tabs and the line's end are 6 more: 2 * 64,080 + 6 * 16 = 128,256 bytes. The line of a refusal is shorter.
pub const ROOM: usize = 2 * MAX_PLAN_BYTES + 6 * MAX_OPERATIONS;

// The line of an operation, whose bits are given as `0` and `1`, from a place on; the place behind it.
fn put_operation(out: &mut [u8], at: usize, bits: &[u8]) -> usize
    requires { at + (16 + 2 * length bits.now) ≤ length out.old }
    ensures { Puts at (line "clk" (tms_bytes (length bits.now) ∷ tdi_bytes bits.now ∷ [])) out.old result out.new }
{
    let tms = put(out, at, b"clk\t");
    let tms_end = write_tms(out, tms, bits.len());
    let tdi = put(out, tms_end, b"\t");
    let tdi_end = write_tdi(out, tdi, bits);
    put(out, tdi_end, b"\n")
}

// The lines of a plan text of good form, at the front of a buffer; their length.
fn put_operations(plan: &[u8], out: &mut [u8]) -> usize
    requires has_form { HasForm plan.now }
    requires room { 2 * length plan.now + 96 ≤ length out.old }
    ensures { Puts 0 (clock_program plan.now) out.old result out.new }
{
    let mut next: usize = 0;
    let mut at: usize = 0;
    // A while, as the step varies.
    while at < plan.len() {
        let bits = bits_at(plan, at);
        next = put_operation(out, next, bits);
        at += 5 + bits.len();
    }
    next
}

// What the clock program prints for a plan text, at the front of a buffer; its length.
pub fn print_clocks(plan: &[u8], out: &mut [u8; ROOM]) -> usize
    ensures printed_to { PrintedTo (clock_program plan.now) out.old result out.new }
    ensures prefix_len { IsPrefixLen result out.new }
{
    match check_form(plan) {
        Ok(_) => put_operations(plan, out),
        Err(refusal) => put_refusal(out, refusal.kind.number(), refusal.place),
    }
}
