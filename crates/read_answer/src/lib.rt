// The read program's line.
#![tactic(auto)]

ghost use Rattle.std.specs.Prelude.{[], ◌∷◌, ◌≤◌, length};
ghost use Rattle.io.specs.Counts.{IsPrefixLen};
ghost use Rattle.model.specs.Printed.{number, line, read_program};
ghost use Rattle.program_lines.specs.Puts.{Puts};
ghost use Rattle.program_text.specs.Printing.{PrintedTo};

use network_reader::reader::read_network;
use program_lines::{put_line, put_refusal};

// Room for `ok` and four fields, each a tab and at most 20 digits, and the line's end: 2 + 4 * 21 + 1 = 87 bytes.
pub const ROOM: usize = 128;

// `ok` with the counts of nodes, segment bits, distinct steering bits and bits of the start's path.
fn put_counts(out: &mut [u8], nodes: usize, bits: usize, steering: usize, path: usize) -> usize
    requires { 87 ≤ length out.old }
    ensures { Puts 0 (line "ok" (number nodes ∷ number bits ∷ number steering ∷ number path ∷ [])) out.old result out.new }
{
    let numbers = [nodes, bits, steering, path];
    put_line(out, 0, b"ok", &numbers)
}

// What the read program prints for a network text, at the front of a buffer; its length.
pub fn print_reading(text: &[u8], out: &mut [u8; ROOM]) -> usize
    ensures printed_to { PrintedTo (read_program text.now) out.old result out.new }
    ensures prefix_len { IsPrefixLen result out.new }
{
    match read_network(text) {
        Ok(network) => put_counts(
            out,
            network.summary.count,
            network.summary.total,
            network.steering_count,
            network.start_length,
        ),
        Err(refusal) => put_refusal(out, refusal.kind.number(), refusal.place),
    }
}
