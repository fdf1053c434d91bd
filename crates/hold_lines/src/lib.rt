// The `hold` lines of a configuration: their length, then the lines in number order, one for each segment.
#![tactic(auto)]

ghost use Rattle.std.specs.Prelude.{◌≡◌, map, reverse, ◌+◌, ◌<◌, ◌≤◌, length};
ghost use Rattle.model.specs.Limits.{max_nodes};
ghost use Rattle.model.specs.Network.{is_segment};
ghost use Rattle.model.specs.Printed.{number};
ghost use Rattle.carry_model.specs.Carry.{trit_byte, hold_line};
ghost use Rattle.network_words.specs.Words.{word_width, trit_at, trits_of};
ghost use Rattle.network_path.specs.Layout.{node_at};
ghost use Rattle.plan_text.specs.Writing.{write_at};
ghost use Rattle.program_lines.specs.Puts.{Puts};
ghost use Rattle.hold_lines.specs.Lines.{line_at, LineLength, text_at, TextLength, InWords, Configured, GivesText};

use model::refusal::{Kind, Refusal};
use network_path::layout::{KIND, Nodes, Words, field, segment_len};
use network_words::{Word, bit_at};
use plan_text::{put, put_repeated};
use program_lines::{digit_count, put_number};

// The byte of bit b of a segment, by its two words.
fn byte_at(bits: Word, known: Word, b: usize) -> u8
    requires { b < word_width }
    ensures { result ≡ trit_byte (trit_at bits known b) }
{
    if bit_at(known, b) == 0 {
        return b'X';
    }
    if bit_at(bits, b) == 1 {
        return b'1';
    }
    b'0'
}

// The bytes of a segment's len bits from the highest bit down, from a place on; the place behind them.
fn put_bits(out: &mut [u8], at: usize, bits: Word, known: Word, len: usize) -> usize
    requires { (len ≤ word_width) × (at + len ≤ length out.old) }
    ensures puts { Puts at (map trit_byte (reverse (trits_of len bits known))) out.old result out.new }
    ensures value { result ≡ at + len }
{
    let mut next = at;
    for b in (0..len).rev() {
        out[next] = byte_at(bits, known, b);
        next += 1;
    }
    next
}

// The same; where no bit is known, one byte is repeated.
fn put_trits(out: &mut [u8], at: usize, bits: Word, known: Word, len: usize) -> usize
    requires { (len ≤ word_width) × (at + len ≤ length out.old) }
    ensures puts { Puts at (map trit_byte (reverse (trits_of len bits known))) out.old result out.new }
    ensures value { result ≡ at + len }
{
    if known == 0 {
        return put_repeated(out, at, b'X', len);
    }
    put_bits(out, at, bits, known, len)
}

// The line of segment s.
fn put_line(out: &mut [u8], at: usize, s: usize, bits: Word, known: Word, len: usize) -> usize
    requires { (len ≤ word_width) × (at + (7 + length (number s) + len) ≤ length out.old) }
    ensures { Puts at (hold_line s (trits_of len bits known)) out.old result out.new }
{
    let number = put(out, at, b"hold\t");
    let number_end = put_number(out, number, s);
    let start = put(out, number_end, b"\t");
    let end = put_trits(out, start, bits, known, len);
    put(out, end, b"\n")
}

// Whether node s is a segment.
fn is_segment(nodes: &Nodes, s: usize) -> bool
    requires { s ≤ max_nodes }
    ensures { result ≡ is_segment (node_at nodes.now s) }
{
    field(nodes, s, KIND) < 2
}

// The line of node s if it is a segment; the place behind it.
fn put_node<'a>(
    nodes: &'a Nodes,
    bits: &'a Words,
    known: &'a Words,
    s: usize,
    out: &mut [u8],
    at: usize,
) -> usize
    requires configured { Configured nodes.now bits.now known.now s × (1 ≤ s) }
    requires s_in_bounds { at + length (line_at nodes.now bits.now known.now s) ≤ length out.old }
    ensures { Puts at (line_at nodes.now bits.now known.now s) out.old result out.new }
{
    if is_segment(nodes, s) {
        return put_line(out, at, s, bits[s], known[s], segment_len(nodes, s));
    }
    at
}

// The bytes of the line of node s; none for a multiplexer.
fn line_bytes(nodes: &Nodes, s: usize) -> usize
    requires { InWords nodes.now s × (1 ≤ s) }
    ensures line_length { LineLength nodes.now s result }
    ensures upper_bound { result ≤ 27 + word_width }
{
    if is_segment(nodes, s) {
        return 7 + digit_count(s) + segment_len(nodes, s);
    }
    0
}

// The bytes of the lines of nodes 1 to count.
fn text_length(nodes: &Nodes, count: usize) -> usize
    requires { InWords nodes.now count }
    ensures { TextLength nodes.now count result }
{
    let mut sum: usize = 0;
    for s in 1..=count {
        sum += line_bytes(nodes, s);
    }
    sum
}

// The lines of nodes 1 to count, at the front of a buffer with room for them.
fn put_text<'a>(nodes: &'a Nodes, bits: &'a Words, known: &'a Words, count: usize, out: &mut [u8])
    requires configured { Configured nodes.now bits.now known.now count }
    requires count_in_bounds { length (text_at nodes.now bits.now known.now count) ≤ length out.old }
    ensures { out.new ≡ write_at 0 (text_at nodes.now bits.now known.now count) out.old }
{
    let mut at: usize = 0;
    for s in 1..=count {
        at = put_node(nodes, bits, known, s, out, at);
    }
}

// The lines at the front of a buffer: 13 where it has no room for them.
pub fn write_holds<'a>(
    nodes: &'a Nodes,
    bits: &'a Words,
    known: &'a Words,
    count: usize,
    out: &mut [u8],
) -> Result<usize, Refusal>
    requires { Configured nodes.now bits.now known.now count }
    ensures { GivesText (text_at nodes.now bits.now known.now count) out.old result out.new }
{
    let needed = text_length(nodes, count);
    if out.len() < needed {
        return Err(Kind::Buffer.at(needed));
    }
    put_text(nodes, bits, known, count, out);
    Ok(needed)
}
