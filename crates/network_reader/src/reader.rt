// The reader: a network text to the record, or one refusal.
ghost use Rattle.std.specs.Prelude.{◌≡◌, ℕ, ◌≤◌, length};
ghost use Rattle.model.specs.Limits.{max_network_bytes};
ghost use Rattle.model.specs.NetworkText.{Draft, no_lines, read_network};
ghost use Rattle.network_draft.specs.Represents.{arrays, Represents, Drafted, empty_summary};
ghost use Rattle.network_reader.specs.Reads.{LineAdded, LinesRead, uncounted, Begun, StartWalked, EndsAs, AllZero, IsReading};

use crate::counts::steering_count;
use crate::start::fill_start;
use model::limits::{MAX_NETWORK_BYTES, MAX_NODES};
use model::refusal::{Kind, Refusal};
use network_draft::store::{Summary, Target};
use network_entries::{add_hold, add_read, add_write};
use network_line::{Entry, parse};
use network_nodes::{add_node, add_out};
use network_path::layout::{NODE_FIELDS, NODE_NUMBERS, Nodes, Words};
use network_path::walk::find_path;

// The record of a network; its last two counts are of the distinct steering bits and of the bits of the start's path.
#[derive(Drop)]
pub struct Network {
    pub nodes: Nodes,
    pub bits: Words,
    pub known: Words,
    pub steering: Words,
    pub summary: Summary,
    pub steering_count: usize,
    pub start_length: usize,
}

// What a text leaves beside the arrays: the record's other parts.
#[derive(Clone, Copy)]
pub struct Filled {
    pub summary: Summary,
    pub steering_count: usize,
    pub start_length: usize,
}

// Line n.
fn add_line(
    nodes: &mut Nodes,
    bits: &mut Words,
    known: &mut Words,
    steering: &mut Words,
    held: &mut [u16; NODE_NUMBERS],
    t: Summary,
    line: &[u8],
    n: usize,
) -> Result<Summary, Refusal>
    requires { Drafted (arrays nodes.old bits.old known.old steering.old held.old) t n }
    ensures { LineAdded (arrays nodes.old bits.old known.old steering.old held.old) t line.now n result (arrays nodes.new bits.new known.new steering.new held.new) }
{
    let Some(p) = parse(line) else {
        return Err(Kind::Form.at(n));
    };
    match p.entry {
        Entry::Node(x) => add_node(nodes, bits, known, steering, held, t, n, x, p.bits),
        Entry::Out(k) => add_out(nodes, t, n, k),
        Entry::Hold(s) => {
            add_hold(nodes, bits, known, held, t, n, s, p.bits)?;
            Ok(t)
        }
        Entry::Write(s) => add_write(nodes, steering, t, n, s, p.bits),
        Entry::Read(s) => add_read(nodes, steering, t, n, s),
    }
}

fn empty_summary() -> Summary
    ensures { result ≡ empty_summary }
{
    let none = Target {
        segment: 0,
        write: None,
    };
    Summary {
        count: 0,
        total: 0,
        has_out: false,
        out: 0,
        target_count: 0,
        targets: [none; 4],
    }
}

// The lines of a text of at most 16,384 bytes, from the empty draft on: their refusal, or 4 without an `out` line.
fn read_lines(
    text: &[u8],
    nodes: &mut Nodes,
    bits: &mut Words,
    known: &mut Words,
    steering: &mut Words,
    held: &mut [u16; NODE_NUMBERS],
) -> Result<Summary, Refusal>
    requires { (length text.now ≤ max_network_bytes) × Represents (arrays nodes.old bits.old known.old steering.old held.old) empty_summary no_lines 1 }
    ensures { LinesRead text.now result (arrays nodes.new bits.new known.new steering.new held.new) }
{
    let mut summary = empty_summary();
    let mut at: usize = 0;
    let mut n: usize = 1;
    // A while, as the step is the length of a line.
    while at < text.len() {
        let end = text::end_of(text, at, b'\n');
        if end == text.len() {
            return Err(Kind::Form.at(n));
        }
        let line = &text[at..end];
        summary = add_line(nodes, bits, known, steering, held, summary, line, n)?;
        at = end + 1;
        n += 1;
    }
    if !summary.has_out {
        return Err(Kind::Order.at(n));
    }
    Ok(summary)
}

// The path of the start, whose bits are filled: 9, or the record's counts.
fn walk_start<'a>(
    nodes: &'a Nodes,
    bits: &'a Words,
    known: &'a Words,
    steering: &'a Words,
    summary: Summary,
) -> Result<Filled, Refusal>
    requires { (d : Draft) × ((n : ℕ) × Begun (uncounted nodes.now bits.now known.now steering.now summary) d n) }
    ensures { StartWalked (uncounted nodes.now bits.now known.now steering.now summary) result }
{
    let mut way = [0u16; MAX_NODES];
    match find_path(nodes, bits, known, summary.out, &mut way) {
        Err(m) => Err(Kind::Start.at(m)),
        Ok(path) => Ok(Filled {
            summary,
            steering_count: steering_count(nodes, steering, summary.count),
            start_length: path.bits,
        }),
    }
}

// A network text into arrays of zeros: one refusal, 1 to 9 or 18, or the record's other parts.
pub fn read_into(
    text: &[u8],
    nodes: &mut Nodes,
    bits: &mut Words,
    known: &mut Words,
    steering: &mut Words,
) -> Result<Filled, Refusal>
    requires { AllZero nodes.old bits.old known.old steering.old }
    ensures { EndsAs nodes.new bits.new known.new steering.new (read_network text.now) result }
{
    if MAX_NETWORK_BYTES < text.len() {
        return Err(Kind::Size.at(0));
    }
    let mut held = [0u16; NODE_NUMBERS];
    let summary = read_lines(text, nodes, bits, known, steering, &mut held)?;
    fill_start(nodes, bits, known, steering, &held, summary.count);
    walk_start(nodes, bits, known, steering, summary)
}

// A network text: the record, or one refusal, 1 to 9 or 18.
pub fn read_network(text: &[u8]) -> Result<Network, Refusal>
    ensures { IsReading text.now result }
{
    let mut nodes = [0u16; NODE_FIELDS];
    let mut bits = [0; NODE_NUMBERS];
    let mut known = [0; NODE_NUMBERS];
    let mut steering = [0; NODE_NUMBERS];
    let filled = read_into(text, &mut nodes, &mut bits, &mut known, &mut steering)?;
    Ok(Network {
        nodes,
        bits,
        known,
        steering,
        summary: filled.summary,
        steering_count: filled.steering_count,
        start_length: filled.start_length,
    })
}
