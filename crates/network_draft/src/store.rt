// The network as far as it is read: counts and targets go by value, the arrays are lent.
ghost use Rattle.std.specs.Prelude.{◌≡◌, ◌≤◌, length};
ghost use Rattle.network_path.specs.Layout.{node_fields, node_numbers};
ghost use Rattle.model.specs.Limits.{max_nodes};
ghost use Rattle.network_line.specs.Line.{node_for, SmallNode};
ghost use Rattle.network_draft.specs.Store.{NumbersStored, reset_flag, StartStored, Marked, BitMarked};
ghost use Rattle.network_words.specs.Words.{word_width};
ghost use Rattle.network_draft.specs.Numbers.{numbers_for};

use model::limits::MAX_NODES;
use network_line::NodeData;
use network_path::layout::{INPUTS, NODE_NUMBERS, Nodes, Words};
use network_words::{WORD_BITS, Word, only_bit, words_of};

// A target's segment, and the bits of a `write`; none for a `read`.
#[derive(Clone, Copy)]
pub struct Target {
    pub segment: u16,
    pub write: Option<Word>,
}

// Counts, the node that feeds scan-out, and the targets.
#[derive(Clone, Copy)]
pub struct Summary {
    pub count: usize,
    pub total: usize,
    pub has_out: bool,
    pub out: usize,
    pub target_count: usize,
    pub targets: [Target; 4],
}

// Where a segment's start bits come from: its `hold` line, or the RESET of its own line; 0 where neither gives them.
pub const BY_HOLD: u16 = 1;

const BY_RESET: u16 = 2;

// The eight numbers of a node.
pub fn numbers_of(x: NodeData) -> [u16; 8]
    requires { SmallNode x }
    ensures { result ≡ numbers_for (node_for x) }
{
    match x {
        NodeData::Segment { from, len, shadow } => {
            [u16::from(shadow), from as u16, len as u16, 0, 0, 0, 0, 0]
        }
        NodeData::Multiplexer {
            seg,
            bit,
            count,
            inputs,
        } => {
            let mut numbers = [count as u16, seg as u16, bit as u16, 0, 0, 0, 0, 0];
            for i in 0..count {
                numbers[INPUTS + i] = inputs[i] as u16;
            }
            numbers
        }
    }
}

// The eight numbers go to node k.
pub fn store_numbers(nodes: &mut Nodes, k: usize, numbers: [u16; 8])
    requires { (k ≤ max_nodes) × (length nodes.old ≡ node_fields) × (length numbers ≡ 8) }
    ensures { NumbersStored nodes.old k numbers nodes.new }
{
    let base = k * 8;
    nodes[base..base + 8].copy_from_slice(&numbers);
}

// Where the start bits of a segment come from behind its own line, whose RESET has so many bits; 0 stands for no RESET.
pub fn reset_flag(reset: usize) -> u16
    ensures { result ≡ reset_flag reset }
{
    if reset == 0 { 0 } else { BY_RESET }
}

// The two words of a BITS or RESET field go to node s, with where they come from.
pub fn store_start(
    bits: &mut Words,
    known: &mut Words,
    held: &mut [u16; NODE_NUMBERS],
    s: usize,
    f: &[u8],
    flag: u16,
)
    requires { (s ≤ max_nodes) × (length f.now ≤ word_width) × (length bits.old ≡ node_numbers) × (length known.old ≡ node_numbers) × (length held.old ≡ node_numbers) }
    ensures { StartStored bits.old known.old held.old s f.now flag bits.new known.new held.new }
{
    let w = words_of(f);
    bits[s] = w.bits;
    known[s] = w.known;
    held[s] = flag;
}

// The address bits of a node are marked in its segment's word of steering bits.
pub fn mark_steering(steering: &mut Words, x: NodeData)
    requires { (SmallNode x) × (length steering.old ≡ node_numbers) }
    ensures { Marked steering.old (node_for x) steering.new }
{
    if let NodeData::Multiplexer {
        seg,
        bit,
        count,
        ..
    } = x
    {
        mark_bit(steering, seg, bit);
        if 2 < count {
            mark_bit(steering, seg, bit + 1);
        }
    }
}

// Bit b of segment s is marked, if there are such a segment and such a bit.
pub fn mark_bit(steering: &mut Words, s: usize, b: usize)
    requires { length steering.old ≡ node_numbers }
    ensures { BitMarked steering.old s b steering.new }
{
    if MAX_NODES < s || WORD_BITS <= b {
        return;
    }
    steering[s] |= only_bit(b);
}
