// The start bits of segments without RESET and `hold`: all 0 in steering segments, all unknown in others.
ghost use Rattle.std.specs.Prelude.{length, ◌≡◌, ◌≤◌};
ghost use Rattle.network_words.specs.Words.{word_width};
ghost use Rattle.network_path.specs.Layout.{node_at, node_numbers};
ghost use Rattle.model.specs.Limits.{max_nodes};
ghost use Rattle.model.specs.Network.{len_of};
ghost use Rattle.network_draft.specs.Represents.{arrays, Short};
ghost use Rattle.network_reader.specs.Start.{free_marks, OneFilled, StartFilled};

use network_path::layout::{NODE_NUMBERS, Nodes, Words, segment_len};
use network_words::{Word, only_bit};

// The word of known marks that a segment of len bits starts with, by its word of steering bits.
fn start_marks(steering: Word, len: usize) -> Word
    requires { len ≤ word_width }
    ensures { result ≡ free_marks steering len }
{
    if steering == 0 {
        return 0;
    }
    if len == 0 {
        return 0;
    }
    let top = only_bit(len - 1);
    top - 1 + top
}

// The words of segment s, unless its RESET or a `hold` line gave them.
fn fill_one<'a>(
    nodes: &'a Nodes,
    bits: &mut Words,
    known: &mut Words,
    steering: &'a Words,
    held: &'a [u16; NODE_NUMBERS],
    s: usize,
)
    requires { (s ≤ max_nodes) × (len_of (node_at nodes.now s) ≤ word_width) × (length bits.old ≡ node_numbers) × (length known.old ≡ node_numbers) }
    ensures { OneFilled (arrays nodes.now bits.old known.old steering.now held.now) s bits.new known.new }
{
    if held[s] != 0 {
        return;
    }
    bits[s] = 0;
    known[s] = start_marks(steering[s], segment_len(nodes, s));
}

// The words of all segments 1 to count.
pub fn fill_start<'a>(
    nodes: &'a Nodes,
    bits: &mut Words,
    known: &mut Words,
    steering: &'a Words,
    held: &'a [u16; NODE_NUMBERS],
    count: usize,
)
    requires { (count ≤ max_nodes) × Short nodes.now count × (length bits.old ≡ node_numbers) × (length known.old ≡ node_numbers) }
    ensures { StartFilled (arrays nodes.now bits.old known.old steering.now held.now) count bits.new known.new }
{
    for s in 1..=count {
        fill_one(nodes, bits, known, steering, held, s);
    }
}
