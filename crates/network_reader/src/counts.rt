// The count of steering bits.
ghost use Rattle.std.specs.Prelude.{◌≡◌, ◌≤◌};
ghost use Rattle.model.specs.Limits.{max_nodes};
ghost use Rattle.network_words.specs.Words.{word_width};
ghost use Rattle.network_draft.specs.Represents.{Short};
ghost use Rattle.network_reader.specs.Counts.{count_in, count_from};

use network_path::layout::{Nodes, Words, segment_len};
use network_words::{Word, bit_at};

// The bits that are set among the first len of a word.
fn steering_in(word: Word, len: usize) -> usize
    requires { len ≤ word_width }
    ensures { (result ≡ count_in word 0 len) × (result ≤ len) }
{
    let mut sum: usize = 0;
    for b in 0..len {
        sum += bit_at(word, b);
    }
    sum
}

// The distinct steering bits of nodes 1 to count.
pub fn steering_count<'a>(nodes: &'a Nodes, steering: &'a Words, count: usize) -> usize
    requires { (count ≤ max_nodes) × Short nodes.now count }
    ensures { result ≡ count_from nodes.now steering.now 1 count }
{
    let mut sum: usize = 0;
    for s in 1..=count {
        sum += steering_in(steering[s], segment_len(nodes, s));
    }
    sum
}
