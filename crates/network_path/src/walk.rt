// The walk back from scan-out: it calls itself on the next node; the node number falls. It adds up the path's bits as it returns.
ghost use Rattle.std.specs.Prelude.{◌≡◌, ◌<◌, ◌≤◌};
ghost use Rattle.model.specs.Limits.{max_nodes};
ghost use Rattle.network_words.specs.Words.{word_width};
ghost use Rattle.network_path.specs.Layout.{node_at, look_in, SafeNode};
ghost use Rattle.network_path.specs.Answers.{address_of_words, step_of, Walkable, walked, Walks, EndsWithin, FindsPath};

use crate::layout;
use crate::layout::{Nodes, Way, Words};
use network_words::Word;

// The address that a segment's two words hold at a bit, for a multiplexer with so many inputs, if it is known.
pub fn address_of(bits: Word, known: Word, bit: usize, inputs: usize) -> Option<usize>
    requires { bit < word_width }
    ensures { result ≡ address_of_words bits known bit inputs }
{
    if inputs <= 2 {
        if network_words::bit_at(known, bit) == 0 {
            return None;
        }
        return Some(network_words::bit_at(bits, bit));
    }
    if network_words::pair_at(known, bit) < 3 {
        return None;
    }
    Some(network_words::pair_at(bits, bit))
}

// What lies before a node: a segment's FROM or the addressed input.
#[derive(Clone, Copy, PartialEq, Eq)]
pub enum Step {
    Segment(usize),
    Input(usize),
}

// One step from a node, if its address can be followed.
pub fn step_from<'a>(nodes: &'a Nodes, bits: &'a Words, known: &'a Words, at: usize) -> Option<Step>
    requires { (at ≤ max_nodes) × SafeNode at (node_at nodes.now at) }
    ensures { result ≡ step_of (look_in bits.now known.now) (node_at nodes.now at) }
{
    let kind = layout::field(nodes, at, layout::KIND);
    if kind < 2 {
        return Some(Step::Segment(layout::field(nodes, at, layout::FROM)));
    }
    let seg = layout::field(nodes, at, layout::SEG);
    let bit = layout::field(nodes, at, layout::BIT);
    let i = address_of(bits[seg], known[seg], bit, kind)?;
    if i < kind {
        return Some(Step::Input(layout::field(nodes, at, layout::INPUTS + i)));
    }
    None
}

// A path's count of segments and the sum of their bits.
#[derive(Clone, Copy, PartialEq, Eq)]
pub struct PathSize {
    pub segments: usize,
    pub bits: usize,
}

// The walk from node at: the sum of the path's bits. The segments met are written to way, behind those met before. Where the walk
// ends goes to end: the count of segments met in all, or the number of the multiplexer that stops the walk, where the sum says
// nothing. Bits are added as the walk returns, from scan-in to scan-out: a segment adds its LEN to what came back from FROM, a
// multiplexer hands on what came back from the addressed input. A `Result` returned would be copied at each return.
pub fn walk<'a>(
    nodes: &'a Nodes,
    bits: &'a Words,
    known: &'a Words,
    at: usize,
    way: &mut Way,
    met: usize,
    end: &mut Result<usize, usize>,
) -> usize
    requires { Walkable nodes.now at way.old met }
    ensures walks { Walks nodes.now bits.now known.now at way.old met (walked result end.new) way.new }
    ensures within { EndsWithin at result end.new }
{
    if at == 0 {
        *end = Ok(met);
        return 0;
    }
    match step_from(nodes, bits, known, at) {
        Some(Step::Segment(from)) => {
            let len = layout::segment_len(nodes, at);
            way[met] = at as u16;
            let back = walk(nodes, bits, known, from, way, met + 1, end);
            len + back
        }
        Some(Step::Input(to)) => walk(nodes, bits, known, to, way, met, end),
        None => {
            *end = Err(at);
            0
        }
    }
}

// The whole walk, from the node that feeds scan-out: the path's size, or the number of the multiplexer that stops the walk.
pub fn find_path<'a>(
    nodes: &'a Nodes,
    bits: &'a Words,
    known: &'a Words,
    out: usize,
    way: &mut Way,
) -> Result<PathSize, usize>
    requires { Walkable nodes.now out way.old 0 }
    ensures { FindsPath nodes.now bits.now known.now out result way.new }
{
    let mut end = Ok(0);
    let sum = walk(nodes, bits, known, out, way, 0, &mut end);
    let segments = end?;
    Ok(PathSize {
        segments,
        bits: sum,
    })
}
