// The node of a line by itself: whether its numbers are within their bounds, and its bits.
ghost use Rattle.std.specs.Prelude.{◌≡◌, leb};
ghost use Rattle.std.specs.List.{list_any};
ghost use Rattle.model.specs.Limits.{max_len};
ghost use Rattle.model.specs.Network.{len_of};
ghost use Rattle.model.specs.NetworkText.{outside};
ghost use Rattle.network_line.specs.Line.{node_for, SmallNode};

use crate::NodeData;
use model::limits::MAX_LEN;

// Whether one of a multiplexer's inputs is not smaller than n.
fn inputs_outside(n: usize, inputs: &[usize]) -> bool
    ensures { result ≡ list_any (leb n) inputs.now }
{
    inputs.iter().any(|i| n <= *i)
}

// Whether FROM, an input or LEN of the node of number n is outside its bounds.
#[tactic(auto, using(crate::proofs::Bounds::any_listed))]
pub fn is_outside(n: usize, x: NodeData) -> bool
    requires { SmallNode x }
    ensures { result ≡ outside max_len n (node_for x) }
{
    match x {
        NodeData::Segment { from, len, .. } => n <= from || len < 1 || MAX_LEN < len,
        NodeData::Multiplexer { count, inputs, .. } => inputs_outside(n, &inputs[..count]),
    }
}

// The bits of a node.
pub fn bits_of(x: NodeData) -> usize
    ensures { result ≡ len_of (node_for x) }
{
    match x {
        NodeData::Segment { len, .. } => len,
        NodeData::Multiplexer { .. } => 0,
    }
}
