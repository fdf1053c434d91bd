// The record's arrays and the numbers of a node.
ghost use Rattle.std.specs.Prelude.{◌≡◌, ◌<◌, ◌≤◌};
ghost use Rattle.model.specs.Limits.{max_nodes};
ghost use Rattle.model.specs.Network.{len_of};
ghost use Rattle.network_path.specs.Layout.{field_at, node_at};

use model::limits::MAX_NODES;
use network_words::Word;

// The node numbers, 0 for scan-in among them.
pub const NODE_NUMBERS: usize = MAX_NODES + 1;

// Eight numbers for each node number.
pub const NODE_FIELDS: usize = 8 * NODE_NUMBERS;

// Eight numbers for each node number from 0 to 128.
pub type Nodes = [u16; NODE_FIELDS];

// A word for each node number from 0 to 128.
pub type Words = [Word; NODE_NUMBERS];

// The numbers of the segments met on a walk.
pub type Way = [u16; MAX_NODES];

// The places of a node's numbers. A segment has FROM and LEN, a multiplexer SEG, BIT and its inputs.
pub const KIND: usize = 0;

pub const FROM: usize = 1;

pub const LEN: usize = 2;

pub const SEG: usize = 1;

pub const BIT: usize = 2;

pub const INPUTS: usize = 4;

// Number i of node k.
pub fn field(nodes: &Nodes, k: usize, i: usize) -> usize
    requires { (k ≤ max_nodes) × (i < 8) }
    ensures { result ≡ field_at nodes.now k i }
{
    usize::from(nodes[k * 8 + i])
}

// The LEN of a segment; 0 for a multiplexer.
pub fn segment_len(nodes: &Nodes, k: usize) -> usize
    requires { k ≤ max_nodes }
    ensures { result ≡ len_of (node_at nodes.now k) }
{
    if field(nodes, k, KIND) < 2 {
        return field(nodes, k, LEN);
    }
    0
}
