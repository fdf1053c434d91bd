// Refusal 5: a multiplexer whose address is not within a segment with shadow.
ghost use Rattle.std.specs.Prelude.{◌≡◌, ◌≤◌};
ghost use Rattle.model.specs.Limits.{max_nodes};
ghost use Rattle.model.specs.NetworkText.{bad_address, first_bad};
ghost use Rattle.network_path.specs.Layout.{node_at, nodes_of};
ghost use Rattle.network_draft.specs.Represents.{Formed};

use network_path::layout::{BIT, KIND, LEN, Nodes, SEG, field};

// Whether node k of count is such a multiplexer.
fn is_bad(nodes: &Nodes, count: usize, k: usize) -> bool
    requires { (count ≤ max_nodes) × (1 ≤ k) × (k ≤ count) × Formed nodes.now count }
    ensures { result ≡ bad_address (nodes_of nodes.now count) (node_at nodes.now k) }
{
    let kind = field(nodes, k, KIND);
    if kind < 2 {
        return false;
    }
    let seg = field(nodes, k, SEG);
    if seg < 1 {
        return true;
    }
    if count < seg {
        return true;
    }
    if field(nodes, seg, KIND) != 1 {
        return true;
    }
    let len = field(nodes, seg, LEN);
    let bit = field(nodes, k, BIT);
    if kind == 2 {
        return len <= bit;
    }
    if len == 0 {
        return true;
    }
    len - 1 <= bit
}

// The number of the first such multiplexer.
pub fn first_bad(nodes: &Nodes, count: usize) -> Option<usize>
    requires { (count ≤ max_nodes) × Formed nodes.now count }
    ensures { result ≡ first_bad (nodes_of nodes.now count) 1 (nodes_of nodes.now count) }
{
    for k in 1..=count {
        if is_bad(nodes, count, k) {
            return Some(k);
        }
    }
    None
}
