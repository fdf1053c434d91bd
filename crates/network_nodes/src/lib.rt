// A node line or the `out` line added to a network, with its refusals in order.
#![tactic(auto)]

pub mod bad;

ghost use Rattle.std.specs.Prelude.{◌≡◌};
ghost use Rattle.network_line.specs.Line.{SmallNode};
ghost use Rattle.network_draft.specs.Represents.{InLimits, Formed, arrays, Sized};
ghost use Rattle.network_draft.specs.Store.{unfit_reset};
ghost use Rattle.network_nodes.specs.Added.{NodeAdded, OutAdded};

use crate::bad::first_bad;
use model::limits::{MAX_BITS, MAX_NODES};
use model::refusal::{Kind, Refusal};
use network_draft::store::{
    Summary, mark_steering, numbers_of, reset_flag, store_numbers, store_start,
};
use network_line::NodeData;
use network_line::node::{bits_of, is_outside};
use network_path::layout::{NODE_NUMBERS, Nodes, Words};

// Whether a RESET of so many bits is no RESET of a segment of len bits; 0 stands for a line without RESET.
fn is_unfit(reset: usize, len: usize) -> bool
    ensures { result ≡ unfit_reset reset len }
{
    reset != 0 && reset != len
}

// A node line with its RESET field, which is empty where it has none: 4, 2, 18, 3.
pub fn add_node(
    nodes: &mut Nodes,
    bits: &mut Words,
    known: &mut Words,
    steering: &mut Words,
    held: &mut [u16; NODE_NUMBERS],
    t: Summary,
    n: usize,
    x: NodeData,
    reset: &[u8],
) -> Result<Summary, Refusal>
    requires { (SmallNode x) × (InLimits t) × Sized (arrays nodes.old bits.old known.old steering.old held.old) }
    ensures { NodeAdded (arrays nodes.old bits.old known.old steering.old held.old) t n x reset.now result (arrays nodes.new bits.new known.new steering.new held.new) }
{
    if t.has_out {
        return Err(Kind::Order.at(n));
    }
    if is_outside(n, x) {
        return Err(Kind::Bounds.at(n));
    }
    let len = bits_of(x);
    if is_unfit(reset.len(), len) {
        return Err(Kind::ResetLength.at(n));
    }
    if MAX_NODES <= t.count {
        return Err(Kind::Size.at(n));
    }
    if MAX_BITS - t.total < len {
        return Err(Kind::Size.at(n));
    }
    let count = t.count + 1;
    store_numbers(nodes, count, numbers_of(x));
    store_start(bits, known, held, count, reset, reset_flag(reset.len()));
    mark_steering(steering, x);
    let total = t.total + len;
    Ok(Summary { count, total, ..t })
}

// An `out` line: 4, 2, 5.
pub fn add_out(nodes: &Nodes, t: Summary, n: usize, k: usize) -> Result<Summary, Refusal>
    requires { (InLimits t) × Formed nodes.now t.count }
    ensures { OutAdded nodes.now t n k result }
{
    if t.has_out {
        return Err(Kind::Order.at(n));
    }
    if t.count < k {
        return Err(Kind::Bounds.at(n));
    }
    if let Some(m) = first_bad(nodes, t.count) {
        return Err(Kind::Address.at(m));
    }
    Ok(Summary {
        has_out: true,
        out: k,
        ..t
    })
}
