// A `hold`, `write` or `read` line added to a network, with its refusals in order.
#![tactic(auto)]

ghost use Rattle.std.specs.Prelude.{◌≡◌, ◌≤◌, length, take, IfSome};
ghost use Rattle.std.specs.Option.{unwrap_or};
ghost use Rattle.std.specs.List.{list_any};
ghost use Rattle.model.specs.Limits.{max_nodes};
ghost use Rattle.model.specs.Network.{len_of};
ghost use Rattle.model.specs.Path.{node_of};
ghost use Rattle.network_path.specs.Layout.{nodes_of, node_numbers};
ghost use Rattle.network_draft.specs.Represents.{InLimits, Short, same_word};
ghost use Rattle.network_entries.specs.Added.{HoldAdded, TargetAdded, ReadAdded, WriteAdded};

use model::limits::MAX_TARGETS;
use model::refusal::{Kind, Refusal};
use network_draft::store::{BY_HOLD, Summary, Target, store_start};
use network_path::layout::{NODE_NUMBERS, Nodes, Words, segment_len};
use network_words::{Word, words_of};

// The LEN of segment s, where there is such a segment.
fn len_of(nodes: &Nodes, count: usize, s: usize) -> Option<usize>
    requires { count ≤ max_nodes }
    ensures long { unwrap_or result 0 ≡ len_of (node_of (nodes_of nodes.now count) s) }
    ensures there { IfSome result (λ len. (1 ≤ len) × (1 ≤ s) × (s ≤ count)) }
{
    if s < 1 {
        return None;
    }
    if count < s {
        return None;
    }
    match segment_len(nodes, s) {
        0 => None,
        len => Some(len),
    }
}

// A `hold` line: 4, 6.
pub fn add_hold<'a>(
    nodes: &'a Nodes,
    bits: &mut Words,
    known: &mut Words,
    held: &mut [u16; NODE_NUMBERS],
    t: Summary,
    n: usize,
    s: usize,
    f: &'a [u8],
) -> Result<(), Refusal>
    requires { (InLimits t) × Short nodes.now t.count × (length bits.old ≡ node_numbers) × (length known.old ≡ node_numbers) × (length held.old ≡ node_numbers) }
    ensures { HoldAdded nodes.now bits.old known.old held.old t n s f.now result bits.new known.new held.new }
{
    if !t.has_out {
        return Err(Kind::Order.at(n));
    }
    let Some(len) = len_of(nodes, t.count, s) else {
        return Err(Kind::Entry.at(n));
    };
    if f.len() != len {
        return Err(Kind::Entry.at(n));
    }
    if held[s] == BY_HOLD {
        return Err(Kind::Entry.at(n));
    }
    store_start(bits, known, held, s, f, BY_HOLD);
    Ok(())
}

// Whether segment s is a target of this word already.
fn has_target(t: Summary, s: usize, write: bool) -> bool
    requires { InLimits t }
    ensures { result ≡ list_any (λ x. same_word x s write) (take t.target_count t.targets) }
{
    let targets = &t.targets[..t.target_count];
    targets.iter().any(|x| usize::from(x.segment) == s && x.write.is_some() == write)
}

// A target whose segment and bits are right: 6 for a repeat, 7, 8.
fn add_target(
    steering: &Words,
    t: Summary,
    n: usize,
    s: usize,
    write: Option<Word>,
) -> Result<Summary, Refusal>
    requires { (InLimits t) × (s ≤ max_nodes) }
    ensures { TargetAdded steering.now t n s write result }
{
    if has_target(t, s, write.is_some()) {
        return Err(Kind::Entry.at(n));
    }
    if steering[s] != 0 {
        return Err(Kind::SteeringTarget.at(n));
    }
    let at = t.target_count;
    if MAX_TARGETS <= at {
        return Err(Kind::TargetCount.at(n));
    }
    let mut next = t;
    next.targets[at] = Target {
        segment: s as u16,
        write,
    };
    next.target_count = at + 1;
    Ok(next)
}

// A `read` line: 4, 6, then as for every target.
pub fn add_read<'a>(
    nodes: &'a Nodes,
    steering: &'a Words,
    t: Summary,
    n: usize,
    s: usize,
) -> Result<Summary, Refusal>
    requires { InLimits t }
    ensures { ReadAdded nodes.now steering.now t n s result }
{
    if !t.has_out {
        return Err(Kind::Order.at(n));
    }
    if len_of(nodes, t.count, s).is_none() {
        return Err(Kind::Entry.at(n));
    }
    add_target(steering, t, n, s, None)
}

// A `write` line: 4, 6, then as for every target.
pub fn add_write<'a>(
    nodes: &'a Nodes,
    steering: &'a Words,
    t: Summary,
    n: usize,
    s: usize,
    f: &'a [u8],
) -> Result<Summary, Refusal>
    requires { (InLimits t) × Short nodes.now t.count }
    ensures { WriteAdded nodes.now steering.now t n s f.now result }
{
    if !t.has_out {
        return Err(Kind::Order.at(n));
    }
    let Some(len) = len_of(nodes, t.count, s) else {
        return Err(Kind::Entry.at(n));
    };
    if f.len() != len {
        return Err(Kind::Entry.at(n));
    }
    add_target(steering, t, n, s, Some(words_of(f).bits))
}
