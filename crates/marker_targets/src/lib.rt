// The targets after the operations: 17 for the lowest that was on no path or does not hold its bits, or the pass with its `got` rows.
#![tactic(auto)]

ghost use Rattle.std.specs.Prelude.{◌≡◌, ◌≤◌, ◌<◌};
ghost use Rattle.model.specs.Mark.{holds_bits};
ghost use Rattle.model.specs.Limits.{max_nodes};
ghost use Rattle.model.specs.Network.{tabulate, len_of};
ghost use Rattle.network_words.specs.Words.{word_width, word_bit, trits_of};
ghost use Rattle.network_path.specs.Answers.{ConfigSized};
ghost use Rattle.network_path.specs.Layout.{node_at};
ghost use Rattle.marker_operations.specs.Operations.{marking};
ghost use Rattle.marker_targets.specs.Answers.{no_gots, ZerosBehind, RowsFor};
ghost use Rattle.marker_targets.specs.Targets.{Pushed, Judgeable, segment_held, Judges};

use marker_operations::Met;
use model::refusal::{Kind, Refusal};
use network_draft::store::Summary;
use network_path::layout::{Nodes, Words, segment_len};
use network_words::{Word, bit_at};

// A `got` row: a target's number, the first operation with it on its path, and the place of its bit 0 there.
#[derive(Clone, Copy)]
pub struct Got {
    pub target: usize,
    pub operation: usize,
    pub place: usize,
}

// The first count rows; rows of zeros behind them.
#[derive(Clone, Copy)]
pub struct Gots {
    pub count: usize,
    pub rows: [Got; 4],
}

// `pass` with the counts of operations and of clocks, and the `got` rows.
#[derive(Clone, Copy)]
pub struct Pass {
    pub operations: usize,
    pub clocks: usize,
    pub gots: Gots,
}

fn no_gots() -> Gots
    ensures { result ≡ no_gots }
{
    Gots {
        count: 0,
        rows: [Got {
            target: 0,
            operation: 0,
            place: 0,
        }; 4],
    }
}

// One more row.
fn push(old: Gots, row: Got) -> Gots
    requires { ZerosBehind old × (old.count < 4) }
    ensures { Pushed old row result }
{
    let mut gots = old;
    gots.rows[gots.count] = row;
    gots.count += 1;
    gots
}

// Whether len bits of a segment are all known and those of want.
fn holds_bits(bits: Word, known: Word, want: Word, len: usize) -> bool
    requires { len ≤ word_width }
    ensures { result ≡ holds_bits (trits_of len bits known) (tabulate (word_bit want) 0 len) }
{
    for b in 0..len {
        if bit_at(known, b) == 0 {
            return false;
        }
        if bit_at(bits, b) != bit_at(want, b) {
            return false;
        }
    }
    true
}

// Whether segment s holds the bits of want.
fn is_held<'a>(nodes: &'a Nodes, bits: &'a Words, known: &'a Words, s: usize, want: Word) -> bool
    requires { (s ≤ max_nodes) × ConfigSized bits.now known.now × (len_of (node_at nodes.now s) ≤ word_width) }
    ensures { result ≡ segment_held nodes.now bits.now known.now s want }
{
    holds_bits(bits[s], known[s], want, segment_len(nodes, s))
}

// The targets in turn, the first operation with each on its path being in met, and its place there.
pub fn judge<'a>(
    nodes: &'a Nodes,
    t: Summary,
    bits: &'a Words,
    known: &'a Words,
    met: &'a [Option<Met>; 4],
    operations: usize,
    clocks: usize,
) -> Result<Pass, Refusal>
    requires { Judgeable nodes.now t bits.now known.now }
    ensures judges { Judges nodes.now t (marking bits.now known.now met.now) operations clocks result }
    ensures rows_for { RowsFor result }
{
    let mut gots = no_gots();
    for i in 0..t.target_count {
        let refusal = Kind::Target.at(i + 1);
        let first = met[i].ok_or(refusal)?;
        let target = t.targets[i];
        match target.write {
            Some(want) => {
                if !is_held(nodes, bits, known, usize::from(target.segment), want) {
                    return Err(refusal);
                }
            }
            None => {
                let row = Got {
                    target: i + 1,
                    operation: first.operation,
                    place: first.place,
                };
                gots = push(gots, row);
            }
        }
    }
    Ok(Pass {
        operations,
        clocks,
        gots,
    })
}
