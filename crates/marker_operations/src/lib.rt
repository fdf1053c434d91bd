// The operations of a plan in turn: 15 where the count of bits is not the path length, 16 where the configuration after it is not valid.
#![tactic(auto)]

ghost use Rattle.std.specs.Prelude.{[], ◌≡◌, ◌≤◌, length, take};
ghost use Rattle.network_path.specs.Answers.{HoldsPath};
ghost use Rattle.network_path.specs.Layout.{scan_path};
ghost use Rattle.plan_text.specs.Form.{HasForm};
ghost use Rattle.marker_operations.specs.Operations.{slots, access_of, access_after, Reached, Noted, marking, state, OnSomePath, Operates, RunsFrom, Startable, Runs};

use model::limits::MAX_NODES;
use model::refusal::{Kind, Refusal};
use network_draft::store::{Summary, Target};
use network_path::layout::{Nodes, Way, Words};
use network_path::load::load;
use network_path::places::place_of;
use network_path::walk::{PathSize, find_path};
use plan_text::bits_at;

// The first operation with a target on its path, and the place of the target's bit 0 there.
#[derive(Clone, Copy)]
pub struct Met {
    pub operation: usize,
    pub place: usize,
}

// A target of segment s: if it was on no path before and is on that of operation k, the operation and the place go to met.
fn note_target<'a>(
    nodes: &'a Nodes,
    way: &'a Way,
    n: usize,
    s: usize,
    k: usize,
    met: &mut Option<Met>,
)
    requires { HoldsPath nodes.now way.now n }
    ensures { access_of met.new ≡ access_after (scan_path nodes.now (take n way.now)) s k (access_of met.old) }
{
    if met.is_none() {
        *met = place_of(nodes, way, n, s).map(|place| Met {
            operation: k,
            place,
        });
    }
}

// All targets for operation k.
fn note_targets<'a>(
    nodes: &'a Nodes,
    way: &'a Way,
    n: usize,
    targets: &'a [Target],
    k: usize,
    met: &mut [Option<Met>; 4],
)
    requires holds_path { HoldsPath nodes.now way.now n }
    requires slots { (length met.old ≡ slots) × (length targets.now ≤ slots) }
    ensures { Noted (scan_path nodes.now (take n way.now)) targets.now k met.old met.new }
{
    for (i, target) in targets.iter().enumerate() {
        note_target(nodes, way, n, usize::from(target.segment), k, &mut met[i]);
    }
}

// Operation k, with the path of this size in way and the configuration in bits and known, which become those after it.
fn run_operation<'a>(
    nodes: &'a Nodes,
    t: Summary,
    scan: &'a [u8],
    k: usize,
    way: &mut Way,
    path: PathSize,
    bits: &mut Words,
    known: &mut Words,
    met: &mut [Option<Met>; 4],
) -> Result<PathSize, Refusal>
    requires { OnSomePath nodes.now t path (state way.old bits.old known.old met.old) }
    ensures { Operates nodes.now t scan.now k path (state way.old bits.old known.old met.old) result (state way.new bits.new known.new met.new) }
{
    if scan.len() != path.bits {
        return Err(Kind::BitCount.at(k));
    }
    note_targets(
        nodes,
        way,
        path.segments,
        &t.targets[..t.target_count],
        k,
        met,
    );
    load(nodes, way, path.segments, scan, bits, known);
    match find_path(nodes, bits, known, t.out, way) {
        Ok(next) => Ok(next),
        Err(_) => Err(Kind::Configuration.at(k)),
    }
}

// The operations of a plan text of good form, from the start's path in way; bits and known end as the last configuration.
fn run_lines<'a>(
    nodes: &'a Nodes,
    t: Summary,
    plan: &'a [u8],
    way: &mut Way,
    start: PathSize,
    bits: &mut Words,
    known: &mut Words,
    met: &mut [Option<Met>; 4],
) -> Result<(), Refusal>
    requires has_form { HasForm plan.now }
    requires on_some_path { OnSomePath nodes.now t start (state way.old bits.old known.old met.old) }
    requires reached { Reached t met.old [] }
    ensures { RunsFrom nodes.now t plan.now start (state way.old bits.old known.old met.old) result (state way.new bits.new known.new met.new) }
{
    let mut path = start;
    let mut at: usize = 0;
    let mut k: usize = 1;
    // A while, as the lines differ in length.
    while at < plan.len() {
        let scan = bits_at(plan, at);
        path = run_operation(nodes, t, scan, k, way, path, bits, known, met)?;
        at += 5 + scan.len();
        k += 1;
    }
    Ok(())
}

// The plan of a text of good form, from the start in bits and known, which end as the last configuration.
pub fn run_plan<'a>(
    nodes: &'a Nodes,
    t: Summary,
    plan: &'a [u8],
    bits: &mut Words,
    known: &mut Words,
    met: &mut [Option<Met>; 4],
) -> Result<(), Refusal>
    requires has_form { HasForm plan.now }
    requires startable { Startable nodes.now t (marking bits.old known.old met.old) }
    ensures { Runs nodes.now t plan.now (marking bits.old known.old met.old) result (marking bits.new known.new met.new) }
{
    let mut way = [0u16; MAX_NODES];
    let start = find_path(nodes, bits, known, t.out, &mut way).map_err(|stop| Kind::Start.at(
        stop,
    ))?;
    run_lines(nodes, t, plan, &mut way, start, bits, known, met)
}
