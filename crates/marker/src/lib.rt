// The marker: judges a plan text against a network text.
#![tactic(auto)]

ghost use Rattle.std.specs.Prelude.{◌≡◌, IfOk};
ghost use Rattle.marker.specs.Left.{Leaves, LeftAfter};
ghost use Rattle.marker.specs.Marks.{pass_left, MarkReturned, OperationsMarked, Markable};

use marker_operations::run_plan;
use marker_targets::{Pass, judge};
use model::refusal::Refusal;
use network_path::layout::{Nodes, Words};
use network_reader::reader::{Network, read_network};
use plan_text::check_form;

// A pass, and the configuration that the plan left: the nodes, their count, and two words for each segment.
#[derive(Drop)]
pub struct Marked {
    pub pass: Pass,
    pub nodes: Nodes,
    pub count: usize,
    pub bits: Words,
    pub known: Words,
}

// A plan of good form on an accepted network: the operations in turn, then the targets.
fn mark_operations(net: Network, plan: &[u8], operations: usize) -> Result<Marked, Refusal>
    requires { Markable net plan.now operations }
    ensures mark_value { OperationsMarked net plan.now (pass_left result) }
    ensures leaves { IfOk result (λ m. Leaves net plan.now m) }
{
    let summary = net.summary;
    let nodes = net.nodes;
    let mut bits = net.bits;
    let mut known = net.known;
    let mut met = [None; 4];
    run_plan(&nodes, summary, plan, &mut bits, &mut known, &mut met)?;
    let pass = judge(&nodes, summary, &bits, &known, &met, operations, plan.len())?;
    Ok(Marked {
        pass,
        nodes,
        count: summary.count,
        bits,
        known,
    })
}

// The marker, with what a passed plan left: the network's refusals, then the plan's form, its operations and the targets.
pub fn mark_leaving(network: &[u8], plan: &[u8]) -> Result<Marked, Refusal>
    ensures mark_returned { MarkReturned network.now plan.now (pass_left result) }
    ensures left_after { IfOk result (λ m. LeftAfter network.now plan.now m) }
{
    let net = read_network(network)?;
    let operations = check_form(plan)?;
    mark_operations(net, plan, operations)
}

// The marker.
pub fn mark(network: &[u8], plan: &[u8]) -> Result<Pass, Refusal>
    ensures { MarkReturned network.now plan.now result }
{
    Ok(mark_leaving(network, plan)?.pass)
}
