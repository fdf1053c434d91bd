// The planner: a network text to the plan with the fewest operations.
#![tactic(auto)]

ghost use Rattle.network_reader.specs.Reads.{uncounted};
ghost use Rattle.planner.specs.Call.{Searchable, PlansIn, MadePlan};

use model::limits::{MAX_OPERATIONS, MAX_STEERING_BITS, SEARCH_SIZE};
use model::refusal::{Kind, Refusal};
use network_draft::store::Summary;
use network_path::layout::{NODE_FIELDS, NODE_NUMBERS, Nodes, Words};
use network_reader::reader::read_into;
use planner_rows::{ROW_NUMBERS, Rows};
use planner_search::plan::{clear, find_plan};
use planner_steering::{problem_of, setting_number};
use planner_text::write_plan;

// The plan of a network: empty without targets, else 11 or the text of the plan that the search finds.
fn plan_network<'a>(
    nodes: &'a Nodes,
    bits: &'a Words,
    known: &'a Words,
    steering: &'a Words,
    summary: Summary,
    search: &mut [u16],
    plan: &mut [u8],
) -> Result<usize, Refusal>
    requires { Searchable (uncounted nodes.now bits.now known.now steering.now summary) search.old }
    ensures { PlansIn (uncounted nodes.now bits.now known.now steering.now summary) search.old plan.old result search.new plan.new }
{
    if summary.target_count == 0 {
        clear(search);
        return Ok(0);
    }
    let problem = problem_of(nodes, steering, summary);
    let start = setting_number(bits, known, problem);
    let full = (1 << summary.target_count) - 1;
    let mut rows: Rows = [0; ROW_NUMBERS];
    let mut picked = [0u8; MAX_OPERATIONS];
    let found = find_plan(
        nodes,
        steering,
        problem,
        &mut rows,
        start,
        full,
        search,
        &mut picked,
    );
    let n = found.ok_or(Kind::NoPlan.at(0))?;
    write_plan(nodes, steering, problem, &mut rows, start, &picked, n, plan)
}

// The planner: the network's refusals, then 10, 12, 11, 13. The plan's text goes to the front of plan.
pub fn make_plan(network: &[u8], search: &mut [u16], plan: &mut [u8]) -> Result<usize, Refusal>
    ensures { MadePlan network.now search.old plan.old result search.new plan.new }
{
    let mut nodes = [0u16; NODE_FIELDS];
    let mut bits = [0; NODE_NUMBERS];
    let mut known = [0; NODE_NUMBERS];
    let mut steering = [0; NODE_NUMBERS];
    let filled = read_into(network, &mut nodes, &mut bits, &mut known, &mut steering)?;
    if MAX_STEERING_BITS < filled.steering_count {
        return Err(Kind::SteeringCount.at(filled.steering_count));
    }
    if search.len() < SEARCH_SIZE {
        return Err(Kind::SearchSpace.at(SEARCH_SIZE));
    }
    plan_network(
        &nodes,
        &bits,
        &known,
        &steering,
        filled.summary,
        search,
        plan,
    )
}
