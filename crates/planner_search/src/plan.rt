// The search: the fewest operations from the start to all targets, or nothing. The search space is cleared.
ghost use Rattle.std.specs.Prelude.{◌≡◌, ◌≤◌, ◌<◌, length, replicate};
ghost use Rattle.model.specs.Limits.{max_settings, search_size};
ghost use Rattle.model.specs.Calls.{write_over, search_entries};
ghost use Rattle.planner_settings.specs.Route.{Plannable, Each};
ghost use Rattle.planner_rows.specs.Rows.{RowsRight};
ghost use Rattle.planner_forward.specs.Spreading.{SearchStarts};
ghost use Rattle.planner_search.specs.Plans.{PlanFound};

use crate::trace::trace;
use model::limits::SEARCH_SIZE;
use network_path::layout::{Nodes, Words};
use planner_backward::keep_all;
use planner_forward::layers::find_layer;
use planner_rows::Rows;
use planner_steering::Problem;

// The search's own entries become 0; the others stay.
pub fn clear(table: &mut [u16])
    requires { search_size ≤ length table.old }
    ensures { table.new ≡ write_over (replicate search_entries 0) table.old }
{
    table[..SEARCH_SIZE].fill(0);
}

// The search from setting `start`, where `full` is the number of all targets: the count of operations of the plan, whose choices go
// to `out`, one byte each; None where there is no plan of at most 16 operations.
pub fn find_plan<'a>(
    nodes: &'a Nodes,
    steering: &'a Words,
    problem: Problem,
    rows: &mut Rows,
    start: usize,
    full: usize,
    table: &mut [u16],
    out: &mut [u8],
) -> Option<usize>
    requires plannable { Plannable nodes.now steering.now problem }
    requires rows_right { RowsRight nodes.now steering.now problem rows.old }
    requires room { (search_size ≤ length table.old) × (start < max_settings) × (full < 16) × (16 ≤ length out.old) }
    requires starts { Each nodes.now steering.now problem (λ net. SearchStarts net start full) }
    ensures rows_right { RowsRight nodes.now steering.now problem rows.new }
    ensures found { Each nodes.now steering.now problem (λ net. PlanFound net start out.old result out.new) }
    ensures cleared { table.new ≡ write_over (replicate search_entries 0) table.old }
{
    clear(table);
    let found = find_layer(nodes, steering, problem, rows, start, full, table);
    if let Some(d) = found {
        keep_all(nodes, steering, problem, rows, start, full, table, d);
        trace(nodes, steering, problem, rows, start, table, d, out);
    }
    clear(table);
    found
}
