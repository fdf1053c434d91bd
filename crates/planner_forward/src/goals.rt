// Whether a slot has a goal: a valid setting with all targets reached.
ghost use Rattle.std.specs.Prelude.{◌≡◌, true, ℕ, ◌≤◌, ◌<◌, length};
ghost use Rattle.model.specs.Limits.{max_settings, search_size};
ghost use Rattle.planner_theory.specs.Moves.{all_of};
ghost use Rattle.planner_settings.specs.Route.{Plannable, Each};
ghost use Rattle.planner_rows.specs.Rows.{RowsRight};
ghost use Rattle.planner_table.specs.Table.{SlotKnown, in_slot};
ghost use Rattle.planner_forward.specs.Goals.{SetsIn, goal_with, GoalIn};

use model::limits::MAX_SETTINGS;
use network_path::layout::{Nodes, Words};
use planner_rows::{COUNT, Rows, know_row, number};
use planner_settings::setting_count;
use planner_steering::Problem;
use planner_table::sets::has;
use planner_table::slots::next_setting;

// Whether setting x with one of these sets is a goal: it is valid, and all targets are reached.
fn is_goal<'a>(
    nodes: &'a Nodes,
    steering: &'a Words,
    problem: Problem,
    rows: &mut Rows,
    full: usize,
    x: usize,
    sets: u16,
) -> bool
    requires plannable { Plannable nodes.now steering.now problem }
    requires rows_right { RowsRight nodes.now steering.now problem rows.old }
    requires small { (x < max_settings) × (full < 16) }
    ensures rows_right { RowsRight nodes.now steering.now problem rows.new }
    ensures goal { Each nodes.now steering.now problem (λ net. result ≡ goal_with net full x sets) }
{
    if !has(sets, full) {
        return false;
    }
    know_row(nodes, steering, problem, x, rows);
    0 < number(rows, x, COUNT)
}

// Whether slot i has a goal.
fn has_goal<'a>(
    nodes: &'a Nodes,
    steering: &'a Words,
    problem: Problem,
    rows: &mut Rows,
    full: usize,
    table: &[u16],
    i: usize,
) -> bool
    requires plannable { Plannable nodes.now steering.now problem }
    requires rows_right { RowsRight nodes.now steering.now problem rows.old }
    requires room { (search_size ≤ length table.now) × (full < 16) × (i < 16) }
    ensures rows_right { RowsRight nodes.now steering.now problem rows.new }
    ensures goal { Each nodes.now steering.now problem (λ net. full ≡ all_of net.targets → SlotKnown net table.now i → GoalIn net table.now i result) }
{
    let end = setting_count(problem.width);
    let at = i * MAX_SETTINGS;
    let mut x = next_setting(table, at, 0, end);
    // A while, as settings without a state are passed over.
    while x < end {
        let sets = table[at + x];
        if is_goal(nodes, steering, problem, rows, full, x, sets) {
            return true;
        }
        x = next_setting(table, at, x + 1, end);
    }
    false
}

// Whether slot i has a goal, where the sets of its states are all in came.
pub fn meets_goal<'a>(
    nodes: &'a Nodes,
    steering: &'a Words,
    problem: Problem,
    rows: &mut Rows,
    full: usize,
    table: &[u16],
    i: usize,
    came: u16,
) -> bool
    requires plannable { Plannable nodes.now steering.now problem }
    requires rows_right { RowsRight nodes.now steering.now problem rows.old }
    requires room { (search_size ≤ length table.now) × (full < 16) × (i < 16) }
    ensures rows_right { RowsRight nodes.now steering.now problem rows.new }
    ensures goal { Each nodes.now steering.now problem (λ net. full ≡ all_of net.targets → SlotKnown net table.now i → SetsIn (λ (s : ℕ). in_slot table.now i s ≡ true) came → GoalIn net table.now i result) }
{
    has(came, full) && has_goal(nodes, steering, problem, rows, full, table, i)
}
