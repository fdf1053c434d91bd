// Back along the layers: of each, the states that lead to a goal in the last one are kept.
#![tactic(auto)]

ghost use Rattle.std.specs.Prelude.{◌≡◌, ℕ, ◌+◌, ◌*◌, ◌≤◌, ◌<◌, length, get_or};
ghost use Rattle.model.specs.Limits.{max_settings, search_size};
ghost use Rattle.planner_theory.specs.Moves.{all_of, sys_of};
ghost use Rattle.planner_settings.specs.Route.{Plannable, Each};
ghost use Rattle.planner_rows.specs.Rows.{RowsRight, Landing, OfRow};
ghost use Rattle.planner_table.specs.Table.{SlotKnown};
ghost use Rattle.planner_forward.specs.Spreading.{MetAt, SearchStarts};
ghost use Rattle.planner_backward.specs.Keeping.{Filtered, FilteredSets, enters, leads, UnionOf, Useful};

use model::limits::MAX_SETTINGS;
use network_path::layout::{Nodes, Words};
use planner_rows::{COUNT, GAIN, Lands, MAX_CHOICES, Rows, know_row, list_lands, number};
use planner_settings::setting_count;
use planner_steering::Problem;
use planner_table::sets::{has, kept, only};
use planner_table::slots::next_setting;

// Of these sets, the one with which setting x is a goal.
fn goal_sets<'a>(
    nodes: &'a Nodes,
    steering: &'a Words,
    problem: Problem,
    rows: &mut Rows,
    full: usize,
    x: usize,
    sets: u16,
) -> u16
    requires plannable { Plannable nodes.now steering.now problem }
    requires rows_right { RowsRight nodes.now steering.now problem rows.old }
    requires small { (x < max_settings) × (full < 16) }
    ensures rows_right { RowsRight nodes.now steering.now problem rows.new }
    ensures filtered { Each nodes.now steering.now problem (λ net. full ≡ all_of net.targets → FilteredSets (sys_of net).goal x sets result) }
{
    if !has(sets, full) {
        return 0;
    }
    know_row(nodes, steering, problem, x, rows);
    if number(rows, x, COUNT) == 0 {
        return 0;
    }
    only(full)
}

// All sets in slot i that n choices lead to.
fn union_of(table: &[u16], i: usize, lands: &Lands, n: usize) -> u16
    requires room { (search_size ≤ length table.now) × (n ≤ 64) × (i < 16) }
    requires lands_small { (c : ℕ) → c < n → get_or lands.now c 0 < max_settings }
    ensures { UnionOf table.now i lands.now n result }
{
    let mut all: u16 = 0;
    for c in 0..n {
        all |= table[i * MAX_SETTINGS + usize::from(lands[c])];
    }
    all
}

// Of these sets, those with which an operation in setting x leads into slot i.
fn useful_sets(rows: &Rows, x: usize, sets: u16, table: &[u16], i: usize) -> u16
    requires room { (search_size ≤ length table.now) × (x < max_settings) × (i < 16) }
    requires landing { Landing rows.now x }
    ensures { OfRow rows.now x (λ net. FilteredSets (enters net table.now i) x sets result) }
{
    let mut lands: Lands = [0; MAX_CHOICES];
    let n = list_lands(rows, x, &mut lands);
    let all = union_of(table, i, &lands, n);
    kept(sets, number(rows, x, GAIN), all)
}

// What is kept of these sets in slot i of d: in the last slot the goal, in each other what leads into the next.
fn kept_sets<'a>(
    nodes: &'a Nodes,
    steering: &'a Words,
    problem: Problem,
    rows: &mut Rows,
    full: usize,
    table: &'a [u16],
    d: usize,
    i: usize,
    x: usize,
    sets: u16,
) -> u16
    requires plannable { Plannable nodes.now steering.now problem }
    requires rows_right { RowsRight nodes.now steering.now problem rows.old }
    requires room { (search_size ≤ length table.now) × (full < 16) × (d ≤ 16) × (i < d) × (x < max_settings) }
    ensures rows_right { RowsRight nodes.now steering.now problem rows.new }
    ensures filtered { Each nodes.now steering.now problem (λ net. full ≡ all_of net.targets → FilteredSets (leads net table.now d i) x sets result) }
{
    if i + 1 == d {
        return goal_sets(nodes, steering, problem, rows, full, x, sets);
    }
    know_row(nodes, steering, problem, x, rows);
    useful_sets(rows, x, sets, table, i + 1)
}

// The states of slot i of d that lead to a goal: the goals of the last slot, and those before from which an operation leads into the
// next slot.
fn keep_slot<'a>(
    nodes: &'a Nodes,
    steering: &'a Words,
    problem: Problem,
    rows: &mut Rows,
    full: usize,
    table: &mut [u16],
    d: usize,
    i: usize,
)
    requires plannable { Plannable nodes.now steering.now problem }
    requires rows_right { RowsRight nodes.now steering.now problem rows.old }
    requires room { (search_size ≤ length table.old) × (full < 16) × (d ≤ 16) × (i < d) }
    ensures rows_right { RowsRight nodes.now steering.now problem rows.new }
    ensures filtered { Each nodes.now steering.now problem (λ net. full ≡ all_of net.targets → SlotKnown net table.old i → Filtered (leads net table.old d i) i table.old table.new) }
{
    let end = setting_count(problem.width);
    let at = i * MAX_SETTINGS;
    let mut x = next_setting(table, at, 0, end);
    // A while, as the step varies.
    while x < end {
        let sets = table[at + x];
        table[at + x] = kept_sets(nodes, steering, problem, rows, full, table, d, i, x, sets);
        x = next_setting(table, at, x + 1, end);
    }
}

// Of layers 1 to d, of which only the last has a goal, the states that lead to it.
pub fn keep_all<'a>(
    nodes: &'a Nodes,
    steering: &'a Words,
    problem: Problem,
    rows: &mut Rows,
    start: usize,
    full: usize,
    table: &mut [u16],
    d: usize,
)
    requires plannable { Plannable nodes.now steering.now problem }
    requires rows_right { RowsRight nodes.now steering.now problem rows.old }
    requires room { (search_size ≤ length table.old) × (full < 16) × (d ≤ 16) }
    ensures rows_right { RowsRight nodes.now steering.now problem rows.new }
    ensures useful { Each nodes.now steering.now problem (λ net. SearchStarts net start full → (0 < d → MetAt net (start * 16) table.old d) → Useful net (start * 16) d table.old table.new) }
{
    for i in (0..d).rev() {
        keep_slot(nodes, steering, problem, rows, full, table, d, i);
    }
}
