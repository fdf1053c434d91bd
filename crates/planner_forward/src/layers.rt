// From layer to layer: each state that an operation leads to goes into the next slot, unless it was met before, up to the first
// layer with a goal. A setting's row is written when the search first needs it.
ghost use Rattle.std.specs.Prelude.{◌≡◌, ℕ, ◌*◌, ◌≤◌, ◌<◌, length, get_or};
ghost use Rattle.model.specs.Limits.{max_settings, search_size};
ghost use Rattle.planner_settings.specs.Route.{Plannable, Each};
ghost use Rattle.planner_rows.specs.Rows.{RowsRight, Landing, OfRow};
ghost use Rattle.planner_table.specs.Table.{OnlySlot, Known};
ghost use Rattle.planner_forward.specs.Goals.{SetsIn};
ghost use Rattle.planner_forward.specs.Spreading.{Spread, AtSetting, Arrives, Leaves, Next, Met, SearchStarts};

use crate::goals::meets_goal;
use model::limits::{MAX_OPERATIONS, MAX_SETTINGS};
use network_path::layout::{Nodes, Words};
use planner_rows::{GAIN, Lands, MAX_CHOICES, Rows, know_row, list_lands, number};
use planner_settings::setting_count;
use planner_steering::Problem;
use planner_table::sets::joined;
use planner_table::slots::next_setting;

// The states met, a set of sets of targets for each setting.
pub type Seen = [u16; MAX_SETTINGS];

// The sets got go to setting y in slot i, if they were not all met there.
fn arrive(table: &mut [u16], seen: &mut Seen, y: usize, got: u16, i: usize)
    requires { (search_size ≤ length table.old) × (length seen.old ≡ max_settings) × (y < max_settings) × (i < 16) }
    ensures { Spread (AtSetting y got) i table.old seen.old table.new seen.new }
{
    let old = seen[y];
    let all = old | got;
    if all == old {
        return;
    }
    seen[y] = all;
    table[i * MAX_SETTINGS + y] |= got;
}

// The sets got go to each setting that one of n choices leads to.
fn spread_choices(table: &mut [u16], seen: &mut Seen, lands: &Lands, n: usize, got: u16, i: usize)
    requires room { (search_size ≤ length table.old) × (length seen.old ≡ max_settings) × (n ≤ 64) × (i < 16) }
    requires lands_small { (c : ℕ) → c < n → get_or lands.now c 0 < max_settings }
    ensures { Spread (Arrives lands.now n got) i table.old seen.old table.new seen.new }
{
    for c in 0..n {
        arrive(table, seen, usize::from(lands[c]), got, i);
    }
}

// From the states of setting x with these sets to slot i, by row x. The result has the sets of the states led to.
fn spread_setting(
    rows: &Rows,
    x: usize,
    sets: u16,
    table: &mut [u16],
    seen: &mut Seen,
    i: usize,
) -> u16
    requires room { (search_size ≤ length table.old) × (length seen.old ≡ max_settings) × (x < max_settings) × (i < 16) }
    requires landing { Landing rows.now x }
    ensures spread { OfRow rows.now x (λ net. Spread (Leaves net x sets) i table.old seen.old table.new seen.new) }
    ensures sets_in { OfRow rows.now x (λ net. SetsIn (Leaves net x sets) result) }
{
    let mut lands: Lands = [0; MAX_CHOICES];
    let n = list_lands(rows, x, &mut lands);
    let got = joined(sets, number(rows, x, GAIN));
    spread_choices(table, seen, &lands, n, got, i);
    got
}

// From layer i to slot i. The result has the sets of the states led to. Layer 0 is the start, in setting `start` with no target
// reached.
fn spread_layer<'a>(
    nodes: &'a Nodes,
    steering: &'a Words,
    problem: Problem,
    rows: &mut Rows,
    start: usize,
    table: &mut [u16],
    seen: &mut Seen,
    i: usize,
) -> u16
    requires plannable { Plannable nodes.now steering.now problem }
    requires rows_right { RowsRight nodes.now steering.now problem rows.old }
    requires room { (search_size ≤ length table.old) × (length seen.old ≡ max_settings) × (start < max_settings) × (i < 16) }
    ensures rows_right { RowsRight nodes.now steering.now problem rows.new }
    ensures only_slot { OnlySlot i table.old table.new × (length seen.new ≡ max_settings) }
    ensures spread { Each nodes.now steering.now problem (λ net. Known net (start * 16) table.old i → Spread (Next net (start * 16) table.old i) i table.old seen.old table.new seen.new) }
    ensures sets_in { Each nodes.now steering.now problem (λ net. Known net (start * 16) table.old i → SetsIn (Next net (start * 16) table.old i) result) }
{
    if i == 0 {
        know_row(nodes, steering, problem, start, rows);
        return spread_setting(rows, start, 1, table, seen, i);
    }
    let end = setting_count(problem.width);
    let at = (i - 1) * MAX_SETTINGS;
    let mut all: u16 = 0;
    let mut x = next_setting(table, at, 0, end);
    // A while, as settings without a state are passed over.
    while x < end {
        let sets = table[at + x];
        know_row(nodes, steering, problem, x, rows);
        all |= spread_setting(rows, x, sets, table, seen, i);
        x = next_setting(table, at, x + 1, end);
    }
    all
}

// Layer after layer from the start, until one of 16 has a goal: its number. The table is empty before.
pub fn find_layer<'a>(
    nodes: &'a Nodes,
    steering: &'a Words,
    problem: Problem,
    rows: &mut Rows,
    start: usize,
    full: usize,
    table: &mut [u16],
) -> Option<usize>
    requires plannable { Plannable nodes.now steering.now problem }
    requires rows_right { RowsRight nodes.now steering.now problem rows.old }
    requires empty { (search_size ≤ length table.old) × ((n : ℕ) → n < search_size → get_or table.old n 0 ≡ 0) }
    requires small { (start < max_settings) × (full < 16) }
    ensures rows_right { RowsRight nodes.now steering.now problem rows.new }
    ensures rest_kept { (length table.new ≡ length table.old) × ((n : ℕ) → search_size ≤ n → get_or table.new n 0 ≡ get_or table.old n 0) }
    ensures met { Each nodes.now steering.now problem (λ net. SearchStarts net start full → Met net (start * 16) table.new result) }
{
    let mut seen: Seen = [0; MAX_SETTINGS];
    seen[start] = 1;
    for i in 0..MAX_OPERATIONS {
        let came = spread_layer(nodes, steering, problem, rows, start, table, &mut seen, i);
        if came == 0 {
            return None;
        }
        if meets_goal(nodes, steering, problem, rows, full, table, i, came) {
            return Some(i + 1);
        }
    }
    None
}
