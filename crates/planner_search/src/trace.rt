// The way along the states kept: at each the first choice that leads to one of the next layer.
ghost use Rattle.std.specs.Prelude.{◌≡◌, true, ℕ, ◌+◌, ◌*◌, ◌≤◌, ◌<◌, length, get_or, unwrap_or};
ghost use Rattle.model.specs.Limits.{max_settings, search_size};
ghost use Rattle.network_words.specs.Words.{word_bit};
ghost use Rattle.planner_theory.specs.Search.{FirstAt};
ghost use Rattle.planner_settings.specs.Route.{Plannable, Each};
ghost use Rattle.planner_rows.specs.Rows.{RowsRight};
ghost use Rattle.planner_backward.specs.Keeping.{Kept};
ghost use Rattle.planner_search.specs.Plans.{PlanTraced};

use model::limits::MAX_SETTINGS;
use network_path::layout::{Nodes, Words};
use planner_rows::{GAIN, Lands, MAX_CHOICES, Rows, know_row, list_lands, number};
use planner_steering::Problem;
use planner_table::sets::has;

// The first of n choices that leads to a state of slot i with the targets got.
fn first_choice(table: &[u16], i: usize, lands: &Lands, n: usize, got: usize) -> Option<usize>
    requires room { (search_size ≤ length table.now) × (n ≤ 64) × (i < 16) × (got < 16) }
    requires lands_small { (c : ℕ) → c < n → get_or lands.now c 0 < max_settings }
    ensures { FirstAt (λ (c : ℕ). word_bit (get_or table.now (i * max_settings + get_or lands.now c 0) 0) got ≡ true) n (unwrap_or result n) }
{
    for c in 0..n {
        if has(table[i * MAX_SETTINGS + usize::from(lands[c])], got) {
            return Some(c);
        }
    }
    None
}

// The choices of the plan of d operations, to the front of out.
pub fn trace<'a>(
    nodes: &'a Nodes,
    steering: &'a Words,
    problem: Problem,
    rows: &mut Rows,
    start: usize,
    table: &'a [u16],
    d: usize,
    out: &mut [u8],
)
    requires plannable { Plannable nodes.now steering.now problem }
    requires rows_right { RowsRight nodes.now steering.now problem rows.old }
    requires room { (search_size ≤ length table.now) × (start < max_settings) × (1 ≤ d) × (d ≤ 16) × (16 ≤ length out.old) }
    requires kept { Each nodes.now steering.now problem (λ net. Kept net (start * 16) d table.now) }
    ensures rows_right { RowsRight nodes.now steering.now problem rows.new }
    ensures traced { Each nodes.now steering.now problem (λ net. PlanTraced net (start * 16) d out.old out.new) }
{
    let mut x = start;
    let mut m: usize = 0;
    for i in 0..d {
        know_row(nodes, steering, problem, x, rows);
        let mut lands: Lands = [0; MAX_CHOICES];
        let n = list_lands(rows, x, &mut lands);
        m |= number(rows, x, GAIN);
        let c = first_choice(table, i, &lands, n, m).unwrap();
        out[i] = c as u8;
        x = usize::from(lands[c]);
    }
}
