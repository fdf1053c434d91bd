// The text of a plan from the choices of the search: its length, then its lines, each along the path of its setting.
#![tactic(auto)]

ghost use Rattle.std.specs.Prelude.{◌<◌};
ghost use Rattle.model.specs.Limits.{max_settings};
ghost use Rattle.planner_rows.specs.Rows.{row_number, RowsRight, Landing};
ghost use Rattle.planner_text.specs.Writing.{LandIn, Countable, Counts, Writable, Writes, GivesText};

use model::limits::{MAX_NODES, MAX_OPERATIONS};
use model::refusal::{Kind, Refusal};
use network_path::layout::{NODE_NUMBERS, Nodes, Way, Words};
use network_path::walk::PathSize;
use planner_line::{list_wants, put_line};
use planner_rows::{COUNT, LENGTH, Lands, MAX_CHOICES, Rows, know_row, list_lands, number};
use planner_settings::walk_setting;
use planner_steering::Problem;

// The setting that choice c leads to from setting x.
fn land_of(rows: &Rows, x: usize, c: usize) -> usize
    requires landing { (x < max_settings) × Landing rows.now x }
    requires chosen { c < row_number rows.now x 1 }
    ensures { LandIn rows.now x c result }
{
    let mut lands: Lands = [0; MAX_CHOICES];
    list_lands(rows, x, &mut lands);
    usize::from(lands[c])
}

// The bytes of the text of the first n of the choices in picked, from setting start on.
fn text_length<'a>(
    nodes: &'a Nodes,
    steering: &'a Words,
    problem: Problem,
    rows: &mut Rows,
    start: usize,
    picked: &'a [u8; MAX_OPERATIONS],
    n: usize,
) -> usize
    requires countable { Countable nodes.now steering.now problem start picked.now n }
    requires rows_right { RowsRight nodes.now steering.now problem rows.old }
    ensures rows_right { RowsRight nodes.now steering.now problem rows.new }
    ensures counts { Counts nodes.now steering.now problem start picked.now n result }
{
    let mut sum: usize = 0;
    let mut x = start;
    for i in 0..n {
        know_row(nodes, steering, problem, x, rows);
        sum += 5 + number(rows, x, LENGTH);
        x = land_of(rows, x, usize::from(picked[i]));
    }
    sum
}

// The text itself, at the front of a buffer with room for it.
fn write_text<'a>(
    nodes: &'a Nodes,
    steering: &'a Words,
    problem: Problem,
    rows: &mut Rows,
    start: usize,
    picked: &'a [u8; MAX_OPERATIONS],
    n: usize,
    plan: &mut [u8],
)
    requires writable { Writable nodes.now steering.now problem start picked.now n plan.old }
    requires rows_right { RowsRight nodes.now steering.now problem rows.old }
    ensures { Writes nodes.now steering.now problem start picked.now n plan.old plan.new }
{
    let mut wants: Words = [0; NODE_NUMBERS];
    list_wants(problem.summary, &mut wants);
    let mut way: Way = [0; MAX_NODES];
    let mut at: usize = 0;
    let mut x = start;
    for i in 0..n {
        let walked = walk_setting(nodes, steering, problem, x, &mut way);
        let PathSize { segments, bits } = walked.unwrap();
        know_row(nodes, steering, problem, x, rows);
        let c = usize::from(picked[i]);
        let h = number(rows, x, COUNT);
        at = put_line(
            nodes, steering, &wants, &way, segments, bits, plan, at, h, c,
        );
        x = land_of(rows, x, c);
    }
}

// The text at the front of a buffer: 13 where it has no room for it.
pub fn write_plan<'a>(
    nodes: &'a Nodes,
    steering: &'a Words,
    problem: Problem,
    rows: &mut Rows,
    start: usize,
    picked: &'a [u8; MAX_OPERATIONS],
    n: usize,
    plan: &mut [u8],
) -> Result<usize, Refusal>
    requires countable { Countable nodes.now steering.now problem start picked.now n }
    requires rows_right { RowsRight nodes.now steering.now problem rows.old }
    ensures { GivesText nodes.now steering.now problem start picked.now n plan.old result plan.new }
{
    let needed = text_length(nodes, steering, problem, rows, start, picked, n);
    if plan.len() < needed {
        return Err(Kind::Buffer.at(needed));
    }
    write_text(nodes, steering, problem, rows, start, picked, n, plan);
    Ok(needed)
}
