// A table with a row of eleven numbers for each setting: 1 where the row is written, the count of choices, the targets on the path,
// the setting with 0 in the steering bits on the path, the path's length, and the indices of the steering bits on the path, the
// last place first.
#![tactic(auto)]

ghost use Rattle.std.specs.Prelude.{◌≡◌, ℕ, ◌+◌, ◌^◌, ◌≤◌, ◌<◌, length, get_or};
ghost use Rattle.model.specs.Limits.{max_settings};
ghost use Rattle.planner_settings.specs.Route.{Plannable};
ghost use Rattle.planner_rows.specs.Rows.{row_number, RowWritten, OrderWritten, Unread, PathRead, RowsRight, RowRead, Doubled, Landing, LandsIn, row_numbers};

use model::limits::{MAX_NODES, MAX_SETTINGS};
use network_path::layout::{NODE_NUMBERS, Nodes, Way, Words};
use network_path::walk::PathSize;
use planner_settings::{Marks, base_of, mark_path, mask_of_targets, order_of, walk_setting};
use planner_steering::Problem;

pub const KNOWN: usize = 0;

pub const COUNT: usize = 1;

pub const GAIN: usize = 2;

pub const BASE: usize = 3;

pub const LENGTH: usize = 4;

pub const ORDER: usize = 5;

const ROW: usize = 11;

// The numbers of all rows: 8,019.
pub const ROW_NUMBERS: usize = MAX_SETTINGS * ROW;

pub type Rows = [u16; ROW_NUMBERS];

// The choices of an operation, 0 or 1 for each steering bit on the path: 2 to the power of 6.
pub const MAX_CHOICES: usize = 64;

// The setting that each choice leads to.
pub type Lands = [u16; MAX_CHOICES];

// Number i of row x.
pub fn number(rows: &Rows, x: usize, i: usize) -> usize
    requires { (x < max_settings) × (i < 11) }
    ensures { result ≡ row_number rows.now x i }
{
    usize::from(rows[x * ROW + i])
}

// The first m of order, the last first, into row x.
fn write_order(rows: &mut Rows, x: usize, order: &[usize; 6], m: usize)
    requires rows_len { (length rows.old ≡ row_numbers) × (x < max_settings) × (m ≤ 6) }
    requires by_index { (i : ℕ) → i < m → get_or order.now i 0 < 6 }
    ensures { OrderWritten rows.old x order.now m rows.new }
{
    let at = x * ROW + ORDER;
    for i in 0..m {
        rows[at + i] = order[m - 1 - i] as u16;
    }
}

// Row x with these numbers.
fn write_row(
    rows: &mut Rows,
    x: usize,
    count: u16,
    gain: u16,
    base: u16,
    len: u16,
    order: &[usize; 6],
    m: usize,
)
    requires rows_len { (length rows.old ≡ row_numbers) × (x < max_settings) × (m ≤ 6) }
    requires by_index { (i : ℕ) → i < m → get_or order.now i 0 < 6 }
    ensures { RowWritten rows.old x count gain base len order.now m rows.new }
{
    let at = x * ROW;
    rows[at + KNOWN] = 1;
    rows[at + COUNT] = count;
    rows[at + GAIN] = gain;
    rows[at + BASE] = base;
    rows[at + LENGTH] = len;
    write_order(rows, x, order, m);
}

// The row of setting x with the path of this size whose segments way holds.
fn write_path<'a>(
    steering: &'a Words,
    problem: Problem,
    way: &'a Way,
    size: PathSize,
    x: usize,
    rows: &mut Rows,
)
    requires path_read { PathRead steering.now problem way.now size x }
    requires rows_len { (length rows.old ≡ row_numbers) × (x < max_settings) }
    ensures { RowRead steering.now problem way.now size x rows.old rows.new }
{
    let mut marks: Marks = [0; NODE_NUMBERS];
    mark_path(way, size.segments, &mut marks);
    let mut order = [0usize; 6];
    let m = order_of(
        way,
        size.segments,
        steering,
        &problem.steering,
        problem.width,
        &mut order,
    );
    let gain = mask_of_targets(&marks, problem.summary);
    let base = base_of(&marks, &problem.steering, problem.width, x);
    write_row(
        rows,
        x,
        2u16.pow(m as u32),
        gain,
        base as u16,
        size.bits as u16,
        &order,
        m,
    );
}

// The row of setting x, which is not valid.
fn write_stop(rows: &mut Rows, x: usize)
    requires { (length rows.old ≡ row_numbers) × (x < max_settings) }
    ensures { Unread rows.old x rows.new }
{
    let order = [0usize; 6];
    write_row(rows, x, 0, 0, 0, 0, &order, 0);
}

// The row of setting x is written, by a walk.
fn read_row<'a>(nodes: &'a Nodes, steering: &'a Words, problem: Problem, x: usize, rows: &mut Rows)
    requires plannable { Plannable nodes.now steering.now problem }
    requires x_lt_max_settings { (x < max_settings) × RowsRight nodes.now steering.now problem rows.old }
    ensures rows_right { RowsRight nodes.now steering.now problem rows.new }
    ensures x_after { row_number rows.new x 0 ≡ 1 }
{
    let mut way: Way = [0; MAX_NODES];
    match walk_setting(nodes, steering, problem, x, &mut way) {
        Err(_) => write_stop(rows, x),
        Ok(size) => write_path(steering, problem, &way, size, x, rows),
    }
}

// The row of setting x is written, if it was not before.
pub fn know_row<'a>(
    nodes: &'a Nodes,
    steering: &'a Words,
    problem: Problem,
    x: usize,
    rows: &mut Rows,
)
    requires plannable { Plannable nodes.now steering.now problem }
    requires x_lt_max_settings { (x < max_settings) × RowsRight nodes.now steering.now problem rows.old }
    ensures rows_right { RowsRight nodes.now steering.now problem rows.new }
    ensures x_after { row_number rows.new x 0 ≡ 1 }
{
    if number(rows, x, KNOWN) == 1 {
        return;
    }
    read_row(nodes, steering, problem, x, rows);
}

// Behind the first h, the same with w added.
fn double(lands: &mut Lands, h: usize, w: u16)
    requires lands_len { (length lands.old ≡ 64) × (h ≤ 32) × (w ≤ 243) }
    requires by_index { (c : ℕ) → c < h → get_or lands.old c 0 < max_settings }
    ensures { Doubled lands.old h w lands.new }
{
    for c in 0..h {
        lands[h + c] = lands[c] + w;
    }
}

// The settings that the choices in setting x lead to, and the count of choices.
pub fn list_lands(rows: &Rows, x: usize, lands: &mut Lands) -> usize
    requires { (length lands.old ≡ 64) × (x < max_settings) × Landing rows.now x }
    ensures { LandsIn rows.now x result lands.new }
{
    let n = number(rows, x, COUNT);
    lands[0] = rows[x * ROW + BASE];
    let mut h: usize = 1;
    let mut i: usize = 0;
    // A while, as h doubles.
    while h < n {
        let place = number(rows, x, ORDER + i);
        double(lands, h, 3u16.pow(place as u32));
        h *= 2;
        i += 1;
    }
    n
}
