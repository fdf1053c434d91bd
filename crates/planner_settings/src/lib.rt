// The walk in a setting of the steering bits, and what its path has: the steering bits in the order of their places, the targets,
// and the digits of the steering bits beside it.
#![tactic(auto)]

ghost use Rattle.std.specs.Prelude.{◌≡◌, cond, List, ℕ, ◌/◌, ◌%◌, ◌^◌, ◌≤◌, ◌<◌, eqb, length, get_or};
ghost use Rattle.model.specs.Limits.{max_nodes, max_settings};
ghost use Rattle.network_path.specs.Answers.{HoldsPath};
ghost use Rattle.network_draft.specs.Represents.{InLimits};
ghost use Rattle.planner_steering.specs.Steering.{Within};
ghost use Rattle.planner_settings.specs.Route.{Unmarked, PathMarked, Flags, Room, IndicesBehind, Ordered, Steers, BaseBy, TargetsWithin, MaskBy, Plannable, Each, WalkIs};

use network_draft::store::Summary;
use network_path::layout::{NODE_NUMBERS, Nodes, Way, Words};
use network_path::walk::{PathSize, find_path};
use planner_steering::{Problem, SteeringBit, set_words};

// A mark for each node number from 0 to 128.
pub type Marks = [u16; NODE_NUMBERS];

// Marks of the segments on the path whose n segments way holds.
pub fn mark_path(way: &Way, n: usize, marks: &mut Marks)
    requires { ((ns : List ℕ) × HoldsPath ns way.now n) × Unmarked marks.old }
    ensures { PathMarked way.now n marks.new }
{
    for i in 0..n {
        marks[usize::from(way[i])] = 1;
    }
}

// The indices of the steering bits of segment s go behind the first n.
fn indices_in(
    listed: &[SteeringBit; 6],
    k: usize,
    s: usize,
    order: &mut [usize; 6],
    n: usize,
) -> usize
    requires k_bound { (k ≤ 6) × (s ≤ max_nodes) × (length order.old ≡ 6) × (n ≤ 6) }
    requires room { Room listed.now k s n }
    ensures { IndicesBehind listed.now k s order.old n order.new result }
{
    let mut m = n;
    for j in 0..k {
        if usize::from(listed[j].segment) == s {
            order[m] = j;
            m += 1;
        }
    }
    m
}

// The same; a segment without steering bits, as its word of them tells, needs no look at the list.
fn indices_at<'a>(
    steering: &'a Words,
    listed: &'a [SteeringBit; 6],
    k: usize,
    s: usize,
    order: &mut [usize; 6],
    n: usize,
) -> usize
    requires k_bound { (k ≤ 6) × (s ≤ max_nodes) × (length order.old ≡ 6) × (n ≤ 6) }
    requires room { Room listed.now k s n }
    requires steers { Steers steering.now listed.now k }
    ensures { IndicesBehind listed.now k s order.old n order.new result }
{
    if steering[s] == 0 {
        return n;
    }
    indices_in(listed, k, s, order, n)
}

// The indices of the steering bits on the path whose n segments way holds, in the order of their places, and how many there are.
pub fn order_of<'a>(
    way: &'a Way,
    n: usize,
    steering: &'a Words,
    listed: &'a [SteeringBit; 6],
    k: usize,
    order: &mut [usize; 6],
) -> usize
    requires path { ((ns : List ℕ) × HoldsPath ns way.now n) × (k ≤ 6) × (length order.old ≡ 6) }
    requires steers { Steers steering.now listed.now k }
    ensures { Ordered listed.now k way.now n order.new result }
{
    let mut m: usize = 0;
    for i in 0..n {
        m = indices_at(steering, listed, k, usize::from(way[i]), order, m);
    }
    m
}

// The count of settings of k steering bits.
pub fn setting_count(k: usize) -> usize
    requires { k ≤ 6 }
    ensures { (result ≡ 3 ^ k) × (result ≤ max_settings) }
{
    3usize.pow(k as u32)
}

// Digit j of x, or 0 where segment s is marked.
fn digit_off(marks: &Marks, s: usize, x: usize, j: usize) -> usize
    requires { (s ≤ max_nodes) × (j < 6) }
    ensures { (result ≡ cond (eqb (get_or marks.now s 0) 1) 0 (x / 3 ^ j % 3)) × (result ≤ 2) }
{
    if marks[s] == 1 {
        return 0;
    }
    x / 3usize.pow(j as u32) % 3
}

// The number of setting x with 0 in the steering bits of marked segments.
pub fn base_of<'a>(marks: &'a Marks, listed: &'a [SteeringBit; 6], k: usize, x: usize) -> usize
    requires { (k ≤ 6) × Within listed.now k }
    ensures { BaseBy marks.now listed.now k x result }
{
    let mut base: usize = 0;
    for j in (0..k).rev() {
        base = base * 3 + digit_off(marks, usize::from(listed[j].segment), x, j);
    }
    base
}

// The targets whose segments are marked, a binary digit for each.
pub fn mask_of_targets(marks: &Marks, t: Summary) -> u16
    requires { (InLimits t) × TargetsWithin t × Flags marks.now }
    ensures { MaskBy marks.now t result }
{
    let mut mask: u16 = 0;
    for i in (0..t.target_count).rev() {
        mask = mask * 2 + marks[usize::from(t.targets[i].segment)];
    }
    mask
}

// The walk in setting x of the steering bits.
pub fn walk_setting<'a>(
    nodes: &'a Nodes,
    steering: &'a Words,
    problem: Problem,
    x: usize,
    way: &mut Way,
) -> Result<PathSize, usize>
    requires plannable { Plannable nodes.now steering.now problem }
    requires way_len { length way.old ≡ max_nodes }
    ensures each { Each nodes.now steering.now problem (λ net. WalkIs net nodes.now x result way.new) }
    ensures way_len { length way.new ≡ max_nodes }
{
    let mut bits = [0; NODE_NUMBERS];
    let mut known = [0; NODE_NUMBERS];
    set_words(&mut bits, &mut known, problem, x);
    find_path(nodes, &bits, &known, problem.summary.out, way)
}
