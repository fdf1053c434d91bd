// The steering bits of a network in order, and their settings by number: words from a number, and a number from words.
#![tactic(auto)]

ghost use Rattle.std.specs.Prelude.{◌≡◌, ◌+◌, ◌<◌, ◌≤◌, length};
ghost use Rattle.model.specs.Limits.{max_nodes};
ghost use Rattle.model.specs.Network.{steering_bits};
ghost use Rattle.network_words.specs.Words.{word_width, trit_at};
ghost use Rattle.network_path.specs.Layout.{nodes_of, look_in};
ghost use Rattle.network_path.specs.Answers.{ConfigSized};
ghost use Rattle.planner_theory.specs.Settings.{digit_of, setting_of};
ghost use Rattle.planner_steering.specs.Steering.{bits_of, steering_of, marked_in, Steered, ProblemOf, Behind, Within, SteeringListed, Cleared, DigitSet, SetTo};

use model::limits::MAX_STEERING_BITS;
use network_draft::store::{Summary, mark_bit};
use network_path::layout::{Nodes, Words, segment_len};
use network_words::{Word, bit_at};

// A steering bit by its segment and the bit there.
#[derive(Clone, Copy)]
pub struct SteeringBit {
    pub segment: u16,
    pub bit: u16,
}

// What the search asks of a network's record besides its nodes and words of steering bits: its counts and targets, and the list of
// its steering bits with their count, the width of a setting.
#[derive(Clone, Copy)]
pub struct Problem {
    pub summary: Summary,
    pub steering: [SteeringBit; MAX_STEERING_BITS],
    pub width: usize,
}

// The bits that are set among the first len of segment s's word go behind the first n.
fn list_segment(
    word: Word,
    len: usize,
    s: usize,
    listed: &mut [SteeringBit; MAX_STEERING_BITS],
    n: usize,
) -> usize
    requires { (s ≤ max_nodes) × (len ≤ word_width) × (n + length (marked_in word s 0 len) ≤ 6) × (length listed.old ≡ 6) }
    ensures { Behind listed.old n (marked_in word s 0 len) listed.new result }
{
    let mut m = n;
    for b in 0..len {
        if bit_at(word, b) == 1 {
            listed[m] = SteeringBit {
                segment: s as u16,
                bit: b as u16,
            };
            m += 1;
        }
    }
    m
}

// The steering bits of nodes 1 to count, and how many there are.
fn list_steering<'a>(
    nodes: &'a Nodes,
    steering: &'a Words,
    count: usize,
    listed: &mut [SteeringBit; MAX_STEERING_BITS],
) -> usize
    requires { Steered nodes.now steering.now count × (length listed.old ≡ 6) }
    ensures { (bits_of listed.new result ≡ steering_bits (nodes_of nodes.now count)) × (result ≤ 6) }
{
    let mut n: usize = 0;
    for s in 1..=count {
        n = list_segment(steering[s], segment_len(nodes, s), s, listed, n);
    }
    n
}

// The counts and targets with the steering bits of the nodes.
pub fn problem_of<'a>(nodes: &'a Nodes, steering: &'a Words, summary: Summary) -> Problem
    requires { Steered nodes.now steering.now summary.count }
    ensures { ProblemOf nodes.now summary result }
{
    let mut listed = [SteeringBit { segment: 0, bit: 0 }; MAX_STEERING_BITS];
    let width = list_steering(nodes, steering, summary.count, &mut listed);
    Problem {
        summary,
        steering: listed,
        width,
    }
}

// The words of the steering segments become 0.
fn clear_words(bits: &mut Words, known: &mut Words, steering: &[SteeringBit; 6], k: usize)
    requires k_bound { (k ≤ 6) × ConfigSized bits.old known.old }
    requires within { Within steering.now k }
    ensures { Cleared steering.now k bits.new known.new }
{
    for j in 0..k {
        let s = usize::from(steering[j].segment);
        bits[s] = 0;
        known[s] = 0;
    }
}

// Bit b of segment s gets the value of a digit: 0, 1, or 2 for unknown. Before, it is 0 in both words.
fn set_digit(bits: &mut Words, known: &mut Words, s: usize, b: usize, d: usize)
    requires { (d < 3) × ConfigSized bits.old known.old }
    ensures { DigitSet bits.old known.old s b d bits.new known.new }
{
    if d < 2 {
        mark_bit(known, s, b);
    }
    if d == 1 {
        mark_bit(bits, s, b);
    }
}

// The words in which the steering bits have the values of setting x; other bits are free.
pub fn set_words(bits: &mut Words, known: &mut Words, problem: Problem, x: usize)
    requires { SteeringListed problem × ConfigSized bits.old known.old }
    ensures { SetTo (steering_of problem) x bits.new known.new }
{
    clear_words(bits, known, &problem.steering, problem.width);
    let mut y = x;
    for j in 0..problem.width {
        let place = problem.steering[j];
        let s = usize::from(place.segment);
        let b = usize::from(place.bit);
        set_digit(bits, known, s, b, y % 3);
        y /= 3;
    }
}

// The digit of bit b of a segment with these two words.
fn digit_at(bits: Word, known: Word, b: usize) -> usize
    requires { b < word_width }
    ensures { (result ≡ digit_of (trit_at bits known b)) × (result ≤ 2) }
{
    if bit_at(known, b) == 0 {
        return 2;
    }
    bit_at(bits, b)
}

// The number of the setting that the words hold.
pub fn setting_number<'a>(bits: &'a Words, known: &'a Words, problem: Problem) -> usize
    requires { SteeringListed problem }
    ensures { result ≡ setting_of (steering_of problem) (look_in bits.now known.now) }
{
    let mut n: usize = 0;
    for j in (0..problem.width).rev() {
        let place = problem.steering[j];
        let s = usize::from(place.segment);
        let b = usize::from(place.bit);
        n = n * 3 + digit_at(bits[s], known[s], b);
    }
    n
}
