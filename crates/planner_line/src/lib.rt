// The line of one operation in the plan text, from the number of a choice: each steering bit on the path takes the next binary
// digit of the choice, the highest first, and every other bit what the planner shifts there, by a list of words for all lines.
#![tactic(auto)]

ghost use Rattle.std.specs.Prelude.{◌≡◌, cond, ◌+◌, ◌/◌, ◌%◌, ◌<◌, ◌≤◌, eqb, length, take};
ghost use Rattle.model.specs.Path.{path_length};
ghost use Rattle.model.specs.Tap.{bit_byte};
ghost use Rattle.network_words.specs.Words.{word_width, word_bit};
ghost use Rattle.network_path.specs.Layout.{scan_path, node_numbers};
ghost use Rattle.network_draft.specs.Represents.{InLimits};
ghost use Rattle.planner_settings.specs.Route.{Unmarked, TargetsWithin};
ghost use Rattle.planner_line.specs.Line.{WantsOf, ZerosFrom, KeptFrom, SegmentPut, HasRoom, OperationPut, LinePut};

use network_draft::store::Summary;
use network_path::layout::{Nodes, Way, Words, segment_len};
use network_words::{Word, bit_at};
use plan_text::{put, put_repeated};

// For each segment the word that the planner shifts to its bits that do not steer: the bits of its first write target, else 0.
pub fn list_wants(t: Summary, wants: &mut Words)
    requires { (InLimits t) × TargetsWithin t × Unmarked wants.old }
    ensures { WantsOf t wants.new }
{
    for i in (0..t.target_count).rev() {
        let target = t.targets[i];
        if let Some(bits) = target.write {
            wants[usize::from(target.segment)] = bits;
        }
    }
}

// The binary digit of c whose weight is w; 0 for the weight 0.
fn digit(c: usize, w: usize) -> usize
    ensures { result ≡ c / w % 2 }
{
    if w == 0 { 0 } else { c / w % 2 }
}

// The byte of bit b of a segment, given the words of its steering bits and of its other bits; h is 2 to the count of digits left.
fn byte_at(steer: Word, want: Word, b: usize, h: usize, c: usize) -> u8
    requires { b < word_width }
    ensures { result ≡ bit_byte (cond (word_bit steer b) (eqb (c / (h / 2) % 2) 1) (word_bit want b)) }
{
    let bit = if bit_at(steer, b) == 1 {
        digit(c, h / 2)
    } else {
        bit_at(want, b)
    };
    b'0' + u8::from(bit == 1)
}

// What is left of h behind bit b.
fn left_behind(steer: Word, b: usize, h: usize) -> usize
    requires { b < word_width }
    ensures { result ≡ cond (word_bit steer b) (h / 2) h }
{
    if bit_at(steer, b) == 1 { h / 2 } else { h }
}

// The bytes of the len bits of a segment, written bit by bit from a place on; what is left of h.
fn put_bits(
    plan: &mut [u8],
    at: usize,
    len: usize,
    steer: Word,
    want: Word,
    h: usize,
    c: usize,
) -> usize
    requires { (len ≤ word_width) × (at + len ≤ length plan.old) }
    ensures segment_put { SegmentPut at len steer want h c plan.old result plan.new }
    ensures kept_from { KeptFrom (at + len) plan.old plan.new }
{
    let mut left = h;
    for b in 0..len {
        plan[at + b] = byte_at(steer, want, b, left, c);
        left = left_behind(steer, b, left);
    }
    left
}

// The same where `0` stands for each of the bits. Most segments have neither steering bits nor a write target, so that nothing is
// left to write.
fn put_segment(
    plan: &mut [u8],
    at: usize,
    len: usize,
    steer: Word,
    want: Word,
    h: usize,
    c: usize,
) -> usize
    requires len_le_word_width { (len ≤ word_width) × (at + len ≤ length plan.old) }
    requires zeros_from { ZerosFrom plan.old at len }
    ensures segment_put { SegmentPut at len steer want h c plan.old result plan.new }
    ensures kept_from { KeptFrom (at + len) plan.old plan.new }
{
    if steer == 0 && want == 0 {
        return h;
    }
    put_bits(plan, at, len, steer, want, h, c)
}

// The bytes of an operation along the path whose n segments way holds, written over as many `0` from a place on; the place behind them.
fn put_operation<'a>(
    nodes: &'a Nodes,
    steering: &'a Words,
    wants: &'a Words,
    way: &'a Way,
    n: usize,
    plan: &mut [u8],
    at: usize,
    h: usize,
    c: usize,
) -> usize
    requires has_room { HasRoom nodes.now way.now n at plan.old }
    requires zeros_from { ZerosFrom plan.old at (path_length (scan_path nodes.now (take n way.now))) }
    ensures value { result ≡ at + path_length (scan_path nodes.now (take n way.now)) }
    ensures operation_put { OperationPut nodes.now steering.now wants.now way.now n at h c plan.old plan.new }
{
    let mut place = at;
    let mut left = h;
    for i in 0..n {
        let s = usize::from(way[i]);
        let len = segment_len(nodes, s);
        left = put_segment(plan, place, len, steering[s], wants[s], left, c);
        place += len;
    }
    place
}

// The line of an operation along the path whose n segments way holds, of len bits, written from a place on; the place behind it.
pub fn put_line<'a>(
    nodes: &'a Nodes,
    steering: &'a Words,
    wants: &'a Words,
    way: &'a Way,
    n: usize,
    len: usize,
    plan: &mut [u8],
    at: usize,
    h: usize,
    c: usize,
) -> usize
    requires has_room { HasRoom nodes.now way.now n (at + 5) plan.old }
    requires len_value { len ≡ path_length (scan_path nodes.now (take n way.now)) }
    ensures value { result ≡ at + (5 + path_length (scan_path nodes.now (take n way.now))) }
    ensures line_put { LinePut nodes.now steering.now wants.now way.now n at h c plan.old plan.new }
{
    let start = put(plan, at, b"csu\t");
    put_repeated(plan, start, b'0', len);
    let end = put_operation(nodes, steering, wants, way, n, plan, start, h, c);
    put(plan, end, b"\n")
}
