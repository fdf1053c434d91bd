// One line of a text of clocks, without its byte 10: its form, and its TMS and TDI bits as parts of it.
#![tactic(auto)]

ghost use Rattle.std.specs.Prelude.{◌≡◌, option_map, ◌+◌, ◌≤◌, length, take, drop};
ghost use Rattle.recover_model.specs.ClockText.{clk_line};
ghost use Rattle.clock_line.specs.Line.{FitsClocks, IsFound};

use recover_model::MAX_LINE_BYTES;
use text_runs::{all_in, far_end_of};

// How many clocks a line of this length has room for: the word and two tabs are 5 bytes, each clock 2. None where there is none, a byte
// is left over, or the line is too long.
fn room_for(len: usize) -> Option<usize>
    ensures { FitsClocks len result }
{
    if (7..MAX_LINE_BYTES).contains(&len) && len % 2 == 1 {
        Some((len - 5) / 2)
    } else {
        None
    }
}

// How many clocks a line has; none where it has not the form of a `clk` line.
pub fn count_clocks(line: &[u8]) -> Option<usize>
    ensures { result ≡ option_map length (clk_line line.now) }
{
    let n = room_for(line.len())?;
    let tms_end = 4 + n;
    if !line.starts_with(b"clk\t") || !all_in(line, 4, n, b'1') {
        return None;
    }
    if line[tms_end] != b'\t' || !all_in(line, tms_end + 1, n, b'1') {
        return None;
    }
    Some(n)
}

// The TMS bits of a line of n clocks.
pub fn tms_of(line: &[u8], n: usize) -> &[u8]
    requires { 5 + (n + n) ≡ length line.now }
    ensures { result.now ≡ take n (drop 4 line.now) }
{
    &line[4..4 + n]
}

// The TDI bits of a line of n clocks.
pub fn tdi_of(line: &[u8], n: usize) -> &[u8]
    requires { 5 + (n + n) ≡ length line.now }
    ensures { result.now ≡ drop (5 + n) line.now }
{
    &line[5 + n..]
}

// A line of a text: the place of its end, or the text's length, and how many clocks it has, none where it has not the form of a `clk`
// line.
#[derive(Drop)]
pub struct Found {
    pub end: usize,
    pub clocks: Option<usize>,
}

// The line from a place on. Lines are often as long as the one before: where that guess fits, its end need not be looked for.
// The form is looked at before the byte behind it, which is the faster order (docs/DECISIONS.md).
pub fn find_line(text: &[u8], at: usize, guess: usize) -> Found
    requires { at ≤ length text.now }
    ensures { IsFound text.now at result.end result.clocks }
{
    if guess < text.len() - at {
        let near = at + guess;
        let clocks = count_clocks(&text[at..near]);
        if clocks.is_some() {
            let behind = text[near];
            if behind == b'\n' {
                return Found { end: near, clocks };
            }
        }
    }
    let end = far_end_of(text, at, b'\n');
    Found {
        end,
        clocks: count_clocks(&text[at..end]),
    }
}
