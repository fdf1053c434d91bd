// Runs of bytes, 32 at a time: how far a run of bits or zeros goes, and where a long line ends.
#![tactic(auto, using(crate::proofs::RunLaws::runs))]

pub mod zeros;

ghost use Rattle.std.specs.Prelude.{◌≡◌, Bool, ℕ, ◌+◌, ◌≤◌, length, drop, min, leb};
ghost use Rattle.text.specs.Places.{IsEnd};
ghost use Rattle.text_runs.specs.Runs.{in_run, other, run_length};

// The bytes that are looked at together.
const BLOCK: usize = 32;

// A test of a byte; a run is of bytes that pass it.
trait Test: Copy {
    ghost passes: { Self → ℕ → Bool };

    fn passes(self, b: u8) -> bool
        ensures { result ≡ passes self b };
}

// From `0` up to a last byte.
#[derive(Clone, Copy)]
struct UpTo(u8);

impl Test for UpTo {
    ghost passes = { λ s b. in_run s.0 b };

    fn passes(self, b: u8) -> bool {
        b'0' <= b && b <= self.0
    }
}

// Any byte but one.
#[derive(Clone, Copy)]
struct Other(u8);

impl Test for Other {
    ghost passes = { λ s b. other s.0 b };

    fn passes(self, b: u8) -> bool {
        b != self.0
    }
}

// Whether the n bytes from a place on are all of the run. The loop has no early exit, so that the compiler can compare many bytes at once.
fn each_in<T: Test>(s: &[u8], at: usize, n: usize, test: T) -> bool
    requires { at + n ≤ length s.now }
    ensures { result ≡ leb n (run_length (T.passes test) (drop at s.now)) }
{
    let mut all = true;
    for j in 0..n {
        if !test.passes(s[at + j]) {
            all = false;
        }
    }
    all
}

// The place behind whole blocks of 32 bytes of the run from a place on: the runs from either place on end at the same byte.
fn blocks_end<T: Test>(s: &[u8], at: usize, test: T) -> usize
    requires { at ≤ length s.now }
    ensures within { result ≤ length s.now }
    ensures same_end { result + run_length (T.passes test) (drop result s.now) ≡ at + run_length (T.passes test) (drop at s.now) }
{
    let mut i = at;
    // A while, as the step is a block.
    while BLOCK <= s.len() - i && each_in(s, i, BLOCK, test) {
        i += BLOCK;
    }
    i
}

// The same byte by byte, up to a place.
fn bytes_end<T: Test>(s: &[u8], at: usize, to: usize, test: T) -> usize
    requires { (at ≤ to) × (to ≤ length s.now) }
    ensures { result ≡ min to (at + run_length (T.passes test) (drop at s.now)) }
{
    for i in at..to {
        if !test.passes(s[i]) {
            return i;
        }
    }
    to
}

// The place of the first byte at or behind a place that is not of the run, or the length where there is none.
fn end_from<T: Test>(s: &[u8], at: usize, test: T) -> usize
    requires { at ≤ length s.now }
    ensures within { result ≤ length s.now }
    ensures ends { result ≡ at + run_length (T.passes test) (drop at s.now) }
{
    bytes_end(s, blocks_end(s, at, test), s.len(), test)
}

// Whether the n bytes from a place on are all from `0` up to a last one. The compiler's loop is slow behind its last whole block: the
// last 32 bytes are looked at as one, some of them again.
pub fn all_in(s: &[u8], at: usize, n: usize, last: u8) -> bool
    requires { at + n ≤ length s.now }
    ensures { result ≡ leb n (run_length (in_run last) (drop at s.now)) }
{
    let bits = UpTo(last);
    if n < BLOCK {
        return each_in(s, at, n, bits);
    }
    each_in(s, at, n - n % BLOCK, bits) && each_in(s, at + (n - BLOCK), BLOCK, bits)
}

// The place of the first byte at or behind a place that is not from `0` up to a last one, or the length where there is none.
pub fn run_end(s: &[u8], at: usize, last: u8) -> usize
    requires { at ≤ length s.now }
    ensures { result ≡ at + run_length (in_run last) (drop at s.now) }
{
    end_from(s, at, UpTo(last))
}

// `end_of` for texts with long lines.
pub fn far_end_of(s: &[u8], at: usize, b: u8) -> usize
    requires { at ≤ length s.now }
    ensures { IsEnd b s.now at result }
{
    end_from(s, at, Other(b))
}
