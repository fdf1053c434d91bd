// Runs of zeros. A run is often shorter than 8 bytes, as bits are sent in bytes: these are looked at first, one by one. Then as
// `text_runs` finds runs, 32 bytes at a time; the byte is fixed here, so that the compiler compares with it alone.
ghost use Rattle.std.specs.Prelude.{◌≡◌, true, ◌+◌, ◌≤◌, length, drop};
ghost use Rattle.text_runs.specs.Runs.{run_length, is_zero};

use crate::{BLOCK, Test, blocks_end, bytes_end};

// Those that are looked at first.
const NEAR: usize = 8;

// The byte `0`.
#[derive(Clone, Copy)]
struct Zero;

impl Test for Zero {
    ghost passes = { λ s b. is_zero b };

    fn passes(self, b: u8) -> bool {
        b == b'0'
    }
}

// Whether the run from a place on, which has come to i, fewer than 32 bytes before the end, goes up to the end: the last 32 bytes tell.
fn reaches_end(s: &[u8], at: usize, i: usize) -> bool
    requires { (at ≤ length s.now) × (i ≤ length s.now) × (i + run_length is_zero (drop i s.now) ≡ at + run_length is_zero (drop at s.now)) }
    ensures { result ≡ true → length s.now ≡ at + run_length is_zero (drop at s.now) }
{
    if BLOCK <= s.len() - i {
        return false;
    }
    if s.len() - at < BLOCK {
        return false;
    }
    blocks_end(s, s.len() - BLOCK, Zero) == s.len()
}

// The end of the run by blocks, then byte by byte.
fn far_end(s: &[u8], at: usize) -> usize
    requires { at ≤ length s.now }
    ensures { result ≡ at + run_length is_zero (drop at s.now) }
{
    let i = blocks_end(s, at, Zero);
    if reaches_end(s, at, i) {
        return s.len();
    }
    bytes_end(s, i, s.len(), Zero)
}

// The place of the first byte at or behind a place that is not `0`, or the length where there is none.
pub fn zeros_end(s: &[u8], at: usize) -> usize
    requires { at ≤ length s.now }
    ensures { result ≡ at + run_length is_zero (drop at s.now) }
{
    if NEAR <= s.len() - at {
        let near = bytes_end(s, at, at + NEAR, Zero);
        if near < at + NEAR {
            return near;
        }
    }
    far_end(s, at)
}
