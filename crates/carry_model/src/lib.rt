// What Change 3 of document 02 says, carrying a setting into the next exercise: specs/ what it means, proofs/ why its promises hold of that
// meaning, and here its limit as a number of the code. No function.
#![tactic(auto)]

use model::limits::{MAX_BITS, MAX_NODES};

// document 02, Change 3: a `hold` line for each segment: the word, two tabs, at most three digits, byte 10; and the bits.
pub const MAX_HOLD_BYTES: usize = MAX_NODES * 10 + MAX_BITS;
