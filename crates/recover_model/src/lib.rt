// What Change 2 of document 02 says, clocks back into a plan: specs/ what it means, proofs/ why its promises hold of that meaning, and here its
// limit as a number of the code. No function.
#![tactic(auto)]

// document 02, Change 2: "a line over 32,768 bytes", of clocks
pub const MAX_LINE_BYTES: usize = 32768;
