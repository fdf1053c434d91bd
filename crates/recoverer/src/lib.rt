// Clocks back into a plan: the call for a whole text, and the step for a text that comes in parts.
#![tactic(auto)]

mod lines;
pub mod part;
pub mod whole;
