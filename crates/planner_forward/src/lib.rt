// The search forward: layers of states from the start on, up to the first with a goal.
#![tactic(auto)]

pub mod goals;
pub mod layers;
