// The search: forward to the first layer with a goal, back along the layers for the states that lead to it, and the way along these.
#![tactic(auto)]

pub mod plan;
pub mod trace;
