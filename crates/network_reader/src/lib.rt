// From a network text to the record of the network.
#![tactic(auto)]

pub mod counts;
pub mod reader;
pub mod start;
