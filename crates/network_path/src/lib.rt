// The record's arrays: nodes, the walk, the path's places and the load of a CSU operation.
#![tactic(auto)]

pub mod layout;
pub mod load;
pub mod places;
pub mod walk;
