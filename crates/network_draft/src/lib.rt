// A network as far as it is read: its record, and what it is to add a line to it.
#![tactic(auto)]

pub mod store;
