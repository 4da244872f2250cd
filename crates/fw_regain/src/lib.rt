//! What is got back of a state when every node is failed: laws of the machine, on which a start from a store would rest.
#![tactic(auto)]

pub mod laws;
