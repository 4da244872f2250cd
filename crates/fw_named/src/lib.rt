//! What a store holds of the writes that a root names.
#![tactic(auto)]

pub mod laws;
