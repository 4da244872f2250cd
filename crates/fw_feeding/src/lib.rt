//! What goes on where batches come while the machine runs: laws of the machine, and of an engine that is fed.
#![tactic(auto)]

pub mod laws;
