//! What is given is acknowledged: laws of the machine, without time and without fairness. A failure delays and never blocks.
#![tactic(auto)]

pub mod laws;
