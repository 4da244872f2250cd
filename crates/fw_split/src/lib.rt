//! Split nodes: a flow whose keyed nodes are split into replicas, each with the recs of its keys, denotes what the flow without
//! the word does. The laws stand in `specs/LawsOfSplitting.antt`.
#![tactic(auto)]

pub mod laws;
