//! The step of an engine that fails nodes.
#![tactic(auto)]

mod failure;

pub use failure::fail;
