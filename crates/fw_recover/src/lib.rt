//! The step of an engine that restores failed nodes.
#![tactic(auto)]

mod rebuild;
mod recovery;

pub use recovery::recover;
