//! The steps of an engine that settle and write: progress, a checkpoint that is asked, a write that is acknowledged.
#![tactic(auto)]

mod asking;
mod base;
mod checking;
mod checkpoints;
mod record;
mod settling;
mod tables;

pub use checkpoints::{checkpoint, persist};
pub use record::sends_inside;
pub use settling::progress;
