//! The command of a session over a store that lasts: it goes on where an earlier call ended, and tells what it goes on from.
#![tactic(auto)]

mod command;
pub mod laws;
mod opening;

pub use command::{Lasted, falkirk_lasting};
