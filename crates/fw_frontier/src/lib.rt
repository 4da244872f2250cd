//! Frontiers: sets of times that hold with a time each lesser one.
#![tactic(auto)]

mod below;
mod few;
mod front;
mod frontier;
pub mod laws;
mod outside;
mod planes;
mod stairs;
mod state;
mod tops;
mod two_below;

pub use below::Below;
pub use front::Front;
pub use frontier::{Frontier, Logical};
pub use stairs::Stairs;
pub use state::{Entries, SentCount, SentCounts, State};
pub use two_below::TwoBelow;
