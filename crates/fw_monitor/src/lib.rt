//! The monitor: to what the nodes of a dataflow are restored after a failure.
#![tactic(auto)]

mod descent;
mod finding;
pub mod laws;
mod lower;
mod start;
mod trail;
mod worklist;

pub use descent::{Descent, descend, descent_to_largest, largest};
pub use finding::{Finding, find};
