//! The kinds of nodes that keep nothing of what came: each rec is sent on by itself, at once.
//!
//! They take no memory, since at most one rec is sent, and so cannot fail. They need no notification, and have no state.
#![tactic(auto)]

mod loops;
mod select;

pub use loops::{Enter, Feedback, Leave};
pub use select::{Concat, Select};
