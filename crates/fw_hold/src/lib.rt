//! A run that starts again from a store: after each step that is done it puts a root there, and a later start goes on behind it.
#![tactic(auto)]

mod engine;
mod fault;
mod found;
pub mod laws;
mod moving;
mod place;
mod plan;
mod run;
mod start;
mod turn;
mod types;

pub use engine::HeldEngine;
pub use fault::HoldFault;
pub use found::{FoundRoot, counted_root, put_root};
pub use place::HeldCounts;
pub use plan::HeldPlan;
pub use run::hold;
pub use start::{are_same, decoded_root};
pub use types::{are_bytes, is_digest};
