//! An engine that starts again from its store.
//!
//! `root_of` makes a root of what an engine keeps beside its records, and `resume` an engine of a root and of the records that it
//! names: every node is failed, so that a recovery comes next.
#![tactic(auto)]

mod borders;
mod catalogue;
mod counts;
mod fronts;
pub mod laws;
mod lost;
mod names;
mod parts;
mod resuming;
mod sends;
mod stamps;
mod telling;
mod told;
mod traces;

pub use resuming::resume;
pub use telling::root_of;
