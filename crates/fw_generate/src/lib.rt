//! Generated work: a flow, inputs and a schedule of any size, drawn from a seed.
#![tactic(auto)]

mod draws;
mod from_seed;
mod generated;
mod inputs;
pub mod laws;
mod schedule;

pub use from_seed::{generate, size_limit};
pub use generated::Texts;
