//! Where a dataflow meets what is outside: the batches of its inputs (`Sources`), and what came to its outputs (`Outputs`).
//!
//! Both keep something for each node of a flow; what is kept of a node that is no input, or no output, is of no use and costs
//! a few words.
#![tactic(auto)]

mod number;
mod output;
mod outputs;
mod source;
mod sources;

pub use outputs::Outputs;
pub use sources::Sources;
