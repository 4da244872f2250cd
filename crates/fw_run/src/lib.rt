//! Runs a dataflow over texts.
#![tactic(auto)]

mod command;
mod explain;
mod fault;
mod held;
pub mod laws;
mod perform;
mod run;
mod status;
mod tally;
mod text;
mod through;
mod work;

pub use command::{falkirk, tell};
pub use fw_lines::{Code, Refusal};
pub use status::Status;
