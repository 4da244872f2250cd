//! The exact reader of flows; the batches of a flow's inputs as their text.
#![tactic(auto)]

mod batches;
mod declaration;
mod ending;
pub mod laws;
mod node;
mod reader;
mod select;
mod shown;
mod split;
mod words;

pub use batches::BatchesText;
pub use reader::{FLOW_LIMIT, one_answer, read_flow};
pub use shown::FlowText;
