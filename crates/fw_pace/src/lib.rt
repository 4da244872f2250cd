//! What a program prints, where a person at a terminal is told how far a long run is.
#![tactic(auto)]

mod paced_sink;
mod standard_output;

pub use paced_sink::PacedSink;
pub use standard_output::{Printed, printed};
