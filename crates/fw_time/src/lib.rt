//! Logical times: stamps of one to four coordinates, the bounds that make their domains, and times of a type per depth
//! of loops.
#![tactic(auto)]

pub mod laws;
mod stamp;
mod time;

pub use stamp::{Bounds, Stamp};
pub use time::{Both, Epoch, Nest, Scalar, SeqNo, Time};
