//! The kinds of nodes that make numbers of epochs, and epochs of numbers again, and that pair what has one number.
//!
//! A call of a sequence or of a zip but one that says so may want memory. Where it is refused the table still is that of what came
//! before, and each later such call fails.
#![tactic(auto)]

pub mod laws;
mod regroup;
mod sequence;
mod zip;

pub use regroup::Regroup;
pub use sequence::{Numbered, Sequence};
pub use zip::Zip;
