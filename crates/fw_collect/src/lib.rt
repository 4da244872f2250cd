//! Collections: what is given up when the low watermark rises, and giving it up.
//!
//! `plan` says from a dataflow, the choice that the monitor made of what acknowledged writes alone carry, and the catalogue's
//! entries what is not needed again, as plain data. `apply` takes that out of the catalogue and the inputs; from the
//! logs its caller does.
#![tactic(auto)]

mod applying;
mod drops;
mod given_up;
pub mod laws;
mod planning;

pub use applying::apply;
pub use drops::{AtNode, Drops, OfNode};
pub use planning::plan;
