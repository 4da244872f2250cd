//! What a person at a terminal is told beside the line that programs read: `warn_before` and `tell_after` are called by the mains,
//! with an `AckSink` in place of the output. It is written from the status, the texts, fetched once more, and what was printed; no
//! contract says that it is right. That it has no byte which does something to a terminal is one (`advice`).
#![tactic(auto)]

mod acks;
mod circle;
mod declared;
mod expansion;
mod flow_rules;
mod form;
mod near;
mod person;
mod refusing;
mod rules;
mod shown;
mod slip;
mod slot;
mod step_rules;
mod usage;
mod warnings;
mod word;

pub use acks::AckSink;
pub use person::{Call, Ended, tell_after, warn_before};
pub use refusing::{Refused, advice};
pub use usage::Program;
