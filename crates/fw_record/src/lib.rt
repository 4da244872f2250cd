//! Records: what a store keeps of a node, and its bytes.
//!
//! `encode` writes the one spelling of a record. `decode` answers Ok exactly for these spellings, with the record spelled,
//! and else the place of the first broken field. Both know no dataflow: whether a record can be one of a node at a
//! frontier is told by `Record::is_checkpoint_of` and, of one that holds changes, by `Record::is_changes_of`; whether it is
//! that of an event by `Record::is_event_of`.
#![tactic(auto)]

mod codes;
mod fault;
mod fields;
pub mod laws;
mod logged;
mod of_node;
mod parts;
mod reading;
mod record;
mod rules;
mod size;
mod writing;

pub use fault::RecordFault;
pub use logged::{Log, Logged};
pub use reading::decode;
pub use record::{Checkpoint, Event, Record};
pub use writing::encode;
