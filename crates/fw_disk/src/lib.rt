//! A store of records in a folder of real files.
#![tactic(auto)]

mod call_notes;
mod cause;
mod claim;
mod contents;
mod cuts;
mod disk_store;
mod folder;
mod heard;
mod lines;
mod names;
mod start;

pub use cause::{DiskCall, DiskCause, DiskPlace, DiskRefusal, Fault, Trouble};
pub use contents::Difference;
pub use disk_store::DiskStore;
pub use lines::RunLines;
pub use start::{Empty, Start, Unknown};
