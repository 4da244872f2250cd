//! A store in memory that notes what is put and removed, so that who holds it can keep the same records elsewhere.
#![tactic(auto)]

mod kept;
mod record_write;
mod writing_store;

pub use kept::KeptRecords;
pub use record_write::RecordWrite;
pub use writing_store::WritingStore;
