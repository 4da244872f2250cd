//! A batch that came to a source, as a record of a store: its id and its bytes, which are read as they are written.
//!
//! The first byte tells whether the source was closed with the batch; then come how many recs there are, and these.
#![tactic(auto)]

mod batch;
pub mod laws;
mod reading;
mod writing;

pub use batch::{CameBatch, batch_id};
pub use reading::read_batch;
pub use writing::batch_bytes;
