//! A session that lasts: what it is fed and where it stands is kept in its store, so that a later start goes on behind it.
//!
//! Each batch that comes is a record of its own, which is put before the engine is fed with it; behind the steps of a line a root is put.
//! The laws say that what a store holds so is a story, and that this goes on by a start.
#![tactic(auto)]

mod came;
pub mod laws;
mod living;
mod putting;
mod session;
mod source;
mod start;
mod stepping;

pub use came::read_came;
pub use session::LastingSession;
pub use source::{CameTo, read_source};
pub use start::{NotStarted, Resumed};
