//! What the tables of nodes share: a content for each time, sums by key, what an event makes a node send, and their states.
//!
//! A table is a node's state without its events: what the node needs to answer the next event as it would from all
//! earlier ones. A contract relates a table to a list of arrivals, the latest first, for each list that the table may
//! stand for.
#![tactic(auto)]

mod content;
mod per_time;
mod sent;
mod state;
mod sums;

pub use content::Content;
pub use per_time::{keep_outside, put_at};
pub use sent::{Sent, SentRecs};
pub use state::{empty_state, state_of};
pub use sums::Sums;
