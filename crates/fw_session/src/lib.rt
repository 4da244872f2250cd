//! A session: an engine with its store, which takes batches while it runs.
//!
//! What was done in it from its opening on is a `Story`: what its sources were fed, which were closed, and the steps that were done, with
//! what they showed. The clauses of a `Session` say how its story goes on. By `stories_are_runs` the steps are a run over the batches that
//! came in the end; by `stories_show_what_is_denoted` what it acknowledged is what the dataflow means of them; and by
//! `stories_have_what_came` these are the batches that it was fed.
#![tactic(auto)]

mod arrivals;
mod fault;
pub mod laws;
mod opening;
mod session;

pub use arrivals::Arrivals;
pub use fault::FeedFault;
pub use session::{Session, feed_engine, is_held_back};
