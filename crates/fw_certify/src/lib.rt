//! Certificates: lowerings that show that a choice is the largest, as data that a second checker tests.
#![tactic(auto)]

mod begin;
mod certificate;
mod checker;
mod cuts;
mod ends;
mod entry;
mod judge;
pub mod laws;
mod left;
mod same;
mod shown;

pub use certificate::{Certificate, explain};
pub use checker::{Verdict, is_dead_end, verify, verify_counted};
pub use shown::{CauseText, DownLines};
