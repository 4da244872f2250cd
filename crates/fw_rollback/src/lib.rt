//! What an engine keeps that a recovery cuts (`Parts`), and its restoring (`restore`).
//!
//! Each node that is cut to a frontier is built anew, whether it failed or not: from nothing, from its checkpoints up to there,
//! or by doing its logged events again. All is read and built before anything changes, so that a refusal leaves everything as it was.
#![tactic(auto)]

mod asked;
mod built;
mod cutting;
mod given;
mod logging;
mod logs;
mod parts;
mod queueing;
mod queues;
mod replay;
mod restored;
mod swap;
mod tables;

pub use cutting::restore;
pub use logs::Logs;
pub use parts::Parts;
pub use queues::Queues;
pub use tables::Tables;
