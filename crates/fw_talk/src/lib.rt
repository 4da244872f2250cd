//! A session of lines as callers in other languages hold it: a flow's text opens it, it answers line after line, and it keeps its last
//! answer. What it answers is what the command `live` writes. Its records are in memory; those of one that lasts are told to its holder,
//! who keeps them, and tells them to the next one.
#![tactic(auto)]

mod boxed;
mod lasting;
mod reply;
mod talk;

pub use reply::{Reply, Unstarted};
pub use talk::{Speaker, Talk};
