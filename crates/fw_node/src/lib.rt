//! A node at run time: a table of any kind at any depth of loops, with stamps at its border.
//!
//! A `Node` keeps a table in place of its events: what it needs to answer its next event as the node function answers it
//! from the list of the earlier ones. Contracts relate it to each list of events for which it may stand (`IsTableOf`).
#![tactic(auto)]

mod at_time;
mod calls;
mod in_loop;
pub mod laws;
mod making;
mod node;
mod sends;
mod table;

pub(crate) use at_time::AtTime;
pub(crate) use in_loop::InLoop;
pub use node::Node;
pub use sends::Sends;
pub(crate) use table::Table;
