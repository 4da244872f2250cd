//! What nodes offer to a recovery, for every kind and policy, by what an engine knows of them.
//!
//! An engine tells of each node where its events are, what is settled and what its low watermark is (`NodeView`); which writes
//! were not collected tell the entries of its catalogue (`fw_keep::Entry`). `offers_of` makes of them the offers from which
//! `largest` of `fw_monitor` chooses.
#![tactic(auto)]

mod below;
mod offering;
mod offers;
mod view;

pub use below::{cut_below, unlogged};
pub use offers::offers_of;
pub use view::{Border, NodeView};
