//! The steps of an engine that are events: a batch is injected, a message delivered, a node notified.
#![tactic(auto)]

mod delivery;
mod injection;
mod logging;
mod notification;
mod outgoing;
mod sending;
mod told;

pub use delivery::{can_deliver, deliver};
pub use injection::{inject, may_inject};
pub use notification::{next_notice, notify, notify_of};
