//! The engine that keeps what it knows: of each node its table, of each edge what is pending and what may have to be sent
//! again, a catalogue of what was written, batches and outputs, and up to where everything has come. It keeps no list of
//! events, so that an injection, a delivery, a notification and an acknowledgement cost what they change, whatever came before.
//!
//! The store of what nodes write is lent to each step. A step first asks whether it is enabled, then puts what it writes, and
//! then changes: so after a fault of the store the engine stands for the state that it stood for, but after a collection, which
//! sweeps last, for the next one. What was put before the fault may wait for a sweep.
#![tactic(auto)]

mod acknowledgement;
mod auto;
mod engine;
mod feeding;
mod held;
mod looks;
mod outlook;
mod taking;

pub use engine::Engine;
pub use feeding::bag_of;
pub use fw_choose::Outlook;
pub use fw_running::{Effect, EngineFault, Shown, Stepped};
