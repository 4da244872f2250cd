//! What an engine keeps, the states of the machine for which it stands, and what its steps promise.
#![tactic(auto)]

mod asking;
mod fault;
mod ready;
mod refreshing;
mod running;
mod shown;
mod stepped;

pub use fault::EngineFault;
pub use ready::Ready;
pub use running::{Running, is_failed, no_stamps, takes_checkpoints};
pub use shown::Shown;
pub use stepped::{Effect, Stepped};
