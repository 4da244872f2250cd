//! The denotation of a dataflow, computed without any schedule.
#![tactic(auto)]

mod alone;
mod bag;
mod denoting;
mod distinct;
mod family;
mod join;
mod keyed;
mod numbered;
mod outputs;
mod passes;
mod ranks;
mod rounds;
mod timed;

pub(crate) use bag::TimedBag;
pub use denoting::denote;
pub use family::Family;
pub use timed::Timed;
