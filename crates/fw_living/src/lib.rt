//! What a session has to offer so that lines can be answered over it: a trait, which a session over a store in memory has.
#![tactic(auto)]

mod fault;
mod living;
mod session;

pub use fault::LifeFault;
pub use living::Living;
