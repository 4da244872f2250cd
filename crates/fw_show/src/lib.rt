//! What the files of a store's folder are, told to a person: a line for each. No clause says that it is right.
#![tactic(auto)]

mod fault;
mod files;
mod telling;

pub use fault::ShowFault;
pub use files::show;
