//! The catalogue of writes: which records of nodes were put into a store, which of them are acknowledged, and which bytes of
//! the store wait to be removed.
//!
//! The store is lent to each call that needs it. What it holds of a catalogue is said by `IsStored`: where it tells its
//! records, there is one under exactly the ids of the entries and those that wait. Where the store may hold what others put
//! (`Keep::share`, `Keep::resumed`), there is one under the id of each entry at least. Each call keeps that.
#![tactic(auto)]

mod chain;
mod copies;
mod entry;
mod fault;
mod fetch;
mod going;
mod joined;
mod keep;
mod named;
mod newest;
mod persist;
mod put;
mod remove;
mod same;
mod sweep;

pub use entry::{Entry, Written, no_stamps};
pub use fault::KeepFault;
pub use going::Going;
pub use keep::Keep;
pub use newest::whole_within;
