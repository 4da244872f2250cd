//! The largest choice by what an engine keeps, and the step of a collection.
#![tactic(auto)]

mod collection;
mod outlook;
mod viewing;

pub use collection::{collect, raise_low};
pub use outlook::{Outlook, choose, outlook_of};
pub use viewing::Lost;
