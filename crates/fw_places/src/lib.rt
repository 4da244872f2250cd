//! Sets of places of nodes or edges.
#![tactic(auto)]

mod places;

pub use places::Places;
