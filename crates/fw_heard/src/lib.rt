//! What an object of the outside was answered, noted for clauses alone.
#![tactic(auto)]

mod heard;

pub use heard::Heard;
