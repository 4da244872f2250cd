//! Roots: what an engine keeps beside its records, and the bytes of it.
//!
//! It is what a command would put into its store after each step to start again from there; none does so yet. `encode_root`
//! writes the one spelling of a root. `root_head` tells of which texts and of which turn the bytes are. `decode_root` answers Ok exactly for
//! the spellings of roots of a dataflow and its batches, with the root spelled, and else the place of the first broken field.
#![tactic(auto)]

mod codes;
mod extent;
mod fault;
mod fields;
mod head;
pub mod laws;
mod lists;
mod of_flow;
mod parts;
mod reading;
mod root;
mod rules;
mod writing;

pub use fault::{BadRoot, RootFault};
pub use head::root_head;
pub use lists::{
    FrontsOfNodes, NamedWrites, Numbers, OwedStamps, PendingCounts, Printed, SentTables,
};
pub use of_flow::{Role, nodes_as, number_of, place_in};
pub use reading::decode_root;
pub use root::{Digests, Head, Mark, NamedWrite, NodeFronts, OwedAt, PendingAt, Root};
pub use writing::encode_root;
