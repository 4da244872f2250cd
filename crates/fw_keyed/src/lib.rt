//! The kinds of nodes that look at what came at one time by its key or its rec.
//!
//! Their tables are generic over the type of times, so that they serve loops of every depth. Each call but one that
//! says so may want memory. Where it is refused the table still is that of what came before, and each later such call
//! fails.
#![tactic(auto)]

mod distinct;
mod join;
mod sum;

pub use distinct::Distinct;
pub use join::Join;
pub use sum::Sum;
