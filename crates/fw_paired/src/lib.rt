//! The kinds of nodes that pair what comes on one of two in-edges with what came on the other, whenever it came.
//!
//! Each later rec meets all earlier ones of its key, so a table keeps all that ever came, and settles nothing. Contracts relate
//! it to a list of arrivals, the latest first, for each list that it may stand for. In which order it has the values of a key
//! they don't say: a table that is restored has them in another one.
#![tactic(auto)]

mod cross;
mod held;
pub mod laws;
mod pair;

pub use cross::Cross;
pub use held::HeldRec;
pub use pair::Pair;
