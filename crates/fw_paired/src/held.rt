//! What a table holds, one rec after the other.
use fw_bag::Rec;
use fw_time::Stamp;

/// A rec that came to a node and that it holds. Held recs are ordered by in-edge, stamp and rec.
#[derive(Debug, PartialEq, Eq, PartialOrd, Ord, Drop)]
pub struct HeldRec {
    /// The in-edge on which it came, by its place among the node's.
    pub side: usize,
    /// The stamp at which it came.
    pub at: Stamp,
    /// The rec.
    pub rec: Rec,
}
