//! What an engine knows of its nodes, to say what they offer to a recovery.
use fw_flow::{Notices, SentTable, Stamps};
use fw_frontier::Front;

/// Where a node meets what is outside.
#[derive(Clone, Copy, Debug)]
pub enum Border {
    /// It does not.
    Inner,
    /// It is an input that injected so many batches, and perhaps all of them.
    Source { injected: u64, exhausted: bool },
    /// It is an output that acknowledged so many stamps.
    Output { bound: u64 },
}

/// What is known of a node.
#[derive(Debug, Drop)]
pub struct NodeView {
    /// Where its events are and where they sent. They may be thinned: of the stamps inside its base, which is what is settled
    /// where it takes checkpoints and else a floor, as its low watermark, the greatest are enough; below a floor some may be
    /// missing. Of the numbers that a sequence sent the last is enough. Of a node that counts as failed less is enough: of an
    /// input all of this, of one that logs its events the stamps that are logged, and of another one none.
    pub stamps: Stamps,
    /// How many messages it sent, by epoch, if it is a sequence; else it plays no part.
    pub table: SentTable,
    /// What is settled.
    pub settled: Front,
    /// The low watermark.
    pub low: Front,
    /// Where it meets what is outside.
    pub border: Border,
    /// At which stamps events were lost with it, that were in flight to the store: enough of them that each stamp that is
    /// settled lies at or above one of these where it lies at or above one that was lost, and else not.
    pub lost: Notices,
    /// Whether it counts as failed.
    pub failed: bool,
}
