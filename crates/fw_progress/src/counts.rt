//! What decides which frontiers are complete.
use crate::tally::Tally;
use fw_flow::SentTable;

/// What of the events decides which frontiers are complete. Contracts see its parts.
#[derive(Debug, Drop)]
pub struct Counts {
    /// For each edge how many messages are pending on it, by stamp.
    pub pending: Vec<Tally>,
    /// For each node the stamps of which it is owed a notification.
    pub owed: Vec<Tally>,
    /// For each node how many batches it has.
    pub batches: Vec<u64>,
    /// For each node how many of them it injected.
    pub injected: Vec<u64>,
    /// For each node how many messages it sent, by epoch, if it is a sequence.
    pub sent: Vec<SentTable>,
}
