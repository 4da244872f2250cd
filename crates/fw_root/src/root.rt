//! What an engine keeps beside its records.
use crate::{FrontsOfNodes, NamedWrites, Numbers, OwedStamps, PendingCounts, Printed, SentTables};
use fw_flow::{EdgeId, NodeId};
use fw_frontier::Front;
use fw_time::Stamp;

/// The SHA-256 of the three texts of a run.
#[derive(Clone, Copy, Debug)]
pub struct Digests {
    /// That of the flow.
    pub flow: [u8; 32],
    /// That of the inputs.
    pub inputs: [u8; 32],
    /// That of the schedule.
    pub schedule: [u8; 32],
}

/// Of which texts a root is, and of which turn.
#[derive(Clone, Copy, Debug)]
pub struct Head {
    pub digests: Digests,
    /// The number of its turn, the first being 1.
    pub turn: u64,
}

/// Where a run stands in its schedule, and what it printed last.
#[derive(Debug, Drop)]
pub struct Mark {
    pub digests: Digests,
    /// The number of its turn, the first being 1.
    pub turn: u64,
    /// The line of the schedule that is done next, or of which some is done.
    pub line: u64,
    /// How many single steps of that line are done.
    pub singles: u64,
    /// How many steps were counted in all.
    pub steps: u64,
    /// How many of the steps that were tried did nothing.
    pub idle: u64,
    /// The lines that the turn prints.
    pub lines: Printed,
}

/// Three frontiers of a node.
#[derive(Debug, Drop)]
pub struct NodeFronts {
    /// At which times all that comes to the node is recorded.
    pub settled: Front,
    /// To what it is cut at least, whatever fails.
    pub low: Front,
    /// Of a node that logs its events: within settled what has no event that is lost if the node fails. Of another one without
    /// stamps.
    pub third: Front,
}

/// An acknowledged write that was not collected.
#[derive(Clone, Copy, Debug)]
pub struct NamedWrite {
    /// The id of its record.
    pub id: u64,
    /// The place of the node that wrote it.
    pub node: u32,
    /// What kind of write it is, as the record's fourth byte says it.
    pub tag: u8,
}

/// How many messages are pending on an edge at a stamp.
#[derive(Debug, Drop)]
pub struct PendingAt {
    pub edge: EdgeId,
    pub at: Stamp,
    pub count: u64,
}

/// A node that is owed a notification at a stamp.
#[derive(Debug, Drop)]
pub struct OwedAt {
    pub node: NodeId,
    pub at: Stamp,
}

/// What an engine keeps beside its records. Lists by inputs, outputs, nodes and sequences are in order of the nodes.
#[derive(Debug, Drop)]
pub struct Root {
    /// Where the run stands.
    pub mark: Mark,
    /// The id of the next record.
    pub next_id: u64,
    /// For each input how many batches it injected.
    pub injected: Numbers,
    /// For each output up to where it is acknowledged.
    pub bounds: Numbers,
    /// For each node its three frontiers.
    pub fronts: FrontsOfNodes,
    /// The acknowledged writes that were not collected, in order of their ids.
    pub writes: NamedWrites,
    /// The other ids that were drawn, ascending: among them all that may have bytes.
    pub others: Numbers,
    /// What is pending, by edge and stamp.
    pub pending: PendingCounts,
    /// What is owed, by node and stamp.
    pub owed: OwedStamps,
    /// For each sequence how many messages it sent, by epoch.
    pub sends: SentTables,
}
