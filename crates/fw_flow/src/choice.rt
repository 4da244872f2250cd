//! To what nodes are restored after a failure, and what each of them offers.
use crate::{Causes, CountedMessages, Cuts, EdgeId, Fronts, Notices, OfEdges, Records, SentTable};
use fw_frontier::Front;
use fw_time::Stamp;
use std::fmt;

/// To what a node is cut.
#[derive(Debug, Drop)]
pub enum Cut {
    /// It keeps its state as it is; its set is all.
    Present,
    /// It keeps what its events in the frontier made.
    At(Front),
}

impl fmt::Display for Cut {
    ghost use Rattle.std.specs.Prelude.{Some};
    ghost use Rattle.fw_flow.specs.CutText.{cut_text};

    ghost output = { λ cut. Some (cut_text cut) };

    fn fmt<W: fmt::Write>(&self, f: &mut fmt::Formatter<W>) -> fmt::Result {
        match self {
            Cut::Present => write!(f, "present"),
            Cut::At(front) => write!(f, "{front}"),
        }
    }
}

/// For each node to what it is cut, and its notification frontier.
#[derive(Debug, Drop)]
pub struct Choice {
    /// To what each node is cut.
    pub cuts: Cuts,
    /// The notification frontier of each node: what it was notified of inside its cut lies in it.
    pub notices: Fronts,
}

/// Messages of an edge with one stamp and the same causes.
#[derive(Debug, Drop)]
pub struct Counted {
    /// The edge that they were sent on.
    pub edge: EdgeId,
    /// Their stamp, in the receiver's domain.
    pub at: Stamp,
    /// Stamps of the sender, each of which sends as one of its events did that they come from.
    pub causes: Causes,
    /// How many they are.
    pub count: u64,
}

/// Where a node's events are, and what it sent, with stamps that send as its events did: each in any order.
#[derive(Debug, Drop)]
pub struct Stamps {
    /// What was delivered to it, on its in-edges.
    pub delivered: CountedMessages,
    /// Of what it was notified.
    pub notified: Notices,
    /// What it sent, on its out-edges.
    pub sent: CountedMessages,
}

/// A frontier of an edge.
#[derive(Debug, Drop)]
pub struct OfEdge {
    /// The edge.
    pub edge: EdgeId,
    /// The frontier, of the domain of the edge's receiver.
    pub front: Front,
}

/// A frontier that a node recorded, with what stands for its events inside. Of a node that is not restored by checkpoints
/// the frontier alone counts.
#[derive(Debug, Drop)]
pub struct Recorded {
    /// The frontier, of the node's domain.
    pub front: Front,
    /// The cover of what it was notified of.
    pub notified: Front,
    /// The cover of what was delivered to it, for each in-edge; nothing on an edge that is not listed.
    pub delivered: OfEdges,
    /// The cover of what it sent and cannot send again, for each out-edge; nothing on an edge that is not listed.
    pub discarded: OfEdges,
}

/// The frontiers to which a node can be restored.
#[derive(Debug, Drop)]
pub enum Offered {
    /// These.
    Listed(Records),
    /// All from a least one to a greatest one.
    Between {
        least: Front,
        greatest: Front,
    },
    /// Those of a source: all from a least one to a greatest one, below which lie the batches that it injected; and on top
    /// of them all, where it is exhausted. What it sent stands in the offer's stamps, each message with one cause.
    Batches {
        least: Front,
        greatest: Front,
        exhausted: bool,
    },
}

/// What a node offers to a recovery.
#[derive(Debug, Drop)]
pub struct Offer {
    /// Whether it can stay as it is.
    pub present: bool,
    /// The frontiers to which it can be restored, with what stands for its events inside.
    pub offered: Offered,
    /// Where its events are, and where they sent, as it stands now.
    pub stamps: Stamps,
    /// How many messages it sent, by epoch, if it is a sequence; else nothing.
    pub table: SentTable,
}
