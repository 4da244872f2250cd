//! The steps of a run.
ghost use Rattle.std.specs.Prelude.{◌≡◌};

use crate::{EdgeId, NodeId};
use fw_time::Stamp;
use std::marker::Model;

/// Some nodes, in any order. Contracts see their list.
#[derive(Debug, Drop)]
pub struct Nodes {
    nodes: Vec<NodeId>,
}

impl Model for Nodes {
    ghost use Rattle.std.specs.Prelude.{ℕ, List};

    ghost Value = { List ℕ };

    ghost view = { λ nodes. nodes.nodes.items };
}

impl Nodes {
    /// These nodes, in this order.
    pub fn new(nodes: Vec<NodeId>) -> Self
        ensures { result ≡ nodes.items }
    {
        Nodes { nodes }
    }

    /// The nodes as a slice.
    pub fn as_slice(&self) -> &[NodeId]
        ensures { result.now ≡ self.now }
    {
        self.nodes.as_slice()
    }
}

/// A step of a run, one atomic event of a node, the store or the monitor, or a failure.
#[derive(Debug, Drop)]
pub enum Step {
    /// The input sends its next batch.
    Inject(NodeId),
    /// The receiver takes the least rec that is pending on the edge, at the stamp or at the least one; on an edge of
    /// numbers only the next number.
    Deliver(EdgeId, Option<Stamp>),
    /// The node is notified of the stamp, or of the least one that it may be notified of.
    Notify(NodeId, Option<Stamp>),
    /// What is complete becomes settled.
    Progress,
    /// The node asks a checkpoint of what is settled.
    Checkpoint(NodeId),
    /// The oldest write in flight is acknowledged.
    Persist,
    /// The nodes fail.
    Fail(Nodes),
    /// The failed nodes are restored.
    Recover,
    /// The low watermark is taken anew, and what lies below it is forgotten.
    Collect,
    /// The output acknowledges its next stamp.
    Ack(NodeId),
}
