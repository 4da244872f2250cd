//! What a collection gives up, as plain data.
use fw_flow::{NodeId, OfEdge};
use fw_frontier::Front;
use fw_time::Stamp;

/// A frontier of a node.
#[derive(Debug, Drop)]
pub struct OfNode {
    /// The node.
    pub node: NodeId,
    /// The frontier, of the node's domain.
    pub front: Front,
}

/// A stamp of a node's events.
#[derive(Debug, Drop)]
pub struct AtNode {
    /// The node.
    pub node: NodeId,
    /// The stamp, of the node's domain.
    pub at: Stamp,
}

/// What a collection gives up.
#[derive(Debug, Drop)]
pub struct Drops {
    /// Of these nodes the checkpoints strictly within the frontier, on which none stands that stays.
    pub records: Vec<OfNode>,
    /// Of these nodes the logged events at the stamp.
    pub events: Vec<AtNode>,
    /// Of what was sent on these edges and may be sent again the messages at the stamps inside the frontier.
    pub messages: Vec<OfEdge>,
    /// Of these inputs the batches of the epochs inside the frontier.
    pub batches: Vec<OfNode>,
}
