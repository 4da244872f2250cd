//! Frontiers that grow.
use fw_flow::NodeId;
use fw_frontier::Front;

/// A node's frontier that grew.
#[derive(Debug, Drop)]
pub struct Growth {
    /// The node.
    pub node: NodeId,
    /// Its frontier from then on.
    pub front: Front,
}

/// Growths, one after the other.
pub type Growths = Vec<Growth>;
