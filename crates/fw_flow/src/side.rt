//! What has to hold at a choice.
use crate::{EdgeId, NodeId};

/// What of a node's events in a cut has to lie within what is kept elsewhere.
#[derive(Clone, Copy, Debug)]
pub enum Side {
    /// What was delivered on the edge to its receiver.
    Delivered(EdgeId),
    /// What its sender sent on the edge and cannot send again.
    Discarded(EdgeId),
    /// Of what the node was notified.
    Notified(NodeId),
}

/// In what a node's notification frontier has to lie.
#[derive(Clone, Copy, Debug)]
pub enum Limit {
    /// In what the node keeps.
    Own(NodeId),
    /// In what comes on the edge from the notification frontier of its sender.
    Note(EdgeId),
}

/// What has to hold at a choice.
#[derive(Clone, Copy, Debug)]
pub enum Inclusion {
    /// The side lies in what it has to lie in.
    OfCut(Side),
    /// The notification frontier lies within its limit.
    OfNote(Limit),
}
