//! The parts of a dataflow.
use crate::{FullName, KeyPart, Kind, LoopId, Name, NodeId, Policy};

/// A loop, with its greatest counter.
#[derive(Debug, Drop)]
pub struct Loop {
    /// Its name. No other loop of a `Flow` has it, by `laws::names_are_distinct`.
    pub name: Name,
    /// The greatest counter of a stamp of the loop, from 1 to 1024 in a well-formed flow.
    pub max: u64,
    /// The loop in which it is declared, if in any.
    pub parent: Option<LoopId>,
}

/// A node.
#[derive(Debug, Drop)]
pub struct Node {
    /// Its name. No other node of a `Flow` has it, by `laws::names_are_distinct`.
    pub name: FullName,
    /// What it does.
    pub kind: Kind,
    /// How it is restored after a failure.
    pub policy: Policy,
    /// Where it is a replica of a split node, the part of the keys whose recs come to it. It has no meaning at a kind that is
    /// not `distinct`, `join`, `sum` or `total`.
    pub part: Option<KeyPart>,
}

/// An edge from a sender to a receiver.
#[derive(Debug, Drop)]
pub struct Edge {
    /// Its name. No other edge of a `Flow` has it, by `laws::names_are_distinct`.
    pub name: FullName,
    /// The node that sends on it.
    pub sender: NodeId,
    /// The node to which what is sent on it is delivered.
    pub receiver: NodeId,
}
