//! The trail of a descent: what it lowered to find the choice of a recovery.
ghost use Rattle.std.specs.Prelude.{◌≡◌};

use crate::{Cut, EdgeId, NodeId};
use std::marker::Model;

/// Which of a node's two values in a choice.
#[derive(Clone, Copy, Debug)]
pub enum Part {
    /// Its cut.
    Cut,
    /// Its notification frontier.
    Note,
}

/// What did not hold at a node, so that one of its values had to be lowered.
#[derive(Clone, Copy, Debug)]
pub enum Cause {
    /// What was delivered on the in-edge inside the cut comes from what the edge's sender keeps.
    Delivered(EdgeId),
    /// What was sent on the out-edge inside the cut, and cannot be sent again, lies in what the edge's receiver keeps.
    Discarded(EdgeId),
    /// What the node was notified of inside the cut lies in its notification frontier.
    Notified,
    /// The notification frontier lies in what the node keeps.
    Own,
    /// The notification frontier comes from that of the in-edge's sender.
    Note(EdgeId),
}

/// One lowering of a descent.
#[derive(Debug, Drop)]
pub struct Lowering {
    /// The node one of whose values was lowered.
    pub node: NodeId,
    /// Which one.
    pub part: Part,
    /// To what; a notification frontier is told as the cut at it.
    pub to: Cut,
    /// The first that did not hold.
    pub by: Cause,
}

/// The lowerings of a descent, in order. Contracts see their list.
#[derive(Debug, Drop)]
pub struct Trail {
    lowerings: Vec<Lowering>,
}

impl Model for Trail {
    ghost use Rattle.std.specs.Prelude.{List};
    ghost use Rattle.fw_flow.specs.declared.trail.Lowering.{Lowering};

    ghost Value = { List Lowering };

    ghost view = { λ trail. trail.lowerings.items };
}

impl Trail {
    /// These lowerings.
    pub fn of(lowerings: Vec<Lowering>) -> Self
        ensures { result ≡ lowerings.items }
    {
        Trail { lowerings }
    }

    /// The lowerings, in order.
    pub fn as_slice(&self) -> &[Lowering]
        ensures { result.now ≡ self.now }
    {
        &self.lowerings
    }
}
