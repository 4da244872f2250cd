//! What a record holds.
ghost use Rattle.std.specs.Prelude.{◌≡◌};
ghost use Rattle.fw_record.specs.Event.{stamp_of_event};

use crate::Log;
use fw_bag::Rec;
use fw_flow::{EdgeId, NodeId, Recorded};
use fw_frontier::State;
use fw_time::Stamp;

/// What a node's events inside a frontier made: from it the node is restored.
///
/// In `Record::Changes` the counts of `state`, its totals and the log are changes alone, and all else is whole.
///
/// It may be one that has no spelling, as where a list is not in order: `IsCheckpoint` says which have one.
#[derive(Debug, Drop)]
pub struct Checkpoint {
    /// The node.
    pub node: NodeId,
    /// The frontier, with what stands for the events inside.
    pub recorded: Recorded,
    /// The node's table.
    pub state: State,
    /// The messages that they sent and that may have to be sent again.
    pub log: Log,
}

/// An event of a node.
#[derive(Debug, PartialEq, Eq, Drop)]
pub enum Event {
    /// The rec was delivered on the edge.
    Deliver { edge: EdgeId, at: Stamp, rec: Rec },
    /// The node was notified of the stamp.
    Notify { at: Stamp },
}

impl Event {
    /// The same event once more.
    pub fn copy(&self) -> Self
        ensures { result ≡ self.now }
    {
        match self {
            Event::Deliver { edge, at, rec } => Event::Deliver {
                edge: *edge,
                at: at.copy(),
                rec: *rec,
            },
            Event::Notify { at } => Event::Notify { at: at.copy() },
        }
    }

    /// The stamp at which it happened.
    pub fn at(&self) -> &Stamp
        ensures { result.now ≡ stamp_of_event self.now }
    {
        match self {
            Event::Deliver { at, .. } | Event::Notify { at } => at,
        }
    }
}

/// What a store keeps of a node.
#[derive(Debug, Drop)]
pub enum Record {
    /// What its events inside a frontier made.
    State(Checkpoint),
    /// One of its events.
    Event { node: NodeId, event: Event },
    /// What its events inside a frontier made, as changes since the checkpoint under the id `base`, which lies inside: what was
    /// counted and logged since, and the totals of the keys to which something came since.
    Changes { base: u64, checkpoint: Checkpoint },
}
