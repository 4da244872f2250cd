//! What the lines of offers say of a flow.
ghost use Rattle.std.specs.Prelude.{◌≡◌};

use fw_bag::Bag;
use fw_flow::{EdgeId, NodeId, Notices, Side};
use fw_frontier::Front;
use std::marker::Model;

/// The cover that a record tells of a side: of what was delivered on an in-edge, of what was sent on an out-edge, or of what the node
/// was notified of, inside the record's frontier.
#[derive(Debug, Drop)]
pub struct RecordCover {
    /// Of what.
    pub side: Side,
    /// The cover, of the side's domain.
    pub front: Front,
}

/// The covers of a record, in the order of its line. Contracts see their list.
#[derive(Debug, Drop)]
pub struct RecordCovers {
    pub(crate) covers: Vec<RecordCover>,
}

impl Model for RecordCovers {
    ghost use Rattle.std.specs.Prelude.{List};
    ghost use Rattle.fw_offers_text.specs.declared.statement.RecordCover.{RecordCover};

    ghost Value = { List RecordCover };

    ghost view = { λ covers. covers.covers.items };
}

impl RecordCovers {
    /// The covers as a slice.
    pub(crate) fn as_slice(&self) -> &[RecordCover]
        ensures { result.now ≡ self.now }
    {
        &self.covers
    }
}

/// How many messages were sent, by epoch: recs of an epoch and a number, in order. Contracts see their list.
#[derive(Debug, Drop)]
pub struct EpochCounts {
    pub(crate) counts: Bag,
}

impl Model for EpochCounts {
    ghost use Rattle.std.specs.Prelude.{List};
    ghost use Rattle.fw_bag.specs.declared.rec.Rec.{Rec};

    ghost Value = { List Rec };

    ghost view = { λ counts. counts.counts.recs };
}

/// What a line of offers says of a flow.
#[derive(Debug, Drop)]
pub enum Statement {
    /// The node is there and may stay as it is, or it is lost.
    Node {
        node: NodeId,
        present: bool,
    },
    /// The node recorded this frontier, with these covers inside it.
    Record {
        node: NodeId,
        front: Front,
        covers: RecordCovers,
    },
    /// The node can be restored to each frontier from a least one to a greatest one, and to all where that is told.
    Range {
        node: NodeId,
        least: Front,
        greatest: Front,
        and_all: bool,
    },
    /// Messages at these stamps came on the edge.
    Delivered {
        edge: EdgeId,
        stamps: Notices,
    },
    /// Messages at these stamps were sent on the edge.
    Sent {
        edge: EdgeId,
        stamps: Notices,
    },
    /// The node was notified of these stamps.
    Notified {
        node: NodeId,
        stamps: Notices,
    },
    /// So many messages the node sent, by epoch.
    Counts {
        node: NodeId,
        counts: EpochCounts,
    },
}
