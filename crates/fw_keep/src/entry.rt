//! The writes of a catalogue.
ghost use Rattle.std.specs.Prelude.{◌≡◌, ◌↔◌, [], IsTrue};
ghost use Rattle.fw_keep.specs.Newest.{is_checkpoint_of, is_written_between, whole_or};
ghost use Rattle.fw_keep.specs.Entry.{lies_within, is_checkpoint_below, is_event_at, IsRecordOn, IsRecordOfEntry};

use crate::same::has_recorded;
use fw_flow::{CountedMessages, Flow, NodeId, Notices, Recorded, Stamps};
use fw_frontier::Front;
use fw_record::{Event, Record};
use fw_time::Stamp;
use std::alloc::Global;

/// What is written.
#[derive(Debug, Drop)]
pub enum Written {
    /// What a node's events in a frontier made: the frontier, with what stands for the events inside, where they are and where
    /// they sent, and how many messages they sent.
    Checkpoint {
        recorded: Recorded,
        stamps: Stamps,
        sent: u64,
    },
    /// An event.
    Event(Event),
}

/// A write of a node.
#[derive(Debug, Drop)]
pub struct Entry {
    /// The id under which its record stands.
    pub id: u64,
    /// The node.
    pub node: NodeId,
    /// What is written.
    pub written: Written,
    /// The id of the write on which it stands: a checkpoint that holds what changed since an earlier one of its node stands on
    /// that one. None where it is whole; an event is.
    pub base: Option<u64>,
    /// On how many writes it stands: its base, that one's base, and so on.
    pub depth: u64,
    /// Whether the write is acknowledged, and not in flight.
    pub acknowledged: bool,
}

/// No stamps: of an event they are not kept.
pub fn no_stamps(alloc: Global) -> Stamps
    ensures { result ≡ record { delivered = []; notified = []; sent = [] } }
{
    Stamps {
        delivered: CountedMessages::of(Vec::new(alloc)),
        notified: Notices::of(Vec::new(alloc)),
        sent: CountedMessages::of(Vec::new(alloc)),
    }
}

impl Entry {
    /// Whether the record can be that of the entry: of a checkpoint of its node in which the same is recorded, of a whole one
    /// (`Record::is_checkpoint_of`) or of changes on the entry's base (`Record::is_changes_of`), or of its event.
    pub fn has_record(&self, flow: &Flow, what: &Record) -> bool
        ensures { IsTrue result ↔ IsRecordOfEntry flow.now self.now what.now }
    {
        match &self.written {
            Written::Checkpoint { recorded, .. } => {
                has_recorded(what, recorded)
                    && is_record_on(what, flow, self.node, &recorded.front, self.base)
            }
            Written::Event(event) => what.is_event_of(self.node, event),
        }
    }

    /// Whether it is a checkpoint of the node.
    pub fn is_checkpoint_of(&self, node: NodeId) -> bool
        ensures { result ≡ is_checkpoint_of node self.now }
    {
        self.node == node && matches!(self.written, Written::Checkpoint { .. })
    }

    /// Its id if it is whole, and else this one.
    pub(crate) fn whole_or(&self, id: u64) -> u64
        ensures { result ≡ whole_or id self.now }
    {
        if self.depth == 0 { self.id } else { id }
    }
}

/// Whether the record can be that of a checkpoint of the node at the frontier: of a whole one where there is no base, and else
/// of changes on it.
fn is_record_on(what: &Record, flow: &Flow, node: NodeId, front: &Front, base: Option<u64>) -> bool
    ensures { IsTrue result ↔ IsRecordOn flow.now node front.now base what.now }
{
    match base {
        Some(id) => what.is_changes_of(flow, node, front, id),
        None => what.is_checkpoint_of(flow, node, front),
    }
}

impl Written {
    /// Whether it lies within a frontier: a checkpoint by its frontier, an event by its stamp.
    pub fn lies_within(&self, front: &Front) -> bool
        ensures { result ≡ lies_within front.now self.now }
    {
        match self {
            Written::Checkpoint { recorded, .. } => recorded.front.subset(front),
            Written::Event(event) => front.contains(event.at()),
        }
    }

    /// Whether it is a checkpoint strictly within a frontier.
    pub fn lies_below(&self, front: &Front) -> bool
        ensures { result ≡ is_checkpoint_below front.now self.now }
    {
        match self {
            Written::Checkpoint { recorded, .. } => {
                recorded.front.subset(front) && !front.subset(&recorded.front)
            }
            Written::Event(_) => false,
        }
    }

    /// Whether it is a checkpoint that lies within a frontier, and not strictly within an earlier one.
    pub fn lies_between(&self, earlier: &Front, front: &Front) -> bool
        ensures { result ≡ is_written_between earlier.now front.now self.now }
    {
        match self {
            Written::Checkpoint { recorded, .. } => {
                recorded.front.subset(front) && !self.lies_below(earlier)
            }
            Written::Event(_) => false,
        }
    }

    /// Whether it is an event at a stamp.
    pub fn is_event_at(&self, at: &Stamp) -> bool
        ensures { result ≡ is_event_at at.now self.now }
    {
        match self {
            Written::Checkpoint { .. } => false,
            Written::Event(event) => {
                let stamp = event.at();
                stamp.leq(at) && at.leq(stamp)
            }
        }
    }
}
