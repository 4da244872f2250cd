//! The record of a write that a root names is read from the bytes that a store gave.
ghost use Rattle.std.specs.Prelude.{◌≡◌, ◌↔◌, IsTrue};
ghost use Rattle.fw_keep.specs.Catalogue.{AreAscending, ids_of};
ghost use Rattle.fw_keep.specs.Entry.{IsBase, IsBased};
ghost use Rattle.fw_record.specs.OfNode.{IsCheckpointRecordOf, AreChangesOf};
ghost use Rattle.fw_keep.specs.Named.{tag_of_record, HasFrontOfDomain, IsRecordOfFlow, IsRecordNamed, ReadsNamed};

use crate::copies::node_of;
use crate::fetch::entry_at;
use crate::{Entry, KeepFault};
use fw_flow::{Flow, NodeId};
use fw_record::{Checkpoint, Record, RecordFault, decode};
use std::alloc::Global;

/// The tag of a record, as its fourth byte says it.
fn tag_of(what: &Record) -> u8
    ensures { result ≡ tag_of_record what.now }
{
    match what {
        Record::State(_) => 1,
        Record::Event { .. } => 2,
        Record::Changes { .. } => 3,
    }
}

/// Whether the front of a checkpoint is by stamps of the domain of its node.
fn has_front_of_domain(flow: &Flow, checkpoint: &Checkpoint) -> bool
    ensures { IsTrue result ↔ HasFrontOfDomain flow.now checkpoint.now }
{
    checkpoint
        .recorded
        .front
        .is_in_domain(&flow.domain(checkpoint.node))
}

/// Whether it is a whole checkpoint of its node at its front, which is of the node's domain.
fn is_whole_of_flow(flow: &Flow, checkpoint: &Checkpoint) -> bool
    ensures { IsTrue result ↔ (IsCheckpointRecordOf flow.now checkpoint.now.node checkpoint.now.recorded.front checkpoint.now
        × HasFrontOfDomain flow.now checkpoint.now) }
{
    checkpoint.is_of(flow, checkpoint.node, &checkpoint.recorded.front)
        && has_front_of_domain(flow, checkpoint)
}

/// Whether it holds changes of its node at its front, which is of the node's domain.
fn has_changes_of_flow(flow: &Flow, checkpoint: &Checkpoint) -> bool
    ensures { IsTrue result ↔ (AreChangesOf flow.now checkpoint.now.node checkpoint.now.recorded.front checkpoint.now
        × HasFrontOfDomain flow.now checkpoint.now) }
{
    checkpoint.has_changes_of(flow, checkpoint.node, &checkpoint.recorded.front)
        && has_front_of_domain(flow, checkpoint)
}

/// Whether the record can be one of its node in this flow.
fn is_of_flow(flow: &Flow, what: &Record) -> bool
    ensures { IsTrue result ↔ IsRecordOfFlow flow.now what.now }
{
    match what {
        Record::State(checkpoint) => is_whole_of_flow(flow, checkpoint),
        Record::Event { node, event } => event.at().in_domain(&flow.domain(*node)),
        Record::Changes { checkpoint, .. } => has_changes_of_flow(flow, checkpoint),
    }
}

/// Whether the entry of an id is there, and a checkpoint of the node.
fn is_base(entries: &[Entry], id: u64, node: NodeId) -> bool
    requires { AreAscending (ids_of entries.now) }
    ensures { IsTrue result ↔ IsBase entries.now id node }
{
    match entry_at(entries, id) {
        Some(entry) => entry.is_checkpoint_of(node),
        None => false,
    }
}

/// Whether the base of a record that holds changes is there, a checkpoint of its node.
fn is_based(entries: &[Entry], what: &Record) -> bool
    requires { AreAscending (ids_of entries.now) }
    ensures { IsTrue result ↔ IsBased entries.now what.now }
{
    match what {
        Record::Changes { base, checkpoint } => is_base(entries, *base, checkpoint.node),
        Record::State(_) | Record::Event { .. } => true,
    }
}

/// Whether the record can be that of the write that is named so, beside these entries.
fn is_named(flow: &Flow, entries: &[Entry], node: NodeId, tag: u8, what: &Record) -> bool
    requires { AreAscending (ids_of entries.now) }
    ensures { IsTrue result ↔ IsRecordNamed flow.now entries.now node tag what.now }
{
    node_of(what) == node
        && tag_of(what) == tag
        && is_of_flow(flow, what)
        && is_based(entries, what)
}

/// The record that the bytes spell, where it can be that of the write that is named so.
pub(crate) fn read_as(
    alloc: Global,
    flow: &Flow,
    entries: &[Entry],
    id: u64,
    node: NodeId,
    tag: u8,
    bytes: Vec<u8>,
) -> Result<Record, KeepFault>
    requires { AreAscending (ids_of entries.now) }
    ensures { ReadsNamed flow.now entries.now id node tag bytes.items result }
{
    match decode(alloc, &bytes) {
        Ok(what) if is_named(flow, entries, node, tag, &what) => Ok(what),
        Err(RecordFault::NoMemory) => Err(KeepFault::NoMemory),
        _ => Err(KeepFault::Damaged { id, bytes }),
    }
}
