//! What an entry takes of a record.
ghost use Rattle.std.specs.Prelude.{◌≡◌, IfOk};
ghost use Rattle.fw_keep.specs.Entry.{base_of_record, written_of, node_of_record};

use crate::Written;
use fw_flow::{NodeId, Stamps};
use fw_record::Record;
use std::alloc::AllocError;

/// The node of a record.
pub(crate) fn node_of(what: &Record) -> NodeId
    ensures { result ≡ node_of_record what.now }
{
    match what {
        Record::State(checkpoint) | Record::Changes { checkpoint, .. } => checkpoint.node,
        Record::Event { node, .. } => *node,
    }
}

/// The id of the base of a record, if it holds changes.
pub(crate) fn base_of(what: &Record) -> Option<u64>
    ensures { result ≡ base_of_record what.now }
{
    match what {
        Record::Changes { base, .. } => Some(*base),
        Record::State(_) | Record::Event { .. } => None,
    }
}

/// What is written by a record. The error is want of memory.
pub(crate) fn written_of(what: &Record, stamps: Stamps) -> Result<Written, AllocError>
    ensures { IfOk result (λ w. w ≡ written_of what.now stamps) }
{
    match what {
        Record::State(checkpoint) | Record::Changes { checkpoint, .. } => Ok(Written::Checkpoint {
            recorded: checkpoint.recorded.copy()?,
            stamps,
            sent: checkpoint.state.sent,
        }),
        Record::Event { event, .. } => Ok(Written::Event(event.copy())),
    }
}
