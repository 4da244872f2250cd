//! What the bytes of a file spell.
ghost use Rattle.std.specs.Prelude.{◌≡◌, ℕ, Some};
ghost use Rattle.fw_came.specs.Came as came;

use fw_bytes::ReadFault;
use fw_came::{batch_id, read_batch};
use fw_flow::{Flow, NodeId};
use fw_frontier::Entries;
use fw_record::{Checkpoint, Event, Record, RecordFault, decode};
use fw_root::root_head;
use std::alloc::{AllocError, Global};

/// Tells what record, batch or root the bytes of the file of this name spell, and whether they spell one.
pub(crate) fn tell_bytes(
    alloc: Global,
    flow: Option<&Flow>,
    name: &str,
    bytes: &[u8],
    told: &mut String,
) -> Result<bool, AllocError> {
    if let Ok(head) = root_head(bytes) {
        let (turn, bytes) = (head.turn, bytes.len());
        write!(told, "root turn {turn} bytes {bytes}")?;
        return Ok(true);
    }
    if let Some(place) = batch_named(name) {
        return tell_batch(alloc, flow, place, bytes, told);
    }
    match decode(alloc, bytes) {
        Ok(record) => tell_record(flow, &record, bytes.len(), told),
        Err(RecordFault::BadRecord { at }) => {
            write!(told, "no record: field at byte {at}")?;
            Ok(false)
        }
        Err(RecordFault::NoMemory) => Err(AllocError),
    }
}

// The source and the epoch of the batch whose file has this name; none, where no batch's has.
fn batch_named(name: &str) -> Option<(u32, u32)> {
    batch_under(name.parse::<u64>().ok()?)
}

// The source and the epoch of the batch that stands under an id; none, where none does.
fn batch_under(id: u64) -> Option<(u32, u32)>
    ensures { (source epoch : ℕ) → result ≡ Some (source, epoch) → id ≡ came.batch_id source epoch }
{
    let place = id.checked_sub(1 << 63)?;
    let source = u32::try_from(place >> 24).ok()?;
    let epoch = (place & 0xFF_FFFF) as u32;
    (batch_id(source, epoch) == id).then_some((source, epoch))
}

// Tells the batch of this source and epoch, and whether the bytes spell one.
fn tell_batch(
    alloc: Global,
    flow: Option<&Flow>,
    (source, epoch): (u32, u32),
    bytes: &[u8],
    told: &mut String,
) -> Result<bool, AllocError> {
    match read_batch(alloc, bytes) {
        Ok(batch) => {
            told.push_str("batch node ")?;
            tell_node(flow, NodeId::at(source), told)?;
            let (recs, bytes) = (batch.recs.as_slice().len(), bytes.len());
            let end = if batch.last { " last" } else { "" };
            write!(told, " epoch {epoch} recs {recs}{end} bytes {bytes}")?;
            Ok(true)
        }
        Err(ReadFault::Broken { left }) => {
            let at = bytes.len().saturating_sub(left);
            write!(told, "no record: field at byte {at}")?;
            Ok(false)
        }
        Err(ReadFault::NoMemory) => Err(AllocError),
    }
}

// Tells a record, and how many bytes spell it; the answer is that they do.
fn tell_record(
    flow: Option<&Flow>,
    record: &Record,
    bytes: usize,
    told: &mut String,
) -> Result<bool, AllocError> {
    tell_kept(flow, record, told)?;
    write!(told, " bytes {bytes}")?;
    Ok(true)
}

// Tells what is kept of a node.
fn tell_kept(flow: Option<&Flow>, record: &Record, told: &mut String) -> Result<(), AllocError> {
    match record {
        Record::State(checkpoint) => {
            told.push_str("checkpoint node ")?;
            tell_checkpoint(flow, checkpoint, told)
        }
        Record::Event { node, event } => {
            told.push_str("event node ")?;
            tell_node(flow, *node, told)?;
            tell_event(event, told)
        }
        Record::Changes { base, checkpoint } => {
            write!(told, "changes on {base} node ")?;
            tell_checkpoint(flow, checkpoint, told)
        }
    }
}

// Tells whose checkpoint it is and what it has.
fn tell_checkpoint(
    flow: Option<&Flow>,
    checkpoint: &Checkpoint,
    told: &mut String,
) -> Result<(), AllocError> {
    tell_node(flow, checkpoint.node, told)?;
    let Entries::Totals(totals) = &checkpoint.state.entries;
    let (sent, totals) = (checkpoint.state.sent, totals.as_slice().len());
    let (front, logged) = (&checkpoint.recorded.front, checkpoint.log.as_slice().len());
    write!(told, " {front} sent {sent} totals {totals} logged {logged}")
}

// Tells what happened to a node.
fn tell_event(event: &Event, told: &mut String) -> Result<(), AllocError> {
    match event {
        Event::Deliver { edge, at, rec } => {
            let edge = edge.place();
            write!(told, " deliver edge {edge} at {at} {rec}")
        }
        Event::Notify { at } => write!(told, " notify at {at}"),
    }
}

// Tells a node by its name, or by its number where no flow is given or the flow has no such node.
fn tell_node(flow: Option<&Flow>, node: NodeId, told: &mut String) -> Result<(), AllocError> {
    let place = node.place();
    match flow {
        Some(flow) if (place as usize) < flow.nodes() => {
            told.push_str(flow.node_name(node).as_str())
        }
        _ => write!(told, "{place}"),
    }
}
