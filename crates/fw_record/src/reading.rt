//! Reading records.
ghost use Rattle.std.specs.Prelude.{◌≡◌, ◌==◌, [], IfOk};
ghost use Rattle.std.specs.Int.{w16, w32};
ghost use Rattle.fw_bytes.specs.Fields.{byte_of, number_field};
ghost use Rattle.fw_bytes.specs.Reading.{Gives, kept_if, many_of};
ghost use Rattle.fw_record.specs.Reading.{Decodes, IsOkOrNoMemory, is_event_byte, is_version, is_tag, of_edge_of, of_edges_of, totals_of, read_entries, read_state, read_log, read_checkpoint, read_changes, key_and_value_of, delivery_of, read_notice, read_event, event_record_of, state_record_of, changes_record_of, other_record_of, tag_of, read_whole_record, whole_of};
ghost use Rattle.fw_record.specs.Sound.{IsSound, may_follow_edges};
ghost use Rattle.fw_record.specs.Spelling.{spelling, version_of};
ghost use Rattle.fw_record.specs.declared.record.Record.{Record as Spelled};

use crate::codes::{CHANGES, CHECKPOINT, DELIVERY, EVENT, MAGIC, NOTICE, SECOND_VERSION, VERSION};
use crate::parts::{messages_at, recs_at};
use crate::rules::follows_edges;
use crate::{Checkpoint, Event, Log, Record, RecordFault};
use fw_bag::{Rec, Recs};
use fw_bytes::{
    ReadFault, any_stamp, any_u32, any_u64, byte_at, front_at, sent_counts_at, u16_at, u32_at,
};
use fw_flow::{EdgeId, NodeId, OfEdge, OfEdges, Recorded};
use fw_frontier::{Entries, State};
use std::alloc::Global;

/// The next edge.
fn next_edge<'a>(before: &[OfEdge], bytes: &'a [u8]) -> Result<(u32, &'a [u8]), ReadFault>
    ensures { Gives (λ x. (x.0, x.1.now)) result
        (kept_if (may_follow_edges before.now) bytes.now (number_field w32 bytes.now)) }
{
    match u32_at(bytes) {
        Some((edge, rest)) if follows_edges(before, edge) => Ok((edge, rest)),
        _ => Err(ReadFault::Broken { left: bytes.len() }),
    }
}

/// The next edge and its front.
#[tactic(auto, unfolding(crate::specs::Reading::of_edge_of))]
fn next_of_edge<'a>(
    alloc: Global,
    before: &[OfEdge],
    bytes: &'a [u8],
) -> Result<(OfEdge, &'a [u8]), ReadFault>
    ensures { Gives (λ x. (x.0, x.1.now)) result (of_edge_of before.now bytes.now) }
{
    let (edge, rest) = next_edge(before, bytes)?;
    let (front, rest) = front_at(alloc, rest)?;
    let edge = EdgeId::at(edge);
    Ok((OfEdge { edge, front }, rest))
}

/// So many edges with their fronts.
fn of_edges_from(alloc: Global, count: u32, bytes: &[u8]) -> Result<(Vec<OfEdge>, &[u8]), ReadFault>
    ensures { Gives (λ x. (x.0.items, x.1.now)) result (many_of of_edge_of count [] bytes.now) }
{
    let mut parts = Vec::new(alloc);
    let mut rest = bytes;
    for _ in 0..count {
        let (part, after) = next_of_edge(alloc, &parts, rest)?;
        parts.push(part)?;
        rest = after;
    }
    Ok((parts, rest))
}

/// A count, and that many edges with their fronts.
#[tactic(auto, unfolding(crate::specs::Reading::of_edges_of))]
fn of_edges_at(alloc: Global, bytes: &[u8]) -> Result<(OfEdges, &[u8]), ReadFault>
    ensures { Gives (λ x. (x.0, x.1.now)) result (of_edges_of bytes.now) }
{
    let (count, rest) = any_u32(bytes)?;
    let (fronts, rest) = of_edges_from(alloc, count, rest)?;
    Ok((OfEdges::of(fronts), rest))
}

/// A count, and that many totals.
#[tactic(auto, unfolding(crate::specs::Reading::totals_of))]
fn totals_at(alloc: Global, bytes: &[u8]) -> Result<(Recs, &[u8]), ReadFault>
    ensures { Gives (λ x. (x.0, x.1.now)) result (totals_of bytes.now) }
{
    let (count, rest) = any_u64(bytes)?;
    let (totals, rest) = recs_at(alloc, count, rest)?;
    Ok((Recs::of(totals), rest))
}

/// What a node holds: its totals.
#[tactic(auto, unfolding(crate::specs::Reading::read_entries))]
fn entries_at(alloc: Global, bytes: &[u8]) -> Result<(Entries, &[u8]), ReadFault>
    ensures { Gives (λ x. (x.0, x.1.now)) result (read_entries bytes.now) }
{
    let (totals, rest) = totals_at(alloc, bytes)?;
    Ok((Entries::Totals(totals), rest))
}

/// A node's table: how many messages it sent, how many from where, and what it holds.
#[tactic(auto, unfolding(crate::specs::Reading::read_state))]
fn state_at(alloc: Global, bytes: &[u8]) -> Result<(State, &[u8]), ReadFault>
    ensures { Gives (λ x. (x.0, x.1.now)) result (read_state bytes.now) }
{
    let (sent, rest) = any_u64(bytes)?;
    let (sends, rest) = sent_counts_at(alloc, rest)?;
    let (entries, rest) = entries_at(alloc, rest)?;
    let state = State {
        sent,
        sends,
        entries,
    };
    Ok((state, rest))
}

/// A count, and that many logged messages.
#[tactic(auto, unfolding(crate::specs::Reading::read_log))]
fn log_at(alloc: Global, bytes: &[u8]) -> Result<(Log, &[u8]), ReadFault>
    ensures { Gives (λ x. (x.0, x.1.now)) result (read_log bytes.now) }
{
    let (count, rest) = any_u64(bytes)?;
    let (messages, rest) = messages_at(alloc, count, rest)?;
    Ok((Log::of(messages), rest))
}

/// A checkpoint: its node, the frontier, what it covers, the state and the log.
#[tactic(auto, unfolding(crate::specs::Reading::read_checkpoint))]
fn checkpoint_at(alloc: Global, bytes: &[u8]) -> Result<(Checkpoint, &[u8]), ReadFault>
    ensures { Gives (λ x. (x.0, x.1.now)) result (read_checkpoint bytes.now) }
{
    let (node, rest) = any_u32(bytes)?;
    let (front, rest) = front_at(alloc, rest)?;
    let (notified, rest) = front_at(alloc, rest)?;
    let (delivered, rest) = of_edges_at(alloc, rest)?;
    let (discarded, rest) = of_edges_at(alloc, rest)?;
    let (state, rest) = state_at(alloc, rest)?;
    let (log, rest) = log_at(alloc, rest)?;
    let recorded = Recorded {
        front,
        notified,
        delivered,
        discarded,
    };
    let checkpoint = Checkpoint {
        node: NodeId::at(node),
        recorded,
        state,
        log,
    };
    Ok((checkpoint, rest))
}

/// Changes, with the id of their base.
#[tactic(auto, unfolding(crate::specs::Reading::read_changes))]
fn changes_at(alloc: Global, bytes: &[u8]) -> Result<((u64, Checkpoint), &[u8]), ReadFault>
    ensures { Gives (λ x. (x.0, x.1.now)) result (read_changes bytes.now) }
{
    let (node, rest) = any_u32(bytes)?;
    let (front, rest) = front_at(alloc, rest)?;
    let (base, rest) = any_u64(rest)?;
    let (notified, rest) = front_at(alloc, rest)?;
    let (delivered, rest) = of_edges_at(alloc, rest)?;
    let (discarded, rest) = of_edges_at(alloc, rest)?;
    let (state, rest) = state_at(alloc, rest)?;
    let (log, rest) = log_at(alloc, rest)?;
    let recorded = Recorded {
        front,
        notified,
        delivered,
        discarded,
    };
    let checkpoint = Checkpoint {
        node: NodeId::at(node),
        recorded,
        state,
        log,
    };
    Ok(((base, checkpoint), rest))
}

/// A key and a value, each a field.
#[tactic(auto, unfolding(crate::specs::Reading::key_and_value_of))]
fn key_and_value_at(bytes: &[u8]) -> Result<(Rec, &[u8]), ReadFault>
    ensures { Gives (λ x. (x.0, x.1.now)) result (key_and_value_of bytes.now) }
{
    let (key, rest) = any_u64(bytes)?;
    let (value, rest) = any_u64(rest)?;
    Ok((Rec { key, value }, rest))
}

/// A delivery.
#[tactic(auto, unfolding(crate::specs::Reading::delivery_of))]
fn delivery_at(bytes: &[u8]) -> Result<(Event, &[u8]), ReadFault>
    ensures { Gives (λ x. (x.0, x.1.now)) result (delivery_of bytes.now) }
{
    let (edge, rest) = any_u32(bytes)?;
    let (at, rest) = any_stamp(rest)?;
    let (rec, rest) = key_and_value_at(rest)?;
    let edge = EdgeId::at(edge);
    Ok((Event::Deliver { edge, at, rec }, rest))
}

/// A notification.
#[tactic(auto, unfolding(crate::specs::Reading::read_notice))]
fn notice_at(bytes: &[u8]) -> Result<(Event, &[u8]), ReadFault>
    ensures { Gives (λ x. (x.0, x.1.now)) result (read_notice bytes.now) }
{
    let (at, rest) = any_stamp(bytes)?;
    Ok((Event::Notify { at }, rest))
}

/// The byte that tells a delivery, 1, from a notification, 2.
fn event_byte_at(bytes: &[u8]) -> Result<(u8, &[u8]), ReadFault>
    ensures { Gives (λ x. (x.0, x.1.now)) result
        (kept_if is_event_byte bytes.now (byte_of bytes.now)) }
{
    match byte_at(bytes) {
        Some((byte, rest)) if byte == DELIVERY || byte == NOTICE => Ok((byte, rest)),
        _ => Err(ReadFault::Broken { left: bytes.len() }),
    }
}

/// An event.
#[tactic(auto, unfolding(crate::specs::Reading::read_event))]
fn event_at(bytes: &[u8]) -> Result<(Event, &[u8]), ReadFault>
    ensures { Gives (λ x. (x.0, x.1.now)) result (read_event bytes.now) }
{
    let (byte, rest) = event_byte_at(bytes)?;
    if byte == DELIVERY {
        delivery_at(rest)
    } else {
        notice_at(rest)
    }
}

/// A node and one of its events.
#[tactic(auto, unfolding(crate::specs::Reading::event_record_of))]
fn event_record_at(bytes: &[u8]) -> Result<(Record, &[u8]), ReadFault>
    ensures { Gives (λ x. (x.0, x.1.now)) result (event_record_of bytes.now) }
{
    let (node, rest) = any_u32(bytes)?;
    let (event, rest) = event_at(rest)?;
    let node = NodeId::at(node);
    Ok((Record::Event { node, event }, rest))
}

/// A checkpoint as a record.
#[tactic(auto, unfolding(crate::specs::Reading::state_record_of))]
fn state_record_at(alloc: Global, bytes: &[u8]) -> Result<(Record, &[u8]), ReadFault>
    ensures { Gives (λ x. (x.0, x.1.now)) result (state_record_of bytes.now) }
{
    let (checkpoint, rest) = checkpoint_at(alloc, bytes)?;
    Ok((Record::State(checkpoint), rest))
}

/// Changes as a record.
#[tactic(auto, unfolding(crate::specs::Reading::changes_record_of))]
fn changes_record_at(alloc: Global, bytes: &[u8]) -> Result<(Record, &[u8]), ReadFault>
    ensures { Gives (λ x. (x.0, x.1.now)) result (changes_record_of bytes.now) }
{
    let ((base, checkpoint), rest) = changes_at(alloc, bytes)?;
    Ok((Record::Changes { base, checkpoint }, rest))
}

/// An event, or changes, by the tag.
fn other_record_at(alloc: Global, tag: u8, bytes: &[u8]) -> Result<(Record, &[u8]), ReadFault>
    ensures { Gives (λ x. (x.0, x.1.now)) result (other_record_of tag bytes.now) }
{
    if tag == EVENT {
        event_record_at(bytes)
    } else {
        changes_record_at(alloc, bytes)
    }
}

/// The letters FW, one field.
fn magic_at(bytes: &[u8]) -> Result<(u16, &[u8]), ReadFault>
    ensures { Gives (λ x. (x.0, x.1.now)) result
        (kept_if (λ m. m == 18007) bytes.now (number_field w16 bytes.now)) }
{
    match u16_at(bytes) {
        Some((magic, rest)) if magic == MAGIC => Ok((magic, rest)),
        _ => Err(ReadFault::Broken { left: bytes.len() }),
    }
}

/// Whether some tag is of the version.
fn has_tags(version: u8) -> bool
    ensures { result ≡ is_version version }
{
    version == VERSION || version == SECOND_VERSION
}

/// The version.
fn version_at(bytes: &[u8]) -> Result<(u8, &[u8]), ReadFault>
    ensures { Gives (λ x. (x.0, x.1.now)) result
        (kept_if is_version bytes.now (byte_of bytes.now)) }
{
    match byte_at(bytes) {
        Some((version, rest)) if has_tags(version) => Ok((version, rest)),
        _ => Err(ReadFault::Broken { left: bytes.len() }),
    }
}

/// The version that has a tag.
fn version_of(tag: u8) -> u8
    ensures { result ≡ version_of tag }
{
    if tag == CHANGES {
        SECOND_VERSION
    } else {
        VERSION
    }
}

/// Whether a version has the tag.
fn has_tag(version: u8, tag: u8) -> bool
    ensures { result ≡ is_tag version tag }
{
    version == version_of(tag) && (tag == CHECKPOINT || tag == EVENT || tag == CHANGES)
}

/// A tag of the version.
fn version_tag_at(version: u8, bytes: &[u8]) -> Result<(u8, &[u8]), ReadFault>
    ensures { Gives (λ x. (x.0, x.1.now)) result
        (kept_if (is_tag version) bytes.now (byte_of bytes.now)) }
{
    match byte_at(bytes) {
        Some((tag, rest)) if has_tag(version, tag) => Ok((tag, rest)),
        _ => Err(ReadFault::Broken { left: bytes.len() }),
    }
}

/// The head of a record: its tag, behind the letters and the version.
#[tactic(auto, unfolding(crate::specs::Reading::tag_of))]
fn tag_at(bytes: &[u8]) -> Result<(u8, &[u8]), ReadFault>
    ensures { Gives (λ x. (x.0, x.1.now)) result (tag_of bytes.now) }
{
    let (_, rest) = magic_at(bytes)?;
    let (version, rest) = version_at(rest)?;
    version_tag_at(version, rest)
}

/// The record at the front of the bytes.
#[tactic(auto, unfolding(crate::specs::Reading::read_whole_record))]
fn record_at(alloc: Global, bytes: &[u8]) -> Result<(Record, &[u8]), ReadFault>
    ensures { Gives (λ x. (x.0, x.1.now)) result (read_whole_record bytes.now) }
{
    let (tag, rest) = tag_at(bytes)?;
    if tag == CHECKPOINT {
        state_record_at(alloc, rest)
    } else {
        other_record_at(alloc, tag, rest)
    }
}

/// A record and no byte more.
#[tactic(auto, unfolding(crate::specs::Reading::whole_of))]
fn whole(alloc: Global, bytes: &[u8]) -> Result<Record, ReadFault>
    ensures { Gives (λ r. r) result (whole_of bytes.now) }
{
    let (record, rest) = record_at(alloc, bytes)?;
    if !rest.is_empty() {
        return Err(ReadFault::Broken { left: rest.len() });
    }
    Ok(record)
}

/// The record that the bytes spell. It takes memory for what it read alone, whatever counts the bytes have.
///
/// # Errors
///
/// `BadRecord` where they spell none, with the place of the first broken field: one inside which the bytes end, or whose
/// value breaks its rule. `NoMemory` where memory is refused, which may come at any time.
pub fn decode(alloc: Global, bytes: &[u8]) -> Result<Record, RecordFault>
    ensures found { IfOk result (λ r. IsSound r × (bytes.now ≡ spelling r)) }
    ensures only { (r : Spelled) → IsSound r → bytes.now ≡ spelling r → IsOkOrNoMemory r result }
    ensures exact { Decodes bytes.now result }
{
    match whole(alloc, bytes) {
        Ok(record) => Ok(record),
        Err(ReadFault::Broken { left }) => Err(RecordFault::BadRecord {
            at: bytes.len() - left,
        }),
        Err(ReadFault::NoMemory) => Err(RecordFault::NoMemory),
    }
}
