//! Single fields: what stands at the front of the bytes, and the bytes after it; nothing where the bytes end inside.
ghost use Rattle.fw_bytes.specs.Fields.{sent_count_of};
ghost use Rattle.fw_bytes.specs.Reading.{IsField};
ghost use Rattle.fw_root.specs.Fields.{bytes_field, named_write_field, pending_at_field, owed_at_field};

use crate::{NamedWrite, OwedAt, PendingAt};
use fw_bytes::{byte_at, stamp_at, u32_at, u64_at};
use fw_flow::{EdgeId, NodeId};
use fw_frontier::SentCount;

/// So many bytes, as they are.
pub fn bytes_at(count: u64, bytes: &[u8]) -> Option<(&[u8], &[u8])>
    ensures { IsField (λ x. (x.0.now, x.1.now)) result (bytes_field count bytes.now) }
{
    if (bytes.len() as u64) < count {
        return None;
    }
    Some(bytes.split_at(count as usize))
}

/// A digest of 32 bytes.
pub fn digest_at(bytes: &[u8]) -> Option<([u8; 32], &[u8])>
    ensures { IsField (λ x. (x.0, x.1.now)) result (bytes_field 32 bytes.now) }
{
    let (digest, rest) = bytes.split_first_chunk::<32>()?;
    Some((*digest, rest))
}

/// An id, a node and a tag.
#[tactic(auto, unfolding(crate::specs::Fields::named_write_field))]
pub fn named_write_at(bytes: &[u8]) -> Option<(NamedWrite, &[u8])>
    ensures { IsField (λ x. (x.0, x.1.now)) result (named_write_field bytes.now) }
{
    let (id, rest) = u64_at(bytes)?;
    let (node, rest) = u32_at(rest)?;
    let (tag, rest) = byte_at(rest)?;
    Some((NamedWrite { id, node, tag }, rest))
}

/// An edge, a stamp and a count.
#[tactic(auto, unfolding(crate::specs::Fields::pending_at_field))]
pub fn pending_at_at(bytes: &[u8]) -> Option<(PendingAt, &[u8])>
    ensures { IsField (λ x. (x.0, x.1.now)) result (pending_at_field bytes.now) }
{
    let (edge, rest) = u32_at(bytes)?;
    let (at, rest) = stamp_at(rest)?;
    let (count, rest) = u64_at(rest)?;
    let edge = EdgeId::at(edge);
    Some((PendingAt { edge, at, count }, rest))
}

/// A node and a stamp.
#[tactic(auto, unfolding(crate::specs::Fields::owed_at_field))]
pub fn owed_at_at(bytes: &[u8]) -> Option<(OwedAt, &[u8])>
    ensures { IsField (λ x. (x.0, x.1.now)) result (owed_at_field bytes.now) }
{
    let (node, rest) = u32_at(bytes)?;
    let (at, rest) = stamp_at(rest)?;
    let node = NodeId::at(node);
    Some((OwedAt { node, at }, rest))
}

/// A stamp and a count.
#[tactic(auto, unfolding(fw_bytes::specs::Fields::sent_count_of))]
pub fn sent_count_at(bytes: &[u8]) -> Option<(SentCount, &[u8])>
    ensures { IsField (λ x. (x.0, x.1.now)) result (sent_count_of bytes.now) }
{
    let (cause, rest) = stamp_at(bytes)?;
    let (count, rest) = u64_at(rest)?;
    Some((SentCount { cause, count }, rest))
}
