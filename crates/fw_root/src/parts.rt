//! Lists of parts: each of which may come next after those before it, or one for each node.
ghost use Rattle.std.specs.Prelude.{[]};
ghost use Rattle.fw_bytes.specs.Reading.{Gives, many_of};
ghost use Rattle.fw_root.specs.Reading.{many_for, number_for, next_outside_of, next_sent_of, next_write_of, next_other_of, next_pending_of, next_owed_of};

use crate::extent::Extent;
use crate::fields::{named_write_at, owed_at_at, pending_at_at, sent_count_at};
use crate::of_flow::limit_for;
use crate::rules::{
    follows_others, follows_outside, follows_owed, follows_pending, follows_sends, follows_writes,
};
use crate::{NamedWrite, OwedAt, PendingAt};
use fw_bytes::{ReadFault, stamp_at, u64_at};
use fw_flow::{Flow, NodeId};
use fw_frontier::SentCount;
use fw_lines::Batches;
use fw_time::{Bounds, Stamp};
use std::alloc::Global;

/// The number of a node.
fn next_number<'a>(
    flow: &Flow,
    batches: &Batches,
    node: NodeId,
    bytes: &'a [u8],
) -> Result<(u64, &'a [u8]), ReadFault>
    ensures { Gives (λ x. (x.0, x.1.now)) result (number_for flow.now batches.now node bytes.now) }
{
    let limit = limit_for(flow, batches, node);
    match u64_at(bytes) {
        Some((number, rest)) if number <= limit => Ok((number, rest)),
        _ => Err(ReadFault::Broken { left: bytes.len() }),
    }
}

/// A number for each of these nodes.
pub fn numbers_at<'a>(
    alloc: Global,
    flow: &Flow,
    batches: &Batches,
    nodes: &[NodeId],
    bytes: &'a [u8],
) -> Result<(Vec<u64>, &'a [u8]), ReadFault>
    ensures { Gives (λ x. (x.0.items, x.1.now)) result
        (many_for (number_for flow.now batches.now) nodes.now [] bytes.now) }
{
    let mut parts = Vec::new(alloc);
    let mut rest = bytes;
    for node in nodes {
        let (part, after) = next_number(flow, batches, *node, rest)?;
        parts.push(part)?;
        rest = after;
    }
    Ok((parts, rest))
}

/// The next outside stamp of a front.
fn next_outside<'a>(
    bounds: &Bounds,
    extent: Extent,
    before: &[Stamp],
    bytes: &'a [u8],
) -> Result<(Stamp, &'a [u8]), ReadFault>
    ensures { Gives (λ x. (x.0, x.1.now)) result (next_outside_of bounds.now extent before.now bytes.now) }
{
    match stamp_at(bytes) {
        Some((part, rest)) if follows_outside(bounds, extent, before, &part) => Ok((part, rest)),
        _ => Err(ReadFault::Broken { left: bytes.len() }),
    }
}

/// So many outside stamps of a front.
pub fn outside_at<'a>(
    alloc: Global,
    bounds: &Bounds,
    extent: Extent,
    count: u32,
    bytes: &'a [u8],
) -> Result<(Vec<Stamp>, &'a [u8]), ReadFault>
    ensures { Gives (λ x. (x.0.items, x.1.now)) result (many_of (next_outside_of bounds.now extent) count [] bytes.now) }
{
    let mut parts = Vec::new(alloc);
    let mut rest = bytes;
    for _ in 0..count {
        let (part, after) = next_outside(bounds, extent, &parts, rest)?;
        parts.push(part)?;
        rest = after;
    }
    Ok((parts, rest))
}

/// The next count of what a sequence sent.
fn next_sent<'a>(
    flow: &Flow,
    node: NodeId,
    before: &[SentCount],
    bytes: &'a [u8],
) -> Result<(SentCount, &'a [u8]), ReadFault>
    ensures { Gives (λ x. (x.0, x.1.now)) result (next_sent_of flow.now node before.now bytes.now) }
{
    match sent_count_at(bytes) {
        Some((part, rest)) if follows_sends(flow, node, before, &part) => Ok((part, rest)),
        _ => Err(ReadFault::Broken { left: bytes.len() }),
    }
}

/// So many counts of what a sequence sent.
pub fn sent_at<'a>(
    alloc: Global,
    flow: &Flow,
    node: NodeId,
    count: u32,
    bytes: &'a [u8],
) -> Result<(Vec<SentCount>, &'a [u8]), ReadFault>
    ensures { Gives (λ x. (x.0.items, x.1.now)) result (many_of (next_sent_of flow.now node) count [] bytes.now) }
{
    let mut parts = Vec::new(alloc);
    let mut rest = bytes;
    for _ in 0..count {
        let (part, after) = next_sent(flow, node, &parts, rest)?;
        parts.push(part)?;
        rest = after;
    }
    Ok((parts, rest))
}

/// The next write.
fn next_write<'a>(
    flow: &Flow,
    next_id: u64,
    before: &[NamedWrite],
    bytes: &'a [u8],
) -> Result<(NamedWrite, &'a [u8]), ReadFault>
    ensures { Gives (λ x. (x.0, x.1.now)) result (next_write_of flow.now next_id before.now bytes.now) }
{
    match named_write_at(bytes) {
        Some((part, rest)) if follows_writes(flow, next_id, before, &part) => Ok((part, rest)),
        _ => Err(ReadFault::Broken { left: bytes.len() }),
    }
}

/// So many writes.
pub fn writes_at<'a>(
    alloc: Global,
    flow: &Flow,
    next_id: u64,
    count: u64,
    bytes: &'a [u8],
) -> Result<(Vec<NamedWrite>, &'a [u8]), ReadFault>
    ensures { Gives (λ x. (x.0.items, x.1.now)) result (many_of (next_write_of flow.now next_id) count [] bytes.now) }
{
    let mut parts = Vec::new(alloc);
    let mut rest = bytes;
    for _ in 0..count {
        let (part, after) = next_write(flow, next_id, &parts, rest)?;
        parts.push(part)?;
        rest = after;
    }
    Ok((parts, rest))
}

/// The next other id.
fn next_other<'a>(
    next_id: u64,
    writes: &[NamedWrite],
    before: &[u64],
    bytes: &'a [u8],
) -> Result<(u64, &'a [u8]), ReadFault>
    ensures { Gives (λ x. (x.0, x.1.now)) result (next_other_of next_id writes.now before.now bytes.now) }
{
    match u64_at(bytes) {
        Some((part, rest)) if follows_others(next_id, writes, before, part) => Ok((part, rest)),
        _ => Err(ReadFault::Broken { left: bytes.len() }),
    }
}

/// So many other ids.
pub fn others_at<'a>(
    alloc: Global,
    next_id: u64,
    writes: &[NamedWrite],
    count: u64,
    bytes: &'a [u8],
) -> Result<(Vec<u64>, &'a [u8]), ReadFault>
    ensures { Gives (λ x. (x.0.items, x.1.now)) result (many_of (next_other_of next_id writes.now) count [] bytes.now) }
{
    let mut parts = Vec::new(alloc);
    let mut rest = bytes;
    for _ in 0..count {
        let (part, after) = next_other(next_id, writes, &parts, rest)?;
        parts.push(part)?;
        rest = after;
    }
    Ok((parts, rest))
}

/// The next count of what is pending.
fn next_pending<'a>(
    flow: &Flow,
    before: &[PendingAt],
    bytes: &'a [u8],
) -> Result<(PendingAt, &'a [u8]), ReadFault>
    ensures { Gives (λ x. (x.0, x.1.now)) result (next_pending_of flow.now before.now bytes.now) }
{
    match pending_at_at(bytes) {
        Some((part, rest)) if follows_pending(flow, before, &part) => Ok((part, rest)),
        _ => Err(ReadFault::Broken { left: bytes.len() }),
    }
}

/// So many counts of what is pending.
pub fn pending_at<'a>(
    alloc: Global,
    flow: &Flow,
    count: u64,
    bytes: &'a [u8],
) -> Result<(Vec<PendingAt>, &'a [u8]), ReadFault>
    ensures { Gives (λ x. (x.0.items, x.1.now)) result (many_of (next_pending_of flow.now) count [] bytes.now) }
{
    let mut parts = Vec::new(alloc);
    let mut rest = bytes;
    for _ in 0..count {
        let (part, after) = next_pending(flow, &parts, rest)?;
        parts.push(part)?;
        rest = after;
    }
    Ok((parts, rest))
}

/// The next stamp that is owed.
fn next_owed<'a>(
    flow: &Flow,
    before: &[OwedAt],
    bytes: &'a [u8],
) -> Result<(OwedAt, &'a [u8]), ReadFault>
    ensures { Gives (λ x. (x.0, x.1.now)) result (next_owed_of flow.now before.now bytes.now) }
{
    match owed_at_at(bytes) {
        Some((part, rest)) if follows_owed(flow, before, &part) => Ok((part, rest)),
        _ => Err(ReadFault::Broken { left: bytes.len() }),
    }
}

/// So many stamps that are owed.
pub fn owed_at<'a>(
    alloc: Global,
    flow: &Flow,
    count: u64,
    bytes: &'a [u8],
) -> Result<(Vec<OwedAt>, &'a [u8]), ReadFault>
    ensures { Gives (λ x. (x.0.items, x.1.now)) result (many_of (next_owed_of flow.now) count [] bytes.now) }
{
    let mut parts = Vec::new(alloc);
    let mut rest = bytes;
    for _ in 0..count {
        let (part, after) = next_owed(flow, &parts, rest)?;
        parts.push(part)?;
        rest = after;
    }
    Ok((parts, rest))
}
