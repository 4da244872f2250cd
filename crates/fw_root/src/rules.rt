//! What may stand after what in a root.
ghost use Rattle.std.specs.Prelude.{◌≡◌, nat_lt};
ghost use Rattle.fw_root.specs.Sound as spec;
ghost use Rattle.fw_bytes.specs.Sound.{after_last, stands_before, may_follow_stamps, may_follow_counts};

use crate::extent::Extent;
use crate::{NamedWrite, OwedAt, PendingAt};
use fw_flow::{Flow, NodeId};
use fw_frontier::SentCount;
use fw_time::{Bounds, Stamp};
use std::cmp::Ordering;

/// Whether an outside stamp may come next in a front.
pub fn follows_outside(bounds: &Bounds, extent: Extent, before: &[Stamp], s: &Stamp) -> bool
    ensures { result ≡ spec.may_follow_outside bounds.now extent before.now s.now }
{
    s.in_domain(bounds) && extent.allows_stamp(bounds, s) && follows_stamps(before, s)
}

/// Whether one of the tags is meant that a write has.
fn is_write_tag(tag: u8) -> bool
    ensures { result ≡ spec.is_write_tag tag }
{
    tag == 1 || tag == 2 || tag == 3
}

/// Whether an id comes after that of the last write.
fn is_next_id(before: &[NamedWrite], id: u64) -> bool
    ensures { result ≡ after_last (λ last next. nat_lt last.id next) before.now id }
{
    match before.last() {
        None => true,
        Some(last) => last.id < id,
    }
}

/// Whether a write may come next.
pub fn follows_writes(flow: &Flow, next_id: u64, before: &[NamedWrite], next: &NamedWrite) -> bool
    ensures { result ≡ spec.may_follow_writes flow.now next_id before.now next.now }
{
    next.id < next_id
        && (next.node as usize) < flow.nodes()
        && is_write_tag(next.tag)
        && is_next_id(before, next.id)
}

/// Whether one of the writes has the id.
fn has_id(id: u64, writes: &[NamedWrite]) -> bool
    ensures { result ≡ spec.has_id id writes.now }
{
    writes.iter().any(|write| write.id == id)
}

/// Whether another id may come next.
pub fn follows_others(next_id: u64, writes: &[NamedWrite], before: &[u64], id: u64) -> bool
    ensures { result ≡ spec.may_follow_others next_id writes.now before.now id }
{
    id < next_id && !has_id(id, writes) && is_above(before, id)
}

/// Whether a number comes after the last of these.
fn is_above(before: &[u64], id: u64) -> bool
    ensures { result ≡ after_last nat_lt before.now id }
{
    match before.last() {
        None => true,
        Some(last) => *last < id,
    }
}

/// Whether a place and a stamp come before others in order.
fn comes_before(i: u32, s: &Stamp, j: u32, t: &Stamp) -> bool
    ensures { result ≡ spec.comes_before i s.now j t.now }
{
    match i.cmp(&j) {
        Ordering::Less => true,
        Ordering::Equal => s.compare(t).is_lt(),
        Ordering::Greater => false,
    }
}

/// Whether a count of what is pending comes after the last of these.
fn is_next_pending(before: &[PendingAt], next: &PendingAt) -> bool
    ensures { result ≡ after_last (λ last next. spec.comes_before last.edge last.at next.edge next.at)
        before.now next.now }
{
    match before.last() {
        None => true,
        Some(last) => comes_before(last.edge.place(), &last.at, next.edge.place(), &next.at),
    }
}

/// Whether a count of what is pending may come next.
pub fn follows_pending(flow: &Flow, before: &[PendingAt], next: &PendingAt) -> bool
    ensures { result ≡ spec.may_follow_pending flow.now before.now next.now }
{
    (next.edge.place() as usize) < flow.edges()
        && next.at.in_domain(&flow.domain(flow.dst(next.edge)))
        && next.count > 0
        && is_next_pending(before, next)
}

/// Whether a stamp that is owed comes after the last of these.
fn is_next_owed(before: &[OwedAt], next: &OwedAt) -> bool
    ensures { result ≡ after_last (λ last next. spec.comes_before last.node last.at next.node next.at)
        before.now next.now }
{
    match before.last() {
        None => true,
        Some(last) => comes_before(last.node.place(), &last.at, next.node.place(), &next.at),
    }
}

/// Whether a stamp that is owed may come next.
pub fn follows_owed(flow: &Flow, before: &[OwedAt], next: &OwedAt) -> bool
    ensures { result ≡ spec.may_follow_owed flow.now before.now next.now }
{
    (next.node.place() as usize) < flow.nodes()
        && next.at.in_domain(&flow.domain(next.node))
        && is_next_owed(before, next)
}

/// Whether a count of what a sequence sent may come next.
pub fn follows_sends(flow: &Flow, node: NodeId, before: &[SentCount], next: &SentCount) -> bool
    ensures { result ≡ spec.may_follow_sends flow.now node before.now next.now }
{
    next.cause.in_domain(&flow.domain(node)) && follows_counts(before, next)
}

/// Whether one stamp may stand before another in a front.
fn is_before(o: &Stamp, s: &Stamp) -> bool
    ensures { result ≡ stands_before o.now s.now }
{
    o.len() == s.len() && o.compare(s).is_lt() && !(o.leq(s) || s.leq(o))
}

/// Whether a stamp may come next in a front.
fn follows_stamps(before: &[Stamp], s: &Stamp) -> bool
    ensures { result ≡ may_follow_stamps before.now s.now }
{
    for o in before {
        if !is_before(o, s) {
            return false;
        }
    }
    true
}

/// Whether a count of what was sent may come next.
fn follows_counts(before: &[SentCount], next: &SentCount) -> bool
    ensures { result ≡ may_follow_counts before.now next.now }
{
    if next.count == 0 {
        return false;
    }
    match before.last() {
        None => true,
        Some(last) => last.cause.compare(&next.cause).is_lt(),
    }
}
