//! What an event changes in the counts.
ghost use Rattle.std.specs.Prelude.{◌≡◌, ◌<◌, ◌↔◌, [], true, length, IsTrue, IfOk};
ghost use Rattle.std.specs.List.{AllByRecursion};
ghost use Rattle.fw_time.specs.Stamp.{in_domain};
ghost use Rattle.fw_flow.specs.Dataflow.{receiver, bounds_of};
ghost use Rattle.fw_progress.specs.Counts.{AreCounts};
ghost use Rattle.fw_progress.specs.Progress.{ChangesAt, CanSend, stamps_of_part, stamps_on, ArePendingMore, IsOneBatchMore, IsSentMore, DeliversOne, IsNotified, IsInjected};
ghost use Rattle.fw_progress.specs.Tally.{HasOneMore, HasOneLess, HasNoMore, HasEachMore};

use crate::counts::Counts;
use crate::tally::Tally;
use fw_bag::Rec;
use fw_flow::laws::flow_is_well_formed;
use fw_flow::{EdgeId, Flow, KeyPart, NodeId, SentTable, is_of_part};
use fw_time::{Bounds, Stamp};
use std::alloc::AllocError;

/// One message less is pending on an edge.
pub(crate) fn take_pending(pending: &mut Vec<Tally>, edge: EdgeId, at: &Stamp)
    requires { edge < length pending.old.items }
    ensures { ChangesAt edge [] (HasOneLess at.now) pending.old.items pending.new.items }
{
    let tally = &mut pending[edge.place() as usize];
    tally.take(at);
}

/// A node is owed a notification of the stamp. The error is want of memory.
pub(crate) fn owe(owed: &mut Vec<Tally>, node: NodeId, at: &Stamp) -> Result<(), AllocError>
    requires { node < length owed.old.items }
    ensures { IfOk result (λ u. ChangesAt node [] (HasOneMore at.now) owed.old.items owed.new.items) }
{
    let tally = &mut owed[node.place() as usize];
    tally.add(at)?;
    Ok(())
}

/// A node is owed no notification of the stamp any more.
pub(crate) fn pay(owed: &mut Vec<Tally>, node: NodeId, at: &Stamp)
    requires { node < length owed.old.items }
    ensures { ChangesAt node [] (HasNoMore at.now) owed.old.items owed.new.items }
{
    let tally = &mut owed[node.place() as usize];
    tally.clear(at);
}

/// A node injected one batch more.
pub(crate) fn inject(injected: &mut Vec<u64>, node: NodeId)
    requires { node < length injected.old.items }
    ensures { ChangesAt node 0 IsOneBatchMore injected.old.items injected.new.items }
{
    let count = &mut injected[node.place() as usize];
    *count = count.saturating_add(1);
}

/// A sequence sent so many messages in an epoch. The error is want of memory.
pub(crate) fn count_sent(
    sent: &mut Vec<SentTable>,
    node: NodeId,
    epoch: u32,
    count: u64,
) -> Result<(), AllocError>
    requires { node < length sent.old.items }
    ensures { IfOk result (λ u. ChangesAt node [] (IsSentMore epoch count) sent.old.items sent.new.items) }
{
    let table = &mut sent[node.place() as usize];
    if table.takes(epoch) {
        table.push(epoch, count)?;
    }
    Ok(())
}

/// A message more is pending for each of the recs whose key is of the part, where there is one. The error is want of memory.
fn add_each(
    tally: &mut Tally,
    part: Option<KeyPart>,
    sent: &[(Stamp, Rec)],
) -> Result<(), AllocError>
    ensures { IfOk result (λ u. HasEachMore (stamps_of_part part sent.now) tally.old tally.new) }
{
    for one in sent {
        if is_of_part(part, one.1.key) {
            tally.add(&one.0)?;
        }
    }
    Ok(())
}

/// A message more is pending on an edge for each of the recs that it carries. The error is want of memory.
fn add_on_edge(
    flow: &Flow,
    pending: &mut Vec<Tally>,
    edge: EdgeId,
    sent: &[(Stamp, Rec)],
) -> Result<(), AllocError>
    requires { edge < length pending.old.items }
    ensures { IfOk result (λ u. ChangesAt edge [] (HasEachMore (stamps_on flow.now edge sent.now)) pending.old.items pending.new.items) }
{
    let part = flow.part_on(edge);
    let tally = &mut pending[edge.place() as usize];
    add_each(tally, part, sent)?;
    Ok(())
}

/// The same on each out-edge of a node. The error is want of memory.
pub(crate) fn send(
    flow: &Flow,
    pending: &mut Vec<Tally>,
    node: NodeId,
    sent: &[(Stamp, Rec)],
) -> Result<(), AllocError>
    requires { length pending.old.items ≡ length flow.now.edges }
    ensures { IfOk result (λ u. ArePendingMore flow.now node sent.now pending.old.items pending.new.items) }
{
    let edges = flow.out_edges(node);
    for edge in edges {
        add_on_edge(flow, pending, *edge, sent)?;
    }
    Ok(())
}

/// A message at the stamp is delivered on an edge, and the receiver sends these recs. The error is want of memory.
pub(crate) fn delivered(
    flow: &Flow,
    counts: &mut Counts,
    edge: EdgeId,
    at: &Stamp,
    sent: &[(Stamp, Rec)],
) -> Result<(), AllocError>
    requires counts { AreCounts flow.now counts.old }
    requires there { edge < length flow.now.edges }
    ensures { IfOk result (λ u. DeliversOne flow.now edge at.now sent.now counts.old counts.new) }
{
    flow_is_well_formed(flow);
    let node = flow.dst(edge);
    take_pending(&mut counts.pending, edge, at);
    if flow.kind(node).is_notified() {
        owe(&mut counts.owed, node, at)?;
    }
    send(flow, &mut counts.pending, node, sent)
}

/// The node is notified of the stamp, and sends these recs. The error is want of memory.
pub(crate) fn notified(
    flow: &Flow,
    counts: &mut Counts,
    node: NodeId,
    at: &Stamp,
    sent: &[(Stamp, Rec)],
) -> Result<(), AllocError>
    requires counts { AreCounts flow.now counts.old }
    requires there { node < length flow.now.nodes }
    ensures { IfOk result (λ u. IsNotified flow.now node at.now sent.now counts.old counts.new) }
{
    pay(&mut counts.owed, node, at);
    if flow.kind(node).is_sequence() && at.len() > 0 {
        count_sent(&mut counts.sent, node, at.at(0), sent.len() as u64)?;
    }
    send(flow, &mut counts.pending, node, sent)
}

/// The node injects its next batch, and sends these recs. The error is want of memory.
pub(crate) fn injected(
    flow: &Flow,
    counts: &mut Counts,
    node: NodeId,
    sent: &[(Stamp, Rec)],
) -> Result<(), AllocError>
    requires counts { AreCounts flow.now counts.old }
    requires there { node < length flow.now.nodes }
    ensures { IfOk result (λ u. IsInjected flow.now node sent.now counts.old counts.new) }
{
    inject(&mut counts.injected, node);
    send(flow, &mut counts.pending, node, sent)
}

/// Whether each of the stamps is one of the domain.
fn are_in_domain(stamps: &[Stamp], bounds: &Bounds) -> bool
    ensures { IsTrue result ↔ AllByRecursion (λ s. in_domain bounds.now s ≡ true) stamps.now }
{
    for stamp in stamps {
        if !stamp.in_domain(bounds) {
            return false;
        }
    }
    true
}

/// Whether the node can send at each of the stamps: on each of its out-edges they are stamps of the receiver's domain.
pub fn can_send(flow: &Flow, node: NodeId, stamps: &[Stamp]) -> bool
    ensures { IsTrue result ↔ CanSend flow.now node stamps.now }
{
    let edges = flow.out_edges(node);
    for edge in edges {
        if !are_in_domain(stamps, &flow.domain(flow.dst(*edge))) {
            return false;
        }
    }
    true
}
