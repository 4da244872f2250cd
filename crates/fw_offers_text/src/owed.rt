//! The rules of statements by themselves: of kinds, of what is told twice within one, and of what records have to tell.
ghost use Rattle.std.specs.Prelude.{◌≡◌, not, ◌||◌};
ghost use Rattle.std.specs.List.{list_all};
ghost use Rattle.fw_flow.specs.Dataflow.{bounds_of, in_edges, out_edges, kind_of, policy_of, is_notified_kind};
ghost use Rattle.fw_flow.specs.Restoring.{can_resend};
ghost use Rattle.fw_model.specs.Offers as offers;
ghost use Rattle.fw_offers_text.specs.Statements as spec;
ghost use Rattle.fw_offers_text.specs.Statements.{owed_sides};

use crate::statement::{EpochCounts, RecordCover, Statement};
use fw_flow::{EdgeId, Flow, NodeId, Restoring, Side};
use fw_frontier::Front;

/// Whether a statement is one for nodes of its node's kind and policy.
pub(crate) fn is_of_its_kind(flow: &Flow, statement: &Statement) -> bool
    ensures { result ≡ spec.is_of_its_kind flow.now statement.now }
{
    match statement {
        Statement::Record { node, .. } => is_by_records(flow.restoring(*node)),
        Statement::Range { node, and_all, .. } => {
            !is_by_records(flow.restoring(*node)) && (!*and_all || flow.kind(*node).is_input())
        }
        Statement::Notified { node, .. } => flow.kind(*node).is_notified(),
        Statement::Counts { node, .. } => flow.kind(*node).is_sequence(),
        Statement::Node { .. } | Statement::Delivered { .. } | Statement::Sent { .. } => true,
    }
}

/// Whether a record tells all that it has to; one of no stamps need tell nothing.
pub(crate) fn is_record_told(flow: &Flow, statement: &Statement) -> bool
    ensures { result ≡ spec.is_record_told flow.now statement.now }
{
    match statement {
        Statement::Record {
            node,
            front,
            covers,
        } => has_no_stamps(flow, *node, front) || are_sides_told(flow, *node, covers.as_slice()),
        Statement::Node { .. }
        | Statement::Range { .. }
        | Statement::Delivered { .. }
        | Statement::Sent { .. }
        | Statement::Notified { .. }
        | Statement::Counts { .. } => true,
    }
}

// Whether no stamp of a node's domain is inside.
#[tactic(auto, unfolding(fw_flow::specs::Dataflow::bounds_of))]
fn has_no_stamps(flow: &Flow, node: NodeId, front: &Front) -> bool
    ensures { result ≡ spec.has_no_stamps (bounds_of flow.now node) front.now }
{
    let least = [flow.domain(node).origin()];
    front.outside().cmp(least.as_slice()).is_eq()
}

// Whether two sides are one.
fn is_same_side(side: Side, other: Side) -> bool
    ensures { result ≡ spec.is_same_side side other }
{
    match side {
        Side::Delivered(edge) => is_delivered(edge, other),
        Side::Discarded(edge) => is_discarded(edge, other),
        Side::Notified(node) => is_notified(node, other),
    }
}

// Whether the side is what was delivered on the edge.
fn is_delivered(edge: EdgeId, side: Side) -> bool
    ensures { result ≡ spec.is_same_side (Side.Delivered edge) side }
{
    match side {
        Side::Delivered(other) => edge == other,
        Side::Discarded(_) | Side::Notified(_) => false,
    }
}

// Whether the side is what was discarded on the edge.
fn is_discarded(edge: EdgeId, side: Side) -> bool
    ensures { result ≡ spec.is_same_side (Side.Discarded edge) side }
{
    match side {
        Side::Discarded(other) => edge == other,
        Side::Delivered(_) | Side::Notified(_) => false,
    }
}

// Whether the side is of what the node was notified.
fn is_notified(node: NodeId, side: Side) -> bool
    ensures { result ≡ spec.is_same_side (Side.Notified node) side }
{
    match side {
        Side::Notified(other) => node == other,
        Side::Delivered(_) | Side::Discarded(_) => false,
    }
}

// Whether one of the covers is of the side.
fn is_side_told(covers: &[RecordCover], side: Side) -> bool
    ensures { result ≡ spec.is_side_told covers.now side }
{
    covers.iter().any(|cover| is_same_side(side, cover.side))
}

/// Whether the covers are each of another side. It stops at the first that is told twice, so that it compares no more pairs than
/// the node has sides.
pub(crate) fn are_covers_apart(covers: &[RecordCover]) -> bool
    ensures { result ≡ spec.are_covers_apart covers.now }
{
    for place in 0..covers.len() {
        if is_side_told(&covers[..place], covers[place].side) {
            return false;
        }
    }
    true
}

/// Whether no epoch of counts stands there twice.
pub(crate) fn are_counts_apart(counts: &EpochCounts) -> bool
    ensures { result ≡ spec.are_counts_apart counts.now }
{
    let mut last = None;
    for count in &counts.counts {
        if !is_above(last, count.key) {
            return false;
        }
        last = Some(count.key);
    }
    true
}

// Whether an epoch stands above the last one, if there is one.
fn is_above(last: Option<u64>, epoch: u64) -> bool
    ensures { result ≡ spec.is_epoch_above last epoch }
{
    match last {
        Some(before) => before < epoch,
        None => true,
    }
}

// Whether the covers are of all sides that a record of the node has to tell.
fn are_sides_told(flow: &Flow, node: NodeId, covers: &[RecordCover]) -> bool
    ensures { result ≡ list_all (spec.is_side_told covers.now) (owed_sides flow.now node) }
{
    if !are_arrivals_told(flow, node, covers) {
        return false;
    }
    if !are_sent_told(flow, node, covers) {
        return false;
    }
    are_notices_told(flow, node, covers)
}

// Whether the covers are of what was delivered on each in-edge of the node.
fn are_arrivals_told(flow: &Flow, node: NodeId, covers: &[RecordCover]) -> bool
    ensures { result ≡ list_all (λ d. spec.is_side_told covers.now (Side.Delivered d)) (in_edges flow.now node) }
{
    flow.in_edges(node)
        .iter()
        .all(|edge| is_side_told(covers, Side::Delivered(*edge)))
}

// Whether they are of what was discarded on each out-edge, unless the node can send again.
fn are_sent_told(flow: &Flow, node: NodeId, covers: &[RecordCover]) -> bool
    ensures { result ≡ (can_resend (policy_of flow.now node)
        || list_all (λ e. spec.is_side_told covers.now (Side.Discarded e)) (out_edges flow.now node)) }
{
    flow.policy(node).can_resend() || are_discards_told(flow, node, covers)
}

// Whether they are of what was discarded on each out-edge.
fn are_discards_told(flow: &Flow, node: NodeId, covers: &[RecordCover]) -> bool
    ensures { result ≡ list_all (λ e. spec.is_side_told covers.now (Side.Discarded e)) (out_edges flow.now node) }
{
    flow.out_edges(node)
        .iter()
        .all(|edge| is_side_told(covers, Side::Discarded(*edge)))
}

// Whether one of them is of what the node was notified of, if it is.
fn are_notices_told(flow: &Flow, node: NodeId, covers: &[RecordCover]) -> bool
    ensures { result ≡ (not (is_notified_kind (kind_of flow.now node)) || spec.is_side_told covers.now (Side.Notified node)) }
{
    !flow.kind(node).is_notified() || is_side_told(covers, Side::Notified(node))
}

// Whether a node that is restored in this way is restored to records.
fn is_by_records(way: Restoring) -> bool
    ensures { result ≡ offers.is_by_records way }
{
    matches!(way, Restoring::Checkpoints)
}

/// Whether a node that is restored in this way does events again.
pub(crate) fn is_by_events(way: Restoring) -> bool
    ensures { result ≡ spec.is_by_events way }
{
    matches!(way, Restoring::Events)
}
