//! Whether a side of a cut lies within a bound.
ghost use Rattle.std.specs.Prelude.{◌≡◌, ◌↔◌, not, ◌&&◌, ◌||◌, ◌==◌, filter, [], IsTrue, IfOk};
ghost use Rattle.std.specs.List.{list_all};
ghost use Rattle.fw_frontier.specs.Front.{frontier_of, IsCanonical};
ghost use Rattle.fw_frontier.specs.Frontier.{Within, cover};
ghost use Rattle.fw_flow.specs.declared.choice.Cut.TheVariants as cut;
ghost use Rattle.fw_flow.specs.Dataflow.{bounds_of, sender, receiver, node_frontier};
ghost use Rattle.fw_flow.specs.Projection.{all_inside};
ghost use Rattle.fw_model.specs.Offers as spec;
ghost use Rattle.fw_model.specs.Offers.{AreOffersOf, covers_of};
ghost use Rattle.fw_model.specs.Choice.{IsCanonicalCut};
ghost use Rattle.fw_model.specs.Inclusions.{owner, side_bounds, left_of};
ghost use Rattle.fw_offers.specs.Sides.{IsRecordAt};
ghost use Rattle.std.specs.Option.{option_copied};

use crate::offers::{
    can_resend, checkpoint_at, delivered_to, notified_of, record_passes, sent_by, takes_its_notices,
};
use fw_flow::{Causes, Counted, Cut, EdgeId, Flow, NodeId, Offer, Recorded, Restoring, Side};
use fw_frontier::Front;
use fw_time::{Bounds, Stamp};
use std::alloc::{AllocError, Global};

/// The node whose cut a side is of.
pub fn owner(flow: &Flow, side: Side) -> NodeId
    ensures { result ≡ owner flow.now side }
{
    match side {
        Side::Delivered(edge) => flow.dst(edge),
        Side::Discarded(edge) => flow.src(edge),
        Side::Notified(node) => node,
    }
}

/// Whether the side of the cut lies within the bound. The error is want of memory.
pub fn passes(
    alloc: Global,
    flow: &Flow,
    offers: &[Offer],
    side: &Side,
    cut: &Cut,
    bound: &Front,
) -> Result<bool, AllocError>
    requires offers { AreOffersOf flow.now offers.now }
    requires cut { IsCanonicalCut (bounds_of flow.now (owner flow.now side.now)) cut.now }
    requires bound { IsCanonical (side_bounds flow.now side.now) bound.now }
    ensures { IfOk result (λ b. IsTrue b
        ↔ Within (left_of (covers_of flow.now offers.now) side.now cut.now) (frontier_of (side_bounds flow.now side.now) bound.now)) }
{
    match cut {
        Cut::Present => Ok(present_passes(alloc, flow, offers, *side, bound)),
        Cut::At(front) => passes_at(alloc, flow, offers, side, front, bound),
    }
}

/// The same for the cut at a frontier. The error is want of memory.
pub fn passes_at(
    alloc: Global,
    flow: &Flow,
    offers: &[Offer],
    side: &Side,
    front: &Front,
    bound: &Front,
) -> Result<bool, AllocError>
    requires offers { AreOffersOf flow.now offers.now }
    requires front { IsCanonical (bounds_of flow.now (owner flow.now side.now)) front.now }
    requires bound { IsCanonical (side_bounds flow.now side.now) bound.now }
    ensures { IfOk result (λ b. IsTrue b
        ↔ Within (left_of (covers_of flow.now offers.now) side.now (cut.At front.now)) (frontier_of (side_bounds flow.now side.now) bound.now)) }
{
    let checkpoint = checkpoint_at(flow, offers, owner(flow, *side), front);
    front_passes(alloc, flow, offers, *side, front, checkpoint, bound)
}

/// Whether the side of a state as it is lies within the bound.
fn present_passes(alloc: Global, flow: &Flow, offers: &[Offer], side: Side, bound: &Front) -> bool
    requires { AreOffersOf flow.now offers.now }
    ensures { IsTrue result
        ↔ Within (left_of (covers_of flow.now offers.now) side cut.Present) (frontier_of (side_bounds flow.now side) bound.now) }
{
    let all = Front::all(alloc);
    match side {
        Side::Delivered(edge) => delivered_on_edge_passes(flow, offers, edge, &all, bound),
        Side::Discarded(edge) => all_sent_passes(flow, offers, edge, &all, bound),
        Side::Notified(node) => notices_pass(flow, offers, node, &all, bound),
    }
}

/// Whether what the sender of the edge sent in all, if it cannot send it again, lies within the bound.
fn all_sent_passes(flow: &Flow, offers: &[Offer], edge: EdgeId, all: &Front, bound: &Front) -> bool
    requires offers { AreOffersOf flow.now offers.now }
    requires all { all.now ≡ [] }
    ensures { IsTrue result
        ↔ Within ((covers_of flow.now offers.now).discarded edge cut.Present)
        (node_frontier flow.now (receiver flow.now edge) bound.now) }
{
    let node = flow.src(edge);
    if can_resend(flow, node) {
        return true;
    }
    sent_on_edge_passes(flow, offers, edge, all, bound)
}

/// Whether the side of a cut at the frontier lies within the bound, by the record of the frontier. The error is want of memory.
pub fn front_passes(
    alloc: Global,
    flow: &Flow,
    offers: &[Offer],
    side: Side,
    front: &Front,
    checkpoint: Option<&Recorded>,
    bound: &Front,
) -> Result<bool, AllocError>
    requires offers { AreOffersOf flow.now offers.now }
    requires front { IsCanonical (bounds_of flow.now (owner flow.now side)) front.now }
    requires bound { IsCanonical (side_bounds flow.now side) bound.now }
    ensures { IsRecordAt flow.now offers.now (owner flow.now side) front.now (option_copied checkpoint.entry)
        → IfOk result (λ b. IsTrue b
        ↔ Within (left_of (covers_of flow.now offers.now) side (cut.At front.now)) (frontier_of (side_bounds flow.now side) bound.now)) }
{
    match side {
        Side::Delivered(edge) => Ok(delivered_passes(flow, offers, edge, front, checkpoint, bound)),
        Side::Discarded(edge) => discarded_passes(
            alloc, flow, offers, edge, front, checkpoint, bound,
        ),
        Side::Notified(node) => Ok(notified_passes(flow, offers, node, front, checkpoint, bound)),
    }
}

/// Whether what counts as delivered on the edge in a cut at the frontier lies within the bound.
fn delivered_passes(
    flow: &Flow,
    offers: &[Offer],
    edge: EdgeId,
    front: &Front,
    checkpoint: Option<&Recorded>,
    bound: &Front,
) -> bool
    requires { IsCanonical (bounds_of flow.now (receiver flow.now edge)) bound.now }
    ensures { IsRecordAt flow.now offers.now (receiver flow.now edge) front.now (option_copied checkpoint.entry)
        → (IsTrue result
        ↔ Within ((covers_of flow.now offers.now).delivered edge (cut.At front.now))
        (node_frontier flow.now (receiver flow.now edge) bound.now)) }
{
    let node = flow.dst(edge);
    match flow.restoring(node) {
        Restoring::Bound => front.subset(bound),
        Restoring::Anything => front.subset(bound),
        Restoring::Checkpoints => record_passes(checkpoint, Side::Delivered(edge), bound),
        Restoring::Batches => delivered_on_edge_passes(flow, offers, edge, front, bound),
        Restoring::Events => delivered_on_edge_passes(flow, offers, edge, front, bound),
    }
}

/// Whether what the sender of the edge sent in a cut at the frontier, and cannot send again, lies within the bound. The
/// error is want of memory.
fn discarded_passes(
    alloc: Global,
    flow: &Flow,
    offers: &[Offer],
    edge: EdgeId,
    front: &Front,
    checkpoint: Option<&Recorded>,
    bound: &Front,
) -> Result<bool, AllocError>
    requires offers { AreOffersOf flow.now offers.now }
    requires front { IsCanonical (bounds_of flow.now (sender flow.now edge)) front.now }
    requires bound { IsCanonical (bounds_of flow.now (receiver flow.now edge)) bound.now }
    ensures { IsRecordAt flow.now offers.now (sender flow.now edge) front.now (option_copied checkpoint.entry) → IfOk result (λ b. IsTrue b
        ↔ Within ((covers_of flow.now offers.now).discarded edge (cut.At front.now))
        (node_frontier flow.now (receiver flow.now edge) bound.now)) }
{
    let node = flow.src(edge);
    if can_resend(flow, node) {
        return Ok(true);
    }
    match flow.restoring(node) {
        Restoring::Anything => {
            let sent = flow.psi(alloc, edge, front)?;
            Ok(sent.subset(bound))
        }
        Restoring::Checkpoints => Ok(record_passes(checkpoint, Side::Discarded(edge), bound)),
        Restoring::Batches => Ok(sent_on_edge_passes(flow, offers, edge, front, bound)),
        Restoring::Bound => Ok(sent_on_edge_passes(flow, offers, edge, front, bound)),
        Restoring::Events => Ok(sent_on_edge_passes(flow, offers, edge, front, bound)),
    }
}

/// Whether that of which the node was notified in a cut at the frontier lies within the bound.
fn notified_passes(
    flow: &Flow,
    offers: &[Offer],
    node: NodeId,
    front: &Front,
    checkpoint: Option<&Recorded>,
    bound: &Front,
) -> bool
    requires { IsCanonical (bounds_of flow.now node) bound.now }
    ensures { IsRecordAt flow.now offers.now node front.now (option_copied checkpoint.entry) → (IsTrue result
        ↔ Within ((covers_of flow.now offers.now).notified node (cut.At front.now)) (node_frontier flow.now node bound.now)) }
{
    if takes_its_notices(flow, node) {
        return front.subset(bound);
    }
    match flow.restoring(node) {
        Restoring::Checkpoints => record_passes(checkpoint, Side::Notified(node), bound),
        Restoring::Batches => notices_pass(flow, offers, node, front, bound),
        Restoring::Bound => notices_pass(flow, offers, node, front, bound),
        Restoring::Anything => notices_pass(flow, offers, node, front, bound),
        Restoring::Events => notices_pass(flow, offers, node, front, bound),
    }
}

/// Whether a stamp is one of the domain and inside.
pub fn is_inside(bounds: &Bounds, front: &Front, t: &Stamp) -> bool
    ensures { result ≡ frontier_of bounds.now front.now t.now }
{
    t.in_domain(bounds) && front.contains(t)
}

/// Whether each of the stamps that is inside the frontier is inside the bound.
fn inside_pass(bounds: &Bounds, stamps: &[Stamp], front: &Front, bound: &Front) -> bool
    ensures { result ≡ list_all (λ s. not (frontier_of bounds.now front.now s) || frontier_of bounds.now bound.now s)
        stamps.now }
{
    stamps.iter().all(|t| !is_inside(bounds, front, t) || is_inside(bounds, bound, t))
}

/// Whether that of which the node was notified inside the frontier is inside the bound.
fn notices_pass(flow: &Flow, offers: &[Offer], node: NodeId, front: &Front, bound: &Front) -> bool
    ensures { IsTrue result
        ↔ Within (cover (bounds_of flow.now node)
        (filter (node_frontier flow.now node front.now) (spec.notified_of offers.now node)))
        (node_frontier flow.now node bound.now) }
{
    inside_pass(&flow.domain(node), notified_of(offers, node), front, bound)
}

/// Whether what was delivered on the edge inside the frontier is inside the bound.
fn delivered_on_edge_passes(
    flow: &Flow,
    offers: &[Offer],
    edge: EdgeId,
    front: &Front,
    bound: &Front,
) -> bool
    ensures { IsTrue result
        ↔ Within (cover (bounds_of flow.now (receiver flow.now edge))
        (filter (node_frontier flow.now (receiver flow.now edge) front.now)
        (spec.stamps_on edge (spec.delivered_to offers.now (receiver flow.now edge)))))
        (node_frontier flow.now (receiver flow.now edge) bound.now) }
{
    let node = flow.dst(edge);
    delivered_pass(
        &flow.domain(node),
        delivered_to(offers, node),
        edge,
        front,
        bound,
    )
}

/// Whether each of the edge's messages that is inside the frontier is inside the bound.
fn delivered_pass(
    bounds: &Bounds,
    delivered: &[Counted],
    edge: EdgeId,
    front: &Front,
    bound: &Front,
) -> bool
    ensures { result ≡ list_all (λ m. not (m.edge == edge) || not (frontier_of bounds.now front.now m.at)
        || frontier_of bounds.now bound.now m.at) delivered.now }
{
    delivered.iter().all(|m| {
        !(m.edge == edge) || !is_inside(bounds, front, &m.at) || is_inside(bounds, bound, &m.at)
    })
}

/// Whether what the sender of the edge sent on it from inside the frontier is inside the bound.
fn sent_on_edge_passes(
    flow: &Flow,
    offers: &[Offer],
    edge: EdgeId,
    front: &Front,
    bound: &Front,
) -> bool
    requires { AreOffersOf flow.now offers.now }
    ensures { IsTrue result
        ↔ Within (cover (bounds_of flow.now (receiver flow.now edge))
        (spec.stamps_on_from edge (node_frontier flow.now (sender flow.now edge) front.now)
        (spec.offered_sent offers.now (sender flow.now edge))))
        (node_frontier flow.now (receiver flow.now edge) bound.now) }
{
    let node = flow.src(edge);
    let to = flow.domain(flow.dst(edge));
    sent_pass(
        &flow.domain(node),
        &to,
        sent_by(offers, node),
        edge,
        front,
        bound,
    )
}

/// Whether each of the edge's messages all of whose causes are inside the frontier is inside the bound.
fn sent_pass(
    from: &Bounds,
    to: &Bounds,
    sent: &[Counted],
    edge: EdgeId,
    front: &Front,
    bound: &Front,
) -> bool
    ensures { result ≡ list_all (λ m. not (m.edge == edge && all_inside (frontier_of from.now front.now) m.causes)
        || frontier_of to.now bound.now m.at) sent.now }
{
    sent.iter().all(|m| {
        !(m.edge == edge && all_inside(from, front, &m.causes)) || is_inside(to, bound, &m.at)
    })
}

/// Whether all causes are inside.
fn all_inside(bounds: &Bounds, front: &Front, causes: &Causes) -> bool
    ensures { result ≡ all_inside (frontier_of bounds.now front.now) causes.now }
{
    causes.stamps().iter().all(|t| is_inside(bounds, front, t))
}
