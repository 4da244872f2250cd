//! In what sides and notification frontiers have to lie.
ghost use Rattle.std.specs.Prelude.{◌≡◌, ◌<◌, ℕ, [], length, IfOk};
ghost use Rattle.fw_frontier.specs.Front.{IsFrontOf};
ghost use Rattle.fw_flow.specs.declared.choice.Choice as choices;
ghost use Rattle.fw_flow.specs.Dataflow.{Dataflow, bounds_of, sender, receiver};
ghost use Rattle.fw_model.specs.Choice.{cut_of, IsCanonicalCut, IsChoiceOf};
ghost use Rattle.fw_model.specs.Covers.{set_of};
ghost use Rattle.fw_model.specs.Inclusions.{IsLimitIn, IsSideOfFlow, limit_of, note_node, right_of, side_bounds};
ghost use Rattle.fw_model.specs.Lowerings.{choice_of};
ghost use Rattle.fw_model.specs.Machine.{front_of};
ghost use Rattle.fw_model.specs.Offers as spec;
ghost use Rattle.fw_model.specs.Offers.{AreOffersOf, covers_of};

use crate::arrived::arrived;
use fw_flow::laws::flow_is_well_formed;
use fw_flow::{Cut, EdgeId, Flow, Limit, NodeId, Offer, Side};
use fw_frontier::Front;
use std::alloc::{AllocError, Global};

/// The node whose notification frontier a limit is of.
pub fn note_node(flow: &Flow, limit: Limit) -> NodeId
    ensures { result ≡ note_node flow.now limit }
{
    match limit {
        Limit::Own(node) => node,
        Limit::Note(edge) => flow.dst(edge),
    }
}

/// What each cut keeps. The error is want of memory.
pub fn all_kept(alloc: Global, flow: &Flow, cuts: &[Cut]) -> Result<Vec<Front>, AllocError>
    requires one_each { length cuts.now ≡ length flow.now.nodes }
    requires canonical { (p : ℕ) → p < length flow.now.nodes
        → IsCanonicalCut (bounds_of flow.now p) (cut_of (choice_of cuts.now []) p) }
    ensures one_each { IfOk result (λ notices. length notices.items ≡ length flow.now.nodes) }
    ensures kept { IfOk result (λ notices. (p : ℕ) → p < length flow.now.nodes
        → IsFrontOf (bounds_of flow.now p) (front_of notices.items p) (set_of flow.now p (cut_of (choice_of cuts.now []) p))) }
{
    let mut notices = Vec::new(alloc);
    for cut in cuts {
        let front = kept(alloc, cut)?;
        notices.push(front)?;
    }
    Ok(notices)
}

/// What a cut keeps. The error is want of memory.
pub fn kept(alloc: Global, cut: &Cut) -> Result<Front, AllocError>
    ensures { (flow : Dataflow) (p : ℕ) → IsCanonicalCut (bounds_of flow p) cut.now
        → IfOk result (λ f. IsFrontOf (bounds_of flow p) f (set_of flow p cut.now)) }
{
    match cut {
        Cut::Present => Ok(Front::all(alloc)),
        Cut::At(front) => front.copy(),
    }
}

/// The cut of a node.
pub fn cut_at(cuts: &[Cut], node: NodeId) -> &Cut
    requires { node < length cuts.now }
    ensures { (choice : choices.Choice) → choice.cuts ≡ cuts.now → result.now ≡ cut_of choice node }
{
    &cuts[node.place() as usize]
}

/// The notification frontier of a node.
pub fn notice_at(notices: &[Front], node: NodeId) -> &Front
    requires { node < length notices.now }
    ensures { result.now ≡ front_of notices.now node }
{
    &notices[node.place() as usize]
}

/// In what the side has to lie. The error is want of memory.
pub fn right_of(
    alloc: Global,
    flow: &Flow,
    offers: &[Offer],
    side: &Side,
    cuts: &[Cut],
    notices: &[Front],
) -> Result<Front, AllocError>
    requires offers { AreOffersOf flow.now offers.now }
    requires there { IsSideOfFlow flow.now side.now }
    requires of_flow { IsChoiceOf flow.now (choice_of cuts.now notices.now) }
    ensures { IfOk result (λ g. IsFrontOf (side_bounds flow.now side.now) g
        (right_of flow.now (covers_of flow.now offers.now) side.now (choice_of cuts.now notices.now))) }
{
    flow_is_well_formed(flow);
    match side {
        Side::Delivered(edge) => {
            let cut = cut_at(cuts, flow.src(*edge));
            arrived_from_cut(alloc, flow, offers, *edge, cut)
        },
        Side::Discarded(edge) => kept(alloc, cut_at(cuts, flow.dst(*edge))),
        Side::Notified(node) => notice_at(notices, *node).copy(),
    }
}

/// What of the edge comes from what its sender keeps in a cut. The error is want of memory.
fn arrived_from_cut(
    alloc: Global,
    flow: &Flow,
    offers: &[Offer],
    edge: EdgeId,
    cut: &Cut,
) -> Result<Front, AllocError>
    requires { IsCanonicalCut (bounds_of flow.now (sender flow.now edge)) cut.now }
    ensures { IfOk result (λ g. IsFrontOf (bounds_of flow.now (receiver flow.now edge)) g
        (spec.arrived_from flow.now offers.now edge (set_of flow.now (sender flow.now edge) cut.now))) }
{
    let front = kept(alloc, cut)?;
    arrived(alloc, flow, offers, edge, &front)
}

/// In what a limit says that the notification frontier has to lie. The error is want of memory.
pub fn limit_of(
    alloc: Global,
    flow: &Flow,
    offers: &[Offer],
    limit: &Limit,
    cuts: &[Cut],
    notices: &[Front],
) -> Result<Front, AllocError>
    requires there { IsLimitIn flow.now limit.now }
    requires of_flow { IsChoiceOf flow.now (choice_of cuts.now notices.now) }
    ensures { IfOk result (λ g. IsFrontOf (bounds_of flow.now (note_node flow.now limit.now)) g
        (limit_of flow.now (covers_of flow.now offers.now) limit.now (choice_of cuts.now notices.now))) }
{
    flow_is_well_formed(flow);
    match limit {
        Limit::Own(node) => kept(alloc, cut_at(cuts, *node)),
        Limit::Note(edge) => {
            let notice = notice_at(notices, flow.src(*edge));
            arrived(alloc, flow, offers, *edge, notice)
        },
    }
}
