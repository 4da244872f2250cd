//! Whether nothing fails at the end of a certificate.
ghost use Rattle.std.specs.Prelude.{◌≡◌, ◌↔◌, ◌<◌, ◌≤◌, ◌+◌, ◌*◌, ℕ, length, IfOk, IsTrue};
ghost use Rattle.std.specs.List.{AllByRecursion};
ghost use Rattle.fw_model.specs.Choice.{IsChoiceOf};
ghost use Rattle.fw_model.specs.Inclusions.{Holds, inclusions};
ghost use Rattle.fw_model.specs.Lowerings.{choice_of};
ghost use Rattle.fw_model.specs.Offers.{AreOffersOf, covers_of};
ghost use Rattle.fw_certify.specs.Checked.{HoldOnEdge, HoldAtNode};

use crate::begin::Values;
use crate::judge::holds;
use fw_flow::laws::flow_is_well_formed;
use fw_flow::{EdgeId, Flow, Inclusion, Limit, NodeId, Offer, Side, Steps};
use std::alloc::{AllocError, Global};
use std::sync::ledger::Ledger;

/// Whether each inclusion holds at the values. The error is want of memory.
pub(crate) fn all_hold<L: Ledger>(
    alloc: Global,
    flow: &Flow,
    offers: &[Offer],
    values: &Values,
    steps: &mut Steps<L>,
) -> Result<bool, AllocError>
    requires offers { AreOffersOf flow.now offers.now }
    requires of_flow { IsChoiceOf flow.now (choice_of values.now.cuts.items values.now.notices.items) }
    ensures hold { IfOk result (λ b. IsTrue b ↔ AllByRecursion
        (Holds flow.now (covers_of flow.now offers.now) (choice_of values.now.cuts.items values.now.notices.items)) (inclusions flow.now)) }
    ensures bound { IfOk result (λ b. steps.new ≤ steps.old + 3 * length flow.now.edges + 2 * length flow.now.nodes) }
{
    flow_is_well_formed(flow);
    if !hold_on_edges(alloc, flow, offers, values, steps)? {
        return Ok(false);
    }
    hold_at_nodes(alloc, flow, offers, values, steps)
}

/// Whether each inclusion of an edge holds. The error is want of memory.
fn hold_on_edges<L: Ledger>(
    alloc: Global,
    flow: &Flow,
    offers: &[Offer],
    values: &Values,
    steps: &mut Steps<L>,
) -> Result<bool, AllocError>
    requires offers { AreOffersOf flow.now offers.now }
    requires of_flow { IsChoiceOf flow.now (choice_of values.now.cuts.items values.now.notices.items) }
    ensures hold { IfOk result (λ b. IsTrue b ↔ ((d : ℕ) → d < length flow.now.edges
        → HoldOnEdge flow.now offers.now (choice_of values.now.cuts.items values.now.notices.items) d)) }
    ensures bound { IfOk result (λ b. steps.new ≤ steps.old + 3 * length flow.now.edges) }
{
    flow_is_well_formed(flow);
    for place in 0..flow.edges() {
        let edge = EdgeId::at(place as u32);
        if !hold_on_edge(alloc, flow, offers, edge, values, steps)? {
            return Ok(false);
        }
    }
    Ok(true)
}

/// Whether the three inclusions of an edge hold. The error is want of memory.
fn hold_on_edge<L: Ledger>(
    alloc: Global,
    flow: &Flow,
    offers: &[Offer],
    edge: EdgeId,
    values: &Values,
    steps: &mut Steps<L>,
) -> Result<bool, AllocError>
    requires offers { AreOffersOf flow.now offers.now }
    requires there { edge < length flow.now.edges }
    requires of_flow { IsChoiceOf flow.now (choice_of values.now.cuts.items values.now.notices.items) }
    ensures hold { IfOk result (λ b. IsTrue b
        ↔ HoldOnEdge flow.now offers.now (choice_of values.now.cuts.items values.now.notices.items) edge) }
    ensures bound { IfOk result (λ b. steps.new ≤ steps.old + 3) }
{
    let delivered = Inclusion::OfCut(Side::Delivered(edge));
    let discarded = Inclusion::OfCut(Side::Discarded(edge));
    let note = Inclusion::OfNote(Limit::Note(edge));
    if !holds(alloc, flow, offers, &delivered, values, steps)? {
        return Ok(false);
    }
    if !holds(alloc, flow, offers, &discarded, values, steps)? {
        return Ok(false);
    }
    holds(alloc, flow, offers, &note, values, steps)
}

/// Whether each inclusion of a node alone holds. The error is want of memory.
fn hold_at_nodes<L: Ledger>(
    alloc: Global,
    flow: &Flow,
    offers: &[Offer],
    values: &Values,
    steps: &mut Steps<L>,
) -> Result<bool, AllocError>
    requires offers { AreOffersOf flow.now offers.now }
    requires of_flow { IsChoiceOf flow.now (choice_of values.now.cuts.items values.now.notices.items) }
    ensures hold { IfOk result (λ b. IsTrue b ↔ ((p : ℕ) → p < length flow.now.nodes
        → HoldAtNode flow.now offers.now (choice_of values.now.cuts.items values.now.notices.items) p)) }
    ensures bound { IfOk result (λ b. steps.new ≤ steps.old + 2 * length flow.now.nodes) }
{
    for place in 0..flow.nodes() {
        let node = NodeId::at(place as u32);
        if !hold_at_node(alloc, flow, offers, node, values, steps)? {
            return Ok(false);
        }
    }
    Ok(true)
}

/// Whether the two inclusions of a node alone hold. The error is want of memory.
fn hold_at_node<L: Ledger>(
    alloc: Global,
    flow: &Flow,
    offers: &[Offer],
    node: NodeId,
    values: &Values,
    steps: &mut Steps<L>,
) -> Result<bool, AllocError>
    requires offers { AreOffersOf flow.now offers.now }
    requires there { node < length flow.now.nodes }
    requires of_flow { IsChoiceOf flow.now (choice_of values.now.cuts.items values.now.notices.items) }
    ensures hold { IfOk result (λ b. IsTrue b
        ↔ HoldAtNode flow.now offers.now (choice_of values.now.cuts.items values.now.notices.items) node) }
    ensures bound { IfOk result (λ b. steps.new ≤ steps.old + 2) }
{
    let notified = Inclusion::OfCut(Side::Notified(node));
    let own = Inclusion::OfNote(Limit::Own(node));
    if !holds(alloc, flow, offers, &notified, values, steps)? {
        return Ok(false);
    }
    holds(alloc, flow, offers, &own, values, steps)
}
