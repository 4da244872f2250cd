//! What an entry of a certificate says.
ghost use Rattle.std.specs.Prelude.{◌≡◌, ◌↔◌, MatchOption, IsTrue};
ghost use Rattle.fw_flow.specs.declared.side.Inclusion as said;
ghost use Rattle.fw_model.specs.Inclusions.{IsInclusionOf, IsLimitIn, IsSideOfFlow, node_of};
ghost use Rattle.fw_model.specs.Lowerings.{lowering_of, part_of};
ghost use Rattle.fw_certify.specs.Checked.{said_inclusion};

use fw_flow::{Cause, Flow, Inclusion, Limit, Lowering, NodeId, Part, Side};
use fw_offers::{note_node, owner};

/// The inclusion of the flow that an entry is of, if it is of one.
pub(crate) fn inclusion_of(flow: &Flow, entry: &Lowering) -> Option<Inclusion>
    ensures { MatchOption result
        ((i : said.Inclusion) → IsInclusionOf flow.now i → entry.now ≡ lowering_of flow.now i entry.now.to → ⊥)
        (λ i. IsInclusionOf flow.now i × (entry.now ≡ lowering_of flow.now i entry.now.to)) }
{
    let inclusion = said_inclusion(entry.node, entry.by);
    if !is_of_flow(flow, &inclusion) {
        return None;
    }
    if !(node_of(flow, &inclusion) == entry.node) {
        return None;
    }
    if !is_of_part(entry.part, &inclusion) {
        return None;
    }
    Some(inclusion)
}

/// The inclusion that a cause says of a node.
fn said_inclusion(node: NodeId, cause: Cause) -> Inclusion
    ensures { result ≡ said_inclusion node cause }
{
    match cause {
        Cause::Delivered(edge) => Inclusion::OfCut(Side::Delivered(edge)),
        Cause::Discarded(edge) => Inclusion::OfCut(Side::Discarded(edge)),
        Cause::Notified => Inclusion::OfCut(Side::Notified(node)),
        Cause::Own => Inclusion::OfNote(Limit::Own(node)),
        Cause::Note(edge) => Inclusion::OfNote(Limit::Note(edge)),
    }
}

/// Whether the edge or the node of an inclusion is one of the flow.
fn is_of_flow(flow: &Flow, inclusion: &Inclusion) -> bool
    ensures { IsTrue result ↔ IsInclusionOf flow.now inclusion.now }
{
    match inclusion {
        Inclusion::OfCut(side) => is_side_of_flow(flow, *side),
        Inclusion::OfNote(limit) => is_limit_in(flow, *limit),
    }
}

/// The same of a side.
pub(crate) fn is_side_of_flow(flow: &Flow, side: Side) -> bool
    ensures { IsTrue result ↔ IsSideOfFlow flow.now side }
{
    match side {
        Side::Delivered(edge) => (edge.place() as usize) < flow.edges(),
        Side::Discarded(edge) => (edge.place() as usize) < flow.edges(),
        Side::Notified(node) => (node.place() as usize) < flow.nodes(),
    }
}

/// The same of a limit.
fn is_limit_in(flow: &Flow, limit: Limit) -> bool
    ensures { IsTrue result ↔ IsLimitIn flow.now limit }
{
    match limit {
        Limit::Own(node) => (node.place() as usize) < flow.nodes(),
        Limit::Note(edge) => (edge.place() as usize) < flow.edges(),
    }
}

/// The node one of whose values stands on the left of an inclusion.
fn node_of(flow: &Flow, inclusion: &Inclusion) -> NodeId
    ensures { result ≡ node_of flow.now inclusion.now }
{
    match inclusion {
        Inclusion::OfCut(side) => owner(flow, *side),
        Inclusion::OfNote(limit) => note_node(flow, *limit),
    }
}

/// Whether this part of a node stands on the left of an inclusion.
fn is_of_part(part: Part, inclusion: &Inclusion) -> bool
    ensures { IsTrue result ↔ (part ≡ part_of inclusion.now) }
{
    match part {
        Part::Cut => match inclusion {
            Inclusion::OfCut(_) => true,
            Inclusion::OfNote(_) => false,
        },
        Part::Note => match inclusion {
            Inclusion::OfCut(_) => false,
            Inclusion::OfNote(_) => true,
        },
    }
}
