//! How a lowering of a descent is told.
ghost use Rattle.std.specs.Prelude.{◌≡◌};
ghost use Rattle.fw_flow.specs.declared.side.Inclusion.TheVariants as variants;
ghost use Rattle.fw_model.specs.Lowerings as spec;

use fw_flow::{Cause, Cut, Flow, Inclusion, Limit, Lowering, Part, Side};
use fw_offers::{note_node, owner};

/// The lowering of what stands on the left of an inclusion to a value.
pub(crate) fn lowering_of(flow: &Flow, inclusion: &Inclusion, to: Cut) -> Lowering
    ensures { result ≡ spec.lowering_of flow.now inclusion.now to }
{
    match inclusion {
        Inclusion::OfCut(side) => Lowering {
            node: owner(flow, *side),
            part: Part::Cut,
            to,
            by: side_cause(*side),
        },
        Inclusion::OfNote(limit) => Lowering {
            node: note_node(flow, *limit),
            part: Part::Note,
            to,
            by: limit_cause(*limit),
        },
    }
}

/// What a side says of its node.
fn side_cause(side: Side) -> Cause
    ensures { result ≡ spec.cause_of (variants.OfCut side) }
{
    match side {
        Side::Delivered(edge) => Cause::Delivered(edge),
        Side::Discarded(edge) => Cause::Discarded(edge),
        Side::Notified(_) => Cause::Notified,
    }
}

/// What a limit says of its node.
fn limit_cause(limit: Limit) -> Cause
    ensures { result ≡ spec.cause_of (variants.OfNote limit) }
{
    match limit {
        Limit::Own(_) => Cause::Own,
        Limit::Note(edge) => Cause::Note(edge),
    }
}
