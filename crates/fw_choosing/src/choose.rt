//! The command `choose`: the largest choice of what the nodes of a flow offer, or why there is none.
ghost use Rattle.std.specs.Prelude.{◌≡◌, ◌<◌, ℕ, length, IfOk, None, string_bytes};
ghost use Rattle.fw_flow.specs.declared.side.Inclusion.TheVariants as inclusions;
ghost use Rattle.fw_model.specs.Lowerings as spec;
ghost use Rattle.fw_model.specs.Offers.{AreOffersOf, IsOffered, RecordsAscend, covers_of};
ghost use Rattle.fw_monitor.specs.Finding.{IsFirstDeadEnd};
ghost use Rattle.fw_choosing.specs.Choices.{IsBare, IsChoiceAnswer};

use crate::answer::Answer;
use crate::bare::first_bare;
use crate::status::ChoosingStatus;
use crate::text::{choice_text, none_text};
use fw_flow::laws::flow_is_well_formed;
use fw_flow::{Cause, Flow, NodeId, Offer, Side, Trail};
use fw_monitor::{Finding, find};
use fw_offers::owner;
use std::alloc::{AllocError, Global};

/// What is printed of the largest choice of what the nodes offer; or of what shows that none is consistent.
pub(crate) fn choose(alloc: Global, flow: &Flow, offers: &[Offer]) -> Result<Answer, AllocError>
    requires offers { AreOffersOf flow.now offers.now }
    requires ascend { RecordsAscend flow.now offers.now }
    ensures { IfOk result (λ answer. IsChoiceAnswer flow.now offers.now (string_bytes answer.text) answer.status) }
{
    if let Some(node) = first_bare(flow, offers) {
        return nothing_offered(alloc, flow, offers, node);
    }
    match find(alloc, flow, offers)? {
        Finding::Largest(descent) => Ok(Answer {
            text: choice_text(alloc, flow, descent)?,
            status: ChoosingStatus::Done,
        }),
        Finding::NoneLeft { trail, side } => nothing_left(alloc, flow, offers, &trail, side),
    }
}

// What is printed where a node offers no cut.
fn nothing_offered(
    alloc: Global,
    flow: &Flow,
    offers: &[Offer],
    node: NodeId,
) -> Result<Answer, AllocError>
    requires there { node < length flow.now.nodes }
    requires bare { IsBare flow.now offers.now node }
    requires first { (q : ℕ) → q < node → IsBare flow.now offers.now q → ⊥ }
    ensures { IfOk result (λ answer. IsChoiceAnswer flow.now offers.now (string_bytes answer.text) answer.status) }
{
    let trail = Trail::of(Vec::new(alloc));
    let text = none_text(alloc, flow, &trail, node, None)?;
    Ok(Answer {
        text,
        status: ChoosingStatus::NoChoice,
    })
}

// What is printed where no cut is left for a side behind these lowerings.
fn nothing_left(
    alloc: Global,
    flow: &Flow,
    offers: &[Offer],
    trail: &Trail,
    side: Side,
) -> Result<Answer, AllocError>
    requires { IsFirstDeadEnd flow.now (covers_of flow.now offers.now) (IsOffered flow.now offers.now) trail.now side }
    ensures { IfOk result (λ answer. IsChoiceAnswer flow.now offers.now (string_bytes answer.text) answer.status) }
{
    flow_is_well_formed(flow);
    let by = Some(cause_of(side));
    Ok(Answer {
        text: none_text(alloc, flow, trail, owner(flow, side), by)?,
        status: ChoosingStatus::NoChoice,
    })
}

// What a side says of its node.
fn cause_of(side: Side) -> Cause
    ensures { result ≡ spec.cause_of (inclusions.OfCut side) }
{
    match side {
        Side::Delivered(edge) => Cause::Delivered(edge),
        Side::Discarded(edge) => Cause::Discarded(edge),
        Side::Notified(_) => Cause::Notified,
    }
}
