//! The command `verify`: whether what a certificate claims is right.
ghost use Rattle.std.specs.Prelude.{◌≡◌, ◌↔◌, ◌<◌, List, IfOk, IsTrue, length, string_bytes};
ghost use Rattle.fw_flow.specs.declared.choice.Choice.{Choice as SomeChoice};
ghost use Rattle.fw_flow.specs.declared.trail.Lowering.{Lowering};
ghost use Rattle.fw_flow.specs.Dataflow.{Dataflow};
ghost use Rattle.fw_model.specs.Certificates.{IsCertificate};
ghost use Rattle.fw_model.specs.Offers.{AreOffersOf, IsOffered, RecordsAscend, covers_of};
ghost use Rattle.fw_offers_text.specs.declared.claim.Ending.TheVariants as endings;
ghost use Rattle.fw_choosing.specs.Choices.{IsBare, IsDeadEndFor, IsNoneLeftAt, IsPlaceOfWrong, IsVerifyAnswer, side_for};

use crate::answer::Answer;
use crate::bare::is_bare;
use crate::status::ChoosingStatus;
use crate::text::{none_count_line, wrong_line, yes_line};
use fw_certify::{Certificate, Verdict, is_dead_end, verify};
use fw_flow::laws::flow_is_well_formed;
use fw_flow::{Cause, Choice, Cuts, Flow, Fronts, NodeId, Offer, Side};
use fw_monitor::descent_to_largest;
use fw_offers_text::{Claim, Ending};
use std::alloc::{AllocError, Global};

/// What is printed of a claim: that it is right, or where it is wrong.
pub(crate) fn judge(
    alloc: Global,
    flow: &Flow,
    offers: &[Offer],
    claim: Claim,
) -> Result<Answer, AllocError>
    requires offers { AreOffersOf flow.now offers.now }
    requires ascend { RecordsAscend flow.now offers.now }
    ensures { IfOk result (λ answer. IsVerifyAnswer flow.now offers.now claim (string_bytes answer.text) answer.status) }
{
    let Claim { lowerings, ending } = claim;
    match ending {
        Ending::Largest(cuts) => judge_cuts(alloc, flow, offers, &lowerings, cuts),
        Ending::NoneLeft { node, by } => judge_none(alloc, flow, offers, &lowerings, node, by),
    }
}

// What is printed of the claim that these cuts are those of the largest choice.
fn judge_cuts(
    alloc: Global,
    flow: &Flow,
    offers: &[Offer],
    lowerings: &Certificate,
    cuts: Cuts,
) -> Result<Answer, AllocError>
    requires offers { AreOffersOf flow.now offers.now }
    requires ascend { RecordsAscend flow.now offers.now }
    ensures { IfOk result (λ answer. IsVerifyAnswer flow.now offers.now
        (record { lowerings = lowerings.now; ending = endings.Largest cuts }) (string_bytes answer.text) answer.status) }
{
    flow_is_well_formed(flow);
    let notices = notices_of(alloc, flow, offers)?;
    let choice = Choice { cuts, notices };
    let count = lowerings.as_slice().len();
    let verdict = verify(alloc, flow, offers, &choice, lowerings)?;
    match verdict {
        Verdict::Yes => {
            let shown = yes_line(alloc, count)?;
            Ok(Answer {
                text: shown,
                status: ChoosingStatus::Done,
            })
        }
        Verdict::No { at } => {
            let wrong = wrong_line(alloc, count, at)?;
            Ok(Answer {
                text: wrong,
                status: ChoosingStatus::NotShown,
            })
        }
    }
}

// What is printed of the claim that no cut of a node is left.
fn judge_none(
    alloc: Global,
    flow: &Flow,
    offers: &[Offer],
    lowerings: &Certificate,
    node: NodeId,
    by: Option<Cause>,
) -> Result<Answer, AllocError>
    requires { AreOffersOf flow.now offers.now }
    ensures { IfOk result (λ answer. IsVerifyAnswer flow.now offers.now
        (record { lowerings = lowerings.now; ending = endings.NoneLeft node by }) (string_bytes answer.text) answer.status) }
{
    flow_is_well_formed(flow);
    let count = lowerings.as_slice().len();
    let is_right = is_none_left_at(alloc, flow, offers, lowerings, node, by)?;
    if is_right {
        let shown = none_count_line(alloc, count)?;
        return Ok(Answer {
            text: shown,
            status: ChoosingStatus::Done,
        });
    }
    let at = first_wrong(alloc, flow, offers, lowerings)?;
    let wrong = wrong_line(alloc, count, at)?;
    Ok(Answer {
        text: wrong,
        status: ChoosingStatus::NotShown,
    })
}

// The notification frontiers of each choice of which there is a certificate: a text tells none. There is at most one such choice.
fn notices_of(alloc: Global, flow: &Flow, offers: &[Offer]) -> Result<Fronts, AllocError>
    requires offers { AreOffersOf flow.now offers.now }
    requires ascend { RecordsAscend flow.now offers.now }
    ensures { (ls : List Lowering) (choice : SomeChoice) → IsCertificate flow.now (covers_of flow.now offers.now) (IsOffered flow.now offers.now) ls choice
        → IfOk result (λ notices. choice.notices ≡ notices) }
{
    flow_is_well_formed(flow);
    let descent = descent_to_largest(alloc, flow, offers)?;
    Ok(descent.choice.notices)
}

// Whether no cut of a node is left behind the lowerings.
fn is_none_left_at(
    alloc: Global,
    flow: &Flow,
    offers: &[Offer],
    lowerings: &Certificate,
    node: NodeId,
    by: Option<Cause>,
) -> Result<bool, AllocError>
    requires { AreOffersOf flow.now offers.now }
    ensures { IfOk result (λ b. IsTrue b ↔ IsNoneLeftAt flow.now offers.now lowerings.now node by) }
{
    match by {
        None => Ok(lowerings.as_slice().is_empty() && is_node_bare(flow, offers, node)),
        Some(cause) => is_dead_end_for(alloc, flow, offers, lowerings, node, cause),
    }
}

// Whether a node of the flow offers no cut.
fn is_node_bare(flow: &Flow, offers: &[Offer], node: NodeId) -> bool
    requires { AreOffersOf flow.now offers.now }
    ensures { IsTrue result ↔ ((node < length flow.now.nodes) × IsBare flow.now offers.now node) }
{
    if (node.place() as usize) < flow.nodes() {
        is_bare(flow, offers, node)
    } else {
        false
    }
}

// Whether no cut of a node is left for what a cause says of it.
fn is_dead_end_for(
    alloc: Global,
    flow: &Flow,
    offers: &[Offer],
    lowerings: &Certificate,
    node: NodeId,
    cause: Cause,
) -> Result<bool, AllocError>
    requires { AreOffersOf flow.now offers.now }
    ensures { IfOk result (λ b. IsTrue b ↔ IsDeadEndFor flow.now offers.now lowerings.now node cause) }
{
    match side_of(flow, node, cause) {
        Some(side) => is_dead_end(alloc, flow, offers, lowerings, side),
        None => Ok(false),
    }
}

// The side of the node's cut that a cause says, if it says one.
fn side_of(flow: &Flow, node: NodeId, cause: Cause) -> Option<Side>
    ensures { result ≡ side_for flow.now node cause }
{
    match cause {
        Cause::Delivered(edge) if flow.dst(edge) == node => Some(Side::Delivered(edge)),
        Cause::Discarded(edge) if flow.src(edge) == node => Some(Side::Discarded(edge)),
        Cause::Notified => Some(Side::Notified(node)),
        Cause::Delivered(_) | Cause::Discarded(_) | Cause::Own | Cause::Note(_) => None,
    }
}

// The place of the first lowering that is wrong, or their number where none is.
fn first_wrong(
    alloc: Global,
    flow: &Flow,
    offers: &[Offer],
    lowerings: &Certificate,
) -> Result<usize, AllocError>
    requires { AreOffersOf flow.now offers.now }
    ensures { IfOk result (IsPlaceOfWrong flow.now offers.now lowerings.now) }
{
    let no_choice = Choice {
        cuts: Cuts::of(Vec::new(alloc)),
        notices: Fronts::of(Vec::new(alloc)),
    };
    let verdict = verify(alloc, flow, offers, &no_choice, lowerings)?;
    match verdict {
        Verdict::Yes => Ok(lowerings.as_slice().len()),
        Verdict::No { at } => Ok(at),
    }
}
