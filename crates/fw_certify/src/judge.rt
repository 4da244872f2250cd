//! Whether an entry of a certificate is right at the values so far.
ghost use Rattle.std.specs.Prelude.{◌≡◌, ◌↔◌, ◌≤◌, ◌+◌, not, ◌||◌, IfOk, IsTrue};
ghost use Rattle.std.specs.List.{list_all};
ghost use Rattle.fw_time.specs.declared.stamp.Bounds.{Bounds as Domain};
ghost use Rattle.fw_frontier.specs.Front.{inside, IsCanonical};
ghost use Rattle.fw_flow.specs.declared.side.Inclusion.TheVariants as said;
ghost use Rattle.fw_flow.specs.Dataflow.{bounds_of};
ghost use Rattle.fw_model.specs.Choice.{IsCanonicalCut, IsChoiceOf};
ghost use Rattle.fw_model.specs.Inclusions.{Holds, IsInclusionOf, IsLimitIn, IsSideOfFlow, note_node, owner};
ghost use Rattle.fw_model.specs.Lowerings.{choice_of};
ghost use Rattle.fw_model.specs.Offers as spec;
ghost use Rattle.fw_model.specs.Offers.{AreOffersOf, covers_of};
ghost use Rattle.fw_certify.specs.Checked.{IsJudged, IsMeetOf, IsValueJudged, other_tests};

use crate::begin::Values;
use crate::entry::inclusion_of;
use crate::left::Left;
use fw_flow::laws::flow_is_well_formed;
use fw_flow::{Cut, Flow, Inclusion, Limit, Lowering, Offer, Side, Steps};
use fw_frontier::Front;
use fw_offers::{cut_at, limit_of, note_node, notice_at, owner, passes, right_of};
use fw_time::Bounds;
use std::alloc::{AllocError, Global};
use std::sync::ledger::Ledger;

/// Takes an entry, if it is right; whether it is. The error is want of memory.
pub(crate) fn take<L: Ledger>(
    alloc: Global,
    flow: &Flow,
    offers: &[Offer],
    entry: &Lowering,
    values: &mut Values,
    steps: &mut Steps<L>,
) -> Result<bool, AllocError>
    requires offers { AreOffersOf flow.now offers.now }
    requires of_flow { IsChoiceOf flow.now (choice_of values.old.cuts.items values.old.notices.items) }
    ensures judged { IfOk result (IsJudged flow.now offers.now entry.now
        (choice_of values.old.cuts.items values.old.notices.items) (choice_of values.new.cuts.items values.new.notices.items)) }
    ensures bound { IfOk result (λ b. steps.new
        ≤ steps.old + 3 + other_tests (spec.offered_by offers.now entry.now.node) entry.now.to) }
{
    let inclusion = match inclusion_of(flow, entry) {
        Some(inclusion) => inclusion,
        None => return Ok(false),
    };
    if !is_canonical_cut(alloc, &flow.domain(entry.node), &entry.to)? {
        return Ok(false);
    }
    if holds(alloc, flow, offers, &inclusion, values, steps)? {
        return Ok(false);
    }
    match inclusion {
        Inclusion::OfCut(side) => take_cut(alloc, flow, offers, side, &entry.to, values, steps),
        Inclusion::OfNote(limit) => take_note(alloc, flow, offers, limit, &entry.to, values),
    }
}

/// Whether the frontier of a cut is canonical in a domain. The error is want of memory.
fn is_canonical_cut(alloc: Global, domain: &Bounds, cut: &Cut) -> Result<bool, AllocError>
    ensures { IfOk result (λ b. IsTrue b ↔ IsCanonicalCut domain.now cut.now) }
{
    match cut {
        Cut::Present => Ok(true),
        Cut::At(front) => is_canonical(alloc, domain, front),
    }
}

/// Whether a frontier is canonical in a domain: its stamps are of it, and it is the one that they spell. The error is want of
/// memory.
fn is_canonical(alloc: Global, domain: &Bounds, front: &Front) -> Result<bool, AllocError>
    ensures { IfOk result (λ b. IsTrue b ↔ IsCanonical domain.now front.now) }
{
    let spelled = Front::checked_until(alloc, front.outside(), domain)?;
    match spelled {
        Some(canonical) => Ok(canonical.same(front)),
        None => Ok(false),
    }
}

/// Whether an inclusion holds at the values. The error is want of memory.
pub(crate) fn holds<L: Ledger>(
    alloc: Global,
    flow: &Flow,
    offers: &[Offer],
    inclusion: &Inclusion,
    values: &Values,
    steps: &mut Steps<L>,
) -> Result<bool, AllocError>
    requires offers { AreOffersOf flow.now offers.now }
    requires there { IsInclusionOf flow.now inclusion.now }
    requires of_flow { IsChoiceOf flow.now (choice_of values.now.cuts.items values.now.notices.items) }
    ensures holds { IfOk result (λ b. IsTrue b
        ↔ Holds flow.now (covers_of flow.now offers.now) (choice_of values.now.cuts.items values.now.notices.items) inclusion.now) }
    ensures bound { steps.new ≡ steps.old + 1 }
{
    steps.tick();
    match inclusion {
        Inclusion::OfCut(side) => is_met(alloc, flow, offers, side, values),
        Inclusion::OfNote(limit) => is_kept(alloc, flow, offers, limit, values),
    }
}

/// Whether a side lies in what it has to lie in. The error is want of memory.
fn is_met(
    alloc: Global,
    flow: &Flow,
    offers: &[Offer],
    side: &Side,
    values: &Values,
) -> Result<bool, AllocError>
    requires offers { AreOffersOf flow.now offers.now }
    requires there { IsSideOfFlow flow.now side.now }
    requires of_flow { IsChoiceOf flow.now (choice_of values.now.cuts.items values.now.notices.items) }
    ensures { IfOk result (λ b. IsTrue b
        ↔ Holds flow.now (covers_of flow.now offers.now) (choice_of values.now.cuts.items values.now.notices.items) (said.OfCut side.now)) }
{
    flow_is_well_formed(flow);
    let bound = right_of(alloc, flow, offers, side, &values.cuts, &values.notices)?;
    let cut = cut_at(&values.cuts, owner(flow, *side));
    passes(alloc, flow, offers, side, cut, &bound)
}

/// Whether a notification frontier lies within its limit. The error is want of memory.
fn is_kept(
    alloc: Global,
    flow: &Flow,
    offers: &[Offer],
    limit: &Limit,
    values: &Values,
) -> Result<bool, AllocError>
    requires there { IsLimitIn flow.now limit.now }
    requires of_flow { IsChoiceOf flow.now (choice_of values.now.cuts.items values.now.notices.items) }
    ensures { IfOk result (λ b. IsTrue b
        ↔ Holds flow.now (covers_of flow.now offers.now) (choice_of values.now.cuts.items values.now.notices.items) (said.OfNote limit.now)) }
{
    flow_is_well_formed(flow);
    let bound = limit_of(alloc, flow, offers, limit, &values.cuts, &values.notices)?;
    let notice = notice_at(&values.notices, note_node(flow, *limit));
    Ok(notice.subset(&bound))
}

/// Takes a cut for the node of a side, if it is the greatest that is left; whether it is. The error is want of memory.
fn take_cut<L: Ledger>(
    alloc: Global,
    flow: &Flow,
    offers: &[Offer],
    side: Side,
    to: &Cut,
    values: &mut Values,
    steps: &mut Steps<L>,
) -> Result<bool, AllocError>
    requires offers { AreOffersOf flow.now offers.now }
    requires there { IsSideOfFlow flow.now side }
    requires of_flow { IsChoiceOf flow.now (choice_of values.old.cuts.items values.old.notices.items) }
    requires to { IsCanonicalCut (bounds_of flow.now (owner flow.now side)) to.now }
    requires fails { Holds flow.now (covers_of flow.now offers.now) (choice_of values.old.cuts.items values.old.notices.items) (said.OfCut side) → ⊥ }
    ensures judged { IfOk result (IsValueJudged flow.now offers.now (said.OfCut side) to.now
        (choice_of values.old.cuts.items values.old.notices.items) (choice_of values.new.cuts.items values.new.notices.items)) }
    ensures bound { IfOk result (λ b. steps.new
        ≤ steps.old + 2 + other_tests (spec.offered_by offers.now (owner flow.now side)) to.now) }
{
    flow_is_well_formed(flow);
    let bound = right_of(alloc, flow, offers, &side, &values.cuts, &values.notices)?;
    let node = owner(flow, side);
    let left = Left {
        flow,
        offers,
        side,
        from: cut_at(&values.cuts, node),
        bound: &bound,
    };
    if !left.is_greatest(alloc, to, steps)? {
        return Ok(false);
    }
    let cut = to.copy()?;
    values.cuts[node.place() as usize] = cut;
    Ok(true)
}

/// Takes a notification frontier for the node of a limit, if it is the greatest that is left; whether it is. The error is want of
/// memory.
fn take_note(
    alloc: Global,
    flow: &Flow,
    offers: &[Offer],
    limit: Limit,
    to: &Cut,
    values: &mut Values,
) -> Result<bool, AllocError>
    requires there { IsLimitIn flow.now limit }
    requires of_flow { IsChoiceOf flow.now (choice_of values.old.cuts.items values.old.notices.items) }
    requires to { IsCanonicalCut (bounds_of flow.now (note_node flow.now limit)) to.now }
    ensures { IfOk result (IsValueJudged flow.now offers.now (said.OfNote limit) to.now
        (choice_of values.old.cuts.items values.old.notices.items) (choice_of values.new.cuts.items values.new.notices.items)) }
{
    flow_is_well_formed(flow);
    let front = match to {
        Cut::Present => return Ok(false),
        Cut::At(front) => front,
    };
    let bound = limit_of(alloc, flow, offers, &limit, &values.cuts, &values.notices)?;
    let node = note_node(flow, limit);
    if !is_meet(front, notice_at(&values.notices, node), &bound) {
        return Ok(false);
    }
    let taken = front.copy()?;
    values.notices[node.place() as usize] = taken;
    Ok(true)
}

/// Whether a frontier is what is inside both others: it lies within them, and each stamp just outside is outside one of them.
fn is_meet(front: &Front, one: &Front, other: &Front) -> bool
    ensures { (b : Domain) → IsCanonical b front.now → IsCanonical b one.now → IsCanonical b other.now
        → (IsTrue result ↔ IsMeetOf b one.now other.now front.now) }
{
    if !front.subset(one) {
        return false;
    }
    if !front.subset(other) {
        return false;
    }
    are_outside_one(front, one, other)
}

/// Whether each stamp just outside a frontier is outside one of two others.
fn are_outside_one(front: &Front, one: &Front, other: &Front) -> bool
    ensures { result ≡ list_all (λ o. not (inside one.now o) || not (inside other.now o)) front.now }
{
    front
        .outside()
        .iter()
        .all(|stamp| !one.contains(stamp) || !other.contains(stamp))
}
