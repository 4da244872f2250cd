//! Whether a cut is the greatest that is left: each other cut is tested, and none is computed.
ghost use Rattle.std.specs.Prelude.{◌≡◌, ◌↔◌, ◌≤◌, ◌+◌, true, [], length, IfOk, IsTrue, IsFalse};
ghost use Rattle.fw_time.specs.Stamp.{in_domain};
ghost use Rattle.std.specs.List.{AllByRecursion};
ghost use Rattle.fw_frontier.specs.Front.{frontier_of, IsCanonical};
ghost use Rattle.fw_frontier.specs.Frontier.{Within};
ghost use Rattle.fw_flow.specs.declared.choice.Cut.TheVariants as cut;
ghost use Rattle.fw_flow.specs.Dataflow.{bounds_of};
ghost use Rattle.fw_model.specs.Choice.{IsCanonicalCut};
ghost use Rattle.fw_model.specs.Inclusions.{left_of, owner, side_bounds};
ghost use Rattle.fw_model.specs.Offers as spec;
ghost use Rattle.fw_model.specs.Offers.{covers_of};
ghost use Rattle.fw_offers.specs.Sides.{IsLeft};
ghost use Rattle.fw_certify.specs.Checked.{HoldsEachLeft, IsAnyLeft, IsBroken, IsGreatestOfLeft, IsHeld, IsToLower, cut_inside, other_tests};

use crate::cuts::{is_inside, lies_within};
use fw_flow::laws::flow_is_well_formed;
use fw_flow::{Cut, Flow, NodeId, Offer, Offered, Recorded, Side, Steps};
use fw_frontier::Front;
use fw_offers::{is_all, is_offered, offered_by, owner, passes, passes_at};
use fw_time::Stamp;
use std::alloc::{AllocError, Global};
use std::sync::ledger::Ledger;

/// The cuts that are left for a side in place of an old one: what its node offers within the old one, where the side lies within
/// the bound.
#[derive(Clone, Copy)]
pub(crate) struct Left<'a> {
    /// The flow.
    pub(crate) flow: &'a Flow,
    /// What its nodes offer.
    pub(crate) offers: &'a [Offer],
    /// The side.
    pub(crate) side: Side,
    /// The old cut.
    pub(crate) from: &'a Cut,
    /// In what the side has to lie.
    pub(crate) bound: &'a Front,
}

impl<'a> Left<'a> {
    /// Whether a cut is the greatest of them, where the old one is none. The error is want of memory.
    pub(crate) fn is_greatest<L: Ledger>(
        &self,
        alloc: Global,
        to: &Cut,
        steps: &mut Steps<L>,
    ) -> Result<bool, AllocError>
        requires left { IsToLower self.now.flow.now self.now.offers.now self.now.side self.now.from.now self.now.bound.now }
        requires to { IsCanonicalCut (bounds_of self.now.flow.now (owner self.now.flow.now self.now.side)) to.now }
        requires fails { Within (left_of (covers_of self.now.flow.now self.now.offers.now) self.now.side self.now.from.now)
            (frontier_of (side_bounds self.now.flow.now self.now.side) self.now.bound.now) → ⊥ }
        ensures greatest { IfOk result (λ b. IsTrue b
            ↔ IsGreatestOfLeft self.now.flow.now self.now.offers.now self.now.side self.now.from.now self.now.bound.now to.now) }
        ensures bound { IfOk result (λ b. steps.new
            ≤ steps.old + 2 + other_tests (spec.offered_by self.now.offers.now (owner self.now.flow.now self.now.side)) to.now) }
    {
        if !self.has(alloc, to, steps)? {
            return Ok(false);
        }
        match to {
            Cut::Present => Ok(true),
            Cut::At(front) => self.lie_within(alloc, front, steps),
        }
    }

    /// Whether a cut is one of them. The error is want of memory.
    fn has<L: Ledger>(
        &self,
        alloc: Global,
        cut: &Cut,
        steps: &mut Steps<L>,
    ) -> Result<bool, AllocError>
        requires left { IsToLower self.now.flow.now self.now.offers.now self.now.side self.now.from.now self.now.bound.now }
        requires cut { IsCanonicalCut (bounds_of self.now.flow.now (owner self.now.flow.now self.now.side)) cut.now }
        ensures left { IfOk result (λ b. IsTrue b
            ↔ IsLeft self.now.flow.now self.now.offers.now self.now.side self.now.from.now self.now.bound.now cut.now) }
        ensures bound { IfOk result (λ b. steps.new ≤ steps.old + 1) }
    {
        flow_is_well_formed(self.flow);
        if !is_offered(self.offers, self.node(), cut) {
            return Ok(false);
        }
        if !lies_within(cut, self.from) {
            return Ok(false);
        }
        steps.tick();
        passes(alloc, self.flow, self.offers, &self.side, cut, self.bound)
    }

    /// The node whose cuts they are.
    fn node(&self) -> NodeId
        ensures { result ≡ owner self.now.flow.now self.now.side }
    {
        owner(self.flow, self.side)
    }

    /// Whether each frontier of them lies within this one, which is one. The error is want of memory.
    fn lie_within<L: Ledger>(
        &self,
        alloc: Global,
        front: &Front,
        steps: &mut Steps<L>,
    ) -> Result<bool, AllocError>
        requires left { IsToLower self.now.flow.now self.now.offers.now self.now.side self.now.from.now self.now.bound.now }
        requires one { IsLeft self.now.flow.now self.now.offers.now self.now.side self.now.from.now self.now.bound.now (cut.At front.now) }
        ensures each { IfOk result (λ b. IsTrue b
            ↔ HoldsEachLeft self.now.flow.now self.now.offers.now self.now.side self.now.from.now self.now.bound.now front.now) }
        ensures bound { IfOk result (λ b. steps.new
            ≤ steps.old + 1 + other_tests (spec.offered_by self.now.offers.now (owner self.now.flow.now self.now.side)) (cut.At front.now)) }
    {
        flow_is_well_formed(self.flow);
        if is_all(front) {
            return Ok(true);
        }
        match offered_by(self.offers, self.node()) {
            Offered::Listed(records) => self.records_lie_within(
                alloc,
                records.as_slice(),
                front,
                steps,
            ),
            Offered::Between { greatest, .. } => {
                self.breaks_outside(alloc, front, greatest, steps)
            }
            Offered::Batches {
                greatest,
                exhausted,
                ..
            } => {
                if self.has_all(alloc, *exhausted, steps)? {
                    return Ok(false);
                }
                self.breaks_outside(alloc, front, greatest, steps)
            }
        }
    }

    /// Whether all is one of them, of a source that is exhausted. The error is want of memory.
    fn has_all<L: Ledger>(
        &self,
        alloc: Global,
        exhausted: bool,
        steps: &mut Steps<L>,
    ) -> Result<bool, AllocError>
        requires left { IsToLower self.now.flow.now self.now.offers.now self.now.side self.now.from.now self.now.bound.now }
        ensures left { IfOk result (λ b. IsTrue b ↔ (exhausted ≡ true)
            × IsLeft self.now.flow.now self.now.offers.now self.now.side self.now.from.now self.now.bound.now (cut.At [])) }
        ensures bound { IfOk result (λ b. steps.new ≤ steps.old + 1) }
    {
        if !exhausted {
            return Ok(false);
        }
        let all = Cut::At(Front::all(alloc));
        self.has(alloc, &all, steps)
    }

    /// Whether the frontier of each record that is one of them lies within this one. The error is want of memory.
    fn records_lie_within<L: Ledger>(
        &self,
        alloc: Global,
        records: &[Recorded],
        front: &Front,
        steps: &mut Steps<L>,
    ) -> Result<bool, AllocError>
        requires left { IsToLower self.now.flow.now self.now.offers.now self.now.side self.now.from.now self.now.bound.now }
        requires records { AllByRecursion (λ r. IsCanonical (bounds_of self.now.flow.now (owner self.now.flow.now self.now.side)) r.front) records.now }
        requires front { IsCanonical (bounds_of self.now.flow.now (owner self.now.flow.now self.now.side)) front.now }
        ensures each { IfOk result (λ b. IsTrue b ↔ AllByRecursion
            (λ r. IsHeld self.now.flow.now self.now.offers.now self.now.side self.now.from.now self.now.bound.now front.now r.front) records.now) }
        ensures bound { IfOk result (λ b. steps.new ≤ steps.old + length records.now) }
    {
        for record in records {
            if !self.holds(alloc, &record.front, front, steps)? {
                return Ok(false);
            }
        }
        Ok(true)
    }

    /// Whether a frontier lies within another, if it lies within the old cut and the side in it within the bound. The error is
    /// want of memory.
    fn holds<L: Ledger>(
        &self,
        alloc: Global,
        other: &Front,
        front: &Front,
        steps: &mut Steps<L>,
    ) -> Result<bool, AllocError>
        requires left { IsToLower self.now.flow.now self.now.offers.now self.now.side self.now.from.now self.now.bound.now }
        requires other { IsCanonical (bounds_of self.now.flow.now (owner self.now.flow.now self.now.side)) other.now }
        requires front { IsCanonical (bounds_of self.now.flow.now (owner self.now.flow.now self.now.side)) front.now }
        ensures held { IfOk result (λ b. IsTrue b
            ↔ IsHeld self.now.flow.now self.now.offers.now self.now.side self.now.from.now self.now.bound.now front.now other.now) }
        ensures bound { IfOk result (λ b. steps.new ≤ steps.old + 1) }
    {
        if !is_inside(other, self.from) {
            return Ok(true);
        }
        if other.subset(front) {
            return Ok(true);
        }
        steps.tick();
        let passes = passes_at(alloc, self.flow, self.offers, &self.side, other, self.bound)?;
        Ok(!passes)
    }

    /// Whether each stamp just outside a frontier is outside the old cut or the greatest frontier, or breaks the bound alone. The
    /// error is want of memory.
    fn breaks_outside<L: Ledger>(
        &self,
        alloc: Global,
        front: &Front,
        greatest: &Front,
        steps: &mut Steps<L>,
    ) -> Result<bool, AllocError>
        requires left { IsToLower self.now.flow.now self.now.offers.now self.now.side self.now.from.now self.now.bound.now }
        requires front { IsCanonical (bounds_of self.now.flow.now (owner self.now.flow.now self.now.side)) front.now }
        ensures each { IfOk result (λ b. IsTrue b ↔ AllByRecursion
            (λ o. IsBroken self.now.flow.now self.now.offers.now self.now.side self.now.from.now greatest.now self.now.bound.now o) front.now) }
        ensures bound { IfOk result (λ b. steps.new ≤ steps.old + length front.now) }
    {
        for stamp in front.outside() {
            if !self.breaks_alone(alloc, stamp, greatest, steps)? {
                return Ok(false);
            }
        }
        Ok(true)
    }

    /// Whether a stamp is outside the old cut or the greatest frontier, or what comes of all stamps up to it is not within the
    /// bound. The error is want of memory.
    fn breaks_alone<L: Ledger>(
        &self,
        alloc: Global,
        stamp: &Stamp,
        greatest: &Front,
        steps: &mut Steps<L>,
    ) -> Result<bool, AllocError>
        requires left { IsToLower self.now.flow.now self.now.offers.now self.now.side self.now.from.now self.now.bound.now }
        requires stamp { in_domain (bounds_of self.now.flow.now (owner self.now.flow.now self.now.side)) stamp.now ≡ true }
        ensures broken { IfOk result (λ b. IsTrue b
            ↔ IsBroken self.now.flow.now self.now.offers.now self.now.side self.now.from.now greatest.now self.now.bound.now stamp.now) }
        ensures bound { IfOk result (λ b. steps.new ≤ steps.old + 1) }
    {
        if !has_inside(self.from, stamp) {
            return Ok(true);
        }
        if !greatest.contains(stamp) {
            return Ok(true);
        }
        let up_to = Front::cover_of(alloc, &[stamp.copy()], &self.flow.domain(self.node()))?;
        steps.tick();
        let passes = passes_at(
            alloc,
            self.flow,
            self.offers,
            &self.side,
            &up_to,
            self.bound,
        )?;
        Ok(!passes)
    }

    /// Whether there are any. The error is want of memory.
    pub(crate) fn are_some<L: Ledger>(
        &self,
        alloc: Global,
        steps: &mut Steps<L>,
    ) -> Result<bool, AllocError>
        requires left { IsToLower self.now.flow.now self.now.offers.now self.now.side self.now.from.now self.now.bound.now }
        ensures { IfOk result (λ b. IsTrue b
            ↔ IsAnyLeft self.now.flow.now self.now.offers.now self.now.side self.now.from.now self.now.bound.now) }
    {
        flow_is_well_formed(self.flow);
        let present = Cut::Present;
        if self.has(alloc, &present, steps)? {
            return Ok(true);
        }
        match offered_by(self.offers, self.node()) {
            Offered::Listed(records) => self.has_record(alloc, records.as_slice(), steps),
            Offered::Between { least, .. } => {
                let first = Cut::At(least.copy()?);
                self.has(alloc, &first, steps)
            }
            Offered::Batches { least, .. } => {
                let first = Cut::At(least.copy()?);
                if self.has(alloc, &first, steps)? {
                    return Ok(true);
                }
                let all = Cut::At(Front::all(alloc));
                self.has(alloc, &all, steps)
            }
        }
    }

    /// Whether the frontier of any of the records is one of them. The error is want of memory.
    fn has_record<L: Ledger>(
        &self,
        alloc: Global,
        records: &[Recorded],
        steps: &mut Steps<L>,
    ) -> Result<bool, AllocError>
        requires left { IsToLower self.now.flow.now self.now.offers.now self.now.side self.now.from.now self.now.bound.now }
        requires records { AllByRecursion (λ r. IsCanonical (bounds_of self.now.flow.now (owner self.now.flow.now self.now.side)) r.front) records.now }
        ensures { IfOk result (λ b.
            (IsTrue b → IsAnyLeft self.now.flow.now self.now.offers.now self.now.side self.now.from.now self.now.bound.now)
            × (IsFalse b → AllByRecursion
            (λ r. IsLeft self.now.flow.now self.now.offers.now self.now.side self.now.from.now self.now.bound.now (cut.At r.front) → ⊥) records.now)) }
    {
        for record in records {
            let cut = Cut::At(record.front.copy()?);
            if self.has(alloc, &cut, steps)? {
                return Ok(true);
            }
        }
        Ok(false)
    }
}

/// Whether a stamp is inside a cut.
fn has_inside(cut: &Cut, stamp: &Stamp) -> bool
    ensures { result ≡ cut_inside cut.now stamp.now }
{
    match cut {
        Cut::Present => true,
        Cut::At(front) => front.contains(stamp),
    }
}
