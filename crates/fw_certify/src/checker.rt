//! Whether a certificate shows that a choice is the largest, and whether lowerings show that there is none.
ghost use Rattle.std.specs.Prelude.{◌≡◌, ◌↔◌, ◌<◌, ◌≤◌, ◌+◌, ◌*◌, length, IfOk, IsTrue};
ghost use Rattle.fw_model.specs.Certificates.{IsDeadEnd};
ghost use Rattle.fw_model.specs.Choice.{IsChoiceOf, IsLargestBy};
ghost use Rattle.fw_model.specs.Inclusions.{IsSideOfFlow};
ghost use Rattle.fw_model.specs.Lowerings.{choice_of};
ghost use Rattle.fw_model.specs.Offers.{AreOffersOf, IsOffered, covers_of};
ghost use Rattle.fw_certify.specs.Checked.{IsVerdict, tests_of};
ghost use Rattle.fw_certify.specs.Followed.{IsFollowed, IsNoneLeft};
ghost use Rattle.fw_certify.specs.declared.checker.Verdict.TheVariants as verdict;

use crate::Certificate;
use crate::begin::{Values, beginning};
use crate::ends::all_hold;
use crate::entry::is_side_of_flow;
use crate::judge::take;
use crate::left::Left;
use crate::same::is_choice;
use fw_flow::laws::flow_is_well_formed;
use fw_flow::{Choice, Flow, Lowering, Offer, Side, Steps};
use fw_offers::{cut_at, owner, right_of};
use std::alloc::{AllocError, Global};
use std::marker::Brand;
use std::sync::ledger::{Blank, Ledger};

/// What a checker says of a certificate.
#[derive(Clone, Copy, Debug)]
pub enum Verdict {
    /// It shows that the choice is the largest.
    Yes,
    /// It does not.
    No {
        /// Its first entry that is wrong; the number of its entries, where the end is.
        at: usize,
    },
}

/// Where the entries of a certificate lead.
#[derive(Drop)]
enum Followed {
    /// Nowhere: a node has no greatest cut.
    Nowhere,
    /// Up to an entry that is wrong.
    Wrong { at: usize },
    /// All of them to these values.
    Through(Values),
}

/// Whether a certificate shows that a choice is the largest of what the nodes offer: yes, or its first entry that is wrong. The
/// error is want of memory.
///
/// It computes no greatest value: it tests of each other cut that it is not left, or of each stamp just outside a cut that it
/// cannot be kept more.
pub fn verify(
    alloc: Global,
    flow: &Flow,
    offers: &[Offer],
    choice: &Choice,
    certificate: &Certificate,
) -> Result<Verdict, AllocError>
    requires { AreOffersOf flow.now offers.now }
    ensures exact { IfOk result (IsVerdict flow.now (covers_of flow.now offers.now) (IsOffered flow.now offers.now) certificate.now choice.now) }
    ensures yes { IfOk result (λ v. v ≡ verdict.Yes
        → IsLargestBy flow.now (covers_of flow.now offers.now) (IsOffered flow.now offers.now) choice.now) }
{
    verify_uncounted::<Brand>(alloc, flow, offers, choice, certificate, Blank::new(1))
}

/// The same by a counter of its own.
fn verify_uncounted<L: Ledger>(
    alloc: Global,
    flow: &Flow,
    offers: &[Offer],
    choice: &Choice,
    certificate: &Certificate,
    blank: Blank,
) -> Result<Verdict, AllocError>
    requires offers { AreOffersOf flow.now offers.now }
    requires name { blank.name ≡ L.name }
    requires parts { blank.parts ≡ L.parts }
    requires some { 0 < L.parts }
    ensures exact { IfOk result (IsVerdict flow.now (covers_of flow.now offers.now) (IsOffered flow.now offers.now) certificate.now choice.now) }
    ensures yes { IfOk result (λ v. v ≡ verdict.Yes
        → IsLargestBy flow.now (covers_of flow.now offers.now) (IsOffered flow.now offers.now) choice.now) }
{
    let mut steps = Steps::<L>::none(blank);
    verify_counted(alloc, flow, offers, choice, certificate, &mut steps)
}

/// The same, and each test of a side is a step. The error is want of memory.
pub fn verify_counted<L: Ledger>(
    alloc: Global,
    flow: &Flow,
    offers: &[Offer],
    choice: &Choice,
    certificate: &Certificate,
    steps: &mut Steps<L>,
) -> Result<Verdict, AllocError>
    requires { AreOffersOf flow.now offers.now }
    ensures exact { IfOk result (IsVerdict flow.now (covers_of flow.now offers.now) (IsOffered flow.now offers.now) certificate.now choice.now) }
    ensures yes { IfOk result (λ v. v ≡ verdict.Yes
        → IsLargestBy flow.now (covers_of flow.now offers.now) (IsOffered flow.now offers.now) choice.now) }
    ensures bound { IfOk result (λ v. steps.new
        ≤ steps.old + 3 * length flow.now.edges + 2 * length flow.now.nodes + tests_of offers.now certificate.now) }
{
    flow_is_well_formed(flow);
    let entries = certificate.as_slice();
    let followed = follow(alloc, flow, offers, entries, steps)?;
    match followed {
        Followed::Nowhere => Ok(Verdict::No { at: 0 }),
        Followed::Wrong { at } => Ok(Verdict::No { at }),
        Followed::Through(values) => {
            let at = entries.len();
            if !is_choice(&values, choice) {
                return Ok(Verdict::No { at });
            }
            if !all_hold(alloc, flow, offers, &values, steps)? {
                return Ok(Verdict::No { at });
            }
            Ok(Verdict::Yes)
        }
    }
}

/// Whether the lowerings lead to values at which no cut is left for a side: then no choice is consistent. The error is want of
/// memory.
pub fn is_dead_end(
    alloc: Global,
    flow: &Flow,
    offers: &[Offer],
    certificate: &Certificate,
    side: Side,
) -> Result<bool, AllocError>
    requires { AreOffersOf flow.now offers.now }
    ensures { IfOk result (λ b. IsTrue b
        ↔ IsDeadEnd flow.now (covers_of flow.now offers.now) (IsOffered flow.now offers.now) certificate.now side) }
{
    is_dead_end_uncounted::<Brand>(alloc, flow, offers, certificate, &side, Blank::new(1))
}

/// The same by a counter of its own.
fn is_dead_end_uncounted<L: Ledger>(
    alloc: Global,
    flow: &Flow,
    offers: &[Offer],
    certificate: &Certificate,
    side: &Side,
    blank: Blank,
) -> Result<bool, AllocError>
    requires offers { AreOffersOf flow.now offers.now }
    requires name { blank.name ≡ L.name }
    requires parts { blank.parts ≡ L.parts }
    requires some { 0 < L.parts }
    ensures { IfOk result (λ b. IsTrue b
        ↔ IsDeadEnd flow.now (covers_of flow.now offers.now) (IsOffered flow.now offers.now) certificate.now side.now) }
{
    let mut steps = Steps::<L>::none(blank);
    if !is_side_of_flow(flow, *side) {
        return Ok(false);
    }
    let followed = follow(alloc, flow, offers, certificate.as_slice(), &mut steps)?;
    match followed {
        Followed::Nowhere => Ok(false),
        Followed::Wrong { .. } => Ok(false),
        Followed::Through(values) => is_none_left(alloc, flow, offers, side, &values, &mut steps),
    }
}

/// Whether no cut is left for a side at the values. The error is want of memory.
fn is_none_left<L: Ledger>(
    alloc: Global,
    flow: &Flow,
    offers: &[Offer],
    side: &Side,
    values: &Values,
    steps: &mut Steps<L>,
) -> Result<bool, AllocError>
    requires offers { AreOffersOf flow.now offers.now }
    requires there { IsSideOfFlow flow.now side.now }
    requires of_flow { IsChoiceOf flow.now (choice_of values.now.cuts.items values.now.notices.items) }
    ensures { IfOk result (λ b. IsTrue b ↔ IsNoneLeft flow.now offers.now side.now (choice_of values.now.cuts.items values.now.notices.items)) }
{
    flow_is_well_formed(flow);
    let bound = right_of(alloc, flow, offers, side, &values.cuts, &values.notices)?;
    let left = Left {
        flow,
        offers,
        side: *side,
        from: cut_at(&values.cuts, owner(flow, *side)),
        bound: &bound,
    };
    let are_some = left.are_some(alloc, steps)?;
    Ok(!are_some)
}

/// Where the entries lead from the beginning. The error is want of memory.
fn follow<L: Ledger>(
    alloc: Global,
    flow: &Flow,
    offers: &[Offer],
    entries: &[Lowering],
    steps: &mut Steps<L>,
) -> Result<Followed, AllocError>
    requires { AreOffersOf flow.now offers.now }
    ensures followed { IfOk result (IsFollowed flow.now offers.now entries.now) }
    ensures bound { IfOk result (λ f. steps.new ≤ steps.old + tests_of offers.now entries.now) }
{
    flow_is_well_formed(flow);
    let mut values = match beginning(alloc, flow, offers)? {
        Some(values) => values,
        None => return Ok(Followed::Nowhere),
    };
    for at in 0..entries.len() {
        if !take(alloc, flow, offers, &entries[at], &mut values, steps)? {
            return Ok(Followed::Wrong { at });
        }
    }
    Ok(Followed::Through(values))
}
