//! The values that all lowerings start from.
ghost use Rattle.std.specs.Prelude.{◌≡◌, ◌<◌, ℕ, [], length, reverse, IfOk, MatchOption};
ghost use Rattle.std.specs.List.{find, list_all};
ghost use Rattle.std.specs.Option.{option_copied};
ghost use Rattle.fw_time.specs.declared.stamp.Bounds.{Bounds as Domain};
ghost use Rattle.fw_frontier.specs.Front.{Front as Outside, IsCanonical, is_within};
ghost use Rattle.fw_flow.specs.declared.choice.Choice as choices;
ghost use Rattle.fw_flow.specs.declared.choice.Cut as cuts;
ghost use Rattle.fw_flow.specs.declared.choice.Offered.TheVariants as form;
ghost use Rattle.fw_model.specs.Choice.{cut_of};
ghost use Rattle.fw_model.specs.Certificates.{IsBeginning, IsGreatestOffered};
ghost use Rattle.fw_model.specs.Lowerings.{choice_of};
ghost use Rattle.fw_model.specs.Offers.{AreOffersOf, IsOffered};
ghost use Rattle.fw_certify.specs.Checked.{AreCanonicalFronts, IsGreatestFront};

use fw_flow::{Cut, Flow, NodeId, Offer, Offered, Recorded};
use fw_frontier::Front;
use fw_offers::{all_kept, can_stay, offered_by};
use std::alloc::{AllocError, Global};

/// The cut and the notification frontier of each node.
#[derive(Drop)]
pub(crate) struct Values {
    /// The cuts.
    pub(crate) cuts: Vec<Cut>,
    /// The notification frontiers.
    pub(crate) notices: Vec<Front>,
}

/// The greatest cut of each node, and all that it keeps; none where a node has no greatest cut. The error is want of memory.
pub(crate) fn beginning(
    alloc: Global,
    flow: &Flow,
    offers: &[Offer],
) -> Result<Option<Values>, AllocError>
    requires { AreOffersOf flow.now offers.now }
    ensures { IfOk result (λ found. MatchOption found
        ((start : choices.Choice) → IsBeginning flow.now (IsOffered flow.now offers.now) start → ⊥)
        (λ values. IsBeginning flow.now (IsOffered flow.now offers.now) (choice_of values.cuts.items values.notices.items))) }
{
    match greatest_cuts(alloc, flow, offers)? {
        Some(cuts) => {
            let notices = all_kept(alloc, flow, &cuts)?;
            Ok(Some(Values { cuts, notices }))
        }
        None => Ok(None),
    }
}

/// The greatest cut of each node; none where a node has none. The error is want of memory.
fn greatest_cuts(
    alloc: Global,
    flow: &Flow,
    offers: &[Offer],
) -> Result<Option<Vec<Cut>>, AllocError>
    requires { AreOffersOf flow.now offers.now }
    ensures { IfOk result (λ found. MatchOption found
        ((start : choices.Choice) → IsBeginning flow.now (IsOffered flow.now offers.now) start → ⊥)
        (λ cuts. (length cuts.items ≡ length flow.now.nodes) × ((p : ℕ) → p < length flow.now.nodes
        → IsGreatestOffered flow.now (IsOffered flow.now offers.now) p (cut_of (choice_of cuts.items []) p)))) }
{
    let mut cuts = Vec::new(alloc);
    for place in 0..flow.nodes() {
        match greatest_cut(alloc, flow, offers, NodeId::at(place as u32))? {
            Some(cut) => cuts.push(cut)?,
            None => return Ok(None),
        }
    }
    Ok(Some(cuts))
}

/// The greatest cut that a node offers, if there is one. The error is want of memory.
fn greatest_cut(
    alloc: Global,
    flow: &Flow,
    offers: &[Offer],
    node: NodeId,
) -> Result<Option<Cut>, AllocError>
    requires offers { AreOffersOf flow.now offers.now }
    requires there { node < length flow.now.nodes }
    ensures { IfOk result (λ found. MatchOption found
        ((cut : cuts.Cut) → IsGreatestOffered flow.now (IsOffered flow.now offers.now) node cut → ⊥)
        (IsGreatestOffered flow.now (IsOffered flow.now offers.now) node)) }
{
    if can_stay(offers, node) {
        return Ok(Some(Cut::Present));
    }
    match greatest_front(alloc, offered_by(offers, node))? {
        Some(front) => Ok(Some(Cut::At(front))),
        None => Ok(None),
    }
}

/// The greatest frontier of those that are offered, if there is one. The error is want of memory.
fn greatest_front(alloc: Global, offered: &Offered) -> Result<Option<Front>, AllocError>
    ensures { (bounds : Domain) → AreCanonicalFronts bounds offered.now → IfOk result (λ found. MatchOption found
        ((front : Outside) → IsGreatestFront bounds offered.now front → ⊥) (IsGreatestFront bounds offered.now)) }
{
    match offered {
        Offered::Listed(records) => greatest_listed(records.as_slice()),
        Offered::Between { least, greatest } => greatest_between(least, greatest),
        Offered::Batches {
            least,
            greatest,
            exhausted,
        } => {
            if *exhausted {
                return Ok(Some(Front::all(alloc)));
            }
            greatest_between(least, greatest)
        }
    }
}

/// The second frontier, if the first lies within it. The error is want of memory.
fn greatest_between(least: &Front, greatest: &Front) -> Result<Option<Front>, AllocError>
    ensures { (bounds : Domain) → IsCanonical bounds least.now → IsCanonical bounds greatest.now → IfOk result (λ found. MatchOption found
        ((front : Outside) → IsGreatestFront bounds (form.Between least.now greatest.now) front → ⊥)
        (IsGreatestFront bounds (form.Between least.now greatest.now))) }
{
    if !least.subset(greatest) {
        return Ok(None);
    }
    Ok(Some(greatest.copy()?))
}

/// The frontier of a record within which those of all lie, if there is one. The error is want of memory.
fn greatest_listed(records: &[Recorded]) -> Result<Option<Front>, AllocError>
    ensures { (bounds : Domain) → AreCanonicalFronts bounds (form.Listed records.now) → IfOk result (λ found. MatchOption found
        ((front : Outside) → IsGreatestFront bounds (form.Listed records.now) front → ⊥)
        (IsGreatestFront bounds (form.Listed records.now))) }
{
    match last_greatest(records) {
        Some(record) => Ok(Some(record.front.copy()?)),
        None => Ok(None),
    }
}

/// The last record within whose frontier those of all lie, if there is one. The last of all is asked first: where records ascend,
/// it is the one.
fn last_greatest(records: &[Recorded]) -> Option<&Recorded>
    ensures { option_copied result ≡ find (λ r. list_all (λ s. is_within s.front r.front) records.now) (reverse records.now) }
{
    records
        .iter()
        .rev()
        .find(|record| holds_all(records, &record.front))
}

/// Whether each record's frontier lies within a frontier.
fn holds_all(records: &[Recorded], front: &Front) -> bool
    ensures { result ≡ list_all (λ r. is_within r.front front.now) records.now }
{
    records.iter().all(|record| record.front.subset(front))
}
