//! What a node offers, looked up.
ghost use Rattle.std.specs.Prelude.{◌≡◌, ◌↔◌, ◌<◌, length, [], Some, None, MatchOption, IsTrue};
ghost use Rattle.fw_time.specs.declared.stamp.Bounds.{Bounds as Domain};
ghost use Rattle.fw_frontier.specs.Frontier.{Within};
ghost use Rattle.fw_frontier.specs.Front.{Front as Outside, frontier_of, IsCanonical};
ghost use Rattle.fw_flow.specs.Dataflow.{kind_of, policy_of};
ghost use Rattle.fw_flow.specs.Restoring.{can_resend};
ghost use Rattle.fw_model.specs.Covers.{takes_its_notices};
ghost use Rattle.fw_model.specs.Offers as spec;
ghost use Rattle.std.specs.Option.{option_copied};
ghost use Rattle.fw_offers.specs.Sides.{has_all, front_on_edge, recorded_front, recorded_left, IsRecordAt};

use fw_flow::{
    Counted, EdgeId, Flow, NodeId, OfEdge, Offer, Offered, Policy, Recorded, Restoring, Side,
};
use fw_frontier::Front;
use fw_time::Stamp;

/// Whether a node can send again what it sent.
pub fn can_resend(flow: &Flow, node: NodeId) -> bool
    ensures { result ≡ can_resend (policy_of flow.now node) }
{
    flow.policy(node).can_resend()
}

/// Whether a node takes all of its cut as notified: it keeps nothing, and is notified.
pub fn takes_its_notices(flow: &Flow, node: NodeId) -> bool
    ensures { result ≡ takes_its_notices (kind_of flow.now node) (policy_of flow.now node) }
{
    match flow.policy(node) {
        Policy::None => flow.kind(node).is_notified(),
        Policy::Lazy | Policy::Logged | Policy::Eager | Policy::Full => false,
    }
}

/// Whether a node can stay as it is.
#[tactic(auto, using(crate::proofs::LookUpLaws::offer_there, crate::proofs::LookUpLaws::offer_past))]
pub fn can_stay(offers: &[Offer], node: NodeId) -> bool
    ensures { result ≡ spec.can_stay offers.now node }
{
    match offers.get(node.place() as usize) {
        Some(offer) => offer.present,
        None => false,
    }
}

/// What a node offers.
#[tactic(auto, using(crate::proofs::LookUpLaws::offer_there))]
pub fn offered_by(offers: &[Offer], node: NodeId) -> &Offered
    requires { node < length offers.now }
    ensures { result.now ≡ spec.offered_by offers.now node }
{
    &offers[node.place() as usize].offered
}

/// The records of a node, if it lists them.
#[tactic(auto, using(crate::proofs::LookUpLaws::offer_there, crate::proofs::LookUpLaws::offer_past))]
pub fn records_of(offers: &[Offer], node: NodeId) -> &[Recorded]
    ensures { result.now ≡ spec.records_of offers.now node }
{
    match offers.get(node.place() as usize) {
        Some(offer) => listed(&offer.offered),
        None => &[],
    }
}

/// The records that are listed.
fn listed(offered: &Offered) -> &[Recorded]
    ensures { result.now ≡ spec.listed_records offered.now }
{
    match offered {
        Offered::Listed(records) => records.as_slice(),
        Offered::Between { .. } | Offered::Batches { .. } => &[],
    }
}

/// Whether a node offers all, as an exhausted source does.
#[tactic(auto, using(crate::proofs::LookUpLaws::offer_there, crate::proofs::LookUpLaws::offer_past))]
pub fn offers_all(offers: &[Offer], node: NodeId) -> bool
    ensures { result ≡ has_all (spec.offered_by offers.now node) }
{
    match offers.get(node.place() as usize) {
        Some(offer) => has_all(&offer.offered),
        None => false,
    }
}

/// Whether all is offered on top of a source's batches.
fn has_all(offered: &Offered) -> bool
    ensures { result ≡ has_all offered.now }
{
    match offered {
        Offered::Listed(_) | Offered::Between { .. } => false,
        Offered::Batches { exhausted, .. } => *exhausted,
    }
}

/// The greatest frontier of a node, if it offers all from a least one to it.
#[tactic(auto, using(crate::proofs::LookUpLaws::offer_there, crate::proofs::LookUpLaws::offer_past))]
pub fn greatest(offers: &[Offer], node: NodeId) -> Option<&Front>
    ensures { MatchOption result (spec.range_of offers.now node ≡ None)
        (λ f. (least : Outside) × (spec.range_of offers.now node ≡ Some (least, f.now))) }
{
    match offers.get(node.place() as usize) {
        Some(offer) => greatest_of(&offer.offered),
        None => None,
    }
}

/// The greatest frontier, where all from a least one to it are offered.
fn greatest_of(offered: &Offered) -> Option<&Front>
    ensures { MatchOption result (spec.offered_range offered.now ≡ None)
        (λ f. (least : Outside) × (spec.offered_range offered.now ≡ Some (least, f.now))) }
{
    match offered {
        Offered::Listed(_) => None,
        Offered::Between { greatest, .. } => Some(greatest),
        Offered::Batches { greatest, .. } => Some(greatest),
    }
}

/// What was delivered to a node.
#[tactic(auto, using(crate::proofs::LookUpLaws::offer_there, crate::proofs::LookUpLaws::offer_past))]
pub fn delivered_to(offers: &[Offer], node: NodeId) -> &[Counted]
    ensures { result.now ≡ spec.delivered_to offers.now node }
{
    match offers.get(node.place() as usize) {
        Some(offer) => offer.stamps.delivered.as_slice(),
        None => &[],
    }
}

/// Of what a node was notified.
#[tactic(auto, using(crate::proofs::LookUpLaws::offer_there, crate::proofs::LookUpLaws::offer_past))]
pub fn notified_of(offers: &[Offer], node: NodeId) -> &[Stamp]
    ensures { result.now ≡ spec.notified_of offers.now node }
{
    match offers.get(node.place() as usize) {
        Some(offer) => offer.stamps.notified.as_slice(),
        None => &[],
    }
}

/// What a node sent.
#[tactic(auto, using(crate::proofs::LookUpLaws::offer_there, crate::proofs::LookUpLaws::offer_past))]
pub fn sent_by(offers: &[Offer], node: NodeId) -> &[Counted]
    ensures { result.now ≡ spec.offered_sent offers.now node }
{
    match offers.get(node.place() as usize) {
        Some(offer) => offer.stamps.sent.as_slice(),
        None => &[],
    }
}

/// The first record of a frontier, if the node is restored by its records.
pub(crate) fn checkpoint_at<'a>(
    flow: &Flow,
    offers: &'a [Offer],
    node: NodeId,
    front: &Front,
) -> Option<&'a Recorded>
    ensures { IsRecordAt flow.now offers.now node front.now (option_copied result) }
{
    match flow.restoring(node) {
        Restoring::Checkpoints => record_at(records_of(offers, node), front),
        Restoring::Batches | Restoring::Bound | Restoring::Anything | Restoring::Events => None,
    }
}

/// The record of a frontier: the first that is listed.
fn record_at<'a>(records: &'a [Recorded], front: &Front) -> Option<&'a Recorded>
    ensures { option_copied result ≡ spec.record_at front.now records.now }
{
    for record in records {
        if record.front.same(front) {
            return Some(record);
        }
    }
    None
}

/// The frontier that is listed for an edge.
fn front_on(fronts: &[OfEdge], edge: EdgeId) -> Option<&Front>
    ensures { option_copied result ≡ front_on_edge edge fronts.now }
{
    for of_edge in fronts {
        if of_edge.edge == edge {
            return Some(&of_edge.front);
        }
    }
    None
}

/// What a record holds of a side, if it lists it.
fn recorded(entry: &Recorded, side: Side) -> Option<&Front>
    ensures { option_copied result ≡ recorded_front side entry.now }
{
    match side {
        Side::Delivered(edge) => front_on(entry.delivered.as_slice(), edge),
        Side::Discarded(edge) => front_on(entry.discarded.as_slice(), edge),
        Side::Notified(_) => Some(&entry.notified),
    }
}

/// Whether what the record holds of the side lies within the bound; without a record it holds nothing.
pub(crate) fn record_passes(checkpoint: Option<&Recorded>, side: Side, bound: &Front) -> bool
    ensures { (bounds : Domain) → IsCanonical bounds bound.now
        → (IsTrue result ↔ Within (recorded_left bounds side (option_copied checkpoint.entry)) (frontier_of bounds bound.now)) }
{
    match checkpoint {
        Some(entry) => match recorded(entry, side) {
            Some(held) => held.subset(bound),
            None => true,
        },
        None => true,
    }
}
