//! Whether a node offers a cut.
ghost use Rattle.std.specs.Prelude.{◌≡◌, ◌↔◌, ◌<◌, [], length, IsTrue};
ghost use Rattle.fw_time.specs.declared.stamp.Bounds.{Bounds as Domain};
ghost use Rattle.fw_frontier.specs.Front.{IsCanonical};
ghost use Rattle.fw_flow.specs.Dataflow.{Dataflow, bounds_of};
ghost use Rattle.fw_model.specs.Choice.{IsCanonicalCut};
ghost use Rattle.fw_model.specs.Offers as spec;
ghost use Rattle.fw_model.specs.Offers.{AreOffersOf, IsBetween, IsListed, IsOffered, IsOfferedFront, IsRangeOf};

use crate::offers::{can_stay, offered_by};
use fw_flow::{Cut, NodeId, Offer, Offered, Recorded};
use fw_frontier::Front;

/// Whether a node offers a cut.
pub fn is_offered(offers: &[Offer], node: NodeId, cut: &Cut) -> bool
    requires { node < length offers.now }
    ensures { (flow : Dataflow) → AreOffersOf flow offers.now → node < length flow.nodes → IsCanonicalCut (bounds_of flow node) cut.now
        → (IsTrue result ↔ IsOffered flow offers.now node cut.now) }
{
    match cut {
        Cut::Present => can_stay(offers, node),
        Cut::At(front) => is_one_of(offered_by(offers, node), front),
    }
}

/// Whether a frontier is one of those that are offered.
fn is_one_of(offered: &Offered, front: &Front) -> bool
    ensures { (bounds : Domain) → IsRangeOf bounds (spec.offered_range offered.now) → IsCanonical bounds front.now
        → (IsTrue result ↔ IsOfferedFront bounds offered.now front.now) }
{
    match offered {
        Offered::Listed(records) => is_listed(records.as_slice(), front),
        Offered::Between { least, greatest } => is_between(least, greatest, front),
        Offered::Batches {
            least,
            greatest,
            exhausted,
        } => {
            if !is_all(front) {
                return is_between(least, greatest, front);
            }
            if *exhausted {
                return true;
            }
            is_between(least, greatest, front)
        }
    }
}

/// Whether a frontier lies between two others.
fn is_between(least: &Front, greatest: &Front, front: &Front) -> bool
    ensures { (bounds : Domain) → IsCanonical bounds front.now → IsCanonical bounds greatest.now
        → (IsTrue result ↔ IsBetween bounds least.now greatest.now front.now) }
{
    if !least.subset(front) {
        return false;
    }
    front.subset(greatest)
}

/// Whether no stamp is outside.
pub fn is_all(front: &Front) -> bool
    ensures { IsTrue result ↔ front.now ≡ [] }
{
    front.outside().is_empty()
}

/// Whether a frontier is that of one of the records.
fn is_listed(records: &[Recorded], front: &Front) -> bool
    ensures { IsTrue result ↔ IsListed front.now records.now }
{
    for record in records {
        if record.front.same(front) {
            return true;
        }
    }
    false
}
