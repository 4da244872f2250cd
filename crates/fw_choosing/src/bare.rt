//! Whether a node offers no cut.
ghost use Rattle.std.specs.Prelude.{◌≡◌, ◌≢◌, ◌<◌, ℕ, length, true, false, MatchOption};
ghost use Rattle.fw_flow.specs.declared.choice.Cut.{Cut};
ghost use Rattle.fw_model.specs.Offers.{AreOffersOf, IsOffered};
ghost use Rattle.fw_choosing.specs.Choices.{IsBare};

use fw_flow::{Flow, NodeId, Offer, Offered};
use fw_offers::{can_stay, offered_by};

/// The first node that offers no cut, if there is one.
pub(crate) fn first_bare(flow: &Flow, offers: &[Offer]) -> Option<NodeId>
    requires { AreOffersOf flow.now offers.now }
    ensures { MatchOption result
        ((p : ℕ) → p < length flow.now.nodes → (cut : Cut) × IsOffered flow.now offers.now p cut)
        (λ p. (p < length flow.now.nodes) × IsBare flow.now offers.now p × ((q : ℕ) → q < p → IsBare flow.now offers.now q → ⊥)) }
{
    for place in 0..flow.nodes() {
        let node = NodeId::at(place as u32);
        if is_bare(flow, offers, node) {
            return Some(node);
        }
    }
    None
}

/// Whether a node offers no cut.
pub(crate) fn is_bare(flow: &Flow, offers: &[Offer], node: NodeId) -> bool
    requires offers { AreOffersOf flow.now offers.now }
    requires there { node < length flow.now.nodes }
    ensures bare { result ≡ true → IsBare flow.now offers.now node }
    ensures some { result ≡ false → (cut : Cut) × IsOffered flow.now offers.now node cut }
{
    if can_stay(offers, node) {
        return false;
    }
    match offered_by(offers, node) {
        Offered::Listed(records) => records.as_slice().is_empty(),
        Offered::Between { least, greatest } => !least.subset(greatest),
        Offered::Batches {
            least,
            greatest,
            exhausted,
        } => {
            if *exhausted {
                return false;
            }
            !least.subset(greatest)
        }
    }
}
