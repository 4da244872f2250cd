//! What the nodes of a flow offer.
ghost use Rattle.std.specs.Prelude.{◌≡◌};

use fw_flow::Offer;
use std::marker::Model;

/// What each node of a flow offers, in order. Contracts see their list.
#[derive(Debug, Drop)]
pub struct Offers {
    pub(crate) offers: Vec<Offer>,
}

impl Model for Offers {
    ghost use Rattle.std.specs.Prelude.{List};
    ghost use Rattle.fw_flow.specs.declared.choice.Offer.{Offer};

    ghost Value = { List Offer };

    ghost view = { λ offers. offers.offers.items };
}

impl Offers {
    /// The offers, in order of the nodes.
    pub fn as_slice(&self) -> &[Offer]
        ensures { result.now ≡ self.now }
    {
        &self.offers
    }
}
