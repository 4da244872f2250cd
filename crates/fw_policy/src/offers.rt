//! What nodes offer to a recovery.
ghost use Rattle.std.specs.Prelude.{◌≡◌, ℕ, length, List, Bool, IfOk};
ghost use Rattle.fw_frontier.specs.Front.{Front};
ghost use Rattle.fw_flow.specs.Dataflow.{System};
ghost use Rattle.fw_model.specs.Machine.{Machine};
ghost use Rattle.fw_model.specs.Choosing.{choice_at};
ghost use Rattle.fw_model.specs.Offers.{AreOffersAbove, AreOffersIn, AreOffersOf};
ghost use Rattle.fw_policy.specs.Offering.{IsOfferBy};
ghost use Rattle.fw_policy.specs.Known.{IsKnown};
ghost use Rattle.fw_policy.specs.Shaped.{FitsFlow};
ghost use Rattle.fw_policy.specs.View.{AreWholeFrom, IsViewOf};

use crate::offering::offered;
use crate::view::NodeView;
use fw_flow::laws::flow_is_well_formed;
use fw_flow::{Flow, NodeId, Offer};
use fw_keep::Entry;
use std::alloc::{AllocError, Global};

/// What each node offers to a recovery, by its kind and policy, where so much is known of the nodes and these writes were not
/// collected. It takes a view of each node: what the views tell of stamps is moved into the offers, and not copied. Where the
/// views lack what lies below a floor, so do the offers, and a largest choice of them is the same. Of a source the offer holds
/// two frontiers, whatever its batches. The error is want of memory.
pub fn offers_of(
    alloc: Global,
    flow: &Flow,
    views: Vec<NodeView>,
    entries: &[Entry],
) -> Result<Vec<Offer>, AllocError>
    requires { length views.items ≡ length flow.now.nodes }
    ensures exact { (sys : System) (state : Machine) (lost : ℕ → Bool) → sys.flow ≡ flow.now → IsViewOf sys state lost state.low views.items entries.now
        → AreWholeFrom sys state state.low 0 views.items → IfOk result (λ offers. AreOffersIn sys state lost offers.items) }
    ensures above { (sys : System) (state : Machine) (lost : ℕ → Bool) (floor : List Front) → sys.flow ≡ flow.now
        → (known : IsViewOf sys state lost floor views.items entries.now)
        → IfOk result (λ offers. AreOffersAbove sys state lost (choice_at floor known.above.notices) offers.items) }
    ensures of_flow { FitsFlow flow.now views.items entries.now → IfOk result (λ offers. AreOffersOf flow.now offers.items) }
{
    flow_is_well_formed(flow);
    let mut offers = Vec::with_capacity(alloc, views.len())?;
    for known in views {
        let node = NodeId::at(offers.len() as u32);
        offers.push(offer(alloc, flow, entries, node, known)?)?;
    }
    Ok(offers)
}

/// What a node offers.
fn offer(
    alloc: Global,
    flow: &Flow,
    entries: &[Entry],
    node: NodeId,
    known: NodeView,
) -> Result<Offer, AllocError>
    ensures { IsKnown flow.now entries.now node known → IfOk result (IsOfferBy flow.now entries.now node known) }
{
    let offered = offered(alloc, flow, entries, node, &known)?;
    Ok(Offer {
        present: !known.failed,
        offered,
        stamps: known.stamps,
        table: known.table,
    })
}
