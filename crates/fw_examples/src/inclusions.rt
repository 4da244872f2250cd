//! Why a consistent choice has to meet each of its five inclusions.
ghost use Rattle.fw_flow.specs.WellFormed.{IsWellFormed};
ghost use Rattle.fw_examples.specs.Flows.{one_select_flow, two_sources_flow};
ghost use Rattle.fw_examples.specs.Inclusions.{LeavesOutOne, DeliveredIsNeeded, DiscardedIsNeeded, NotifiedIsNeeded, OwnIsNeeded, NoticesAreNeeded};

/// Leaving out one inclusion leaves out nothing else.
#[tactic(auto, using(crate::proofs::LeavingOut::leaves_out_one))]
pub fn leaves_out_one()
    ensures { LeavesOutOne }
{}

/// The dataflow of the two that follow is well formed.
#[tactic(auto, using(crate::proofs::WellFormed::one_select_is_well_formed))]
pub fn one_select_is_well_formed()
    ensures { IsWellFormed one_select_flow }
{}

/// A sender has to keep what its receiver has from it.
#[tactic(auto, using(crate::proofs::LeavingOut::delivered_is_needed))]
pub fn delivered_is_needed()
    ensures { DeliveredIsNeeded }
{}

/// A receiver has to keep what its sender cannot send again.
#[tactic(auto, using(crate::proofs::LeavingOut::discarded_is_needed))]
pub fn discarded_is_needed()
    ensures { DiscardedIsNeeded }
{}

/// The dataflow of the three that follow is well formed.
#[tactic(auto, using(crate::proofs::WellFormed::two_sources_is_well_formed))]
pub fn two_sources_is_well_formed()
    ensures { IsWellFormed two_sources_flow }
{}

/// A notification has to count in the frontier of notifications.
#[tactic(auto, using(crate::proofs::LeavingOut::notified_is_needed))]
pub fn notified_is_needed()
    ensures { NotifiedIsNeeded }
{}

/// A node's frontier of notifications has to lie within what it keeps.
#[tactic(auto, using(crate::proofs::LeavingOut::own_is_needed))]
pub fn own_is_needed()
    ensures { OwnIsNeeded }
{}

/// A node's frontier of notifications has to follow those of its senders.
#[tactic(auto, using(crate::proofs::LeavingOut::notices_are_needed))]
pub fn notices_are_needed()
    ensures { NoticesAreNeeded }
{}
