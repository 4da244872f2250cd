//! What is got back when every node is failed: states that meet what the laws ask.
ghost use Rattle.fw_examples.specs.GotBack.{EveryNodeIsDown, ThirdLacksAnEpoch};

/// Every node of the running total is failed, and a start leads on from there.
#[tactic(auto, using(crate::proofs::GotBack::every_node_is_down))]
pub fn every_node_is_down()
    ensures { EveryNodeIsDown }
{}

/// What is settled is not offered where one of two events is in flight.
#[tactic(auto, using(crate::proofs::GotBack::third_lacks_an_epoch))]
pub fn third_lacks_an_epoch()
    ensures { ThirdLacksAnEpoch }
{}
