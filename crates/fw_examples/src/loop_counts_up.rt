//! A loop that counts up to its greatest counter: what it denotes, a run with both batches under way, and a recovery after the
//! node that counts up failed.
ghost use Rattle.fw_examples.specs.Loop.{TwoBatchesCountUp, IsRestoredLoop, IsCompleteUnderWay, IsUnderWay};

/// Two batches denote a value for each counter and rec, each at its own epoch.
#[tactic(auto, using(crate::proofs::Loop::two_batches_count_up))]
pub fn two_batches_count_up()
    ensures { TwoBatchesCountUp }
{}

/// Sixteen events are legal, and leave these messages pending.
#[tactic(auto, using(crate::proofs::Loop::loop_under_way))]
pub fn is_under_way()
    ensures { IsUnderWay }
{}

/// These frontiers are complete, and are the largest.
#[tactic(auto, using(crate::proofs::Loop::under_way_is_complete))]
pub fn is_complete()
    ensures { IsCompleteUnderWay }
{}

/// A recovery filters out the one event outside the cut of its node.
#[tactic(auto, using(crate::proofs::Loop::loop_is_restored))]
pub fn is_restored()
    ensures { IsRestoredLoop }
{}
