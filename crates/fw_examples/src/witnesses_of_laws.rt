//! That the laws say something: where what they ask holds.
ghost use Rattle.fw_examples.specs.Witnesses.{EachStepHasItsChoice, FailureIsReached, LoopIsReached, LowWatermarkRises, MoreIsComplete, RecoveryIsReached, SomeIsSettled, SomethingIsChosen, TotalsAreWellFormed, TwoRunsMeet, ChoicesUnite, CutsUnite, JoinIsAFrontier, LessIsConsistent, AnEpochIsClosed, NotifiedAndGoesOn, OneIsOnItsWay, TwoEpochsAreComplete, LoopIsFiltered, NumbersAreDelivered, SequenceIsFiltered, TotalsAreFiltered, EpochsAreThinned, NoStepIsTaken, TwoEpochsAreTheSame, TwoStepsAreTaken};
ghost use Rattle.fw_examples.specs.Certified.{CertificatesApply};
ghost use Rattle.fw_examples.specs.Changed.{ChangesAreJoined};
ghost use Rattle.fw_examples.specs.Floors.{CoversArePoorer, EpochsAreMissing, FloorsAreThere, OffersAreAbove};
ghost use Rattle.fw_examples.specs.InTurn.{EpochsSettleInTurn};
ghost use Rattle.fw_examples.specs.OffersOfTotals.{CheckpointsAreOffered};
ghost use Rattle.fw_examples.specs.Paired.{PairsAreMade};
ghost use Rattle.fw_examples.specs.Records.{FrontsAreSpelled, RecordsAreSpelled};
ghost use Rattle.fw_examples.specs.Trails.{TrailLeadsToLargest};

/// The running total is a system that the laws are about.
#[tactic(auto, using(crate::proofs::Witnesses::totals_are_well_formed))]
pub fn totals_are_well_formed()
    ensures { TotalsAreWellFormed }
{}

/// A state with a failed node, checkpoints and messages under way, reached without a recovery.
#[tactic(auto, using(crate::proofs::Witnesses::failure_is_reached))]
pub fn failure_is_reached()
    ensures { FailureIsReached }
{}

/// A recovery from it that keeps some of what happened, and what follows.
#[tactic(auto, using(crate::proofs::Witnesses::recovery_is_reached))]
pub fn recovery_is_reached()
    ensures { RecoveryIsReached }
{}

/// Two runs, with a failure and without one, that acknowledge the same epoch.
#[tactic(auto, using(crate::proofs::Witnesses::two_runs_meet))]
pub fn two_runs_meet()
    ensures { TwoRunsMeet }
{}

/// In the state of the failure some is settled, and what was delivered there is denoted.
#[tactic(auto, using(crate::proofs::Witnesses::some_is_settled))]
pub fn some_is_settled()
    ensures { SomeIsSettled }
{}

/// There is a largest choice, strictly between nothing and all, and a checkpoint that is not offered any more.
#[tactic(auto, using(crate::proofs::Witnesses::something_is_chosen))]
pub fn something_is_chosen()
    ensures { SomethingIsChosen }
{}

/// A recovery and a collection have something to choose.
#[tactic(auto, using(crate::proofs::Witnesses::each_step_has_its_choice))]
pub fn each_step_has_its_choice()
    ensures { EachStepHasItsChoice }
{}

/// A collection raises the low watermark.
#[tactic(auto, using(crate::proofs::Witnesses::low_watermark_rises))]
pub fn low_watermark_rises()
    ensures { LowWatermarkRises }
{}

/// More is complete than is settled, though a node is failed.
#[tactic(auto, using(crate::proofs::Witnesses::more_is_complete))]
pub fn more_is_complete()
    ensures { MoreIsComplete }
{}

/// The loop that counts up, with a failure, a recovery and both acknowledgements.
#[tactic(auto, using(crate::proofs::Loop::loop_is_reached))]
pub fn loop_is_reached()
    ensures { LoopIsReached }
{}

/// Two consistent choices have a union, and none of the two lies within the other.
#[tactic(auto, using(crate::proofs::Witnesses::choices_unite))]
pub fn choices_unite()
    ensures { ChoicesUnite }
{}

/// Not each consistent choice is the largest.
#[tactic(auto, using(crate::proofs::Witnesses::less_is_consistent))]
pub fn less_is_consistent()
    ensures { LessIsConsistent }
{}

/// Two cuts of a node in a loop have a union that is none of the two.
#[tactic(auto, using(crate::proofs::Witnesses::cuts_unite))]
pub fn cuts_unite()
    ensures { CutsUnite }
{}

/// What is in one of them or in the other is a frontier.
#[tactic(auto, using(crate::proofs::Witnesses::join_is_a_frontier))]
pub fn join_is_a_frontier()
    ensures { JoinIsAFrontier }
{}

/// An epoch is closed for a node to which more is delivered later.
#[tactic(auto, using(crate::proofs::Witnesses::an_epoch_is_closed))]
pub fn an_epoch_is_closed()
    ensures { AnEpochIsClosed }
{}

/// A node is notified, and a delivery to it and a notification of it follow.
#[tactic(auto, using(crate::proofs::Witnesses::notified_and_goes_on))]
pub fn notified_and_goes_on()
    ensures { NotifiedAndGoesOn }
{}

/// An admissible family holds an epoch in which a rec was delivered.
#[tactic(auto, using(crate::proofs::Witnesses::two_epochs_are_complete))]
pub fn two_epochs_are_complete()
    ensures { TwoEpochsAreComplete }
{}

/// A rec was sent and not delivered yet.
#[tactic(auto, using(crate::proofs::Witnesses::one_is_on_its_way))]
pub fn one_is_on_its_way()
    ensures { OneIsOnItsWay }
{}

/// A recovery keeps some deliveries and a notification, and filters out others.
#[tactic(auto, using(crate::proofs::Witnesses::totals_are_filtered))]
pub fn totals_are_filtered()
    ensures { TotalsAreFiltered }
{}

/// A recovery in a loop leaves some pending messages, and makes others pending again.
#[tactic(auto, using(crate::proofs::Witnesses::loop_is_filtered))]
pub fn loop_is_filtered()
    ensures { LoopIsFiltered }
{}

/// What comes from the kept events of a sequence depends on the history.
#[tactic(auto, using(crate::proofs::Witnesses::sequence_is_filtered))]
pub fn sequence_is_filtered()
    ensures { SequenceIsFiltered }
{}

/// Numbers are delivered on a numbered edge.
#[tactic(auto, using(crate::proofs::Witnesses::numbers_are_delivered))]
pub fn numbers_are_delivered()
    ensures { NumbersAreDelivered }
{}

/// Data that are what the machine offers in a state where a node has an acknowledged checkpoint, and what the laws of offers
/// say of them.
#[tactic(auto, using(crate::proofs::OffersOfTotals::checkpoints_are_offered))]
pub fn checkpoints_are_offered()
    ensures { CheckpointsAreOffered }
{}

/// The trail of the descent from these data, of four lowerings, and what the laws of trails say of it.
#[tactic(auto, using(crate::proofs::Trails::trail_leads_to_largest))]
pub fn trail_leads_to_largest()
    ensures { TrailLeadsToLargest }
{}

/// Two certificates of that choice, what the laws of certificates say of them, and data by which no choice is consistent.
#[tactic(auto, using(crate::proofs::Certified::certificates_apply))]
pub fn certificates_apply()
    ensures { CertificatesApply }
{}

/// A state in which two of three nodes have more to settle, and what the laws say of how they settle it one after the other.
#[tactic(auto, using(crate::proofs::InTurn::epochs_settle_in_turn))]
pub fn epochs_settle_in_turn()
    ensures { EpochsSettleInTurn }
{}

/// Records that have a spelling, two of them checkpoints of their nodes, and what the laws of records say of them.
#[tactic(auto, using(crate::proofs::Records::records_are_spelled))]
pub fn records_are_spelled()
    ensures { RecordsAreSpelled }
{}

/// The total of one key of two changed, and what the law of changes says of it.
#[tactic(auto, using(crate::proofs::Changed::changes_are_joined))]
pub fn changes_are_joined()
    ensures { ChangesAreJoined }
{}

/// Four recs that came on two in-edges at two epochs, and what the law of pairs says of them.
#[tactic(auto, using(crate::proofs::Paired::pairs_are_made))]
pub fn pairs_are_made()
    ensures { PairsAreMade }
{}

/// A canonical front of a loop that a record can hold.
#[tactic(auto, using(crate::proofs::Records::fronts_are_spelled))]
pub fn fronts_are_spelled()
    ensures { FrontsAreSpelled }
{}

/// A node did the same of two epochs in two histories.
#[tactic(auto, using(crate::proofs::Witnesses::two_epochs_are_the_same))]
pub fn two_epochs_are_the_same()
    ensures { TwoEpochsAreTheSame }
{}

/// Four epochs of which one is left out inside the first two.
#[tactic(auto, using(crate::proofs::Witnesses::epochs_are_thinned))]
pub fn epochs_are_thinned()
    ensures { EpochsAreThinned }
{}

/// Two steps that are taken by themselves: once the first is taken, no more write is in flight.
#[tactic(auto, using(crate::proofs::Witnesses::two_steps_are_taken))]
pub fn two_steps_are_taken()
    ensures { TwoStepsAreTaken }
{}

/// A state in which no step is enabled.
#[tactic(auto, using(crate::proofs::Witnesses::no_step_is_taken))]
pub fn no_step_is_taken()
    ensures { NoStepIsTaken }
{}

/// The low watermark of a state is a floor, and of another state one above its low watermark.
#[tactic(auto, using(crate::proofs::Floors::floors_are_there))]
pub fn floors_are_there()
    ensures { FloorsAreThere }
{}

/// Covers that lack what two epochs have are poorer by no more than that.
#[tactic(auto, using(crate::proofs::Floors::covers_are_poorer))]
pub fn covers_are_poorer()
    ensures { CoversArePoorer }
{}

/// Two epochs of four are missing inside a base, so that the others are not thinned in the whole.
#[tactic(auto, using(crate::proofs::Floors::epochs_are_missing))]
pub fn epochs_are_missing()
    ensures { EpochsAreMissing }
{}

/// Data that are what the machine offers are so above a floor.
#[tactic(auto, using(crate::proofs::Floors::offers_are_above))]
pub fn offers_are_above()
    ensures { OffersAreAbove }
{}
