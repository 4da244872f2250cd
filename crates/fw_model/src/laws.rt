//! The laws of the definitions. Of each function that stands here the `ensures` is one law, and the body is empty; beside
//! them are the laws of the crates below.
//!
//! In the comments a flow is well formed by `IsWellFormed`, and with epochs where each node has at most 2^32 batches
//! (`HasEpochs`); a system is well formed by `IsWellFormedSystem`, which says both and more. A node sends at the send
//! stamps of its events by `SendsByStamp`: it is no output and no sequence, a loop that it feeds back has a next counter,
//! and the groups that it makes are not empty. A run begins in the machine's first state, and its steps are any, failures,
//! recoveries and collections among them. A history goes on legally where the longer one is legal.
ghost use Rattle.fw_model.specs.LawsOfChains.{EachStandsOnFew, EachStandsOnTheOneBefore, TheNextStandsOnWhatIsLeft, WhatIsNotCollectedIsAChain};
ghost use Rattle.fw_model.specs.LawsOfCheckpointFronts.{CheckpointsDiffer, CheckpointsHaveStamps};
ghost use Rattle.fw_model.specs.LawsOfAuto.{AutoRunsAreOne, AutoRunsAreRuns, AutoRunsGoOn};
ghost use Rattle.fw_model.specs.LawsOfChoices.{ConsistentChoicesHaveUnion, DeliveredOfUnion, DiscardedOfUnion, EachLiesWithinUnion, LargestChoiceIsOne, NotifiedOfUnion, UnionOfCandidatesIsCandidate, UnionOfConsistentIsConsistent};
ghost use Rattle.fw_model.specs.LawsOfChoosing.{CheckpointsAreChains, FailedNodesAreRecovered, LargestChoiceHoldsLowWatermark, LargestOfKeptIsLargestOfEver, LowWatermarkIsConsistent, LowWatermarkNeverFalls, ReachedStatesHaveOneNextState, RecoveryHasAChoice, TwoRunsShowOneBag};
ghost use Rattle.fw_model.specs.LawsOfCompleteFrontiers.{AdmissibleStaysAdmissible, EnabledIsOutside, LegalInsidePhiComesFromInside, SequencesAreNotifiedInOrder};
ghost use Rattle.fw_model.specs.LawsOfDeliveries.{ClosedStampsStayClosed, DeliveredInsideCompleteIsDenoted, DeliveredInsideCompleteIsFinal, DeliveredIsSubBagOfDenotation, DeliveredUpToClosedIsDenoted, DeliveredUpToClosedIsFinal, NotificationsComeLast, NumberedDeliveriesAscend, SentInsidePhiIsDenoted, SentIsSubBagOfDenotation};
ghost use Rattle.fw_model.specs.LawsOfDenotation.{DenotationExists, DenotationIsInDomain, DenotationIsInOrder, DenotationIsNumbered, DenotationIsTheOnlyOne, LaterRoundsAreTheSame, MeasureExists, OutBagsDependOnLesserMeasure, RecsAtStampsDecideBag, UnchangedRoundIsDenotation};
ghost use Rattle.fw_model.specs.LawsOfExistence.{CompleteExists, CompleteIsTheOnlyOne, FrontierHasFront, LargestChoiceExists, SettledCanGrow};
ghost use Rattle.fw_model.specs.LawsOfFiltering.{ConsistentMeetsInclusions, FilteredHistoryIsLegal, KeptDeliveriesHaveKeptCauses, KeptEventsAreLegal, KeptEventsDeliverTheSame, KeptEventsSendTheSame, KeptEventsSendTheSameFromWithin, NothingPendingWithoutLog, PendingAtKeptStamps, PendingAtOtherStamps, PendingForCut, PendingForPresent, PhiOfKeptEvents};
ghost use Rattle.fw_model.specs.LawsOfFloors.{CutOfAllIsAFloor, FloorsStay, LargestChoiceHoldsFloors, LowWatermarkIsAFloor, WatermarkHoldsFloors};
ghost use Rattle.fw_model.specs.LawsOfLegalHistories.{LegalEventsAreInDomain, LegalMessagesAreInDomain, OnlyInputsInject};
ghost use Rattle.fw_model.specs.LawsOfOffers.{ConsistentByOffersIsConsistent, ConsistentIsByOffersAbove, LargestByOffersAboveIsLargest, LargestByOffersIsLargest};
ghost use Rattle.fw_model.specs.LawsOfPoorerCovers.{PoorerCoversChooseTheSame, RicherCoversChooseTheSame};
ghost use Rattle.fw_model.specs.LawsOfPoorerTrails.{CertificateByOffersAboveIsCertificate, PoorerCoversCertifyTheSame, PoorerCoversLowerTheSame, TrailByOffersAboveIsTrail};
ghost use Rattle.fw_model.specs.LawsOfProgress.{EventsLeaveOthersStuck, NotifiableByComplete, StuckIsComplete};
ghost use Rattle.fw_model.specs.LawsOfProjections.{PhiByCountIsMonotone, PhiGrowsWithHistory, PhiIgnoresHistory, PhiIsFrontier, PhiIsMonotone, PhiOfEverything, PhiOfMeet, PsiIsFrontier, PsiIsMonotone, PsiOfJoin, PsiOfNothing, PsiOfUnion};
ghost use Rattle.fw_model.specs.LawsOfRecoveries.{AcknowledgementsShowDenotationThroughRecoveries, CandidatesLieWithinSettled, DenotedIsFull, RunsStayLegalThroughRecoveries, SettledStaysDenoted, StepsKeepHistoriesLegal};
ghost use Rattle.fw_model.specs.LawsOfRestoring.{BatchesOutsideCutsLieOutsideLow, BatchesToComeLieOutsideLow, CheckpointLogsHoldWhatIsSentAgain, CheckpointsAreAsTheyWereAsked, CheckpointsAscend, CheckpointsAtCutsAreKept, CheckpointsStayTrue, CollectedIsWhatLiesBelow, EventsInsideCutsAreLogged, EventsThatMustBeKeptAreNeverCollected, KeptWatermarksLieWithinToday, LogsHoldWhatIsSentAgain, NothingComesInsideCheckpoints, WhatIsForgottenWasAcknowledged};
ghost use Rattle.fw_model.specs.LawsOfReplay.{PassingEventsSendTheirPart, ReplayedEventsAreThoseNotGivenUp, ReplayedEventsSendTheSame, SamePartSendsTheSame};
ghost use Rattle.fw_model.specs.LawsOfRuns.{AcknowledgementsAreInOrder, RunsGoOn, RunsStayLegal};
ghost use Rattle.fw_model.specs.LawsOfSending.{InsidePhiComesFromInside, InsidePhiOfSequenceComesFromInside, PhiBySendStamps, PsiBackBySendStamps, PsiBackIsLargest, PsiBySendStamps, SendStampIsMonotone, SendersOfWellFormed, SendsAreInsidePsi, SendsAtSendStamp, SendsComeFromCauses, SentFromInsideIsInsidePsi, SentTableFollowsHistory};
ghost use Rattle.fw_model.specs.LawsOfSettled.{NothingComesInsideSettled};
ghost use Rattle.fw_model.specs.LawsOfSteps.{ExactlyOneNextState, OneNextState, SomeNextState};
ghost use Rattle.fw_model.specs.LawsOfTables.{DeliveriesLieInside, NothingComesAfterItsNotice, SettledIsTold, TotalsSumWhatWasTold};
ghost use Rattle.fw_model.specs.LawsOfInjections.{InjectedEpochsAreInOrder, UntilLeavesThatMany};
ghost use Rattle.fw_model.specs.LawsOfPending.{FirstPendingIsNext, PendingFollowsEvents, PendingNumbersGoOn, SentIsDeliveredAndPending};
ghost use Rattle.fw_model.specs.LawsOfWrites.{LiveNodesLogEachEvent, LoggedEventsAreInOrder, NewestCheckpointIsKept};
ghost use Rattle.fw_model.specs.Thinned.{StampsOutsideCoverTheRest, ThinnedStampsCoverTheSame};

// The laws of times and of frontiers, each over every type of times, and that of dataflows.
pub use fw_flow::laws::ranks_exist;
pub use fw_frontier::laws::{
    cut_is_largest, domain_decides, fronts_are_frontiers, greatest_covers_all,
    one_list_names_a_frontier, round_trip, stays_in_domain,
};
pub use fw_time::laws::{least_upper_bound, partial_order};

/// Phi is monotone: a larger frontier of the sender covers more of the edge.
pub fn phi_is_monotone()
    ensures { PhiIsMonotone }
{}

/// Phi by the count of what was sent is monotone, in the frontier and in the count.
pub fn phi_by_count_is_monotone()
    ensures { PhiByCountIsMonotone }
{}

/// Phi of a longer history covers at least as much.
pub fn phi_grows_with_history()
    ensures { PhiGrowsWithHistory }
{}

/// Phi of the meet of two frontiers of the sender is the meet of their phis.
pub fn phi_of_meet()
    ensures { PhiOfMeet }
{}

/// Phi of each stamp of the sender is each stamp of the edge.
pub fn phi_of_everything()
    ensures { PhiOfEverything }
{}

/// Where the sender sends at the send stamps of its events (`SendsByStamp`), a stamp of the edge is inside phi of a
/// frontier of the sender exactly where each stamp of the sender that sends at it or below it is inside the frontier.
pub fn phi_by_send_stamps()
    ensures { PhiBySendStamps }
{}

/// Where the sender sends at the send stamps of its events, a stamp of the edge is inside psi of a frontier of the
/// sender exactly where some stamp inside the frontier sends at it or above it.
pub fn psi_by_send_stamps()
    ensures { PsiBySendStamps }
{}

/// Where the sender sends at the send stamps of its events, a stamp of the sender is inside psi backwards of a
/// frontier of the edge exactly where each stamp at it or below it that sends, sends inside the frontier.
pub fn psi_back_by_send_stamps()
    ensures { PsiBackBySendStamps }
{}

/// Where the sender sends at the send stamps of its events, psi backwards of a frontier of the edge is a frontier of
/// the sender, and the frontiers of the sender within it are those whose psi lies within the given one.
pub fn psi_back_is_largest()
    ensures { PsiBackIsLargest }
{}

/// The table of what a sequence sent, by epoch, begins empty, takes each notification of an epoch with how many
/// messages it made the sequence send, and stays at each event that is no notification of the sequence.
pub fn sent_table_follows_history()
    ensures { SentTableFollowsHistory }
{}

/// Psi is monotone: what is inside a larger frontier can send at more stamps.
pub fn psi_is_monotone()
    ensures { PsiIsMonotone }
{}

/// Psi of the join of two frontiers is the join of their psis.
pub fn psi_of_join()
    ensures { PsiOfJoin }
{}

/// Psi of the union of any family of frontiers is the union of their psis.
pub fn psi_of_union()
    ensures { PsiOfUnion }
{}

/// Psi of nothing is nothing.
pub fn psi_of_nothing()
    ensures { PsiOfNothing }
{}

/// Each message that an event makes a node send that is no sequence is at the send stamp of the event, and its one cause is
/// the event's stamp.
pub fn sends_at_send_stamp()
    ensures { SendsAtSendStamp }
{}

/// Of each message that an event makes a node send that is no sequence, the event's stamp is a cause, and each cause sends at
/// the message's stamp or below.
pub fn sends_come_from_causes()
    ensures { SendsComeFromCauses }
{}

/// Where the sender sends at the send stamps of its events, what an event inside a frontier of the sender makes it
/// send is inside psi.
pub fn sends_are_inside_psi()
    ensures { SendsAreInsidePsi }
{}

/// Where the sender sends at the send stamps of its events, and its events are at stamps of its domain, each message
/// at a stamp inside phi of a frontier of the sender comes from events inside.
pub fn inside_phi_comes_from_inside()
    ensures { InsidePhiComesFromInside }
{}

/// Where the sender is a sequence that injected nothing and was notified of each stamp after the lesser ones, and its
/// events are at stamps of its domain, each message at a stamp inside phi of a frontier of the sender comes from
/// events inside.
pub fn inside_phi_of_sequence_comes_from_inside()
    ensures { InsidePhiOfSequenceComesFromInside }
{}

/// Phi of a frontier of the sender is a frontier of the edge.
pub fn phi_is_frontier()
    ensures { PhiIsFrontier }
{}

/// Psi of a frontier of the sender is a frontier of the edge.
pub fn psi_is_frontier()
    ensures { PsiIsFrontier }
{}

/// Phi is the same after each history, where the sender is no sequence.
pub fn phi_ignores_history()
    ensures { PhiIgnoresHistory }
{}

/// A lesser stamp sends where a greater one of the node's domain does, and at the same stamp or a lesser one.
pub fn send_stamp_is_monotone()
    ensures { SendStampIsMonotone }
{}

/// Where the sender sends at the send stamps of its events, each message that comes from events inside a frontier of
/// the sender is at a stamp inside psi.
pub fn sent_from_inside_is_inside_psi()
    ensures { SentFromInsideIsInsidePsi }
{}

/// In a well-formed dataflow the sender of each edge is a sequence, or sends at the send stamps of its events.
pub fn senders_of_well_formed()
    ensures { SendersOfWellFormed }
{}

/// In a legal history of a well-formed flow with epochs each event is at a stamp of its node's domain.
pub fn legal_events_are_in_domain()
    ensures { LegalEventsAreInDomain }
{}

/// In a legal history of a well-formed flow with epochs each message that was sent is at a stamp of its edge.
pub fn legal_messages_are_in_domain()
    ensures { LegalMessagesAreInDomain }
{}

/// In a legal history only inputs inject.
pub fn only_inputs_inject()
    ensures { OnlyInputsInject }
{}

/// After any history, legal or not, an enabled event is outside each admissible family: nothing comes where all has
/// come.
pub fn enabled_is_outside()
    ensures { EnabledIsOutside }
{}

/// After a legal history of a well-formed flow with epochs an enabled event leaves each admissible family admissible:
/// it lowers no complete frontier.
pub fn admissible_stays_admissible()
    ensures { AdmissibleStaysAdmissible }
{}

/// After any history of a well-formed flow an admissible family that no node alone can widen is complete.
pub fn stuck_is_complete()
    ensures { StuckIsComplete }
{}

/// As a history goes on legally by one event, an admissible family can be widened at no other node than that of the event
/// where it could not be before.
pub fn events_leave_others_stuck()
    ensures { EventsLeaveOthersStuck }
{}

/// A node may be notified exactly where it may be by the complete frontiers.
pub fn notifiable_by_complete()
    ensures { NotifiableByComplete }
{}

/// In a legal history of a well-formed flow with epochs each sequence injects nothing and is notified of each stamp
/// after the lesser ones.
pub fn sequences_are_notified_in_order()
    ensures { SequencesAreNotifiedInOrder }
{}

/// In a legal history of a well-formed flow with epochs each message at a stamp inside phi of a frontier of the
/// sender comes from events inside.
pub fn legal_inside_phi_comes_from_inside()
    ensures { LegalInsidePhiComesFromInside }
{}

/// A largest choice of the restore candidates is the only one.
pub fn largest_choice_is_one()
    ensures { LargestChoiceIsOne }
{}

/// Two consistent choices of the restore candidates have a union.
pub fn consistent_choices_have_union()
    ensures { ConsistentChoicesHaveUnion }
{}

/// Each of two choices lies within their union.
pub fn each_lies_within_union()
    ensures { EachLiesWithinUnion }
{}

/// What counts as delivered inside the union of two cuts counts as delivered inside one of them.
pub fn delivered_of_union()
    ensures { DeliveredOfUnion }
{}

/// What counts as notified inside the union of two cuts counts as notified inside one of them.
pub fn notified_of_union()
    ensures { NotifiedOfUnion }
{}

/// What a node sent inside the union of two cuts and cannot send again, it sent inside one of them.
pub fn discarded_of_union()
    ensures { DiscardedOfUnion }
{}

/// The union of two candidates of a node is a candidate; where the node is restored by its checkpoints, if one of the
/// two lies within the other.
pub fn union_of_candidates_is_candidate()
    ensures { UnionOfCandidatesIsCandidate }
{}

/// The union of two consistent choices of the restore candidates is consistent, where each of its cuts is offered.
pub fn union_of_consistent_is_consistent()
    ensures { UnionOfConsistentIsConsistent }
{}

/// The stamps of each node of a well-formed flow have a measure, which is bounded and falls from each node towards
/// the senders of its in-edges.
pub fn measure_exists()
    ensures { MeasureExists }
{}

/// Two bags in order that have the same recs at each stamp are the same.
pub fn recs_at_stamps_decide_bag()
    ensures { RecsAtStampsDecideBag }
{}

/// In a well-formed flow what a node sends on an edge at a stamp, by a family whose bags are in order, depends on the
/// bags on its in-edges at stamps of lesser measure alone.
pub fn out_bags_depend_on_lesser_measure()
    ensures { OutBagsDependOnLesserMeasure }
{}

/// Two families that solve the equations of a well-formed flow are the same on each edge: the denotation is the only
/// one.
pub fn denotation_is_the_only_one()
    ensures { DenotationIsTheOnlyOne }
{}

/// In a well-formed flow the family after enough rounds (`enough_rounds`) solves the equations: the denotation
/// exists.
pub fn denotation_exists()
    ensures { DenotationExists }
{}

/// A family that the next round leaves unchanged solves the equations.
pub fn unchanged_round_is_denotation()
    ensures { UnchangedRoundIsDenotation }
{}

/// Once rounds have reached a solution, each later round is the same.
pub fn later_rounds_are_the_same()
    ensures { LaterRoundsAreTheSame }
{}

/// Each bag of the denotation is in order.
pub fn denotation_is_in_order()
    ensures { DenotationIsInOrder }
{}

/// Each timed rec of the denotation of a well-formed flow with epochs is at a stamp of the domain of its edge's
/// receiver.
pub fn denotation_is_in_domain()
    ensures { DenotationIsInDomain }
{}

/// The timed recs of the denotation of a well-formed flow on a numbered edge are at the numbers from 0 on, one at
/// each, in order.
pub fn denotation_is_numbered()
    ensures { DenotationIsNumbered }
{}

/// Each frontier of a domain has a list of outside stamps that names it.
pub fn frontier_has_front()
    ensures { FrontierHasFront }
{}

/// After each history of a well-formed flow, legal or not, there are complete frontiers.
pub fn complete_exists()
    ensures { CompleteExists }
{}

/// After each history there is at most one family of complete frontiers.
pub fn complete_is_the_only_one()
    ensures { CompleteIsTheOnlyOne }
{}

/// Settled can grow to what is complete where more is complete at some node that is not failed.
pub fn settled_can_grow()
    ensures { SettledCanGrow }
{}

/// Where some choice of the restore candidates is consistent and checkpoints are chains, there is a largest choice.
pub fn largest_choice_exists()
    ensures { LargestChoiceExists }
{}

/// In a legal history of a well-formed flow with epochs, of which each node keeps the events inside a frontier, the
/// kept events alone send on each edge what they send among all: the messages whose causes are kept.
pub fn kept_events_send_the_same()
    ensures { KeptEventsSendTheSame }
{}

/// In a legal history of a well-formed flow with epochs, of which each node keeps the events inside a frontier, the
/// kept events send from inside less than the sender keeps the same as all events.
pub fn kept_events_send_the_same_from_within()
    ensures { KeptEventsSendTheSameFromWithin }
{}

/// In any history the kept events alone deliver on each edge the messages at stamps that the receiver keeps.
pub fn kept_events_deliver_the_same()
    ensures { KeptEventsDeliverTheSame }
{}

/// In a legal history of a well-formed flow with epochs, of which each node keeps the events inside a frontier, phi
/// of what lies within what the sender keeps is the same in the kept events alone.
pub fn phi_of_kept_events()
    ensures { PhiOfKeptEvents }
{}

/// In a legal history of a well-formed flow with epochs, of which each node keeps the events inside a frontier: if on
/// each edge what was delivered inside what the receiver keeps is inside phi of what the sender keeps, it has kept
/// causes.
pub fn kept_deliveries_have_kept_causes()
    ensures { KeptDeliveriesHaveKeptCauses }
{}

/// The consistently kept events of a legal history of a well-formed flow with epochs are a legal history.
pub fn kept_events_are_legal()
    ensures { KeptEventsAreLegal }
{}

/// A consistent choice of the restore candidates meets the inclusions.
pub fn consistent_meets_inclusions()
    ensures { ConsistentMeetsInclusions }
{}

/// A legal history of a well-formed flow with epochs, filtered by a choice that meets the inclusions, is legal.
pub fn filtered_history_is_legal()
    ensures { FilteredHistoryIsLegal }
{}

/// In a legal history of a well-formed flow with epochs, of which each node keeps the events inside a frontier, and
/// on each edge what was delivered inside what the receiver keeps is inside phi of what the sender keeps: at stamps
/// that the receiver keeps, what is pending of the kept events is the part with kept causes of what was pending.
pub fn pending_at_kept_stamps()
    ensures { PendingAtKeptStamps }
{}

/// In a legal history of a well-formed flow with epochs, of which each node keeps the events inside a frontier: at
/// stamps that the receiver does not keep, what is pending of the kept events is the part with kept causes of what
/// was sent.
pub fn pending_at_other_stamps()
    ensures { PendingAtOtherStamps }
{}

/// A legal history of a well-formed flow with epochs is filtered by a choice that meets the inclusions. For a
/// receiver that stays as it is, what is pending afterwards is the part with kept causes of what was pending.
pub fn pending_for_present()
    ensures { PendingForPresent }
{}

/// A legal history of a well-formed flow with epochs, full inside what is settled, is filtered by a choice that meets
/// the inclusions. For a receiver that is cut within what is settled, what is pending afterwards is the part with
/// kept causes of what was sent outside its cut.
pub fn pending_for_cut()
    ensures { PendingForCut }
{}

/// A legal history of a well-formed flow with epochs, full inside what is settled, is filtered by a choice that meets
/// the inclusions. For a receiver that is cut within what is settled nothing is pending from a sender whose policy
/// cannot send again, if what it sent inside its cut lies in what the receiver keeps.
pub fn nothing_pending_without_log()
    ensures { NothingPendingWithoutLog }
{}

/// From a state a step leads to at most one next state, with one outcome.
pub fn one_next_state()
    ensures { OneNextState }
{}

/// From a state of a well-formed flow a step leads to some next state, with some outcome; a recovery and a collection
/// do if they have something to choose (`HasItsChoice`).
pub fn some_next_state()
    ensures { SomeNextState }
{}

/// From a state of a well-formed flow a step leads to exactly one next state, with exactly one outcome; a recovery
/// and a collection do if they have something to choose (`HasItsChoice`).
pub fn exactly_one_next_state()
    ensures { ExactlyOneNextState }
{}

/// A stamp that is closed for a node of a well-formed flow with epochs stays closed as the history goes on legally.
pub fn closed_stamps_stay_closed()
    ensures { ClosedStampsStayClosed }
{}

/// In a legal history of a well-formed flow with epochs no event of a node after a notification of it is at the stamp
/// of the notification or a lesser one.
pub fn notifications_come_last()
    ensures { NotificationsComeLast }
{}

/// In a legal history the deliveries on a numbered edge have the numbers 0, 1, 2 and so on in this order.
pub fn numbered_deliveries_ascend()
    ensures { NumberedDeliveriesAscend }
{}

/// In a legal history of a well-formed system, what was sent on an edge inside phi of an admissible family is what
/// the denotation has there.
pub fn sent_inside_phi_is_denoted()
    ensures { SentInsidePhiIsDenoted }
{}

/// In a legal history of a well-formed system, what was delivered on an edge inside an admissible family is what the
/// denotation has there.
pub fn delivered_inside_complete_is_denoted()
    ensures { DeliveredInsideCompleteIsDenoted }
{}

/// In a well-formed flow with epochs, what was delivered inside an admissible family stays as it is while the history
/// goes on legally.
pub fn delivered_inside_complete_is_final()
    ensures { DeliveredInsideCompleteIsFinal }
{}

/// In a well-formed flow with epochs, what was delivered to a node up to a stamp that is closed for it stays as it is
/// while the history goes on legally.
pub fn delivered_up_to_closed_is_final()
    ensures { DeliveredUpToClosedIsFinal }
{}

/// In a legal history of a well-formed system, what was delivered to a node on each in-edge up to a stamp that is
/// closed for it is what the denotation has there.
pub fn delivered_up_to_closed_is_denoted()
    ensures { DeliveredUpToClosedIsDenoted }
{}

/// In a legal history of a well-formed system each rec was sent on an edge at a stamp at most as often as it is in
/// the denotation there.
pub fn sent_is_sub_bag_of_denotation()
    ensures { SentIsSubBagOfDenotation }
{}

/// In a legal history of a well-formed system each rec was delivered on an edge at a stamp at most as often as it is
/// in the denotation there.
pub fn delivered_is_sub_bag_of_denotation()
    ensures { DeliveredIsSubBagOfDenotation }
{}

/// A run that goes on where another ended is one run with it, from whatever state.
pub fn runs_go_on()
    ensures { RunsGoOn }
{}

/// The history of each state to which steps without a recovery lead from the first one is legal.
pub fn runs_stay_legal()
    ensures { RunsStayLegal }
{}

/// A run acknowledges at each output the stamps below its bound, in order and each once.
pub fn acknowledgements_are_in_order()
    ensures { AcknowledgementsAreInOrder }
{}

/// Each step from a state of a well-formed flow with epochs with a legal history leads to one, a recovery too.
pub fn steps_keep_histories_legal()
    ensures { StepsKeepHistoriesLegal }
{}

/// In a well-formed flow with epochs the history of each state to which steps lead from the first one is legal, with
/// recoveries among them.
pub fn runs_stay_legal_through_recoveries()
    ensures { RunsStayLegalThroughRecoveries }
{}

/// In each state to which steps of a well-formed system lead from the first one, what is settled is denoted.
pub fn settled_stays_denoted()
    ensures { SettledStaysDenoted }
{}

/// In a state of a well-formed system with a legal history, where what is settled is denoted, nothing is pending and
/// nothing owed inside what is settled.
pub fn denoted_is_full()
    ensures { DenotedIsFull }
{}

/// Each acknowledgement of a run of a well-formed system shows the denotation, with recoveries among its steps.
pub fn acknowledgements_show_denotation_through_recoveries()
    ensures { AcknowledgementsShowDenotationThroughRecoveries }
{}

/// In each state of a run, a node that is no input can be restored only to frontiers within what is settled at it.
pub fn candidates_lie_within_settled()
    ensures { CandidatesLieWithinSettled }
{}

/// In each state of a run of a well-formed system the low watermark is a consistent choice with some notification
/// frontiers, whichever nodes count as failed, with what was collected and without it.
pub fn low_watermark_is_consistent()
    ensures { LowWatermarkIsConsistent }
{}

/// In each state of a run of a well-formed system the checkpoints of each node are a chain.
pub fn checkpoints_are_chains()
    ensures { CheckpointsAreChains }
{}

/// In each state of a run of a well-formed system each checkpoint, in flight or not, lies within what is settled at its
/// node and within each checkpoint of the node that was asked later.
pub fn checkpoints_ascend()
    ensures { CheckpointsAscend }
{}

/// In each state of a run of a well-formed system a recovery has something to choose, whichever nodes count as
/// failed.
pub fn recovery_has_a_choice()
    ensures { RecoveryHasAChoice }
{}

/// In each state of a run of a well-formed system in which a declared node is failed, a recovery is enabled.
pub fn failed_nodes_are_recovered()
    ensures { FailedNodesAreRecovered }
{}

/// From each state of a run of a well-formed system each step leads to exactly one next state, with exactly one
/// outcome.
pub fn reached_states_have_one_next_state()
    ensures { ReachedStatesHaveOneNextState }
{}

/// In each state of a run of a well-formed system each largest choice contains the low watermark.
pub fn largest_choice_holds_low_watermark()
    ensures { LargestChoiceHoldsLowWatermark }
{}

/// A step from a state of a run of a well-formed system lowers the low watermark at no node.
pub fn low_watermark_never_falls()
    ensures { LowWatermarkNeverFalls }
{}

/// In each state of a run of a well-formed system the largest choice among what is kept is the largest also with what
/// was collected, whichever nodes count as failed.
pub fn largest_of_kept_is_largest_of_ever()
    ensures { LargestOfKeptIsLargestOfEver }
{}

/// Two runs of one well-formed system that acknowledge an output at a stamp show the same recs there.
pub fn two_runs_show_one_bag()
    ensures { TwoRunsShowOneBag }
{}

/// Each step from a state of a run of a well-formed system leaves what each checkpoint holds that is among the writes
/// after it.
pub fn checkpoints_stay_true()
    ensures { CheckpointsStayTrue }
{}

/// In each state of a run of a well-formed system nothing new comes inside a checkpoint.
pub fn nothing_comes_inside_checkpoints()
    ensures { NothingComesInsideCheckpoints }
{}

/// In each state of a run of a well-formed system: where a largest choice among what is kept cuts a node that takes
/// checkpoints to a front with a stamp inside, its checkpoint there is acknowledged, not collected, and the only one.
pub fn checkpoints_at_cuts_are_kept()
    ensures { CheckpointsAtCutsAreKept }
{}

/// In each state of a run of a well-formed system, with each largest choice among what is kept, what is to be sent
/// again lies outside the low watermark of its receiver, so that logs of what lies outside it hold it.
pub fn logs_hold_what_is_sent_again()
    ensures { LogsHoldWhatIsSentAgain }
{}

/// So do the logs that are kept with checkpoints, by the watermark of the moment at which each was asked.
pub fn checkpoint_logs_hold_what_is_sent_again()
    ensures { CheckpointLogsHoldWhatIsSentAgain }
{}

/// In each state of a run of a well-formed system the watermark that is kept with a checkpoint lies within today's.
pub fn kept_watermarks_lie_within_today()
    ensures { KeptWatermarksLieWithinToday }
{}

/// In each state of a run of a well-formed system a batch outside the cut of its input in a largest choice among what
/// is kept lies outside the low watermark.
pub fn batches_outside_cuts_lie_outside_low()
    ensures { BatchesOutsideCutsLieOutsideLow }
{}

/// A batch of an input that is not injected in a state of a run of a well-formed system, and so is to come, lies
/// outside the low watermark of that state and of each earlier one.
pub fn batches_to_come_lie_outside_low()
    ensures { BatchesToComeLieOutsideLow }
{}

/// In each state of a run of a well-formed system: where a largest choice among what is kept cuts a node that logs
/// each event, each event of the node inside its cut is logged once, by a write of the node that was acknowledged,
/// and that is collected only where what the node logged at the stamp of the event is given up.
pub fn events_inside_cuts_are_logged()
    ensures { EventsInsideCutsAreLogged }
{}

/// In each state of a run of a well-formed system no logged event of a total, a sequence or a ledger was collected.
pub fn events_that_must_be_kept_are_never_collected()
    ensures { EventsThatMustBeKeptAreNeverCollected }
{}

/// In each state of a run of a well-formed system no write is in flight that a collection forgets: what a collection
/// forgets was acknowledged.
pub fn what_is_forgotten_was_acknowledged()
    ensures { WhatIsForgottenWasAcknowledged }
{}

/// In each state of a run of a well-formed system a write was collected exactly where the low watermark forgets it: where
/// what it holds lies below, and so does what each write holds that stands on it.
pub fn collected_is_what_lies_below()
    ensures { CollectedIsWhatLiesBelow }
{}

/// In each state of a run of a well-formed system each checkpoint of a node is whole, or stands on the one before it, and
/// is one deeper.
pub fn each_stands_on_the_one_before()
    ensures { EachStandsOnTheOneBefore }
{}

/// In each state of a run of a well-formed system the checkpoints of a node that were not collected are a chain by themselves:
/// the first is whole.
pub fn what_is_not_collected_is_a_chain()
    ensures { WhatIsNotCollectedIsAChain }
{}

/// In each state of a run of a well-formed system the next checkpoint of a node has its depth and its base by what was not
/// collected alone.
pub fn the_next_stands_on_what_is_left()
    ensures { TheNextStandsOnWhatIsLeft }
{}

/// In each state of a run each write stands on seven others at most.
pub fn each_stands_on_few()
    ensures { EachStandsOnFew }
{}

/// Each checkpoint in a state of a run of a well-formed system was asked in an earlier state of the run, and counts
/// now as it did then.
pub fn checkpoints_are_as_they_were_asked()
    ensures { CheckpointsAreAsTheyWereAsked }
{}

/// Where data are what the machine offers in a state, the choices that are consistent by the data are those of the machine.
pub fn consistent_by_offers_is_consistent()
    ensures { ConsistentByOffersIsConsistent }
{}

/// Where data are what the machine offers in a state, the largest choice by the data is that of the machine.
pub fn largest_by_offers_is_largest()
    ensures { LargestByOffersIsLargest }
{}

/// In a legal history of a well-formed flow, where a message is pending on a numbered edge, one is pending at the number
/// of how many were delivered; none is at a lesser number, and at each there is one alone.
pub fn pending_numbers_go_on()
    ensures { PendingNumbersGoOn }
{}

/// In a legal history of a well-formed flow the least message that is pending on a numbered edge is the one that may be
/// delivered there.
pub fn first_pending_is_next()
    ensures { FirstPendingIsNext }
{}

/// In a legal history the messages that were sent on an edge are those that were delivered and those that are pending.
pub fn sent_is_delivered_and_pending()
    ensures { SentIsDeliveredAndPending }
{}

/// As the history goes on legally, what is pending on an edge, in order, loses the message that the event delivered
/// there, and gets those that it sent there.
pub fn pending_follows_events()
    ensures { PendingFollowsEvents }
{}

/// In each state of a run of a well-formed system an event that may come next lies outside the low watermark of its
/// node, and outside what is settled there, but at an input.
pub fn nothing_comes_inside_settled()
    ensures { NothingComesInsideSettled }
{}

/// In each state of a run of a well-formed system no two checkpoints of a node have one front.
pub fn checkpoints_differ()
    ensures { CheckpointsDiffer }
{}

/// In each state of a run of a well-formed system no checkpoint is of no stamps.
pub fn checkpoints_have_stamps()
    ensures { CheckpointsHaveStamps }
{}

/// In each state of a run of a well-formed system each source injected the epochs 0, 1, 2 and so on, in this order.
pub fn injected_epochs_are_in_order()
    ensures { InjectedEpochsAreInOrder }
{}

/// In each state of a run of a well-formed system a choice that cuts a source until k, of which it injected at least k,
/// leaves k of its injections.
pub fn until_leaves_that_many()
    ensures { UntilLeavesThatMany }
{}

/// In each state of a run of a well-formed system, a write that logs an event has it in the history, at the write's node,
/// and the serials of what is logged ascend in order of asking, as those of the history do.
pub fn logged_events_are_in_order()
    ensures { LoggedEventsAreInOrder }
{}

/// In each state of a run of a well-formed system, of a node that logs each event and is not failed each event is logged by
/// exactly one write, which is the node's: in flight, acknowledged or collected.
pub fn live_nodes_log_each_event()
    ensures { LiveNodesLogEachEvent }
{}

/// In each state of a run of a well-formed system, the newest checkpoint of each node is the newest among those that were not
/// collected, whatever stands for it where there is none.
pub fn newest_checkpoint_is_kept()
    ensures { NewestCheckpointIsKept }
{}

/// In two legal histories of a well-formed flow with epochs in which a node did the same inside a frontier of its domain, it
/// sent the same in all from there, on an out-edge or not.
pub fn same_part_sends_the_same()
    ensures { SamePartSendsTheSame }
{}

/// Of events of a node whose kind may keep nothing, in any order, those at stamps that pass any test send by themselves what
/// they send among all: the messages all of whose causes pass.
pub fn passing_events_send_their_part()
    ensures { PassingEventsSendTheirPart }
{}

/// In each state of a run of a well-formed system, where a largest choice among what is kept cuts a node that logs each
/// event, the events inside its cut that acknowledged writes log are those at stamps that are not given up. At a total, a
/// sequence or a ledger nothing is given up.
pub fn replayed_events_are_those_not_given_up()
    ensures { ReplayedEventsAreThoseNotGivenUp }
{}

/// In each state of a run of a well-formed system, where a largest choice among what is kept cuts a node that logs each
/// event, the events inside its cut that acknowledged writes log, the collected ones left out, send on each out-edge,
/// outside the receiver's low watermark, what all its events sent from inside the cut.
pub fn replayed_events_send_the_same()
    ensures { ReplayedEventsSendTheSame }
{}

/// Stamps that are thinned inside a base cover the same as all of them, inside each set that holds the base.
pub fn thinned_stamps_cover_the_same()
    ensures { ThinnedStampsCoverTheSame }
{}

/// From each state of a run of a well-formed system `auto` takes, at most so many, exactly one list of steps.
pub fn auto_runs_are_one()
    ensures { AutoRunsAreOne }
{}

/// The steps that `auto` takes are a run of the machine, in which none is idle.
pub fn auto_runs_are_runs()
    ensures { AutoRunsAreRuns }
{}

/// Where `auto` took as many steps as it may, and then at most so many more, these are steps that it takes if it may take
/// all of them.
pub fn auto_runs_go_on()
    ensures { AutoRunsGoOn }
{}

/// In a legal history of a well-formed flow with epochs, an event that may come next at a node that is notified is at no
/// stamp of which the node was notified.
pub fn nothing_comes_after_its_notice()
    ensures { NothingComesAfterItsNotice }
{}

/// In each state of a run of a well-formed system, a node that is notified was notified of each stamp inside what is
/// settled at which something was delivered to it.
pub fn settled_is_told()
    ensures { SettledIsTold }
{}

/// In each state of a run of a well-formed system, where a total may be notified of an epoch, what was delivered to it up
/// to that epoch is what came at it, inside what is settled, and at the epochs of which it was notified.
pub fn totals_sum_what_was_told()
    ensures { TotalsSumWhatWasTold }
{}

/// In a legal history of a well-formed flow with epochs, each delivery among the events of a node inside a frontier is at
/// a stamp of the node's domain inside it.
pub fn deliveries_lie_inside()
    ensures { DeliveriesLieInside }
{}

/// Where some stamps inside a base are missing, what is kept covers all but at most what those inside the base cover.
pub fn stamps_outside_cover_the_rest()
    ensures { StampsOutsideCoverTheRest }
{}

/// Where covers lack at most what those of a consistent choice have, the largest choice by them is the largest.
pub fn poorer_covers_choose_the_same()
    ensures { PoorerCoversChooseTheSame }
{}

/// And the largest choice is the largest by them, if there is one by them.
pub fn richer_covers_choose_the_same()
    ensures { RicherCoversChooseTheSame }
{}

/// In each state of a run of a well-formed system the low watermark is a floor.
pub fn low_watermark_is_a_floor()
    ensures { LowWatermarkIsAFloor }
{}

/// A step from a state of a run of a well-formed system leaves each floor a floor, if it is no collection.
pub fn floors_stay()
    ensures { FloorsStay }
{}

/// In each state the largest choice of what is kept holds each floor, whichever nodes count as failed.
pub fn largest_choice_holds_floors()
    ensures { LargestChoiceHoldsFloors }
{}

/// After a collection the low watermark holds each floor of before.
pub fn watermark_holds_floors()
    ensures { WatermarkHoldsFloors }
{}

/// A recovery from a state of a run of a well-formed system in which each node is failed leads to one in which the
/// frontiers of its cuts are a floor.
pub fn cut_of_all_is_a_floor()
    ensures { CutOfAllIsAFloor }
{}

/// Where what nodes offer, as data, is what the machine offers in a state above a floor, each consistent choice is consistent
/// by the data.
pub fn consistent_is_by_offers_above()
    ensures { ConsistentIsByOffersAbove }
{}

/// There the largest choice by the data is that of the machine.
pub fn largest_by_offers_above_is_largest()
    ensures { LargestByOffersAboveIsLargest }
{}

/// Where covers lack at most what those of a consistent choice have, a trail by them is the trail, and the trail is one by
/// them.
pub fn poorer_covers_lower_the_same()
    ensures { PoorerCoversLowerTheSame }
{}

/// The same of certificates.
pub fn poorer_covers_certify_the_same()
    ensures { PoorerCoversCertifyTheSame }
{}

/// Where what nodes offer, as data, is what the machine offers in a state above a floor, the trail by the data is that of the
/// machine.
pub fn trail_by_offers_above_is_trail()
    ensures { TrailByOffersAboveIsTrail }
{}

/// The same of certificates.
pub fn certificate_by_offers_above_is_certificate()
    ensures { CertificateByOffersAboveIsCertificate }
{}
