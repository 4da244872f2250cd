//! The laws of rest. Of each function that stands here the `ensures` is one law, and the body is empty.
//!
//! In the comments a system is well formed by `IsWellFormedSystem`. A run begins in the machine's first state, and its steps are
//! any, failures, recoveries and collections among them.
ghost use Rattle.fw_rest.specs.Coming.{AllComesOfEachState};
ghost use Rattle.fw_rest.specs.LawsOfRest.{AcknowledgedIsDue, AcknowledgedIsShown, AskingGoesOn, AskingLeavesNothing, AutoComesToRest, AutoTakesSoMany, EachStateGoesOn, FewAreInFlight, LegalHistoriesEnd, NothingToDoIsRest, NothingWaitsAtRest, RecoveryComesToRest, RestHasAcknowledgedAll, RestIsComplete, RestLeavesNothing, WhatIsGivenIsAcknowledged, StepsOfAutoEnd};

/// Of each state of a run of a well-formed system all comes that is denoted (`AllComes`), whatever failed.
pub fn all_comes_of_each_state()
    ensures { AllComesOfEachState }
{}

/// Whatever steps led to a state of a well-formed system, failures among them: once a recovery is taken, and then `auto` as many
/// steps as it takes at most, each output has acknowledged all that is denoted at it, and has shown it.
pub fn what_is_given_is_acknowledged()
    ensures { WhatIsGivenIsAcknowledged }
{}

/// From each state of a well-formed system to which steps lead from the first one, a recovery leads on, and then `auto`.
pub fn each_state_goes_on()
    ensures { EachStateGoesOn }
{}

/// From each state of a well-formed system to which steps lead from the first one, a recovery and then `auto`, if it may take
/// `steps_in_all` steps and one for each write in flight, come to a state with all nodes live in which `auto` has nothing to do.
pub fn recovery_comes_to_rest()
    ensures { RecoveryComesToRest }
{}

/// From each state of a well-formed system to which steps lead from the first one, `auto` comes to one in which it has nothing
/// to do, if it may take `steps_to_rest` steps.
pub fn auto_comes_to_rest()
    ensures { AutoComesToRest }
{}

/// From each state of a well-formed system to which steps lead from the first one, no more than `steps_to_rest` steps of the
/// kinds that `auto` takes follow each other, each enabled where it is taken, in whatever order.
pub fn steps_of_auto_end()
    ensures { StepsOfAutoEnd }
{}

/// From each state of a well-formed system to which steps lead from the first one, `auto` takes no more than `steps_to_rest`
/// steps, however many it may take.
pub fn auto_takes_so_many()
    ensures { AutoTakesSoMany }
{}

/// No legal history of a well-formed system has more events than `most_events`.
pub fn legal_histories_end()
    ensures { LegalHistoriesEnd }
{}

/// In each state of a well-formed system to which steps lead from the first one, at most one write of each node is in flight
/// for each of these steps.
pub fn few_are_in_flight()
    ensures { FewAreInFlight }
{}

/// In a state of a well-formed flow with all nodes live, in which `auto` has nothing to do, no event may come.
pub fn nothing_to_do_is_rest()
    ensures { NothingToDoIsRest }
{}

/// In a legal history of a well-formed flow with epochs after which no event may come, each stamp of each node is complete.
pub fn rest_is_complete()
    ensures { RestIsComplete }
{}

/// In each state of a well-formed system to which steps lead from the first one, with all nodes live, in which `auto` has
/// nothing to do, each output has acknowledged all that is denoted at it.
pub fn rest_has_acknowledged_all()
    ensures { RestHasAcknowledgedAll }
{}

/// In each state of a well-formed system to which steps lead from the first one, with all nodes live, in which `auto` has
/// nothing to do, nothing waits.
pub fn nothing_waits_at_rest()
    ensures { NothingWaitsAtRest }
{}

/// In each state of a well-formed system to which steps lead from the first one, no more stamps are acknowledged than are due.
pub fn acknowledged_is_due()
    ensures { AcknowledgedIsDue }
{}

/// What an output has acknowledged in a run of a well-formed system, one outcome of the run shows as it is denoted.
pub fn acknowledged_is_shown()
    ensures { AcknowledgedIsShown }
{}

/// In each state of a well-formed system without a regroup to which steps lead from the first one, with all nodes live, in which
/// `auto` has nothing to do and no checkpoint is to be asked: once a collection is taken, enabled or not, no input holds a batch and
/// no log a message, of each node that takes checkpoints its newest write is left, with those on which it stands, and of a node that
/// logs each event and may keep nothing no write is.
pub fn rest_leaves_nothing()
    ensures { RestLeavesNothing }
{}

/// From each state of a well-formed system to which steps lead from the first one each node is asked for a checkpoint, `auto` goes
/// on, and a collection is taken.
pub fn asking_goes_on()
    ensures { AskingGoesOn }
{}

/// In each state of a well-formed system without a regroup to which steps lead from the first one, with all nodes live, in which
/// `auto` has nothing to do: once each node is asked for a checkpoint, and then `auto` as many steps as it takes at most, and a
/// collection, no input holds a batch and no log a message, of each node that takes checkpoints its newest write is left, with those
/// on which it stands, and of a node that logs each event and may keep nothing no write is.
pub fn asking_leaves_nothing()
    ensures { AskingLeavesNothing }
{}
