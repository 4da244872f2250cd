//! What the laws say of what meets what they ask.
ghost use Rattle.fw_examples.specs.Answers.{AnswersApply};
ghost use Rattle.fw_examples.specs.Collected.{CollectionsApply};
ghost use Rattle.fw_examples.specs.Generated.{GenerationApplies};
ghost use Rattle.fw_examples.specs.Headline.{HeadlineApplies};
ghost use Rattle.fw_examples.specs.Applied.{ChoicesApply, ChoosingApplies, DeliveriesApply, FilteringApplies, LegalHistoriesApply, RunsApply, StepsApply, CollectionRestored, LogsRestored, RestoringApplies, DenotationApplies, ProjectionsApply, SendingApplies, AutoApplies, EventsApply, ProgressApplies, ReplayApplies, ThinnedApplies, WritesApply};
ghost use Rattle.fw_examples.specs.AtRest.{RestApplies};

/// The laws of runs and of recoveries.
#[tactic(auto, using(crate::proofs::Applied::runs_apply))]
pub fn runs_apply()
    ensures { RunsApply }
{}

/// The laws of choosing.
#[tactic(auto, using(crate::proofs::Applied::choosing_applies))]
pub fn choosing_applies()
    ensures { ChoosingApplies }
{}

/// The laws of existence and of steps.
#[tactic(auto, using(crate::proofs::Applied::steps_apply))]
pub fn steps_apply()
    ensures { StepsApply }
{}

/// The laws of choices.
#[tactic(auto, using(crate::proofs::Applied::choices_apply))]
pub fn choices_apply()
    ensures { ChoicesApply }
{}

/// The laws of deliveries and of complete frontiers.
#[tactic(auto, using(crate::proofs::Applied::deliveries_apply))]
pub fn deliveries_apply()
    ensures { DeliveriesApply }
{}

/// The laws of legal histories.
#[tactic(auto, using(crate::proofs::Applied::legal_histories_apply))]
pub fn legal_histories_apply()
    ensures { LegalHistoriesApply }
{}

/// The laws of filtering.
#[tactic(auto, using(crate::proofs::Applied::filtering_applies))]
pub fn filtering_applies()
    ensures { FilteringApplies }
{}

/// The headline, before a collection, where a node failed, and after its recovery.
#[tactic(auto, using(crate::proofs::Headline::headline_applies))]
pub fn headline_applies()
    ensures { HeadlineApplies }
{}

/// The laws of restoring.
#[tactic(auto, using(crate::proofs::Applied::restoring_applies))]
pub fn restoring_applies()
    ensures { RestoringApplies }
{}

/// The laws of restoring of a node that logs each event, after a collection, and of a running total that does.
#[tactic(auto, using(crate::proofs::Applied::collection_restored))]
pub fn collection_restored()
    ensures { CollectionRestored }
{}

/// The laws of restoring of logs from which something is sent again.
#[tactic(auto, using(crate::proofs::Applied::logs_restored))]
pub fn logs_restored()
    ensures { LogsRestored }
{}

/// The laws of projections.
#[tactic(auto, using(crate::proofs::Applied::projections_apply))]
pub fn projections_apply()
    ensures { ProjectionsApply }
{}

/// The laws of sending.
#[tactic(auto, using(crate::proofs::Applied::sending_applies))]
pub fn sending_applies()
    ensures { SendingApplies }
{}

/// The laws of the denotation.
#[tactic(auto, using(crate::proofs::Applied::denotation_applies))]
pub fn denotation_applies()
    ensures { DenotationApplies }
{}

/// The laws of writes and of the fronts of checkpoints.
#[tactic(auto, using(crate::proofs::Applied::writes_apply))]
pub fn writes_apply()
    ensures { WritesApply }
{}

/// The laws of replay.
#[tactic(auto, using(crate::proofs::Applied::replay_applies))]
pub fn replay_applies()
    ensures { ReplayApplies }
{}

/// The laws of injections, of what is settled and of pending messages.
#[tactic(auto, using(crate::proofs::Applied::events_apply))]
pub fn events_apply()
    ensures { EventsApply }
{}

/// The laws of progress.
#[tactic(auto, using(crate::proofs::Progress::progress_applies))]
pub fn progress_applies()
    ensures { ProgressApplies }
{}

/// The law of stamps that are thinned.
#[tactic(auto, using(crate::proofs::Applied::thinned_applies))]
pub fn thinned_applies()
    ensures { ThinnedApplies }
{}

/// The laws of steps that are taken by themselves.
#[tactic(auto, using(crate::proofs::Applied::auto_applies))]
pub fn auto_applies()
    ensures { AutoApplies }
{}

/// The laws of answers.
#[tactic(auto, using(crate::proofs::Answers::answers_apply))]
pub fn answers_apply()
    ensures { AnswersApply }
{}

/// The laws of collections.
#[tactic(auto, using(crate::proofs::Collected::collections_apply))]
pub fn collections_apply()
    ensures { CollectionsApply }
{}

/// The laws of generated texts.
#[tactic(auto, using(crate::proofs::Generated::generation_applies))]
pub fn generation_applies()
    ensures { GenerationApplies }
{}

/// The laws of rest.
#[tactic(auto, using(crate::proofs::AtRest::rest_applies))]
pub fn rest_applies()
    ensures { RestApplies }
{}
