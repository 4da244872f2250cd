//! Nodes that log what they do: what is not written is lost, and what is collected.
ghost use Rattle.fw_examples.specs.Logs.{LosesAnEpoch, CollectsALoggedEvent, KeepsALogWithACheckpoint, KeepsEventsOfATotal};

/// A frontier with an event that is not written is none to which a node is restored.
#[tactic(auto, using(crate::proofs::Logs::loses_an_epoch))]
pub fn loses_an_epoch()
    ensures { LosesAnEpoch }
{}

/// In a run, an event is collected once what it sent is no longer needed, and another is kept, since what it sent is
/// sent again.
#[tactic(auto, using(crate::proofs::Logs::collects_a_logged_event))]
pub fn collects_a_logged_event()
    ensures { CollectsALoggedEvent }
{}

/// In a run, the log of a checkpoint has what is sent again, and nothing that lay below the watermark when it was asked.
#[tactic(auto, using(crate::proofs::Logs::keeps_a_log_with_a_checkpoint))]
pub fn keeps_a_log_with_a_checkpoint()
    ensures { KeepsALogWithACheckpoint }
{}

/// In a run, a collection takes no event of a running total, since later epochs are summed from all of them.
#[tactic(auto, using(crate::proofs::Logs::keeps_events_of_a_total))]
pub fn keeps_events_of_a_total()
    ensures { KeepsEventsOfATotal }
{}
