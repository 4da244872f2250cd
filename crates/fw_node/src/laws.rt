//! The laws of answers: what a node answers from what came to it is what the node function gives for its events; and of a node that
//! is restored.
ghost use Rattle.fw_node.specs.ChainOf.{ChainOfOneIsAState};
ghost use Rattle.fw_node.specs.LawsOfAnswers.{DeliveriesAnswer, NotificationsAnswer, NoticesAreSends, DeliveriesNeedTheirTime, NotificationsNeedTheirTime, EventsInsideArrive, EventsComeOnInEdges};

/// What a delivery makes a node send that is no sequence follows from what came to it.
#[tactic(auto, using(crate::proofs::EventLaws::deliveries_answer))]
pub fn deliveries_answer()
    ensures { DeliveriesAnswer }
{}

/// What a notification makes a node send that is no sequence follows from what came to it.
#[tactic(auto, using(crate::proofs::EventLaws::notifications_answer))]
pub fn notifications_answer()
    ensures { NotificationsAnswer }
{}

/// What a node says that it sends at a notification is, in any order, what the node function sends there.
#[tactic(auto, using(crate::proofs::NoticeLaws::notices_are_sends))]
pub fn notices_are_sends()
    ensures { NoticesAreSends }
{}

/// Which recs a delivery makes a node send needs what came at its stamp alone, but at a total and a ledger.
#[tactic(auto, using(crate::proofs::ForgettingLaws::deliveries_need_their_time))]
pub fn deliveries_need_their_time()
    ensures { DeliveriesNeedTheirTime }
{}

/// Which recs a notification makes a node send needs what came at its stamp alone, but at a total and a ledger. Of a sequence
/// their numbers need how many it sent before.
#[tactic(auto, using(crate::proofs::ForgettingLaws::notifications_need_their_time))]
pub fn notifications_need_their_time()
    ensures { NotificationsNeedTheirTime }
{}

/// What came to the events inside is what came inside.
#[tactic(auto, using(crate::proofs::ForgettingLaws::events_inside_arrive))]
pub fn events_inside_arrive()
    ensures { EventsInsideArrive }
{}

/// Each delivery among the events of a node of a flow is on one of its in-edges, and among those at stamps inside too.
pub fn events_come_on_in_edges()
    ensures { EventsComeOnInEdges }
{}

/// A node that stands for a chain of one state alone stands for all events that have this state and whose deliveries lie inside.
pub fn chain_of_one_is_a_state()
    ensures { ChainOfOneIsAState }
{}
