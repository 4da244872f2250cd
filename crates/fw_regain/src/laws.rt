//! The laws of what is got back. Of each function that stands here but `greatest_stamps` the `ensures` is one law, and the body is empty.
ghost use Rattle.std.specs.Prelude.{IfOk};
ghost use Rattle.fw_frontier.specs.Front.{frontier_of};
ghost use Rattle.fw_regain.specs.Causes.{GreatestSentStampsStandForSent, InjectedBatchesSend, SendStampsTellCauses};
ghost use Rattle.fw_regain.specs.Down.{AllAreDown, AllGoDown, DownChoosesTheWatermark, DownIsReached, DownOffersTheSame, EachStateStartsAgain, NothingFliesWhereAllAreFailed};
ghost use Rattle.fw_regain.specs.GotBack.{ReceivedStampsAreGotBack, StampsAreGotBack};
ghost use Rattle.fw_regain.specs.Greatest.{AreGreatestIn, GreatestStampsStandForAll};
ghost use Rattle.fw_regain.specs.RootOf.{DownHasTheSameRoots};
ghost use Rattle.fw_regain.specs.Third.{NothingOutsideLowIsCollected, ThirdFrontIsOffered, ThirdHoldsLow, ThirdStaysWhereAllAreDown};

use fw_frontier::Front;
use fw_time::{Bounds, Stamp};
use std::alloc::AllocError;

/// The greatest stamps of a domain inside a frontier, as the laws speak of them. The error is want of memory.
pub fn greatest_stamps(front: &Front, bounds: &Bounds) -> Result<Vec<Stamp>, AllocError>
    ensures { IfOk result (λ tops. AreGreatestIn bounds.now (frontier_of bounds.now front.now) tops.items) }
{
    front.greatest(bounds)
}

/// The greatest stamps inside the cover of some stamps stand for these: they are these, thinned inside each base that has them all.
pub fn greatest_stamps_stand_for_all()
    ensures { GreatestStampsStandForAll }
{}

/// The least stamp that sends at one sends there, and is at most each that does: at each kind but a sequence.
pub fn send_stamps_tell_causes()
    ensures { SendStampsTellCauses }
{}

/// The greatest stamps inside the cover of what was sent on an edge, each with the cause that it tells, stand for what was sent.
pub fn greatest_sent_stamps_stand_for_sent()
    ensures { GreatestSentStampsStandForSent }
{}

/// In a legal history the causes of what an input sent on an edge are the epochs that were injected and have a rec that the edge carries.
pub fn injected_batches_send()
    ensures { InjectedBatchesSend }
{}

/// Where what was delivered to a node inside a checkpoint is, and of what it was notified, is got back from what its record covers.
pub fn received_stamps_are_got_back()
    ensures { ReceivedStampsAreGotBack }
{}

/// So is where it sent, if it cannot send that again: the stamps stand for its events inside the checkpoint.
pub fn stamps_are_got_back()
    ensures { StampsAreGotBack }
{}

/// In each state to which steps lead from the first one the failure of every node leads to `down`, or is idle, and the state is that.
pub fn all_go_down()
    ensures { AllGoDown }
{}

/// So steps lead to it.
pub fn down_is_reached()
    ensures { DownIsReached }
{}

/// There every node is failed, and nothing is in flight.
pub fn all_are_down()
    ensures { AllAreDown }
{}

/// Where every node is failed nothing is in flight, in each state to which steps lead from the first one.
pub fn nothing_flies_where_all_are_failed()
    ensures { NothingFliesWhereAllAreFailed }
{}

/// Where every node is failed the nodes offer what they offered before, whichever count as failed.
pub fn down_offers_the_same()
    ensures { DownOffersTheSame }
{}

/// A recovery chooses there what a collection would have shown before.
pub fn down_chooses_the_watermark()
    ensures { DownChoosesTheWatermark }
{}

/// From each state to which steps of a well-formed system lead from the first one a start leads on: every node is failed, and a recovery is
/// taken. Its cuts are a floor, and hold each floor of before.
pub fn each_state_starts_again()
    ensures { EachStateStartsAgain }
{}

/// The third frontier of a node is the same where every node is failed.
pub fn third_stays_where_all_are_down()
    ensures { ThirdStaysWhereAllAreDown }
{}

/// A node that logs its events offers the frontiers from the low watermark to its third one, and no others.
pub fn third_front_is_offered()
    ensures { ThirdFrontIsOffered }
{}

/// The third frontier holds the low watermark.
pub fn third_holds_low()
    ensures { ThirdHoldsLow }
{}

/// Of the events of a node that logs them, outside the low watermark, none was collected.
pub fn nothing_outside_low_is_collected()
    ensures { NothingOutsideLowIsCollected }
{}

/// A root of a state is one of that in which every node is failed, and the other way round.
pub fn down_has_the_same_roots()
    ensures { DownHasTheSameRoots }
{}
