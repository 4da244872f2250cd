//! The laws of what a store holds of a session: each function's `ensures` is one law, and its body is empty.
ghost use Rattle.fw_lasting.specs.LawsOfLasting.{EmptyStoresHoldOpenings, KeptStoriesStartAgain, OtherIdsLeaveStories, PutBatchesAreFed, PutEndsAreClosed, PutRootsAreKept, ReadBatchesAreThose, ReadRootsAreForThem, RootsLeftStayKept, RootsStayOverMore, StartsGoOn, StoriesStartAgain, StoriesWithoutStepsAreAtFirst, ToldRootsAreOver};

use fw_hold::HeldEngine;
use fw_outside::Store;

/// A root of the state to which an open run leads is one over all batches that go on behind those of now.
pub fn roots_stay_over_more()
    ensures { RootsStayOverMore }
{}

/// Where a recovery leads from what is left of the state of a story, the story goes on by a start.
pub fn stories_start_again()
    ensures { StoriesStartAgain }
{}

/// Where records hold a story, and the next batch of an open source is put, they hold the story that goes on by it.
pub fn put_batches_are_fed()
    ensures { PutBatchesAreFed }
{}

/// Where the empty batch with which an open source is closed is put, they hold the story in which it is closed.
pub fn put_ends_are_closed()
    ensures { PutEndsAreClosed }
{}

/// Records that hold a story do so where nothing is changed under the ids that the root names, nor from the first id of a batch on.
pub fn other_ids_leave_stories()
    ensures { OtherIdsLeaveStories }
{}

/// Where a root of a story with the same batches is put as the next one, the records hold that story.
pub fn put_roots_are_kept()
    ensures { PutRootsAreKept }
{}

/// Where the next root could not be put, the records hold the story that they held.
pub fn roots_left_stay_kept()
    ensures { RootsLeftStayKept }
{}

/// Batches by node that are those that came, and an empty one behind them of each open source, are those of the story.
pub fn read_batches_are_those()
    ensures { ReadBatchesAreThose }
{}

/// A root of the story is one of them.
pub fn read_roots_are_for_them()
    ensures { ReadRootsAreForThem }
{}

/// What an engine tells that stands for a state over batches is a root of it.
pub fn told_roots_are_over<E: HeldEngine>()
    ensures { ToldRootsAreOver E.stand E.keep_of E.flow_of }
{}

/// From the root of a story an engine is made that stands for the state of the story behind a start.
pub fn starts_go_on<E: HeldEngine, K: Store>()
    ensures { StartsGoOn K.view E.stand E.keep_of E.flow_of }
{}

/// Where no step was taken, the state of a story is the first one over its batches.
pub fn stories_without_steps_are_at_first()
    ensures { StoriesWithoutStepsAreAtFirst }
{}

/// Records with nothing hold the opening: a start over them finds that nothing was done.
pub fn empty_stores_hold_openings()
    ensures { EmptyStoresHoldOpenings }
{}

/// Where a session keeps a story and lines, its store holds the story, and the root there has the lines: what a start over it goes on from.
pub fn kept_stories_start_again()
    ensures { KeptStoriesStartAgain }
{}
