//! An engine is fed while it runs.
ghost use Rattle.std.specs.Prelude.{◌≡◌, false, IfOk, IsErr, IsTrue, OnOk};
ghost use Rattle.fw_bag.specs.Bag.{IsRec, with_rec};
ghost use Rattle.fw_bag.specs.Keyed.{sorted_recs};
ghost use Rattle.fw_lines.specs.Batches.{IsBatch};
ghost use Rattle.fw_running.specs.Fed.{can_feed, IsFedBatch};
ghost use Rattle.fw_running.specs.Places.{HasAllPlaces};
ghost use Rattle.fw_engine.specs.Engine.{running_of, was_refused};
ghost use Rattle.fw_engine.specs.Feeding.{FeedsRunning};

use crate::Engine;
use fw_bag::{Bag, Rec};
use fw_flow::NodeId;
use fw_running::{Ready, Running};
use std::alloc::{AllocError, Global};

impl Engine {
    /// A batch of these recs, in any order, takes the place of the last one of an input, and an empty one is behind it, if that last one
    /// is held and not injected, and there can be one more: whether that is so is told. The error is want of memory, now or in an earlier
    /// step. Where nothing is fed all is as it was.
    pub fn feed(&mut self, source: NodeId, recs: &[Rec]) -> Result<bool, AllocError>
        ensures told { IfOk result (λ was_fed. was_fed ≡ can_feed (running_of self.old) source) }
        ensures fed { IfOk result (λ was_fed.
            IsTrue was_fed → IsFedBatch source (sorted_recs recs.now) (running_of self.old) (running_of self.new)) }
        ensures batch { OnOk result (IsBatch (sorted_recs recs.now)) }
        ensures stays { IfOk result (λ was_fed. was_fed ≡ false → self.new ≡ self.old) }
        ensures err { IsErr result → self.new ≡ self.old }
        ensures live { was_refused self.new ≡ was_refused self.old }
        ensures refused { IsTrue (was_refused self.old) → IsErr result }
    {
        if self.refused {
            return Err(AllocError);
        }
        feed_running(&mut self.running, source, recs)
    }
}

// The same of what is kept.
fn feed_running(running: &mut Running, source: NodeId, recs: &[Rec]) -> Result<bool, AllocError>
    ensures told { IfOk result (λ was_fed. was_fed ≡ can_feed running.old source) }
    ensures fed { IfOk result (λ was_fed. IsTrue was_fed → FeedsRunning source (sorted_recs recs.now) running.old running.new) }
    ensures batch { OnOk result (IsBatch (sorted_recs recs.now)) }
    ensures stays { IfOk result (λ was_fed. was_fed ≡ false → running.new ≡ running.old) }
    ensures err { IsErr result → running.new ≡ running.old }
{
    let batch = bag_of(running.alloc, recs)?;
    let mut ready = Ready::none(running.alloc);
    ready.put_all(&running.flow)?;
    put_batch(running, source, batch, ready)
}

// The same with the batch as a bag, and these places as those where something may be done.
fn put_batch(
    running: &mut Running,
    source: NodeId,
    batch: Bag,
    ready: Ready,
) -> Result<bool, AllocError>
    requires { HasAllPlaces running.old.flow ready }
    ensures told { IfOk result (λ was_fed. was_fed ≡ can_feed running.old source) }
    ensures fed { IfOk result (λ was_fed. IsTrue was_fed → FeedsRunning source batch.recs running.old running.new) }
    ensures stays { IfOk result (λ was_fed. was_fed ≡ false → running.new ≡ running.old) }
    ensures err { IsErr result → running.new ≡ running.old }
{
    if !running.progress.can_count_batch(source) {
        return Ok(false);
    }
    if !running.parts.sources.feed(running.alloc, source, batch)? {
        return Ok(false);
    }
    let _counted = running.progress.count_batch(source);
    running.epochs = running.epochs.max(running.parts.sources.batches(source));
    running.ready = ready;
    Ok(true)
}

/// The bag of these recs. The error is want of memory.
pub fn bag_of(alloc: Global, recs: &[Rec]) -> Result<Bag, AllocError>
    ensures recs { IfOk result (λ bag. bag.recs ≡ sorted_recs recs.now) }
    ensures batch { IfOk result (λ bag. IsBatch bag.recs) }
{
    let mut bag = Bag::new(alloc);
    for rec in recs {
        put(&mut bag, *rec)?;
    }
    Ok(bag)
}

// Puts a rec into a bag.
fn put(bag: &mut Bag, rec: Rec) -> Result<(), AllocError>
    ensures put { OnOk result (bag.new.recs ≡ with_rec rec bag.old.recs) }
    ensures small { IsRec rec }
{
    bag.add(rec)
}
