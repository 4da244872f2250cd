//! What a session puts into its store: batches, and roots.
ghost use Rattle.std.specs.Prelude.{◌≡◌, ◌+◌, ◌<◌, ◌^◌, Some, IfOk, OnErr, OnOk, IsErr, IsErrOf};
ghost use Rattle.std.specs.FinMap as map;
ghost use Rattle.std.specs.Option.{ForSome};
ghost use Rattle.fw_bag.specs.Keyed.{sorted_recs};
ghost use Rattle.fw_came.specs.Came as came;
ghost use Rattle.fw_hold.specs.Found.{ChangesOnly, IsLeftOrGone};
ghost use Rattle.fw_hold.specs.Kept.{root_id};
ghost use Rattle.fw_lines.specs.Batches.{IsBatch};
ghost use Rattle.fw_root.specs.Spelling.{root_spelling};
ghost use Rattle.fw_living.specs.Life.{life_faults_after};
ghost use Rattle.fw_lasting.specs.UnderWay.{CountsPutting, IsNextMark, IsNextRoot};

use fw_bag::{Bag, Rec};
use fw_came::{batch_bytes, batch_id};
use fw_engine::bag_of;
use fw_flow::NodeId;
use fw_held::RestartableEngine;
use fw_hold::{HeldEngine, HoldFault, are_bytes, is_digest, put_root};
use fw_living::LifeFault;
use fw_outside::{OutFault, Store};
use fw_root::{Digests, Mark, Printed, Root};
use fw_running::EngineFault;
use std::alloc::{AllocError, Global};

/// From here on no id is drawn, and no root is put: the ids of batches lie far behind it.
pub(crate) const MOST: u64 = 1 << 62;

/// Puts a batch of these recs, in any order, as the one of this epoch of a source; its last one, or not.
pub(crate) fn put_batch<K: Store>(
    alloc: Global,
    source: NodeId,
    epoch: u64,
    last: bool,
    recs: &[Rec],
    store: &mut K,
) -> Result<(), LifeFault>
    ensures put { OnOk result (ForSome (K.view store.new).records (λ held.
        map.get held (came.batch_id source epoch) ≡ Some (came.batch_bytes last (sorted_recs recs.now)))) }
    ensures batch { OnOk result (IsBatch (sorted_recs recs.now)) }
    ensures others { ChangesOnly (came.batch_id source epoch) (K.view store.old).records (K.view store.new).records }
    ensures not_put { OnErr result ((K.view store.new).records ≡ (K.view store.old).records) }
    ensures faults { CountsPutting result (came.batch_id source epoch) (K.view store.new).records (K.view store.old).faults (K.view store.new).faults }
    ensures known { IsErrOf result LifeFault.NotFed → ⊥ }
{
    let Ok(place) = u32::try_from(epoch) else {
        return Err(LifeFault::NoMemory);
    };
    let recs = recs_of(alloc, &bag_of(alloc, recs)?)?;
    let bytes = batch_bytes(alloc, last, &recs)?;
    put_new(batch_id(source.place(), place), bytes, store)
}

// The recs of a bag, in order.
fn recs_of(alloc: Global, batch: &Bag) -> Result<Vec<Rec>, AllocError>
    ensures { IfOk result (λ recs. recs.items ≡ batch.now.recs) }
{
    let mut recs = Vec::with_capacity(alloc, batch.len())?;
    for rec in batch {
        recs.push(rec)?;
    }
    Ok(recs)
}

// Puts a record under an id under which nothing may be yet.
fn put_new<K: Store>(id: u64, bytes: Vec<u8>, store: &mut K) -> Result<(), LifeFault>
    ensures put { OnOk result (ForSome (K.view store.new).records (λ held. map.get held id ≡ Some bytes.items)) }
    ensures others { ChangesOnly id (K.view store.old).records (K.view store.new).records }
    ensures not_put { OnErr result ((K.view store.new).records ≡ (K.view store.old).records) }
    ensures faults { CountsPutting result id (K.view store.new).records (K.view store.old).faults (K.view store.new).faults }
    ensures known { IsErrOf result LifeFault.NotFed → ⊥ }
{
    let Ok(false) = store.has(id) else {
        return Err(LifeFault::StoreFault);
    };
    match store.put_vec(id, bytes) {
        Ok(()) => Ok(()),
        Err(OutFault::Failed) => Err(LifeFault::StoreFault),
        Err(OutFault::NoMemory) => Err(LifeFault::NoMemory),
    }
}

/// The root behind what an engine did: that of the next turn, with these lines.
pub(crate) fn next_root(
    alloc: Global,
    engine: &RestartableEngine,
    digests: &Digests,
    turn: u64,
    steps: u64,
    lines: &[u8],
) -> Result<Root, LifeFault>
    ensures root { IfOk result (IsNextRoot engine.now digests.now turn steps lines.now) }
    ensures memory { IsErr result → IsErrOf result LifeFault.NoMemory }
{
    if turn >= MOST - 1 || steps >= MOST {
        return Err(LifeFault::NoMemory);
    }
    let mark = next_mark(alloc, digests, turn, steps, lines)?;
    let root = engine.root(mark)?;
    if root.next_id >= MOST {
        return Err(LifeFault::NoMemory);
    }
    Ok(root)
}

// Its mark.
fn next_mark(
    alloc: Global,
    digests: &Digests,
    turn: u64,
    steps: u64,
    lines: &[u8],
) -> Result<Mark, AllocError>
    requires turn { turn + 1 < 2 ^ 62 }
    requires steps { steps < 2 ^ 62 }
    ensures { IfOk result (IsNextMark digests.now turn steps lines.now) }
{
    is_digest(&digests.flow);
    is_digest(&digests.inputs);
    is_digest(&digests.schedule);
    let lines = Vec::from_slice(alloc, lines)?;
    are_bytes(&lines);
    Ok(Mark {
        digests: *digests,
        turn: turn + 1,
        line: 0,
        singles: 0,
        steps,
        idle: 0,
        lines: Printed::of(lines),
    })
}

/// Puts the next root in the place of the one before the last.
pub(crate) fn put_next<K: Store>(alloc: Global, root: &Root, store: &mut K) -> Result<(), LifeFault>
    ensures put { OnOk result (ForSome (K.view store.new).records (λ held.
        map.get held (root_id root.now.mark.turn) ≡ Some (root_spelling root.now))) }
    ensures others { ChangesOnly (root_id root.now.mark.turn) (K.view store.old).records (K.view store.new).records }
    ensures not_put { OnErr result (IsLeftOrGone (root_id root.now.mark.turn) (K.view store.old).records (K.view store.new).records) }
    ensures faults { (K.view store.new).faults ≡ life_faults_after result (K.view store.old).faults }
    ensures known { IsErrOf result LifeFault.NotFed → ⊥ }
{
    match put_root(alloc, root, store) {
        Ok(()) => Ok(()),
        Err(HoldFault::Engine(EngineFault::NoMemory)) => Err(LifeFault::NoMemory),
        Err(_) => Err(LifeFault::StoreFault),
    }
}
