//! Writes are asked.
ghost use Rattle.std.specs.Prelude.{◌≡◌, ◌<◌, ◌++◌, List, Option, length, IfOk, OnOk, OnErr, is_some};
ghost use Rattle.fw_running.specs.Drawn.{DrawsAtMost, supply};
ghost use Rattle.fw_running.specs.Faults.{faults_after_step};
ghost use Rattle.fw_frontier.specs.Front.{IsCanonical};
ghost use Rattle.fw_flow.specs.Dataflow.{bounds_of};
ghost use Rattle.fw_model.specs.Steps as steps_of;
ghost use Rattle.fw_keep.specs.declared.entry.Entry.{Entry as Write};
ghost use Rattle.fw_keep.specs.Catalogue.{AreInFlight};
ghost use Rattle.fw_keep.specs.Stored.{Records, IsStored};
ghost use Rattle.fw_settle.specs.Checkpoints.{AsksCheckpoint, IsNextRecord};
ghost use Rattle.fw_running.specs.Shaped.{IsShaped};
ghost use Rattle.fw_running.specs.Steps.{IsUndamaged};
ghost use Rattle.fw_running.specs.Logging.{ChangesKeep, IsAskRefused};

use crate::base::{front_of_entry, next_base, record_on};
use crate::checking::{is_countable, is_of_domains};
use crate::record::checkpoint_at;
use fw_flow::{NodeId, Policy};
use fw_frontier::Front;
use fw_outside::Store;
use fw_record::Record;
use fw_running::{EngineFault, Running};
use std::alloc::AllocError;

/// A node asks a checkpoint at a frontier, which holds what is settled. A fault leaves all as it was. A checkpoint of more
/// parts than its record can count, or with a front that is not the one list of its frontier, as traces of events never give,
/// is answered as want of memory.
pub(crate) fn ask_checkpoint<K: Store>(
    running: &mut Running,
    node: NodeId,
    front: &Front,
    store: &mut K,
) -> Result<(), EngineFault>
    requires shaped { IsShaped running.old }
    requires stored { IsStored running.old.parts.keep (K.view store.old).records }
    requires there { node < length running.old.flow.nodes }
    requires front { IsCanonical (bounds_of running.old.flow node) front.now }
    ensures others { ChangesKeep running.old running.new }
    ensures shaped { IsShaped running.new }
    ensures stored { IsStored running.new.parts.keep (K.view store.new).records }
    ensures asked { OnOk result (AsksCheckpoint node front.now running.old running.new (K.view store.old).records (K.view store.new).records) }
    ensures stays { OnErr result (IsAskRefused running.old.parts.keep running.new.parts.keep
        (K.view store.old).records (K.view store.new).records) }
    ensures faults { (K.view store.new).faults ≡ faults_after_step result (K.view store.old).faults }
    ensures undamaged { IsUndamaged result }
    ensures tells { is_some (K.view store.new).records ≡ is_some (K.view store.old).records }
    ensures draws { DrawsAtMost 1 running.old.parts.keep running.new.parts.keep (K.view store.old).records (K.view store.new).records }
{
    let what = next_record(running, node, front)?;
    let stamps = running
        .traces
        .stamps_inside(running.alloc, &running.flow, node, front)?;
    running.ask(&what, stamps, store)
}

// The record of the next checkpoint of a node. Want of memory is the answer too where it has more parts than its record can count,
// or a front that is not the one list of its frontier.
fn next_record(running: &Running, node: NodeId, front: &Front) -> Result<Record, AllocError>
    requires shaped { IsShaped running.now }
    requires there { node < length running.now.flow.nodes }
    requires front { IsCanonical (bounds_of running.now.flow node) front.now }
    ensures { IfOk result (IsNextRecord running.now node front.now) }
{
    let base = next_base(&running.parts.keep, node);
    let checkpoint = checkpoint_at(running, node, front_of_entry(base), front)?;
    if !is_countable(&checkpoint) || !is_of_domains(&running.flow, node, &checkpoint.recorded) {
        return Err(AllocError);
    }
    Ok(record_on(base, checkpoint))
}

/// The writes in flight behind the first so many are withdrawn.
pub(crate) fn withdraw_from(running: &mut Running, count: usize)
    ensures others { ChangesKeep running.old running.new }
    ensures stored { (records : Option Records) → IsStored running.old.parts.keep records → IsStored running.new.parts.keep records }
    ensures withdrawn { (before more : List Write) → running.old.parts.keep.entries ≡ before ++ more → length before ≡ count → AreInFlight more
        → running.new.parts.keep.entries ≡ before }
    ensures draws { supply running.new.parts.keep ≡ supply running.old.parts.keep }
{
    let entries = running.parts.keep.entries();
    if count >= entries.len() {
        return;
    }
    let first = entries[count].id;
    running.parts.keep.withdraw(first);
}

/// Whether a node of the policy takes checkpoints when asked.
pub(crate) fn is_asked_for_checkpoints(policy: Policy) -> bool
    ensures { result ≡ steps_of.is_asked_for_checkpoints policy }
{
    matches!(policy, Policy::Lazy | Policy::Logged)
}
