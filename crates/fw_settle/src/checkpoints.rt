//! The steps of writes: a checkpoint is asked, and a write is acknowledged.
ghost use Rattle.std.specs.Prelude.{◌≡◌, ◌↔◌, ◌<◌, ℕ, List, length, Option, Ok, IsTrue, unwrap_or};
ghost use Rattle.std.specs.Option.{option_copied};
ghost use Rattle.fw_frontier.specs.Front.{IsCanonical};
ghost use Rattle.fw_flow.specs.Dataflow.{bounds_of};
ghost use Rattle.fw_model.specs.Machine.{front_of, no_stamps};
ghost use Rattle.fw_model.specs.Steps.{last_or};
ghost use Rattle.fw_flow.specs.declared.step.Step.TheVariants as steps;
ghost use Rattle.fw_keep.specs.Stored.{IsStored};
ghost use Rattle.fw_stands.specs.Entries.{entry_fronts};
ghost use Rattle.fw_running.specs.Drawn.{DrawsAtMost, may_draw, supply};
ghost use Rattle.fw_running.specs.Shaped.{IsShaped};
ghost use Rattle.fw_settle.specs.Checkpoints.{MayTakeCheckpoint};
ghost use Rattle.fw_running.specs.Steps.{InnerAnswers, StepAnswers};

use crate::asking::{ask_checkpoint, is_asked_for_checkpoints};
use crate::base::front_of_entry;
use crate::tables::settle_when_asked;
use fw_flow::NodeId;
use fw_frontier::Front;
use fw_keep::Keep;
use fw_outside::Store;
use fw_running::{Effect, EngineFault, Running, Stepped};

/// The node asks a checkpoint of what is settled; if its table waited for one, it settles then.
pub fn checkpoint<K: Store>(
    running: &mut Running,
    node: NodeId,
    store: &mut K,
) -> Result<Stepped, EngineFault>
    requires shaped { IsShaped running.old }
    requires stored { IsStored running.old.parts.keep (K.view store.old).records }
    ensures answers { StepAnswers K.view running.old store.old (steps.Checkpoint node) result running.new store.new }
    ensures draws { DrawsAtMost (may_draw 1 result) running.old.parts.keep running.new.parts.keep (K.view store.old).records (K.view store.new).records }
{
    if !may_take(running, node) {
        return Ok(Stepped::Idle);
    }
    let front = running.progress.settled()[node.place() as usize].copy()?;
    ask_checkpoint(running, node, &front, store)?;
    settle_when_asked(running, node, &front)?;
    Ok(Stepped::Did(Effect::Quiet))
}

// Whether a node takes checkpoints when asked, is not failed, and has not taken the newest one at what is settled.
fn may_take(running: &Running, node: NodeId) -> bool
    requires shaped { IsShaped running.now }
    ensures { IsTrue result ↔ MayTakeCheckpoint running.now node }
{
    if !is_asked_for_checkpoints(running.flow.policy(node)) {
        return false;
    }
    if running.is_failed(node) {
        return false;
    }
    !is_newest_settled(running, node)
}

// Whether the newest checkpoint of a node is at what is settled; where it has none, whether nothing is settled.
fn is_newest_settled(running: &Running, node: NodeId) -> bool
    requires there { node < length running.now.progress.settled }
    requires settled { IsCanonical (bounds_of running.now.flow node) (front_of running.now.progress.settled node) }
    ensures { IsTrue result ↔ (front_of running.now.progress.settled node
        ≡ last_or (no_stamps (bounds_of running.now.flow node)) (entry_fronts node running.now.parts.keep.entries)) }
{
    let settled = &running.progress.settled()[node.place() as usize];
    match newest_front(&running.parts.keep, node) {
        Some(front) => front.same(settled),
        None => !settled.contains(&running.flow.domain(node).origin()),
    }
}

/// The oldest write in flight is acknowledged.
pub fn persist(running: &mut Running) -> Stepped
    requires shaped { IsShaped running.old }
    ensures answers { InnerAnswers running.old steps.Persist (Ok result) running.new }
    ensures draws { supply running.new.parts.keep ≡ supply running.old.parts.keep }
{
    match running.parts.keep.persist_one() {
        Some(_id) => Stepped::Did(Effect::Quiet),
        None => Stepped::Idle,
    }
}

// The front of the newest checkpoint of a node, if it has one.
fn newest_front(keep: &Keep, node: NodeId) -> Option<&Front>
    ensures { (f : List (List ℕ)) → unwrap_or (option_copied result) f ≡ last_or f (entry_fronts node keep.now.entries) }
{
    front_of_entry(keep.newest_checkpoint(node))
}
