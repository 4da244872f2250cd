//! The step of progress.
ghost use Rattle.std.specs.Prelude.{◌≡◌, ◌↔◌, ◌<◌, Some, true, length, IsTrue, OnOk, OnErr};
ghost use Rattle.fw_flow.specs.declared.step.Step.TheVariants as steps;
ghost use Rattle.fw_flow.specs.Dataflow.{policy_of};
ghost use Rattle.fw_model.specs.Machine.{front_of};
ghost use Rattle.fw_model.specs.Steps as steps_of;
ghost use Rattle.fw_keep.specs.Stored.{IsStored};
ghost use Rattle.fw_progress.specs.Settle.{IsGrownAt, has_more};
ghost use Rattle.fw_running.specs.Drawn.{DrawsAtMost, may_draw};
ghost use Rattle.fw_running.specs.Logging.{ChangesKeep, IsAskRefused};
ghost use Rattle.fw_running.specs.Places.{IsTakenOut};
ghost use Rattle.fw_running.specs.Shaped.{IsShaped};
ghost use Rattle.fw_running.specs.Steps.{PartAnswers, StepAnswers};
ghost use Rattle.fw_settle.specs.Settling.{grows, HasEagerToSettle, IsFoundToSettle, IsFoundLive, AddsEntries, KeepsEntries, AsksIfEager, HaveAsked, with_traces, ChangesSettled, SettlesTraces, SettlesTo, SettlesKept, HaveSettled};

use crate::asking::{ask_checkpoint, withdraw_from};
use crate::tables::settle_at_progress;
use fw_flow::{NodeId, Policy};
use fw_frontier::Front;
use fw_outside::Store;
use fw_running::{Effect, EngineFault, Running, Stepped, takes_checkpoints};
use std::alloc::AllocError;

/// What is complete becomes settled, and eager nodes that grow ask a checkpoint.
pub fn progress<K: Store>(running: &mut Running, store: &mut K) -> Result<Stepped, EngineFault>
    requires shaped { IsShaped running.old }
    requires stored { IsStored running.old.parts.keep (K.view store.old).records }
    ensures answers { StepAnswers K.view running.old store.old steps.Progress result running.new store.new }
    ensures draws { DrawsAtMost (may_draw (length running.old.flow.nodes) result) running.old.parts.keep running.new.parts.keep
        (K.view store.old).records (K.view store.new).records }
{
    running.refresh()?;
    let Some(_first) = grown_from(running, 0) else {
        return Ok(Stepped::Idle);
    };
    ask_eager(running, store)?;
    settle_grown(running)?;
    Ok(Stepped::Did(Effect::Quiet))
}

// The first node from a place on that is not failed and has more kept than settled.
fn grown_from(running: &Running, place: u32) -> Option<NodeId>
    requires shaped { IsShaped running.now }
    ensures { IsFoundToSettle running.now place result }
{
    let mut next = running.ready.growing_from(place);
    while let Some(node) = next {
        if has_grown(running, node) {
            return Some(node);
        }
        next = running.ready.growing_from(node.place() + 1);
    }
    None
}

// Whether a node is not failed and has more kept than settled. Past the last node none has.
fn has_grown(running: &Running, node: NodeId) -> bool
    requires shaped { IsShaped running.now }
    ensures value { result ≡ grows running.now node }
    ensures there { IsTrue result → node < length running.now.flow.nodes }
{
    is_node(running, node) && !running.is_failed(node) && running.progress.has_grown(node)
}

// Whether there is such a node.
fn is_node(running: &Running, node: NodeId) -> bool
    ensures { IsTrue result ↔ (node < length running.now.flow.nodes) }
{
    (node.place() as usize) < running.flow.nodes()
}

// The eager nodes that grow ask their checkpoints, in order. A fault leaves none of them.
fn ask_eager<K: Store>(running: &mut Running, store: &mut K) -> Result<(), EngineFault>
    requires shaped { IsShaped running.old }
    requires stored { IsStored running.old.parts.keep (K.view store.old).records }
    ensures others { ChangesKeep running.old running.new }
    ensures shaped { IsShaped running.new }
    ensures asked { OnOk result (HaveAsked (length running.old.flow.nodes) running.old running.new (K.view store.old).records (K.view store.new).records) }
    ensures stays { OnErr result (KeepsEntries running.old.parts.keep.entries running.new.parts.keep.entries
        (K.view store.old).records (K.view store.new).records) }
    ensures part { PartAnswers K.view (HasEagerToSettle running.old) running.old store.old result running.new store.new }
    ensures draws { DrawsAtMost (length running.old.flow.nodes) running.old.parts.keep running.new.parts.keep
        (K.view store.old).records (K.view store.new).records }
{
    let count = running.parts.keep.entries().len();
    match ask_each(running, store) {
        Ok(()) => Ok(()),
        Err(fault) => {
            withdraw_from(running, count);
            Err(fault)
        }
    }
}

// The same, but what was asked before a fault is left.
fn ask_each<K: Store>(running: &mut Running, store: &mut K) -> Result<(), EngineFault>
    requires shaped { IsShaped running.old }
    requires stored { IsStored running.old.parts.keep (K.view store.old).records }
    ensures others { ChangesKeep running.old running.new }
    ensures shaped { IsShaped running.new }
    ensures asked { OnOk result (HaveAsked (length running.old.flow.nodes) running.old running.new (K.view store.old).records (K.view store.new).records) }
    ensures adds { AddsEntries running.old.parts.keep.entries running.new.parts.keep.entries (K.view store.old).records (K.view store.new).records }
    ensures part { PartAnswers K.view (HasEagerToSettle running.old) running.old store.old result running.new store.new }
    ensures draws { DrawsAtMost (length running.old.flow.nodes) running.old.parts.keep running.new.parts.keep
        (K.view store.old).records (K.view store.new).records }
{
    let mut next = grown_from(running, 0);
    while let Some(node) = next {
        ask_if_eager(running, node, store)?;
        next = grown_from(running, node.place() + 1);
    }
    Ok(())
}

// A node that grows asks its checkpoint, if it is eager.
fn ask_if_eager<K: Store>(
    running: &mut Running,
    node: NodeId,
    store: &mut K,
) -> Result<(), EngineFault>
    requires shaped { IsShaped running.old }
    requires stored { IsStored running.old.parts.keep (K.view store.old).records }
    requires there { node < length running.old.flow.nodes }
    requires more { has_more (front_of running.old.progress.kept node) (front_of running.old.progress.settled node) ≡ true }
    ensures others { ChangesKeep running.old running.new }
    ensures shaped { IsShaped running.new }
    ensures asked { OnOk result (AsksIfEager node running.old running.new (K.view store.old).records (K.view store.new).records) }
    ensures stays { OnErr result (IsAskRefused running.old.parts.keep running.new.parts.keep
        (K.view store.old).records (K.view store.new).records) }
    ensures part { PartAnswers K.view (steps_of.is_eager (policy_of running.old.flow node) ≡ true) running.old store.old result running.new store.new }
    ensures draws { DrawsAtMost 1 running.old.parts.keep running.new.parts.keep (K.view store.old).records (K.view store.new).records }
{
    if !is_eager(running.flow.policy(node)) {
        return Ok(());
    }
    match running.progress.grown_at(&running.flow, node)? {
        Some(front) => ask_checkpoint(running, node, &front, store),
        None => Ok(()),
    }
}

// Whether a node of the policy asks a checkpoint whenever more is settled.
fn is_eager(policy: Policy) -> bool
    ensures { result ≡ steps_of.is_eager policy }
{
    matches!(policy, Policy::Eager)
}

// Each node that grows settles what is complete.
fn settle_grown(running: &mut Running) -> Result<(), AllocError>
    requires shaped { IsShaped running.old }
    ensures keep { running.new.parts.keep ≡ running.old.parts.keep }
    ensures flow { running.new.flow ≡ running.old.flow }
    ensures others { OnOk result (ChangesSettled running.old running.new) }
    ensures shaped { OnOk result (IsShaped running.new) }
    ensures settled { OnOk result (HaveSettled (length running.old.flow.nodes) running.old running.new) }
{
    let mut next = live_from(running, 0);
    while let Some(node) = next {
        settle_node(running, node)?;
        next = live_from(running, node.place() + 1);
    }
    Ok(())
}

// The first node from a place on that is among the growing ones and is not failed.
fn live_from(running: &Running, place: u32) -> Option<NodeId>
    requires shaped { IsShaped running.now }
    ensures { IsFoundLive running.now place result }
{
    let mut next = running.ready.growing_from(place);
    while let Some(node) = next {
        if is_node(running, node) && !running.is_failed(node) {
            return Some(node);
        }
        next = running.ready.growing_from(node.place() + 1);
    }
    None
}

// A node that is not failed settles what is complete, and is then no more among the growing ones.
fn settle_node(running: &mut Running, node: NodeId) -> Result<(), AllocError>
    requires shaped { IsShaped running.old }
    requires there { node < length running.old.flow.nodes }
    ensures keep { running.new.parts.keep ≡ running.old.parts.keep }
    ensures flow { running.new.flow ≡ running.old.flow }
    ensures others { OnOk result (ChangesSettled running.old running.new) }
    ensures shaped { OnOk result (IsShaped running.new) }
    ensures settled { OnOk result (SettlesKept node running.old running.new) }
    ensures taken { OnOk result (IsTakenOut node running.old.ready.growing running.new.ready.growing) }
{
    match running.progress.grown_at(&running.flow, node)? {
        Some(front) => settle_to(running, node, front),
        None => {
            running.ready.take_growing(node);
            Ok(())
        }
    }
}

// A node settles this front, of what is kept, and is then no more among the growing ones.
fn settle_to(running: &mut Running, node: NodeId, front: Front) -> Result<(), AllocError>
    requires shaped { IsShaped running.old }
    requires there { node < length running.old.flow.nodes }
    requires grown { IsGrownAt running.old.flow running.old.progress.settled running.old.progress.kept node (Some front) }
    ensures keep { running.new.parts.keep ≡ running.old.parts.keep }
    ensures flow { running.new.flow ≡ running.old.flow }
    ensures others { OnOk result (ChangesSettled running.old running.new) }
    ensures shaped { OnOk result (IsShaped running.new) }
    ensures settled { OnOk result (SettlesTo node front running.old running.new) }
    ensures taken { OnOk result (IsTakenOut node running.old.ready.growing running.new.ready.growing) }
{
    settle_at_progress(running, node, &front)?;
    settle_traces(running, node, &front)?;
    running.progress.settle_at(&running.flow, node, front);
    running.ready.put_output(node)?;
    running.ready.take_growing(node);
    Ok(())
}

// The traces of a node, if it takes checkpoints, are settled to a front.
fn settle_traces(running: &mut Running, node: NodeId, front: &Front) -> Result<(), AllocError>
    requires shaped { IsShaped running.old }
    requires there { node < length running.old.flow.nodes }
    ensures others { running.new ≡ with_traces running.new.traces running.old }
    ensures shaped { OnOk result (IsShaped running.new) }
    ensures settled { OnOk result (SettlesTraces node front.now running.old.flow running.old.traces running.new.traces) }
{
    if !takes_checkpoints(running.flow.policy(node)) {
        return Ok(());
    }
    running.traces.settle(&running.flow, node, front)
}
