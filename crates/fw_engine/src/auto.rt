//! Steps that are taken by themselves: each is the first that is enabled.
ghost use Rattle.std.specs.Prelude.{◌≡◌, ◌↔◌, Option, Ok, IsErrOf, IsTrue, IfOk, IfSome, OnOk};
ghost use Rattle.fw_border.specs.Outputs.{AreByNumber};
ghost use Rattle.fw_keep.specs.Stored.{Records, IsStored};
ghost use Rattle.fw_stands.specs.FirstSteps.{NoneToDeliver, NoneToNotify, NoneToSettle};
ghost use Rattle.fw_running.specs.Kept.{output_of};
ghost use Rattle.fw_running.specs.Places.{IsFirstWhere, IsTakenOut};
ghost use Rattle.fw_running.specs.Ready.{CanAcknowledge, CanDeliver, CanInject, IsOwing};
ghost use Rattle.fw_engine.specs.Engine.{StepDraws};
ghost use Rattle.fw_engine.specs.Searching.{with_ready_edges, with_ready_outputs, with_ready_inputs, IsSearched, IsNoticeOf, IsFirstNotified, IsAny, NoneToPersist, TakesFirstAfter, CanInjectWithin, InjectsFirst, InjectsWithin, TakesFirstWithin};
ghost use Rattle.fw_running.specs.declared.stepped.Stepped.TheVariants.{Idle};
ghost use Rattle.fw_running.specs.Drawn.{supply};
ghost use Rattle.fw_running.specs.Shaped.{IsShaped};
ghost use Rattle.fw_running.specs.Steps.{IsUndamaged, MayCallByItself, PartAnswers, StaysShaped, TakesFirstStep};

use crate::acknowledgement::{acknowledge, next_acknowledged};
use fw_events::{can_deliver, deliver, inject, may_inject, next_notice, notify_of};
use fw_flow::{EdgeId, NodeId};
use fw_outside::Store;
use fw_running::{Effect, EngineFault, Running, Stepped};
use fw_settle::{persist, progress};
use fw_time::Stamp;
use std::alloc::AllocError;

/// Of what a node may be notified.
#[derive(Drop)]
struct Notice {
    node: NodeId,
    at: Stamp,
}

/// Takes the first step that is enabled, and tells what it shows.
pub(crate) fn take_first<K: Store>(
    running: &mut Running,
    store: &mut K,
) -> Result<Stepped, EngineFault>
    requires shaped { IsShaped running.old }
    requires stored { IsStored running.old.parts.keep (K.view store.old).records }
    ensures shaped { StaysShaped result running.new }
    ensures takes { TakesFirstStep running.old (K.view store.old).records result running.new (K.view store.new).records }
    ensures part { PartAnswers K.view (MayCallByItself running.old.flow) running.old store.old result running.new store.new }
    ensures idle { result ≡ Ok Idle → store.new ≡ store.old }
    ensures draws { StepDraws running.old (K.view store.old).records result running.new (K.view store.new).records }
{
    let taken = take_earlier(running, store);
    if took_nothing(&taken) {
        return inject_first(running);
    }
    taken
}

/// The same where no input injects more batches than these, by its place.
pub(crate) fn take_first_within<K: Store>(
    running: &mut Running,
    came: &[u64],
    store: &mut K,
) -> Result<Stepped, EngineFault>
    requires shaped { IsShaped running.old }
    requires stored { IsStored running.old.parts.keep (K.view store.old).records }
    ensures shaped { StaysShaped result running.new }
    ensures takes { TakesFirstWithin came.now running.old (K.view store.old).records result running.new (K.view store.new).records }
    ensures part { PartAnswers K.view (MayCallByItself running.old.flow) running.old store.old result running.new store.new }
    ensures idle { result ≡ Ok Idle → store.new ≡ store.old }
    ensures draws { StepDraws running.old (K.view store.old).records result running.new (K.view store.new).records }
{
    let taken = take_earlier(running, store);
    if took_nothing(&taken) {
        return inject_within(running, came);
    }
    taken
}

// Whether no step was enabled. What was taken is looked at as it lies, and not moved.
fn took_nothing(taken: &Result<Stepped, EngineFault>) -> bool
    ensures { IsTrue result ↔ (taken.now ≡ Ok Idle) }
{
    matches!(taken, Ok(Stepped::Idle))
}

// The same, but that no input injects: Idle where nothing comes before the injections.
fn take_earlier<K: Store>(running: &mut Running, store: &mut K) -> Result<Stepped, EngineFault>
    requires shaped { IsShaped running.old }
    requires stored { IsStored running.old.parts.keep (K.view store.old).records }
    ensures shaped { StaysShaped result running.new }
    ensures takes { TakesFirstAfter IsAny running.old (K.view store.old).records result running.new (K.view store.new).records }
    ensures part { PartAnswers K.view (MayCallByItself running.old.flow) running.old store.old result running.new store.new }
    ensures idle { result ≡ Ok Idle → store.new ≡ store.old }
    ensures draws { StepDraws running.old (K.view store.old).records result running.new (K.view store.new).records }
{
    match persist(running) {
        Stepped::Did(effect) => Ok(Stepped::Did(effect)),
        Stepped::Idle => deliver_first(running, store),
    }
}

// The same where no write can be acknowledged: the first delivery that is enabled, or what comes later.
fn deliver_first<K: Store>(running: &mut Running, store: &mut K) -> Result<Stepped, EngineFault>
    requires shaped { IsShaped running.old }
    requires stored { IsStored running.old.parts.keep (K.view store.old).records }
    ensures shaped { StaysShaped result running.new }
    ensures takes { TakesFirstAfter NoneToPersist running.old (K.view store.old).records result running.new (K.view store.new).records }
    ensures part { PartAnswers K.view (MayCallByItself running.old.flow) running.old store.old result running.new store.new }
    ensures idle { result ≡ Ok Idle → store.new ≡ store.old }
    ensures draws { StepDraws running.old (K.view store.old).records result running.new (K.view store.new).records }
{
    match first_deliverable(running) {
        Some(edge) => deliver(running, edge, None, store),
        None => notify_first(running, store),
    }
}

// The same where besides nothing can be delivered: the first notification that is enabled, or what comes later.
fn notify_first<K: Store>(running: &mut Running, store: &mut K) -> Result<Stepped, EngineFault>
    requires shaped { IsShaped running.old }
    requires stored { IsStored running.old.parts.keep (K.view store.old).records }
    ensures shaped { StaysShaped result running.new }
    ensures takes { TakesFirstAfter NoneToDeliver running.old (K.view store.old).records result running.new (K.view store.new).records }
    ensures part { PartAnswers K.view (MayCallByItself running.old.flow) running.old store.old result running.new store.new }
    ensures idle { result ≡ Ok Idle → store.new ≡ store.old }
    ensures draws { StepDraws running.old (K.view store.old).records result running.new (K.view store.new).records }
{
    let Some(notice) = first_notice(running)? else {
        return settle_first(running, store);
    };
    notify_of(running, notice.node, &notice.at, store)?;
    Ok(Stepped::Did(Effect::Quiet))
}

// The same where besides no node can be notified: what is complete is settled, or what comes later.
fn settle_first<K: Store>(running: &mut Running, store: &mut K) -> Result<Stepped, EngineFault>
    requires shaped { IsShaped running.old }
    requires stored { IsStored running.old.parts.keep (K.view store.old).records }
    ensures shaped { StaysShaped result running.new }
    ensures takes { TakesFirstAfter NoneToNotify running.old (K.view store.old).records result running.new (K.view store.new).records }
    ensures part { PartAnswers K.view (MayCallByItself running.old.flow) running.old store.old result running.new store.new }
    ensures idle { result ≡ Ok Idle → store.new ≡ store.old }
    ensures draws { StepDraws running.old (K.view store.old).records result running.new (K.view store.new).records }
{
    match progress(running, store)? {
        Stepped::Did(effect) => Ok(Stepped::Did(effect)),
        Stepped::Idle => acknowledge_first(running),
    }
}

// The same where besides no more can be settled: the first output acknowledges, or nothing is taken.
fn acknowledge_first(running: &mut Running) -> Result<Stepped, EngineFault>
    requires shaped { IsShaped running.old }
    ensures shaped { StaysShaped result running.new }
    ensures stored { (records : Option Records) → IsStored running.old.parts.keep records → IsStored running.new.parts.keep records }
    ensures flow { running.new.flow ≡ running.old.flow }
    ensures takes { (records : Option Records) → TakesFirstAfter NoneToSettle running.old records result running.new records }
    ensures unfaulted { IsErrOf result EngineFault.StoreFault → ⊥ }
    ensures undamaged { IsUndamaged result }
    ensures draws { supply running.new.parts.keep ≡ supply running.old.parts.keep }
{
    match first_acknowledging(running) {
        Some(output) => acknowledge(running, output),
        None => Ok(Stepped::Idle),
    }
}

// The first input injects, or nothing is taken, where nothing else is enabled.
fn inject_first(running: &mut Running) -> Result<Stepped, EngineFault>
    requires shaped { IsShaped running.old }
    ensures shaped { StaysShaped result running.new }
    ensures stored { (records : Option Records) → IsStored running.old.parts.keep records → IsStored running.new.parts.keep records }
    ensures flow { running.new.flow ≡ running.old.flow }
    ensures takes { (records : Option Records) → InjectsFirst running.old records result running.new records }
    ensures unfaulted { IsErrOf result EngineFault.StoreFault → ⊥ }
    ensures undamaged { IsUndamaged result }
    ensures draws { supply running.new.parts.keep ≡ supply running.old.parts.keep }
{
    match first_injecting(running) {
        Some(source) => inject(running, source),
        None => Ok(Stepped::Idle),
    }
}

// The same where no input injects more batches than these.
fn inject_within(running: &mut Running, came: &[u64]) -> Result<Stepped, EngineFault>
    requires shaped { IsShaped running.old }
    ensures shaped { StaysShaped result running.new }
    ensures stored { (records : Option Records) → IsStored running.old.parts.keep records → IsStored running.new.parts.keep records }
    ensures flow { running.new.flow ≡ running.old.flow }
    ensures takes { (records : Option Records) → InjectsWithin came.now running.old records result running.new records }
    ensures unfaulted { IsErrOf result EngineFault.StoreFault → ⊥ }
    ensures undamaged { IsUndamaged result }
    ensures draws { supply running.new.parts.keep ≡ supply running.old.parts.keep }
{
    match first_within(running, came) {
        Some(source) => inject(running, source),
        None => Ok(Stepped::Idle),
    }
}

// The first edge on which something is pending for a receiver that is not failed.
fn first_deliverable(running: &mut Running) -> Option<EdgeId>
    requires { IsShaped running.old }
    ensures others { running.new ≡ with_ready_edges running.new.ready.edges running.old }
    ensures shaped { IsShaped running.new }
    ensures first { IsFirstWhere (CanDeliver running.old) result }
{
    while let Some(edge) = running.ready.first_edge() {
        if can_deliver(running, edge) {
            return Some(edge);
        }
        running.ready.take_edge(edge);
    }
    None
}

// The first node that may be notified, and the least stamp of which it may be. The error is want of memory.
fn first_notice(running: &mut Running) -> Result<Option<Notice>, AllocError>
    requires { IsShaped running.old }
    ensures flow { running.new.flow ≡ running.old.flow }
    ensures parts { running.new.parts ≡ running.old.parts }
    ensures searched { OnOk result (IsSearched running.old running.new) }
    ensures shaped { OnOk result (IsShaped running.new) }
    ensures first { IfOk result (IsFirstNotified running.old) }
{
    let mut next = running.ready.owing_from(0);
    while let Some(node) = next {
        if let Some(at) = notice_of(running, node)? {
            return Ok(Some(Notice { node, at }));
        }
        next = running.ready.owing_from(node.place() + 1);
    }
    Ok(None)
}

// The least stamp of which a node may be notified. It is taken out of the places where it is owed nothing. The error is want
// of memory.
fn notice_of(running: &mut Running, node: NodeId) -> Result<Option<Stamp>, AllocError>
    requires { IsShaped running.old }
    ensures flow { running.new.flow ≡ running.old.flow }
    ensures parts { running.new.parts ≡ running.old.parts }
    ensures searched { OnOk result (IsSearched running.old running.new) }
    ensures shaped { OnOk result (IsShaped running.new) }
    ensures found { IfOk result (IsNoticeOf running.old node) }
    ensures taken { (IsOwing running.old node → ⊥)
        → OnOk result (IsTakenOut node running.old.ready.owing running.new.ready.owing) }
{
    if !is_owed(running, node) {
        running.ready.take_owing(node);
        return Ok(None);
    }
    next_notice(running, node)
}

// The first output that may acknowledge.
fn first_acknowledging(running: &mut Running) -> Option<NodeId>
    requires { IsShaped running.old }
    ensures others { running.new ≡ with_ready_outputs running.new.ready.outputs running.old }
    ensures shaped { IsShaped running.new }
    ensures first { IsFirstWhere (CanAcknowledge running.old) result }
    ensures by_number { IfSome result (λ output. AreByNumber (output_of running.old output).recs) }
{
    while let Some(node) = running.ready.first_output() {
        if next_acknowledged(running, node).is_some() {
            return Some(node);
        }
        running.ready.take_output(node);
    }
    None
}

// The first input that has a batch to inject.
fn first_injecting(running: &mut Running) -> Option<NodeId>
    requires { IsShaped running.old }
    ensures others { running.new ≡ with_ready_inputs running.new.ready.inputs running.old }
    ensures shaped { IsShaped running.new }
    ensures first { IsFirstWhere (CanInject running.old) result }
{
    while let Some(node) = running.ready.first_input() {
        if may_inject(running, node) {
            return Some(node);
        }
        running.ready.take_input(node);
    }
    None
}

// The first input that has a batch to inject, and injected fewer than these.
fn first_within(running: &Running, came: &[u64]) -> Option<NodeId>
    requires { IsShaped running.now }
    ensures { IsFirstWhere (CanInjectWithin came.now running.now) result }
{
    for place in 0..running.flow.nodes() as u32 {
        let node = NodeId::at(place);
        if may_inject_within(running, came, node) {
            return Some(node);
        }
    }
    None
}

// Whether an input has a batch to inject, and injected fewer than these.
fn may_inject_within(running: &Running, came: &[u64], node: NodeId) -> bool
    requires { IsShaped running.now }
    ensures { IsTrue result ↔ CanInjectWithin came.now running.now node }
{
    let most = came.get(node.place() as usize).copied().unwrap_or(0);
    may_inject(running, node) && running.parts.sources.injected(node) < most
}

// Whether a node is not failed and is owed a notification.
fn is_owed(running: &Running, node: NodeId) -> bool
    requires { IsShaped running.now }
    ensures { IsTrue result ↔ IsOwing running.now node }
{
    (node.place() as usize) < running.flow.nodes()
        && !running.is_failed(node)
        && !running.progress.owed(node).is_empty()
}
