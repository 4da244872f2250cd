//! The step of a notification.
ghost use Rattle.std.specs.Prelude.{◌≡◌, ◌≢◌, ◌<◌, ℕ, true, None, Some, length, IfNone, IfOk, IfSome, OnErr, OnOk};
ghost use Rattle.std.specs.Option.{option_copied};
ghost use Rattle.fw_time.specs.Stamp.{in_domain};
ghost use Rattle.fw_flow.specs.declared.event.Event.TheVariants as events;
ghost use Rattle.fw_flow.specs.declared.step.Step.TheVariants as steps;
ghost use Rattle.fw_flow.specs.declared.kind.Policy.TheVariants as policy;
ghost use Rattle.fw_flow.specs.WellFormed.{IsWellFormed};
ghost use Rattle.fw_flow.specs.Dataflow.{Dataflow, bounds_of, policy_of};
ghost use Rattle.fw_record.specs.declared.record.Event.TheVariants as logged;
ghost use Rattle.fw_keep.specs.Stored.{IsStored};
ghost use Rattle.fw_node.specs.NodeOf.{CanBeSent, IsNodeOf, stamps_of};
ghost use Rattle.fw_node.specs.Sends.{messages_of};
ghost use Rattle.fw_progress.specs.Progress.{CanSend, stamps_of_recs};
ghost use Rattle.fw_rollback.specs.Tables.{table_at};
ghost use Rattle.fw_running.specs.BroughtUp.{IsBroughtUp};
ghost use Rattle.fw_running.specs.Drawn.{DrawsAtMost, may_draw};
ghost use Rattle.fw_running.specs.Kept.{table_of, with_tables};
ghost use Rattle.fw_running.specs.Logging.{ChangesKeep, IsAskRefused, LogsEvent};
ghost use Rattle.fw_running.specs.Shaped.{IsShaped};
ghost use Rattle.fw_running.specs.Steps.{PartAnswers, StaysShaped, StepAnswers};
ghost use Rattle.fw_events.specs.AfterEvent.{TakesEvent};
ghost use Rattle.fw_events.specs.Noticing.{FindsNotice, TakesNotice};
ghost use Rattle.fw_events.specs.Taking.{with_told, TableTakes, TellsOf};

use crate::logging::{log_event, logs_events};
use crate::sending::send;
use fw_bag::Rec;
use fw_flow::NodeId;
use fw_flow::laws::flow_is_well_formed;
use fw_node::Sends;
use fw_outside::Store;
use fw_record::Event;
use fw_rollback::Tables;
use fw_running::{Effect, EngineFault, Running, Stepped};
use fw_time::Stamp;
use std::alloc::AllocError;

/// The node is notified of its next stamp.
pub fn notify<K: Store>(
    running: &mut Running,
    node: NodeId,
    at: Option<&Stamp>,
    store: &mut K,
) -> Result<Stepped, EngineFault>
    requires shaped { IsShaped running.old }
    requires stored { IsStored running.old.parts.keep (K.view store.old).records }
    ensures answers { StepAnswers K.view running.old store.old (steps.Notify node (option_copied at.entry)) result running.new store.new }
    ensures draws { DrawsAtMost (may_draw 1 result) running.old.parts.keep running.new.parts.keep (K.view store.old).records (K.view store.new).records }
{
    if running.is_failed(node) || !running.flow.kind(node).is_notified() {
        return Ok(Stepped::Idle);
    }
    let Some(at) = find_notice(running, node, at)? else {
        return Ok(Stepped::Idle);
    };
    notify_of(running, node, &at, store)?;
    Ok(Stepped::Did(Effect::Quiet))
}

/// The next stamp of which a node may be notified, where this is asked for. The error is want of memory.
pub(crate) fn find_notice(
    running: &mut Running,
    node: NodeId,
    at: Option<&Stamp>,
) -> Result<Option<Stamp>, AllocError>
    requires shaped { IsShaped running.old }
    requires there { node < length running.old.flow.nodes }
    ensures flow { running.new.flow ≡ running.old.flow }
    ensures parts { running.new.parts ≡ running.old.parts }
    ensures up { OnOk result (IsBroughtUp running.old running.new) }
    ensures of_domain { IfOk result (λ found. IfSome found (λ t. in_domain (bounds_of running.old.flow node) t ≡ true)) }
    ensures found { IfOk result (λ found. FindsNotice running.old.flow running.old.progress node (option_copied at.entry) found) }
{
    match at {
        Some(at) => this_notice(running, node, at),
        None => next_notice(running, node),
    }
}

/// The least stamp of which a node may be notified. The error is want of memory.
pub fn next_notice(running: &mut Running, node: NodeId) -> Result<Option<Stamp>, AllocError>
    requires shaped { IsShaped running.old }
    requires there { node < length running.old.flow.nodes }
    ensures flow { running.new.flow ≡ running.old.flow }
    ensures parts { running.new.parts ≡ running.old.parts }
    ensures up { OnOk result (IsBroughtUp running.old running.new) }
    ensures of_domain { IfOk result (λ found. IfSome found (λ t. in_domain (bounds_of running.old.flow node) t ≡ true)) }
    ensures found { IfOk result (λ found. FindsNotice running.old.flow running.old.progress node None found) }
{
    running.refresh()?;
    let found = running
        .progress
        .first_notice(running.alloc, &running.flow, node)?;
    Ok(found)
}

// The stamp, if a node may be notified of it. The error is want of memory.
fn this_notice(running: &mut Running, node: NodeId, at: &Stamp) -> Result<Option<Stamp>, AllocError>
    requires shaped { IsShaped running.old }
    requires there { node < length running.old.flow.nodes }
    ensures flow { running.new.flow ≡ running.old.flow }
    ensures parts { running.new.parts ≡ running.old.parts }
    ensures up { OnOk result (IsBroughtUp running.old running.new) }
    ensures of_domain { IfOk result (λ found. IfSome found (λ t. in_domain (bounds_of running.old.flow node) t ≡ true)) }
    ensures found { IfOk result (λ found. FindsNotice running.old.flow running.old.progress node (Some at.now) found) }
{
    running.refresh()?;
    if !at.in_domain(&running.flow.domain(node)) {
        return Ok(None);
    }
    if running
        .progress
        .can_notify(running.alloc, &running.flow, node, at)?
    {
        Ok(Some(at.copy()))
    } else {
        Ok(None)
    }
}

/// The node is notified of the stamp, of which it may be notified. A fault leaves all as it was.
pub fn notify_of<K: Store>(
    running: &mut Running,
    node: NodeId,
    at: &Stamp,
    store: &mut K,
) -> Result<(), EngineFault>
    requires shaped { IsShaped running.old }
    requires stored { IsStored running.old.parts.keep (K.view store.old).records }
    requires there { node < length running.old.flow.nodes }
    requires at { in_domain (bounds_of running.old.flow node) at.now ≡ true }
    ensures shaped { StaysShaped result running.new }
    ensures takes { TakesNotice running.old (K.view store.old).records node at.now result running.new (K.view store.new).records }
    ensures part { PartAnswers K.view (policy_of running.old.flow node ≡ policy.Full) running.old store.old result running.new store.new }
    ensures draws { DrawsAtMost 1 running.old.parts.keep running.new.parts.keep (K.view store.old).records (K.view store.new).records }
{
    log_notice(running, node, at, store)?;
    hear(running, node, at)?;
    Ok(())
}

// The node asks the write of the notification, if it logs each event. A fault leaves all as it was.
fn log_notice<K: Store>(
    running: &mut Running,
    node: NodeId,
    at: &Stamp,
    store: &mut K,
) -> Result<(), EngineFault>
    requires shaped { IsShaped running.old }
    requires stored { IsStored running.old.parts.keep (K.view store.old).records }
    requires at { in_domain (bounds_of running.old.flow node) at.now ≡ true }
    ensures others { ChangesKeep running.old running.new }
    ensures shaped { IsShaped running.new }
    ensures logged { OnOk result (LogsEvent running.old.flow node (logged.Notify at.now)
        running.old.parts.keep.entries running.new.parts.keep.entries (K.view store.old).records (K.view store.new).records) }
    ensures stays { OnErr result (IsAskRefused running.old.parts.keep running.new.parts.keep
        (K.view store.old).records (K.view store.new).records) }
    ensures part { PartAnswers K.view (policy_of running.old.flow node ≡ policy.Full) running.old store.old result running.new store.new }
    ensures draws { DrawsAtMost 1 running.old.parts.keep running.new.parts.keep (K.view store.old).records (K.view store.new).records }
{
    if !logs_events(running, node) {
        return Ok(());
    }
    log_event(running, node, Event::Notify { at: at.copy() }, store)
}

// The node hears of the stamp, and what it answers is sent.
fn hear(running: &mut Running, node: NodeId, at: &Stamp) -> Result<(), AllocError>
    requires shaped { IsShaped running.old }
    requires there { node < length running.old.flow.nodes }
    requires at { in_domain (bounds_of running.old.flow node) at.now ≡ true }
    ensures keep { running.new.parts.keep ≡ running.old.parts.keep }
    ensures flow { running.new.flow ≡ running.old.flow }
    ensures shaped { OnOk result (IsShaped running.new) }
    ensures takes { table_of running.old node ≢ None → OnOk result (TakesEvent (events.Notify node at.now) running.old running.new) }
{
    let Some(sends) = table_hears(running, node, at)? else {
        return Ok(());
    };
    let sent = send(running, node, at, &sends)?;
    tell_notified(running, node, at, sent.as_slice())
}

// The table of a node hears of a stamp, and what it sends is answered; none where the node has no table.
fn table_hears(running: &mut Running, node: NodeId, at: &Stamp) -> Result<Option<Sends>, AllocError>
    requires shaped { IsShaped running.old }
    requires there { node < length running.old.flow.nodes }
    requires at { in_domain (bounds_of running.old.flow node) at.now ≡ true }
    ensures others { running.new ≡ with_tables running.new.parts.tables running.old }
    ensures shaped { IsShaped running.new }
    ensures can_be_sent { IfOk result (λ found. IfSome found (λ sends. CanBeSent running.old.flow node (stamps_of sends))) }
    ensures none { IfOk result (λ found. IfNone found (table_of running.old node ≡ None)) }
    ensures other_tables { (p : ℕ) → p ≢ node → table_of running.new p ≡ table_of running.old p }
    ensures takes { IfOk result (λ found. IfSome found
        (λ sends. TableTakes running.old.flow (events.Notify node at.now) (messages_of at.now sends) (table_of running.old node) (table_of running.new node))) }
{
    flow_is_well_formed(&running.flow);
    take_notice(&mut running.parts.tables, node, at)
}

// The same among the tables.
fn take_notice(tables: &mut Tables, node: NodeId, at: &Stamp) -> Result<Option<Sends>, AllocError>
    requires { IfSome (table_at tables.old node) (λ table. in_domain table.bounds at.now ≡ true) }
    ensures each { length tables.new ≡ length tables.old }
    ensures others { (p : ℕ) → p ≢ node → table_at tables.new p ≡ table_at tables.old p }
    ensures none { IfOk result (λ found. IfNone found (table_at tables.old node ≡ None)) }
    ensures of_node { (flow : Dataflow) → IfSome (table_at tables.old node) (IsNodeOf flow node)
        → IfSome (table_at tables.new node) (IsNodeOf flow node) }
    ensures can_be_sent { (flow : Dataflow) → IsWellFormed flow → IfSome (table_at tables.old node) (IsNodeOf flow node)
        → IfOk result (λ found. IfSome found (λ sends. CanBeSent flow node (stamps_of sends))) }
    ensures takes { (flow : Dataflow) → IfOk result (λ found. IfSome found
        (λ sends. TableTakes flow (events.Notify node at.now) (messages_of at.now sends) (table_at tables.old node) (table_at tables.new node))) }
{
    let Some(table) = tables.get_mut(node) else {
        return Ok(None);
    };
    Ok(Some(table.notify(at)?))
}

// Traces and progress are told of a notification, at which the node sends these recs.
fn tell_notified(
    running: &mut Running,
    node: NodeId,
    at: &Stamp,
    sent: &[(Stamp, Rec)],
) -> Result<(), AllocError>
    requires shaped { IsShaped running.old }
    requires there { node < length running.old.flow.nodes }
    requires sent { CanSend running.old.flow node (stamps_of_recs sent.now) }
    ensures others { running.new ≡ with_told running.new.traces running.new.progress running.old }
    ensures told { OnOk result (TellsOf (events.Notify node at.now) sent.now running.old running.new) }
    ensures shaped { OnOk result (IsShaped running.new) }
{
    running.traces.notified(&running.flow, node, at, sent)?;
    running.progress.notified(&running.flow, node, at, sent)?;
    Ok(())
}
