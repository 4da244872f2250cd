//! The step of a delivery.
ghost use Rattle.std.specs.Prelude.{◌≡◌, ◌≢◌, ◌<◌, ◌↔◌, ℕ, true, false, None, Some, find, length, IsTrue, IfOk, IfSome, IfNone, OnOk, OnErr};
ghost use Rattle.std.specs.Option.{option_copied, option_map};
ghost use Rattle.std.specs.List.{Contains};
ghost use Rattle.fw_time.specs.Stamp.{in_domain};
ghost use Rattle.fw_flow.specs.declared.event.Event.TheVariants as events;
ghost use Rattle.fw_flow.specs.declared.event.Message.{Message as Sent};
ghost use Rattle.fw_flow.specs.declared.step.Step.TheVariants as steps;
ghost use Rattle.fw_flow.specs.declared.kind.Policy.TheVariants as policy;
ghost use Rattle.fw_flow.specs.WellFormed.{IsWellFormed};
ghost use Rattle.fw_flow.specs.Dataflow as dataflow;
ghost use Rattle.fw_flow.specs.Dataflow.{Dataflow, bounds_of, kind_of, policy_of, receiver, is_notified_kind, is_output_kind};
ghost use Rattle.fw_flow.specs.Projection.{first_coordinate};
ghost use Rattle.fw_model.specs.Steps as model;
ghost use Rattle.fw_border.specs.Outputs.{with_output, with_rec_at};
ghost use Rattle.fw_record.specs.declared.record.Event.TheVariants as logged;
ghost use Rattle.fw_keep.specs.Stored.{IsStored};
ghost use Rattle.fw_node.specs.NodeOf.{CanBeSent, IsNodeOf, stamps_of};
ghost use Rattle.fw_node.specs.Sends.{messages_of};
ghost use Rattle.fw_progress.specs.Progress.{CanSend, stamps_of_recs};
ghost use Rattle.fw_rollback.specs.Tables.{table_at};
ghost use Rattle.fw_rollback.specs.Edges.{on_edge};
ghost use Rattle.fw_stands.specs.Events.{asked_of_queue, next_queued};
ghost use Rattle.fw_running.specs.Drawn.{DrawsAtMost, may_draw};
ghost use Rattle.fw_running.specs.Kept.{queue_at, table_of, is_down, with_tables};
ghost use Rattle.fw_running.specs.Logging.{ChangesKeep, IsAskRefused, LogsEvent};
ghost use Rattle.fw_running.specs.Shaped.{IsShaped};
ghost use Rattle.fw_running.specs.Steps.{PartAnswers, StepAnswers};
ghost use Rattle.fw_running.specs.Ready.{CanDeliver};
ghost use Rattle.fw_events.specs.AfterEvent.{TakesEvent};
ghost use Rattle.fw_events.specs.Sending.{with_queues};
ghost use Rattle.fw_events.specs.Taking.{with_outputs, with_owing, with_told, without_found, HearsOf, KeepsRec, TakesOff, TableTakes, TellsOf};

use crate::logging::{log_event, logs_events};
use crate::sending::{nothing_pending, send};
use fw_bag::Rec;
use fw_flow::laws::flow_is_well_formed;
use fw_flow::{Domain, EdgeId, Flow, Message, NodeId};
use fw_node::Sends;
use fw_outside::Store;
use fw_record::Event;
use fw_rollback::{Queues, Tables};
use fw_running::{Effect, EngineFault, Running, Stepped};
use fw_time::Stamp;
use std::alloc::AllocError;

/// What is delivered next on an edge.
#[derive(Drop)]
struct Next {
    at: Stamp,
    rec: Rec,
}

/// The receiver of the edge takes its next message.
pub fn deliver<K: Store>(
    running: &mut Running,
    edge: EdgeId,
    at: Option<&Stamp>,
    store: &mut K,
) -> Result<Stepped, EngineFault>
    requires shaped { IsShaped running.old }
    requires stored { IsStored running.old.parts.keep (K.view store.old).records }
    ensures answers { StepAnswers K.view running.old store.old (steps.Deliver edge (option_copied at.entry)) result running.new store.new }
    ensures draws { DrawsAtMost (may_draw 1 result) running.old.parts.keep running.new.parts.keep (K.view store.old).records (K.view store.new).records }
{
    let node = running.flow.dst(edge);
    if running.is_failed(node) {
        return Ok(Stepped::Idle);
    }
    let Some(Next { at, rec }) = next_on(running, edge, at) else {
        return Ok(Stepped::Idle);
    };
    log_delivery(running, edge, node, &at, rec, store)?;
    take_in(running, edge, node, &at, rec)?;
    Ok(Stepped::Did(Effect::Quiet))
}

/// Whether something is pending on an edge for a receiver that is not failed.
pub fn can_deliver(running: &Running, edge: EdgeId) -> bool
    requires { IsShaped running.now }
    ensures { IsTrue result ↔ CanDeliver running.now edge }
{
    !nothing_pending(&running.parts.queues, edge) && !running.is_failed(running.flow.dst(edge))
}

// What is delivered next on an edge, if it is asked for.
fn next_on(running: &Running, edge: EdgeId, at: Option<&Stamp>) -> Option<Next>
    ensures { result ≡ option_map (λ m. record { at = m.at; rec = m.rec })
        (next_queued running.now.flow edge (option_copied at.entry) (queue_at running.now edge)) }
{
    let message = first_on(running, edge, at)?;
    if !is_asked(at, &message.at) {
        return None;
    }
    Some(Next {
        at: message.at.copy(),
        rec: message.rec,
    })
}

// The first message of an edge at the stamp, or at any; on a numbered edge the first of all.
fn first_on<'a>(running: &'a Running, edge: EdgeId, at: Option<&Stamp>) -> Option<&'a Message>
    ensures { option_copied result ≡ find (λ (m : Sent). model.is_asked (asked_of_queue running.now.flow edge (option_copied at.entry)) m.at)
        (queue_at running.now edge) }
{
    let queue = running.parts.queues.get(edge)?;
    queue.first(asked_of(&running.flow, edge, at))
}

// What is asked of the queue of an edge, where this is asked for: on a numbered edge the first of all.
#[tactic(auto, using(crate::proofs::AskedLaws::asked_none, crate::proofs::AskedLaws::asked_numbers, crate::proofs::AskedLaws::asked_others))]
fn asked_of<'a>(flow: &Flow, edge: EdgeId, at: Option<&'a Stamp>) -> Option<&'a Stamp>
    ensures { option_copied result ≡ asked_of_queue flow.now edge (option_copied at.entry) }
{
    let Some(at) = at else {
        return None;
    };
    if is_numbered(flow, edge) {
        return None;
    }
    Some(at)
}

// Whether an edge leads into the domain of numbers.
fn is_numbered(flow: &Flow, edge: EdgeId) -> bool
    ensures { result ≡ dataflow.is_numbered flow.now edge }
{
    matches!(flow.domain_word(flow.dst(edge)), Domain::Number)
}

// The node asks the write of the delivery, if it logs each event. A fault leaves all as it was.
fn log_delivery<K: Store>(
    running: &mut Running,
    edge: EdgeId,
    node: NodeId,
    at: &Stamp,
    rec: Rec,
    store: &mut K,
) -> Result<(), EngineFault>
    requires shaped { IsShaped running.old }
    requires stored { IsStored running.old.parts.keep (K.view store.old).records }
    requires at { in_domain (bounds_of running.old.flow node) at.now ≡ true }
    ensures others { ChangesKeep running.old running.new }
    ensures shaped { IsShaped running.new }
    ensures logged { OnOk result (LogsEvent running.old.flow node (logged.Deliver edge at.now rec)
        running.old.parts.keep.entries running.new.parts.keep.entries (K.view store.old).records (K.view store.new).records) }
    ensures stays { OnErr result (IsAskRefused running.old.parts.keep running.new.parts.keep
        (K.view store.old).records (K.view store.new).records) }
    ensures part { PartAnswers K.view (policy_of running.old.flow node ≡ policy.Full) running.old store.old result running.new store.new }
    ensures draws { DrawsAtMost 1 running.old.parts.keep running.new.parts.keep (K.view store.old).records (K.view store.new).records }
{
    if !logs_events(running, node) {
        return Ok(());
    }
    let at = at.copy();
    log_event(running, node, Event::Deliver { edge, at, rec }, store)
}

// The node takes the first message at the stamp in, which is pending on the edge.
fn take_in(
    running: &mut Running,
    edge: EdgeId,
    node: NodeId,
    at: &Stamp,
    rec: Rec,
) -> Result<(), AllocError>
    requires shaped { IsShaped running.old }
    requires there { edge < length running.old.flow.edges }
    requires receiver { node ≡ receiver running.old.flow edge }
    requires at { in_domain (bounds_of running.old.flow node) at.now ≡ true }
    ensures keep { running.new.parts.keep ≡ running.old.parts.keep }
    ensures flow { running.new.flow ≡ running.old.flow }
    ensures shaped { OnOk result (IsShaped running.new) }
    ensures takes { (m : Sent) → m.at ≡ at.now → m.rec ≡ rec
        → find (λ (x : Sent). model.is_asked (Some at.now) x.at) (queue_at running.old edge) ≡ Some m → is_down running.old node ≡ false
        → (is_output_kind (kind_of running.old.flow node) ≡ false → table_of running.old node ≢ None)
        → OnOk result (TakesEvent (events.Deliver edge m) running.old running.new) }
{
    take_pending(running, edge, at);
    if running.flow.kind(node).is_output() {
        return take_out(running, edge, node, at, rec);
    }
    take_by_table(running, edge, node, at, rec)
}

// The first message at a stamp is pending on an edge no more.
fn take_pending(running: &mut Running, edge: EdgeId, at: &Stamp)
    requires shaped { IsShaped running.old }
    ensures others { running.new ≡ with_queues running.new.parts.queues running.old.ready.edges running.old }
    ensures shaped { IsShaped running.new }
    ensures taken { (m : Sent) → find (λ (x : Sent). model.is_asked (Some at.now) x.at) (queue_at running.old edge) ≡ Some m
        → TakesOff edge m running.old running.new }
{
    take_first(&mut running.parts.queues, edge, at);
}

// The first message at a stamp is taken out of the queue of an edge.
fn take_first(queues: &mut Queues, edge: EdgeId, at: &Stamp)
    ensures each { length queues.new ≡ length queues.old }
    ensures here { (on_edge queues.new edge).messages
        ≡ without_found (find (λ (x : Sent). model.is_asked (Some at.now) x.at) (on_edge queues.old edge).messages) (on_edge queues.old edge).messages }
    ensures others { (e : ℕ) → e ≢ edge → on_edge queues.new e ≡ on_edge queues.old e }
{
    if let Some(queue) = queues.get_mut(edge) {
        let _message = queue.take(Some(at));
    }
}

// A node that is no output takes a rec in, and what it answers is sent.
fn take_by_table(
    running: &mut Running,
    edge: EdgeId,
    node: NodeId,
    at: &Stamp,
    rec: Rec,
) -> Result<(), AllocError>
    requires shaped { IsShaped running.old }
    requires there { edge < length running.old.flow.edges }
    requires receiver { node ≡ receiver running.old.flow edge }
    requires at { in_domain (bounds_of running.old.flow node) at.now ≡ true }
    ensures keep { running.new.parts.keep ≡ running.old.parts.keep }
    ensures flow { running.new.flow ≡ running.old.flow }
    ensures shaped { OnOk result (IsShaped running.new) }
    ensures takes { (m : Sent) → m.at ≡ at.now → m.rec ≡ rec → table_of running.old node ≢ None
        → OnOk result (HearsOf (events.Deliver edge m) running.old running.new) }
{
    note_owing(running, node)?;
    let Some(sends) = table_takes(running, edge, node, at, rec)? else {
        return Ok(());
    };
    let sent = send(running, node, at, &sends)?;
    tell_delivered(running, edge, at, sent.as_slice())
}

// A node that is notified is put among those that may be owed a notification.
fn note_owing(running: &mut Running, node: NodeId) -> Result<(), AllocError>
    requires shaped { IsShaped running.old }
    ensures others { running.new ≡ with_owing running.new.ready.owing running.old }
    ensures noted { is_notified_kind (kind_of running.old.flow node) ≡ true → OnOk result (Contains running.new.ready.owing node) }
    ensures shaped { OnOk result (IsShaped running.new) }
{
    if !running.flow.kind(node).is_notified() {
        return Ok(());
    }
    running.ready.put_owing(node)
}

// The table of a node takes a rec in, and what it sends is answered; none where the node has no table.
fn table_takes(
    running: &mut Running,
    edge: EdgeId,
    node: NodeId,
    at: &Stamp,
    rec: Rec,
) -> Result<Option<Sends>, AllocError>
    requires shaped { IsShaped running.old }
    requires there { edge < length running.old.flow.edges }
    requires receiver { node ≡ receiver running.old.flow edge }
    requires at { in_domain (bounds_of running.old.flow node) at.now ≡ true }
    ensures others { running.new ≡ with_tables running.new.parts.tables running.old }
    ensures shaped { IsShaped running.new }
    ensures can_be_sent { IfOk result (λ found. IfSome found (λ sends. CanBeSent running.old.flow node (stamps_of sends))) }
    ensures none { IfOk result (λ found. IfNone found (table_of running.old node ≡ None)) }
    ensures other_tables { (p : ℕ) → p ≢ node → table_of running.new p ≡ table_of running.old p }
    ensures takes { (m : Sent) → m.at ≡ at.now → m.rec ≡ rec → IfOk result (λ found. IfSome found
        (λ sends. TableTakes running.old.flow (events.Deliver edge m) (messages_of at.now sends) (table_of running.old node) (table_of running.new node))) }
{
    flow_is_well_formed(&running.flow);
    take_rec(&mut running.parts.tables, edge, node, at, rec)
}

// The same among the tables.
fn take_rec(
    tables: &mut Tables,
    edge: EdgeId,
    node: NodeId,
    at: &Stamp,
    rec: Rec,
) -> Result<Option<Sends>, AllocError>
    requires { IfSome (table_at tables.old node) (λ table. in_domain table.bounds at.now ≡ true) }
    ensures each { length tables.new ≡ length tables.old }
    ensures others { (p : ℕ) → p ≢ node → table_at tables.new p ≡ table_at tables.old p }
    ensures none { IfOk result (λ found. IfNone found (table_at tables.old node ≡ None)) }
    ensures of_node { (flow : Dataflow) → IfSome (table_at tables.old node) (IsNodeOf flow node)
        → IfSome (table_at tables.new node) (IsNodeOf flow node) }
    ensures can_be_sent { (flow : Dataflow) → IsWellFormed flow → IfSome (table_at tables.old node) (IsNodeOf flow node)
        → IfOk result (λ found. IfSome found (λ sends. CanBeSent flow node (stamps_of sends))) }
    ensures takes { (flow : Dataflow) (m : Sent) → m.at ≡ at.now → m.rec ≡ rec → IfOk result (λ found. IfSome found
        (λ sends. TableTakes flow (events.Deliver edge m) (messages_of at.now sends) (table_at tables.old node) (table_at tables.new node))) }
{
    let Some(table) = tables.get_mut(node) else {
        return Ok(None);
    };
    Ok(Some(table.deliver(edge, at, rec)?))
}

// The output takes a rec.
fn take_out(
    running: &mut Running,
    edge: EdgeId,
    output: NodeId,
    at: &Stamp,
    rec: Rec,
) -> Result<(), AllocError>
    requires shaped { IsShaped running.old }
    requires there { edge < length running.old.flow.edges }
    requires receiver { output ≡ receiver running.old.flow edge }
    requires kind { is_output_kind (kind_of running.old.flow output) ≡ true }
    requires at { in_domain (bounds_of running.old.flow output) at.now ≡ true }
    ensures keep { running.new.parts.keep ≡ running.old.parts.keep }
    ensures flow { running.new.flow ≡ running.old.flow }
    ensures shaped { OnOk result (IsShaped running.new) }
    ensures takes { (m : Sent) → m.at ≡ at.now → m.rec ≡ rec → OnOk result (KeepsRec edge m running.old running.new) }
{
    put_rec(running, output, at, rec)?;
    tell_delivered(running, edge, at, &[])
}

// The output keeps a rec, and may acknowledge.
fn put_rec(running: &mut Running, output: NodeId, at: &Stamp, rec: Rec) -> Result<(), AllocError>
    requires shaped { IsShaped running.old }
    ensures others { running.new ≡ with_outputs running.new.parts.outputs running.new.ready.outputs running.old }
    ensures put { OnOk result (running.new.parts.outputs.outputs
        ≡ with_output (with_rec_at (first_coordinate at.now) rec) running.old.parts.outputs.outputs output) }
    ensures shaped { OnOk result (IsShaped running.new) }
{
    running.parts.outputs.put(output, at, rec)?;
    running.ready.put_output(output)
}

// Traces and progress are told of a delivery, at which the receiver sends these recs.
fn tell_delivered(
    running: &mut Running,
    edge: EdgeId,
    at: &Stamp,
    sent: &[(Stamp, Rec)],
) -> Result<(), AllocError>
    requires shaped { IsShaped running.old }
    requires there { edge < length running.old.flow.edges }
    requires at { in_domain (bounds_of running.old.flow (receiver running.old.flow edge)) at.now ≡ true }
    requires sent { CanSend running.old.flow (receiver running.old.flow edge) (stamps_of_recs sent.now) }
    requires owing { is_notified_kind (kind_of running.old.flow (receiver running.old.flow edge)) ≡ true
        → Contains running.old.ready.owing (receiver running.old.flow edge) }
    ensures others { running.new ≡ with_told running.new.traces running.new.progress running.old }
    ensures told { (m : Sent) → m.at ≡ at.now → OnOk result (TellsOf (events.Deliver edge m) sent.now running.old running.new) }
    ensures shaped { OnOk result (IsShaped running.new) }
{
    running.traces.delivered(&running.flow, edge, at, sent)?;
    running.progress.delivered(&running.flow, edge, at, sent)?;
    Ok(())
}

// Whether the stamp is the one that is asked for, if one is.
fn is_asked(at: Option<&Stamp>, stamp: &Stamp) -> bool
    ensures { result ≡ model.is_asked (option_copied at.entry) stamp.now }
{
    match at {
        None => true,
        Some(at) => at.compare(stamp).is_eq(),
    }
}
