//! A node does its logged events again.
ghost use Rattle.std.specs.Prelude.{◌≡◌, ◌≢◌, ◌<◌, ◌++◌, ◌∷◌, [], ℕ, List, true, false, length, slice_index_or, IfOk, OnOk};
ghost use Rattle.std.specs.List.{AllByRecursion};
ghost use Rattle.fw_time.specs.Stamp.{in_domain};
ghost use Rattle.fw_flow.specs.declared.event.Event.{Event as Done};
ghost use Rattle.fw_flow.specs.declared.event.Message.{Message as Sent};
ghost use Rattle.fw_flow.specs.Dataflow.{Dataflow, bounds_of, kind_of, sender, is_notified_kind, node_frontier};
ghost use Rattle.fw_flow.specs.WellFormed.{IsWellFormed};
ghost use Rattle.fw_model.specs.Carried.{carried};
ghost use Rattle.fw_model.specs.Told.{AreToldInside};
ghost use Rattle.fw_rollback.specs.Edges.{on_edge, nothing_there};
ghost use Rattle.fw_node.specs.NodeOf.{IsNodeOf};
ghost use Rattle.fw_node.specs.Sends.{messages_of};
ghost use Rattle.fw_node.specs.TableOf.{IsTableOf};
ghost use Rattle.fw_record.specs.Event.{stamp_of_event, event_of};
ghost use Rattle.fw_record.specs.declared.record.Event.{Event as Logged};
ghost use Rattle.fw_rollback.specs.Asked.{events_of, CanServe};
ghost use Rattle.fw_rollback.specs.Restored.{log_of, AreLogsOfOwn, HasLogs, HasDone, HaveSent, StandsForRedone};

use crate::Logs;
use crate::logging::log_outside;
use fw_flow::laws::flow_is_well_formed;
use fw_flow::{EdgeId, Flow, Fronts, NodeId};
use fw_frontier::Front;
use fw_node::{Node, Sends};
use fw_record::{Event, Record};
use fw_time::Stamp;
use std::alloc::{AllocError, Global};

/// The table of a node that did these events again, one after the other, and settled the frontier. What they send is
/// appended to the node's logs, but for what lies inside the receivers' low watermarks.
pub(crate) fn replayed(
    alloc: Global,
    flow: &Flow,
    node: NodeId,
    front: &Front,
    low: &Fronts,
    records: &[Record],
    logs: &mut Logs,
) -> Result<Node, AllocError>
    requires serve { AllByRecursion (CanServe flow.now node) records.now }
    requires each { length logs.old ≡ length flow.now.edges }
    requires empty { HasLogs flow.now node logs.old (λ e. nothing_there) }
    ensures done { IfOk result (λ table. HasDone flow.now low.now node front.now (events_of records.now) table logs.new) }
    ensures others { (e : ℕ) → sender flow.now e ≢ node → on_edge logs.new e ≡ on_edge logs.old e }
    ensures each { length logs.new ≡ length logs.old }
{
    flow_is_well_formed(flow);
    let mut table = Node::new(alloc, flow, node)?;
    do_all(flow, node, low, records, &mut table, logs)?;
    settle(front, &mut table)?;
    Ok(table)
}

/// Settles the frontier, if its outside stamps are of the domain.
fn settle(front: &Front, table: &mut Node) -> Result<(), AllocError>
    ensures table { (flow : Dataflow) (p : ℕ) (events : List Done) → IsTableOf flow p (λ s. false) table.old events
        → (is_notified_kind (kind_of flow p) ≡ true → AreToldInside (node_frontier flow p front.now) events)
        → AllByRecursion (λ o. in_domain (bounds_of flow p) o ≡ true) front.now
        → OnOk result (IsTableOf flow p (node_frontier flow p front.now) table.new events) }
    ensures node { (flow : Dataflow) (p : ℕ) → IsNodeOf flow p table.old → IsNodeOf flow p table.new }
{
    if front.is_in_domain(table.bounds()) {
        table.settle(front)?;
    }
    Ok(())
}

/// Does these events, one after the other, at a node to which nothing came.
fn do_all(
    flow: &Flow,
    node: NodeId,
    low: &Fronts,
    records: &[Record],
    table: &mut Node,
    logs: &mut Logs,
) -> Result<(), AllocError>
    requires well_formed { IsWellFormed flow.now }
    requires serve { AllByRecursion (CanServe flow.now node) records.now }
    requires node { IsNodeOf flow.now node table.old }
    requires new { StandsForRedone flow.now node [] table.old }
    requires each { length logs.old ≡ length flow.now.edges }
    requires empty { HaveSent flow.now low.now node [] logs.old }
    requires own { AreLogsOfOwn flow.now low.now node logs.old }
    ensures table { OnOk result (StandsForRedone flow.now node (events_of records.now) table.new) }
    ensures logs { OnOk result (HaveSent flow.now low.now node (events_of records.now) logs.new) }
    ensures own { OnOk result (AreLogsOfOwn flow.now low.now node logs.new) }
    ensures others { (e : ℕ) → sender flow.now e ≢ node → on_edge logs.new e ≡ on_edge logs.old e }
    ensures each { length logs.new ≡ length logs.old }
    ensures node { IsNodeOf flow.now node table.new }
{
    for what in records {
        do_record(flow, node, low, what, table, logs)?;
    }
    Ok(())
}

/// Does the event of a record, if it is one of an event.
fn do_record(
    flow: &Flow,
    node: NodeId,
    low: &Fronts,
    what: &Record,
    table: &mut Node,
    logs: &mut Logs,
) -> Result<(), AllocError>
    requires well_formed { IsWellFormed flow.now }
    requires serve { CanServe flow.now node what.now }
    requires node { IsNodeOf flow.now node table.old }
    requires each { length logs.old ≡ length flow.now.edges }
    requires own { AreLogsOfOwn flow.now low.now node logs.old }
    ensures table { (logged : List Logged) → StandsForRedone flow.now node logged table.old
        → OnOk result (StandsForRedone flow.now node (logged ++ event_of what.now) table.new) }
    ensures logs { (logged : List Logged) → StandsForRedone flow.now node logged table.old → HaveSent flow.now low.now node logged logs.old
        → OnOk result (HaveSent flow.now low.now node (logged ++ event_of what.now) logs.new) }
    ensures own { OnOk result (AreLogsOfOwn flow.now low.now node logs.new) }
    ensures others { (e : ℕ) → sender flow.now e ≢ node → on_edge logs.new e ≡ on_edge logs.old e }
    ensures each { length logs.new ≡ length logs.old }
    ensures node { IsNodeOf flow.now node table.new }
{
    match what {
        Record::State(_) => Ok(()),
        Record::Changes { .. } => Ok(()),
        Record::Event { event, .. } => do_again(flow, node, low, event, table, logs),
    }
}

/// Does an event, and logs what it sends.
fn do_again(
    flow: &Flow,
    node: NodeId,
    low: &Fronts,
    event: &Event,
    table: &mut Node,
    logs: &mut Logs,
) -> Result<(), AllocError>
    requires well_formed { IsWellFormed flow.now }
    requires stamp { in_domain table.old.bounds (stamp_of_event event.now) ≡ true }
    requires node { IsNodeOf flow.now node table.old }
    requires each { length logs.old ≡ length flow.now.edges }
    requires own { AreLogsOfOwn flow.now low.now node logs.old }
    ensures table { (logged : List Logged) → StandsForRedone flow.now node logged table.old
        → OnOk result (StandsForRedone flow.now node (logged ++ event.now ∷ []) table.new) }
    ensures logs { (logged : List Logged) → StandsForRedone flow.now node logged table.old → HaveSent flow.now low.now node logged logs.old
        → OnOk result (HaveSent flow.now low.now node (logged ++ event.now ∷ []) logs.new) }
    ensures own { OnOk result (AreLogsOfOwn flow.now low.now node logs.new) }
    ensures others { (e : ℕ) → sender flow.now e ≢ node → on_edge logs.new e ≡ on_edge logs.old e }
    ensures each { length logs.new ≡ length logs.old }
    ensures node { IsNodeOf flow.now node table.new }
{
    match event {
        Event::Deliver { edge, at, rec } => {
            let sends = table.deliver(*edge, at, *rec)?;
            log_sends(flow, node, low, at, &sends, logs)
        }
        Event::Notify { at } => {
            let sends = table.notify(at)?;
            log_sends(flow, node, low, at, &sends, logs)
        }
    }
}

/// Logs what an event at the stamp sends, on each out-edge of its node what this carries.
fn log_sends(
    flow: &Flow,
    node: NodeId,
    low: &Fronts,
    cause: &Stamp,
    sends: &Sends,
    logs: &mut Logs,
) -> Result<(), AllocError>
    requires each { length logs.old ≡ length flow.now.edges }
    ensures logged { (e : ℕ) → e < length flow.now.edges → sender flow.now e ≡ node
        → (ms : List Sent) → on_edge logs.old e ≡ log_of flow.now low.now e ms
        → OnOk result (on_edge logs.new e ≡ log_of flow.now low.now e (carried flow.now e (messages_of cause.now sends.now) ++ ms)) }
    ensures others { (e : ℕ) → sender flow.now e ≢ node → on_edge logs.new e ≡ on_edge logs.old e }
    ensures each { length logs.new ≡ length logs.old }
{
    let edges = flow.out_edges(node);
    for edge in edges {
        log_each(flow, *edge, low, cause, sends, logs)?;
    }
    Ok(())
}

/// Logs what an edge carries of what an event at the stamp sends.
fn log_each(
    flow: &Flow,
    edge: EdgeId,
    low: &Fronts,
    cause: &Stamp,
    sends: &Sends,
    logs: &mut Logs,
) -> Result<(), AllocError>
    requires { edge < length logs.old }
    ensures logged { (ms : List Sent) → on_edge logs.old edge ≡ log_of flow.now low.now edge ms
        → OnOk result (on_edge logs.new edge ≡ log_of flow.now low.now edge (carried flow.now edge (messages_of cause.now sends.now) ++ ms)) }
    ensures others { (e : ℕ) → e ≢ edge → on_edge logs.new e ≡ on_edge logs.old e }
    ensures each { length logs.new ≡ length logs.old }
{
    for place in 0..sends.len() {
        log_at(flow, edge, low, cause, sends, place, logs)?;
    }
    Ok(())
}

/// Logs the message at a place of what an event at the stamp sends, if the edge carries it.
fn log_at(
    flow: &Flow,
    edge: EdgeId,
    low: &Fronts,
    cause: &Stamp,
    sends: &Sends,
    place: usize,
    logs: &mut Logs,
) -> Result<(), AllocError>
    requires edge { edge < length logs.old }
    requires place { place < length (messages_of cause.now sends.now) }
    ensures logged { (ms : List Sent) (d : Sent) → on_edge logs.old edge ≡ log_of flow.now low.now edge ms
        → OnOk result (on_edge logs.new edge
        ≡ log_of flow.now low.now edge (carried flow.now edge (slice_index_or (messages_of cause.now sends.now) place d ∷ []) ++ ms)) }
    ensures others { (e : ℕ) → e ≢ edge → on_edge logs.new e ≡ on_edge logs.old e }
    ensures each { length logs.new ≡ length logs.old }
{
    let Some(message) = sends.message(place, cause) else {
        unreachable!()
    };
    if !flow.carries(edge, &message.rec) {
        return Ok(());
    }
    log_outside(flow, low, edge, message, logs)
}
