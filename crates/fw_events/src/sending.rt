//! What an event makes a node send goes to its out-edges.
ghost use Rattle.std.specs.Prelude.{◌≡◌, ◌≢◌, ◌<◌, ◌↔◌, ◌∷◌, ◌&&◌, not, ℕ, [], true, false, length, map, IsTrue, IfOk, OnOk};
ghost use Rattle.fw_time.specs.Stamp.{in_domain};
ghost use Rattle.fw_frontier.specs.Front.{inside};
ghost use Rattle.fw_flow.specs.Dataflow.{bounds_of, out_edges, policy_of, receiver};
ghost use Rattle.fw_flow.specs.Restoring as restoring;
ghost use Rattle.fw_flow.specs.KeyParts.{is_of_part_if};
ghost use Rattle.fw_model.specs.Carried.{messages_of_part};
ghost use Rattle.fw_model.specs.Filtering.{messages_outside};
ghost use Rattle.fw_model.specs.SortedMessages.{with_messages};
ghost use Rattle.fw_node.specs.NodeOf.{CanBeSent, stamps_of};
ghost use Rattle.fw_node.specs.Sends.{messages_of, sends_list};
ghost use Rattle.fw_progress.specs.SentTally.{ComeFromDomain};
ghost use Rattle.fw_rollback.specs.Edges.{on_edge};
ghost use Rattle.fw_running.specs.Kept.{queue_at, is_down};
ghost use Rattle.fw_running.specs.Places.{IsPut};
ghost use Rattle.fw_running.specs.Shaped.{IsShaped};
ghost use Rattle.fw_events.specs.Outgoing.{outgoing_messages};
ghost use Rattle.fw_events.specs.Sending.{with_queues, with_logs, ChangesEdges, PutsOn, LogsOn, SendsOn};
ghost use Rattle.fw_events.specs.ToldSends.{told_list};

use crate::outgoing::Outgoing;
use crate::told::ToldSends;
use fw_bag::Rec;
use fw_edge::{MsgLog, Queue};
use fw_flow::{Causes, EdgeId, KeyPart, Message, NodeId, is_of_part};
use fw_frontier::Front;
use fw_node::Sends;
use fw_rollback::{Logs, Queues};
use fw_running::Running;
use fw_time::Stamp;
use std::alloc::AllocError;

/// What an event of a node at a stamp sends is pending on each of its out-edges that carries it, and is in the log of each
/// where the node can send again. What is sent is handed back, as progress and traces are told it. The error is want of
/// memory.
pub(crate) fn send(
    running: &mut Running,
    node: NodeId,
    cause: &Stamp,
    sends: &Sends,
) -> Result<ToldSends, AllocError>
    requires shaped { IsShaped running.old }
    requires there { node < length running.old.flow.nodes }
    requires cause { in_domain (bounds_of running.old.flow node) cause.now ≡ true }
    requires can_be_sent { CanBeSent running.old.flow node (stamps_of sends.now) }
    ensures recs { IfOk result (λ told. told_list told ≡ sends_list sends.now) }
    ensures others { ChangesEdges running.old running.new }
    ensures sent { OnOk result (SendsOn (out_edges running.old.flow node) (restoring.can_resend (policy_of running.old.flow node))
        (messages_of cause.now sends.now) running.old running.new) }
    ensures shaped { OnOk result (IsShaped running.new) }
{
    let told = ToldSends::of(running.alloc, sends)?;
    let outgoing = Outgoing {
        cause,
        recs: told.as_slice(),
    };
    send_each(running, node, &outgoing)?;
    Ok(told)
}

// What an event of a node at a stamp sends goes to one out-edge after the other.
fn send_each(running: &mut Running, node: NodeId, outgoing: &Outgoing) -> Result<(), AllocError>
    requires shaped { IsShaped running.old }
    requires there { node < length running.old.flow.nodes }
    requires causes { ComeFromDomain (bounds_of running.old.flow node) (outgoing_messages outgoing.now) }
    requires can_be_sent { CanBeSent running.old.flow node (map (λ (m : Message). m.at) (outgoing_messages outgoing.now)) }
    ensures others { ChangesEdges running.old running.new }
    ensures sent { OnOk result (SendsOn (out_edges running.old.flow node) (restoring.can_resend (policy_of running.old.flow node))
        (outgoing_messages outgoing.now) running.old running.new) }
    ensures shaped { OnOk result (IsShaped running.new) }
{
    if outgoing.recs.is_empty() {
        return Ok(());
    }
    for place in 0..running.flow.out_edges(node).len() {
        let edge = running.flow.out_edges(node)[place];
        send_on(running, node, edge, outgoing)?;
    }
    Ok(())
}

// The same on one edge of the node.
fn send_on(
    running: &mut Running,
    node: NodeId,
    edge: EdgeId,
    outgoing: &Outgoing,
) -> Result<(), AllocError>
    requires shaped { IsShaped running.old }
    requires there { edge < length running.old.flow.edges }
    ensures others { ChangesEdges running.old running.new }
    ensures sent { OnOk result (SendsOn (edge ∷ []) (restoring.can_resend (policy_of running.old.flow node))
        (outgoing_messages outgoing.now) running.old running.new) }
{
    put_live(running, edge, outgoing)?;
    log_sent(running, node, edge, outgoing)
}

// What is sent is pending on an edge, if its receiver is not failed.
fn put_live(running: &mut Running, edge: EdgeId, outgoing: &Outgoing) -> Result<(), AllocError>
    requires there { edge < length running.old.parts.queues }
    ensures others { running.new ≡ with_queues running.new.parts.queues running.new.ready.edges running.old }
    ensures down { is_down running.old (receiver running.old.flow edge) ≡ true → running.new ≡ running.old }
    ensures live { is_down running.old (receiver running.old.flow edge) ≡ false
        → OnOk result (PutsOn edge (outgoing_messages outgoing.now) running.old running.new) }
{
    if running.is_failed(running.flow.dst(edge)) {
        return Ok(());
    }
    put_on(running, edge, outgoing)
}

// What is sent is pending on an edge.
fn put_on(running: &mut Running, edge: EdgeId, outgoing: &Outgoing) -> Result<(), AllocError>
    requires there { edge < length running.old.parts.queues }
    ensures others { running.new ≡ with_queues running.new.parts.queues running.new.ready.edges running.old }
    ensures put { OnOk result (PutsOn edge (outgoing_messages outgoing.now) running.old running.new) }
{
    let none_before = nothing_pending(&running.parts.queues, edge);
    let part = running.flow.part(running.flow.dst(edge));
    put_in(&mut running.parts.queues, edge, part, outgoing)?;
    note_pending(running, edge, none_before)?;
    Ok(())
}

// An edge on which nothing was pending before is put among the ready ones, if something is now.
fn note_pending(running: &mut Running, edge: EdgeId, none_before: bool) -> Result<(), AllocError>
    ensures others { running.new ≡ with_queues running.old.parts.queues running.new.ready.edges running.old }
    ensures put { none_before ≡ true → queue_at running.old edge ≢ [] → OnOk result (IsPut edge running.old.ready.edges running.new.ready.edges) }
    ensures stays { none_before ≡ false → running.new.ready.edges ≡ running.old.ready.edges }
    ensures none { queue_at running.old edge ≡ [] → running.new.ready.edges ≡ running.old.ready.edges }
{
    if !none_before || nothing_pending(&running.parts.queues, edge) {
        return Ok(());
    }
    running.ready.put_edge(edge)
}

/// Whether nothing is pending on an edge.
pub(crate) fn nothing_pending(queues: &Queues, edge: EdgeId) -> bool
    ensures { IsTrue result ↔ ((on_edge queues.now edge).messages ≡ []) }
{
    match queues.get(edge) {
        Some(queue) => queue.is_empty(),
        None => true,
    }
}

// Of what is sent that whose key is of the part is pending on an edge.
fn put_in(
    queues: &mut Queues,
    edge: EdgeId,
    part: Option<KeyPart>,
    outgoing: &Outgoing,
) -> Result<(), AllocError>
    requires { edge < length queues.old }
    ensures each { length queues.new ≡ length queues.old }
    ensures here { OnOk result ((on_edge queues.new edge).messages
        ≡ with_messages (messages_of_part part (outgoing_messages outgoing.now)) (on_edge queues.old edge).messages) }
    ensures others { (e : ℕ) → e ≢ edge → on_edge queues.new e ≡ on_edge queues.old e }
{
    match queues.get_mut(edge) {
        Some(queue) => put_each(queue, part, outgoing),
        None => Ok(()),
    }
}

// What is sent outside the receiver's low watermark is in the log of an edge, where the node can send it again.
fn log_sent(
    running: &mut Running,
    node: NodeId,
    edge: EdgeId,
    outgoing: &Outgoing,
) -> Result<(), AllocError>
    requires there { edge < length running.old.parts.logs }
    requires low { receiver running.old.flow edge < length running.old.parts.low }
    ensures others { running.new ≡ with_logs running.new.parts.logs running.old }
    ensures again { restoring.can_resend (policy_of running.old.flow node) ≡ true
        → OnOk result (LogsOn edge (outgoing_messages outgoing.now) running.old running.new) }
    ensures never { restoring.can_resend (policy_of running.old.flow node) ≡ false → running.new ≡ running.old }
{
    if !running.flow.policy(node).can_resend() {
        return Ok(());
    }
    log_on(running, edge, outgoing)
}

// What is sent outside the receiver's low watermark is in the log of an edge.
fn log_on(running: &mut Running, edge: EdgeId, outgoing: &Outgoing) -> Result<(), AllocError>
    requires there { edge < length running.old.parts.logs }
    requires low { receiver running.old.flow edge < length running.old.parts.low }
    ensures others { running.new ≡ with_logs running.new.parts.logs running.old }
    ensures logged { OnOk result (LogsOn edge (outgoing_messages outgoing.now) running.old running.new) }
{
    let receiver = running.flow.dst(edge);
    let part = running.flow.part(receiver);
    let low = &running.parts.low.as_slice()[receiver.place() as usize];
    log_in(&mut running.parts.logs, edge, part, low, outgoing)
}

// Of what is sent that whose key is of the part, and which lies outside a frontier, is in the log of an edge.
fn log_in(
    logs: &mut Logs,
    edge: EdgeId,
    part: Option<KeyPart>,
    low: &Front,
    outgoing: &Outgoing,
) -> Result<(), AllocError>
    requires { edge < length logs.old }
    ensures each { length logs.new ≡ length logs.old }
    ensures here { OnOk result ((on_edge logs.new edge).messages
        ≡ with_messages (messages_outside (inside low.now) (messages_of_part part (outgoing_messages outgoing.now)))
        (on_edge logs.old edge).messages) }
    ensures others { (e : ℕ) → e ≢ edge → on_edge logs.new e ≡ on_edge logs.old e }
{
    match logs.get_mut(edge) {
        Some(log) => log_each(log, part, low, outgoing),
        None => Ok(()),
    }
}

/// Of what is sent that whose key is of the part is pending. The error is want of memory.
fn put_each(queue: &mut Queue, part: Option<KeyPart>, outgoing: &Outgoing) -> Result<(), AllocError>
    ensures { OnOk result (queue.new.messages ≡ with_messages (messages_of_part part (outgoing_messages outgoing.now)) queue.old.messages) }
{
    // This call tells that the messages of the queue are in order.
    let _none = queue.is_empty();
    for one in outgoing.recs {
        if is_of_part(part, one.1.key) {
            queue.put(caused(&one.0, one.1, outgoing.cause))?;
        }
    }
    Ok(())
}

// A rec that an event at a stamp sends, as a message.
fn caused(at: &Stamp, rec: Rec, cause: &Stamp) -> Message
    ensures { result ≡ record { at = at.now; rec = rec; causes = cause.now ∷ [] } }
{
    Message {
        at: at.copy(),
        rec,
        causes: Causes::of(cause.copy()),
    }
}

// Whether a rec at a stamp belongs in a log: its key is of the part, and it lies outside the receiver's low watermark.
fn is_logged(part: Option<KeyPart>, low: &Front, at: &Stamp, rec: Rec) -> bool
    ensures { result ≡ (is_of_part_if part rec.key && not (inside low.now at.now)) }
{
    is_of_part(part, rec.key) && !low.contains(at)
}

/// Of what is sent that whose key is of the part, and which lies outside the receiver's low watermark, is kept in the log. The
/// error is want of memory.
fn log_each(
    log: &mut MsgLog,
    part: Option<KeyPart>,
    low: &Front,
    outgoing: &Outgoing,
) -> Result<(), AllocError>
    ensures { OnOk result (log.new.messages
        ≡ with_messages (messages_outside (inside low.now) (messages_of_part part (outgoing_messages outgoing.now))) log.old.messages) }
{
    // This call tells that the messages of the log are in order.
    let _none = log.is_empty();
    for one in outgoing.recs {
        if is_logged(part, low, &one.0, one.1) {
            log.append(caused(&one.0, one.1, outgoing.cause))?;
        }
    }
    Ok(())
}
