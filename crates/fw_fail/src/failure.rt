//! The step of a failure.
ghost use Rattle.std.specs.Prelude.{◌≡◌, ◌≢◌, ◌↔◌, ◌<◌, ℕ, [], false, length, IsTrue, IfOk, OnOk, OnErr, option_to_list, if◌then◌else◌};
ghost use Rattle.fw_flow.specs.declared.step.Step.TheVariants as steps;
ghost use Rattle.fw_keep.specs.Entry as entries;
ghost use Rattle.fw_rollback.specs.Edges.{on_edge};
ghost use Rattle.fw_policy.specs.Offering.{stamp_of_written, stamps_in_flight};
ghost use Rattle.fw_fail.specs.Failing.{AreGone, IsGoneFrom, lost_after, Fails, FailsIf};
ghost use Rattle.fw_running.specs.Drawn.{supply};
ghost use Rattle.fw_running.specs.Kept.{is_down};
ghost use Rattle.fw_running.specs.Shaped.{HasOneEach, IsShaped};
ghost use Rattle.fw_running.specs.Steps.{InnerAnswers};

use fw_flow::{EdgeId, Flow, NodeId, Notices, Policy};
use fw_keep::{Entry, Written};
use fw_rollback::{Logs, Parts, Queues};
use fw_running::{Effect, EngineFault, Running, Stepped};
use fw_time::Stamp;
use std::alloc::{AllocError, Global};

/// The nodes fail, and lose their tables, what is pending for them, what they may have to send again, and their writes in
/// flight.
pub fn fail(running: &mut Running, nodes: &[NodeId]) -> Result<Stepped, EngineFault>
    requires shaped { IsShaped running.old }
    ensures answers { InnerAnswers running.old (steps.Fail nodes.now) result running.new }
    ensures draws { supply running.new.parts.keep ≡ supply running.old.parts.keep }
{
    let mut any = false;
    for node in nodes {
        any |= fail_if_live(running, *node)?;
    }
    Ok(silent_if(any))
}

// A node fails, if there is such a one and it is not failed; whether it did.
fn fail_if_live(running: &mut Running, node: NodeId) -> Result<bool, AllocError>
    requires { HasOneEach running.old }
    ensures ok { IfOk result (λ live. FailsIf node live running.old running.new) }
    ensures err { OnErr result (running.new ≡ running.old) }
{
    if !can_fail(running, node) {
        return Ok(false);
    }
    fail_one(running, node)?;
    Ok(true)
}

// Whether there is such a node, and it is not failed.
fn can_fail(running: &Running, node: NodeId) -> bool
    requires { HasOneEach running.now }
    ensures { IsTrue result ↔ (node < length running.now.flow.nodes) × (is_down running.now node ≡ false) }
{
    (node.place() as usize) < running.flow.nodes() && !running.is_failed(node)
}

// One node fails.
fn fail_one(running: &mut Running, node: NodeId) -> Result<(), AllocError>
    requires one_each { HasOneEach running.old }
    requires there { node < length running.old.flow.nodes }
    ensures ok { IfOk result (λ u. Fails node running.old running.new) }
    ensures err { OnErr result (running.new ≡ running.old) }
{
    let entries = running.parts.keep.entries();
    note_lost(
        running.alloc,
        running.flow.policy(node),
        node,
        entries,
        &mut running.lost,
    )?;
    lose(&running.flow, node, &mut running.parts);
    running.failed[node.place() as usize] = true;
    Ok(())
}

// What comes of a step that shows nothing, where it is enabled.
fn silent_if(enabled: bool) -> Stepped
    ensures { result ≡ (if enabled then Stepped.Did Effect.Quiet else Stepped.Idle) }
{
    if enabled {
        Stepped::Did(Effect::Quiet)
    } else {
        Stepped::Idle
    }
}

// Of a node that logs each event it is kept at which stamps events were in flight. The error is want of memory.
fn note_lost(
    alloc: Global,
    policy: Policy,
    node: NodeId,
    entries: &[Entry],
    lost: &mut Vec<Notices>,
) -> Result<(), AllocError>
    requires { node < length lost.old.items }
    ensures ok { OnOk result (lost.new.items ≡ lost_after policy node entries.now lost.old.items) }
    ensures err { OnErr result (lost.new ≡ lost.old) }
{
    if let Policy::Full = policy {
        let stamps = in_flight(alloc, entries, node)?;
        lost[node.place() as usize] = Notices::of(stamps);
    }
    Ok(())
}

// Takes away what a node loses as it fails.
fn lose(flow: &Flow, node: NodeId, parts: &mut Parts)
    ensures { IsGoneFrom flow.now node parts.old parts.new }
{
    parts.tables.set(node, None);
    clear_queues(flow.in_edges(node), &mut parts.queues);
    clear_logs(flow.out_edges(node), &mut parts.logs);
    parts.outputs.clear(node);
    parts.keep.lose(node);
}

// Drops what is pending on these edges.
fn clear_queues(edges: &[EdgeId], queues: &mut Queues)
    ensures { AreGone edges.now queues.old queues.new }
{
    for edge in edges {
        clear_queue(*edge, queues);
    }
}

// Drops what is pending on an edge.
fn clear_queue(edge: EdgeId, queues: &mut Queues)
    ensures one_each { length queues.new ≡ length queues.old }
    ensures here { (on_edge queues.new edge).messages ≡ [] }
    ensures others { (e : ℕ) → e ≢ edge → on_edge queues.new e ≡ on_edge queues.old e }
{
    if let Some(queue) = queues.get_mut(edge) {
        queue.clear();
    }
}

// Drops what may have to be sent again on these edges.
fn clear_logs(edges: &[EdgeId], logs: &mut Logs)
    ensures { AreGone edges.now logs.old logs.new }
{
    for edge in edges {
        clear_log(*edge, logs);
    }
}

// Drops what may have to be sent again on an edge.
fn clear_log(edge: EdgeId, logs: &mut Logs)
    ensures one_each { length logs.new ≡ length logs.old }
    ensures here { (on_edge logs.new edge).messages ≡ [] }
    ensures others { (e : ℕ) → e ≢ edge → on_edge logs.new e ≡ on_edge logs.old e }
{
    if let Some(log) = logs.get_mut(edge) {
        log.clear();
    }
}

// The stamps of a node's events whose writes are in flight. The error is want of memory.
fn in_flight(alloc: Global, entries: &[Entry], node: NodeId) -> Result<Vec<Stamp>, AllocError>
    ensures { IfOk result (λ stamps. stamps.items ≡ stamps_in_flight node entries.now) }
{
    let mut stamps = Vec::new(alloc);
    for entry in entries {
        if let Some(stamp) = lost_stamp(entry, node) {
            stamps.push(stamp)?;
        }
    }
    Ok(stamps)
}

// The stamp of a write, if it is that of an event of the node that is in flight.
fn lost_stamp(entry: &Entry, node: NodeId) -> Option<Stamp>
    ensures { option_to_list result ≡ (if entries.is_in_flight_of node entry.now then stamp_of_written entry.now.written else []) }
{
    if entry.node != node || entry.acknowledged {
        return None;
    }
    match &entry.written {
        Written::Event(event) => Some(event.at().copy()),
        Written::Checkpoint { .. } => None,
    }
}
