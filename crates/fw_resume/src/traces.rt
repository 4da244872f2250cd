//! Traces that start again: where inputs sent, and where the events are that writes log.
ghost use Rattle.std.specs.Prelude.{◌≡◌, ◌<◌, ◌≤◌, ◌^◌, ◌++◌, ◌∷◌, [], ℕ, nat_lt, length, map, IfOk, OnOk};
ghost use Rattle.std.specs.List.{AllByRecursion, flat_map};
ghost use Rattle.fw_keep.specs.declared.entry.Entry.{Entry as Write};
ghost use Rattle.fw_lines.specs.Batches.{batches_at};
ghost use Rattle.fw_flow.specs.Dataflow.{out_edges, system_of, HasEpochs};
ghost use Rattle.fw_flow.specs.WellFormed.{IsWellFormedSystem};
ghost use Rattle.fw_model.specs.Carried.{carried_recs};
ghost use Rattle.fw_model.specs.Machine.{Machine, events};
ghost use Rattle.fw_model.specs.Reached.{IsReached};
ghost use Rattle.fw_progress.specs.Counts.{AreCounts};
ghost use Rattle.fw_progress.specs.History.{IsCountOf};
ghost use Rattle.fw_stands.specs.Written.{AreEntriesOf, uncollected};
ghost use Rattle.fw_running.specs.Held.{KnowsTracesHeld};
ghost use Rattle.fw_resume.specs.Recalled.{AreReady, HaveRecalled, RecallsAreOf, recalls_of_batch, recalls_of_entry, recalls_of_event, sending_on};
ghost use Rattle.fw_resume.specs.Recalled.{recalls_of_input, recalls_of_inputs};

use fw_bag::Bag;
use fw_flow::{EdgeId, Flow, NodeId};
use fw_frontier::Front;
use fw_keep::{Entry, Written};
use fw_lines::Batches;
use fw_progress::{Counts, Traces};
use fw_record::Event;
use fw_time::Stamp;
use std::alloc::{AllocError, Global};

/// Traces that tell where inputs sent, so many batches of each being injected, and the events that these writes log. The error is want
/// of memory.
pub(crate) fn traces_of(
    alloc: Global,
    flow: &Flow,
    batches: &Batches,
    counts: &Counts,
    low: &[Front],
    entries: &[Entry],
) -> Result<Traces, AllocError>
    requires counts { AreCounts flow.now counts.now }
    requires low_each { length low.now ≡ length flow.now.nodes }
    requires epochs { HasEpochs (system_of flow.now batches.now) }
    requires there { AllByRecursion (λ (e : Write). e.node < length flow.now.nodes) entries.now }
    ensures ready { IfOk result (AreReady flow.now) }

    // Of each state of which these are the counts, the low watermarks and the writes they have what an engine knows before its first
    // recovery, if it is one in which every node is failed.
    ensures held { (state : Machine) → IsWellFormedSystem (system_of flow.now batches.now) → IsReached (system_of flow.now batches.now) state
        → IsCountOf (system_of flow.now batches.now) (events state.history) counts.now → low.now ≡ state.low
        → AreEntriesOf (system_of flow.now batches.now) state entries.now (uncollected state)
        → IfOk result (KnowsTracesHeld (system_of flow.now batches.now) state) }
{
    let mut traces = Traces::new(alloc, flow)?;
    tell(&mut traces, flow, batches, &counts.injected, low, entries)?;
    Ok(traces)
}

/// Traces of no event are told where inputs sent, so many batches of each node being injected, and the events that these writes log. The
/// error is want of memory.
fn tell(
    traces: &mut Traces,
    flow: &Flow,
    batches: &Batches,
    injected: &[u64],
    low: &[Front],
    entries: &[Entry],
) -> Result<(), AllocError>
    requires ready { AreReady flow.now traces.old }
    requires injected_each { length injected.now ≡ length flow.now.nodes }
    requires low_each { length low.now ≡ length flow.now.nodes }
    requires epochs { HasEpochs (system_of flow.now batches.now) }
    requires there { AllByRecursion (λ (e : Write). e.node < length flow.now.nodes) entries.now }
    ensures ready { OnOk result (AreReady flow.now traces.new) }

    // Of each state of which these are the numbers, the low watermarks and the writes they have what an engine knows before its first
    // recovery, if it is one in which every node is failed.
    ensures held { (state : Machine) → RecallsAreOf flow.now batches.now injected.now low.now entries.now traces.old state
        → OnOk result (KnowsTracesHeld (system_of flow.now batches.now) state traces.new) }
{
    recall_inputs(traces, flow, batches, injected, low)?;
    recall_entries(traces, flow, entries)
}

/// Of each node, of which so many batches were injected, the epochs are told that have a rec and lie outside the low watermark. The
/// error is want of memory.
fn recall_inputs(
    traces: &mut Traces,
    flow: &Flow,
    batches: &Batches,
    injected: &[u64],
    low: &[Front],
) -> Result<(), AllocError>
    requires ready { AreReady flow.now traces.old }
    requires injected_each { length injected.now ≡ length flow.now.nodes }
    requires low_each { length low.now ≡ length flow.now.nodes }
    requires few { (p : ℕ) → p < length flow.now.nodes → length (batches_at batches.now p) ≤ 2 ^ 32 }
    ensures ready { OnOk result (AreReady flow.now traces.new) }
    ensures recalled { OnOk result
        (HaveRecalled (recalls_of_inputs flow.now batches.now injected.now low.now (length flow.now.nodes)) traces.old traces.new) }
{
    for place in 0..flow.nodes() {
        let node = NodeId::at(place as u32);
        recall_input(
            traces,
            flow,
            node,
            batches.of(node.place()),
            injected[place],
            &low[place],
        )?;
    }
    Ok(())
}

/// The same of one node.
fn recall_input(
    traces: &mut Traces,
    flow: &Flow,
    node: NodeId,
    batches: &[Bag],
    injected: u64,
    low: &Front,
) -> Result<(), AllocError>
    requires ready { AreReady flow.now traces.old }
    requires there { node < length flow.now.nodes }
    requires few { length batches.now ≤ 2 ^ 32 }
    ensures ready { OnOk result (AreReady flow.now traces.new) }
    ensures recalled { OnOk result (HaveRecalled (recalls_of_input flow.now node low.now (map (λ b. b.recs) batches.now) injected) traces.old traces.new) }
{
    for epoch in 0..injected {
        recall_batch(traces, flow, node, batches, epoch, low)?;
    }
    Ok(())
}

/// The epoch of a batch is told of each out-edge that carries one of its recs, if it lies outside the low watermark. The error is want
/// of memory.
fn recall_batch(
    traces: &mut Traces,
    flow: &Flow,
    node: NodeId,
    batches: &[Bag],
    epoch: u64,
    low: &Front,
) -> Result<(), AllocError>
    requires ready { AreReady flow.now traces.old }
    requires there { node < length flow.now.nodes }
    requires few { length batches.now ≤ 2 ^ 32 }
    ensures ready { OnOk result (AreReady flow.now traces.new) }
    ensures recalled { OnOk result (HaveRecalled (recalls_of_batch flow.now node low.now (map (λ b. b.recs) batches.now) epoch) traces.old traces.new) }
{
    let Some(batch) = batches.get(epoch as usize) else {
        return Ok(());
    };
    if low.contains(&Stamp::new(&[epoch as u32])) {
        return Ok(());
    }
    recall_out(traces, flow, node, batch, epoch as u32)
}

/// The epoch of a batch is told of each out-edge that carries one of its recs. The error is want of memory.
fn recall_out(
    traces: &mut Traces,
    flow: &Flow,
    node: NodeId,
    batch: &Bag,
    epoch: u32,
) -> Result<(), AllocError>
    requires { AreReady flow.now traces.old }
    ensures ready { OnOk result (AreReady flow.now traces.new) }
    ensures recalled { OnOk result
        (HaveRecalled (flat_map (sending_on flow.now batch.now.recs (epoch ∷ [])) (out_edges flow.now node)) traces.old traces.new) }
{
    let edges = flow.out_edges(node);
    for edge in edges {
        recall_on(traces, flow, *edge, batch, epoch)?;
    }
    Ok(())
}

/// The epoch of a batch is told of an edge, if this carries one of its recs. The error is want of memory.
fn recall_on(
    traces: &mut Traces,
    flow: &Flow,
    edge: EdgeId,
    batch: &Bag,
    epoch: u32,
) -> Result<(), AllocError>
    requires ready { AreReady flow.now traces.old }
    requires there { edge < length flow.now.edges }
    ensures ready { OnOk result (AreReady flow.now traces.new) }
    ensures recalled { OnOk result (HaveRecalled (sending_on flow.now batch.now.recs (epoch ∷ []) edge) traces.old traces.new) }
{
    if !carries_any(flow, edge, batch) {
        return Ok(());
    }
    traces.recall_sent(flow, edge, epoch)
}

/// Whether an edge carries one of the recs of a batch.
fn carries_any(flow: &Flow, edge: EdgeId, batch: &Bag) -> bool
    ensures { result ≡ nat_lt 0 (length (carried_recs flow.now edge batch.now.recs)) }
{
    for rec in batch {
        if flow.carries(edge, &rec) {
            return true;
        }
    }
    false
}

/// The events are told that these writes log. The error is want of memory.
fn recall_entries(traces: &mut Traces, flow: &Flow, entries: &[Entry]) -> Result<(), AllocError>
    requires ready { AreReady flow.now traces.old }
    requires there { AllByRecursion (λ (e : Write). e.node < length flow.now.nodes) entries.now }
    ensures ready { OnOk result (AreReady flow.now traces.new) }
    ensures recalled { OnOk result (HaveRecalled (flat_map (recalls_of_entry flow.now) entries.now) traces.old traces.new) }
{
    for entry in entries {
        recall_entry(traces, flow, entry)?;
    }
    Ok(())
}

/// The event is told, if the write logs one. The error is want of memory.
fn recall_entry(traces: &mut Traces, flow: &Flow, entry: &Entry) -> Result<(), AllocError>
    requires ready { AreReady flow.now traces.old }
    requires there { entry.now.node < length flow.now.nodes }
    ensures ready { OnOk result (AreReady flow.now traces.new) }
    ensures recalled { OnOk result (HaveRecalled (recalls_of_entry flow.now entry.now) traces.old traces.new) }
{
    match &entry.written {
        Written::Checkpoint { .. } => Ok(()),
        Written::Event(event) => recall_event(traces, flow, entry.node, event),
    }
}

/// The event is told, if it is one of the node. The error is want of memory.
fn recall_event(
    traces: &mut Traces,
    flow: &Flow,
    node: NodeId,
    event: &Event,
) -> Result<(), AllocError>
    requires ready { AreReady flow.now traces.old }
    requires there { node < length flow.now.nodes }
    ensures ready { OnOk result (AreReady flow.now traces.new) }
    ensures recalled { OnOk result (HaveRecalled (recalls_of_event flow.now node event.now) traces.old traces.new) }
{
    match event {
        Event::Deliver { edge, at, .. } => {
            if flow.dst(*edge) != node {
                return Ok(());
            }
            traces.recall_delivered(flow, *edge, at)
        }
        Event::Notify { at } => traces.recall_notified(flow, node, at),
    }
}
