//! What a recovery leaves of the traces and of progress.
ghost use Rattle.std.specs.Prelude.{◌≡◌, ◌<◌, ℕ, true, false, [], length, slice_index_or, find, IfOk};
ghost use Rattle.std.specs.List.{AllByRecursion};
ghost use Rattle.std.specs.Option.{option_copied};
ghost use Rattle.fw_time.specs.Stamp.{Stamp, in_domain};
ghost use Rattle.fw_time.specs.declared.stamp.Bounds.{Bounds};
ghost use Rattle.fw_frontier.specs.Front.{IsCanonical};
ghost use Rattle.fw_model.specs.Choice.{cut_of, IsChoiceOf, IsCanonicalCut};
ghost use Rattle.fw_model.specs.Machine.{front_of};
ghost use Rattle.fw_progress.specs.Counts.{sent_of};
ghost use Rattle.fw_progress.specs.Cut.{AreTallies};
ghost use Rattle.fw_progress.specs.History.{count_at};
ghost use Rattle.fw_progress.specs.Progress.{IsOfFlow, AreFrontsOf};
ghost use Rattle.fw_progress.specs.Tally.{times_in, IsTallyOf};
ghost use Rattle.fw_progress.specs.Trace.{HaveLists};
ghost use Rattle.fw_rollback.specs.Edges.{on_edge};
ghost use Rattle.fw_stands.specs.Recovered.{IsSettledBy, table_left};
ghost use Rattle.fw_recover.specs.CutProgress.{AreAtReceivers, IsProgressCut};
ghost use Rattle.fw_recover.specs.CutTraces as cut;
ghost use Rattle.fw_recover.specs.CutTraces.{AreSavedBy, AreTracesCut, AreTracesCutAt, AreTracesCutTo};

use fw_edge::Queue;
use fw_flow::{Choice, Cut, EdgeId, Flow, NodeId, SentTable};
use fw_frontier::Front;
use fw_keep::{Entry, Written, no_stamps};
use fw_progress::{Counts, Progress, Tally, Traces};
use fw_rollback::Queues;
use fw_running::takes_checkpoints;
use std::alloc::{AllocError, Global};

// ---- traces

/// The traces after a recovery: each node that was cut has those inside its cut, or of its checkpoint there. The error is want
/// of memory.
pub(crate) fn cut_traces(
    alloc: Global,
    flow: &Flow,
    choice: &Choice,
    entries: &[Entry],
    traces: &mut Traces,
) -> Result<(), AllocError>
    requires live { traces.old.refused ≡ false }
    requires lists { HaveLists flow.now traces.old }
    ensures cut { IfOk result (λ u. AreTracesCut flow.now entries.now choice.now (length flow.now.nodes) traces.old traces.new) }
    ensures live { IfOk result (λ u. traces.new.refused ≡ false) }
    ensures lists { IfOk result (λ u. HaveLists flow.now traces.new) }
{
    for place in 0..flow.nodes() {
        cut_at(
            alloc,
            flow,
            choice,
            entries,
            NodeId::at(place as u32),
            traces,
        )?;
    }
    Ok(())
}

// The traces of a node after its cut, if it was cut.
fn cut_at(
    alloc: Global,
    flow: &Flow,
    choice: &Choice,
    entries: &[Entry],
    node: NodeId,
    traces: &mut Traces,
) -> Result<(), AllocError>
    requires there { node < length flow.now.nodes }
    requires live { traces.old.refused ≡ false }
    requires lists { HaveLists flow.now traces.old }
    ensures cut { IfOk result (λ u. AreTracesCutAt flow.now entries.now node (cut_of choice.now node) traces.old traces.new) }
    ensures live { IfOk result (λ u. traces.new.refused ≡ false) }
    ensures lists { IfOk result (λ u. HaveLists flow.now traces.new) }
{
    match choice.cuts.as_slice().get(node.place() as usize) {
        Some(Cut::At(front)) => cut_to(alloc, flow, entries, node, front, traces),
        _ => Ok(()),
    }
}

// The traces of a node that was cut: those of its checkpoint, where it is restored to one, and else those inside.
fn cut_to(
    alloc: Global,
    flow: &Flow,
    entries: &[Entry],
    node: NodeId,
    front: &Front,
    traces: &mut Traces,
) -> Result<(), AllocError>
    requires there { node < length flow.now.nodes }
    requires live { traces.old.refused ≡ false }
    requires lists { HaveLists flow.now traces.old }
    ensures cut { IfOk result (λ u. AreTracesCutTo flow.now entries.now node front.now traces.old traces.new) }
    ensures live { IfOk result (λ u. traces.new.refused ≡ false) }
    ensures lists { IfOk result (λ u. HaveLists flow.now traces.new) }
{
    if !takes_checkpoints(flow.policy(node)) {
        traces.keep_inside(flow, node, front);
        return Ok(());
    }
    match saved_at(entries, node, front) {
        Some(entry) => restore_by(flow, node, &entry.written, traces),
        None => traces.restore(flow, node, &no_stamps(alloc), 0),
    }
}

// The first entry of a checkpoint of a node at a frontier.
fn saved_at<'a>(entries: &'a [Entry], node: NodeId, front: &Front) -> Option<&'a Entry>
    ensures { option_copied result ≡ find (cut.is_saved_at node front.now) entries.now }
{
    entries.iter().find(|entry| is_saved_at(entry, node, front))
}

// Whether the entry is of a checkpoint of a node at a frontier.
fn is_saved_at(entry: &Entry, node: NodeId, front: &Front) -> bool
    ensures { result ≡ cut.is_saved_at node front.now entry.now }
{
    match &entry.written {
        Written::Checkpoint { recorded, .. } => entry.node == node && recorded.front.same(front),
        Written::Event(_) => false,
    }
}

// The traces of a node are those of what is written of it, if that is a checkpoint.
fn restore_by(
    flow: &Flow,
    node: NodeId,
    written: &Written,
    traces: &mut Traces,
) -> Result<(), AllocError>
    requires there { node < length flow.now.nodes }
    requires live { traces.old.refused ≡ false }
    requires lists { HaveLists flow.now traces.old }
    ensures saved { IfOk result (λ u. AreSavedBy flow.now node written.now traces.old traces.new) }
    ensures live { IfOk result (λ u. traces.new.refused ≡ false) }
    ensures lists { IfOk result (λ u. HaveLists flow.now traces.new) }
{
    match written {
        Written::Checkpoint { stamps, sent, .. } => traces.restore(flow, node, stamps, *sent),
        Written::Event(_) => Ok(()),
    }
}

// ---- progress

/// Progress after a recovery, which restored the queues: what is pending is counted anew, a node that was cut is owed nothing
/// outside its cut, and settles what lies in it. The error is want of memory.
pub(crate) fn cut_progress(
    alloc: Global,
    flow: &Flow,
    choice: &Choice,
    queues: &Queues,
    progress: &mut Progress,
) -> Result<(), AllocError>
    requires choice { IsChoiceOf flow.now choice.now }
    requires queues { AreAtReceivers flow.now queues.now }
    requires progress { IsOfFlow flow.now progress.old }
    ensures cut { IfOk result (λ u. IsProgressCut flow.now choice.now queues.now progress.old progress.new) }
    ensures live { IfOk result (λ u. progress.new.refused ≡ false) }
    ensures progress { IfOk result (λ u. IsOfFlow flow.now progress.new) }
{
    let pending = pending_after(alloc, flow, queues)?;
    let sent = sent_after(alloc, flow, choice, progress.counts())?;
    let settled = settled_after(alloc, flow, choice, progress.settled())?;
    progress.cut(alloc, flow, choice, pending, sent, settled)
}

// How many messages are pending on each edge, by stamp.
fn pending_after(alloc: Global, flow: &Flow, queues: &Queues) -> Result<Vec<Tally>, AllocError>
    requires { AreAtReceivers flow.now queues.now }
    ensures tallies { IfOk result (λ pending. AreTallies flow.now pending.items) }
    ensures counted { IfOk result (λ pending. (e : ℕ) → e < length flow.now.edges → (t : Stamp)
        → times_in t (slice_index_or pending.items e []) ≡ count_at t (on_edge queues.now e).messages) }
{
    let mut pending = Vec::new(alloc);
    let (_nodes, edges) = (flow.nodes(), flow.edges());
    for place in 0..edges {
        pending.push(pending_on(alloc, queues, EdgeId::at(place as u32))?)?;
    }
    Ok(pending)
}

// How many messages are pending on an edge, by stamp.
fn pending_on(alloc: Global, queues: &Queues, edge: EdgeId) -> Result<Tally, AllocError>
    ensures counted { IfOk result (λ tally. (t : Stamp) → times_in t tally ≡ count_at t (on_edge queues.now edge).messages) }
    ensures domain { (bounds : Bounds) → AllByRecursion (λ m. in_domain bounds m.at ≡ true) (on_edge queues.now edge).messages
        → IfOk result (IsTallyOf bounds) }
{
    match queues.get(edge) {
        Some(queue) => pending_in(alloc, queue),
        None => Ok(Tally::new(alloc)),
    }
}

// How many messages are pending in a queue, by stamp.
fn pending_in(alloc: Global, queue: &Queue) -> Result<Tally, AllocError>
    ensures counted { IfOk result (λ tally. (t : Stamp) → times_in t tally ≡ count_at t queue.now.messages) }
    ensures domain { (bounds : Bounds) → AllByRecursion (λ m. in_domain bounds m.at ≡ true) queue.now.messages
        → IfOk result (IsTallyOf bounds) }
{
    let mut tally = Tally::new(alloc);
    for (at, count) in queue.stamps() {
        tally.add_many(at, count as u64)?;
    }
    Ok(tally)
}

// What each sequence sent by epoch, after its cut.
fn sent_after(
    alloc: Global,
    flow: &Flow,
    choice: &Choice,
    counts: &Counts,
) -> Result<Vec<SentTable>, AllocError>
    requires { length counts.now.sent.items ≡ length flow.now.nodes }
    ensures one_each { IfOk result (λ tables. length tables.items ≡ length flow.now.nodes) }
    ensures left { IfOk result (λ tables. (p : ℕ) → p < length flow.now.nodes
        → slice_index_or tables.items p [] ≡ table_left (cut_of choice.now p) (sent_of counts.now p)) }
{
    let mut tables = Vec::new(alloc);
    for place in 0..flow.nodes() {
        tables.push(table_after(choice, NodeId::at(place as u32), &counts.sent[place])?)?;
    }
    Ok(tables)
}

// What a sequence sent by epoch, after its cut.
fn table_after(choice: &Choice, node: NodeId, table: &SentTable) -> Result<SentTable, AllocError>
    ensures { IfOk result (λ left. left ≡ table_left (cut_of choice.now node) table.now) }
{
    match choice.cuts.as_slice().get(node.place() as usize) {
        Some(Cut::At(front)) => table.inside(front),
        _ => table.copy(),
    }
}

// What is settled at each node, after its cut.
fn settled_after(
    alloc: Global,
    flow: &Flow,
    choice: &Choice,
    settled: &[Front],
) -> Result<Vec<Front>, AllocError>
    requires choice { IsChoiceOf flow.now choice.now }
    requires settled { AreFrontsOf flow.now settled.now }
    ensures fronts { IfOk result (λ fronts. AreFrontsOf flow.now fronts.items) }
    ensures settled { IfOk result (λ fronts. (p : ℕ) → p < length flow.now.nodes
        → IsSettledBy (front_of settled.now p) (cut_of choice.now p) (front_of fronts.items p)) }
{
    let mut fronts = Vec::new(alloc);
    for place in 0..flow.nodes() {
        fronts.push(front_after(choice, NodeId::at(place as u32), &settled[place])?)?;
    }
    Ok(fronts)
}

// What is settled at a node, after its cut.
fn front_after(choice: &Choice, node: NodeId, settled: &Front) -> Result<Front, AllocError>
    ensures settled { IfOk result (IsSettledBy settled.now (cut_of choice.now node)) }
    ensures canonical { (bounds : Bounds) → IsCanonical bounds settled.now → IsCanonicalCut bounds (cut_of choice.now node)
        → IfOk result (IsCanonical bounds) }
{
    match choice.cuts.as_slice().get(node.place() as usize) {
        Some(Cut::At(front)) => settled.meet(front),
        _ => settled.copy(),
    }
}
