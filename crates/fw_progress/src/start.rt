//! Counts of nothing, and the largest frontiers by counts.
ghost use Rattle.std.specs.Prelude.{◌≡◌, ◌<◌, ◌↔◌, ℕ, [], true, length, map, slice_index_or, IsTrue, IfOk};
ghost use Rattle.std.specs.List.{AllByRecursion};
ghost use Rattle.fw_lines.specs.Batches.{batches_at};
ghost use Rattle.fw_frontier.specs.Frontier.{Within};
ghost use Rattle.fw_frontier.specs.Front.{IsCanonical};
ghost use Rattle.fw_flow.specs.Dataflow.{bounds_of, node_frontier, node_ids};
ghost use Rattle.fw_model.specs.Machine.{no_stamps, family_of, AreCanonical};
ghost use Rattle.fw_progress.specs.Counts.{is_in, AreCounts, AreNodes};
ghost use Rattle.fw_progress.specs.Start.{AreLargest, AreOfNothing, HasFallen, IsShrunk};

use crate::counts::Counts;
use crate::tally::Tally;
use crate::target::target;
use crate::worklist::Worklist;
use fw_flow::laws::flow_is_well_formed;
use fw_flow::{Flow, NodeId, SentTable};
use fw_frontier::Front;
use fw_lines::Batches;
use std::alloc::{AllocError, Global};

/// So many tallies of nothing. The error is want of memory.
fn none_each(alloc: Global, count: usize) -> Result<Vec<Tally>, AllocError>
    ensures one_each { IfOk result (λ tallies. length tallies.items ≡ count) }
    ensures none { IfOk result (λ tallies. AllByRecursion (λ tally. tally ≡ []) tallies.items) }
{
    let mut tallies = Vec::new(alloc);
    'each: while tallies.len() < count {
        tallies.push(Tally::new(alloc))?;
    }
    Ok(tallies)
}

/// So many tables of nothing. The error is want of memory.
fn no_tables(alloc: Global, count: usize) -> Result<Vec<SentTable>, AllocError>
    ensures one_each { IfOk result (λ tables. length tables.items ≡ count) }
    ensures none { IfOk result (λ tables. AllByRecursion (λ table. table ≡ []) tables.items) }
{
    let mut tables = Vec::new(alloc);
    'each: while tables.len() < count {
        tables.push(SentTable::new(alloc))?;
    }
    Ok(tables)
}

/// How many batches each node has. The error is want of memory.
fn batches_each(alloc: Global, flow: &Flow, batches: &Batches) -> Result<Vec<u64>, AllocError>
    ensures one_each { IfOk result (λ counts. length counts.items ≡ length flow.now.nodes) }
    ensures each { IfOk result (λ counts. (p : ℕ) → p < length flow.now.nodes
        → slice_index_or counts.items p 0 ≡ length (batches_at batches.now p)) }
{
    let mut counts = Vec::new(alloc);
    for place in 0..flow.nodes() {
        counts.push(batches.count(place as u32) as u64)?;
    }
    Ok(counts)
}

/// The counts of no event. The error is want of memory.
pub(crate) fn none(alloc: Global, flow: &Flow, batches: &Batches) -> Result<Counts, AllocError>
    ensures { IfOk result (AreOfNothing flow.now batches.now) }
{
    let nodes = flow.nodes();
    Ok(Counts {
        pending: none_each(alloc, flow.edges())?,
        owed: none_each(alloc, nodes)?,
        batches: batches_each(alloc, flow, batches)?,
        injected: vec![in alloc; 0; nodes]?,
        sent: no_tables(alloc, nodes)?,
    })
}

/// For each node the frontier without stamps. The error is want of memory.
pub(crate) fn no_stamps_each(alloc: Global, flow: &Flow) -> Result<Vec<Front>, AllocError>
    ensures { IfOk result (λ fronts. fronts.items ≡ map (λ p. no_stamps (bounds_of flow.now p)) (node_ids flow.now)) }
{
    let mut fronts = Vec::new(alloc);
    for place in 0..flow.nodes() {
        fronts.push(Front::empty(alloc, &flow.domain(NodeId::at(place as u32)))?)?;
    }
    Ok(fronts)
}

/// For each node all stamps. The error is want of memory.
fn all_each(alloc: Global, flow: &Flow) -> Result<Vec<Front>, AllocError>
    ensures one_each { IfOk result (λ fronts. length fronts.items ≡ length flow.now.nodes) }
    ensures all { IfOk result (λ fronts. AllByRecursion (λ front. front ≡ []) fronts.items) }
{
    let count = flow.nodes();
    let mut fronts = Vec::new(alloc);
    'each: while fronts.len() < count {
        fronts.push(Front::all(alloc))?;
    }
    Ok(fronts)
}

/// All nodes wait. The error is want of memory.
fn all_wait(alloc: Global, flow: &Flow) -> Result<Worklist, AllocError>
    ensures each { IfOk result (λ work. (p : ℕ) → p < length flow.now.nodes → is_in work p ≡ true) }
    ensures nodes { IfOk result (λ work. AreNodes flow.now work) }
{
    let mut work = Worklist::new(alloc);
    for place in 0..flow.nodes() {
        work.put(NodeId::at(place as u32))?;
    }
    Ok(work)
}

/// Whether the frontier of a node lies within another one.
fn lies_within(flow: &Flow, fronts: &[Front], node: NodeId, front: &Front) -> bool
    requires there { node < length flow.now.nodes }
    requires one_each { length fronts.now ≡ length flow.now.nodes }
    requires front { IsCanonical (bounds_of flow.now node) front.now }
    ensures { IsTrue result ↔ Within (family_of flow.now fronts.now node) (node_frontier flow.now node front.now) }
{
    let _ = flow;
    fronts[node.place() as usize].subset(front)
}

/// Gives a node a smaller frontier, and the receivers of its out-edges wait. The error is want of memory.
fn shrink(
    flow: &Flow,
    fronts: &mut Vec<Front>,
    work: &mut Worklist,
    node: NodeId,
    front: Front,
) -> Result<(), AllocError>
    requires there { node < length fronts.old.items }
    ensures { IfOk result (λ u. IsShrunk flow.now node front fronts.old.items fronts.new.items work.old work.new) }
{
    fronts[node.place() as usize] = front;
    work.put_receivers(flow, node)
}

/// If a node has more than it can have by the others, it gets what it can have, and the receivers of its out-edges wait. The
/// error is want of memory.
fn lower(
    alloc: Global,
    flow: &Flow,
    counts: &Counts,
    fronts: &mut Vec<Front>,
    work: &mut Worklist,
    node: NodeId,
) -> Result<(), AllocError>
    requires there { node < length flow.now.nodes }
    requires counts { AreCounts flow.now counts.now }
    requires one_each { length fronts.old.items ≡ length flow.now.nodes }
    requires canonical { AreCanonical flow.now fronts.old.items }
    ensures { IfOk result (λ u. HasFallen flow.now counts.now node fronts.old.items fronts.new.items work.old work.new) }
{
    let front = target(alloc, flow, counts, fronts, node)?;
    if lies_within(flow, fronts, node, &front) {
        return Ok(());
    }
    shrink(flow, fronts, work, node, front)
}

/// The largest frontiers by the counts: it begins with all stamps at each node, and takes away what its node can not have,
/// until nothing is taken. A node is looked at once, and again where one that sends to it lost something. The error is want
/// of memory.
pub(crate) fn largest(alloc: Global, flow: &Flow, counts: &Counts) -> Result<Vec<Front>, AllocError>
    requires { AreCounts flow.now counts.now }
    ensures { IfOk result (λ fronts. AreLargest flow.now counts.now fronts.items) }
{
    flow_is_well_formed(flow);
    let mut fronts = all_each(alloc, flow)?;
    let mut work = all_wait(alloc, flow)?;
    'take: while let Some(node) = work.take() {
        lower(alloc, flow, counts, &mut fronts, &mut work, node)?;
    }
    Ok(fronts)
}
