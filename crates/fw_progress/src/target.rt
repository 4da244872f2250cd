//! How far a node's frontier can go, the others as they are.
ghost use Rattle.std.specs.Prelude.{◌≡◌, ◌<◌, length, true, IfOk};
ghost use Rattle.std.specs.Map.{keys_of};
ghost use Rattle.fw_time.specs.declared.stamp.Bounds.{Bounds as Domain};
ghost use Rattle.fw_frontier.specs.Frontier.{meet};
ghost use Rattle.fw_frontier.specs.Front.{frontier_of, IsCanonical, IsFrontOf};
ghost use Rattle.fw_flow.specs.Dataflow.{sender, receiver, bounds_of};
ghost use Rattle.fw_model.specs.Machine.{family_of, AreCanonical};
ghost use Rattle.fw_progress.specs.Counts as spec;
ghost use Rattle.fw_progress.specs.Counts.{AreCounts};
ghost use Rattle.fw_progress.specs.Tally.{IsTallyOf};

use crate::counts::Counts;
use fw_flow::laws::flow_is_well_formed;
use fw_flow::{EdgeId, Flow, Kind, NodeId};
use fw_frontier::Front;
use fw_time::Stamp;
use std::alloc::{AllocError, Global};

/// All stamps of a node; of an input those that it injected. The error is want of memory.
fn given(alloc: Global, flow: &Flow, counts: &Counts, node: NodeId) -> Result<Front, AllocError>
    requires there { node < length flow.now.nodes }
    requires counts { AreCounts flow.now counts.now }
    ensures { IfOk result (λ f. IsFrontOf (bounds_of flow.now node) f (spec.given_by flow.now counts.now node)) }
{
    let place = node.place() as usize;
    let injected = counts.injected[place];
    if !flow.kind(node).is_input() || injected == counts.batches[place] {
        return Ok(Front::all(alloc));
    }
    match u32::try_from(injected) {
        Ok(epoch) => Front::until(alloc, &[Stamp::new(&[epoch])]),
        Err(_) => Ok(Front::all(alloc)),
    }
}

/// Leaves of a frontier what is inside another one too. The error is want of memory.
pub(crate) fn narrow(left: &mut Front, other: Front) -> Result<(), AllocError>
    ensures { (bounds : Domain) → IsCanonical bounds left.old → IsCanonical bounds other
        → IfOk result (λ u. IsFrontOf bounds left.new (meet (frontier_of bounds left.old) (frontier_of bounds other))) }
{
    if other.outside().is_empty() {
        return Ok(());
    }
    if left.outside().is_empty() {
        *left = other;
        return Ok(());
    }
    *left = left.meet(&other)?;
    Ok(())
}

/// Up to where nothing is owed to a node and an input injected all. The error is want of memory.
fn clear(alloc: Global, flow: &Flow, counts: &Counts, node: NodeId) -> Result<Front, AllocError>
    requires there { node < length flow.now.nodes }
    requires counts { AreCounts flow.now counts.now }
    ensures { IfOk result (λ f. IsFrontOf (bounds_of flow.now node) f (spec.clear_by flow.now counts.now node)) }
{
    let mut left = given(alloc, flow, counts, node)?;
    let owed = &counts.owed[node.place() as usize];
    if owed.is_empty() {
        return Ok(left);
    }
    let paid = owed.until(alloc)?;
    narrow(&mut left, paid)?;
    Ok(left)
}

/// Leaves of a frontier what is before all that is pending on an edge. The error is want of memory.
fn narrow_to_pending(
    alloc: Global,
    counts: &Counts,
    edge: EdgeId,
    left: &mut Front,
) -> Result<(), AllocError>
    requires { edge < length counts.now.pending.items }
    ensures { (bounds : Domain) → IsCanonical bounds left.old → IsTallyOf bounds (spec.pending_of counts.now edge)
        → IfOk result (λ u. IsFrontOf bounds left.new
        (meet (frontier_of bounds left.old) (frontier_of bounds (keys_of (spec.pending_of counts.now edge))))) }
{
    let pending = &counts.pending[edge.place() as usize];
    if pending.is_empty() {
        return Ok(());
    }
    let quiet = pending.until(alloc)?;
    narrow(left, quiet)
}

/// Whether a node of the kind sends at other stamps than those of its events.
fn moves_stamps(kind: Kind) -> bool
    ensures { result ≡ spec.moves_stamps kind }
{
    matches!(
        kind,
        Kind::Enter(_) | Kind::Feedback(_) | Kind::Leave(_) | Kind::Sequence | Kind::Regroup(_)
    )
}

/// All that can come on an edge by the frontier of its sender. The error is want of memory.
pub(crate) fn projected(
    alloc: Global,
    flow: &Flow,
    counts: &Counts,
    fronts: &[Front],
    edge: EdgeId,
) -> Result<Front, AllocError>
    requires there { edge < length flow.now.edges }
    requires sender { sender flow.now edge < length flow.now.nodes }
    requires counts { AreCounts flow.now counts.now }
    requires one_each { length fronts.now ≡ length flow.now.nodes }
    requires canonical { AreCanonical flow.now fronts.now }
    ensures { IfOk result (λ g. IsFrontOf (bounds_of flow.now (receiver flow.now edge)) g
        (spec.projected_by flow.now counts.now edge (family_of flow.now fronts.now (sender flow.now edge)))) }
{
    flow_is_well_formed(flow);
    let src = flow.src(edge);
    let place = src.place() as usize;
    let front = &fronts[place];
    if !moves_stamps(flow.kind(src)) {
        return front.copy();
    }
    flow.phi(alloc, edge, front, &counts.sent[place])
}

/// Up to where nothing is pending on an edge, and all came that can come by the frontier of its sender. The error is want
/// of memory.
pub(crate) fn come(
    alloc: Global,
    flow: &Flow,
    counts: &Counts,
    fronts: &[Front],
    edge: EdgeId,
) -> Result<Front, AllocError>
    requires there { edge < length flow.now.edges }
    requires sender { sender flow.now edge < length flow.now.nodes }
    requires counts { AreCounts flow.now counts.now }
    requires one_each { length fronts.now ≡ length flow.now.nodes }
    requires canonical { AreCanonical flow.now fronts.now }
    ensures { IfOk result (λ g. IsFrontOf (bounds_of flow.now (receiver flow.now edge)) g
        (spec.come_by flow.now counts.now edge (family_of flow.now fronts.now (sender flow.now edge)))) }
{
    let mut come = projected(alloc, flow, counts, fronts, edge)?;
    narrow_to_pending(alloc, counts, edge, &mut come)?;
    Ok(come)
}

/// Up to where nothing is owed to a node and nothing is pending on its in-edges, and an input injected all. The error is
/// want of memory.
pub(crate) fn quiet(
    alloc: Global,
    flow: &Flow,
    counts: &Counts,
    node: NodeId,
) -> Result<Front, AllocError>
    requires there { node < length flow.now.nodes }
    requires counts { AreCounts flow.now counts.now }
    ensures { IfOk result (λ f. IsFrontOf (bounds_of flow.now node) f (spec.quiet_by flow.now counts.now node)) }
{
    let mut left = clear(alloc, flow, counts, node)?;
    let edges = flow.in_edges(node);
    for edge in edges {
        narrow_to_pending(alloc, counts, *edge, &mut left)?;
    }
    Ok(left)
}

/// The largest frontier that a node can have, the others as they are. The error is want of memory.
pub(crate) fn target(
    alloc: Global,
    flow: &Flow,
    counts: &Counts,
    fronts: &[Front],
    node: NodeId,
) -> Result<Front, AllocError>
    requires there { node < length flow.now.nodes }
    requires counts { AreCounts flow.now counts.now }
    requires one_each { length fronts.now ≡ length flow.now.nodes }
    requires canonical { AreCanonical flow.now fronts.now }
    ensures { IfOk result (λ f. IsFrontOf (bounds_of flow.now node) f
        (spec.target_by flow.now counts.now (family_of flow.now fronts.now) node)) }
{
    flow_is_well_formed(flow);
    let mut left = quiet(alloc, flow, counts, node)?;
    let edges = flow.in_edges(node);
    for edge in edges {
        let projected = projected(alloc, flow, counts, fronts, *edge)?;
        narrow(&mut left, projected)?;
    }
    Ok(left)
}
