//! A node's frontier grows.
ghost use Rattle.std.specs.Prelude.{◌≡◌, ◌<◌, false, length, IsTrue, IfSome, IfNone, IfOk};
ghost use Rattle.fw_frontier.specs.Frontier.{Within};
ghost use Rattle.fw_frontier.specs.Front.{IsCanonical, IsFrontOf};
ghost use Rattle.fw_flow.specs.Dataflow.{bounds_of, node_frontier};
ghost use Rattle.fw_model.specs.Machine.{family_of, AreCanonical};
ghost use Rattle.fw_progress.specs.Counts.{target_by, AreCounts};
ghost use Rattle.fw_progress.specs.Growths.{IsMore, IsNoMore, IsGrown, IsWidened};
ghost use Rattle.fw_progress.specs.Refresh.{IsTakenUp};

use crate::counts::Counts;
use crate::growth::{Growth, Growths};
use crate::leap::leap;
use crate::target::{narrow, projected, quiet};
use crate::worklist::Worklist;
use fw_flow::laws::flow_is_well_formed;
use fw_flow::{Flow, NodeId};
use fw_frontier::Front;
use std::alloc::{AllocError, Global};

/// Whether a frontier is a larger one than the node has so far.
pub(crate) fn is_more(flow: &Flow, fronts: &[Front], node: NodeId, front: &Front) -> bool
    requires there { node < length flow.now.nodes }
    requires one_each { length fronts.now ≡ length flow.now.nodes }
    requires canonical { AreCanonical flow.now fronts.now }
    requires front { IsCanonical (bounds_of flow.now node) front.now }
    ensures more { IsTrue result → IsMore flow.now fronts.now node front.now }
    ensures same { result ≡ false → Within (family_of flow.now fronts.now node) (node_frontier flow.now node front.now)
        → Within (node_frontier flow.now node front.now) (family_of flow.now fronts.now node) }
{
    let _ = flow;
    let kept = &fronts[node.place() as usize];
    !front.subset(kept) && kept.subset(front)
}

/// The largest frontier that a node can have, the others as they are, if that is larger than the one that it has. The error is
/// want of memory.
pub(crate) fn larger(
    alloc: Global,
    flow: &Flow,
    counts: &Counts,
    fronts: &[Front],
    node: NodeId,
) -> Result<Option<Front>, AllocError>
    requires there { node < length flow.now.nodes }
    requires counts { AreCounts flow.now counts.now }
    requires one_each { length fronts.now ≡ length flow.now.nodes }
    requires canonical { AreCanonical flow.now fronts.now }
    ensures most { IfOk result (λ larger. IfSome larger (λ front. IsFrontOf (bounds_of flow.now node) front
        (target_by flow.now counts.now (family_of flow.now fronts.now) node))) }
    ensures more { IfOk result (λ larger. IfSome larger (IsMore flow.now fronts.now node)) }
    ensures none { IfOk result (λ larger. IfNone larger (IsNoMore flow.now counts.now fronts.now node)) }
{
    flow_is_well_formed(flow);
    let kept = &fronts[node.place() as usize];
    let mut left = quiet(alloc, flow, counts, node)?;
    let edges = flow.in_edges(node);
    for edge in edges {
        if left.subset(kept) {
            return Ok(None);
        }
        let projected = projected(alloc, flow, counts, fronts, *edge)?;
        narrow(&mut left, projected)?;
    }
    if !is_more(flow, fronts, node, &left) {
        return Ok(None);
    }
    Ok(Some(left))
}

/// For how many growths there is room from the first one on: for more than a small flow has nodes, so that the list of a refresh does
/// not move as it gets longer. What is more takes room as in any list.
const ROOM: usize = 16;

/// Gives a node a larger frontier: it is listed, and the receivers of its out-edges wait. The error is want of memory.
pub(crate) fn grow(
    flow: &Flow,
    fronts: &mut Vec<Front>,
    work: &mut Worklist,
    growths: &mut Growths,
    node: NodeId,
    front: Front,
) -> Result<(), AllocError>
    requires there { node < length fronts.old.items }
    ensures { IfOk result (λ u. IsGrown flow.now node front fronts.old.items fronts.new.items work.old work.new
        growths.old.items growths.new.items) }
{
    let copy = front.copy()?;
    fronts[node.place() as usize] = front;
    growths.reserve(ROOM.saturating_sub(growths.len()))?;
    growths.push(Growth { node, front: copy })?;
    work.put_receivers(flow, node)
}

/// If a node can have a larger frontier, it gets the largest that it can have. The error is want of memory.
fn widen(
    alloc: Global,
    flow: &Flow,
    counts: &Counts,
    fronts: &mut Vec<Front>,
    work: &mut Worklist,
    growths: &mut Growths,
    node: NodeId,
) -> Result<(), AllocError>
    requires there { node < length flow.now.nodes }
    requires counts { AreCounts flow.now counts.now }
    requires one_each { length fronts.old.items ≡ length flow.now.nodes }
    requires canonical { AreCanonical flow.now fronts.old.items }
    ensures { IfOk result (λ u. IsWidened flow.now counts.now node fronts.old.items fronts.new.items work.old work.new
        growths.old.items growths.new.items) }
{
    flow_is_well_formed(flow);
    let Some(front) = larger(alloc, flow, counts, fronts, node)? else {
        return Ok(());
    };
    grow(flow, fronts, work, growths, node, front)
}

/// Takes up a node: it gets the largest frontier that it can have; where its loop climbs a counter at a time, each node of
/// the loop does at once. The error is want of memory.
pub(crate) fn take_up(
    alloc: Global,
    flow: &Flow,
    counts: &Counts,
    fronts: &mut Vec<Front>,
    work: &mut Worklist,
    growths: &mut Growths,
    node: NodeId,
) -> Result<(), AllocError>
    requires there { node < length flow.now.nodes }
    requires counts { AreCounts flow.now counts.now }
    requires one_each { length fronts.old.items ≡ length flow.now.nodes }
    requires canonical { AreCanonical flow.now fronts.old.items }
    ensures { IfOk result (λ u. IsTakenUp flow.now counts.now node fronts.old.items fronts.new.items work.old work.new
        growths.old.items growths.new.items) }
{
    leap(alloc, flow, counts, fronts, work, growths, node)?;
    widen(alloc, flow, counts, fronts, work, growths, node)
}
