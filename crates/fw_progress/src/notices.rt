//! Which nodes may be notified.
ghost use Rattle.std.specs.Prelude.{◌≡◌, ◌<◌, ◌↔◌, ◌&&◌, length, true, IsTrue, IfOk};
ghost use Rattle.fw_time.specs.Stamp.{in_domain};
ghost use Rattle.fw_frontier.specs.Front.{IsFrontOf};
ghost use Rattle.fw_flow.specs.Dataflow.{bounds_of};
ghost use Rattle.fw_model.specs.Machine.{AreCanonical};
ghost use Rattle.fw_progress.specs.Counts.{AreCounts};
ghost use Rattle.fw_progress.specs.Notices as spec;
ghost use Rattle.fw_progress.specs.Notices.{CanNotify, IsFirstOwed};

use crate::counts::Counts;
use crate::target::{come, narrow};
use fw_flow::laws::flow_is_well_formed;
use fw_flow::{Flow, NodeId};
use fw_frontier::Front;
use fw_time::Stamp;
use std::alloc::{AllocError, Global};

/// Whether nothing is pending for a node up to a stamp, and all came that can come. The error is want of memory.
fn has_come(
    alloc: Global,
    flow: &Flow,
    counts: &Counts,
    fronts: &[Front],
    node: NodeId,
    at: &Stamp,
) -> Result<bool, AllocError>
    requires there { node < length flow.now.nodes }
    requires at { in_domain (bounds_of flow.now node) at.now ≡ true }
    requires counts { AreCounts flow.now counts.now }
    requires one_each { length fronts.now ≡ length flow.now.nodes }
    requires canonical { AreCanonical flow.now fronts.now }
    ensures { IfOk result (λ has. has ≡ spec.has_come flow.now counts.now fronts.now node at.now) }
{
    flow_is_well_formed(flow);
    let edges = flow.in_edges(node);
    for edge in edges {
        let come = come(alloc, flow, counts, fronts, *edge)?;
        if !come.contains(at) {
            return Ok(false);
        }
    }
    Ok(true)
}

/// Whether by the counts and these frontiers a node may be notified of a stamp. The error is want of memory.
pub(crate) fn may_notify(
    alloc: Global,
    flow: &Flow,
    counts: &Counts,
    fronts: &[Front],
    node: NodeId,
    at: &Stamp,
) -> Result<bool, AllocError>
    requires there { node < length flow.now.nodes }
    requires at { in_domain (bounds_of flow.now node) at.now ≡ true }
    requires counts { AreCounts flow.now counts.now }
    requires one_each { length fronts.now ≡ length flow.now.nodes }
    requires canonical { AreCanonical flow.now fronts.now }
    ensures { IfOk result (λ can. IsTrue can ↔ CanNotify flow.now counts.now fronts.now node at.now) }
{
    let owed = &counts.owed[node.place() as usize];
    if owed.times(at) == 0 || owed.has_lesser(at) {
        return Ok(false);
    }
    has_come(alloc, flow, counts, fronts, node, at)
}

/// Up to where on each in-edge of a node nothing is pending, and all came that can come. The error is want of memory.
fn arrived(
    alloc: Global,
    flow: &Flow,
    counts: &Counts,
    fronts: &[Front],
    node: NodeId,
) -> Result<Front, AllocError>
    requires there { node < length flow.now.nodes }
    requires counts { AreCounts flow.now counts.now }
    requires one_each { length fronts.now ≡ length flow.now.nodes }
    requires canonical { AreCanonical flow.now fronts.now }
    ensures { IfOk result (λ f. IsFrontOf (bounds_of flow.now node) f
        (λ t. in_domain (bounds_of flow.now node) t && spec.has_come flow.now counts.now fronts.now node t)) }
{
    flow_is_well_formed(flow);
    let mut left = Front::all(alloc);
    let edges = flow.in_edges(node);
    for edge in edges {
        let come = come(alloc, flow, counts, fronts, *edge)?;
        narrow(&mut left, come)?;
    }
    Ok(left)
}

/// The first stamp, by the coordinates from the outermost on, of which by the counts and these frontiers a node may be
/// notified. The error is want of memory.
pub(crate) fn first_notice(
    alloc: Global,
    flow: &Flow,
    counts: &Counts,
    fronts: &[Front],
    node: NodeId,
) -> Result<Option<Stamp>, AllocError>
    requires there { node < length flow.now.nodes }
    requires counts { AreCounts flow.now counts.now }
    requires one_each { length fronts.now ≡ length flow.now.nodes }
    requires canonical { AreCanonical flow.now fronts.now }
    ensures { IfOk result (IsFirstOwed flow.now counts.now fronts.now node) }
{
    let arrived = arrived(alloc, flow, counts, fronts, node)?;
    Ok(counts.owed[node.place() as usize].first_inside(&arrived))
}
