//! What is settled of each node, its low watermark and its third frontier, as a root has them.
ghost use Rattle.std.specs.Prelude.{◌≡◌, ◌<◌, ◌^◌, true, length, IfOk};
ghost use Rattle.std.specs.List.{AllByRecursion};
ghost use Rattle.fw_time.specs.Stamp.{in_domain};
ghost use Rattle.fw_time.specs.declared.stamp.Bounds.{Bounds as Domain};
ghost use Rattle.fw_frontier.specs.Front.{IsCanonical, IsFrontOf, frontier_of};
ghost use Rattle.fw_model.specs.Machine.{front_of};
ghost use Rattle.fw_policy.specs.Offering.{below_all, unlogged_stamps};
ghost use Rattle.fw_running.specs.Kept.{lost_at};
ghost use Rattle.fw_running.specs.Shaped.{IsShaped};
ghost use Rattle.fw_resume.specs.Fronts.{AreFrontsTold, AreFrontsAt, IsThirdOf};

use fw_flow::{NodeId, Policy};
use fw_frontier::Front;
use fw_keep::Entry;
use fw_policy::{cut_below, unlogged};
use fw_root::NodeFronts;
use fw_running::Running;
use fw_time::Stamp;
use std::alloc::{AllocError, Global};

/// The frontiers of each node. The error is want of memory, or that one has more stamps than a root can say.
pub(crate) fn fronts_of(running: &Running) -> Result<Vec<NodeFronts>, AllocError>
    requires { IsShaped running.now }
    ensures { IfOk result (λ fronts. AreFrontsTold running.now (length running.now.flow.nodes) fronts.items) }
{
    let mut fronts = Vec::with_capacity(running.alloc, running.flow.nodes())?;
    for place in 0..running.flow.nodes() {
        fronts.push(fronts_at(running, NodeId::at(place as u32))?)?;
    }
    Ok(fronts)
}

/// Those of one node. The error is the same.
fn fronts_at(running: &Running, node: NodeId) -> Result<NodeFronts, AllocError>
    requires shaped { IsShaped running.now }
    requires there { node < length running.now.flow.nodes }
    ensures { IfOk result (AreFrontsAt running.now node) }
{
    let place = node.place() as usize;
    Ok(NodeFronts {
        settled: counted(&running.progress.settled()[place])?,
        low: counted(&running.parts.low.as_slice()[place])?,
        third: counted(&third_at(running, node)?)?,
    })
}

/// A copy, of a front whose stamps 32 bits can count. The error is want of memory, or that they cannot.
fn counted(front: &Front) -> Result<Front, AllocError>
    ensures copy { IfOk result (λ copy. copy ≡ front.now) }
    ensures few { IfOk result (λ copy. length copy < 2 ^ 32) }
{
    if front.outside().len() > u32::MAX as usize {
        return Err(AllocError);
    }
    front.copy()
}

/// Of a node that logs its events what is settled and not at or above one that is in flight or was lost; of another one no stamp. The
/// error is want of memory.
fn third_at(running: &Running, node: NodeId) -> Result<Front, AllocError>
    requires shaped { IsShaped running.now }
    requires there { node < length running.now.flow.nodes }
    ensures { IfOk result (IsThirdOf running.now node) }
{
    if let Policy::Full = running.flow.policy(node) {
        let lost = lost_by(running, node);
        let settled = settled_at(running, node);
        return below_unlogged(
            running.alloc,
            running.parts.keep.entries(),
            node,
            lost,
            settled,
        );
    }
    let front = Front::empty(running.alloc, &running.flow.domain(node))?;
    Ok(front)
}

/// At which stamps events of the node were lost.
fn lost_by(running: &Running, node: NodeId) -> &[Stamp]
    requires shaped { IsShaped running.now }
    requires there { node < length running.now.flow.nodes }
    ensures { result.now ≡ lost_at running.now node }
{
    running.lost[node.place() as usize].as_slice()
}

/// What is settled of the node.
fn settled_at(running: &Running, node: NodeId) -> &Front
    requires shaped { IsShaped running.now }
    requires there { node < length running.now.flow.nodes }
    ensures { result.now ≡ front_of running.now.progress.settled node }
{
    &running.progress.settled()[node.place() as usize]
}

/// What is inside, and not at or above an event of the node that is in flight or was lost. The error is want of memory.
fn below_unlogged(
    alloc: Global,
    entries: &[Entry],
    node: NodeId,
    lost: &[Stamp],
    settled: &Front,
) -> Result<Front, AllocError>
    ensures { (bounds : Domain) → IsCanonical bounds settled.now → AllByRecursion (λ s. in_domain bounds s ≡ true) (unlogged_stamps node entries.now lost.now)
        → IfOk result (λ f. IsFrontOf bounds f (below_all (unlogged_stamps node entries.now lost.now) (frontier_of bounds settled.now))) }
{
    let stamps = unlogged(alloc, entries, node, lost)?;
    cut_below(settled, &stamps)
}
