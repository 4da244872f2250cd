//! What is pending and what is owed, as a root has it.
ghost use Rattle.std.specs.Prelude.{◌≡◌, ◌<◌, ◌^◌, ◌++◌, length, map, IfOk, OnOk};
ghost use Rattle.std.specs.List.Sorted.{IsStrictlySortedBy};
ghost use Rattle.std.specs.Map.{keys_of};
ghost use Rattle.fw_time.specs.Stamp.{stamp_cmp};
ghost use Rattle.fw_progress.specs.Counts.{AreCounts};
ghost use Rattle.fw_resume.specs.Counted.{pending_on, owed_to, ArePendingOf, AreOwedOf, AreSmall, HaveSmallCounts};

use fw_flow::laws::flow_is_well_formed;
use fw_flow::{EdgeId, Flow, NodeId};
use fw_frontier::Front;
use fw_progress::{Progress, Tally};
use fw_root::{OwedAt, PendingAt};
use fw_time::Stamp;
use std::alloc::{AllocError, Global};

/// What is pending, by edge and stamp. The error is want of memory.
pub(crate) fn pending_of(
    alloc: Global,
    flow: &Flow,
    progress: &Progress,
) -> Result<Vec<PendingAt>, AllocError>
    requires { AreCounts flow.now progress.now.counts }
    ensures all { IfOk result (λ all. ArePendingOf progress.now.counts (length flow.now.edges) all.items) }
    ensures small { IfOk result (λ all. AreSmall all.items) }
{
    flow_is_well_formed(flow);
    let mut all = Vec::new(alloc);
    for place in 0..flow.edges() {
        let edge = EdgeId::at(place as u32);
        add_pending(&mut all, edge, &listed(alloc, progress.pending(edge))?)?;
    }
    Ok(all)
}

/// What is pending on an edge, behind the others. The error is want of memory.
fn add_pending(
    all: &mut Vec<PendingAt>,
    edge: EdgeId,
    entries: &[(Stamp, u64)],
) -> Result<(), AllocError>
    ensures added { OnOk result (all.new.items ≡ all.old.items ++ map (pending_on edge) entries.now) }
    ensures small { OnOk result (HaveSmallCounts all.old.items → HaveSmallCounts all.new.items) }
{
    for (at, count) in entries {
        all.push(PendingAt {
            edge,
            at: at.copy(),
            count: *count,
        })?;
    }
    Ok(())
}

/// What is owed, by node and stamp. The error is want of memory.
pub(crate) fn owed_of(
    alloc: Global,
    flow: &Flow,
    progress: &Progress,
) -> Result<Vec<OwedAt>, AllocError>
    requires { AreCounts flow.now progress.now.counts }
    ensures all { IfOk result (λ all. AreOwedOf progress.now.counts (length flow.now.nodes) all.items) }
    ensures few { IfOk result (λ all. length all.items < 2 ^ 64) }
{
    let mut all = Vec::new(alloc);
    for place in 0..flow.nodes() {
        let node = NodeId::at(place as u32);
        add_owed(&mut all, node, &listed(alloc, progress.owed(node))?)?;
    }
    Ok(all)
}

/// What is owed to a node, behind what is owed to the others. The error is want of memory.
fn add_owed(all: &mut Vec<OwedAt>, node: NodeId, entries: &[(Stamp, u64)]) -> Result<(), AllocError>
    ensures { OnOk result (all.new.items ≡ all.old.items ++ map (owed_to node) entries.now) }
{
    for (at, _) in entries {
        all.push(OwedAt {
            node,
            at: at.copy(),
        })?;
    }
    Ok(())
}

/// The stamps of a tally with their numbers. They ascend. The error is want of memory.
fn listed(alloc: Global, tally: &Tally) -> Result<Vec<(Stamp, u64)>, AllocError>
    ensures all { IfOk result (λ entries. entries.items ≡ tally.now) }
    ensures in_order { IsStrictlySortedBy stamp_cmp (keys_of tally.now) }
{
    if tally.is_empty() {
        return Ok(Vec::new(alloc));
    }
    // It says that they ascend.
    let _first = tally.first_inside(&Front::all(alloc));
    tally.entries(alloc)
}
