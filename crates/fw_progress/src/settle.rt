//! What becomes settled.
ghost use Rattle.std.specs.Prelude.{◌≡◌, ◌<◌, ◌↔◌, ◌&&◌, not, false, length, slice_index_or, IsTrue, IfOk};
ghost use Rattle.fw_flow.specs.Dataflow.{bounds_of};
ghost use Rattle.fw_model.specs.Machine.{front_of, AreCanonical};
ghost use Rattle.fw_progress.specs.Settle as spec;
ghost use Rattle.fw_progress.specs.Settle.{HasMore, AreGrown, IsGrownAt, IsJoined};

use fw_flow::{Flow, NodeId};
use fw_frontier::Front;
use std::alloc::{AllocError, Global};

/// Whether a frontier has a stamp that another lacks.
pub(crate) fn has_more(front: &Front, other: &Front) -> bool
    ensures { result ≡ spec.has_more front.now other.now }
{
    other.outside().iter().any(|stamp| front.contains(stamp))
}

/// Whether that is so of the kept frontier and of what is settled at a place that is not failed.
fn has_more_at(failed: &[bool], kept: &[Front], settled: &[Front], place: usize) -> bool
    requires failed { place < length failed.now }
    requires kept { place < length kept.now }
    requires settled { place < length settled.now }
    ensures { result ≡ (not (slice_index_or failed.now place false)
        && spec.has_more (front_of kept.now place) (front_of settled.now place)) }
{
    !failed[place] && has_more(&kept[place], &settled[place])
}

/// Whether some node that is not failed keeps more than it settled.
pub(crate) fn any_has_more(failed: &[bool], kept: &[Front], settled: &[Front]) -> bool
    requires kept { length kept.now ≡ length failed.now }
    requires settled { length settled.now ≡ length failed.now }
    ensures { IsTrue result ↔ HasMore failed.now kept.now settled.now }
{
    for place in 0..failed.len() {
        if has_more_at(failed, kept, settled, place) {
            return true;
        }
    }
    false
}

/// What is settled of a node once it settles what it keeps, unless it is failed: what it keeps, where that holds what is settled.
/// The error is want of memory.
fn joined(
    flow: &Flow,
    node: NodeId,
    failed: bool,
    settled: &Front,
    kept: &Front,
) -> Result<Front, AllocError>
    ensures { IfOk result (λ both. IsJoined (bounds_of flow.now node) failed settled.now kept.now both) }
{
    if failed {
        settled.copy()
    } else if settled.subset(kept) {
        kept.copy()
    } else {
        settled.join(kept, &flow.domain(node))
    }
}

/// The same of each node. The error is want of memory.
pub(crate) fn grown(
    alloc: Global,
    flow: &Flow,
    failed: &[bool],
    settled: &[Front],
    kept: &[Front],
) -> Result<Vec<Front>, AllocError>
    requires failed { length failed.now ≡ length flow.now.nodes }
    requires settled { length settled.now ≡ length failed.now }
    requires kept { length kept.now ≡ length failed.now }
    ensures { IfOk result (λ both. AreGrown flow.now (length failed.now) failed.now settled.now kept.now both.items) }
{
    let mut both = Vec::with_capacity(alloc, failed.len())?;
    for place in 0..flow.nodes() {
        let node = NodeId::at(place as u32);
        both.push(joined(flow, node, failed[place], &settled[place], &kept[place])?)?;
    }
    Ok(both)
}

/// What a node settles of what it keeps; none where that is no more than it settled. The error is want of memory.
pub(crate) fn grown_at(
    flow: &Flow,
    settled: &[Front],
    kept: &[Front],
    node: NodeId,
) -> Result<Option<Front>, AllocError>
    requires settled_there { node < length settled.now }
    requires kept_there { node < length kept.now }
    requires settled { AreCanonical flow.now settled.now }
    requires kept { AreCanonical flow.now kept.now }
    ensures { IfOk result (IsGrownAt flow.now settled.now kept.now node) }
{
    let place = node.place() as usize;
    let before = &settled[place];
    let now = &kept[place];
    if !has_more(now, before) {
        return Ok(None);
    }
    let both = joined(flow, node, false, before, now)?;
    Ok(Some(both))
}
