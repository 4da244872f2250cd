//! What an engine keeps.
ghost use Rattle.std.specs.Prelude.{◌≡◌, Option, [], false, replicate, slice_index_or, IfOk};
ghost use Rattle.fw_flow.specs.Dataflow.{system_of};
ghost use Rattle.fw_model.specs.Writes as writes;
ghost use Rattle.fw_keep.specs.Stored.{Records, IsEmptyStore, IsStored};
ghost use Rattle.fw_stands.specs.Acknowledging.{IsGreatestCount};
ghost use Rattle.fw_running.specs.Kept.{is_down};
ghost use Rattle.fw_running.specs.Starting.{IsFirst, no_stamps_each};

use crate::Ready;
use fw_flow::{Flow, Fronts, NodeId, Notices, Policy};
use fw_frontier::Front;
use fw_lines::Batches;
use fw_progress::{Progress, Traces};
use fw_rollback::Parts;
use std::alloc::{AllocError, Global};

/// What an engine keeps of a run.
#[derive(Drop)]
pub struct Running {
    pub alloc: Global,
    pub flow: Flow,
    /// The greatest number of batches that an input was given.
    pub epochs: u64,
    /// What fails, and the batches.
    pub parts: Parts,
    /// What is pending and owed, and up to where everything has come and is settled.
    pub progress: Progress,
    /// At which stamps the events of each node are, thinned inside its base, and how many messages they sent.
    pub traces: Traces,
    /// Whether each node is failed.
    pub failed: Vec<bool>,
    /// Of each failed node that logs each event the stamps of those that were lost in flight.
    pub lost: Vec<Notices>,
    /// Where something may be done.
    pub ready: Ready,
}

impl Running {
    /// Nothing has happened. The error is want of memory.
    pub fn new(alloc: Global, flow: Flow, batches: &Batches) -> Result<Self, AllocError>
        ensures first { IfOk result (IsFirst flow batches.now) }
        ensures stored { (records : Option Records) → IsEmptyStore records → IfOk result (λ running. IsStored running.parts.keep records) }
    {
        let low = Fronts::of(no_fronts(alloc, &flow)?);
        let parts = Parts::new(alloc, &flow, batches, low)?;
        let progress = Progress::new(alloc, &flow, batches)?;
        let traces = Traces::new(alloc, &flow)?;
        let failed = vec![in alloc; false; flow.nodes()]?;
        let lost = no_stamps(alloc, flow.nodes())?;
        let epochs = greatest_count(&flow, batches);
        let mut ready = Ready::none(alloc);
        ready.put_all(&flow)?;
        Ok(Running {
            alloc,
            flow,
            epochs,
            parts,
            progress,
            traces,
            failed,
            lost,
            ready,
        })
    }

    /// Whether a node is failed. Past the last node none is.
    pub fn is_failed(&self, node: NodeId) -> bool
        ensures { result ≡ is_down self.now node }
    {
        is_failed(&self.failed, node)
    }
}

/// Whether a node is failed. Past the last node none is.
pub fn is_failed(failed: &[bool], node: NodeId) -> bool
    ensures { result ≡ slice_index_or failed.now node false }
{
    failed.get(node.place() as usize).copied().unwrap_or(false)
}

/// Whether a node of the policy takes checkpoints.
pub fn takes_checkpoints(policy: Policy) -> bool
    ensures { result ≡ writes.takes_checkpoints policy }
{
    matches!(policy, Policy::Lazy | Policy::Logged | Policy::Eager)
}

/// For each node the frontier of its domain without stamps. The error is want of memory.
fn no_fronts(alloc: Global, flow: &Flow) -> Result<Vec<Front>, AllocError>
    ensures { IfOk result (λ fronts. fronts.items ≡ no_stamps_each flow.now) }
{
    let mut fronts = Vec::with_capacity(alloc, flow.nodes())?;
    for place in 0..flow.nodes() {
        fronts.push(Front::empty(alloc, &flow.domain(NodeId::at(place as u32)))?)?;
    }
    Ok(fronts)
}

/// So many lists of no stamps. The error is want of memory.
pub fn no_stamps(alloc: Global, count: usize) -> Result<Vec<Notices>, AllocError>
    ensures { IfOk result (λ lists. lists.items ≡ replicate count []) }
{
    let mut lists = Vec::with_capacity(alloc, count)?;
    for _place in 0..count {
        lists.push(Notices::of(Vec::new(alloc)))?;
    }
    Ok(lists)
}

/// The greatest number of batches that an input was given.
fn greatest_count(flow: &Flow, batches: &Batches) -> u64
    ensures { IsGreatestCount (system_of flow.now batches.now) result }
{
    let mut greatest = 0;
    for place in 0..flow.nodes() {
        greatest = greatest.max(batches.count(place as u32) as u64);
    }
    greatest
}
