//! What came to the sources of a session.
ghost use Rattle.std.specs.Prelude.{◌≡◌, ◌↔◌, ◌⊎◌, ◌+◌, ◌-◌, ◌^◌, ◌≤◌, ◌<◌, false, true, map, min, replicate, slice_set, IfOk, IsErr, IsErrOf, length};
ghost use Rattle.fw_flow.specs.Dataflow.{kind_of, is_input_kind, node_ids};

use crate::FeedFault;
use fw_flow::{Flow, NodeId};
use std::alloc::{AllocError, Global};

/// How many batches may come to a source: with the empty one that is its last while it is open there are 2^20.
const MOST: u64 = (1 << 20) - 1;

/// Of each node whether it is a source that is open, and how many batches came.
#[derive(Drop)]
pub struct Arrivals {
    /// Whether it is a source that is open.
    pub opened: Vec<bool>,
    /// How many batches came, with the empty one with which it was closed.
    pub came: Vec<u64>,
}

impl Arrivals {
    ghost use Rattle.fw_session.specs.Session.{is_open_in, came_in};

    /// Nothing came, and each input is open. The error is want of memory.
    pub(crate) fn none(alloc: Global, flow: &Flow) -> Result<Self, AllocError>
        ensures opened { IfOk result (λ arrivals. arrivals.opened.items ≡ map (λ p. is_input_kind (kind_of flow.now p)) (node_ids flow.now)) }
        ensures came { IfOk result (λ arrivals. arrivals.came.items ≡ replicate (length flow.now.nodes) 0) }
    {
        Ok(Arrivals {
            opened: inputs_of(alloc, flow)?,
            came: vec![in alloc; 0; flow.nodes()]?,
        })
    }

    /// Whether the node is a source that is open. Past the last node none is.
    pub fn is_open(&self, node: NodeId) -> bool
        ensures { result ≡ is_open_in self.now node }
    {
        self.opened
            .get(node.place() as usize)
            .copied()
            .unwrap_or(false)
    }

    /// How many batches came to the node, with the empty one with which it was closed.
    pub fn came(&self, node: NodeId) -> u64
        ensures { result ≡ came_in self.now node }
    {
        self.came.get(node.place() as usize).copied().unwrap_or(0)
    }

    /// The epoch of the next batch of a source: how many came. The errors are `Closed` and `Full`.
    pub fn next_epoch(&self, source: NodeId) -> Result<u64, FeedFault>
        ensures epoch { IfOk result (λ epoch. epoch ≡ came_in self.now source) }
        ensures room { IfOk result (λ epoch. epoch < 2 ^ 20 - 1) }
        ensures open { IfOk result (λ epoch. is_open_in self.now source ≡ true) }
        ensures closed { IsErrOf result (FeedFault.Closed source) ↔ is_open_in self.now source ≡ false }
        ensures full { IsErrOf result (FeedFault.Full source)
            ↔ (is_open_in self.now source ≡ true) × (2 ^ 20 - 1 ≤ came_in self.now source) }
        ensures only { IsErr result → IsErrOf result (FeedFault.Closed source) ⊎ IsErrOf result (FeedFault.Full source) }
        ensures memory { IsErrOf result FeedFault.NoMemory → ⊥ }
    {
        if !self.is_open(source) {
            return Err(FeedFault::Closed(source));
        }
        let epoch = self.came(source);
        if epoch >= MOST {
            return Err(FeedFault::Full(source));
        }
        Ok(epoch)
    }

    /// One batch more came to a node.
    pub fn count(&mut self, node: NodeId)
        ensures came { self.new.came.items ≡ slice_set self.old.came.items node (min (came_in self.old node + 1) (2 ^ 64 - 1)) }
        ensures opened { self.new.opened ≡ self.old.opened }
    {
        if let Some(count) = self.came.get_mut(node.place() as usize) {
            *count = count.saturating_add(1);
        }
    }

    /// The source is not open any more, and the batch of this epoch came to it. The error is `Closed`.
    pub fn close(&mut self, source: NodeId) -> Result<u64, FeedFault>
        ensures epoch { IfOk result (λ epoch. epoch ≡ came_in self.old source) }
        ensures open { IfOk result (λ epoch. is_open_in self.old source ≡ true) }
        ensures opened { IfOk result (λ epoch. self.new.opened.items ≡ slice_set self.old.opened.items source false) }
        ensures came { IfOk result (λ epoch.
            self.new.came.items ≡ slice_set self.old.came.items source (min (came_in self.old source + 1) (2 ^ 64 - 1))) }
        ensures only { IsErr result → IsErrOf result (FeedFault.Closed source) }
        ensures stays { IsErr result → self.new ≡ self.old }
        ensures closed { IsErrOf result (FeedFault.Closed source) ↔ is_open_in self.old source ≡ false }
    {
        if !self.is_open(source) {
            return Err(FeedFault::Closed(source));
        }
        let epoch = self.came(source);
        self.count(source);
        self.shut(source);
        Ok(epoch)
    }

    // The node is no source any more that is open.
    fn shut(&mut self, node: NodeId)
        ensures opened { self.new.opened.items ≡ slice_set self.old.opened.items node false }
        ensures came { self.new.came ≡ self.old.came }
    {
        if let Some(is_open) = self.opened.get_mut(node.place() as usize) {
            *is_open = false;
        }
    }
}

// Of each node whether it is an input. The error is want of memory.
fn inputs_of(alloc: Global, flow: &Flow) -> Result<Vec<bool>, AllocError>
    ensures { IfOk result (λ opened. opened.items ≡ map (λ p. is_input_kind (kind_of flow.now p)) (node_ids flow.now)) }
{
    let mut opened = Vec::with_capacity(alloc, flow.nodes())?;
    for place in 0..flow.nodes() {
        opened.push(flow.kind(NodeId::at(place as u32)).is_input())?;
    }
    Ok(opened)
}
