//! Batches for the inputs of a flow, each tested as it is added.
ghost use Rattle.std.specs.Prelude.{◌≡◌, [], OnOk, OnErr};
ghost use Rattle.fw_bag.specs.Keyed.{sorted_recs};
ghost use Rattle.fw_lines.specs.Batches.{AddsBatch, KeepsBatches};
ghost use Rattle.fw_flow.specs.BatchFaults as spec;
ghost use Rattle.fw_flow.specs.BatchFaults.{batch_fault, IsTakenOrFault};
ghost use Rattle.fw_flow.specs.Dataflow.{system_of};
ghost use Rattle.fw_flow.specs.WellFormed.{IsWellFormedSystem};

use crate::laws::flow_is_well_formed;
use crate::premises::BATCH_LIMIT;
use crate::{Flow, NodeId};
use fw_bag::Rec;
use fw_lines::Batches;
use std::alloc::{AllocError, Global};
use thiserror::Error;

/// Why a flow takes no batch of a node.
#[derive(Clone, Copy, Debug, PartialEq, Eq, Error)]
pub enum BatchFault {
    /// The flow has no node at this place.
    #[error("the flow has no node at place {0}")]
    NoNode(NodeId),
    /// The node at this place is no input: inputs alone have batches.
    #[error("the node at place {0} is no input")]
    NoInput(NodeId),
    /// The input at this place has 2^20 batches, and none may have more.
    #[error("the input at place {0} has 1048576 batches, the most that it may have")]
    TooMany(NodeId),
    /// Memory was refused.
    #[error("out of memory")]
    NoMemory,
}

impl From<AllocError> for BatchFault {
    ghost use Rattle.fw_flow.specs.declared.batches.BatchFault.TheVariants.{NoMemory};

    ghost from_gives = { λ _ fault. fault ≡ NoMemory };

    fn from(_error: AllocError) -> Self {
        BatchFault::NoMemory
    }
}

impl Flow {
    /// No batches yet of its inputs, in memory from `alloc`. What an engine asks of the flow and these holds.
    pub fn no_batches(&self, alloc: Global) -> Batches
        ensures none { result ≡ [] }
        ensures accepted { IsWellFormedSystem (system_of self.now result) }
    {
        flow_is_well_formed(self);
        Batches::new(alloc)
    }

    /// Adds the batch of the next epoch of an input, of these recs, in any order: exactly where the node is an input of the
    /// flow and has fewer than 2^20 batches. What an engine asks of the flow and the batches goes on holding.
    ///
    /// # Errors
    ///
    /// Which of these fails, with the node, or want of memory. Then each node keeps its batches.
    pub fn add_batch(
        &self,
        batches: &mut Batches,
        node: NodeId,
        recs: &[Rec],
    ) -> Result<(), BatchFault>
        ensures taken { IsTakenOrFault (batch_fault self.now batches.old node) result }
        ensures ok { OnOk result (AddsBatch batches.old batches.new node (sorted_recs recs.now)) }
        ensures err { OnErr result (KeepsBatches batches.old batches.new) }
        ensures accepted { IsWellFormedSystem (system_of self.now batches.old)
            → IsWellFormedSystem (system_of self.now batches.new) }
    {
        if let Some(fault) = self.batch_fault(batches, node) {
            return Err(fault);
        }
        batches.are_bags();
        batches.add(node.place(), recs)?;
        batches.are_bags();
        Ok(())
    }

    // What is wrong with one more batch of a node, if anything is.
    fn batch_fault(&self, batches: &Batches, node: NodeId) -> Option<BatchFault>
        ensures { result ≡ spec.batch_fault self.now batches.now node }
    {
        if node.place() as usize >= self.nodes() {
            return Some(BatchFault::NoNode(node));
        }
        if !self.kind(node).is_input() {
            return Some(BatchFault::NoInput(node));
        }
        if batches.count(node.place()) >= BATCH_LIMIT {
            return Some(BatchFault::TooMany(node));
        }
        None
    }
}
