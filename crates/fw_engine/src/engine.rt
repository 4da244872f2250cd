//! The engine.
ghost use Rattle.std.specs.Prelude.{◌≡◌, Option, false, slice_index_or, IfOk};
ghost use Rattle.fw_flow.specs.Dataflow.{system_of};
ghost use Rattle.fw_flow.specs.WellFormed.{IsWellFormedSystem};
ghost use Rattle.fw_model.specs.Machine.{first_state};
ghost use Rattle.fw_keep.specs.Catalogue.{AreAscending, ids_of};
ghost use Rattle.fw_keep.specs.Stored.{Records, IsEmptyStore, IsStored};
ghost use Rattle.fw_running.specs.Faults as faults;
ghost use Rattle.fw_running.specs.Shaped.{IsShaped};

use crate::auto::{take_first, take_first_within};
use crate::taking::take;
use fw_flow::laws::flow_is_well_formed;
use fw_flow::{Flow, Step};
use fw_lines::Batches;
use fw_outside::Store;
use fw_running::{EngineFault, Running, Stepped};
use std::alloc::{AllocError, Global};

/// An engine that keeps no list of events. What nodes write is in a store that is lent to each step: always the same one, which
/// at first holds no record. Contracts see what it keeps, and relate it to states of the machine (`Stands`).
#[derive(Drop)]
pub struct Engine {
    pub(crate) running: Running,
    pub(crate) refused: bool,
    // What it keeps has its shape, unless memory was refused.
    ghost shaped: { ∥ (refused ≡ false → IsShaped running) ∥₁ },
}

impl Engine {
    ghost use Rattle.fw_engine.specs.Engine.{flow_of, keep_of, no_writes, was_refused, StandsFor, EngineAnswers, FirstAnswers, WithinAnswers};

    /// An engine to which nothing has happened. The error is want of memory.
    pub fn new(alloc: Global, flow: Flow, batches: &Batches) -> Result<Self, AllocError>
        requires { IsWellFormedSystem (system_of flow batches.now) }
        ensures stands { (records : Option Records) → let sys = system_of flow batches.now in
            IfOk result (λ engine. StandsFor sys engine records (first_state sys)) }
        ensures stored { (records : Option Records) → IsEmptyStore records → IfOk result (λ engine. IsStored (keep_of engine) records) }
        ensures flow { IfOk result (λ engine. flow_of engine ≡ flow) }
        ensures writes { IfOk result (λ engine. keep_of engine ≡ no_writes) }
        ensures told { IfOk result (λ engine. was_refused engine ≡ false) }
        ensures in_order { IfOk result (λ engine. AreAscending (ids_of (keep_of engine).entries)) }
    {
        let running = Running::new(alloc, flow, batches)?;
        ids_ascend(&running);
        Ok(Engine {
            running,
            refused: false,
        })
    }

    /// The flow that it runs.
    pub fn flow(&self) -> &Flow
        ensures { result.now ≡ flow_of self.now }
    {
        &self.running.flow
    }

    /// Takes a step, and tells what it shows: Idle exactly where it is not enabled, and then it stands where it stood, and the
    /// store is as it was, but that a collection sweeps what waits.
    ///
    /// # Errors
    ///
    /// `StoreFault` exactly where the store fails, in a step that is enabled or in a collection; only a step that asks a write, a
    /// recovery and a collection call it. The engine stands where it stood, but after a collection: what is given up is gone,
    /// and its bytes wait for the next collection, which sweeps also where it is idle. `Damaged` where the bytes that the store
    /// gives to a recovery spell no record of a write; the engine stands where it stood. `NoMemory` where memory is refused,
    /// now or earlier.
    pub fn step<K: Store>(&mut self, step: &Step, store: &mut K) -> Result<Stepped, EngineFault>
        requires stored { IsStored (keep_of self.old) (K.view store.old).records }
        ensures { EngineAnswers K.view self.old store.old step.now result self.new store.new }
    {
        ids_ascend(&self.running);
        if self.refused {
            return Err(EngineFault::NoMemory);
        }
        flow_is_well_formed(&self.running.flow);
        let stepped = take(&mut self.running, step, store);
        ids_ascend(&self.running);
        self.refused = is_refusal(&stepped);
        stepped
    }

    /// Takes the first step that is enabled: the oldest write is acknowledged; a message is delivered, edge by edge; a node
    /// is notified, node by node; what is complete is settled; an output acknowledges; an input injects. Idle exactly where
    /// none of these is enabled, and then it stands where it stood, and the store is as it was. The errors are those of `step`;
    /// no record is damaged.
    pub fn auto_step<K: Store>(&mut self, store: &mut K) -> Result<Stepped, EngineFault>
        requires stored { IsStored (keep_of self.old) (K.view store.old).records }
        ensures { FirstAnswers K.view self.old store.old result self.new store.new }
    {
        ids_ascend(&self.running);
        if self.refused {
            return Err(EngineFault::NoMemory);
        }
        flow_is_well_formed(&self.running.flow);
        let stepped = take_first(&mut self.running, store);
        ids_ascend(&self.running);
        self.refused = is_refusal(&stepped);
        stepped
    }

    /// The same where no input injects more batches than these, by its place: inputs that injected as many are passed over.
    pub fn auto_step_within<K: Store>(
        &mut self,
        came: &[u64],
        store: &mut K,
    ) -> Result<Stepped, EngineFault>
        requires stored { IsStored (keep_of self.old) (K.view store.old).records }
        ensures { WithinAnswers K.view self.old store.old (λ s. slice_index_or came.now s 0) result self.new store.new }
    {
        ids_ascend(&self.running);
        if self.refused {
            return Err(EngineFault::NoMemory);
        }
        flow_is_well_formed(&self.running.flow);
        let stepped = take_first_within(&mut self.running, came, store);
        ids_ascend(&self.running);
        self.refused = is_refusal(&stepped);
        stepped
    }
}

// The ids of what is written ascend.
pub(crate) fn ids_ascend(running: &Running)
    ensures { AreAscending (ids_of running.now.parts.keep.entries) }
{
    let _entries = running.parts.keep.entries();
}

// Whether memory was refused.
fn is_refusal(stepped: &Result<Stepped, EngineFault>) -> bool
    ensures { result ≡ faults.is_refusal stepped.now }
{
    matches!(stepped, Err(EngineFault::NoMemory))
}
