//! An engine from whose steps a run can start again.
ghost use Rattle.std.specs.Prelude.{◌≡◌, Option, IfOk};
ghost use Rattle.fw_flow.specs.Dataflow.{Dataflow, System, system_of};
ghost use Rattle.fw_flow.specs.WellFormed.{IsWellFormedSystem};
ghost use Rattle.fw_keep.specs.Catalogue.{KeepState};
ghost use Rattle.fw_keep.specs.Stored.{Records};
ghost use Rattle.fw_model.specs.Machine.{Machine, first_state};
ghost use Rattle.fw_root.specs.Sound.{IsRootFor};
ghost use Rattle.fw_hold.specs.Engine.{EntriesAreThere, StepsHeld, StepsFirstHeld, SweepsHeld, IsRootIn, ResumesHeld, StandsOverOthers};
ghost use Rattle.fw_hold.specs.Found.{HasNamed};

use fw_flow::{Flow, Step};
use fw_lines::Batches;
use fw_outside::Store;
use fw_root::{Mark, Root};
use fw_running::{EngineFault, Stepped};
use std::alloc::{AllocError, Global};

/// An engine that tells what it keeps beside its records, and can be made of that.
pub trait HeldEngine: Drop + Sized {
    /// For which states of a system's machine it stands over the records of its store.
    ghost stand: { System → Self → Option Records → Machine → Type 0 };

    /// Its catalogue of what is written.
    ghost keep_of: { Self → KeepState };

    /// The flow that it runs.
    ghost flow_of: { Self → Dataflow };

    /// An engine to which nothing has happened, over a store that may hold what others put. The error is want of memory.
    fn fresh(alloc: Global, flow: Flow, batches: &Batches) -> Result<Self, AllocError>
        requires { IsWellFormedSystem (system_of flow batches.now) }
        ensures stands { (records : Option Records) → let sys = system_of flow batches.now in
            IfOk result (λ engine. stand sys engine records (first_state sys)) }
        ensures stored { (records : Option Records) → IfOk result (λ engine. EntriesAreThere (keep_of engine) records) }
        ensures flow { IfOk result (λ engine. flow_of engine ≡ flow) }
        ensures next { IfOk result (λ engine. (keep_of engine).next ≡ 0) };

    /// An engine of what a root tells and the records that it names, with every node restored, and the cuts.
    ///
    /// # Errors
    ///
    /// `StoreFault` where the store fails. `Damaged` where the bytes that it gives under an id are no record of a write that the root
    /// names. `NoMemory` where memory is refused.
    fn resume<K: Store>(
        alloc: Global,
        flow: Flow,
        batches: &Batches,
        root: &Root,
        store: &mut K,
    ) -> Result<(Self, Stepped), EngineFault>
        requires well_formed { IsWellFormedSystem (system_of flow batches.now) }
        requires sound { IsRootFor flow batches.now root.now }
        requires there { HasNamed root.now (K.view store.old).records }
        ensures { ResumesHeld K.view stand keep_of flow_of flow batches.now root.now store.old result store.new };

    /// The flow that it runs.
    fn flow(&self) -> &Flow
        ensures { result.now ≡ flow_of self.now };

    /// Takes a step, and sweeps nothing.
    fn step_held<K: Store>(&mut self, step: &Step, store: &mut K) -> Result<Stepped, EngineFault>
        requires stored { EntriesAreThere (keep_of self.old) (K.view store.old).records }
        ensures { StepsHeld K.view stand keep_of flow_of self.old store.old step.now result self.new store.new };

    /// Takes the first step that is enabled, and sweeps nothing.
    fn auto_step_held<K: Store>(&mut self, store: &mut K) -> Result<Stepped, EngineFault>
        requires stored { EntriesAreThere (keep_of self.old) (K.view store.old).records }
        ensures { StepsFirstHeld K.view stand keep_of flow_of self.old store.old result self.new store.new };

    /// Removes the records that wait.
    fn sweep<K: Store>(&mut self, store: &mut K) -> Result<(), EngineFault>
        requires stored { EntriesAreThere (keep_of self.old) (K.view store.old).records }
        ensures { SweepsHeld K.view stand keep_of flow_of self.old store.old result self.new store.new };

    /// What others put into its store, or remove there, is nothing to it.
    fn stands_over_others(&self)
        ensures { StandsOverOthers stand keep_of self.now };

    /// What it keeps beside its records, with this mark. The error is want of memory.
    fn root(&self, mark: Mark) -> Result<Root, AllocError>
        ensures { IfOk result (IsRootIn stand keep_of flow_of self.now mark) };
}
