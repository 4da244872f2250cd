//! An engine whose store may hold what others put.
ghost use Rattle.std.specs.Prelude.{◌≡◌, ◌↔◌, Option, true, false, IsErrOf, IsTrue};
ghost use Rattle.std.specs.Option.{ForSome};
ghost use Rattle.fw_keep.specs.Catalogue.{IsCatalogue};
ghost use Rattle.fw_keep.specs.Stored.{Records, HasEntries, IsStored};
ghost use Rattle.fw_running.specs.Shaped.{IsShaped};
ghost use Rattle.fw_engine.specs.Engine.{running_of, flow_of, keep_of, was_refused, ForEachState, StandsFor, RaiseAnswers, SweepAnswers};

use crate::Engine;
use crate::engine::ids_ascend;
use fw_choose::raise_low;
use fw_flow::laws::flow_is_well_formed;
use fw_keep::KeepFault;
use fw_outside::Store;
use fw_running::{EngineFault, Running, Stepped};
use std::alloc::AllocError;

impl Engine {
    /// An engine of what one kept.
    pub fn of(running: Running) -> Self
        requires shaped { IsShaped running }
        ensures running { running_of result ≡ running }
        ensures told { was_refused result ≡ false }
    {
        Engine {
            running,
            refused: false,
        }
    }

    /// What it keeps.
    pub fn running(&self) -> &Running
        ensures running { result.now ≡ running_of self.now }
        ensures shaped { was_refused self.now ≡ false → IsShaped result.now }
    {
        flow_is_well_formed(&self.running.flow);
        &self.running
    }

    /// From now on its store may hold what others put: a step asks it whether an id is free before it puts or removes anything there.
    pub fn share(&mut self)
        ensures keep { keep_of self.new ≡ record (keep_of self.old) { shared = true } }
        ensures flow { flow_of self.new ≡ flow_of self.old }
        ensures told { was_refused self.new ≡ was_refused self.old }
        ensures stands { (records : Option Records) → ForEachState self.old records (λ sys state. StandsFor sys self.new records state) }
        ensures stored { (records : Option Records) → ForSome records (HasEntries (keep_of self.old)) → IsStored (keep_of self.new) records }
    {
        self.running.parts.keep.share();
    }

    /// The first part of a collection: the low watermark is taken anew, and what lies below it is given up. Its bytes stay in the store
    /// and wait for a sweep. Idle exactly where a collection is not enabled, and then it stands where it stood. The error is want of
    /// memory, now or in an earlier step.
    pub fn raise_low(&mut self) -> Result<Stepped, AllocError>
        ensures { RaiseAnswers self.old result self.new }
    {
        ids_ascend(&self.running);
        if self.refused {
            return Err(AllocError);
        }
        flow_is_well_formed(&self.running.flow);
        let stepped = raise_low(&mut self.running);
        ids_ascend(&self.running);
        self.refused = stepped.is_err();
        stepped
    }

    /// The second part of a collection: removes from the store the bytes that wait.
    ///
    /// # Errors
    ///
    /// `StoreFault` where the store fails, `NoMemory` where memory is refused, now or earlier. What was not removed waits for the next
    /// sweep.
    pub fn sweep<K: Store>(&mut self, store: &mut K) -> Result<(), EngineFault>
        requires stored { IsStored (keep_of self.old) (K.view store.old).records }
        ensures { SweepAnswers K.view self.old store.old result self.new store.new }
    {
        is_catalogue(&self.running);
        if self.refused {
            return Err(EngineFault::NoMemory);
        }
        let swept = self.running.parts.keep.sweep(store);
        self.refused = lacks_memory(&swept);
        Ok(swept?)
    }
}

// What is written is a catalogue.
fn is_catalogue(running: &Running)
    ensures { IsCatalogue running.now.parts.keep }
{
    let _entries = running.parts.keep.entries();
}

// Whether memory was refused to a sweep.
fn lacks_memory(swept: &Result<(), KeepFault>) -> bool
    ensures { IsTrue result ↔ IsErrOf swept.now KeepFault.NoMemory }
{
    matches!(swept, Err(KeepFault::NoMemory))
}
