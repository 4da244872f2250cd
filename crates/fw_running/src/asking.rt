//! A write is asked.
ghost use Rattle.std.specs.Prelude.{◌≡◌, OnOk, OnErr};
ghost use Rattle.fw_running.specs.Drawn.{DrawsAtMost};
ghost use Rattle.fw_running.specs.Faults.{faults_after_step};
ghost use Rattle.fw_keep.specs.Entry.{IsBased};
ghost use Rattle.fw_keep.specs.Stored.{IsStored};
ghost use Rattle.fw_running.specs.Steps.{IsUndamaged};
ghost use Rattle.fw_running.specs.Logging.{ChangesKeep, IsAsked, IsAskRefused};

use crate::{EngineFault, Running};
use fw_flow::Stamps;
use fw_outside::Store;
use fw_record::Record;

/// How many ids there are for writes.
const IDS: u64 = 1 << 63;

impl Running {
    /// A write is asked; one of changes on the entry of its base, which must be there (`Keep::ask`). That no id is left is
    /// answered as want of memory. It draws one id at most.
    #[tactic(auto, using(crate::proofs::AnswerLaws::refused_none))]
    pub fn ask<K: Store>(
        &mut self,
        what: &Record,
        stamps: Stamps,
        store: &mut K,
    ) -> Result<(), EngineFault>
        requires stored { IsStored self.old.parts.keep (K.view store.old).records }
        requires based { IsBased self.old.parts.keep.entries what.now }
        ensures others { ChangesKeep self.old self.new }
        ensures stored { IsStored self.new.parts.keep (K.view store.new).records }
        ensures asked { OnOk result (IsAsked what.now stamps self.old.parts.keep.entries self.new.parts.keep.entries
            (K.view store.old).records (K.view store.new).records) }
        ensures stays { OnErr result (IsAskRefused self.old.parts.keep self.new.parts.keep
            (K.view store.old).records (K.view store.new).records) }
        ensures given { (K.view store.new).given ≡ (K.view store.old).given }
        ensures faults { (K.view store.new).faults ≡ faults_after_step result (K.view store.old).faults }
        ensures undamaged { IsUndamaged result }
        ensures draws { DrawsAtMost 1 self.old.parts.keep self.new.parts.keep (K.view store.old).records (K.view store.new).records }
    {
        if self.parts.keep.next_id() >= IDS {
            return Err(EngineFault::NoMemory);
        }
        self.parts.keep.ask(store, what, stamps)?;
        Ok(())
    }
}
