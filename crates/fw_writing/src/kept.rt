//! Records that were kept elsewhere.
ghost use Rattle.std.specs.Prelude.{◌≡◌, Some, None, OnOk, OnErr};
ghost use Rattle.std.specs.FinMap as map;
ghost use Rattle.fw_outside.specs.Memory.{record_map};

use std::alloc::{AllocError, Global};
use std::collections::BTreeMap;

/// Records that were kept elsewhere, as they are told again, one after the other.
#[derive(Drop)]
pub struct KeptRecords {
    pub(crate) alloc: Global,
    pub(crate) records: BTreeMap<u64, Vec<u8>>,
}

impl KeptRecords {
    /// None.
    pub fn new(alloc: Global) -> Self
        ensures { record_map result.records.entries ≡ map.empty }
    {
        KeptRecords {
            alloc,
            records: BTreeMap::new(alloc),
        }
    }

    /// These bytes are under the id, in place of what was there. The error is want of memory: all is as it was.
    pub fn put(&mut self, id: u64, bytes: &[u8]) -> Result<(), AllocError>
        ensures put { OnOk result (record_map self.new.records.entries ≡ map.insert (record_map self.old.records.entries) id bytes.now) }
        ensures refused { OnErr result (self.new.records.entries ≡ self.old.records.entries) }
    {
        let copy = bytes.to_vec(self.alloc)?;
        match self.records.insert(id, copy) {
            Ok(_) => Ok(()),
            Err(_) => Err(AllocError),
        }
    }

    /// Nothing is under the id any more.
    pub fn remove(&mut self, id: u64)
        ensures { record_map self.new.records.entries ≡ map.remove (record_map self.old.records.entries) id }
    {
        self.records.remove(&id);
    }
}
