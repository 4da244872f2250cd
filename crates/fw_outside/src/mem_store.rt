//! Stores in memory.
ghost use Rattle.std.specs.Prelude.{◌≡◌, Some, None, option_map};
ghost use Rattle.std.specs.FinMap as map;
ghost use Rattle.fw_outside.specs.Memory.{record_map};

use crate::fault::FaultPlan;
use crate::{Failed, OutFault, Store};
use std::alloc::Global;
use std::collections::BTreeMap;

/// The last record that a store gave.
#[derive(Debug, Drop)]
struct Given {
    id: u64,
    bytes: Vec<u8>,
}

/// A store in memory that tells its records and never fails; want of memory aside it does each call.
#[derive(Debug, Drop)]
pub struct FaultlessStore {
    alloc: Global,
    records: BTreeMap<u64, Vec<u8>>,
    given: Option<Given>,
}

impl FaultlessStore {
    /// A store with no record.
    pub fn new(alloc: Global) -> Self
        ensures { ⟦<FaultlessStore as Store>⟧.view result ≡ record { records = Some map.empty; given = None; faults = 0 } }
    {
        FaultlessStore {
            alloc,
            records: BTreeMap::new(alloc),
            given: None,
        }
    }
}

impl Store for FaultlessStore {
    ghost view = { λ store. record {
      records = Some (record_map store.records.entries);
      given = option_map (λ given. (given.id, given.bytes.items)) store.given;
      faults = 0;
    } };

    fn put(&mut self, id: u64, bytes: &[u8]) -> Result<(), OutFault> {
        let copy = bytes.to_vec(self.alloc)?;
        self.put_vec(id, copy)
    }

    /// The bytes are not copied.
    fn put_vec(&mut self, id: u64, bytes: Vec<u8>) -> Result<(), OutFault> {
        match self.records.insert(id, bytes) {
            Ok(_) => Ok(()),
            Err(_) => Err(OutFault::NoMemory),
        }
    }

    fn get(&mut self, id: u64, into: &mut Vec<u8>) -> Result<(), OutFault> {
        into.clear();
        let Some(bytes) = self.records.get(&id) else {
            unreachable!()
        };
        let copy = bytes.as_slice().to_vec(self.alloc)?;
        into.extend_from_slice(bytes)?;
        self.given = Some(Given { id, bytes: copy });
        Ok(())
    }

    fn has(&mut self, id: u64) -> Result<bool, Failed> {
        Ok(self.records.contains_key(&id))
    }

    fn remove(&mut self, id: u64) -> Result<(), OutFault> {
        self.records.remove(&id);
        Ok(())
    }

    fn faults(&self) -> u64 {
        0
    }
}

/// A store in memory that tells its records and may have a list of calls that are to fail, which change nothing.
#[derive(Debug, Drop)]
pub struct MemStore {
    store: FaultlessStore,
    plan: FaultPlan,
}

impl MemStore {
    /// A store with no record.
    pub fn new(alloc: Global) -> Self
        ensures { ⟦<MemStore as Store>⟧.view result ≡ record { records = Some map.empty; given = None; faults = 0 } }
    {
        MemStore::failing_at(alloc, Vec::new(alloc))
    }

    /// A store with no record, whose calls of these numbers, from 0, are to fail: those of `put`, `get`, `has` and `remove`,
    /// counted together.
    pub fn failing_at(alloc: Global, calls: Vec<u64>) -> Self
        ensures { ⟦<MemStore as Store>⟧.view result ≡ record { records = Some map.empty; given = None; faults = 0 } }
    {
        MemStore {
            store: FaultlessStore::new(alloc),
            plan: FaultPlan::new(calls),
        }
    }
}

impl Store for MemStore {
    ghost view = { λ store. record {
      records = Some (record_map store.store.records.entries);
      given = option_map (λ given. (given.id, given.bytes.items)) store.store.given;
      faults = store.plan.faults;
    } };

    fn put(&mut self, id: u64, bytes: &[u8]) -> Result<(), OutFault> {
        if self.plan.next_fails() {
            return Err(OutFault::Failed);
        }
        self.store.put(id, bytes)
    }

    /// The bytes are not copied.
    fn put_vec(&mut self, id: u64, bytes: Vec<u8>) -> Result<(), OutFault> {
        if self.plan.next_fails() {
            return Err(OutFault::Failed);
        }
        self.store.put_vec(id, bytes)
    }

    fn get(&mut self, id: u64, into: &mut Vec<u8>) -> Result<(), OutFault> {
        if self.plan.next_fails() {
            into.clear();
            return Err(OutFault::Failed);
        }
        self.store.get(id, into)
    }

    fn has(&mut self, id: u64) -> Result<bool, Failed> {
        if self.plan.next_fails() {
            return Err(Failed);
        }
        self.store.has(id)
    }

    fn remove(&mut self, id: u64) -> Result<(), OutFault> {
        if self.plan.next_fails() {
            return Err(OutFault::Failed);
        }
        self.store.remove(id)
    }

    fn faults(&self) -> u64 {
        self.plan.faults
    }
}
