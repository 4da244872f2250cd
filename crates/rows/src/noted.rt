//! A store whose records are noted, so that a row can show them.
ghost use Rattle.std.specs.Prelude.{◌≡◌};

use fw_outside::{Failed, OutFault, Store};
use row_words::show_digits;
use std::alloc::{AllocError, Global};
use std::collections::BTreeMap;
use std::fmt::Write;

/// A store, with a note of each record that it holds.
#[derive(Drop)]
pub struct NotedStore<K: Store> {
    alloc: Global,
    store: K,
    noted: BTreeMap<u64, Vec<u8>>,
}

impl<K: Store> NotedStore<K> {
    /// A store that holds no record.
    pub fn new(alloc: Global, store: K) -> Self
        ensures { ⟦<NotedStore<K> as Store>⟧.view result ≡ K.view store }
    {
        NotedStore {
            alloc,
            store,
            noted: BTreeMap::new(alloc),
        }
    }

    /// Tells each record: its id, and its bytes by two digits each.
    pub fn tell(&self, told: &mut String) -> Result<(), AllocError> {
        for (id, bytes) in &self.noted {
            write!(told, "store {id} ")?;
            show_digits(bytes, told)?;
            told.push('\n')?;
        }
        Ok(())
    }
}

impl<K: Store> Store for NotedStore<K> {
    ghost view = { λ noted. K.view noted.store };

    fn put(&mut self, id: u64, bytes: &[u8]) -> Result<(), OutFault> {
        let copy = bytes.to_vec(self.alloc)?;
        if self.noted.insert(id, copy).is_err() {
            return Err(OutFault::NoMemory);
        }
        let put = self.store.put(id, bytes);
        if put.is_err() {
            self.noted.remove(&id);
        }
        put
    }

    fn get(&mut self, id: u64, into: &mut Vec<u8>) -> Result<(), OutFault> {
        self.store.get(id, into)
    }

    fn has(&mut self, id: u64) -> Result<bool, Failed> {
        self.store.has(id)
    }

    fn remove(&mut self, id: u64) -> Result<(), OutFault> {
        self.store.remove(id)?;
        self.noted.remove(&id);
        Ok(())
    }

    fn faults(&self) -> u64 {
        self.store.faults()
    }
}
