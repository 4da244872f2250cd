//! Stores in memory that tell nothing of what they hold.
ghost use Rattle.std.specs.Prelude.{◌≡◌, None, option_map};

use crate::fault::one_more;
use crate::{Failed, OutFault, Store};
use std::alloc::Global;
use std::collections::BTreeMap;

/// Bytes that a store gives in place of those that it holds.
#[derive(Debug, Drop)]
pub struct FoulBytes {
    /// At which call of `get`, the first one being 1.
    pub call: u64,
    /// What that call gives.
    pub bytes: Vec<u8>,
}

/// The last record that a store gave.
#[derive(Debug, Drop)]
struct Given {
    id: u64,
    bytes: Vec<u8>,
}

/// A store in memory that tells nothing of its records, and gives other bytes than it holds at listed calls of `get`. It fails
/// where a record is put under an id that it holds, where one is removed that it does not hold, and where one is got that it
/// does not hold, at a call that is not listed.
#[derive(Debug, Drop)]
pub struct FoulStore {
    alloc: Global,
    records: BTreeMap<u64, Vec<u8>>,
    foul: Vec<FoulBytes>,
    gets: u64,
    faults: u64,
    given: Option<Given>,
}

impl FoulStore {
    /// A store with no record, which gives these bytes at the calls of `get` for which they are listed.
    pub fn new(alloc: Global, foul: Vec<FoulBytes>) -> Self
        ensures { ⟦<FoulStore as Store>⟧.view result ≡ record { records = None; given = None; faults = 0 } }
    {
        FoulStore {
            alloc,
            records: BTreeMap::new(alloc),
            foul,
            gets: 0,
            faults: 0,
            given: None,
        }
    }
}

impl Store for FoulStore {
    ghost view = { λ store. record {
      records = None;
      given = option_map (λ given. (given.id, given.bytes.items)) store.given;
      faults = store.faults;
    } };

    fn put(&mut self, id: u64, bytes: &[u8]) -> Result<(), OutFault> {
        if self.records.contains_key(&id) {
            self.faults = one_more(self.faults);
            return Err(OutFault::Failed);
        }
        let copy = bytes.to_vec(self.alloc)?;
        match self.records.insert(id, copy) {
            Ok(_) => Ok(()),
            Err(_) => Err(OutFault::NoMemory),
        }
    }

    fn get(&mut self, id: u64, into: &mut Vec<u8>) -> Result<(), OutFault> {
        into.clear();
        self.gets = one_more(self.gets);
        let Some(bytes) = bytes_at(&self.records, &self.foul, self.gets, id) else {
            self.faults = one_more(self.faults);
            return Err(OutFault::Failed);
        };
        let copy = bytes.to_vec(self.alloc)?;
        into.extend_from_slice(bytes)?;
        self.given = Some(Given { id, bytes: copy });
        Ok(())
    }

    fn has(&mut self, id: u64) -> Result<bool, Failed> {
        Ok(self.records.contains_key(&id))
    }

    fn remove(&mut self, id: u64) -> Result<(), OutFault> {
        if self.records.remove(&id).is_none() {
            self.faults = one_more(self.faults);
            return Err(OutFault::Failed);
        }
        Ok(())
    }

    fn faults(&self) -> u64 {
        self.faults
    }
}

// What is listed for a call of `get`; where nothing is, what is held under the id.
fn bytes_at<'a>(
    records: &'a BTreeMap<u64, Vec<u8>>,
    foul: &'a [FoulBytes],
    call: u64,
    id: u64,
) -> Option<&'a [u8]> {
    for listed in foul {
        if listed.call == call {
            return Some(&listed.bytes);
        }
    }
    Some(records.get(&id)?.as_slice())
}
