//! A store that stops at one of its calls, and goes on for the next start with what it holds.
ghost use Rattle.std.specs.Prelude.{◌≡◌, None, option_map};
ghost use Rattle.fw_outside.specs.Outside.{one_more};

use fw_outside::{Failed, FoulBytes, OutFault, Store};
use row_words::show_digits;
use std::alloc::{AllocError, Global};
use std::collections::BTreeMap;
use std::fmt::Write;

/// The last record that a store gave.
#[derive(Debug, Drop)]
struct Given {
    id: u64,
    bytes: Vec<u8>,
}

/// A store in memory that tells nothing of its records, and fails from one of its calls on; the next start may be given other bytes than it
/// holds. It fails too where a record is put under an id that it holds, and where one is got or removed that it does not hold.
#[derive(Debug, Drop)]
pub struct StoppedStore {
    alloc: Global,
    records: BTreeMap<u64, Vec<u8>>,
    stop: u64,
    calls: u64,
    foul: Vec<FoulBytes>,
    gets: u64,
    faults: u64,
    given: Option<Given>,
}

impl StoppedStore {
    /// A store with no record, which fails from its call of this number on, the first one being 1.
    pub fn new(alloc: Global, stop: u64) -> Self
        ensures { ⟦<StoppedStore as Store>⟧.view result ≡ record { records = None; given = None; faults = 0 } }
    {
        StoppedStore {
            alloc,
            records: BTreeMap::new(alloc),
            stop,
            calls: 0,
            foul: Vec::new(alloc),
            gets: 0,
            faults: 0,
            given: None,
        }
    }

    /// The store of the next start: it holds the same, and none of its calls fails so; at its `get` of these numbers, counted from 1, it
    /// gives these bytes.
    pub fn start_again(self, foul: Vec<FoulBytes>) -> Self {
        StoppedStore {
            alloc: self.alloc,
            records: self.records,
            stop: u64::MAX,
            calls: 0,
            foul,
            gets: 0,
            faults: 0,
            given: None,
        }
    }

    /// Tells each record: its id, and its bytes by two digits each.
    pub fn tell(&self, told: &mut String) -> Result<(), AllocError> {
        for (id, bytes) in &self.records {
            write!(told, "store {id} ")?;
            show_digits(bytes, told)?;
            told.push('\n')?;
        }
        Ok(())
    }
}

impl Store for StoppedStore {
    ghost view = { λ store. record {
      records = None;
      given = option_map (λ given. (given.id, given.bytes.items)) store.given;
      faults = store.faults;
    } };

    fn put(&mut self, id: u64, bytes: &[u8]) -> Result<(), OutFault> {
        self.calls = next_count(self.calls);
        if self.calls >= self.stop || self.records.contains_key(&id) {
            self.faults = next_count(self.faults);
            return Err(OutFault::Failed);
        }
        let copy = bytes.to_vec(self.alloc)?;
        match self.records.insert(id, copy) {
            Ok(_) => Ok(()),
            Err(_) => Err(OutFault::NoMemory),
        }
    }

    fn get(&mut self, id: u64, into: &mut Vec<u8>) -> Result<(), OutFault> {
        into.clear();
        self.calls = next_count(self.calls);
        if self.calls >= self.stop {
            self.faults = next_count(self.faults);
            return Err(OutFault::Failed);
        }
        self.gets = next_count(self.gets);
        let Some(bytes) = given_at(&self.records, &self.foul, self.gets, id) else {
            self.faults = next_count(self.faults);
            return Err(OutFault::Failed);
        };
        let copy = bytes.to_vec(self.alloc)?;
        into.extend_from_slice(bytes)?;
        self.given = Some(Given { id, bytes: copy });
        Ok(())
    }

    fn has(&mut self, id: u64) -> Result<bool, Failed> {
        self.calls = next_count(self.calls);
        if self.calls >= self.stop {
            self.faults = next_count(self.faults);
            return Err(Failed);
        }
        Ok(self.records.contains_key(&id))
    }

    fn remove(&mut self, id: u64) -> Result<(), OutFault> {
        self.calls = next_count(self.calls);
        if self.calls >= self.stop || self.records.remove(&id).is_none() {
            self.faults = next_count(self.faults);
            return Err(OutFault::Failed);
        }
        Ok(())
    }

    fn faults(&self) -> u64 {
        self.faults
    }
}

/// One more; a count at the end of its type stays there.
fn next_count(count: u64) -> u64
    ensures { result ≡ one_more count }
{
    count.saturating_add(1)
}

/// What is listed for a call of `get`; where nothing is, what is held under the id.
fn given_at<'a>(
    records: &'a BTreeMap<u64, Vec<u8>>,
    foul: &'a [FoulBytes],
    call: u64,
    id: u64,
) -> Option<&'a [u8]> {
    for listed in foul {
        if listed.call == call {
            return Some(&listed.bytes);
        }
    }
    Some(records.get(&id)?.as_slice())
}
