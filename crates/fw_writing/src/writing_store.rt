//! A store that notes what is put and removed.
ghost use Rattle.std.specs.Prelude.{◌≡◌, [], ◌∷◌, ◌++◌, Some, None, option_map, ◌&&◌, not, OnOk, OnErr, IsErrOf};
ghost use Rattle.std.specs.FinMap as map;
ghost use Rattle.fw_outside.specs.Memory.{record_map};
ghost use Rattle.fw_outside.specs.Outside.{one_more};
ghost use Rattle.fw_writing.specs.Writes.{AreDone, told_as, is_root, notes_before};

use crate::{KeptRecords, RecordWrite};
use fw_outside::{Failed, OutFault, Store};
use std::alloc::Global;
use std::collections::BTreeMap;

// The ids from here on are those of roots.
const FIRST_ROOT: u64 = u64::MAX - 1;

/// The last record that a store gave.
#[derive(Drop)]
struct Given {
    id: u64,
    bytes: Vec<u8>,
}

/// A store in memory that notes what is put and removed. Behind a root, what leads to the next one is noted anew. It begins with records
/// that were kept elsewhere; one that is not among them is a fault where it is asked for.
pub struct WritingStore {
    alloc: Global,
    records: BTreeMap<u64, Vec<u8>>,
    writes: Vec<RecordWrite>,
    // A root was put, and behind it nothing but other records were removed.
    rooted: bool,
    given: Option<Given>,
    faults: u64,
    // What is noted was done: done again it changes nothing.
    ghost done: { AreDone (record_map records.entries) (told_as writes.items) },
}

// Written out, so that it is one call wherever a store is let go.
impl Drop for WritingStore {
    fn drop(self) {
        let WritingStore {
            alloc: _,
            records,
            writes,
            rooted: _,
            given,
            faults: _,
        } = self;
        drop(records);
        drop(writes);
        drop(given);
    }
}

impl WritingStore {
    /// A store with these records, in which nothing is noted.
    pub fn over(kept: KeptRecords) -> Self
        ensures view { ⟦<WritingStore as Store>⟧.view result
            ≡ record { records = Some (record_map kept.records.entries); given = None; faults = 0 } }
        ensures none { result.writes.items ≡ [] }
    {
        let alloc = kept.alloc;
        WritingStore {
            alloc,
            records: kept.records,
            writes: Vec::new(alloc),
            rooted: false,
            given: None,
            faults: 0,
        }
    }

    /// What was put and removed on the way to the last root, that root, and what was removed behind it, in order; or what leads to the
    /// next one so far. Done again it changes nothing.
    pub fn writes(&self) -> &[RecordWrite]
        ensures noted { result.now ≡ self.now.writes.items }
        ensures done { AreDone (record_map self.now.records.entries) (told_as result.now) }
    {
        self.writes.as_slice()
    }

    // Where this is due, what leads to the next root is noted anew behind the last one.
    fn begin_turn(&mut self, due: bool)
        ensures noted { told_as self.new.writes.items ≡ notes_before (due && self.old.rooted) (told_as self.old.writes.items) }
        ensures rooted { self.new.rooted ≡ (not due && self.old.rooted) }
        ensures stays { (self.new.records.entries ≡ self.old.records.entries) × (self.new.given ≡ self.old.given) × (self.new.faults ≡ self.old.faults) }
    {
        if due && self.rooted {
            self.writes.clear();
            self.rooted = false;
        }
    }

    // Puts the bytes under the id and notes it. Where memory is refused nothing is put, and what was noted may be forgotten.
    fn note_put(&mut self, id: u64, bytes: Vec<u8>) -> Result<(), OutFault>
        ensures put { OnOk result (record_map self.new.records.entries ≡ map.insert (record_map self.old.records.entries) id bytes.items) }
        ensures noted { OnOk result (told_as self.new.writes.items
            ≡ notes_before self.old.rooted (told_as self.old.writes.items) ++ (id, Some bytes.items) ∷ []) }
        ensures rooted { OnOk result (self.new.rooted ≡ is_root id) }
        ensures refused { OnErr result (self.new.records.entries ≡ self.old.records.entries) }
        ensures no_fault { IsErrOf result OutFault.Failed → ⊥ }
        ensures stays { (self.new.given ≡ self.old.given) × (self.new.faults ≡ self.old.faults) }
    {
        let copy = bytes.as_slice().to_vec(self.alloc)?;
        self.begin_turn(true);
        self.writes.push(RecordWrite {
            id,
            bytes: Some(copy),
        })?;
        match self.records.insert(id, bytes) {
            Ok(_) => {
                self.rooted = is_root(id);
                Ok(())
            }
            Err(_) => {
                self.writes.clear();
                Err(OutFault::NoMemory)
            }
        }
    }

    // Takes the record of the id out and notes it; the same where memory is refused.
    fn note_removal(&mut self, id: u64) -> Result<(), OutFault>
        ensures removed { OnOk result (record_map self.new.records.entries ≡ map.remove (record_map self.old.records.entries) id) }
        ensures noted { OnOk result (told_as self.new.writes.items
            ≡ notes_before (is_root id && self.old.rooted) (told_as self.old.writes.items) ++ (id, None) ∷ []) }
        ensures rooted { OnOk result (self.new.rooted ≡ (not (is_root id) && self.old.rooted)) }
        ensures refused { OnErr result (self.new.records.entries ≡ self.old.records.entries) }
        ensures no_fault { IsErrOf result OutFault.Failed → ⊥ }
        ensures stays { (self.new.given ≡ self.old.given) × (self.new.faults ≡ self.old.faults) }
    {
        self.begin_turn(is_root(id));
        self.writes.push(RecordWrite { id, bytes: None })?;
        self.records.remove(&id);
        Ok(())
    }
}

// Whether the id is one of a root.
fn is_root(id: u64) -> bool
    ensures { result ≡ is_root id }
{
    id >= FIRST_ROOT
}

impl Store for WritingStore {
    ghost view = { λ store. record {
      records = Some (record_map store.records.entries);
      given = option_map (λ given. (given.id, given.bytes.items)) store.given;
      faults = store.faults;
    } };

    fn put(&mut self, id: u64, bytes: &[u8]) -> Result<(), OutFault> {
        let copy = bytes.to_vec(self.alloc)?;
        self.note_put(id, copy)
    }

    /// The bytes are copied once, for the note.
    fn put_vec(&mut self, id: u64, bytes: Vec<u8>) -> Result<(), OutFault> {
        self.note_put(id, bytes)
    }

    /// Whoever calls asks for records that are there. One that is not, as of records that no session told, is a fault all the same.
    fn get(&mut self, id: u64, into: &mut Vec<u8>) -> Result<(), OutFault> {
        into.clear();
        let Some(bytes) = self.records.get(&id) else {
            self.faults = one_more(self.faults);
            return Err(OutFault::Failed);
        };
        let copy = bytes.as_slice().to_vec(self.alloc)?;
        into.extend_from_slice(bytes)?;
        self.given = Some(Given { id, bytes: copy });
        Ok(())
    }

    fn has(&mut self, id: u64) -> Result<bool, Failed> {
        Ok(self.records.contains_key(&id))
    }

    fn remove(&mut self, id: u64) -> Result<(), OutFault> {
        self.note_removal(id)
    }

    fn faults(&self) -> u64 {
        self.faults
    }
}

// One more; at the end of its type it stays there.
fn one_more(count: u64) -> u64
    ensures { result ≡ one_more count }
{
    count.saturating_add(1)
}
