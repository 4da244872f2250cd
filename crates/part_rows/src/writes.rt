//! Calls of the catalogue of writes over a store that others use too, and which calls of the store they make.
ghost use Rattle.std.specs.Prelude.{◌≡◌, IsTrue};
ghost use Rattle.fw_keep.specs.Entry.{IsBased};

use crate::restored::{done, fault_of, is_based, say_fault, say_read};
use fw_flow::Flow;
use fw_keep::{Keep, no_stamps};
use fw_outside::{Failed, FoulStore, OutFault, Store};
use fw_record::Record;
use row_words::{Answers, NoAnswer, Row, bytes_named, mark, node_of, part, record_named, tell_row};
use std::alloc::{AllocError, Global};
use std::fmt::Write;

/// The most writes of a row.
const WRITES: u64 = 1_000_000;

/// A store that tells nothing, and which calls of it were made.
#[derive(Drop)]
struct CalledStore {
    store: FoulStore,
    calls: String,
    // There was no memory for a call's note.
    lost: bool,
}

impl CalledStore {
    /// Notes a call, with the id that it names.
    fn note(&mut self, call: &str, id: u64)
        ensures { self.new.store ≡ self.old.store }
    {
        self.lost |= note(&mut self.calls, call, id).is_err();
    }
}

/// Adds a call to those that were made.
fn note(calls: &mut String, call: &str, id: u64) -> Result<(), AllocError> {
    mark(", ", calls)?;
    write!(calls, "{call} {id}")?;
    Ok(())
}

impl Store for CalledStore {
    ghost view = { λ called. ⟦<FoulStore as Store>⟧.view called.store };

    fn put(&mut self, id: u64, bytes: &[u8]) -> Result<(), OutFault> {
        self.note("put", id);
        self.store.put(id, bytes)
    }

    fn get(&mut self, id: u64, into: &mut Vec<u8>) -> Result<(), OutFault> {
        self.note("get", id);
        self.store.get(id, into)
    }

    fn has(&mut self, id: u64) -> Result<bool, Failed> {
        self.note("has", id);
        self.store.has(id)
    }

    fn remove(&mut self, id: u64) -> Result<(), OutFault> {
        self.note("remove", id);
        self.store.remove(id)
    }

    fn faults(&self) -> u64 {
        self.store.faults()
    }
}

/// A catalogue, over a store that others use too.
#[derive(Drop)]
struct Shared<'a> {
    alloc: Global,
    flow: &'a Flow,
    lines: &'a str,
    keep: Keep,
    store: CalledStore,
}

/// Tells the answers to calls of a catalogue that has no write at first.
pub fn tell(alloc: Global, flow: &Flow, row: Row<'_>, told: &mut String) -> Result<(), AllocError> {
    let mut shared = Shared {
        alloc,
        flow,
        lines: row.lines,
        keep: Keep::new(alloc),
        store: CalledStore {
            store: FoulStore::new(alloc, Vec::new(alloc)),
            calls: String::new(alloc),
            lost: false,
        },
    };
    tell_row(alloc, row, &mut shared, told)
}

impl Answers for Shared<'_> {
    ghost stands = { λ _. Unit {0} };

    /// To `ask`, `sweep` and `read` the calls of the store that they make, and what came of them; to the other calls nothing.
    fn answer(&mut self, line: &str, said: &mut String) -> Result<(), NoAnswer> {
        let (word, rest) = part(line);
        match word {
            "loop" | "node" | "edge" | "record" => Err(NoAnswer::NotAsked),
            "share" => {
                self.keep.share();
                Ok(())
            }
            "put" => self.put(rest),
            "remove" => done(self.store.store.remove(rest.parse::<u64>()?)),
            "ask" => self.ask(rest, said),
            "persist" => {
                self.keep.persist_one();
                Ok(())
            }
            "withdraw" => {
                self.keep.withdraw(rest.parse::<u64>()?);
                Ok(())
            }
            "sweep" => self.sweep(said),
            "read" => self.read(rest, said),
            _ => Err(NoAnswer::NotSpelled),
        }
    }
}

impl Shared<'_> {
    /// Others put the bytes of a name under an id: `ID NAME`.
    fn put(&mut self, words: &str) -> Result<(), NoAnswer> {
        let (id, name) = part(words);
        let id = id.parse::<u64>()?;
        let bytes = bytes_named(self.alloc, self.lines, name)?;
        done(self.store.store.put_vec(id, bytes))
    }

    /// The write of the record of a name is asked.
    fn ask(&mut self, name: &str, said: &mut String) -> Result<(), NoAnswer> {
        let record = record_named(self.alloc, self.lines, name)?;
        self.ask_record(&record, said)
    }

    /// The write of a record is asked.
    fn ask_record(&mut self, record: &Record, said: &mut String) -> Result<(), NoAnswer> {
        if self.keep.next_id() > WRITES || !is_based(&self.keep, record) {
            return Err(NoAnswer::NotSpelled);
        }
        let asked = self
            .keep
            .ask(&mut self.store, record, no_stamps(self.alloc));
        self.say_calls(said)?;
        match asked {
            Ok(id) => {
                write!(said, "write {id}")?;
                Ok(())
            }
            Err(fault) => say_fault(&fault, said),
        }
    }

    /// What waits is swept.
    fn sweep(&mut self, said: &mut String) -> Result<(), NoAnswer> {
        let swept = self.keep.sweep(&mut self.store);
        self.say_calls(said)?;
        write!(said, "waiting {}", self.keep.waiting().len())?;
        match swept {
            Ok(()) => Ok(()),
            Err(fault) => Err(fault_of(fault)),
        }
    }

    /// The record of a write is read by its id, its node and its tag: `ID P TAG`.
    fn read(&mut self, words: &str, said: &mut String) -> Result<(), NoAnswer> {
        let (id, rest) = part(words);
        let (name, tag) = part(rest);
        let id = id.parse::<u64>()?;
        let node = node_of(self.flow, name)?;
        let tag = tag.parse::<u8>()?;
        let read = self
            .keep
            .read_named(self.flow, &mut self.store, id, node, tag);
        self.say_calls(said)?;
        say_read(self.alloc, &read, said)
    }

    /// Says the calls of the store that were made since this was asked last.
    fn say_calls(&mut self, said: &mut String) -> Result<(), NoAnswer> {
        if self.store.lost {
            return Err(NoAnswer::NoMemory);
        }
        said.push_str(&self.store.calls)?;
        said.push_str(" | ")?;
        self.store.calls.clear();
        Ok(())
    }
}
