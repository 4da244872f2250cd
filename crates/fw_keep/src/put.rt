//! A record is put into a store, with its entry.
ghost use Rattle.std.specs.Prelude.{◌≡◌, ◌+◌, ◌≤◌, ◌<◌, ◌^◌, ◌++◌, [], ◌∷◌, false, vec_len, IfOk, OnOk, OnErr, option_map};
ghost use Rattle.std.specs.Vec.{vec_capacity};
ghost use Rattle.std.specs.List.{AllByRecursion};
ghost use Rattle.std.specs.FinMap as map;
ghost use Rattle.fw_outside.specs.Outside.{faults_after};
ghost use Rattle.fw_record.specs.Spelling.{spelling, FitsItsCounts};
ghost use Rattle.fw_keep.specs.Catalogue.{AreAscending, AreNoDeeperThanIds, ids_of};
ghost use Rattle.fw_keep.specs.Stored.{IsNoneUnder, IsFreed};
ghost use Rattle.fw_keep.specs.Entry as spec;
ghost use Rattle.fw_keep.specs.Entry.{asked_beside};

use crate::Entry;
use crate::copies::{base_of, node_of, written_of};
use crate::fetch::entry_at;
use crate::remove::remove_if_there;
use fw_flow::Stamps;
use fw_outside::{OutFault, Store};
use fw_record::{Record, encode};
use std::alloc::{AllocError, Global};

/// The depth of the entry of this id; 0 where there is none.
fn depth_at(entries: &[Entry], id: u64) -> u64
    requires ascending { AreAscending (ids_of entries.now) }
    ensures { result ≡ spec.depth_at id entries.now }
{
    match entry_at(entries, id) {
        Some(entry) => entry.depth,
        None => 0,
    }
}

/// How deep it is what stands on this base: one deeper than that; 0 where it has no base.
fn depth_on(entries: &[Entry], base: Option<u64>) -> u64
    requires ascending { AreAscending (ids_of entries.now) }
    requires depths { AreNoDeeperThanIds entries.now }
    requires few { AllByRecursion (λ e. e.id < 2 ^ 63) entries.now }
    ensures { result ≡ spec.depth_on base entries.now }
{
    match base {
        Some(id) => depth_at(entries, id) + 1,
        None => 0,
    }
}

/// The entry of a record under an id, beside these earlier ones. The error is want of memory.
pub(crate) fn entry_of(
    entries: &[Entry],
    id: u64,
    what: &Record,
    stamps: Stamps,
) -> Result<Entry, AllocError>
    requires ascending { AreAscending (ids_of entries.now) }
    requires depths { AreNoDeeperThanIds entries.now }
    requires few { AllByRecursion (λ e. e.id < 2 ^ 63) entries.now }
    ensures { IfOk result (λ e. e ≡ asked_beside entries.now id what.now stamps) }
{
    let base = base_of(what);
    Ok(Entry {
        id,
        node: node_of(what),
        written: written_of(what, stamps)?,
        base,
        depth: depth_on(entries, base),
        acknowledged: false,
    })
}

/// Adds an entry, and makes room for its id among those that wait. The error is want of memory.
pub(crate) fn add(
    entries: &mut Vec<Entry>,
    waiting: &mut Vec<u64>,
    entry: Entry,
) -> Result<(), AllocError>
    requires room { vec_len waiting.old + vec_len entries.old ≤ vec_capacity waiting.old }
    ensures added { OnOk result (entries.new.items ≡ entries.old.items ++ entry ∷ []) }
    ensures kept { OnErr result (entries.new.items ≡ entries.old.items) }
    ensures stays { waiting.new.items ≡ waiting.old.items }
    ensures room { vec_len waiting.new + vec_len entries.new ≤ vec_capacity waiting.new }
{
    waiting.reserve(entries.len() + 1)?;
    entries.push(entry)?;
    Ok(())
}

/// The id under which a record is put, and whether others may have put one there.
#[derive(Clone, Copy)]
pub(crate) struct Target {
    pub(crate) id: u64,
    pub(crate) shared: bool,
}

/// Puts the bytes of a record under an id; where others may have put one there, that one is removed before.
fn put_at<K: Store>(store: &mut K, target: Target, bytes: Vec<u8>) -> Result<(), OutFault>
    requires fresh { target.shared ≡ false → IsNoneUnder target.id (K.view store.old).records }
    ensures put { OnOk result ((K.view store.new).records
        ≡ option_map (λ held. map.insert held target.id bytes.items) (K.view store.old).records) }
    ensures freed { OnErr result (IsFreed target.shared target.id (K.view store.old).records (K.view store.new).records) }
    ensures given { (K.view store.new).given ≡ (K.view store.old).given }
    ensures faults { (K.view store.new).faults ≡ faults_after result (K.view store.old).faults }
{
    if target.shared {
        remove_if_there(store, target.id)?;
    }
    store.put_vec(target.id, bytes)
}

/// Puts a record under an id, with its entry.
pub(crate) fn put_new<K: Store>(
    alloc: Global,
    entries: &mut Vec<Entry>,
    waiting: &mut Vec<u64>,
    store: &mut K,
    target: Target,
    what: &Record,
    stamps: Stamps,
) -> Result<(), OutFault>
    requires room { vec_len waiting.old + vec_len entries.old ≤ vec_capacity waiting.old }
    requires ascending { AreAscending (ids_of entries.old.items) }
    requires depths { AreNoDeeperThanIds entries.old.items }
    requires few { AllByRecursion (λ e. e.id < 2 ^ 63) entries.old.items }
    requires fresh { target.shared ≡ false → IsNoneUnder target.id (K.view store.old).records }
    ensures added { OnOk result (entries.new.items ≡ entries.old.items ++ asked_beside entries.old.items target.id what.now stamps ∷ []) }
    ensures kept { OnErr result (entries.new.items ≡ entries.old.items) }
    ensures waiting { waiting.new.items ≡ waiting.old.items }
    ensures room { vec_len waiting.new + vec_len entries.new ≤ vec_capacity waiting.new }
    ensures put { OnOk result ((K.view store.new).records
        ≡ option_map (λ held. map.insert held target.id (spelling what.now)) (K.view store.old).records) }
    ensures counted { OnOk result (FitsItsCounts what.now) }
    ensures freed { OnErr result (IsFreed target.shared target.id (K.view store.old).records (K.view store.new).records) }
    ensures given { (K.view store.new).given ≡ (K.view store.old).given }
    ensures faults { (K.view store.new).faults ≡ faults_after result (K.view store.old).faults }
{
    let bytes = encode(alloc, what)?;
    let entry = entry_of(entries, target.id, what, stamps)?;
    add(entries, waiting, entry)?;
    let put = put_at(store, target, bytes);
    if put.is_err() {
        entries.pop();
    }
    put
}
