//! The record of an entry is read from the bytes that a store gave.
ghost use Rattle.std.specs.Prelude.{◌≡◌, length, is_some, true, IfOk, IfErr, IfSome};
ghost use Rattle.std.specs.Ordering.{nat_cmp};
ghost use Rattle.std.specs.List.{AllByRecursion, AllZip};
ghost use Rattle.std.specs.List.Sorted.{IsBinarySearchResult, IsSearchInRange};
ghost use Rattle.fw_keep.specs.Catalogue.{AreAscending, IsOnly, has_entry, ids_of};
ghost use Rattle.fw_outside.specs.Outside.{StayIfTold};
ghost use Rattle.fw_keep.specs.Faults.{keep_faults_after};
ghost use Rattle.fw_keep.specs.Joined.{IsFetchedAt, IsDamagedAt};
ghost use Rattle.fw_keep.specs.Stored.{IsStored, ReadsAs};

use crate::{Entry, Keep, KeepFault};
use fw_flow::Flow;
use fw_outside::Store;
use fw_record::{Record, RecordFault, decode};
use std::alloc::Global;

/// The entry of an id, if there is one.
pub(crate) fn entry_at(entries: &[Entry], id: u64) -> Option<&Entry>
    requires { AreAscending (ids_of entries.now) }
    ensures there { is_some result ≡ has_entry id entries.now }
    ensures only { IfSome result (λ e. IsOnly entries.now id e.now) }
{
    match place_of(entries, id) {
        Ok(place) => Some(&entries[place]),
        Err(_) => None,
    }
}

/// The place of the entry of an id, or where it would stand.
fn place_of(entries: &[Entry], id: u64) -> Result<usize, usize>
    ensures inside { IsSearchInRange result (length entries.now) }
    ensures place { IsBinarySearchResult (λ e. nat_cmp e.id id) entries.now result }
{
    entries.binary_search_by_key(&id, |entry| entry.id)
}

/// The record of an entry that the bytes spell.
pub(crate) fn read(
    alloc: Global,
    flow: &Flow,
    entry: &Entry,
    bytes: Vec<u8>,
) -> Result<Record, KeepFault>
    ensures { ReadsAs flow.now entry.now bytes.items result }
{
    match decode(alloc, &bytes) {
        Ok(what) if entry.has_record(flow, &what) => Ok(what),
        Err(RecordFault::NoMemory) => Err(KeepFault::NoMemory),
        _ => Err(KeepFault::Damaged {
            id: entry.id,
            bytes,
        }),
    }
}

/// The records of the writes of these ids, in order. The reading stops at the first whose bytes are wrong.
pub(crate) fn fetch_each<K: Store>(
    alloc: Global,
    keep: &Keep,
    flow: &Flow,
    store: &mut K,
    ids: &[u64],
) -> Result<Vec<Record>, KeepFault>
    requires there { AllByRecursion (λ id. has_entry id keep.now.entries ≡ true) ids.now }
    requires stored { IsStored keep.now (K.view store.old).records }
    ensures fetched { IfOk result (λ rs. AllZip (IsFetchedAt flow.now (K.view store.new).records keep.now.entries) ids.now rs.items) }
    ensures damaged { IfErr result (IsDamagedAt flow.now (K.view store.new).records (K.view store.new).given keep.now.entries ids.now) }
    ensures stays { StayIfTold (K.view store.old).records (K.view store.new).records }
    ensures faults { (K.view store.new).faults ≡ keep_faults_after result (K.view store.old).faults }
{
    let mut records = Vec::new(alloc);
    for id in ids {
        records.push(keep.fetch_one(flow, store, *id)?)?;
    }
    Ok(records)
}
