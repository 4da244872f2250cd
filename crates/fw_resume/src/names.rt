//! Which writes are kept, and which other ids were drawn, as a root names them.
ghost use Rattle.std.specs.Prelude.{◌≡◌, not, map, filter, IfOk};
ghost use Rattle.fw_keep.specs.declared.entry.Entry.{Entry as Write};
ghost use Rattle.fw_resume.specs.Names as spec;
ghost use Rattle.fw_resume.specs.Names.{tag_of_entry, AreOthers};

use fw_keep::{Entry, Keep, Written};
use fw_root::NamedWrite;
use std::alloc::{AllocError, Global};

/// The acknowledged writes, in order of asking. The error is want of memory.
pub(crate) fn names_of(alloc: Global, entries: &[Entry]) -> Result<Vec<NamedWrite>, AllocError>
    ensures { IfOk result (λ names. names.items ≡ map spec.name_of (filter (λ (e : Write). e.acknowledged) entries.now)) }
{
    let mut names = Vec::with_capacity(alloc, entries.len())?;
    for entry in entries {
        if entry.acknowledged {
            names.push(name_of(entry))?;
        }
    }
    Ok(names)
}

/// The name of a write.
fn name_of(entry: &Entry) -> NamedWrite
    ensures { result ≡ spec.name_of entry.now }
{
    NamedWrite {
        id: entry.id,
        node: entry.node.place(),
        tag: tag_of(entry),
    }
}

/// What kind of write it is: 1 a whole checkpoint, 2 an event, 3 changes.
fn tag_of(entry: &Entry) -> u8
    ensures { result ≡ tag_of_entry entry.now }
{
    match (&entry.written, entry.base) {
        (Written::Event(_), _) => 2,
        (Written::Checkpoint { .. }, None) => 1,
        (Written::Checkpoint { .. }, Some(_)) => 3,
    }
}

/// The ids of the writes in flight, and those that wait for a sweep, in ascending order. The error is want of memory.
pub(crate) fn others_of(alloc: Global, keep: &Keep) -> Result<Vec<u64>, AllocError>
    ensures { IfOk result (λ ids. AreOthers keep.now ids.items) }
{
    let mut ids = ids_in_flight(alloc, keep.entries())?;
    ids.extend_from_slice(keep.waiting())?;
    ids.sort()?;
    Ok(ids)
}

/// The ids of the writes in flight. The error is want of memory.
fn ids_in_flight(alloc: Global, entries: &[Entry]) -> Result<Vec<u64>, AllocError>
    ensures { IfOk result (λ ids. ids.items ≡ map (λ (e : Write). e.id) (filter (λ (e : Write). not e.acknowledged) entries.now)) }
{
    let mut ids = Vec::new(alloc);
    for entry in entries {
        if !entry.acknowledged {
            ids.push(entry.id)?;
        }
    }
    Ok(ids)
}
