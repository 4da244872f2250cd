//! The catalogue is got back: each write that a root names is read again.
ghost use Rattle.std.specs.Prelude.{◌≡◌, ◌<◌, length, IfOk, IsSome, OnOk};
ghost use Rattle.std.specs.List.{AllByRecursion};
ghost use Rattle.fw_flow.specs.Dataflow.{System};
ghost use Rattle.fw_model.specs.Machine.{Machine};
ghost use Rattle.fw_outside.specs.Outside.{StayIfTold};
ghost use Rattle.fw_record.specs.declared.record.Record.{Record as Spelled};
ghost use Rattle.fw_keep.specs.declared.entry.Entry.{Entry};
ghost use Rattle.fw_keep.specs.Entry.{node_of_record};
ghost use Rattle.fw_keep.specs.Faults.{keep_faults_after};
ghost use Rattle.fw_keep.specs.Named.{HoldsNamed};
ghost use Rattle.fw_keep.specs.Stored.{GivesNoDamage, IsStored, IsThereUnder};
ghost use Rattle.fw_policy.specs.Shaped.{IsWrittenOf};
ghost use Rattle.fw_resume.specs.Catalogue.{AreNamesFor, AreStampsBack, GivesKept, IsNamedState, IsReadNext, IsReadOf, MayReadNext, TellsDamage, TellsDamageOf};
ghost use Rattle.fw_root.specs.declared.root.NamedWrite.{NamedWrite as Name};

use crate::stamps::stamps_of;
use fw_flow::{Flow, NodeId, Stamps};
use fw_keep::{Keep, KeepFault, no_stamps};
use fw_outside::Store;
use fw_record::Record;
use fw_root::{NamedWrite, Root};
use std::alloc::{AllocError, Global};

/// The catalogue with a write for each that the root names.
///
/// # Errors
///
/// `StoreFault` where the store fails, `Damaged` where the bytes that it gives under the id of a write spell no record of it, and
/// `NoMemory` where memory is refused. The store's records stay, where it still tells them.
pub(crate) fn read_all<K: Store>(
    alloc: Global,
    flow: &Flow,
    root: &Root,
    store: &mut K,
) -> Result<Keep, KeepFault>
    requires names { AreNamesFor flow.now root.now }
    requires there { AllByRecursion (λ (name : Name). IsThereUnder name.id (K.view store.old).records) root.now.writes }

    // Whatever the store gave, each write was read, and is of a node of the dataflow.
    ensures read { IfOk result (IsReadOf root.now) }
    ensures nodes { IfOk result (λ keep. AllByRecursion (λ (e : Entry). e.node < length flow.now.nodes) keep.entries) }
    ensures written { IfOk result (λ keep. AllByRecursion (λ (e : Entry). IsWrittenOf flow.now e.node e.written) keep.entries) }
    ensures stored { IfOk result (λ keep. IsStored keep (K.view store.new).records) }

    // Of each state of which the root is, and whose writes the store held, the entries stand for what is kept.
    ensures held { (sys : System) (state : Machine) → IsNamedState flow.now root.now (K.view store.old).records sys state
        → IsSome (K.view store.new).records → GivesKept sys state (K.view store.new).records result }

    ensures damaged { TellsDamage flow.now root.now (K.view store.new).given result }
    ensures stays { StayIfTold (K.view store.old).records (K.view store.new).records }
    ensures faults { (K.view store.new).faults ≡ keep_faults_after result (K.view store.old).faults }
{
    let others = copied(alloc, root.others.as_slice())?;
    let mut keep = Keep::resumed(alloc, root.next_id, others);
    for name in root.writes.as_slice() {
        read_one(alloc, &mut keep, flow, name, store)?;
    }
    Ok(keep)
}

/// These ids once more. The error is want of memory.
fn copied(alloc: Global, ids: &[u64]) -> Result<Vec<u64>, AllocError>
    ensures { IfOk result (λ copy. copy.items ≡ ids.now) }
{
    let mut copy = Vec::with_capacity(alloc, ids.len())?;
    copy.extend_from_slice(ids)?;
    Ok(copy)
}

/// The write of a name is read, and added to the catalogue.
///
/// # Errors
///
/// Those of `read_all`.
fn read_one<K: Store>(
    alloc: Global,
    keep: &mut Keep,
    flow: &Flow,
    name: &NamedWrite,
    store: &mut K,
) -> Result<(), KeepFault>
    requires there { IsThereUnder name.now.id (K.view store.old).records }
    requires next { MayReadNext name.now.id keep.old }
    requires node { name.now.node < length flow.now.nodes }
    ensures read { OnOk result (IsReadNext flow.now name.now (K.view store.new).records keep.old keep.new) }
    ensures stored { IsStored keep.old (K.view store.old).records → OnOk result (IsStored keep.new (K.view store.new).records) }
    ensures held { (what : Spelled) → HoldsNamed flow.now keep.old.entries (K.view store.new).records name.now.id name.now.node name.now.tag what
        → GivesNoDamage result }
    ensures damaged { TellsDamageOf flow.now keep.old.entries name.now (K.view store.new).given result }
    ensures stays { StayIfTold (K.view store.old).records (K.view store.new).records }
    ensures faults { (K.view store.new).faults ≡ keep_faults_after result (K.view store.old).faults }
{
    let what = keep.read_named(flow, store, name.id, NodeId::at(name.node), name.tag)?;
    let stamps = stamps_in(alloc, flow, &what)?;
    keep.add_read(name.id, &what, stamps)?;
    Ok(())
}

/// Where the events in a record are and where they sent; of an event nothing is kept. The error is want of memory.
fn stamps_in(alloc: Global, flow: &Flow, what: &Record) -> Result<Stamps, AllocError>
    requires { node_of_record what.now < length flow.now.nodes }
    ensures { IfOk result (AreStampsBack flow.now what.now) }
{
    match what {
        Record::State(checkpoint) | Record::Changes { checkpoint, .. } => {
            stamps_of(alloc, flow, checkpoint.node, &checkpoint.recorded)
        }
        Record::Event { .. } => Ok(no_stamps(alloc)),
    }
}
