//! The parts of an engine are cut to a choice.
ghost use Rattle.std.specs.Prelude.{◌≡◌, OnOk, OnErr};
ghost use Rattle.fw_keep.specs.Faults.{keep_faults_after};
ghost use Rattle.fw_keep.specs.Stored.{IsStored};
ghost use Rattle.fw_outside.specs.Outside.{StayIfTold};
ghost use Rattle.fw_rollback.specs.Asked.{ComesOfReading};
ghost use Rattle.fw_rollback.specs.Restored.{AreOfFlow, AreOfNodes, Restores};

use crate::Parts;
use crate::built::build;
use crate::given::read;
use crate::swap::swap;
use fw_flow::{Choice, Flow};
use fw_keep::KeepFault;
use fw_outside::Store;
use std::alloc::Global;

/// Cuts what is kept of each node to the choice.
///
/// Of a node that is cut to a frontier: its table and its log are built anew, from nothing, from its checkpoints or by doing its
/// acknowledged events inside again; its writes that do not lie within are taken out, and their bytes wait for a sweep; an input
/// has injected the batches inside alone, and an output has no rec. A queue to a node that stays as it is keeps what comes from
/// what its sender keeps; one to a node that is cut has what the sender's new log holds outside the cut. All else stays.
///
/// Of a node's checkpoints the acknowledged ones are read that lie within the frontier, and not strictly within the newest whole
/// one that does. Where no acknowledged one stands exactly at the frontier none is read, and the node begins anew, without a
/// word. So it does where the first that was read is not whole, or the last changes (the first itself, where none holds changes)
/// are of another frontier. Whether each holds what changed since the one before it is not looked at.
///
/// # Errors
///
/// `StoreFault` where the store fails, `Damaged` where the bytes of a write that is asked for spell no record of it, and
/// `NoMemory` where memory is refused. Then the parts are as they were. The store's records are in each case, where it still
/// tells them.
pub fn restore<K: Store>(
    alloc: Global,
    flow: &Flow,
    choice: &Choice,
    parts: &mut Parts,
    store: &mut K,
) -> Result<(), KeepFault>
    requires each { AreOfFlow flow.now parts.old }
    requires stored { IsStored parts.old.keep (K.view store.old).records }

    ensures restored { OnOk result (Restores flow.now choice.now (K.view store.new).records parts.old parts.new) }
    ensures each { AreOfFlow flow.now parts.new }
    ensures nodes { AreOfNodes flow.now parts.old.tables → AreOfNodes flow.now parts.new.tables }
    ensures stored { IsStored parts.new.keep (K.view store.new).records }
    ensures stays { StayIfTold (K.view store.old).records (K.view store.new).records }

    // After a refusal the parts are as they were.
    ensures kept { OnErr result (parts.new ≡ parts.old) }
    ensures of_reading { ComesOfReading flow.now choice.now (K.view store.new).records parts.old.keep.entries (K.view store.new).given result }
    ensures faults { (K.view store.new).faults ≡ keep_faults_after result (K.view store.old).faults }
{
    let given = read(alloc, flow, choice, &parts.keep, store)?;
    let built = build(alloc, flow, choice, parts, &given)?;
    swap(flow, choice, parts, built);
    Ok(())
}
