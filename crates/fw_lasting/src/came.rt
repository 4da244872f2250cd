//! Reading what came to all sources.
ghost use Rattle.std.specs.Prelude.{◌≡◌, ◌++◌, ◌∷◌, [], ℕ, IfOk, IsErrOf, OnOk};
ghost use Rattle.fw_flow.specs.Dataflow.{system_of};
ghost use Rattle.fw_flow.specs.WellFormed.{IsWellFormedSystem};
ghost use Rattle.fw_outside.specs.Outside.{StayIfTold};
ghost use Rattle.fw_running.specs.declared.fault.EngineFault.TheVariants as engine;
ghost use Rattle.fw_hold.specs.Engine.{GaveBytes};
ghost use Rattle.fw_running.specs.Faults.{faults_after_step};
ghost use Rattle.fw_lasting.specs.Reading.{ForStory, ForWhatCameAt, IsReadTo, IsWhatCame};

use crate::{CameTo, read_source};
use fw_flow::{Flow, NodeId};
use fw_lines::Batches;
use fw_outside::Store;
use fw_running::EngineFault;
use fw_session::Arrivals;
use std::alloc::{AllocError, Global};

/// What came to each node, and behind it an empty batch of each source that is open; and which are open, and how many batches came.
///
/// # Errors
///
/// `StoreFault` where the store fails, `Damaged` where the bytes that it gives under the id of a batch spell none; `NoMemory` where memory is
/// refused, or where more batches are there than may come.
pub fn read_came<K: Store>(
    alloc: Global,
    flow: &Flow,
    store: &mut K,
) -> Result<(Batches, Arrivals), EngineFault>
    ensures well_formed { IfOk result (λ read. IsWellFormedSystem (system_of flow.now read.0)) }
    ensures came { ForStory flow.now (K.view store.old).records (K.view store.new).records (λ story.
        IfOk result (λ read. IsWhatCame flow.now story read.0 read.1)) }
    ensures undamaged { (id : ℕ) → IsErrOf result (engine.Damaged id) → ForStory flow.now (K.view store.old).records (K.view store.new).records (λ story. ⊥) }
    ensures damaged { (id : ℕ) → IsErrOf result (engine.Damaged id) → GaveBytes id (K.view store.new).given }
    ensures stays { StayIfTold (K.view store.old).records (K.view store.new).records }
    ensures faults { (K.view store.new).faults ≡ faults_after_step result (K.view store.old).faults }
{
    let mut batches = Batches::new(alloc);
    let mut arrivals = Arrivals {
        opened: Vec::with_capacity(alloc, flow.nodes())?,
        came: Vec::with_capacity(alloc, flow.nodes())?,
    };
    for place in 0..flow.nodes() as u32 {
        let read = read_node(alloc, flow, place, &mut batches, store)?;
        note(&mut arrivals, read)?;
    }
    if !flow.accepts(&batches) {
        return Err(EngineFault::NoMemory);
    }
    Ok((batches, arrivals))
}

// What came to a node: nothing, where it is no input.
fn read_node<K: Store>(
    alloc: Global,
    flow: &Flow,
    place: u32,
    batches: &mut Batches,
    store: &mut K,
) -> Result<CameTo, EngineFault>
    ensures read { ForWhatCameAt flow.now place (K.view store.old).records (K.view store.new).records (λ came opened.
        IfOk result (λ read. IsReadTo place came opened read batches.old batches.new)) }
    ensures undamaged { (id : ℕ) → IsErrOf result (engine.Damaged id)
        → ForWhatCameAt flow.now place (K.view store.old).records (K.view store.new).records (λ came opened. ⊥) }
    ensures damaged { (id : ℕ) → IsErrOf result (engine.Damaged id) → GaveBytes id (K.view store.new).given }
    ensures stays { StayIfTold (K.view store.old).records (K.view store.new).records }
    ensures faults { (K.view store.new).faults ≡ faults_after_step result (K.view store.old).faults }
{
    if !flow.kind(NodeId::at(place)).is_input() {
        return Ok(CameTo {
            count: 0,
            open: false,
        });
    }
    read_source(alloc, place, batches, store)
}

// What came to the next node is noted.
fn note(arrivals: &mut Arrivals, read: CameTo) -> Result<(), AllocError>
    ensures opened { OnOk result (arrivals.new.opened.items ≡ arrivals.old.opened.items ++ read.open ∷ []) }
    ensures came { OnOk result (arrivals.new.came.items ≡ arrivals.old.came.items ++ read.count ∷ []) }
{
    arrivals.opened.push(read.open)?;
    arrivals.came.push(read.count as u64)?;
    Ok(())
}
