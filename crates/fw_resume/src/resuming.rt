//! An engine that starts again.
ghost use Rattle.std.specs.Prelude.{◌≡◌, ◌<◌, true, length, IfOk, IsSome};
ghost use Rattle.std.specs.List.{AllByRecursion};
ghost use Rattle.fw_flow.specs.Dataflow.{system_of};
ghost use Rattle.fw_flow.specs.WellFormed.{IsWellFormedSystem};
ghost use Rattle.fw_model.specs.Machine.{Machine};
ghost use Rattle.fw_model.specs.Reached.{IsReached};
ghost use Rattle.fw_outside.specs.Outside.{StayIfTold};
ghost use Rattle.fw_keep.specs.declared.entry.Entry.{Entry as Write};
ghost use Rattle.fw_keep.specs.Stored.{IsStored, IsThereUnder};
ghost use Rattle.fw_regain.specs.Down.{down};
ghost use Rattle.fw_regain.specs.RootOf.{IsRootOf};
ghost use Rattle.fw_root.specs.declared.root.NamedWrite.{NamedWrite as Name};
ghost use Rattle.fw_root.specs.Sound.{IsRootFor};
ghost use Rattle.fw_running.specs.Faults.{faults_after_step};
ghost use Rattle.fw_running.specs.Shaped.{IsShaped};
ghost use Rattle.fw_resume.specs.Named.{AreNamed};
ghost use Rattle.fw_resume.specs.Resumed.{AreEntriesLeft, IsResumedBy, IsRootStateOf, KnowsPast, Resumes, TellsDamaged};

use crate::catalogue::read_all;
use crate::lost::lost_of;
use crate::parts::{lows_of, parts_of, settled_of};
use crate::told::counts_of;
use crate::traces::traces_of;
use fw_flow::Flow;
use fw_keep::Keep;
use fw_lines::Batches;
use fw_outside::Store;
use fw_progress::Progress;
use fw_root::Root;
use fw_running::{EngineFault, Running};
use std::alloc::{AllocError, Global};

/// What an engine kept that was stopped, as far as its root and its records tell: every node is failed, so that a recovery comes next.
/// The store is the one that the engine had; it may hold records that others put.
///
/// # Errors
///
/// `StoreFault` where the store fails, `Damaged` where the bytes that it gives under an id that the root names spell no record of such a
/// write, and `NoMemory` where memory is refused. The store's records stay, where it still tells them.
pub fn resume<K: Store>(
    alloc: Global,
    flow: Flow,
    batches: &Batches,
    root: &Root,
    store: &mut K,
) -> Result<Running, EngineFault>
    requires well_formed { IsWellFormedSystem (system_of flow batches.now) }
    requires sound { IsRootFor flow batches.now root.now }
    requires there { AllByRecursion (λ (name : Name). IsThereUnder name.id (K.view store.old).records) root.now.writes }

    // Whatever the store gave, what is kept fits the flow, and the next id is the one that the root says.
    ensures shaped { IfOk result IsShaped }
    ensures stored { IfOk result (λ running. IsStored running.parts.keep (K.view store.new).records) }
    ensures shared { IfOk result (λ running. running.parts.keep.shared ≡ true) }
    ensures flow { IfOk result (λ running. running.flow ≡ flow) }
    ensures next { IfOk result (λ running. running.parts.keep.next ≡ root.now.next_id) }

    // Where the root is that of a state, and the store tells its records and holds those of its writes, what is kept is what is left of
    // the state where every node is failed, and no record is damaged.
    ensures held { (state : Machine) → let sys = system_of flow batches.now in IsReached sys state → IsRootOf sys state root.now
        → AreNamed sys (down sys state) root.now (K.view store.old).records → IsSome (K.view store.new).records
        → Resumes sys (down sys state) (K.view store.new).records result }

    ensures damaged { TellsDamaged flow root.now (K.view store.new).given result }
    ensures stays { StayIfTold (K.view store.old).records (K.view store.new).records }
    ensures faults { (K.view store.new).faults ≡ faults_after_step result (K.view store.old).faults }
{
    let keep = read_all(alloc, &flow, root, store)?;
    let running = resumed(alloc, flow, batches, root, keep)?;
    Ok(running)
}

/// What is kept with a catalogue that was got back. The error is want of memory.
fn resumed(
    alloc: Global,
    flow: Flow,
    batches: &Batches,
    root: &Root,
    keep: Keep,
) -> Result<Running, AllocError>
    requires well_formed { IsWellFormedSystem (system_of flow batches.now) }
    requires sound { IsRootFor flow batches.now root.now }
    requires nodes { AllByRecursion (λ (e : Write). e.node < length flow.nodes) keep.entries }
    ensures by { IfOk result (IsResumedBy flow batches.now root.now keep) }

    // It knows what happened, where the root is that of a state and the catalogue has what is left of it.
    ensures knows { (state : Machine) → IsRootStateOf flow batches.now root.now state → AreEntriesLeft (system_of flow batches.now) state keep.entries
        → IfOk result (KnowsPast (system_of flow batches.now) state) }
{
    let fronts = root.fronts.as_slice();
    let low = lows_of(alloc, fronts)?;
    let settled = settled_of(alloc, fronts)?;
    let lost = lost_of(alloc, &flow, fronts)?;
    let counts = counts_of(alloc, &flow, batches, root)?;
    let traces = traces_of(alloc, &flow, batches, &counts, &low, keep.entries())?;
    let progress = Progress::of_counts(alloc, &flow, counts, settled)?;
    let failed = vec![in alloc; true; flow.nodes()]?;
    let parts = parts_of(alloc, &flow, batches, root, low, keep)?;
    let mut running = Running::new(alloc, flow, batches)?;
    running.parts = parts;
    running.progress = progress;
    running.traces = traces;
    running.failed = failed;
    running.lost = lost;
    Ok(running)
}
