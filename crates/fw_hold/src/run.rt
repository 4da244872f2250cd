//! A held run, from one start to its end.
ghost use Rattle.std.specs.Prelude.{◌≡◌, ◌^◌, ◌<◌, ℕ, IsErrOf, IsSome};
ghost use Rattle.fw_outside.specs.Outside.{StayIfTold};
ghost use Rattle.fw_flow.specs.Dataflow.{system_of};
ghost use Rattle.fw_flow.specs.WellFormed.{IsWellFormedSystem};
ghost use Rattle.fw_running.specs.declared.fault.EngineFault.TheVariants as engine;
ghost use Rattle.fw_hold.specs.declared.fault.HoldFault.TheVariants.{DamagedRoot, Engine as EngineThere, ForeignRoot};
ghost use Rattle.fw_hold.specs.Engine.{GaveBytes};
ghost use Rattle.fw_hold.specs.Faults.{faults_after_hold, IsOfRoot};
ghost use Rattle.fw_hold.specs.Found.{GaveForeign, GaveNoRoot};
ghost use Rattle.fw_hold.specs.Going.{CountsOut, HoldsFound};
ghost use Rattle.fw_hold.specs.Hold.{IsAtEnd};
ghost use Rattle.fw_hold.specs.Kept.{Found, IsPlanOf};
ghost use Rattle.fw_hold.specs.Moves.{KeptPoint};
ghost use Rattle.fw_hold.specs.Starting.{EndsStart, IsForeignIn, IsToldForeign, MayStart, held_texts_of};

use crate::moving::advance;
use crate::place::HeldCounts;
use crate::start::begin;
use crate::{HeldEngine, HeldPlan, HoldFault};
use fw_flow::Flow;
use fw_lines::Batches;
use fw_outside::{Sink, Store};
use std::alloc::Global;

/// Starts a run over a store that may hold what an earlier start of it left, and takes it to the end of its schedule: behind each step that
/// is done it puts a root, and then writes the step's lines. It answers how many steps were counted.
///
/// # Errors
///
/// `Out` where the output fails or refuses memory; `Engine` where the store fails, a record is damaged or memory is refused; `DamagedRoot`
/// where what the store gives as its root is none; `ForeignRoot` where that is one of other texts.
pub fn hold<E: HeldEngine, K: Store, O: Sink>(
    alloc: Global,
    plan: &HeldPlan,
    flow: Flow,
    batches: &Batches,
    store: &mut K,
    out: &mut O,
) -> Result<HeldCounts, HoldFault>
    requires well_formed { IsWellFormedSystem (system_of flow batches.now) }
    requires plan { IsPlanOf (held_texts_of flow batches.now plan.now) plan.now }
    requires store { MayStart (held_texts_of flow batches.now plan.now) (K.view store.old).records }
    // Where the store tells its records, and holds what a start can begin with.
    ensures ends { (starts : ℕ) (found : Found) (kept : KeptPoint) → starts < 2 ^ 61
        → HoldsFound (held_texts_of flow batches.now plan.now) starts (K.view store.old).records found kept → IsSome (K.view store.new).records
        → EndsStart (held_texts_of flow batches.now plan.now) starts found kept result (K.view store.new).records (O.view out.old) (O.view out.new)
        (IsAtEnd (held_texts_of flow batches.now plan.now)) }
    ensures foreign { IsForeignIn plan.now.digests (K.view store.old).records → IsSome (K.view store.new).records
        → IsToldForeign result × (out.new ≡ out.old) × ((K.view store.new).records ≡ (K.view store.old).records) }

    // Whatever the store tells. Where a start ends for the root that it found, nothing was written, and the store has what it had.
    ensures of_root { IsOfRoot result → (out.new ≡ out.old) × StayIfTold (K.view store.old).records (K.view store.new).records }
    ensures damaged_root { (id : ℕ) → IsErrOf result (DamagedRoot id)
        → GaveNoRoot (held_texts_of flow batches.now plan.now) id (K.view store.new).given }
    ensures foreign_root { IsErrOf result ForeignRoot → GaveForeign plan.now.digests (K.view store.new).given }
    ensures damaged { (id : ℕ) → IsErrOf result (EngineThere (engine.Damaged id)) → GaveBytes id (K.view store.new).given }
    ensures output { CountsOut result (O.view out.old) (O.view out.new) }
    ensures told_before { IsSome (K.view store.new).records → IsSome (K.view store.old).records }
    ensures faults { (K.view store.new).faults ≡ faults_after_hold result (K.view store.old).faults }
{
    let (mut engine, mut place): (E, _) = begin(alloc, plan, flow, batches, store, out)?;
    while let Some(item) = plan.items.get(place.ended) {
        advance(alloc, plan, &mut engine, &mut place, item, store, out)?;
    }
    Ok(place.counts())
}
