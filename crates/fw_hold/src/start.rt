//! Where a start begins.
ghost use Rattle.std.specs.Prelude.{◌≡◌, ◌↔◌, ◌^◌, ◌<◌, ℕ, Err, IfErr, IfOk, IsErrOf, IsSome, IsTrue};
ghost use Rattle.fw_flow.specs.Dataflow.{system_of};
ghost use Rattle.fw_flow.specs.WellFormed.{IsWellFormedSystem};
ghost use Rattle.fw_root.specs.declared.root.Root.{Root as Spelled};
ghost use Rattle.fw_root.specs.Sound.{IsRootFor};
ghost use Rattle.fw_root.specs.Spelling.{root_spelling};
ghost use Rattle.fw_outside.specs.Outside.{StayIfTold};
ghost use Rattle.fw_running.specs.declared.fault.EngineFault.TheVariants as engine;
ghost use Rattle.fw_hold.specs.Engine.{EntriesAreThere, GaveBytes};
ghost use Rattle.fw_hold.specs.Faults.{faults_after_hold, IsNotOut, IsOfRoot};
ghost use Rattle.fw_hold.specs.Found.{GaveForeign, GaveNoRoot, HasNamed};
ghost use Rattle.fw_hold.specs.Going.{CountsOut, HasRoomIn, HoldsFound};
ghost use Rattle.fw_hold.specs.Hold.{IsAtEnd};
ghost use Rattle.fw_hold.specs.Kept.{Found, a_root, IsPlanOf};
ghost use Rattle.fw_hold.specs.Moves.{KeptPoint};
ghost use Rattle.fw_hold.specs.Starting.{EndsStart, HasBegun, IsForeignIn, IsKeptIn, IsThisOrNoMemory, IsToldForeign, MayStart, TellsOpening, lines_of_root, held_texts_of};
ghost use Rattle.fw_hold.specs.declared.fault.HoldFault.TheVariants.{DamagedRoot, Engine as EngineThere, ForeignRoot};

use crate::found::{FoundRoot, counted_root};
use crate::place::SchedulePlace;
use crate::turn::{end_turn, tell};
use crate::types::are_small;
use crate::{HeldEngine, HeldPlan, HoldFault};
use fw_flow::Flow;
use fw_lines::Batches;
use fw_outside::{Sink, Store};
use fw_root::{Digests, Root, RootFault, decode_root};
use fw_running::EngineFault;
use std::alloc::Global;

/// An engine and where it stands: behind the root that counts, with every node restored; or where nothing has happened.
pub fn begin<E: HeldEngine, K: Store, O: Sink>(
    alloc: Global,
    plan: &HeldPlan,
    flow: Flow,
    batches: &Batches,
    store: &mut K,
    out: &mut O,
) -> Result<(E, SchedulePlace), HoldFault>
    requires well_formed { IsWellFormedSystem (system_of flow batches.now) }
    requires plan { IsPlanOf (held_texts_of flow batches.now plan.now) plan.now }
    requires store { MayStart (held_texts_of flow batches.now plan.now) (K.view store.old).records }
    ensures stored { IfOk result (λ begun. EntriesAreThere (E.keep_of begun.0) (K.view store.new).records) }
    ensures room { IfOk result (λ begun. HasRoomIn plan.now.items.now begun.1 (E.keep_of begun.0).next) }
    ensures begun { (starts : ℕ) (found : Found) (kept : KeptPoint) → starts < 2 ^ 61
        → HoldsFound (held_texts_of flow batches.now plan.now) starts (K.view store.old).records found kept → IsSome (K.view store.new).records
        → IfOk result (λ begun. HasBegun E.stand E.keep_of E.flow_of (held_texts_of flow batches.now plan.now) starts found kept
        (K.view store.new).records (O.view out.old) (O.view out.new) begun.0 begun.1) }
    ensures ended { (starts : ℕ) (found : Found) (kept : KeptPoint) → starts < 2 ^ 61
        → HoldsFound (held_texts_of flow batches.now plan.now) starts (K.view store.old).records found kept → IsSome (K.view store.new).records
        → IfErr result (λ fault. EndsStart (held_texts_of flow batches.now plan.now) starts found kept (Err fault) (K.view store.new).records
        (O.view out.old) (O.view out.new) (IsAtEnd (held_texts_of flow batches.now plan.now))) }
    ensures foreign { IsForeignIn plan.now.digests (K.view store.old).records → IsSome (K.view store.new).records
        → IsToldForeign result × (out.new ≡ out.old) × ((K.view store.new).records ≡ (K.view store.old).records) }
    ensures of_root { IsOfRoot result → (out.new ≡ out.old) × StayIfTold (K.view store.old).records (K.view store.new).records }
    ensures damaged_root { (id : ℕ) → IsErrOf result (DamagedRoot id)
        → GaveNoRoot (held_texts_of flow batches.now plan.now) id (K.view store.new).given }
    ensures foreign_root { IsErrOf result ForeignRoot → GaveForeign plan.now.digests (K.view store.new).given }
    ensures damaged { (id : ℕ) → IsErrOf result (EngineThere (engine.Damaged id)) → GaveBytes id (K.view store.new).given }
    ensures output { CountsOut result (O.view out.old) (O.view out.new) }
    ensures told_before { IsSome (K.view store.new).records → IsSome (K.view store.old).records }
    ensures faults { (K.view store.new).faults ≡ faults_after_hold result (K.view store.old).faults }
{
    are_small(plan.numbers);
    let Some(found) = counted_root(alloc, store)? else {
        return Ok((E::fresh(alloc, flow, batches)?, SchedulePlace::first()));
    };
    let root = decoded_root(alloc, &plan.digests, &flow, batches, &found)?;
    resume_from(alloc, plan, flow, batches, &root, store, out)
}

/// An engine and where it stands behind a root, with every node restored. The lines of the root are told once more, and then how the nodes
/// were restored.
fn resume_from<E: HeldEngine, K: Store, O: Sink>(
    alloc: Global,
    plan: &HeldPlan,
    flow: Flow,
    batches: &Batches,
    root: &Root,
    store: &mut K,
    out: &mut O,
) -> Result<(E, SchedulePlace), HoldFault>
    requires well_formed { IsWellFormedSystem (system_of flow batches.now) }
    requires plan { IsPlanOf (held_texts_of flow batches.now plan.now) plan.now }
    requires sound { IsRootFor flow batches.now root.now }
    requires there { HasNamed root.now (K.view store.old).records }
    ensures stored { IfOk result (λ begun. EntriesAreThere (E.keep_of begun.0) (K.view store.new).records) }
    ensures room { IfOk result (λ begun. HasRoomIn plan.now.items.now begun.1 (E.keep_of begun.0).next) }
    ensures begun { (starts : ℕ) (kept : KeptPoint) → starts < 2 ^ 61
        → IsKeptIn (held_texts_of flow batches.now plan.now) starts (K.view store.old).records kept root.now → IsSome (K.view store.new).records
        → IfOk result (λ begun. HasBegun E.stand E.keep_of E.flow_of (held_texts_of flow batches.now plan.now) starts a_root kept
        (K.view store.new).records (O.view out.old) (O.view out.new) begun.0 begun.1) }
    ensures ended { (starts : ℕ) (kept : KeptPoint) → starts < 2 ^ 61
        → IsKeptIn (held_texts_of flow batches.now plan.now) starts (K.view store.old).records kept root.now → IsSome (K.view store.new).records
        → IfErr result (λ fault. EndsStart (held_texts_of flow batches.now plan.now) starts a_root kept (Err fault) (K.view store.new).records
        (O.view out.old) (O.view out.new) (IsAtEnd (held_texts_of flow batches.now plan.now))) }
    ensures output { CountsOut result (O.view out.old) (O.view out.new) }
    ensures of_root { IsOfRoot result → ⊥ }
    ensures damaged { (id : ℕ) → IsErrOf result (EngineThere (engine.Damaged id)) → GaveBytes id (K.view store.new).given }
    ensures told_before { IsSome (K.view store.new).records → IsSome (K.view store.old).records }
    ensures faults { (K.view store.new).faults ≡ faults_after_hold result (K.view store.old).faults }
{
    tell_opening(alloc, root, out)?;
    are_small(plan.numbers);
    let mut place = plan.place_behind_root(root);
    let (mut engine, stepped) = E::resume(alloc, flow, batches, root, store)?;
    end_turn(alloc, plan, &mut engine, &mut place, stepped, store, out)?;
    Ok((engine, place))
}

/// What the bytes of a root spell, if it is one of these texts.
///
/// # Errors
///
/// `ForeignRoot` where it is one of others, `DamagedRoot` where they spell none, `NoMemory`.
pub fn decoded_root(
    alloc: Global,
    digests: &Digests,
    flow: &Flow,
    batches: &Batches,
    found: &FoundRoot,
) -> Result<Root, HoldFault>
    ensures root { IfOk result (λ root. IsRootFor flow.now batches.now root × (found.now.bytes.items ≡ root_spelling root)) }
    ensures of_texts { IfOk result (λ root. found.now.head.digests ≡ digests.now) }
    ensures only { (root : Spelled) → IsRootFor flow.now batches.now root → found.now.bytes.items ≡ root_spelling root
        → found.now.head.digests ≡ digests.now → IsThisOrNoMemory root result }
    ensures foreign { (found.now.head.digests ≡ digests.now → ⊥) → IsErrOf result ForeignRoot }
    ensures damaged { (id : ℕ) → IsErrOf result (DamagedRoot id) → (id ≡ found.now.id) × (found.now.head.digests ≡ digests.now) }
    ensures other { IsErrOf result ForeignRoot → found.now.head.digests ≡ digests.now → ⊥ }
    ensures undamaged { (id : ℕ) → IsErrOf result (EngineThere (engine.Damaged id)) → ⊥ }
    ensures not_out { IsNotOut result }
    ensures faults { (count : ℕ) → faults_after_hold result count ≡ count }
{
    if !are_same(&found.head.digests, digests) {
        return Err(HoldFault::ForeignRoot);
    }
    match decode_root(alloc, flow, batches, &found.bytes) {
        Ok(root) => Ok(root),
        Err(RootFault::BadRoot { .. }) => Err(HoldFault::DamagedRoot { id: found.id }),
        Err(RootFault::NoMemory) => Err(HoldFault::Engine(EngineFault::NoMemory)),
    }
}

/// Whether these are the digests of the same texts.
pub fn are_same(one: &Digests, other: &Digests) -> bool
    ensures { IsTrue result ↔ (one.now ≡ other.now) }
{
    one.flow == other.flow && one.inputs == other.inputs && one.schedule == other.schedule
}

/// Writes the line `resumed at STEPS`, and the lines of the root once more.
fn tell_opening<O: Sink>(alloc: Global, root: &Root, out: &mut O) -> Result<(), HoldFault>
    ensures { TellsOpening (lines_of_root root.now) result (O.view out.old) (O.view out.new) }
{
    let steps = root.mark.steps;
    let mut text = format!(in alloc; "resumed at {steps}\n")?.into_bytes();
    text.extend_from_slice(root.mark.lines.as_slice())?;
    tell(&text, out)
}
