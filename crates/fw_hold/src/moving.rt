//! The moves of a held run.
ghost use Rattle.std.specs.Prelude.{◌≡◌, ◌≤◌, ◌^◌, ℕ, Some, slice_get, IsErrOf, IsSome, OnOk};
ghost use Rattle.fw_running.specs.declared.fault.EngineFault.TheVariants as fault;
ghost use Rattle.fw_running.specs.Steps.{outcome_of};
ghost use Rattle.fw_schedule.specs.declared.item.Item.TheVariants.{One, Auto};
ghost use Rattle.fw_hold.specs.declared.fault.HoldFault.TheVariants.{Engine as EngineThere};
ghost use Rattle.fw_hold.specs.Engine.{EntriesAreThere, GaveBytes};
ghost use Rattle.fw_hold.specs.Faults.{faults_after_hold, IsOfRoot};
ghost use Rattle.fw_hold.specs.Going.{CountsOut, AreForward, IsRunAt, MakesMoves, HasRoomIn, HasMoved};
ghost use Rattle.fw_hold.specs.Kept.{HeldTexts, IsPlanOf};
ghost use Rattle.fw_hold.specs.Moves as spec;
ghost use Rattle.fw_hold.specs.Moves.{KeptPoint, SchedulePoint};

use crate::place::SchedulePlace;
use crate::turn::end_turn;
use crate::{HeldEngine, HeldPlan, HoldFault};
use fw_flow::Step;
use fw_outside::{Sink, Store};
use fw_running::Stepped;
use fw_schedule::Item;
use std::alloc::Global;

/// Makes the next move of the item that comes next.
pub fn advance<E: HeldEngine, K: Store, O: Sink>(
    alloc: Global,
    plan: &HeldPlan,
    engine: &mut E,
    place: &mut SchedulePlace,
    item: &Item,
    store: &mut K,
    out: &mut O,
) -> Result<(), HoldFault>
    requires stored { EntriesAreThere (E.keep_of engine.old) (K.view store.old).records }
    requires room { HasRoomIn plan.now.items.now place.old (E.keep_of engine.old).next }
    requires next { slice_get plan.now.items.now place.old.ended ≡ Some item.now }
    ensures stored { OnOk result (EntriesAreThere (E.keep_of engine.new) (K.view store.new).records) }
    ensures moved { OnOk result (HasMoved plan.now.items.now place.old place.new (E.keep_of engine.new).next) }
    ensures made { (texts : HeldTexts) (starts : ℕ) (kept : KeptPoint) (point : SchedulePoint) → IsPlanOf texts plan.now → starts ≤ 2 ^ 61
        → IsRunAt E.stand E.keep_of E.flow_of texts starts (K.view store.old).records engine.old place.old kept point
        → IsSome (K.view store.new).records → MakesMoves AreForward texts starts kept point result (K.view store.new).records
        (O.view out.old) (O.view out.new) (IsRunAt E.stand E.keep_of E.flow_of texts starts (K.view store.new).records engine.new place.new) }
    ensures output { CountsOut result (O.view out.old) (O.view out.new) }
    ensures of_root { IsOfRoot result → ⊥ }
    ensures damaged { (id : ℕ) → IsErrOf result (EngineThere (fault.Damaged id)) → GaveBytes id (K.view store.new).given }
    ensures told_before { IsSome (K.view store.new).records → IsSome (K.view store.old).records }
    ensures faults { (K.view store.new).faults ≡ faults_after_hold result (K.view store.old).faults }
{
    match item {
        Item::One(step) => take_step(alloc, plan, engine, place, step, store, out),
        Item::Auto(most) => take_single(alloc, plan, engine, place, *most, store, out),
    }
}

/// Takes the one step of an item.
fn take_step<E: HeldEngine, K: Store, O: Sink>(
    alloc: Global,
    plan: &HeldPlan,
    engine: &mut E,
    place: &mut SchedulePlace,
    step: &Step,
    store: &mut K,
    out: &mut O,
) -> Result<(), HoldFault>
    requires stored { EntriesAreThere (E.keep_of engine.old) (K.view store.old).records }
    requires room { HasRoomIn plan.now.items.now place.old (E.keep_of engine.old).next }
    requires next { slice_get plan.now.items.now place.old.ended ≡ Some (One step.now) }
    ensures stored { OnOk result (EntriesAreThere (E.keep_of engine.new) (K.view store.new).records) }
    ensures moved { OnOk result (HasMoved plan.now.items.now place.old place.new (E.keep_of engine.new).next) }
    ensures made { (texts : HeldTexts) (starts : ℕ) (kept : KeptPoint) (point : SchedulePoint) → IsPlanOf texts plan.now → starts ≤ 2 ^ 61
        → IsRunAt E.stand E.keep_of E.flow_of texts starts (K.view store.old).records engine.old place.old kept point
        → IsSome (K.view store.new).records → MakesMoves AreForward texts starts kept point result (K.view store.new).records
        (O.view out.old) (O.view out.new) (IsRunAt E.stand E.keep_of E.flow_of texts starts (K.view store.new).records engine.new place.new) }
    ensures output { CountsOut result (O.view out.old) (O.view out.new) }
    ensures of_root { IsOfRoot result → ⊥ }
    ensures damaged { (id : ℕ) → IsErrOf result (EngineThere (fault.Damaged id)) → GaveBytes id (K.view store.new).given }
    ensures told_before { IsSome (K.view store.new).records → IsSome (K.view store.old).records }
    ensures faults { (K.view store.new).faults ≡ faults_after_hold result (K.view store.old).faults }
{
    let stepped = engine.step_held(step, store)?;
    if is_idle(&stepped) {
        place.count_idle();
        place.end_item();
        return Ok(());
    }
    place.count_single(1);
    end_turn(alloc, plan, engine, place, stepped, store, out)
}

/// Takes the first step that is enabled, where the `auto` that comes next has one left.
fn take_single<E: HeldEngine, K: Store, O: Sink>(
    alloc: Global,
    plan: &HeldPlan,
    engine: &mut E,
    place: &mut SchedulePlace,
    most: u64,
    store: &mut K,
    out: &mut O,
) -> Result<(), HoldFault>
    requires stored { EntriesAreThere (E.keep_of engine.old) (K.view store.old).records }
    requires room { HasRoomIn plan.now.items.now place.old (E.keep_of engine.old).next }
    requires next { slice_get plan.now.items.now place.old.ended ≡ Some (Auto most) }
    ensures stored { OnOk result (EntriesAreThere (E.keep_of engine.new) (K.view store.new).records) }
    ensures moved { OnOk result (HasMoved plan.now.items.now place.old place.new (E.keep_of engine.new).next) }
    ensures made { (texts : HeldTexts) (starts : ℕ) (kept : KeptPoint) (point : SchedulePoint) → IsPlanOf texts plan.now → starts ≤ 2 ^ 61
        → IsRunAt E.stand E.keep_of E.flow_of texts starts (K.view store.old).records engine.old place.old kept point
        → IsSome (K.view store.new).records → MakesMoves AreForward texts starts kept point result (K.view store.new).records
        (O.view out.old) (O.view out.new) (IsRunAt E.stand E.keep_of E.flow_of texts starts (K.view store.new).records engine.new place.new) }
    ensures output { CountsOut result (O.view out.old) (O.view out.new) }
    ensures of_root { IsOfRoot result → ⊥ }
    ensures damaged { (id : ℕ) → IsErrOf result (EngineThere (fault.Damaged id)) → GaveBytes id (K.view store.new).given }
    ensures told_before { IsSome (K.view store.new).records → IsSome (K.view store.old).records }
    ensures faults { (K.view store.new).faults ≡ faults_after_hold result (K.view store.old).faults }
{
    if place.singles >= most {
        place.end_item();
        return Ok(());
    }
    let stepped = engine.auto_step_held(store)?;
    if is_idle(&stepped) {
        place.end_item();
        return Ok(());
    }
    place.count_single(most);
    end_turn(alloc, plan, engine, place, stepped, store, out)
}

/// Whether the step was not enabled.
fn is_idle(stepped: &Stepped) -> bool
    ensures { result ≡ spec.is_idle_outcome (outcome_of stepped.now) }
{
    matches!(stepped, Stepped::Idle)
}
