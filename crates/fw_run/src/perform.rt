//! The steps of an item are taken and what comes of them is printed.
ghost use Rattle.std.specs.Prelude.{◌≡◌, ◌++◌, ℕ, IsErrOf, IsSome};
ghost use Rattle.fw_flow.specs.declared.step.Step.TheVariants.{Recover};
ghost use Rattle.fw_keep.specs.Catalogue.{AreAscending, ids_of};
ghost use Rattle.fw_keep.specs.Stored.{IsStored};
ghost use Rattle.fw_running.specs.declared.fault.EngineFault.TheVariants as EngineFault;
ghost use Rattle.fw_running.specs.EffectText.{outcome_text};
ghost use Rattle.fw_running.specs.Steps.{outcome_of};
ghost use Rattle.fw_engine.specs.Engine.{flow_of, keep_of, IsDamaged};
ghost use Rattle.fw_run.specs.Fault.{faults_after_run};
ghost use Rattle.fw_run.specs.Performing.{PrintsItem, HasRoom, AreFew};
ghost use Rattle.fw_run.specs.Printed as spec;
ghost use Rattle.fw_run.specs.Stopping.{MayCallIn};
ghost use Rattle.fw_command.specs.Command.{up_to_fault};
ghost use Rattle.fw_command.specs.Command as told;
ghost use Rattle.fw_command.specs.Manner.{showing_in};
ghost use Rattle.fw_command.specs.Writing.{Writes};

use crate::explain::reasons_for;
use crate::fault::RunFault;
use crate::tally::StepCounts;
use crate::text::{is_silent, lines_of};
use fw_command::Showing;
use fw_engine::{Engine, Stepped};
use fw_flow::{Flow, Step};
use fw_outside::{OutFault, Sink, Store};
use fw_schedule::Item;
use std::alloc::Global;

/// Takes the steps of an item, prints their lines and counts them.
pub(crate) fn perform_item<K: Store, O: Sink>(
    alloc: Global,
    showing: Showing,
    engine: &mut Engine,
    item: &Item,
    tally: &mut StepCounts,
    store: &mut K,
    out: &mut O,
) -> Result<(), RunFault>
    requires stored { IsStored (keep_of engine.old) (K.view store.old).records }
    requires in_order { AreAscending (ids_of (keep_of engine.old).entries) }
    requires room { HasRoom tally.old item.now }
    ensures stored { IsStored (keep_of engine.new) (K.view store.new).records }
    ensures in_order { AreAscending (ids_of (keep_of engine.new).entries) }
    ensures shared { (keep_of engine.new).shared ≡ (keep_of engine.old).shared }
    ensures told_before { IsSome (K.view store.new).records → IsSome (K.view store.old).records }
    ensures flow { flow_of engine.new ≡ flow_of engine.old }
    ensures few { AreFew item.now result tally.old tally.new }
    ensures none { tally.new.faults ≡ tally.old.faults }
    ensures printed { PrintsItem (up_to_fault (showing_in showing)) engine.old (K.view store.old).records item.now tally.old (λ faults. faults ≡ 0)
        result engine.new (K.view store.new).records tally.new (O.view out.old) (O.view out.new) }
    ensures faults { (K.view store.new).faults ≡ faults_after_run result (K.view store.old).faults }
    ensures calls { IsErrOf result (RunFault.Engine EngineFault.StoreFault) → MayCallIn (flow_of engine.old) item.now }
    ensures damaged { (id : ℕ) → IsErrOf result (RunFault.Engine (EngineFault.Damaged id)) → IsDamaged engine.old id (K.view store.new).given }
    ensures in_recovery { (id : ℕ) → IsErrOf result (RunFault.Engine (EngineFault.Damaged id)) → item.now ≡ Item.One Recover }
{
    match item {
        Item::One(step) => perform_step(alloc, showing, engine, step, tally, store, out),
        Item::Auto(most) => perform_auto(alloc, engine, *most, tally, store, out),
    }
}

// Takes a step, prints its lines and counts it.
fn perform_step<K: Store, O: Sink>(
    alloc: Global,
    showing: Showing,
    engine: &mut Engine,
    step: &Step,
    tally: &mut StepCounts,
    store: &mut K,
    out: &mut O,
) -> Result<(), RunFault>
    requires stored { IsStored (keep_of engine.old) (K.view store.old).records }
    requires in_order { AreAscending (ids_of (keep_of engine.old).entries) }
    requires room { HasRoom tally.old (Item.One step.now) }
    ensures stored { IsStored (keep_of engine.new) (K.view store.new).records }
    ensures in_order { AreAscending (ids_of (keep_of engine.new).entries) }
    ensures shared { (keep_of engine.new).shared ≡ (keep_of engine.old).shared }
    ensures told_before { IsSome (K.view store.new).records → IsSome (K.view store.old).records }
    ensures flow { flow_of engine.new ≡ flow_of engine.old }
    ensures few { AreFew (Item.One step.now) result tally.old tally.new }
    ensures none { tally.new.faults ≡ tally.old.faults }
    ensures printed { PrintsItem (up_to_fault (showing_in showing)) engine.old (K.view store.old).records (Item.One step.now) tally.old (λ faults. faults ≡ 0)
        result engine.new (K.view store.new).records tally.new (O.view out.old) (O.view out.new) }
    ensures faults { (K.view store.new).faults ≡ faults_after_run result (K.view store.old).faults }
    ensures calls { IsErrOf result (RunFault.Engine EngineFault.StoreFault) → MayCallIn (flow_of engine.old) (Item.One step.now) }
    ensures damaged { (id : ℕ) → IsErrOf result (RunFault.Engine (EngineFault.Damaged id)) → IsDamaged engine.old id (K.view store.new).given }
    ensures in_recovery { (id : ℕ) → IsErrOf result (RunFault.Engine (EngineFault.Damaged id)) → step.now ≡ Recover }
{
    let reasons = reasons_for(alloc, showing, engine, step)?;
    let stepped = engine.step(step, store)?;
    tally.count(&stepped);
    print(alloc, engine.flow(), &stepped, &reasons, out)?;
    Ok(())
}

// Takes the first step that is enabled, again and again, at most so many, prints their lines and counts them.
fn perform_auto<K: Store, O: Sink>(
    alloc: Global,
    engine: &mut Engine,
    most: u64,
    tally: &mut StepCounts,
    store: &mut K,
    out: &mut O,
) -> Result<(), RunFault>
    requires stored { IsStored (keep_of engine.old) (K.view store.old).records }
    requires in_order { AreAscending (ids_of (keep_of engine.old).entries) }
    requires room { HasRoom tally.old (Item.Auto most) }
    ensures stored { IsStored (keep_of engine.new) (K.view store.new).records }
    ensures in_order { AreAscending (ids_of (keep_of engine.new).entries) }
    ensures shared { (keep_of engine.new).shared ≡ (keep_of engine.old).shared }
    ensures told_before { IsSome (K.view store.new).records → IsSome (K.view store.old).records }
    ensures flow { flow_of engine.new ≡ flow_of engine.old }
    ensures few { AreFew (Item.Auto most) result tally.old tally.new }
    ensures none { tally.new.faults ≡ tally.old.faults }
    ensures printed { (showing : told.Showing) → PrintsItem (up_to_fault showing) engine.old (K.view store.old).records (Item.Auto most) tally.old (λ faults. faults ≡ 0)
        result engine.new (K.view store.new).records tally.new (O.view out.old) (O.view out.new) }
    ensures faults { (K.view store.new).faults ≡ faults_after_run result (K.view store.old).faults }
    ensures undamaged { (id : ℕ) → IsErrOf result (RunFault.Engine (EngineFault.Damaged id)) → ⊥ }
{
    for _ in 0..most {
        let stepped = engine.auto_step(store)?;
        if is_idle(&stepped) {
            return Ok(());
        }
        tally.count(&stepped);
        print(alloc, engine.flow(), &stepped, "", out)?;
    }
    Ok(())
}

// Whether the step was not enabled.
fn is_idle(stepped: &Stepped) -> bool
    ensures { result ≡ spec.is_idle (outcome_of stepped.now) }
{
    matches!(stepped, Stepped::Idle)
}

// Prints the lines of what came of a step and the reasons behind them, if there are any.
fn print<O: Sink>(
    alloc: Global,
    flow: &Flow,
    stepped: &Stepped,
    reasons: &str,
    out: &mut O,
) -> Result<(), OutFault>
    ensures { Writes (outcome_text flow.now (outcome_of stepped.now) ++ reasons.now) result (O.view out.old) (O.view out.new) }
{
    if reasons.is_empty() && is_silent(stepped) {
        return Ok(());
    }
    match lines_of(alloc, flow, stepped, reasons)? {
        Some(line) => out.write(&line),
        None => Ok(()),
    }
}
