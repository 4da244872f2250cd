//! The steps of a line are taken, printed and counted.
ghost use Rattle.std.specs.Prelude.{◌≡◌, ℕ, None, IsErrOf, IsSome};
ghost use Rattle.fw_engine.specs.Engine.{flow_of};
ghost use Rattle.fw_run.specs.Printed as spec;
ghost use Rattle.fw_running.specs.Faults.{faults_after_step};
ghost use Rattle.fw_running.specs.Steps.{outcome_of};
ghost use Rattle.fw_session.specs.Story.{Story};
ghost use Rattle.fw_live.specs.Relies.{IsItemReliedOn, IsMaybeReliedOn, IsReliedOn, GoesOnPrinting, EndsSo};
ghost use Rattle.fw_live.specs.Answers.{rest_item};
ghost use Rattle.fw_live.specs.Reading.{first_item};
ghost use Rattle.fw_live.specs.Taken.{EndsItem, EndsMaybe, EndsBoth};

use crate::counts::TurnCounts;
use crate::text::write_outcome;
use fw_engine::{EngineFault, Stepped};
use fw_flow::Step;
use fw_living::Living;
use fw_schedule::{Item, STEP_LIMIT};
use std::alloc::Global;

/// Takes the steps of the first of these items, if there is one, and those to rest behind it, where lines are to end so. It prints their
/// lines and counts them, up to the first that the store ends.
pub(crate) fn take_turn<S: Living>(
    alloc: Global,
    session: &mut S,
    items: &[Item],
    rests: bool,
    counts: &mut TurnCounts,
    into: &mut Vec<u8>,
) -> Result<(), EngineFault>
    ensures flow { flow_of (S.engine_of session.new) ≡ flow_of (S.engine_of session.old) }
    ensures told_before { IsSome (S.records session.new) → IsSome (S.records session.old) }
    ensures texts { S.digests_of session.new ≡ S.digests_of session.old }
    ensures left { (story : Story) → S.at session.old story → S.may_restart session.old → IsSome (S.records session.new) → S.may_restart session.new }
    ensures faults { S.fault_count session.new ≡ faults_after_step result (S.fault_count session.old) }
    ensures unharmed { (story : Story) (id : ℕ) → S.at session.old story → IsErrOf result (EngineFault.Damaged id)
        → S.records session.new ≡ None }
    ensures ends { (story : Story) → S.at session.old story
        → IsMaybeReliedOn (S.records session.new) (first_item items.now)
        → EndsSo (λ ending. GoesOnPrinting (flow_of (S.engine_of session.old)) (EndsBoth (flow_of (S.engine_of session.old)) story (first_item items.now) (rest_item rests) ending)
        (record { bytes = into.old.items; counts = counts.old }) (record { bytes = into.new.items; counts = counts.new })
        (S.at session.new)) result }
{
    take_first(alloc, session, items, counts, into)?;
    take_rest(alloc, session, rests, counts, into)
}

// Takes the steps to rest, where lines are to end so.
fn take_rest<S: Living>(
    alloc: Global,
    session: &mut S,
    rests: bool,
    counts: &mut TurnCounts,
    into: &mut Vec<u8>,
) -> Result<(), EngineFault>
    ensures flow { flow_of (S.engine_of session.new) ≡ flow_of (S.engine_of session.old) }
    ensures told_before { IsSome (S.records session.new) → IsSome (S.records session.old) }
    ensures texts { S.digests_of session.new ≡ S.digests_of session.old }
    ensures left { (story : Story) → S.at session.old story → S.may_restart session.old → IsSome (S.records session.new) → S.may_restart session.new }
    ensures faults { S.fault_count session.new ≡ faults_after_step result (S.fault_count session.old) }
    ensures unharmed { (id : ℕ) → IsErrOf result (EngineFault.Damaged id) → ⊥ }
    ensures ends { (story : Story) → S.at session.old story
        → EndsSo (λ ending. GoesOnPrinting (flow_of (S.engine_of session.old)) (EndsMaybe (flow_of (S.engine_of session.old)) story (rest_item rests) ending)
        (record { bytes = into.old.items; counts = counts.old }) (record { bytes = into.new.items; counts = counts.new })
        (S.at session.new)) result }
{
    match rests {
        true => take_auto(alloc, session, STEP_LIMIT, counts, into),
        false => Ok(()),
    }
}

// Takes the steps of the first of these items, if there is one.
fn take_first<S: Living>(
    alloc: Global,
    session: &mut S,
    items: &[Item],
    counts: &mut TurnCounts,
    into: &mut Vec<u8>,
) -> Result<(), EngineFault>
    ensures flow { flow_of (S.engine_of session.new) ≡ flow_of (S.engine_of session.old) }
    ensures told_before { IsSome (S.records session.new) → IsSome (S.records session.old) }
    ensures texts { S.digests_of session.new ≡ S.digests_of session.old }
    ensures left { (story : Story) → S.at session.old story → S.may_restart session.old → IsSome (S.records session.new) → S.may_restart session.new }
    ensures faults { S.fault_count session.new ≡ faults_after_step result (S.fault_count session.old) }
    ensures unharmed { (story : Story) (id : ℕ) → S.at session.old story → IsErrOf result (EngineFault.Damaged id)
        → S.records session.new ≡ None }
    ensures ends { (story : Story) → S.at session.old story
        → IsMaybeReliedOn (S.records session.new) (first_item items.now)
        → EndsSo (λ ending. GoesOnPrinting (flow_of (S.engine_of session.old)) (EndsMaybe (flow_of (S.engine_of session.old)) story (first_item items.now) ending)
        (record { bytes = into.old.items; counts = counts.old }) (record { bytes = into.new.items; counts = counts.new })
        (S.at session.new)) result }
{
    match items {
        [] => Ok(()),
        [item, ..] => take_item(alloc, session, item, counts, into),
    }
}

// Takes the steps of an item, prints their lines and counts them.
fn take_item<S: Living>(
    alloc: Global,
    session: &mut S,
    item: &Item,
    counts: &mut TurnCounts,
    into: &mut Vec<u8>,
) -> Result<(), EngineFault>
    ensures flow { flow_of (S.engine_of session.new) ≡ flow_of (S.engine_of session.old) }
    ensures told_before { IsSome (S.records session.new) → IsSome (S.records session.old) }
    ensures texts { S.digests_of session.new ≡ S.digests_of session.old }
    ensures left { (story : Story) → S.at session.old story → S.may_restart session.old → IsSome (S.records session.new) → S.may_restart session.new }
    ensures faults { S.fault_count session.new ≡ faults_after_step result (S.fault_count session.old) }
    ensures unharmed { (story : Story) (id : ℕ) → S.at session.old story → IsErrOf result (EngineFault.Damaged id)
        → S.records session.new ≡ None }
    ensures ends { (story : Story) → S.at session.old story
        → IsItemReliedOn (S.records session.new) item.now
        → EndsSo (λ ending. GoesOnPrinting (flow_of (S.engine_of session.old)) (EndsItem (flow_of (S.engine_of session.old)) story item.now ending)
        (record { bytes = into.old.items; counts = counts.old }) (record { bytes = into.new.items; counts = counts.new })
        (S.at session.new)) result }
{
    match item {
        Item::One(step) => take_step(alloc, session, step, counts, into),
        Item::Auto(most) => take_auto(alloc, session, *most, counts, into),
    }
}

// Takes a step, prints its lines and counts it.
fn take_step<S: Living>(
    alloc: Global,
    session: &mut S,
    step: &Step,
    counts: &mut TurnCounts,
    into: &mut Vec<u8>,
) -> Result<(), EngineFault>
    ensures flow { flow_of (S.engine_of session.new) ≡ flow_of (S.engine_of session.old) }
    ensures told_before { IsSome (S.records session.new) → IsSome (S.records session.old) }
    ensures texts { S.digests_of session.new ≡ S.digests_of session.old }
    ensures left { (story : Story) → S.at session.old story → S.may_restart session.old → IsSome (S.records session.new) → S.may_restart session.new }
    ensures faults { S.fault_count session.new ≡ faults_after_step result (S.fault_count session.old) }
    ensures unharmed { (story : Story) (id : ℕ) → S.at session.old story → IsErrOf result (EngineFault.Damaged id)
        → S.records session.new ≡ None }
    ensures ends { (story : Story) → S.at session.old story
        → IsReliedOn (S.records session.new) step.now
        → EndsSo (λ ending. GoesOnPrinting (flow_of (S.engine_of session.old)) (EndsItem (flow_of (S.engine_of session.old)) story (Item.One step.now) ending)
        (record { bytes = into.old.items; counts = counts.old }) (record { bytes = into.new.items; counts = counts.new })
        (S.at session.new)) result }
{
    let stepped = session.step(step)?;
    counts.count(&stepped);
    write_outcome(alloc, session.engine().flow(), &stepped, into)?;
    Ok(())
}

// Takes the first step that is enabled, again and again, at most so many, prints their lines and counts them.
fn take_auto<S: Living>(
    alloc: Global,
    session: &mut S,
    most: u64,
    counts: &mut TurnCounts,
    into: &mut Vec<u8>,
) -> Result<(), EngineFault>
    ensures flow { flow_of (S.engine_of session.new) ≡ flow_of (S.engine_of session.old) }
    ensures told_before { IsSome (S.records session.new) → IsSome (S.records session.old) }
    ensures texts { S.digests_of session.new ≡ S.digests_of session.old }
    ensures left { (story : Story) → S.at session.old story → S.may_restart session.old → IsSome (S.records session.new) → S.may_restart session.new }
    ensures faults { S.fault_count session.new ≡ faults_after_step result (S.fault_count session.old) }
    ensures unharmed { (id : ℕ) → IsErrOf result (EngineFault.Damaged id) → ⊥ }
    ensures ends { (story : Story) → S.at session.old story
        → EndsSo (λ ending. GoesOnPrinting (flow_of (S.engine_of session.old)) (EndsItem (flow_of (S.engine_of session.old)) story (Item.Auto most) ending)
        (record { bytes = into.old.items; counts = counts.old }) (record { bytes = into.new.items; counts = counts.new })
        (S.at session.new)) result }
{
    for _ in 0..most {
        let stepped = session.auto_step()?;
        if is_idle(&stepped) {
            return Ok(());
        }
        counts.count(&stepped);
        write_outcome(alloc, session.engine().flow(), &stepped, into)?;
    }
    Ok(())
}

// Whether the step was not enabled.
fn is_idle(stepped: &Stepped) -> bool
    ensures { result ≡ spec.is_idle (outcome_of stepped.now) }
{
    matches!(stepped, Stepped::Idle)
}
