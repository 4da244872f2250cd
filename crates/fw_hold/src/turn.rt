//! What follows a step that is done.
ghost use Rattle.std.specs.Prelude.{◌≡◌, ◌+◌, ◌<◌, ◌≤◌, ◌^◌, ℕ, IfOk, OnOk, IsErrOf, IsSome};
ghost use Rattle.fw_root.specs.Sound.{AreLines, AreDigests};
ghost use Rattle.fw_running.specs.declared.fault.EngineFault.TheVariants as fault;
ghost use Rattle.fw_running.specs.EffectText.{outcome_text};
ghost use Rattle.fw_running.specs.Steps.{outcome_of};
ghost use Rattle.fw_hold.specs.declared.fault.HoldFault.TheVariants.{Engine as EngineThere};
ghost use Rattle.fw_hold.specs.Engine.{EntriesAreThere};
ghost use Rattle.fw_hold.specs.Faults.{faults_after_hold, IsOfRoot};
ghost use Rattle.fw_hold.specs.Going.{CountsOut, IsOneTurn, IsRunAt, MakesMoves, IsTurnMade, TellsLines};
ghost use Rattle.fw_hold.specs.Kept as spec;
ghost use Rattle.fw_hold.specs.Kept.{HeldTexts, IsPlanOf};
ghost use Rattle.fw_hold.specs.Moves.{KeptPoint, SchedulePoint, Move};
ghost use Rattle.fw_hold.specs.Place.{place_with_turn};

use crate::found::put_root;
use crate::place::SchedulePlace;
use crate::types::{are_bytes, is_digest};
use crate::{HeldEngine, HeldPlan, HoldFault};
use fw_flow::Flow;
use fw_outside::{Sink, Store};
use fw_root::{Digests, Mark, Printed};
use fw_running::{Effect, Stepped};
use std::alloc::{AllocError, Global};

/// Puts a root of what the engine keeps behind a step that is done, then writes the step's lines; behind a collection it sweeps.
pub fn end_turn<E: HeldEngine, K: Store, O: Sink>(
    alloc: Global,
    plan: &HeldPlan,
    engine: &mut E,
    place: &mut SchedulePlace,
    stepped: Stepped,
    store: &mut K,
    out: &mut O,
) -> Result<(), HoldFault>
    requires stored { EntriesAreThere (E.keep_of engine.old) (K.view store.old).records }
    requires room { place.old.turn + 1 < 2 ^ 64 }
    requires ids { (E.keep_of engine.old).next ≤ 2 ^ 63 }
    ensures stored { OnOk result (EntriesAreThere (E.keep_of engine.new) (K.view store.new).records) }
    ensures next { OnOk result ((E.keep_of engine.new).next ≡ (E.keep_of engine.old).next) }
    ensures counts { OnOk result (place.new ≡ place_with_turn place.old) }
    ensures turned { (texts : HeldTexts) (starts : ℕ) (kept : KeptPoint) (from to : SchedulePoint) (move : Move)
        → IsPlanOf texts plan.now → IsTurnMade E.stand E.keep_of E.flow_of texts starts (K.view store.old).records engine.old place.old kept from move to
        (outcome_of stepped)
        → IsSome (K.view store.new).records → MakesMoves (IsOneTurn move result) texts starts kept from result (K.view store.new).records (O.view out.old) (O.view out.new)
        (IsRunAt E.stand E.keep_of E.flow_of texts starts (K.view store.new).records engine.new place.new) }
    ensures output { CountsOut result (O.view out.old) (O.view out.new) }
    ensures of_root { IsOfRoot result → ⊥ }
    ensures undamaged { (id : ℕ) → IsErrOf result (EngineThere (fault.Damaged id)) → ⊥ }
    ensures told_before { IsSome (K.view store.new).records → IsSome (K.view store.old).records }
    ensures faults { (K.view store.new).faults ≡ faults_after_hold result (K.view store.old).faults }
{
    let collects = is_collection(&stepped);
    let lines = lines_of(alloc, engine.flow(), stepped)?;
    place.turn += 1;
    let root = engine.root(mark_of(plan, place, lines))?;
    engine.stands_over_others();
    put_root(alloc, &root, store)?;
    tell(root.mark.lines.as_slice(), out)?;
    if collects {
        engine.sweep(store)?;
    }
    Ok(())
}

/// Whether a collection was done.
fn is_collection(stepped: &Stepped) -> bool {
    matches!(stepped, Stepped::Did(Effect::Lows(_)))
}

/// The lines of what came of a step.
fn lines_of(alloc: Global, flow: &Flow, stepped: Stepped) -> Result<Printed, AllocError>
    ensures text { IfOk result (λ lines. lines ≡ outcome_text flow.now (outcome_of stepped)) }
    ensures lines { IfOk result AreLines }
{
    let shown = stepped.display(flow);
    let lines = format!(in alloc; "{shown}")?.into_bytes();
    are_bytes(&lines);
    Ok(Printed::of(lines))
}

/// Where a run stands, with these lines.
fn mark_of(plan: &HeldPlan, place: &SchedulePlace, lines: Printed) -> Mark
    ensures exact { result ≡ spec.mark_of plan.now place.now lines }
    ensures digests { AreDigests result.digests }
    ensures line { result.line < 2 ^ 33 }
{
    let SchedulePlace {
        turn,
        ended,
        singles,
        steps,
        idle,
    } = *place;
    let Digests {
        flow,
        inputs,
        schedule,
    } = plan.digests;
    is_digest(&flow);
    is_digest(&inputs);
    is_digest(&schedule);
    Mark {
        digests: Digests {
            flow,
            inputs,
            schedule,
        },
        turn,
        line: plan.line_at(ended),
        singles,
        steps,
        idle,
        lines,
    }
}

/// Writes lines, if there are any.
pub fn tell<O: Sink>(lines: &[u8], out: &mut O) -> Result<(), HoldFault>
    ensures { TellsLines lines.now result (O.view out.old) (O.view out.new) }
{
    if lines.is_empty() {
        return Ok(());
    }
    match out.write(lines) {
        Ok(()) => Ok(()),
        Err(fault) => Err(HoldFault::Out(fault)),
    }
}
