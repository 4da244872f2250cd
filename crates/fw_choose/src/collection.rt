//! The step of a collection.
ghost use Rattle.std.specs.Prelude.{◌≡◌, ◌↔◌, ◌<◌, ◌≢◌, ℕ, false, length, Option, Ok, IsTrue, IfOk, OnOk};
ghost use Rattle.fw_collect.specs.Drops.{watermark};
ghost use Rattle.fw_collect.specs.Dropped.{log_outside};
ghost use Rattle.fw_flow.specs.declared.step.Step.TheVariants as steps;
ghost use Rattle.fw_frontier.specs.Front.{same_front};
ghost use Rattle.fw_keep.specs.Stored.{Records, IsStored};
ghost use Rattle.fw_model.specs.Machine as machine;
ghost use Rattle.fw_progress.specs.Trace.{HaveLists};
ghost use Rattle.fw_rollback.specs.Edges.{on_edge};
ghost use Rattle.fw_choose.specs.Collecting.{AreLeft, AreGivenUp, IsRaised, AreRaised, RaisesLow};
ghost use Rattle.fw_running.specs.Drawn.{supply};
ghost use Rattle.fw_running.specs.Shaped.{HasOneEach, IsShaped};
ghost use Rattle.fw_running.specs.Steps.{StepAnswers, TakesStep};

use crate::outlook::choose;
use crate::viewing::{Lost, fronts_of};
use fw_collect::{Drops, apply, plan};
use fw_flow::{Choice, Flow, Fronts, NodeId, OfEdge};
use fw_frontier::Front;
use fw_outside::Store;
use fw_progress::Traces;
use fw_rollback::{Logs, Parts};
use fw_running::{Effect, EngineFault, Running, Stepped, takes_checkpoints};
use std::alloc::AllocError;

/// The low watermark is taken anew, and what lies below it is given up. Then the bytes that wait are swept, also where the low
/// watermark stays: after a fault of the store they wait for the next collection.
pub fn collect<K: Store>(running: &mut Running, store: &mut K) -> Result<Stepped, EngineFault>
    requires shaped { IsShaped running.old }
    requires stored { IsStored running.old.parts.keep (K.view store.old).records }
    ensures answers { StepAnswers K.view running.old store.old steps.Collect result running.new store.new }
    ensures draws { supply running.new.parts.keep ≡ supply running.old.parts.keep }
{
    let stepped = raise_low(running)?;
    running.parts.keep.sweep(store)?;
    Ok(stepped)
}

/// The low watermark is taken anew, and what lies below it is given up. Nothing changes where it stays. What is given up stays in the
/// store. The error is want of memory.
pub fn raise_low(running: &mut Running) -> Result<Stepped, AllocError>
    requires shaped { IsShaped running.old }
    ensures shaped { OnOk result (IsShaped running.new) }
    ensures stored { (records : Option Records) → IsStored running.old.parts.keep records → IsStored running.new.parts.keep records }
    ensures flow { running.new.flow ≡ running.old.flow }
    ensures takes { IfOk result (λ stepped. (records : Option Records)
        → TakesStep running.old records steps.Collect (Ok stepped) running.new records) }
    ensures draws { supply running.new.parts.keep ≡ supply running.old.parts.keep }
{
    let choice = choose(running, Lost::All)?;
    let low = fronts_of(running.alloc, &choice)?;
    if are_same(&low, running.parts.low.as_slice()) {
        return Ok(Stepped::Idle);
    }
    give_up(running, &choice, low)?;
    Ok(Stepped::Did(Effect::Lows(choice)))
}

// The low watermark rises to the fronts of the choice, and what is not needed again is given up.
fn give_up(running: &mut Running, choice: &Choice, low: Vec<Front>) -> Result<(), AllocError>
    requires one_each { HasOneEach running.old }
    requires lists { HaveLists running.old.flow running.old.traces }
    requires live { running.old.traces.refused ≡ false }
    requires low { low.items ≡ watermark choice.now }
    requires low_each { length low.items ≡ length running.old.flow.nodes }
    ensures collected { IfOk result (λ u. RaisesLow (watermark choice.now) running.old running.new) }
    ensures flow { running.new.flow ≡ running.old.flow }
    ensures stored { (records : Option Records) → IsStored running.old.parts.keep records → IsStored running.new.parts.keep records }
    ensures draws { supply running.new.parts.keep ≡ supply running.old.parts.keep }
{
    let drops = plan(
        running.alloc,
        &running.flow,
        choice,
        running.parts.keep.entries(),
    )?;
    raise_bases(&running.flow, &low, &mut running.traces)?;
    drop_from(&drops, &mut running.parts);
    running.parts.low = Fronts::of(low);
    Ok(())
}

// The traces of the nodes whose base is a floor are thinned inside the new low watermark.
fn raise_bases(flow: &Flow, low: &[Front], traces: &mut Traces) -> Result<(), AllocError>
    requires lists { HaveLists flow.now traces.old }
    requires live { traces.old.refused ≡ false }
    requires low { length low.now ≡ length flow.now.nodes }
    ensures { OnOk result (AreRaised flow.now (length flow.now.nodes) low.now traces.old traces.new) }
{
    for place in 0..flow.nodes() {
        raise_base(flow, NodeId::at(place as u32), &low[place], traces)?;
    }
    Ok(())
}

// The same of a node.
fn raise_base(
    flow: &Flow,
    node: NodeId,
    base: &Front,
    traces: &mut Traces,
) -> Result<(), AllocError>
    requires lists { HaveLists flow.now traces.old }
    requires live { traces.old.refused ≡ false }
    requires there { node < length flow.now.nodes }
    ensures { OnOk result (IsRaised flow.now node base.now traces.old traces.new) }
{
    if takes_checkpoints(flow.policy(node)) {
        return Ok(());
    }
    traces.settle(flow, node, base)
}

// What is given up goes.
fn drop_from(drops: &Drops, parts: &mut Parts)
    ensures { AreGivenUp drops.now parts.old parts.new }
{
    apply(drops, &mut parts.keep, &mut parts.sources);
    drop_messages(&drops.messages, &mut parts.logs);
}

// The messages of the logs of these edges go that are inside the front beside them.
fn drop_messages(fronts: &[OfEdge], logs: &mut Logs)
    ensures { AreLeft fronts.now logs.old logs.new }
{
    for front in fronts {
        drop_inside(front, logs);
    }
}

// The messages of an edge's log go that are inside a front.
fn drop_inside(of_edge: &OfEdge, logs: &mut Logs)
    ensures one_each { length logs.new ≡ length logs.old }
    ensures here { on_edge logs.new of_edge.now.edge ≡ log_outside of_edge.now.front (on_edge logs.old of_edge.now.edge) }
    ensures others { (e : ℕ) → e ≢ of_edge.now.edge → on_edge logs.new e ≡ on_edge logs.old e }
{
    if let Some(log) = logs.get_mut(of_edge.edge) {
        log.drop_inside(&of_edge.front);
    }
}

// Whether the frontiers are the same ones, each in its place.
fn are_same(fronts: &[Front], others: &[Front]) -> bool
    requires { length fronts.now ≡ length others.now }
    ensures { IsTrue result ↔ fronts.now ≡ others.now }
{
    for place in 0..fronts.len() {
        if !is_same_at(fronts, others, place) {
            return false;
        }
    }
    true
}

// Whether they are at a place.
fn is_same_at(fronts: &[Front], others: &[Front], place: usize) -> bool
    requires fronts { place < length fronts.now }
    requires others { place < length others.now }
    ensures { result ≡ same_front (machine.front_of fronts.now place) (machine.front_of others.now place) }
{
    fronts[place].same(&others[place])
}
