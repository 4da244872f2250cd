//! The step of a recovery.
ghost use Rattle.std.specs.Prelude.{◌≡◌, OnOk};
ghost use Rattle.std.specs.List.{list_any};
ghost use Rattle.fw_flow.specs.declared.step.Step.TheVariants as steps;
ghost use Rattle.fw_keep.specs.Stored.{IsStored};
ghost use Rattle.fw_model.specs.Choice.{IsChoiceOf};
ghost use Rattle.fw_recover.specs.CutProgress.{AreAtReceivers};
ghost use Rattle.fw_recover.specs.Recovered.{KeepsFit, IsFollowed};
ghost use Rattle.fw_running.specs.Drawn.{DrawsAtMost};
ghost use Rattle.fw_running.specs.Held.{RecoversHeld};
ghost use Rattle.fw_running.specs.Shaped.{IsShaped};
ghost use Rattle.fw_running.specs.Steps.{StepAnswers};

use crate::rebuild::{cut_progress, cut_traces};
use fw_choose::{Lost, choose};
use fw_flow::Choice;
use fw_outside::Store;
use fw_rollback::restore;
use fw_running::{Effect, EngineFault, Running, Stepped, no_stamps};
use std::alloc::AllocError;

/// The failed nodes are restored, and others as far as they have to be: what is outside its node's cut is undone, also of
/// what is settled and written, and no node is failed any more. A fault of the store leaves all as it was.
/// An engine that held what is left of a state in which every node is failed stands in full then.
pub fn recover<K: Store>(running: &mut Running, store: &mut K) -> Result<Stepped, EngineFault>
    requires shaped { IsShaped running.old }
    requires stored { IsStored running.old.parts.keep (K.view store.old).records }
    ensures answers { StepAnswers K.view running.old store.old steps.Recover result running.new store.new }
    ensures held { RecoversHeld running.old (K.view store.old).records result running.new (K.view store.new).records }
    ensures draws { DrawsAtMost 0 running.old.parts.keep running.new.parts.keep (K.view store.old).records (K.view store.new).records }
{
    if !any_of(&running.failed) {
        return Ok(Stepped::Idle);
    }
    let choice = choose(running, Lost::Failed)?;
    restore(
        running.alloc,
        &running.flow,
        &choice,
        &mut running.parts,
        store,
    )?;
    follow(running, &choice)?;
    Ok(Stepped::Did(Effect::Cuts(choice)))
}

// What is beside the parts follows the choice to which these were restored.
fn follow(running: &mut Running, choice: &Choice) -> Result<(), AllocError>
    requires choice { IsChoiceOf running.old.flow choice.now }
    requires places { KeepsFit running.old }
    requires queues { AreAtReceivers running.old.flow running.old.parts.queues }
    ensures parts { running.new.parts ≡ running.old.parts }
    ensures flow { running.new.flow ≡ running.old.flow }
    ensures followed { OnOk result (IsFollowed choice.now running.old running.new) }
{
    cut_traces(
        running.alloc,
        &running.flow,
        choice,
        running.parts.keep.entries(),
        &mut running.traces,
    )?;
    cut_progress(
        running.alloc,
        &running.flow,
        choice,
        &running.parts.queues,
        &mut running.progress,
    )?;
    running.failed = vec![in running.alloc; false; running.flow.nodes()]?;
    running.lost = no_stamps(running.alloc, running.flow.nodes())?;
    running.ready.put_all(&running.flow)
}

// Whether one of these is.
fn any_of(failed: &[bool]) -> bool
    ensures { result ≡ list_any (λ down. down) failed.now }
{
    failed.iter().any(|down| *down)
}
