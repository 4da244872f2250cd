//! A step is taken.
ghost use Rattle.std.specs.Prelude.{◌≡◌, ◌≢◌};
ghost use Rattle.fw_flow.specs.declared.step.Step.TheVariants.{Collect};
ghost use Rattle.fw_keep.specs.Stored.{IsStored};
ghost use Rattle.fw_running.specs.Drawn.{supply};
ghost use Rattle.fw_running.specs.Shaped.{IsShaped};
ghost use Rattle.fw_running.specs.Steps.{StepAnswers};
ghost use Rattle.fw_engine.specs.Engine.{StepDraws};

use crate::acknowledgement::acknowledge;
use fw_choose::collect;
use fw_events::{deliver, inject, notify};
use fw_fail::fail;
use fw_flow::Step;
use fw_outside::Store;
use fw_recover::recover;
use fw_running::{EngineFault, Running, Stepped};
use fw_settle::{checkpoint, persist, progress};

/// Takes a step, and tells what it shows.
pub(crate) fn take<K: Store>(
    running: &mut Running,
    step: &Step,
    store: &mut K,
) -> Result<Stepped, EngineFault>
    requires shaped { IsShaped running.old }
    requires stored { IsStored running.old.parts.keep (K.view store.old).records }
    ensures answers { StepAnswers K.view running.old store.old step.now result running.new store.new }
    ensures draws { step.now ≢ Collect → StepDraws running.old (K.view store.old).records result running.new (K.view store.new).records }
    ensures undrawn { step.now ≡ Collect → supply running.new.parts.keep ≡ supply running.old.parts.keep }
{
    match step {
        Step::Inject(source) => inject(running, *source),
        Step::Deliver(edge, at) => deliver(running, *edge, at.as_ref(), store),
        Step::Notify(node, at) => notify(running, *node, at.as_ref(), store),
        Step::Progress => progress(running, store),
        Step::Checkpoint(node) => checkpoint(running, *node, store),
        Step::Persist => Ok(persist(running)),
        Step::Fail(nodes) => fail(running, nodes.as_slice()),
        Step::Recover => recover(running, store),
        Step::Collect => collect(running, store),
        Step::Ack(output) => acknowledge(running, *output),
    }
}
