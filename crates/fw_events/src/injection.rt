//! The step of an injection.
ghost use Rattle.std.specs.Prelude.{◌≡◌, ◌<◌, ◌↔◌, true, length, IsTrue, IfOk, OnOk};
ghost use Rattle.fw_flow.specs.declared.event.Event.TheVariants as events;
ghost use Rattle.fw_flow.specs.declared.step.Step.TheVariants as steps;
ghost use Rattle.fw_flow.specs.Dataflow.{kind_of, is_input_kind};
ghost use Rattle.fw_progress.specs.Progress.{CanSend, stamps_of_recs};
ghost use Rattle.fw_running.specs.Drawn.{supply};
ghost use Rattle.fw_running.specs.Kept.{source_of};
ghost use Rattle.fw_running.specs.Shaped.{IsShaped};
ghost use Rattle.fw_running.specs.Steps.{InnerAnswers};
ghost use Rattle.fw_running.specs.Ready.{CanInject};
ghost use Rattle.fw_events.specs.AfterEvent.{TakesEvent};
ghost use Rattle.fw_events.specs.Taking.{with_told, FindsBatch, IsNextSent, TellsOf};

use crate::sending::send;
use fw_bag::{Bag, Rec};
use fw_flow::NodeId;
use fw_node::Sends;
use fw_running::{Effect, EngineFault, Running, Stepped};
use fw_table::{Sent, SentRecs};
use fw_time::Stamp;
use std::alloc::{AllocError, Global};

/// The input sends its next batch.
pub fn inject(running: &mut Running, source: NodeId) -> Result<Stepped, EngineFault>
    requires shaped { IsShaped running.old }
    ensures answers { InnerAnswers running.old (steps.Inject source) result running.new }
    ensures draws { supply running.new.parts.keep ≡ supply running.old.parts.keep }
{
    if running.is_failed(source) || !running.flow.kind(source).is_input() {
        return Ok(Stepped::Idle);
    }
    let Some((epoch, sends)) = next_batch(running, source)? else {
        return Ok(Stepped::Idle);
    };
    inject_batch(running, source, epoch, &sends)?;
    Ok(Stepped::Did(Effect::Quiet))
}

/// Whether a node is an input that has a batch to inject, and is not failed.
pub fn may_inject(running: &Running, node: NodeId) -> bool
    requires { IsShaped running.now }
    ensures { IsTrue result ↔ CanInject running.now node }
{
    !running.is_failed(node)
        && running.flow.kind(node).is_input()
        && running.parts.sources.next(node).is_some()
}

// The input injects its next batch, which sends this.
fn inject_batch(
    running: &mut Running,
    source: NodeId,
    epoch: u32,
    sends: &Sends,
) -> Result<(), AllocError>
    requires shaped { IsShaped running.old }
    requires input { is_input_kind (kind_of running.old.flow source) ≡ true }
    requires next { IsNextSent (source_of running.old source) epoch sends.now }
    ensures keep { running.new.parts.keep ≡ running.old.parts.keep }
    ensures flow { running.new.flow ≡ running.old.flow }
    ensures shaped { OnOk result (IsShaped running.new) }
    ensures takes { OnOk result (TakesEvent (events.Inject source epoch) running.old running.new) }
{
    running.parts.sources.advance(source);
    let sent = send(running, source, &Stamp::new(&[epoch]), sends)?;
    tell_injected(running, source, epoch, sent.as_slice())
}

// Traces and progress are told of an injection, at which the input sends these recs.
fn tell_injected(
    running: &mut Running,
    source: NodeId,
    epoch: u32,
    sent: &[(Stamp, Rec)],
) -> Result<(), AllocError>
    requires shaped { IsShaped running.old }
    requires there { source < length running.old.flow.nodes }
    requires sent { CanSend running.old.flow source (stamps_of_recs sent.now) }
    ensures others { running.new ≡ with_told running.new.traces running.new.progress running.old }
    ensures told { OnOk result (TellsOf (events.Inject source epoch) sent.now running.old running.new) }
    ensures shaped { OnOk result (IsShaped running.new) }
{
    running.traces.injected(&running.flow, source, epoch, sent)?;
    running.progress.injected(&running.flow, source, sent)?;
    Ok(())
}

// The epoch and the recs of the batch that an input injects next.
fn next_batch(running: &Running, source: NodeId) -> Result<Option<(u32, Sends)>, AllocError>
    ensures { IfOk result (FindsBatch (source_of running.now source)) }
{
    let Some(batch) = running.parts.sources.next(source) else {
        return Ok(None);
    };
    let Ok(epoch) = u32::try_from(running.parts.sources.injected(source)) else {
        return Ok(None);
    };
    let sends = Sends::AtOneStamp(Sent {
        at: Stamp::new(&[epoch]),
        recs: SentRecs::all(recs_of(running.alloc, batch)?),
    });
    Ok(Some((epoch, sends)))
}

// The recs of a bag, in order.
fn recs_of(alloc: Global, batch: &Bag) -> Result<Vec<Rec>, AllocError>
    ensures { IfOk result (λ recs. recs.items ≡ batch.now.recs) }
{
    let mut recs = Vec::with_capacity(alloc, batch.len())?;
    for rec in batch {
        recs.push(rec)?;
    }
    Ok(recs)
}
