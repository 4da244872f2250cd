//! The step of an acknowledgement.
ghost use Rattle.std.specs.Prelude.{◌≡◌, ◌↔◌, ◌∷◌, [], IfSome, IfNone, IsTrue, OnSome};
ghost use Rattle.fw_flow.specs.declared.step.Step.TheVariants as steps;
ghost use Rattle.fw_flow.specs.Dataflow.{kind_of};
ghost use Rattle.fw_border.specs.Outputs.{AreByNumber};
ghost use Rattle.fw_running.specs.Drawn.{supply};
ghost use Rattle.fw_running.specs.Kept.{output_of};
ghost use Rattle.fw_running.specs.Ready.{HasSomething, CanAcknowledge};
ghost use Rattle.fw_running.specs.Shaped.{IsShaped};
ghost use Rattle.fw_running.specs.Steps.{InnerAnswers};

use fw_flow::{Kind, NodeId};
use fw_running::{Effect, EngineFault, Running, Stepped};
use fw_time::Stamp;

/// The output acknowledges its next stamp.
pub(crate) fn acknowledge(running: &mut Running, output: NodeId) -> Result<Stepped, EngineFault>
    requires shaped { IsShaped running.old }
    ensures answers { InnerAnswers running.old (steps.Ack output) result running.new }
    ensures draws { supply running.new.parts.keep ≡ supply running.old.parts.keep }
{
    let Some(at) = next_acknowledged(running, output) else {
        return Ok(Stepped::Idle);
    };
    running.ready.put_output(output)?;
    let recs = running.parts.outputs.acknowledge(output);
    Ok(Stepped::Did(Effect::Acked { output, at, recs }))
}

/// The stamp that a node acknowledges next, if it is an output that is not failed, at which that is settled and has something
/// to acknowledge.
pub(crate) fn next_acknowledged(running: &Running, node: NodeId) -> Option<Stamp>
    requires { IsShaped running.now }
    ensures can { IfSome result (λ at. CanAcknowledge running.now node) }
    ensures next { IfSome result (λ at. at ≡ (output_of running.now node).bound ∷ []) }
    ensures none { IfNone result (CanAcknowledge running.now node → ⊥) }
    ensures by_number { OnSome result (AreByNumber (output_of running.now node).recs) }
{
    if running.is_failed(node) || !running.flow.kind(node).is_output() {
        return None;
    }
    let x = u32::try_from(running.parts.outputs.bound(node)).ok()?;
    let at = Stamp::new(&[x]);
    let settled = running.progress.settled().get(node.place() as usize)?;
    if settled.contains(&at) && has_something(running, node, &at, x) {
        Some(at)
    } else {
        None
    }
}

// Whether an output has something to acknowledge at a number or an epoch: a rec at the number; a batch of the epoch, or a
// rec at it or a later one.
fn has_something(running: &Running, output: NodeId, at: &Stamp, x: u32) -> bool
    requires { at.now ≡ x ∷ [] }
    ensures something { IsTrue result ↔ HasSomething running.now.epochs (output_of running.now output) (kind_of running.now.flow output) x }
    ensures by_number { AreByNumber (output_of running.now output).recs }
{
    let any = running.parts.outputs.has_any(output);
    match running.flow.kind(output) {
        Kind::OutputNumber => any && !running.parts.outputs.at(output, at).is_empty(),
        _ => u64::from(x) < running.epochs || any,
    }
}
