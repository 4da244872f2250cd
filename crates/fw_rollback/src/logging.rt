//! The logs of the nodes that are cut are filled.
ghost use Rattle.std.specs.Prelude.{◌≡◌, ◌≢◌, ◌<◌, ◌++◌, ◌∷◌, ℕ, List, length, OnOk};
ghost use Rattle.std.specs.List.{AllByRecursion};
ghost use Rattle.fw_frontier.specs.Front.{inside};
ghost use Rattle.fw_flow.specs.declared.event.Message.{Message as Sent};
ghost use Rattle.fw_flow.specs.Dataflow.{receiver};
ghost use Rattle.fw_model.specs.Machine.{front_of};
ghost use Rattle.fw_rollback.specs.Edges.{on_edge};
ghost use Rattle.fw_record.specs.Log.{logged_on};
ghost use Rattle.fw_rollback.specs.Restored.{log_of};

use crate::Logs;
use fw_flow::{EdgeId, Flow, Fronts, Message};
use fw_record::Logged;
use fw_time::Stamp;
use std::alloc::AllocError;

/// Appends these messages to the logs of their edges, but for what lies inside the receivers' low watermarks.
pub(crate) fn log_recorded(
    flow: &Flow,
    low: &Fronts,
    recorded: &[Logged],
    logs: &mut Logs,
) -> Result<(), AllocError>
    requires { AllByRecursion (λ l. l.edge < length logs.old) recorded.now }
    ensures logged { (e : ℕ) (ms : List Sent) → on_edge logs.old e ≡ log_of flow.now low.now e ms
        → OnOk result (on_edge logs.new e ≡ log_of flow.now low.now e (logged_on e recorded.now ++ ms)) }
    ensures others { (e : ℕ) → AllByRecursion (λ l. l.edge ≢ e) recorded.now → on_edge logs.new e ≡ on_edge logs.old e }
    ensures each { length logs.new ≡ length logs.old }
{
    for logged in recorded {
        log_outside(flow, low, logged.edge, logged.message.copy(), logs)?;
    }
    Ok(())
}

/// Appends a message to the log of an edge, if it lies outside the receiver's low watermark.
pub(crate) fn log_outside(
    flow: &Flow,
    low: &Fronts,
    edge: EdgeId,
    message: Message,
    logs: &mut Logs,
) -> Result<(), AllocError>
    requires { edge < length logs.old }
    ensures logged { (ms : List Sent) → on_edge logs.old edge ≡ log_of flow.now low.now edge ms
        → OnOk result (on_edge logs.new edge ≡ log_of flow.now low.now edge (message ∷ ms)) }
    ensures others { (e : ℕ) → e ≢ edge → on_edge logs.new e ≡ on_edge logs.old e }
    ensures each { length logs.new ≡ length logs.old }
{
    if is_below(flow, low, edge, &message.at) {
        return Ok(());
    }
    match logs.get_mut(edge) {
        Some(log) => log.append(message),
        None => Ok(()),
    }
}

/// Whether a stamp lies inside the low watermark of the receiver of an edge.
fn is_below(flow: &Flow, low: &Fronts, edge: EdgeId, at: &Stamp) -> bool
    ensures { result ≡ inside (front_of low.now (receiver flow.now edge)) at.now }
{
    match low.as_slice().get(flow.dst(edge).place() as usize) {
        Some(front) => front.contains(at),
        None => true,
    }
}
