//! The queues to the nodes that are cut are filled.
ghost use Rattle.std.specs.Prelude.{◌≡◌, ◌≢◌, ◌<◌, ℕ, List, length, replicate, slice_get, OnOk};
ghost use Rattle.std.specs.Option.{option_copied};
ghost use Rattle.fw_flow.specs.declared.choice.Cut.TheVariants.{At as CutAt};
ghost use Rattle.fw_flow.specs.Dataflow.{sender, receiver};
ghost use Rattle.fw_model.specs.Choice.{cut_of};
ghost use Rattle.fw_rollback.specs.Edges.{on_edge, nothing_there};
ghost use Rattle.fw_rollback.specs.Built.{by_cut, log_after, AreQueuesBuilt};
ghost use Rattle.fw_rollback.specs.Restored.{log_left_outside};

use crate::asked::front_of;
use crate::{Logs, Queues};
use fw_edge::MsgLog;
use fw_flow::{Choice, EdgeId, Flow};
use fw_frontier::Front;
use std::alloc::AllocError;

/// Puts into the queue of each edge to a node that is cut what the sender's log holds outside the cut: the built log of a
/// sender that is cut itself, else the one that it kept.
pub(crate) fn fill_queues(
    flow: &Flow,
    choice: &Choice,
    kept: &Logs,
    built: &Logs,
    queues: &mut Queues,
) -> Result<(), AllocError>
    requires kept { length kept.now ≡ length flow.now.edges }
    requires built { length built.now ≡ length flow.now.edges }
    requires empty { queues.old ≡ replicate (length flow.now.edges) nothing_there }
    ensures filled { OnOk result (AreQueuesBuilt flow.now choice.now kept.now built.now (length flow.now.edges) queues.new) }
    ensures each { length queues.new ≡ length queues.old }
{
    let (_nodes, edges) = (flow.nodes(), flow.edges());
    for place in 0..edges {
        fill_queue(flow, choice, kept, built, EdgeId::at(place as u32), queues)?;
    }
    Ok(())
}

/// Fills the queue of an edge, if its receiver is cut.
fn fill_queue(
    flow: &Flow,
    choice: &Choice,
    kept: &Logs,
    built: &Logs,
    edge: EdgeId,
    queues: &mut Queues,
) -> Result<(), AllocError>
    requires kept { edge < length kept.now }
    requires built { edge < length built.now }
    requires there { edge < length queues.old }
    requires empty { on_edge queues.old edge ≡ nothing_there }
    ensures filled { (g : List (List ℕ)) → cut_of choice.now (receiver flow.now edge) ≡ CutAt g
        → OnOk result (on_edge queues.new edge ≡ log_left_outside g (log_after flow.now choice.now kept.now built.now edge)) }
    ensures others { (e : ℕ) → e ≢ edge → on_edge queues.new e ≡ on_edge queues.old e }
    ensures each { length queues.new ≡ length queues.old }
{
    let Some(front) = front_of(choice, flow.dst(edge)) else {
        return Ok(());
    };
    match log_of(flow, choice, kept, built, edge) {
        Some(log) => put_outside(front, log, edge, queues),
        None => Ok(()),
    }
}

/// The log that an edge has after the cut, if there is such an edge.
fn log_of<'a>(
    flow: &Flow,
    choice: &Choice,
    kept: &'a Logs,
    built: &'a Logs,
    edge: EdgeId,
) -> Option<&'a MsgLog>
    ensures { option_copied result
        ≡ by_cut (cut_of choice.now (sender flow.now edge)) (slice_get kept.now edge) (slice_get built.now edge) }
{
    match front_of(choice, flow.src(edge)) {
        Some(_) => built.get(edge),
        None => kept.get(edge),
    }
}

/// Puts what the log holds outside the frontier into the queue of an edge, in which nothing is pending yet.
fn put_outside(
    front: &Front,
    log: &MsgLog,
    edge: EdgeId,
    queues: &mut Queues,
) -> Result<(), AllocError>
    requires there { edge < length queues.old }
    requires empty { on_edge queues.old edge ≡ nothing_there }
    ensures filled { OnOk result (on_edge queues.new edge ≡ log_left_outside front.now log.now) }
    ensures others { (e : ℕ) → e ≢ edge → on_edge queues.new e ≡ on_edge queues.old e }
    ensures each { length queues.new ≡ length queues.old }
{
    let messages = log.outside(front)?;
    match queues.get_mut(edge) {
        Some(queue) => queue.put_all(messages),
        None => Ok(()),
    }
}
