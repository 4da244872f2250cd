//! What a collection gives up.
ghost use Rattle.std.specs.Prelude.{◌≡◌, IfOk, option_to_list};
ghost use Rattle.fw_model.specs.Machine.{front_of};
ghost use Rattle.fw_model.specs.Writes as writes;
ghost use Rattle.fw_flow.specs.Restoring as restoring;
ghost use Rattle.fw_collect.specs.Drops as spec;
ghost use Rattle.fw_collect.specs.Drops.{watermark, IsPlanned, dropped_records, dropped_events, dropped_messages, dropped_batches};

use crate::drops::{AtNode, Drops, OfNode};
use crate::given_up;
use crate::given_up::is_given_up;
use fw_flow::{Choice, EdgeId, Flow, NodeId, OfEdge, Policy};
use fw_frontier::Front;
use fw_keep::{Entry, Written};
use std::alloc::{AllocError, Global};

/// What is not needed again, where the low watermark rises to the fronts of the choice: of each node that takes checkpoints
/// those strictly within its front, on which none stands that stays; the events of these entries that are given up; of each edge
/// whose sender may send again the messages inside the receiver's front; of each input the batches inside its front.
///
/// It takes time in proportion to the nodes, the edges and the entries, and for each a look at a front or a few. The only
/// error is want of memory.
pub fn plan(
    alloc: Global,
    flow: &Flow,
    choice: &Choice,
    entries: &[Entry],
) -> Result<Drops, AllocError>
    ensures { IfOk result (IsPlanned flow.now (watermark choice.now) entries.now) }
{
    Ok(Drops {
        records: records(alloc, flow, choice)?,
        events: events(alloc, flow, choice, entries)?,
        messages: messages(alloc, flow, choice)?,
        batches: batches(alloc, flow, choice)?,
    })
}

/// Each node that takes checkpoints, with its front.
#[tactic(auto, using(crate::proofs::PlanLaws::picked_one, crate::proofs::PlanLaws::picked_none))]
fn records(alloc: Global, flow: &Flow, choice: &Choice) -> Result<Vec<OfNode>, AllocError>
    ensures { IfOk result (λ drops. drops.items ≡ dropped_records flow.now (watermark choice.now)) }
{
    let mut drops = Vec::new(alloc);
    for place in 0..flow.nodes() {
        let node = NodeId::at(place as u32);
        if takes_checkpoints(flow.policy(node)) {
            drops.push(OfNode {
                node,
                front: front_again(alloc, choice, node)?,
            })?;
        }
    }
    Ok(drops)
}

/// Each input with its front.
#[tactic(auto, using(crate::proofs::PlanLaws::picked_one, crate::proofs::PlanLaws::picked_none))]
fn batches(alloc: Global, flow: &Flow, choice: &Choice) -> Result<Vec<OfNode>, AllocError>
    ensures { IfOk result (λ drops. drops.items ≡ dropped_batches flow.now (watermark choice.now)) }
{
    let mut drops = Vec::new(alloc);
    for place in 0..flow.nodes() {
        let node = NodeId::at(place as u32);
        if flow.kind(node).is_input() {
            drops.push(OfNode {
                node,
                front: front_again(alloc, choice, node)?,
            })?;
        }
    }
    Ok(drops)
}

/// Each edge whose sender may send again, with the receiver's front.
#[tactic(auto, using(crate::proofs::PlanLaws::picked_one, crate::proofs::PlanLaws::picked_none))]
fn messages(alloc: Global, flow: &Flow, choice: &Choice) -> Result<Vec<OfEdge>, AllocError>
    ensures { IfOk result (λ drops. drops.items ≡ dropped_messages flow.now (watermark choice.now)) }
{
    let mut drops = Vec::new(alloc);
    let (_nodes, edges) = (flow.nodes(), flow.edges());
    for place in 0..edges {
        let edge = EdgeId::at(place as u32);
        if can_resend(flow.policy(flow.src(edge))) {
            drops.push(OfEdge {
                edge,
                front: front_again(alloc, choice, flow.dst(edge))?,
            })?;
        }
    }
    Ok(drops)
}

/// The node and stamp of each entry of an event that is given up.
fn events(
    alloc: Global,
    flow: &Flow,
    choice: &Choice,
    entries: &[Entry],
) -> Result<Vec<AtNode>, AllocError>
    ensures { IfOk result (λ drops. drops.items ≡ dropped_events flow.now (watermark choice.now) entries.now) }
{
    let mut drops = Vec::new(alloc);
    for entry in entries {
        if let Some(drop) = given_up_event(flow, choice, entry) {
            drops.push(drop)?;
        }
    }
    Ok(drops)
}

/// The node and stamp of an entry, if it is one of an event that is given up.
fn given_up_event(flow: &Flow, choice: &Choice, entry: &Entry) -> Option<AtNode>
    ensures { option_to_list result ≡ spec.given_up_event flow.now (watermark choice.now) entry.now.node entry.now.written }
{
    let Written::Event(event) = &entry.written else {
        return None;
    };
    let at = event.at();
    if !is_given_up(flow, choice, entry.node, at) {
        return None;
    }
    Some(AtNode {
        node: entry.node,
        at: at.copy(),
    })
}

/// The front of a node once more.
fn front_again(alloc: Global, choice: &Choice, node: NodeId) -> Result<Front, AllocError>
    ensures { IfOk result (λ front. front ≡ front_of (watermark choice.now) node) }
{
    match given_up::front_of(choice, node) {
        Some(front) => front.copy(),
        None => Ok(Front::all(alloc)),
    }
}

/// Whether a node of the policy takes checkpoints.
fn takes_checkpoints(policy: Policy) -> bool
    ensures { result ≡ writes.takes_checkpoints policy }
{
    matches!(policy, Policy::Lazy | Policy::Logged | Policy::Eager)
}

/// Whether a node of the policy can send again what it sent.
fn can_resend(policy: Policy) -> bool
    ensures { result ≡ restoring.can_resend policy }
{
    matches!(policy, Policy::Logged | Policy::Eager | Policy::Full)
}
