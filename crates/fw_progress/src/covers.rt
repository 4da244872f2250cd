//! What the traces of nodes cover.
ghost use Rattle.std.specs.Prelude.{◌≡◌, ◌<◌, ◌++◌, ℕ, true, List, length, option_to_list, IsTrue, IsErr, IfOk, OnOk};
ghost use Rattle.fw_flow.specs.declared.event.Event.{Event};
ghost use Rattle.fw_flow.specs.Dataflow.{System, sender, receiver, bounds_of, node_frontier, HasEpochs};
ghost use Rattle.fw_flow.specs.Projection.{sent_count};
ghost use Rattle.fw_model.specs.EventStamps.{tells_sent};
ghost use Rattle.fw_model.specs.History.{IsLegal};
ghost use Rattle.fw_progress.specs.Covers as spec;
ghost use Rattle.fw_progress.specs.Trace.{AreTraces, HaveLists, IsTraceWithin, counts_sent};

use crate::traces::Traces;
use fw_flow::laws::flow_is_well_formed;
use fw_flow::{EdgeId, Flow, NodeId};
use fw_frontier::Front;
use fw_time::{Bounds, Stamp};
use std::alloc::{AllocError, Global};

impl Traces {
    /// The cover of what was delivered on an edge inside a frontier of its receiver, which holds its base; `Front::all` is
    /// that of a receiver that stays as it is. The error is want of memory.
    pub fn delivered_cover(&self, flow: &Flow, edge: EdgeId, f: &Front) -> Result<Front, AllocError>
        requires traces { AreTraces flow.now self.now }
        requires there { edge < length flow.now.edges }
        ensures cover { (sys : System) (h : List Event) → sys.flow ≡ flow.now → HasEpochs sys → IsLegal sys h
            → IsTraceWithin true sys h (receiver flow.now edge) f.now self.now → IfOk result (spec.CoversDelivered sys h edge f.now) }
        ensures stays { IsTrue self.now.refused → IsErr result }
    {
        flow_is_well_formed(flow);
        if self.refused {
            return Err(AllocError);
        }
        self.delivered[edge.place() as usize].cover(f, &flow.domain(flow.dst(edge)))
    }

    /// The cover of what a node was notified of inside a frontier, which holds its base; `Front::all` is that of a node that
    /// stays as it is. The error is want of memory.
    pub fn notified_cover(&self, flow: &Flow, node: NodeId, f: &Front) -> Result<Front, AllocError>
        requires traces { AreTraces flow.now self.now }
        requires there { node < length flow.now.nodes }
        ensures cover { (sys : System) (h : List Event) → sys.flow ≡ flow.now → HasEpochs sys → IsLegal sys h
            → IsTraceWithin true sys h node f.now self.now → IfOk result (spec.CoversNotified sys h node f.now) }
        ensures stays { IsTrue self.now.refused → IsErr result }
    {
        flow_is_well_formed(flow);
        if self.refused {
            return Err(AllocError);
        }
        self.notified[node.place() as usize].cover(f, &flow.domain(node))
    }

    /// The cover of what was sent on an edge by the events of its sender inside a frontier, which holds its base;
    /// `Front::all` is that of a sender that stays as it is. Of a sender that cannot send again it is what counts as
    /// discarded; of another one the answer has no use. The error is want of memory, or that the number of what a sequence
    /// sent would not fit its stamps.
    pub fn sent_cover(
        &self,
        alloc: Global,
        flow: &Flow,
        edge: EdgeId,
        f: &Front,
    ) -> Result<Front, AllocError>
        requires traces { AreTraces flow.now self.now }
        requires there { edge < length flow.now.edges }
        ensures cover { (sys : System) (h : List Event) → sys.flow ≡ flow.now → HasEpochs sys → IsLegal sys h
            → tells_sent flow.now (sender flow.now edge) ≡ true → IsTraceWithin true sys h (sender flow.now edge) f.now self.now
            → IfOk result (spec.CoversSent sys h edge f.now) }
        ensures stays { IsTrue self.now.refused → IsErr result }
    {
        flow_is_well_formed(flow);
        if self.refused {
            return Err(AllocError);
        }
        let sent = self.sent_inside(alloc, flow, edge, f)?;
        Front::cover_of(alloc, &sent, &flow.domain(flow.dst(edge)))
    }

    /// How many messages a node sent by its events inside a frontier, which holds its base. It is counted where the node takes
    /// checkpoints; of other nodes the answer has no use. The error is that the number would not fit 64
    /// bits.
    pub fn sent_count(&self, flow: &Flow, node: NodeId, f: &Front) -> Result<u64, AllocError>
        requires traces { AreTraces flow.now self.now }
        requires there { node < length flow.now.nodes }
        ensures count { (sys : System) (h : List Event) → sys.flow ≡ flow.now → HasEpochs sys → IsLegal sys h
            → counts_sent flow.now node ≡ true → IsTraceWithin true sys h node f.now self.now
            → IfOk result (λ n. n ≡ sent_count sys h node (node_frontier flow.now node f.now)) }
        ensures stays { IsTrue self.now.refused → IsErr result }
    {
        flow_is_well_formed(flow);
        if self.refused {
            return Err(AllocError);
        }
        self.counted[node.place() as usize].count(f)
    }

    /// Stamps that stand for those at which the sender of an edge sends there by its events inside a frontier: of a sequence
    /// the last one. The error is want of memory, or that the number of what a sequence sent would not fit its stamps.
    fn sent_inside(
        &self,
        alloc: Global,
        flow: &Flow,
        edge: EdgeId,
        f: &Front,
    ) -> Result<Vec<Stamp>, AllocError>
        requires lists { HaveLists flow.now self.now }
        requires there { edge < length flow.now.edges }
        requires node { sender flow.now edge < length flow.now.nodes }
        ensures { IfOk result (λ sent. sent.items ≡ spec.sent_inside flow.now self.now edge f.now) }
    {
        let node = flow.src(edge);
        if flow.kind(node).is_sequence() {
            last_number(alloc, self.counted[node.place() as usize].count(f)?)
        } else {
            let kept = self.sent[edge.place() as usize].stamps_inside(f)?;
            send_stamps(alloc, flow, node, &kept)
        }
    }
}

/// The last of so many numbers, if there is one. The error is want of memory, or that it would not fit a stamp.
pub(crate) fn last_number(alloc: Global, count: u64) -> Result<Vec<Stamp>, AllocError>
    ensures { IfOk result (λ last. last.items ≡ spec.last_number count) }
{
    let mut last = Vec::new(alloc);
    if count > 0 {
        let number = u32::try_from(count - 1).map_err(|_| AllocError)?;
        last.push(Stamp::new(&[number]))?;
    }
    Ok(last)
}

/// At which stamps a node that is no sequence sends by its events at these. The error is want of memory.
fn send_stamps(
    alloc: Global,
    flow: &Flow,
    node: NodeId,
    stamps: &[Stamp],
) -> Result<Vec<Stamp>, AllocError>
    ensures { IfOk result (λ sent. sent.items ≡ spec.send_stamps flow.now node stamps.now) }
{
    let bounds = flow.domain(node);
    let mut sent = Vec::new(alloc);
    for stamp in stamps {
        push_sent(&mut sent, flow, node, &bounds, stamp)?;
    }
    Ok(sent)
}

/// Adds at which stamp an event of a node at a stamp sends, if it does; the bounds of the node's domain are at hand. The error
/// is want of memory.
fn push_sent(
    sent: &mut Vec<Stamp>,
    flow: &Flow,
    node: NodeId,
    bounds: &Bounds,
    stamp: &Stamp,
) -> Result<(), AllocError>
    requires { bounds.now ≡ bounds_of flow.now node }
    ensures { OnOk result (sent.new.items ≡ sent.old.items ++ option_to_list (spec.sent_stamp_at flow.now node stamp.now)) }
{
    if let Some(at) = sends_within(flow, node, bounds, stamp) {
        sent.push(at)?;
    }
    Ok(())
}

/// At which stamp an event of a node at a stamp sends, where the bounds of the node's domain are at hand; none where it sends
/// nothing, as at a stamp that is not of the domain.
pub(crate) fn sends_within(flow: &Flow, node: NodeId, bounds: &Bounds, at: &Stamp) -> Option<Stamp>
    requires { bounds.now ≡ bounds_of flow.now node }
    ensures { result ≡ spec.sent_stamp_at flow.now node at.now }
{
    if !at.in_domain(bounds) {
        return None;
    }
    flow.send_stamp(node, at)
}
