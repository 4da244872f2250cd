//! Data as a node's traces, when a recovery restores it by a checkpoint.
ghost use Rattle.std.specs.Prelude.{◌≡◌, ◌<◌, ◌∷◌, [], ℕ, false, length, slice_index_or, IsTrue, IsErr, IfOk};
ghost use Rattle.fw_model.specs.EventStamps.{causes_of};
ghost use Rattle.fw_model.specs.Offers.{counted_on_edge};
ghost use Rattle.fw_progress.specs.Progress.{ChangesAt};
ghost use Rattle.fw_progress.specs.StampData.{AreTheSame, TakeUp, AreDelivered, AreCausesOnEdges};
ghost use Rattle.fw_progress.specs.Traces.{ChangesInto};
ghost use Rattle.fw_progress.specs.Trace.{AreTraces, AreRestoredTo, no_tally};

use crate::kept_stamps::KeptStamps;
use crate::sent_tally::SentTally;
use crate::tally::Tally;
use crate::traces::Traces;
use fw_flow::laws::flow_is_well_formed;
use fw_flow::{Counted, EdgeId, Flow, NodeId, Stamps};
use fw_time::Stamp;
use std::alloc::{AllocError, Global};

impl Traces {
    /// A node's traces become those that the entry of a checkpoint keeps: stamps that stand for its events, and how many
    /// messages these sent. The error is want of memory.
    pub fn restore(
        &mut self,
        flow: &Flow,
        node: NodeId,
        stamps: &Stamps,
        sent: u64,
    ) -> Result<(), AllocError>
        requires traces { AreTraces flow.now self.old }
        requires there { node < length flow.now.nodes }
        ensures traces { AreTraces flow.now self.new }
        ensures restored { IfOk result (λ u. AreRestoredTo flow.now node stamps.now sent self.old self.new) }
        ensures ready { IfOk result (λ u. self.new.refused ≡ false) }
        ensures refused { IsErr result → IsTrue self.new.refused }
        ensures stays { IsTrue self.old.refused → IsErr result }
    {
        flow_is_well_formed(flow);
        if self.refused {
            return Err(AllocError);
        }
        self.refused = true;
        let place = node.place() as usize;
        restore_delivered(flow, &mut self.delivered, node, stamps.delivered.as_slice())?;
        restore_notified(&mut self.notified, place, stamps.notified.as_slice())?;
        restore_sent(flow, &mut self.sent, node, stamps.sent.as_slice())?;
        restore_count(&mut self.counted, place, sent);
        self.refused = false;
        Ok(())
    }
}

/// The lists of a node's in-edges become the stamps of these messages, each of its edge. The error is want of memory.
fn restore_delivered(
    flow: &Flow,
    lists: &mut Vec<KeptStamps>,
    node: NodeId,
    messages: &[Counted],
) -> Result<(), AllocError>
    requires there { node < length flow.now.nodes }
    requires one_each { length lists.old.items ≡ length flow.now.edges }
    ensures { IfOk result (λ u. AreDelivered flow.now node messages.now lists.old.items lists.new.items) }
{
    clear_into(flow, lists, node);
    take_up(flow, lists, node, messages)
}

/// The lists of a node's in-edges become empty.
fn clear_into(flow: &Flow, lists: &mut Vec<KeptStamps>, node: NodeId)
    requires { length lists.old.items ≡ length flow.now.edges }
    ensures { ChangesInto flow.now node (λ old new. new ≡ []) lists.old.items lists.new.items }
{
    let edges = flow.in_edges(node);
    for edge in edges {
        clear_on(lists, *edge);
    }
}

/// The list of an edge becomes empty.
fn clear_on(lists: &mut Vec<KeptStamps>, edge: EdgeId)
    requires { edge < length lists.old.items }
    ensures { ChangesAt edge [] (λ old new. new ≡ []) lists.old.items lists.new.items }
{
    let alloc = *lists.allocator();
    lists[edge.place() as usize] = KeptStamps::new(alloc);
}

/// The lists of a node's in-edges have the stamps of these messages more, each of its edge. The error is want of memory.
fn take_up(
    flow: &Flow,
    lists: &mut Vec<KeptStamps>,
    node: NodeId,
    messages: &[Counted],
) -> Result<(), AllocError>
    requires there { node < length flow.now.nodes }
    requires one_each { length lists.old.items ≡ length flow.now.edges }
    ensures { IfOk result (λ u. TakeUp flow.now node messages.now lists.old.items lists.new.items) }
{
    for message in messages {
        take_up_one(flow, lists, node, message)?;
    }
    Ok(())
}

/// The same of one message. The error is want of memory.
fn take_up_one(
    flow: &Flow,
    lists: &mut Vec<KeptStamps>,
    node: NodeId,
    message: &Counted,
) -> Result<(), AllocError>
    requires there { node < length flow.now.nodes }
    requires one_each { length lists.old.items ≡ length flow.now.edges }
    ensures { IfOk result (λ u. TakeUp flow.now node (message.now ∷ []) lists.old.items lists.new.items) }
{
    if flow.dst(message.edge) != node {
        return Ok(());
    }
    let kept = &mut lists[message.edge.place() as usize];
    kept.add(&message.at)?;
    Ok(())
}

/// The list at a place becomes these stamps. The error is want of memory.
fn restore_notified(
    lists: &mut Vec<KeptStamps>,
    place: usize,
    stamps: &[Stamp],
) -> Result<(), AllocError>
    requires { place < length lists.old.items }
    ensures { IfOk result (λ u. ChangesAt place [] (λ old new. AreTheSame stamps.now new) lists.old.items lists.new.items) }
{
    let alloc = *lists.allocator();
    lists[place] = KeptStamps::of(alloc, stamps)?;
    Ok(())
}

/// The lists of a node's out-edges become the causes of these messages, each of its edge, unless the node is a sequence. The
/// error is want of memory.
fn restore_sent(
    flow: &Flow,
    lists: &mut Vec<KeptStamps>,
    node: NodeId,
    messages: &[Counted],
) -> Result<(), AllocError>
    requires { length lists.old.items ≡ length flow.now.edges }
    ensures { IfOk result (λ u. AreCausesOnEdges flow.now node messages.now lists.old.items lists.new.items) }
{
    if flow.kind(node).is_sequence() {
        return Ok(());
    }
    let edges = flow.out_edges(node);
    for edge in edges {
        restore_on(lists, *edge, messages)?;
    }
    Ok(())
}

/// The list of an edge becomes the causes of these messages on it. The error is want of memory.
fn restore_on(
    lists: &mut Vec<KeptStamps>,
    edge: EdgeId,
    messages: &[Counted],
) -> Result<(), AllocError>
    requires { edge < length lists.old.items }
    ensures { IfOk result (λ u. ChangesAt edge [] (λ old new. AreTheSame (causes_of (counted_on_edge edge messages.now)) new)
        lists.old.items lists.new.items) }
{
    let alloc = *lists.allocator();
    lists[edge.place() as usize] = causes_on(alloc, edge, messages)?;
    Ok(())
}

/// The causes of these messages on an edge. The error is want of memory.
fn causes_on(alloc: Global, edge: EdgeId, messages: &[Counted]) -> Result<KeptStamps, AllocError>
    ensures { IfOk result (AreTheSame (causes_of (counted_on_edge edge messages.now))) }
{
    let mut kept = KeptStamps::new(alloc);
    for message in messages {
        if message.edge == edge {
            kept.add_all(message.causes.stamps())?;
        }
    }
    Ok(kept)
}

/// The tally at a place becomes so many messages, inside the base.
fn restore_count(tallies: &mut Vec<SentTally>, place: usize, sent: u64)
    requires { place < length tallies.old.items }
    ensures { ChangesAt place no_tally (λ old new. new ≡ record { inside = sent; outside = [] }) tallies.old.items tallies.new.items }
{
    let alloc = *tallies.allocator();
    tallies[place] = SentTally {
        inside: sent,
        outside: Tally::new(alloc),
    };
}
