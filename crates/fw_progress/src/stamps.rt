//! A node's traces as data for a recovery or a checkpoint.
ghost use Rattle.std.specs.Prelude.{◌≡◌, ◌<◌, ◌++◌, ℕ, Bool, true, List, [], ◌∷◌, length, map, slice_index_or, option_copied, IsTrue, IsErr, IfOk, OnOk};
ghost use Rattle.std.specs.List.{flat_map};
ghost use Rattle.fw_frontier.specs.Frontier.{Frontier};
ghost use Rattle.fw_flow.specs.declared.event.Event.{Event};
ghost use Rattle.fw_flow.specs.Dataflow.{System, bounds_of, out_edges, node_frontier, HasEpochs};
ghost use Rattle.fw_model.specs.EventStamps.{AreStampsIf};
ghost use Rattle.fw_model.specs.Filtering.{events_inside};
ghost use Rattle.fw_model.specs.History.{IsLegal};
ghost use Rattle.fw_progress.specs.Covers.{sent_stamp_at};
ghost use Rattle.fw_progress.specs.StampData as spec;
ghost use Rattle.fw_progress.specs.Trace.{AreTraces, HaveLists, IsTraceIf, IsTraceWithin};

use crate::covers::{last_number, sends_within};
use crate::kept_stamps::KeptStamps;
use crate::sent_tally::SentTally;
use crate::traces::{Traces, counts_sent};
use fw_flow::laws::flow_is_well_formed;
use fw_flow::{Causes, Counted, CountedMessages, EdgeId, Flow, NodeId, Notices, Stamps};
use fw_frontier::Front;
use fw_time::{Bounds, Stamp};
use std::alloc::{AllocError, Global};

impl Traces {
    /// Where a node's events are and where they sent, as a recovery is offered it: for each in-edge one message at each stamp
    /// that is kept of what was delivered there, with that stamp in the place of its causes; for each out-edge one message
    /// of each kept event that sends, and of a sequence whose messages are counted the last one, as if the first epoch sent
    /// it. The error is want of memory, or that the number of what a sequence sent would not fit its stamps.
    pub fn stamps(&self, alloc: Global, flow: &Flow, node: NodeId) -> Result<Stamps, AllocError>
        requires traces { AreTraces flow.now self.now }
        requires there { node < length flow.now.nodes }
        ensures stamps { (whole : Bool) (sys : System) (h : List Event) (base : Frontier) → sys.flow ≡ flow.now → HasEpochs sys → IsLegal sys h
            → IsTraceIf whole sys h node base self.now → IfOk result (AreStampsIf whole sys h node base) }
        ensures kept { IfOk result (spec.HasItsStamps flow.now node self.now) }
        ensures stays { IsTrue self.now.refused → IsErr result }
    {
        flow_is_well_formed(flow);
        if self.refused {
            return Err(AllocError);
        }
        self.stamps_taken(alloc, flow, node, None)
    }

    /// The same of its events inside a frontier, which holds its base, thinned with the frontier as base, as the entry of a
    /// checkpoint at the frontier keeps it. The error is as there.
    pub fn stamps_inside(
        &self,
        alloc: Global,
        flow: &Flow,
        node: NodeId,
        f: &Front,
    ) -> Result<Stamps, AllocError>
        requires traces { AreTraces flow.now self.now }
        requires there { node < length flow.now.nodes }
        ensures stamps { (sys : System) (h : List Event) → sys.flow ≡ flow.now → HasEpochs sys → IsLegal sys h
            → IsTraceWithin true sys h node f.now self.now → IfOk result (AreStampsIf true sys
            (events_inside (node_frontier flow.now node f.now) h) node (node_frontier flow.now node f.now)) }
        ensures stays { IsTrue self.now.refused → IsErr result }
    {
        flow_is_well_formed(flow);
        if self.refused {
            return Err(AllocError);
        }
        self.stamps_taken(alloc, flow, node, Some(f))
    }

    /// All, or what is inside a frontier if one is given. The error is as there.
    fn stamps_taken(
        &self,
        alloc: Global,
        flow: &Flow,
        node: NodeId,
        f: Option<&Front>,
    ) -> Result<Stamps, AllocError>
        requires lists { HaveLists flow.now self.now }
        requires there { node < length flow.now.nodes }
        ensures { IfOk result (λ stamps. stamps ≡ spec.stamps_by flow.now node (option_copied f.entry) self.now) }
    {
        let place = node.place() as usize;
        let delivered = all_delivered(alloc, flow, node, &self.delivered, f)?;
        let notified = taken(&self.notified[place], f)?;
        let count = count_taken(alloc, &self.counted[place], f)?;
        let sent = all_sent(alloc, flow, node, &self.sent, f, count)?;
        Ok(Stamps {
            delivered: CountedMessages::of(delivered),
            notified: Notices::of(notified),
            sent: CountedMessages::of(sent),
        })
    }
}

/// The kept stamps, or those inside a frontier, thinned inside it. The error is want of memory.
fn taken(kept: &KeptStamps, f: Option<&Front>) -> Result<Vec<Stamp>, AllocError>
    ensures { IfOk result (λ stamps. stamps.items ≡ spec.taken (option_copied f.entry) kept.now) }
{
    match f {
        None => kept.stamps(),
        Some(f) => kept.thinned(f),
    }
}

/// How many messages are counted, or of events inside a frontier. The error is that the number would not fit 64 bits.
fn count_taken(alloc: Global, tally: &SentTally, f: Option<&Front>) -> Result<u64, AllocError>
    ensures { IfOk result (λ n. n ≡ spec.count_taken (option_copied f.entry) tally.now) }
{
    match f {
        None => tally.count(&Front::all(alloc)),
        Some(f) => tally.count(f),
    }
}

/// One message at each stamp that is taken of each in-edge of a node. The error is want of memory.
fn all_delivered(
    alloc: Global,
    flow: &Flow,
    node: NodeId,
    lists: &[KeptStamps],
    f: Option<&Front>,
) -> Result<Vec<Counted>, AllocError>
    requires { length lists.now ≡ length flow.now.edges }
    ensures { IfOk result (λ ms. ms.items ≡ spec.all_delivered flow.now node
        (λ d. spec.taken (option_copied f.entry) (slice_index_or lists.now d []))) }
{
    let mut messages = Vec::new(alloc);
    let edges = flow.in_edges(node);
    for edge in edges {
        push_delivered(&mut messages, *edge, lists, f)?;
    }
    Ok(messages)
}

/// Adds one message at each stamp that is taken of an edge. The error is want of memory.
fn push_delivered(
    messages: &mut Vec<Counted>,
    edge: EdgeId,
    lists: &[KeptStamps],
    f: Option<&Front>,
) -> Result<(), AllocError>
    requires { edge < length lists.now }
    ensures { OnOk result (messages.new.items ≡ messages.old.items
        ++ map (spec.message_at edge) (spec.taken (option_copied f.entry) (slice_index_or lists.now edge []))) }
{
    let kept = &lists[edge.place() as usize];
    match f {
        None => push_at_each(messages, edge, kept.as_slice()),
        Some(f) => push_at_each(messages, edge, &kept.thinned(f)?),
    }
}

/// Adds one message at each of the stamps, with its own stamp for a cause. The error is want of memory.
fn push_at_each(
    messages: &mut Vec<Counted>,
    edge: EdgeId,
    stamps: &[Stamp],
) -> Result<(), AllocError>
    ensures { OnOk result (messages.new.items ≡ messages.old.items ++ map (spec.message_at edge) stamps.now) }
{
    messages.reserve(stamps.len())?;
    for stamp in stamps {
        messages.push(message(edge, stamp.copy(), stamp))?;
    }
    Ok(())
}

/// One message.
fn message(edge: EdgeId, at: Stamp, cause: &Stamp) -> Counted
    ensures { result ≡ record { edge = edge; at = at; causes = cause.now ∷ []; count = 1 } }
{
    Counted {
        edge,
        at,
        causes: Causes::of(cause.copy()),
        count: 1,
    }
}

/// On each out-edge of a node one message of each event that sends, at each stamp that is taken of the edge; of a sequence
/// that sent so many the last one, if they are counted. The error is want of memory, or that the last number would not fit a
/// stamp.
fn all_sent(
    alloc: Global,
    flow: &Flow,
    node: NodeId,
    lists: &[KeptStamps],
    f: Option<&Front>,
    count: u64,
) -> Result<Vec<Counted>, AllocError>
    requires { length lists.now ≡ length flow.now.edges }
    ensures { IfOk result (λ ms. ms.items ≡ spec.all_sent flow.now node
        (λ e. spec.taken (option_copied f.entry) (slice_index_or lists.now e [])) count) }
{
    if flow.kind(node).is_sequence() {
        if !counts_sent(flow, node) {
            return Ok(Vec::new(alloc));
        }
        return numbered(alloc, flow, node, &last_number(alloc, count)?);
    }
    let mut messages = Vec::new(alloc);
    let edges = flow.out_edges(node);
    for edge in edges {
        push_taken(&mut messages, flow, node, *edge, lists, f)?;
    }
    Ok(messages)
}

/// Adds one message on an out-edge of each event that sends, at each stamp that is taken of the edge. The error is want of
/// memory.
fn push_taken(
    messages: &mut Vec<Counted>,
    flow: &Flow,
    node: NodeId,
    edge: EdgeId,
    lists: &[KeptStamps],
    f: Option<&Front>,
) -> Result<(), AllocError>
    requires { edge < length lists.now }
    ensures { OnOk result (messages.new.items ≡ messages.old.items
        ++ spec.counted_at_stamps flow.now node (spec.taken (option_copied f.entry) (slice_index_or lists.now edge [])) edge) }
{
    let kept = taken(&lists[edge.place() as usize], f)?;
    push_sent(messages, flow, node, edge, &kept)
}

/// Adds one message on an out-edge of each event at these stamps that sends. The error is want of memory.
fn push_sent(
    messages: &mut Vec<Counted>,
    flow: &Flow,
    node: NodeId,
    edge: EdgeId,
    stamps: &[Stamp],
) -> Result<(), AllocError>
    ensures { OnOk result (messages.new.items ≡ messages.old.items ++ spec.counted_at_stamps flow.now node stamps.now edge) }
{
    messages.reserve(stamps.len())?;
    let bounds = flow.domain(node);
    for stamp in stamps {
        push_sent_at(messages, flow, node, &bounds, edge, stamp)?;
    }
    Ok(())
}

/// Adds the message on an out-edge of an event at a stamp, if it sends. The error is want of memory.
fn push_sent_at(
    messages: &mut Vec<Counted>,
    flow: &Flow,
    node: NodeId,
    bounds: &Bounds,
    edge: EdgeId,
    stamp: &Stamp,
) -> Result<(), AllocError>
    requires { bounds.now ≡ bounds_of flow.now node }
    ensures { OnOk result (messages.new.items
        ≡ messages.old.items ++ spec.message_of edge stamp.now (sent_stamp_at flow.now node stamp.now)) }
{
    if let Some(at) = sends_within(flow, node, bounds, stamp) {
        messages.push(message(edge, at, stamp))?;
    }
    Ok(())
}

/// One message of the first epoch at each of these numbers, on each out-edge of a sequence. The error is want of memory.
fn numbered(
    alloc: Global,
    flow: &Flow,
    node: NodeId,
    numbers: &[Stamp],
) -> Result<Vec<Counted>, AllocError>
    ensures { IfOk result (λ ms. ms.items ≡ flat_map (spec.messages_numbered numbers.now) (out_edges flow.now node)) }
{
    let mut messages = Vec::new(alloc);
    let edges = flow.out_edges(node);
    for edge in edges {
        push_numbered(&mut messages, *edge, numbers)?;
    }
    Ok(messages)
}

/// The same on an out-edge. The error is want of memory.
fn push_numbered(
    messages: &mut Vec<Counted>,
    edge: EdgeId,
    numbers: &[Stamp],
) -> Result<(), AllocError>
    ensures { OnOk result (messages.new.items ≡ messages.old.items ++ spec.messages_numbered numbers.now edge) }
{
    let first = Stamp::new(&[0]);
    for number in numbers {
        messages.push(message(edge, number.copy(), &first))?;
    }
    Ok(())
}
