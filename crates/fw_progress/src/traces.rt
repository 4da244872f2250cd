//! Where the events of all nodes are, and how many messages they sent.
ghost use Rattle.std.specs.Prelude.{◌≡◌, ◌<◌, ◌∷◌, [], ℕ, Bool, true, false, length, IsTrue, IsErr, IfOk, OnErr};
ghost use Rattle.std.specs.List.{AllByRecursion, list_any};
ghost use Rattle.fw_frontier.specs.Frontier.{Frontier};
ghost use Rattle.fw_flow.specs.declared.event.Event.TheVariants as events;
ghost use Rattle.fw_flow.specs.declared.event.Message.{Message};
ghost use Rattle.fw_flow.specs.Dataflow.{System};
ghost use Rattle.fw_flow.specs.KeyParts.{is_of_part_if};
ghost use Rattle.fw_model.specs.Writes as writes;
ghost use Rattle.fw_progress.specs.Progress.{ChangesAt, stamps_on};
ghost use Rattle.fw_progress.specs.SentTally.{CountsMore, IsCountedInAll, IsTallyCutTo};
ghost use Rattle.fw_progress.specs.Trace as spec;
ghost use Rattle.fw_progress.specs.Trace.{AreTraces, IsTraceIf, TracesFollow, AreSettledTo, AreThinnedAt, AreCutTo, no_tally, StandForManyMore, SentMore, CountedMore};
ghost use Rattle.fw_progress.specs.Traces.{StandForOneMore, HasAdded, IsThinnedBy, StandsInside, ChangesInto, ChangesOut, ChangesEachOut};

use crate::kept_stamps::KeptStamps;
use crate::sent_tally::SentTally;
use fw_bag::Rec;
use fw_flow::laws::flow_is_well_formed;
use fw_flow::{EdgeId, Flow, KeyPart, NodeId, Policy, is_of_part};
use fw_frontier::Front;
use fw_time::Stamp;
use std::alloc::{AllocError, Global};

/// Where the events of all nodes are and how many messages they sent, as recoveries and checkpoints ask for it. Of each node
/// the stamps are thinned, and the messages counted in all, inside a base, which is the caller's: what is settled where the
/// node takes checkpoints, and else a floor, as its low watermark. Contracts see the parts. To traces to which memory was
/// once refused no more is told, and they say so by an error each time.
#[derive(Debug, Drop)]
pub struct Traces {
    /// For each edge at which stamps something was delivered on it.
    pub delivered: Vec<KeptStamps>,
    /// For each node of which stamps it was notified.
    pub notified: Vec<KeptStamps>,
    /// For each edge, but of a sequence, at which stamps events of its sender sent something on it.
    pub sent: Vec<KeptStamps>,
    /// For each node that takes checkpoints how many messages it sent.
    pub counted: Vec<SentTally>,
    /// Whether memory was refused.
    pub refused: bool,
}

impl Traces {
    /// Those of no event. The error is want of memory.
    pub fn new(alloc: Global, flow: &Flow) -> Result<Self, AllocError>
        ensures traces { IfOk result (AreTraces flow.now) }
        ensures none { (whole : Bool) (sys : System) (p : ℕ) (base : Frontier) → IfOk result (IsTraceIf whole sys [] p base) }
        ensures ready { IfOk result (λ traces. traces.refused ≡ false) }
    {
        Ok(Traces {
            delivered: no_stamps(alloc, flow.edges())?,
            notified: no_stamps(alloc, flow.nodes())?,
            sent: no_stamps(alloc, flow.edges())?,
            counted: no_tallies(alloc, flow.nodes())?,
            refused: false,
        })
    }

    /// A message at the stamp is delivered on the edge, and its receiver sends these recs at these stamps, on each of its
    /// out-edges those that the edge carries. The error is want of memory, or that the number of what a node sent at a stamp would not fit 64 bits.
    pub fn delivered(
        &mut self,
        flow: &Flow,
        edge: EdgeId,
        at: &Stamp,
        sent: &[(Stamp, Rec)],
    ) -> Result<(), AllocError>
        requires traces { AreTraces flow.now self.old }
        requires there { edge < length flow.now.edges }
        ensures traces { AreTraces flow.now self.new }
        ensures follows { (m : Message) → m.at ≡ at.now
            → IfOk result (λ u. TracesFollow flow.now (events.Deliver edge m) sent.now self.old self.new) }
        ensures ready { IfOk result (λ u. self.new.refused ≡ false) }
        ensures refused { IsErr result → IsTrue self.new.refused }
        ensures stays { IsTrue self.old.refused → IsErr result }
    {
        flow_is_well_formed(flow);
        if self.refused {
            return Err(AllocError);
        }
        self.refused = true;
        let node = flow.dst(edge);
        add_at(&mut self.delivered, edge.place() as usize, at)?;
        add_sent(flow, &mut self.sent, node, at, sent)?;
        count_sent(flow, &mut self.counted, node, at, sent.len() as u64)?;
        self.refused = false;
        Ok(())
    }

    /// The node is notified of the stamp, and sends these recs at these stamps, on each of its out-edges those that the edge
    /// carries. The error is want of memory, or that the number of what a node sent at a stamp would not fit 64 bits.
    pub fn notified(
        &mut self,
        flow: &Flow,
        node: NodeId,
        at: &Stamp,
        sent: &[(Stamp, Rec)],
    ) -> Result<(), AllocError>
        requires traces { AreTraces flow.now self.old }
        requires there { node < length flow.now.nodes }
        ensures traces { AreTraces flow.now self.new }
        ensures follows { IfOk result (λ u. TracesFollow flow.now (events.Notify node at.now) sent.now self.old self.new) }
        ensures ready { IfOk result (λ u. self.new.refused ≡ false) }
        ensures refused { IsErr result → IsTrue self.new.refused }
        ensures stays { IsTrue self.old.refused → IsErr result }
    {
        if self.refused {
            return Err(AllocError);
        }
        self.refused = true;
        add_at(&mut self.notified, node.place() as usize, at)?;
        add_sent(flow, &mut self.sent, node, at, sent)?;
        count_sent(flow, &mut self.counted, node, at, sent.len() as u64)?;
        self.refused = false;
        Ok(())
    }

    /// The node injects its batch of the epoch, and sends these recs at these stamps, on each of its out-edges those that the
    /// edge carries. The error is want of memory, or that the number of what a node sent at a stamp would not fit 64 bits.
    pub fn injected(
        &mut self,
        flow: &Flow,
        node: NodeId,
        epoch: u32,
        sent: &[(Stamp, Rec)],
    ) -> Result<(), AllocError>
        requires traces { AreTraces flow.now self.old }
        requires there { node < length flow.now.nodes }
        ensures traces { AreTraces flow.now self.new }
        ensures follows { IfOk result (λ u. TracesFollow flow.now (events.Inject node epoch) sent.now self.old self.new) }
        ensures ready { IfOk result (λ u. self.new.refused ≡ false) }
        ensures refused { IsErr result → IsTrue self.new.refused }
        ensures stays { IsTrue self.old.refused → IsErr result }
    {
        if self.refused {
            return Err(AllocError);
        }
        self.refused = true;
        let at = Stamp::new(&[epoch]);
        add_sent(flow, &mut self.sent, node, &at, sent)?;
        count_sent(flow, &mut self.counted, node, &at, sent.len() as u64)?;
        self.refused = false;
        Ok(())
    }

    /// A larger base of a node: the stamps of its events are thinned, and the messages counted in all, inside it. The error is
    /// want of memory, or that the number of what it sent would not fit 64 bits.
    pub fn settle(&mut self, flow: &Flow, node: NodeId, base: &Front) -> Result<(), AllocError>
        requires traces { AreTraces flow.now self.old }
        requires there { node < length flow.now.nodes }
        ensures traces { AreTraces flow.now self.new }
        ensures settled { IfOk result (λ u. AreSettledTo flow.now node base.now self.old self.new) }
        ensures thinned { IfOk result (λ u. AreThinnedAt flow.now node base.now self.old self.new) }
        ensures ready { IfOk result (λ u. self.new.refused ≡ false) }
        ensures refused { IsErr result → IsTrue self.new.refused }
        ensures stays { IsTrue self.old.refused → IsErr result }
    {
        if self.refused {
            return Err(AllocError);
        }
        self.refused = true;
        settle_into(flow, &mut self.delivered, node, base)?;
        settle_at(&mut self.notified, node.place() as usize, base)?;
        settle_out(flow, &mut self.sent, node, base)?;
        settle_tally(&mut self.counted, node.place() as usize, base)?;
        self.refused = false;
        Ok(())
    }

    /// A node is cut to a frontier that holds its base: what is of its events outside goes. It takes no memory; traces to
    /// which memory was refused stay so.
    pub fn keep_inside(&mut self, flow: &Flow, node: NodeId, f: &Front)
        requires traces { AreTraces flow.now self.old }
        requires there { node < length flow.now.nodes }
        ensures traces { AreTraces flow.now self.new }
        ensures cut { self.old.refused ≡ false → AreCutTo flow.now node f.now self.old self.new }
        ensures stays { self.new.refused ≡ self.old.refused }
    {
        flow_is_well_formed(flow);
        if self.refused {
            return;
        }
        cut_into(flow, &mut self.delivered, node, f);
        cut_at(&mut self.notified, node.place() as usize, f);
        cut_out(flow, &mut self.sent, node, f);
        cut_tally(&mut self.counted, node.place() as usize, f);
    }
}

/// So many lists of no stamps. The error is want of memory.
fn no_stamps(alloc: Global, count: usize) -> Result<Vec<KeptStamps>, AllocError>
    ensures one_each { IfOk result (λ lists. length lists.items ≡ count) }
    ensures none { IfOk result (λ lists. AllByRecursion (λ kept. kept ≡ []) lists.items) }
{
    let mut lists = Vec::new(alloc);
    'each: while lists.len() < count {
        lists.push(KeptStamps::new(alloc))?;
    }
    Ok(lists)
}

/// So many tallies of nothing. The error is want of memory.
fn no_tallies(alloc: Global, count: usize) -> Result<Vec<SentTally>, AllocError>
    ensures one_each { IfOk result (λ tallies. length tallies.items ≡ count) }
    ensures none { IfOk result (λ tallies. AllByRecursion (λ tally. tally ≡ no_tally) tallies.items) }
{
    let mut tallies = Vec::new(alloc);
    'each: while tallies.len() < count {
        tallies.push(SentTally::new(alloc))?;
    }
    Ok(tallies)
}

/// Whether the policy takes checkpoints, asked or of its own.
fn takes_checkpoints(policy: Policy) -> bool
    ensures { result ≡ writes.takes_checkpoints policy }
{
    matches!(policy, Policy::Lazy | Policy::Logged | Policy::Eager)
}

/// Whether it is counted how many messages a node sent: where it takes checkpoints.
pub(crate) fn counts_sent(flow: &Flow, node: NodeId) -> bool
    ensures { result ≡ spec.counts_sent flow.now node }
{
    takes_checkpoints(flow.policy(node))
}

/// One stamp more in one of the lists. The error is want of memory.
pub(crate) fn add_at(
    lists: &mut Vec<KeptStamps>,
    place: usize,
    at: &Stamp,
) -> Result<(), AllocError>
    requires { place < length lists.old.items }
    ensures thinned { IfOk result (λ u. ChangesAt place [] (StandForOneMore at.now) lists.old.items lists.new.items) }
    ensures value { IfOk result (λ u. ChangesAt place [] (HasAdded at.now) lists.old.items lists.new.items) }
{
    let kept = &mut lists[place];
    kept.add(at)?;
    Ok(())
}

/// An event of a node sends these recs: its stamp is kept of each out-edge that carries one of them, unless the node is a
/// sequence. The error is want of memory.
fn add_sent(
    flow: &Flow,
    lists: &mut Vec<KeptStamps>,
    node: NodeId,
    at: &Stamp,
    sent: &[(Stamp, Rec)],
) -> Result<(), AllocError>
    requires { length lists.old.items ≡ length flow.now.edges }
    ensures { IfOk result (λ u. ChangesEachOut flow.now node (λ e. SentMore flow.now node at.now (length (stamps_on flow.now e sent.now)))
        lists.old.items lists.new.items) }
{
    if flow.kind(node).is_sequence() {
        return Ok(());
    }
    let edges = flow.out_edges(node);
    for edge in edges {
        add_carried(flow, lists, *edge, at, sent)?;
    }
    Ok(())
}

/// An event sends these recs: its stamp is kept of an edge, if this carries one of them. The error is want of memory.
fn add_carried(
    flow: &Flow,
    lists: &mut Vec<KeptStamps>,
    edge: EdgeId,
    at: &Stamp,
    sent: &[(Stamp, Rec)],
) -> Result<(), AllocError>
    requires { edge < length lists.old.items }
    ensures { IfOk result (λ u. ChangesAt edge [] (StandForManyMore at.now (length (stamps_on flow.now edge sent.now)))
        lists.old.items lists.new.items) }
{
    if !has_any_of(flow.part_on(edge), sent) {
        return Ok(());
    }
    add_on(lists, edge, at)
}

/// Whether the key of one of the recs is of the part, where there is one; else whether there is a rec.
fn has_any_of(part: Option<KeyPart>, sent: &[(Stamp, Rec)]) -> bool
    ensures { result ≡ list_any (λ s. is_of_part_if part s.1.key) sent.now }
{
    sent.iter().any(|(_at, rec)| is_of_part(part, rec.key))
}

/// One stamp more in the list of an edge. The error is want of memory.
fn add_on(lists: &mut Vec<KeptStamps>, edge: EdgeId, at: &Stamp) -> Result<(), AllocError>
    requires { edge < length lists.old.items }
    ensures thinned { IfOk result (λ u. ChangesAt edge [] (StandForOneMore at.now) lists.old.items lists.new.items) }
    ensures value { IfOk result (λ u. ChangesAt edge [] (HasAdded at.now) lists.old.items lists.new.items) }
{
    add_at(lists, edge.place() as usize, at)
}

/// So many messages are counted more, where they are counted. The error is want of memory, or that their number would not
/// fit 64 bits.
fn count_sent(
    flow: &Flow,
    counted: &mut Vec<SentTally>,
    node: NodeId,
    at: &Stamp,
    count: u64,
) -> Result<(), AllocError>
    requires { node < length counted.old.items }
    ensures { IfOk result (λ u. ChangesAt node no_tally (CountedMore flow.now node at.now count)
        counted.old.items counted.new.items) }
{
    if !counts_sent(flow, node) {
        return Ok(());
    }
    count_at(counted, node.place() as usize, at, count)
}

/// So many messages are counted more in one of the tallies. The error is want of memory, or that their number would not fit
/// 64 bits.
fn count_at(
    tallies: &mut Vec<SentTally>,
    place: usize,
    at: &Stamp,
    count: u64,
) -> Result<(), AllocError>
    requires { place < length tallies.old.items }
    ensures { IfOk result (λ u. ChangesAt place no_tally (CountsMore at.now count) tallies.old.items tallies.new.items) }
{
    let tally = &mut tallies[place];
    tally.add(at, count)?;
    Ok(())
}

/// One of the lists is thinned inside a larger base. The error is want of memory.
fn settle_at(lists: &mut Vec<KeptStamps>, place: usize, base: &Front) -> Result<(), AllocError>
    requires { place < length lists.old.items }
    ensures { IfOk result (λ u. ChangesAt place [] (IsThinnedBy base.now) lists.old.items lists.new.items) }
{
    let kept = &mut lists[place];
    kept.settle(base)?;
    Ok(())
}

/// The same of the list of an edge. The error is want of memory.
fn settle_on(lists: &mut Vec<KeptStamps>, edge: EdgeId, base: &Front) -> Result<(), AllocError>
    requires { edge < length lists.old.items }
    ensures { IfOk result (λ u. ChangesAt edge [] (IsThinnedBy base.now) lists.old.items lists.new.items) }
{
    settle_at(lists, edge.place() as usize, base)
}

/// The same of each in-edge of a node. The error is want of memory.
fn settle_into(
    flow: &Flow,
    lists: &mut Vec<KeptStamps>,
    node: NodeId,
    base: &Front,
) -> Result<(), AllocError>
    requires { length lists.old.items ≡ length flow.now.edges }
    ensures { IfOk result (λ u. ChangesInto flow.now node (IsThinnedBy base.now) lists.old.items lists.new.items) }
{
    let edges = flow.in_edges(node);
    for edge in edges {
        settle_on(lists, *edge, base)?;
    }
    Ok(())
}

/// The same of each out-edge of a node. The error is want of memory.
fn settle_out(
    flow: &Flow,
    lists: &mut Vec<KeptStamps>,
    node: NodeId,
    base: &Front,
) -> Result<(), AllocError>
    requires { length lists.old.items ≡ length flow.now.edges }
    ensures { IfOk result (λ u. ChangesOut flow.now node (IsThinnedBy base.now) lists.old.items lists.new.items) }
{
    let edges = flow.out_edges(node);
    for edge in edges {
        settle_on(lists, *edge, base)?;
    }
    Ok(())
}

/// One of the tallies is settled. The error is that a number would not fit 64 bits.
fn settle_tally(tallies: &mut Vec<SentTally>, place: usize, base: &Front) -> Result<(), AllocError>
    requires { place < length tallies.old.items }
    ensures { IfOk result (λ u. ChangesAt place no_tally (IsCountedInAll base.now) tallies.old.items tallies.new.items) }
{
    let tally = &mut tallies[place];
    tally.settle(base)?;
    Ok(())
}

/// One of the lists is cut to a frontier.
fn cut_at(lists: &mut Vec<KeptStamps>, place: usize, f: &Front)
    requires { place < length lists.old.items }
    ensures { ChangesAt place [] (StandsInside f.now) lists.old.items lists.new.items }
{
    let kept = &mut lists[place];
    kept.keep_inside(f);
}

/// The same of the list of an edge.
fn cut_on(lists: &mut Vec<KeptStamps>, edge: EdgeId, f: &Front)
    requires { edge < length lists.old.items }
    ensures { ChangesAt edge [] (StandsInside f.now) lists.old.items lists.new.items }
{
    cut_at(lists, edge.place() as usize, f);
}

/// The same of each in-edge of a node.
fn cut_into(flow: &Flow, lists: &mut Vec<KeptStamps>, node: NodeId, f: &Front)
    requires { length lists.old.items ≡ length flow.now.edges }
    ensures { ChangesInto flow.now node (StandsInside f.now) lists.old.items lists.new.items }
{
    let edges = flow.in_edges(node);
    for edge in edges {
        cut_on(lists, *edge, f);
    }
}

/// The same of each out-edge of a node.
fn cut_out(flow: &Flow, lists: &mut Vec<KeptStamps>, node: NodeId, f: &Front)
    requires { length lists.old.items ≡ length flow.now.edges }
    ensures { ChangesOut flow.now node (StandsInside f.now) lists.old.items lists.new.items }
{
    let edges = flow.out_edges(node);
    for edge in edges {
        cut_on(lists, *edge, f);
    }
}

/// One of the tallies is cut to a frontier.
fn cut_tally(tallies: &mut Vec<SentTally>, place: usize, f: &Front)
    requires { place < length tallies.old.items }
    ensures { ChangesAt place no_tally (IsTallyCutTo f.now) tallies.old.items tallies.new.items }
{
    let tally = &mut tallies[place];
    tally.keep_inside(f);
}
