//! Whether a record can be one of a node: of a checkpoint at a frontier, whole or as changes, or of an event.
ghost use Rattle.std.specs.Prelude.{◌≡◌, ◌≤◌, ◌↔◌, [], true, IsTrue};
ghost use Rattle.std.specs.List.{AllByRecursion, Contains};
ghost use Rattle.fw_frontier.specs.declared.state.Entries.TheVariants.{Totals as Held};
ghost use Rattle.fw_flow.specs.Dataflow.{node_frontier};
ghost use Rattle.fw_record.specs.OfNode.{IsOnOneOf, IsRecordedOf, count_sum, CountsFitKind, TotalsFitKind, HasNumbersFor, IsTableAt, CanBeLogged, IsLogUnder, IsLogOf, IsCheckpointRecordOf, IsRecordOfCheckpoint, IsRecordOfEvent, CountsFitChanges, IsTableOfChanges, AreChangesOf, IsRecordOfChanges};

use crate::{Checkpoint, Event, Logged, Record};
use fw_flow::{EdgeId, Flow, Kind, NodeId, OfEdge, Policy, Recorded};
use fw_frontier::{Entries, Front, SentCount, State};
use fw_time::Stamp;

/// How many numbers there are for messages.
const NUMBERS: u64 = 1 << 32;

impl Checkpoint {
    /// Whether it is one of the node at the frontier: it names the two; its fronts and messages are on edges of the node, by
    /// stamps of the receivers' domains; what it counts and logs was sent by events inside; and the node's kind and policy
    /// allow its table and its log. An edge may be missing.
    ///
    /// It does not ask whether the checkpoint has a spelling, as one that was read has, nor whether the node writes
    /// checkpoints, which `Flow::restoring` tells.
    pub fn is_of(&self, flow: &Flow, node: NodeId, front: &Front) -> bool
        ensures { IsTrue result ↔ IsCheckpointRecordOf flow.now node front.now self.now }
    {
        self.node == node
            && is_recorded_of(flow, node, front, &self.recorded)
            && is_state_of(flow, node, front, &self.state)
            && is_log_of(flow, node, front, self.log.as_slice())
    }

    /// Whether it holds changes of the node at the frontier: as `is_of`, but that a sequence may have sent more than it counts,
    /// since it counts here what it sent since the base.
    ///
    /// It does not ask what lies outside the base: which front that is, a record does not say.
    pub fn has_changes_of(&self, flow: &Flow, node: NodeId, front: &Front) -> bool
        ensures { IsTrue result ↔ AreChangesOf flow.now node front.now self.now }
    {
        self.node == node
            && is_recorded_of(flow, node, front, &self.recorded)
            && is_state_of_changes(flow, node, front, &self.state)
            && is_log_of(flow, node, front, self.log.as_slice())
    }
}

impl Record {
    /// Whether it is the record of a whole checkpoint of the node at the frontier (`Checkpoint::is_of`).
    pub fn is_checkpoint_of(&self, flow: &Flow, node: NodeId, front: &Front) -> bool
        ensures { IsTrue result ↔ IsRecordOfCheckpoint flow.now node front.now self.now }
    {
        match self {
            Record::State(checkpoint) => checkpoint.is_of(flow, node, front),
            Record::Event { .. } | Record::Changes { .. } => false,
        }
    }

    /// Whether it is the record of changes of the node at the frontier (`Checkpoint::has_changes_of`), on the base of this id.
    pub fn is_changes_of(&self, flow: &Flow, node: NodeId, front: &Front, id: u64) -> bool
        ensures { IsTrue result ↔ IsRecordOfChanges flow.now node front.now id self.now }
    {
        match self {
            Record::Changes { base, checkpoint } => {
                *base == id && checkpoint.has_changes_of(flow, node, front)
            }
            Record::State(_) | Record::Event { .. } => false,
        }
    }

    /// Whether it is the record of this event of the node.
    pub fn is_event_of(&self, node: NodeId, event: &Event) -> bool
        ensures { IsTrue result ↔ IsRecordOfEvent node event.now self.now }
    {
        match self {
            Record::Event {
                node: of,
                event: what,
            } => *of == node && *what == *event,
            Record::State(_) | Record::Changes { .. } => false,
        }
    }
}

/// Whether what is recorded is of the node at the frontier.
fn is_recorded_of(flow: &Flow, node: NodeId, front: &Front, recorded: &Recorded) -> bool
    ensures { IsTrue result ↔ IsRecordedOf flow.now node front.now recorded.now }
{
    recorded.front.same(front)
        && recorded.notified.is_in_domain(&flow.domain(node))
        && are_on(flow, flow.in_edges(node), recorded.delivered.as_slice())
        && are_on(flow, flow.out_edges(node), recorded.discarded.as_slice())
}

/// Whether they are fronts of these edges.
fn are_on(flow: &Flow, edges: &[EdgeId], fronts: &[OfEdge]) -> bool
    ensures { IsTrue result ↔ AllByRecursion (IsOnOneOf flow.now edges.now) fronts.now }
{
    for of_edge in fronts {
        if !is_on_one_of(flow, edges, of_edge) {
            return false;
        }
    }
    true
}

/// Whether it is a front of one of these edges, by stamps of the domain of the edge's receiver.
fn is_on_one_of(flow: &Flow, edges: &[EdgeId], of_edge: &OfEdge) -> bool
    ensures { IsTrue result ↔ IsOnOneOf flow.now edges.now of_edge.now }
{
    let domain = flow.domain(flow.dst(of_edge.edge));
    is_one_of(edges, of_edge.edge) && of_edge.front.is_in_domain(&domain)
}

/// Whether the edge is one of these.
fn is_one_of(edges: &[EdgeId], edge: EdgeId) -> bool
    ensures { IsTrue result ↔ Contains edges.now edge }
{
    edges.contains(&edge)
}

/// Whether the table is one of the node at the frontier.
fn is_state_of(flow: &Flow, node: NodeId, front: &Front, state: &State) -> bool
    ensures { IsTrue result ↔ IsTableAt flow.now node front.now state.now }
{
    are_counts_inside(flow, node, front, state.sends.as_slice())
        && can_count(flow.kind(node), state)
        && can_hold(flow.kind(node), &state.entries)
        && has_numbers_for(flow.kind(node), state.sent)
}

/// Whether the table holds changes of the node at the frontier.
fn is_state_of_changes(flow: &Flow, node: NodeId, front: &Front, state: &State) -> bool
    ensures { IsTrue result ↔ IsTableOfChanges flow.now node front.now state.now }
{
    are_counts_inside(flow, node, front, state.sends.as_slice())
        && can_count_changes(flow.kind(node), state)
        && can_hold(flow.kind(node), &state.entries)
        && has_numbers_for(flow.kind(node), state.sent)
}

/// Whether what is counted was sent by events inside.
fn are_counts_inside(flow: &Flow, node: NodeId, front: &Front, counts: &[SentCount]) -> bool
    ensures { IsTrue result ↔ AllByRecursion
        (λ s. node_frontier flow.now node front.now s.cause ≡ true) counts.now }
{
    for sent in counts {
        if !is_inside(flow, node, front, &sent.cause) {
            return false;
        }
    }
    true
}

/// Whether a node of the kind counts so by stamps: a sequence all that it sent, another one nothing.
fn can_count(kind: Kind, state: &State) -> bool
    ensures { IsTrue result ↔ CountsFitKind kind state.now }
{
    let counts = state.sends.as_slice();
    match kind {
        Kind::Sequence => have_sum(counts, state.sent),
        _ => counts.is_empty(),
    }
}

/// Whether the counts make this sum.
fn have_sum(counts: &[SentCount], sum: u64) -> bool
    ensures { IsTrue result ↔ (count_sum counts.now ≡ sum) }
{
    let mut left = sum;
    for sent in counts {
        if sent.count > left {
            return false;
        }
        left -= sent.count;
    }
    left == 0
}

/// Whether a node of the kind counts so in changes: a sequence no more than it sent, another one nothing.
fn can_count_changes(kind: Kind, state: &State) -> bool
    ensures { IsTrue result ↔ CountsFitChanges kind state.now }
{
    let counts = state.sends.as_slice();
    match kind {
        Kind::Sequence => have_sum_within(counts, state.sent),
        _ => counts.is_empty(),
    }
}

/// Whether the counts make no more than this sum.
fn have_sum_within(counts: &[SentCount], sum: u64) -> bool
    ensures { IsTrue result ↔ (count_sum counts.now ≤ sum) }
{
    let mut left = sum;
    for sent in counts {
        if sent.count > left {
            return false;
        }
        left -= sent.count;
    }
    true
}

/// Whether a node of the kind holds such entries: a total and a ledger any, another one none.
fn can_hold(kind: Kind, entries: &Entries) -> bool
    ensures { IsTrue result ↔ TotalsFitKind kind entries.now }
{
    match kind {
        Kind::Total | Kind::Ledger => true,
        _ => holds_nothing(entries),
    }
}

/// Whether there are no entries.
fn holds_nothing(entries: &Entries) -> bool
    ensures { IsTrue result ↔ (entries.now ≡ Held []) }
{
    match entries {
        Entries::Totals(totals) => totals.as_slice().is_empty(),
    }
}

/// Whether a node of the kind can have sent so many messages: one that numbers them no more than there are numbers.
fn has_numbers_for(kind: Kind, sent: u64) -> bool
    ensures { IsTrue result ↔ HasNumbersFor kind sent }
{
    match kind {
        Kind::Sequence | Kind::Ledger => sent <= NUMBERS,
        _ => true,
    }
}

/// Whether the messages are of the node's log at the frontier.
fn is_log_of(flow: &Flow, node: NodeId, front: &Front, log: &[Logged]) -> bool
    ensures { IsTrue result ↔ IsLogOf flow.now node front.now log.now }
{
    can_log_each(flow, node, front, log) && can_keep(flow.policy(node), log)
}

/// Whether events inside can have sent each of the messages.
fn can_log_each(flow: &Flow, node: NodeId, front: &Front, log: &[Logged]) -> bool
    ensures { IsTrue result ↔ AllByRecursion (CanBeLogged flow.now node front.now) log.now }
{
    for logged in log {
        if !can_log(flow, node, front, logged) {
            return false;
        }
    }
    true
}

/// Whether events inside can have sent the message.
fn can_log(flow: &Flow, node: NodeId, front: &Front, logged: &Logged) -> bool
    ensures { IsTrue result ↔ CanBeLogged flow.now node front.now logged.now }
{
    let message = &logged.message;
    let domain = flow.domain(flow.dst(logged.edge));
    is_one_of(flow.out_edges(node), logged.edge)
        && message.at.in_domain(&domain)
        && are_inside(flow, node, front, message.causes.stamps())
}

/// Whether the stamps are all inside.
fn are_inside(flow: &Flow, node: NodeId, front: &Front, stamps: &[Stamp]) -> bool
    ensures { IsTrue result ↔ AllByRecursion
        (λ t. node_frontier flow.now node front.now t ≡ true) stamps.now }
{
    for stamp in stamps {
        if !is_inside(flow, node, front, stamp) {
            return false;
        }
    }
    true
}

/// Whether the stamp is one of the node's domain, inside the frontier.
fn is_inside(flow: &Flow, node: NodeId, front: &Front, stamp: &Stamp) -> bool
    ensures { result ≡ node_frontier flow.now node front.now stamp.now }
{
    stamp.in_domain(&flow.domain(node)) && front.contains(stamp)
}

/// Whether a node of the policy keeps such messages: a lazy one none.
fn can_keep(policy: Policy, log: &[Logged]) -> bool
    ensures { IsTrue result ↔ IsLogUnder policy log.now }
{
    match policy {
        Policy::Lazy => log.is_empty(),
        _ => true,
    }
}
