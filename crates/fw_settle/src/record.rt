//! The record of a checkpoint, made of the parts.
ghost use Rattle.std.specs.Prelude.{◌≡◌, ◌<◌, ◌≤◌, ◌^◌, ◌&&◌, ◌++◌, ◌∷◌, [], ℕ, true, not, nat_lt, length, map, Option, None, IfOk, OnOk, IfSome};
ghost use Rattle.std.specs.List.{AllByRecursion, AllZip};
ghost use Rattle.std.specs.Option.{option_copied};
ghost use Rattle.fw_time.specs.Stamp.{in_domain, leq, same};
ghost use Rattle.fw_frontier.specs.Front.{IsCanonical, inside};
ghost use Rattle.fw_flow.specs.declared.event.Message.{Message as Sent};
ghost use Rattle.fw_flow.specs.Dataflow.{kind_of, policy_of, in_edges, out_edges, bounds_of, is_sequence_kind};
ghost use Rattle.fw_flow.specs.Restoring.{can_resend};
ghost use Rattle.fw_model.specs.Filtering.{messages_from};
ghost use Rattle.fw_node.specs.declared.node.Node.{Node as Table};
ghost use Rattle.fw_progress.specs.Counts.{sent_of};
ghost use Rattle.fw_progress.specs.Trace.{HaveLists};
ghost use Rattle.fw_bag.specs.Bag.{IsRec};
ghost use Rattle.fw_settle.specs.Checkpoints.{IsCoverDelivered, IsDiscarded, IsOfEdge, IsRecordedAt, AreTotalsTold, AreSendsOf, AreSendsAt, IsStateAt, messages_told, told_epochs, told_log, logged_at, IsLogOf, IsMadeSince};
ghost use Rattle.fw_settle.specs.Sends.{IsEpochLimit, IsFirstSince, is_last_of, HasTaken, HasCount, HasSends};
ghost use Rattle.fw_running.specs.Kept.{log_at, table_of};
ghost use Rattle.fw_running.specs.Shaped.{IsShaped};

use fw_bag::{Rec, Recs};
use fw_edge::{MsgLog, comes_from};
use fw_flow::{EdgeId, Message, NodeId, OfEdge, OfEdges, Recorded, SentTable};
use fw_frontier::{Entries, Front, SentCount, SentCounts, State};
use fw_record::{Checkpoint, Log, Logged};
use fw_running::Running;
use fw_time::Stamp;
use std::alloc::{AllocError, Global};

/// What a node's events inside a frontier made, which holds what is settled: of its state and its log all, or what changed since
/// its newest checkpoint, where the front of that is given. The error is want of memory.
pub(crate) fn checkpoint_at(
    running: &Running,
    node: NodeId,
    since: Option<&Front>,
    front: &Front,
) -> Result<Checkpoint, AllocError>
    requires shaped { IsShaped running.now }
    requires there { node < length running.now.flow.nodes }
    requires front { IsCanonical (bounds_of running.now.flow node) front.now }
    ensures { IfOk result (IsMadeSince running.now node (option_copied since.entry) front.now) }
{
    Ok(Checkpoint {
        node,
        recorded: recorded_at(running, node, front)?,
        state: state_at(running, node, since, front)?,
        log: log_at(running, node, since, front)?,
    })
}

// The frontier, with the covers of the node's events inside.
fn recorded_at(running: &Running, node: NodeId, front: &Front) -> Result<Recorded, AllocError>
    requires shaped { IsShaped running.now }
    requires there { node < length running.now.flow.nodes }
    ensures { IfOk result (IsRecordedAt running.now.flow running.now.traces node front.now) }
{
    Ok(Recorded {
        front: front.copy()?,
        notified: running.traces.notified_cover(&running.flow, node, front)?,
        delivered: OfEdges::of(delivered_at(running, node, front)?),
        discarded: OfEdges::of(discarded_at(running, node, front)?),
    })
}

// For each in-edge the cover of what was delivered inside.
fn delivered_at(running: &Running, node: NodeId, front: &Front) -> Result<Vec<OfEdge>, AllocError>
    requires { HaveLists running.now.flow running.now.traces }
    ensures { IfOk result (λ xs. AllZip (IsOfEdge (IsCoverDelivered running.now.flow running.now.traces front.now))
        (in_edges running.now.flow node) xs.items) }
{
    let mut delivered = Vec::new(running.alloc);
    for edge in running.flow.in_edges(node) {
        let front = running.traces.delivered_cover(&running.flow, *edge, front)?;
        delivered.push(OfEdge { edge: *edge, front })?;
    }
    Ok(delivered)
}

// For each out-edge the cover of what the events inside sent and can not be sent again.
fn discarded_at(running: &Running, node: NodeId, front: &Front) -> Result<Vec<OfEdge>, AllocError>
    requires { HaveLists running.now.flow running.now.traces }
    ensures { IfOk result (λ xs. AllZip
        (IsOfEdge (IsDiscarded running.now.flow running.now.traces front.now (can_resend (policy_of running.now.flow node))))
        (out_edges running.now.flow node) xs.items) }
{
    let resends = running.flow.policy(node).can_resend();
    let mut discarded = Vec::new(running.alloc);
    for edge in running.flow.out_edges(node) {
        let front = discarded_on(running, resends, *edge, front)?;
        discarded.push(OfEdge { edge: *edge, front })?;
    }
    Ok(discarded)
}

// The cover of what the events inside sent on an edge; nothing where it can be sent again.
fn discarded_on(
    running: &Running,
    resends: bool,
    edge: EdgeId,
    front: &Front,
) -> Result<Front, AllocError>
    requires lists { HaveLists running.now.flow running.now.traces }
    requires there { edge < length running.now.flow.edges }
    ensures { IfOk result (IsDiscarded running.now.flow running.now.traces front.now resends edge) }
{
    if resends {
        let bounds = running.flow.domain(running.flow.dst(edge));
        return Front::empty(running.alloc, &bounds);
    }
    running
        .traces
        .sent_cover(running.alloc, &running.flow, edge, front)
}

// What the node holds of what came inside, or what changed of it since a front, and how many messages it sent.
fn state_at(
    running: &Running,
    node: NodeId,
    since: Option<&Front>,
    front: &Front,
) -> Result<State, AllocError>
    requires shaped { IsShaped running.now }
    requires there { node < length running.now.flow.nodes }
    requires front { IsCanonical (bounds_of running.now.flow node) front.now }
    ensures { IfOk result (IsStateAt running.now node (option_copied since.entry) front.now) }
{
    let totals = totals_at(running, node, since, front)?;
    have_numbers(totals.as_slice());
    Ok(State {
        sent: running.traces.sent_count(&running.flow, node, front)?,
        sends: SentCounts::of(sends_at(running, node, since, front)?),
        entries: Entries::Totals(totals),
    })
}

// What the node's table holds of what came inside, or of the keys that changed since it settled; nothing where it has none.
fn totals_at(
    running: &Running,
    node: NodeId,
    since: Option<&Front>,
    front: &Front,
) -> Result<Recs, AllocError>
    requires table { IfSome (table_of running.now node) (λ (table : Table). AllByRecursion (λ o. in_domain table.bounds o ≡ true) front.now) }
    ensures { IfOk result (AreTotalsTold running.now.flow (table_of running.now node) node (option_copied since.entry) front.now) }
{
    match running.parts.tables.get(node) {
        Some(table) => match since {
            Some(_) => table.totals_since(front),
            None => table.totals_at(front),
        },
        None => Ok(Recs::of(Vec::new(running.alloc))),
    }
}

// How many messages a sequence sent in each epoch inside, or of those outside an earlier front; of other nodes nothing is told.
fn sends_at(
    running: &Running,
    node: NodeId,
    since: Option<&Front>,
    front: &Front,
) -> Result<Vec<SentCount>, AllocError>
    requires { node < length running.now.progress.counts.sent.items }
    ensures { IfOk result (λ sends. AreSendsAt (is_sequence_kind (kind_of running.now.flow node)) (option_copied since.entry) front.now
        (sent_of running.now.progress.counts node) sends.items) }
{
    if !running.flow.kind(node).is_sequence() {
        return Ok(Vec::new(running.alloc));
    }
    let table = &running.progress.counts().sent[node.place() as usize];
    sends_inside(running.alloc, table, since, front)
}

// What the events inside, or those since an earlier front, sent and may have to be sent again, in order.
fn log_at(
    running: &Running,
    node: NodeId,
    since: Option<&Front>,
    front: &Front,
) -> Result<Log, AllocError>
    requires { length running.now.parts.logs ≡ length running.now.flow.edges }
    ensures { IfOk result (IsLogOf running.now.flow (told_log running.now (option_copied since.entry) front.now) node) }
{
    Ok(Log::sorted(logged_at(running, node, since, front)?))
}

// The same, edge by edge.
fn logged_at(
    running: &Running,
    node: NodeId,
    since: Option<&Front>,
    front: &Front,
) -> Result<Vec<Logged>, AllocError>
    requires { length running.now.parts.logs ≡ length running.now.flow.edges }
    ensures all { IfOk result (λ all. all.items ≡ logged_at running.now.flow (told_log running.now (option_copied since.entry) front.now) node) }
    ensures small { IfOk result (λ all. AllByRecursion (λ l. IsRec l.message.rec) all.items) }
{
    let mut all = Vec::new(running.alloc);
    if !running.flow.policy(node).can_resend() {
        return Ok(all);
    }
    for edge in running.flow.out_edges(node) {
        if let Some(log) = running.parts.logs.get(*edge) {
            add_told(&mut all, *edge, log, since, front)?;
        }
    }
    Ok(all)
}

// Adds copies of the messages in a log that the events inside sent, or those since an earlier front. Where all are asked for and
// are in order as they lie, none is copied twice.
fn add_told(
    all: &mut Vec<Logged>,
    edge: EdgeId,
    log: &MsgLog,
    since: Option<&Front>,
    front: &Front,
) -> Result<(), AllocError>
    ensures added { OnOk result (all.new.items ≡ all.old.items ++ map (λ (m : Sent). record { edge = edge; message = m })
        (messages_told (option_copied since.entry) front.now log.now.messages)) }
    ensures small { OnOk result (AllByRecursion (λ l. IsRec l.message.rec) all.old.items
        → AllByRecursion (λ l. IsRec l.message.rec) all.new.items) }
{
    match (since, log.ascending()) {
        (None, Some(messages)) => add_caused(all, edge, messages, front),
        _ => add_logged(all, edge, messages_told(log, since, front)?),
    }
}

// Adds copies of the messages on an edge all of whose causes are inside.
fn add_caused(
    all: &mut Vec<Logged>,
    edge: EdgeId,
    messages: &[Message],
    front: &Front,
) -> Result<(), AllocError>
    ensures added { OnOk result (all.new.items ≡ all.old.items ++ map (λ (m : Sent). record { edge = edge; message = m })
        (messages_from (inside front.now) messages.now)) }
    ensures small { OnOk result (AllByRecursion (λ l. IsRec l.message.rec) all.old.items
        → AllByRecursion (λ l. IsRec l.message.rec) all.new.items) }
{
    all.reserve(messages.len())?;
    for message in messages {
        if comes_from(message, front) {
            all.push(logged(edge, message.copy()))?;
        }
    }
    Ok(())
}

// Copies of the messages in a log that the events inside sent, or those since an earlier front, in order.
fn messages_told(
    log: &MsgLog,
    since: Option<&Front>,
    front: &Front,
) -> Result<Vec<Message>, AllocError>
    ensures { IfOk result (λ ms. ms.items ≡ messages_told (option_copied since.entry) front.now log.now.messages) }
{
    match since {
        Some(earlier) => log.caused_since(earlier, front),
        None => log.caused_in(front),
    }
}

/// What a sequence sent in each epoch of its table that is inside, and outside an earlier front. The fronts are looked at once; of
/// each epoch numbers are compared alone, and what lies inside the earlier front is passed over at once. The error is want of
/// memory, or that a sum would not fit 64 bits.
pub fn sends_inside(
    alloc: Global,
    table: &SentTable,
    since: Option<&Front>,
    front: &Front,
) -> Result<Vec<SentCount>, AllocError>
    ensures { IfOk result (λ sends. AreSendsOf (told_epochs (option_copied since.entry) front.now) table.now sends.items) }
{
    let first = first_since(since);
    let limit = limit_of(front);
    let start = table.first_from(first);
    let mut sends = Vec::with_capacity(alloc, table.len() - start)?;
    for place in start..table.len() {
        if let Some((epoch, count)) = table.get(place) {
            add_sends(&mut sends, first, limit, epoch, count)?;
        }
    }
    Ok(sends)
}

// The least epoch outside an earlier front; 0 where there is none.
fn first_since(since: Option<&Front>) -> u64
    ensures since { IsFirstSince (option_copied since.entry) result }
    ensures few { result ≤ 2 ^ 32 }
{
    match since {
        Some(front) => limit_of(front),
        None => 0,
    }
}

// The least epoch outside, or a number greater than any epoch where all are inside.
fn limit_of(front: &Front) -> u64
    ensures limit { IsEpochLimit front.now result }
    ensures few { result ≤ 2 ^ 32 }
{
    let mut limit = 1 << 32;
    for o in front.outside() {
        limit = lowered(limit, o);
    }
    limit
}

// The lesser of a limit and the epoch of an outside stamp, if it has one coordinate.
fn lowered(limit: u64, o: &Stamp) -> u64
    ensures below { (epoch : ℕ) → nat_lt epoch result ≡ (not (leq o.now (epoch ∷ [])) && nat_lt epoch limit) }
    ensures lesser { result ≤ limit }
{
    if o.len() != 1 {
        return limit;
    }
    limit.min(u64::from(o.at(0)))
}

// Adds what was sent in an epoch, if that is from the first one on and below the limit; nothing is not told.
fn add_sends(
    sends: &mut Vec<SentCount>,
    first: u64,
    limit: u64,
    epoch: u32,
    count: u64,
) -> Result<(), AllocError>
    ensures { OnOk result (HasSends (not (nat_lt epoch first) && nat_lt epoch limit) epoch count sends.old.items sends.new.items) }
{
    let place = u64::from(epoch);
    if count == 0 || place < first || place >= limit {
        return Ok(());
    }
    add_count(sends, epoch, count)
}

// Adds what was sent in an epoch: what is already told of it, if it is the last one, is counted with it.
fn add_count(sends: &mut Vec<SentCount>, epoch: u32, count: u64) -> Result<(), AllocError>
    ensures { OnOk result (HasCount (epoch ∷ []) count sends.old.items sends.new.items) }
{
    let before = take_count(sends, epoch);
    let count = before.checked_add(count).ok_or(AllocError)?;
    let cause = Stamp::new(&[epoch]);
    sends.push(SentCount { cause, count })?;
    Ok(())
}

// Takes the last count out, if it is of this epoch, and answers it; 0 where it is of another one.
fn take_count(sends: &mut Vec<SentCount>, epoch: u32) -> u64
    ensures { HasTaken (epoch ∷ []) result sends.old.items sends.new.items }
{
    if !is_last(sends, epoch) {
        return 0;
    }
    match sends.pop() {
        Some(last) => last.count,
        None => 0,
    }
}

// Whether the last count is of this epoch.
fn is_last(sends: &[SentCount], epoch: u32) -> bool
    ensures { result ≡ is_last_of (epoch ∷ []) sends.now }
{
    match sends.last() {
        Some(last) => is_epoch(&last.cause, epoch),
        None => false,
    }
}

// Whether a stamp is this epoch.
fn is_epoch(stamp: &Stamp, epoch: u32) -> bool
    ensures { result ≡ same stamp.now (epoch ∷ []) }
{
    stamp.len() == 1 && stamp.at(0) == epoch
}

// Adds messages on an edge.
fn add_logged(all: &mut Vec<Logged>, edge: EdgeId, messages: Vec<Message>) -> Result<(), AllocError>
    ensures added { OnOk result (all.new.items ≡ all.old.items ++ map (λ (m : Sent). record { edge = edge; message = m }) messages.items) }
    ensures small { OnOk result (AllByRecursion (λ l. IsRec l.message.rec) all.old.items
        → AllByRecursion (λ l. IsRec l.message.rec) all.new.items) }
{
    all.reserve(messages.len())?;
    for message in messages {
        all.push(logged(edge, message))?;
    }
    Ok(())
}

// A message on an edge, with a rec of two numbers of 64 bits.
fn logged(edge: EdgeId, message: Message) -> Logged
    ensures is { result ≡ record { edge = edge; message = message } }
    ensures small { IsRec message.rec }
{
    has_numbers(message.rec);
    Logged { edge, message }
}

// Each of the recs has two numbers of 64 bits: of one that is read a contract sees it.
fn have_numbers(recs: &[Rec])
    ensures each { AllByRecursion IsRec recs.now }
    ensures few { length recs.now < 2 ^ 64 }
{
    for rec in recs {
        has_numbers(*rec);
    }
}

// The rec has two numbers of 64 bits.
fn has_numbers(rec: Rec)
    ensures { IsRec rec }
{
    let _ = rec;
}
