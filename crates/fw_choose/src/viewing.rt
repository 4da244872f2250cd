//! What is known of the nodes and their writes, to say what they offer to a recovery.
ghost use Rattle.std.specs.Prelude.{◌≡◌, ◌<◌, ◌≤◌, ◌==◌, ◌&&◌, ◌||◌, not, filter, length, IsTrue, IfOk};
ghost use Rattle.fw_time.specs.Stamp.{in_domain};
ghost use Rattle.fw_flow.specs.Dataflow.{kind_of, bounds_of, receiver, greatest_number};
ghost use Rattle.fw_collect.specs.Drops.{watermark};
ghost use Rattle.fw_model.specs.Machine as machine;
ghost use Rattle.fw_model.specs.Steps.{front_of_cut};
ghost use Rattle.fw_policy.specs.Shaped.{IsViewFor};
ghost use Rattle.fw_progress.specs.Counts.{sent_of};
ghost use Rattle.fw_choose.specs.Chosen as chosen;
ghost use Rattle.fw_choose.specs.Chosen.{IsViewBy, IsViewByHeld, AreViewsBy, IsBorderBy, is_on_its_edge, of_domains};
ghost use Rattle.fw_running.specs.Kept.{source_of, output_of, lost_at, is_down};
ghost use Rattle.fw_running.specs.Shaped.{IsShaped};

use fw_flow::{
    Choice, Counted, CountedMessages, Cut, EdgeId, Flow, Kind, NodeId, Notices, SentTable, Stamps,
};
use fw_frontier::Front;
use fw_policy::{Border, NodeView};
use fw_running::Running;
use fw_time::{Bounds, Stamp};
use std::alloc::{AllocError, Global};

/// Which nodes count as failed.
#[derive(Clone, Copy)]
pub enum Lost {
    /// Those that failed.
    Failed,
    /// All.
    All,
}

/// What is known of each node, in order of the nodes. The error is want of memory.
pub(crate) fn views(running: &Running, lost: Lost) -> Result<Vec<NodeView>, AllocError>
    requires { IsShaped running.now }
    ensures { IfOk result (λ view. AreViewsBy running.now lost (length running.now.flow.nodes) view.items) }
{
    let mut views = Vec::with_capacity(running.alloc, running.flow.nodes())?;
    for place in 0..running.flow.nodes() {
        views.push(view(running, NodeId::at(place as u32), lost)?)?;
    }
    Ok(views)
}

// What is known of a node.
fn view(running: &Running, node: NodeId, lost: Lost) -> Result<NodeView, AllocError>
    requires shaped { IsShaped running.now }
    requires there { node < length running.now.flow.nodes }
    ensures of_flow { IfOk result (IsViewFor running.now.flow node) }
    ensures of_state { IfOk result (IsViewBy running.now lost node) }
    ensures of_held { IfOk result (IsViewByHeld running.now lost node) }
{
    let stamps = running.traces.stamps(running.alloc, &running.flow, node)?;
    Ok(NodeView {
        stamps: of_domains(running.alloc, &running.flow, node, stamps)?,
        table: sent_by_epoch(running, node)?,
        settled: settled_front(running, node)?,
        low: low_front(running, node)?,
        border: border(running, node),
        lost: lost_stamps(running, node)?,
        failed: counts_as_failed(running, node, lost),
    })
}

// How many messages a node sent, by epoch, if it is a sequence.
fn sent_by_epoch(running: &Running, node: NodeId) -> Result<SentTable, AllocError>
    requires shaped { IsShaped running.now }
    requires there { node < length running.now.flow.nodes }
    ensures { IfOk result (λ table. table ≡ sent_of running.now.progress.counts node) }
{
    running.progress.counts().sent[node.place() as usize].copy()
}

// What is settled of a node.
fn settled_front(running: &Running, node: NodeId) -> Result<Front, AllocError>
    requires shaped { IsShaped running.now }
    requires there { node < length running.now.flow.nodes }
    ensures { IfOk result (λ front. front ≡ machine.front_of running.now.progress.settled node) }
{
    running.progress.settled()[node.place() as usize].copy()
}

// The low watermark of a node.
fn low_front(running: &Running, node: NodeId) -> Result<Front, AllocError>
    requires shaped { IsShaped running.now }
    requires there { node < length running.now.flow.nodes }
    ensures { IfOk result (λ front. front ≡ machine.front_of running.now.parts.low node) }
{
    running.parts.low.as_slice()[node.place() as usize].copy()
}

// At which stamps of its domain events of a node were lost in flight.
fn lost_stamps(running: &Running, node: NodeId) -> Result<Notices, AllocError>
    requires shaped { IsShaped running.now }
    requires there { node < length running.now.flow.nodes }
    ensures { IfOk result (λ lost. lost ≡ filter (in_domain (bounds_of running.now.flow node)) (lost_at running.now node)) }
{
    let domain = running.flow.domain(node);
    those_of_domain(running.alloc, &domain, &running.lost[node.place() as usize])
}

// Whether a node counts as failed.
fn counts_as_failed(running: &Running, node: NodeId, lost: Lost) -> bool
    ensures { result ≡ chosen.counts_as_failed lost (is_down running.now node) }
{
    match lost {
        Lost::Failed => running.is_failed(node),
        Lost::All => true,
    }
}

// Where a node meets what is outside.
fn border(running: &Running, node: NodeId) -> Border
    ensures { IsBorderBy (source_of running.now node) (output_of running.now node) (kind_of running.now.flow node) result }
{
    match running.flow.kind(node) {
        Kind::Input => source(running, node),
        Kind::OutputEpoch | Kind::OutputNumber => Border::Output {
            bound: running.parts.outputs.bound(node),
        },
        _ => Border::Inner,
    }
}

// What an input injected.
fn source(running: &Running, node: NodeId) -> Border
    ensures { IsBorderBy (source_of running.now node) (output_of running.now node) Kind.Input result }
{
    let injected = running.parts.sources.injected(node);
    Border::Source {
        injected: number_at_most(injected),
        exhausted: injected == running.parts.sources.batches(node),
    }
}

// The count, or the greatest number if that is less: no input has more batches than there are numbers.
fn number_at_most(count: u64) -> u64
    ensures few { result ≤ greatest_number }
    ensures same { count ≤ greatest_number → result ≡ count }
{
    if count < u64::from(u32::MAX) {
        count
    } else {
        u64::from(u32::MAX)
    }
}

// The stamps that are of the domains of a node and its edges, as all are in every state for which an engine stands.
fn of_domains(
    alloc: Global,
    flow: &Flow,
    node: NodeId,
    stamps: Stamps,
) -> Result<Stamps, AllocError>
    ensures { IfOk result (λ all. all ≡ chosen.of_domains flow.now node stamps) }
{
    let single = flow.kind(node).is_input();
    let notified = of_domain(alloc, &flow.domain(node), stamps.notified)?;
    Ok(Stamps {
        delivered: on_their_edges(alloc, flow, false, stamps.delivered)?,
        notified,
        sent: on_their_edges(alloc, flow, single, stamps.sent)?,
    })
}

// The messages that are at stamps of their edges, and of one cause where they are to be. Where all are, none is copied.
fn on_their_edges(
    alloc: Global,
    flow: &Flow,
    single: bool,
    messages: CountedMessages,
) -> Result<CountedMessages, AllocError>
    ensures { IfOk result (λ all. all ≡ filter (is_on_its_edge flow.now single) messages) }
{
    if are_on_their_edges(flow, single, messages.as_slice()) {
        return Ok(messages);
    }
    those_on_their_edges(alloc, flow, single, messages.as_slice())
}

// Whether each message is at a stamp of its edge, and of one cause where it is to be. The bounds are looked up once for messages
// of one edge that stand together.
fn are_on_their_edges(flow: &Flow, single: bool, messages: &[Counted]) -> bool
    ensures { IsTrue result → filter (is_on_its_edge flow.now single) messages.now ≡ messages.now }
{
    let Some(first) = messages.first() else {
        return true;
    };
    let mut receiving = Receiving::on(flow, first.edge);
    for message in messages {
        receiving = receiving.turned_to(flow, message.edge);
        if !receiving.has(single, message) {
            return false;
        }
    }
    true
}

// Copies of the messages that are at stamps of their edges, and of one cause where they are to be.
fn those_on_their_edges(
    alloc: Global,
    flow: &Flow,
    single: bool,
    messages: &[Counted],
) -> Result<CountedMessages, AllocError>
    ensures { IfOk result (λ all. all ≡ filter (is_on_its_edge flow.now single) messages.now) }
{
    let mut all = Vec::new(alloc);
    for message in messages {
        if on_its_edge(flow, single, message) {
            all.push(message.copy())?;
        }
    }
    Ok(CountedMessages::of(all))
}

// An edge, and the bounds of its receiver's domain.
#[derive(Drop)]
struct Receiving {
    edge: EdgeId,
    bounds: Bounds,
}

impl Receiving {
    // Those of an edge.
    fn on(flow: &Flow, edge: EdgeId) -> Self
        ensures edge { result.edge ≡ edge }
        ensures bounds { result.bounds ≡ bounds_of flow.now (receiver flow.now edge) }
    {
        Receiving {
            edge,
            bounds: flow.domain(flow.dst(edge)),
        }
    }

    // Those of an edge: these where it is the same.
    fn turned_to(self, flow: &Flow, edge: EdgeId) -> Self
        requires { self.bounds ≡ bounds_of flow.now (receiver flow.now self.edge) }
        ensures edge { result.edge ≡ edge }
        ensures bounds { result.bounds ≡ bounds_of flow.now (receiver flow.now edge) }
    {
        if self.edge == edge {
            return self;
        }
        Receiving::on(flow, edge)
    }

    // Whether a message on the edge is at a stamp of it, and of one cause where it is to be.
    fn has(&self, single: bool, message: &Counted) -> bool
        ensures { result ≡ (in_domain self.now.bounds message.now.at && (not single || length message.now.causes == 1)) }
    {
        message.at.in_domain(&self.bounds) && (!single || message.causes.stamps().len() == 1)
    }
}

// Whether a message is at a stamp of its edge, and of one cause where it is to be.
fn on_its_edge(flow: &Flow, single: bool, message: &Counted) -> bool
    ensures { result ≡ is_on_its_edge flow.now single message.now }
{
    Receiving::on(flow, message.edge).has(single, message)
}

// The stamps that are of a domain. Where all are, none is copied.
fn of_domain(alloc: Global, domain: &Bounds, stamps: Notices) -> Result<Notices, AllocError>
    ensures { IfOk result (λ all. all ≡ filter (in_domain domain.now) stamps) }
{
    if are_of_domain(domain, stamps.as_slice()) {
        return Ok(stamps);
    }
    those_of_domain(alloc, domain, &stamps)
}

// Whether each stamp is of a domain.
fn are_of_domain(domain: &Bounds, stamps: &[Stamp]) -> bool
    ensures { IsTrue result → filter (in_domain domain.now) stamps.now ≡ stamps.now }
{
    for stamp in stamps {
        if !stamp.in_domain(domain) {
            return false;
        }
    }
    true
}

// Copies of the stamps that are of a domain.
fn those_of_domain(alloc: Global, domain: &Bounds, stamps: &Notices) -> Result<Notices, AllocError>
    ensures { IfOk result (λ all. all ≡ filter (in_domain domain.now) stamps.now) }
{
    let stamps = stamps.as_slice();
    let mut all = Vec::new(alloc);
    for stamp in stamps {
        if stamp.in_domain(domain) {
            all.push(stamp.copy())?;
        }
    }
    Ok(Notices::of(all))
}

/// The frontiers of the choice's cuts. The error is want of memory.
pub(crate) fn fronts_of(alloc: Global, choice: &Choice) -> Result<Vec<Front>, AllocError>
    ensures { IfOk result (λ fronts. fronts.items ≡ watermark choice.now) }
{
    let cuts = choice.cuts.as_slice();
    let mut fronts = Vec::with_capacity(alloc, cuts.len())?;
    for cut in cuts {
        fronts.push(front_of(alloc, cut)?)?;
    }
    Ok(fronts)
}

// The frontier of a cut. The error is want of memory.
fn front_of(alloc: Global, cut: &Cut) -> Result<Front, AllocError>
    ensures { IfOk result (λ front. front ≡ front_of_cut cut.now) }
{
    match cut {
        Cut::Present => Ok(Front::all(alloc)),
        Cut::At(front) => front.copy(),
    }
}
