//! Where a node's events are and where they sent, got back from what its checkpoint covers.
ghost use Rattle.std.specs.Prelude.{◌≡◌, ◌<◌, ◌++◌, ◌*◌, ◌∷◌, [], min, true, false, map, length, IfOk, OnOk};
ghost use Rattle.std.specs.List.{AllByRecursion};
ghost use Rattle.fw_flow.specs.Dataflow.{greatest_number, kind_of, policy_of, receiver, sender, in_edges, out_edges};
ghost use Rattle.fw_flow.specs.Restoring.{can_resend};
ghost use Rattle.fw_progress.specs.StampData.{message_at};
ghost use Rattle.fw_regain.specs.GotBack.{AreGotBack};
ghost use Rattle.fw_resume.specs.Stamps as spec;
ghost use Rattle.fw_resume.specs.Stamps.{AreDeliveredBack, AreGreatestOn, AreOnEdges, AreSentBack, HasMoreOn, HasLengthFor};

use fw_flow::laws::flow_is_well_formed;
use fw_flow::{
    Causes, Counted, CountedMessages, EdgeId, Flow, Kind, NodeId, Notices, OfEdge, Recorded, Stamps,
};
use fw_time::Stamp;
use std::alloc::{AllocError, Global};

/// The stamps. The error is want of memory.
pub(crate) fn stamps_of(
    alloc: Global,
    flow: &Flow,
    node: NodeId,
    recorded: &Recorded,
) -> Result<Stamps, AllocError>
    requires { node < length flow.now.nodes }
    ensures { IfOk result (AreGotBack flow.now node recorded.now) }
{
    flow_is_well_formed(flow);
    let delivered = delivered_back(alloc, flow, node, recorded)?;
    let notified = recorded.notified.greatest(&flow.domain(node))?;
    let sent = sent_if_told(alloc, flow, node, recorded)?;
    Ok(Stamps {
        delivered: CountedMessages::of(delivered),
        notified: Notices::of(notified),
        sent: CountedMessages::of(sent),
    })
}

/// What was delivered on the in-edges: on each a message at each of the greatest stamps that are covered. The error is want of memory.
fn delivered_back(
    alloc: Global,
    flow: &Flow,
    node: NodeId,
    recorded: &Recorded,
) -> Result<Vec<Counted>, AllocError>
    ensures { IfOk result (λ ms. AreOnEdges (AreDeliveredBack flow.now recorded.now) (in_edges flow.now node) ms.items) }
{
    let mut messages = Vec::new(alloc);
    for edge in flow.in_edges(node) {
        let tops = greatest_on(alloc, flow, *edge, recorded.delivered.as_slice())?;
        add_delivered(&mut messages, *edge, &tops)?;
    }
    Ok(messages)
}

/// A message on an edge at each of these stamps, with the stamp in the place of its causes. The error is want of memory.
fn add_delivered(
    messages: &mut Vec<Counted>,
    edge: EdgeId,
    tops: &[Stamp],
) -> Result<(), AllocError>
    ensures { OnOk result (messages.new.items ≡ messages.old.items ++ map (message_at edge) tops.now) }
{
    for top in tops {
        messages.push(message(edge, top.copy(), top))?;
    }
    Ok(())
}

/// What was sent on the out-edges, where it is told. The error is want of memory.
fn sent_if_told(
    alloc: Global,
    flow: &Flow,
    node: NodeId,
    recorded: &Recorded,
) -> Result<Vec<Counted>, AllocError>
    ensures told { can_resend (policy_of flow.now node) ≡ false
        → IfOk result (λ ms. AreOnEdges (AreSentBack flow.now node recorded.now) (out_edges flow.now node) ms.items) }
    ensures none { can_resend (policy_of flow.now node) ≡ true → IfOk result (λ ms. ms.items ≡ []) }
{
    if flow.policy(node).can_resend() {
        return Ok(Vec::new(alloc));
    }
    sent_back(alloc, flow, node, recorded)
}

/// What was sent on the out-edges. The error is want of memory.
fn sent_back(
    alloc: Global,
    flow: &Flow,
    node: NodeId,
    recorded: &Recorded,
) -> Result<Vec<Counted>, AllocError>
    ensures { IfOk result (λ ms. AreOnEdges (AreSentBack flow.now node recorded.now) (out_edges flow.now node) ms.items) }
{
    let mut messages = Vec::new(alloc);
    for edge in flow.out_edges(node) {
        add_sent(&mut messages, flow, node, *edge, recorded)?;
    }
    Ok(messages)
}

/// What was sent on an edge, behind the others: at the greatest stamps that are covered. The error is want of memory.
fn add_sent(
    messages: &mut Vec<Counted>,
    flow: &Flow,
    node: NodeId,
    edge: EdgeId,
    recorded: &Recorded,
) -> Result<(), AllocError>
    requires { sender flow.now edge ≡ node }
    ensures { OnOk result (HasMoreOn (AreSentBack flow.now node recorded.now) edge messages.old.items messages.new.items) }
{
    flow_is_well_formed(flow);
    let alloc = *messages.allocator();
    let tops = greatest_on(alloc, flow, edge, recorded.discarded.as_slice())?;
    add_told(messages, &flow.kind(node), edge, &tops)?;
    Ok(())
}

/// A message on an edge at each of these stamps, of the cause that this tells. The error is want of memory.
fn add_told(
    messages: &mut Vec<Counted>,
    kind: &Kind,
    edge: EdgeId,
    tops: &[Stamp],
) -> Result<(), AllocError>
    requires some { AllByRecursion (λ t. 0 < length t) tops.now }
    requires length { AllByRecursion (HasLengthFor kind.now) tops.now }
    ensures { OnOk result (messages.new.items ≡ messages.old.items ++ map (spec.sent_at kind.now edge) tops.now) }
{
    for top in tops {
        messages.push(message(edge, top.copy(), &cause_of(kind, top)))?;
    }
    Ok(())
}

/// The least stamp that a node of the kind sends from at this one; of a sequence, which does not tell it, the first epoch.
#[tactic(auto, using(crate::proofs::StampLaws::cause_of_epoch))]
fn cause_of(kind: &Kind, at: &Stamp) -> Stamp
    requires some { 0 < length at.now }
    requires length { HasLengthFor kind.now at.now }
    ensures { result ≡ spec.cause_back kind.now at.now }
{
    match kind {
        Kind::Enter(_) => at.outer(),
        Kind::Feedback(_) => at.outer().nest(at.counter().saturating_sub(1)),
        Kind::Leave(_) => at.nest(0),
        Kind::Regroup(size) => Stamp::new(&[first_number(*size, at.at(0))]),
        Kind::Sequence => Stamp::new(&[0]),
        _ => at.copy(),
    }
}

/// The first number of an epoch of so many numbers, or the greatest number.
fn first_number(size: u64, epoch: u32) -> u32
    ensures { result ≡ min (epoch * size) greatest_number }
{
    let first = u64::from(epoch).saturating_mul(size);
    u32::try_from(first).unwrap_or(u32::MAX)
}

/// A message on an edge, with one cause.
fn message(edge: EdgeId, at: Stamp, cause: &Stamp) -> Counted
    ensures { result ≡ record { edge = edge; at = at; causes = cause.now ∷ []; count = 1 } }
{
    Counted {
        edge,
        at,
        causes: Causes::of(cause.copy()),
        count: 1,
    }
}

/// The greatest stamps that the cover of an edge has; none where no cover is listed. The error is want of memory.
fn greatest_on(
    alloc: Global,
    flow: &Flow,
    edge: EdgeId,
    covers: &[OfEdge],
) -> Result<Vec<Stamp>, AllocError>
    ensures { IfOk result (λ tops. AreGreatestOn flow.now edge covers.now tops.items) }
{
    let bounds = flow.domain(flow.dst(edge));
    for cover in covers {
        if cover.edge == edge {
            let tops = cover.front.greatest(&bounds)?;
            return Ok(tops);
        }
    }
    Ok(Vec::new(alloc))
}
