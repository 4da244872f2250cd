//! The worklist of a descent: the inclusions of a flow in order, and which of them wait for their test.
ghost use Rattle.std.specs.Prelude.{◌≡◌, ◌≤◌, true, [], ◌∷◌, ◌++◌, map, length, IfOk};
ghost use Rattle.std.specs.List.{AllByRecursion};
ghost use Rattle.fw_flow.specs.declared.side.Inclusion.TheVariants as variants;
ghost use Rattle.fw_model.specs.Inclusions as of_flow;
ghost use Rattle.fw_monitor.specs.Worklist as spec;
ghost use Rattle.fw_model.specs.Inclusions.{note_node, IsInclusionOf};
ghost use Rattle.fw_monitor.specs.Worklist.{number, inclusion_count, AreBegins, AreMadeToWait};

use fw_flow::laws::flow_is_well_formed;
use fw_flow::{EdgeId, Flow, Inclusion, Limit, NodeId, Side};
use fw_offers::{note_node, owner};
use std::alloc::{AllocError, Global};

/// What an inclusion says of an edge.
#[derive(Clone, Copy, Debug)]
enum OnEdge {
    /// What was delivered on it.
    Delivered,
    /// What was sent on it and cannot be sent again.
    Discarded,
    /// The notification frontier of its receiver.
    Note,
}

/// The inclusions of a flow, by node.
#[derive(Drop)]
pub(crate) struct InOrder {
    /// All of them, in order.
    pub(crate) all: Vec<Inclusion>,
    /// For each node, where its inclusions begin.
    pub(crate) begins: Vec<usize>,
}

/// The inclusions of a flow, by node. The error is want of memory.
pub(crate) fn inclusions(alloc: Global, flow: &Flow) -> Result<InOrder, AllocError>
    ensures all { IfOk result (λ inclusions. inclusions.all.items ≡ of_flow.inclusions flow.now) }
    ensures begins { IfOk result (λ inclusions. AreBegins flow.now (length flow.now.nodes) inclusions.begins.items) }
{
    let mut all = Vec::with_capacity(alloc, inclusion_count(flow))?;
    let mut begins = Vec::with_capacity(alloc, flow.nodes())?;
    for place in 0..flow.nodes() {
        begins.push(all.len())?;
        add_of_node(flow, NodeId::at(place as u32), &mut all)?;
    }
    Ok(InOrder { all, begins })
}

/// How many inclusions a flow has.
fn inclusion_count(flow: &Flow) -> usize
    ensures { result ≡ inclusion_count flow.now }
{
    flow_is_well_formed(flow);
    let edges = flow.edges();
    let nodes = flow.nodes();
    edges + edges + edges + nodes + nodes
}

/// Adds the inclusions of a node. The error is want of memory.
fn add_of_node(flow: &Flow, node: NodeId, all: &mut Vec<Inclusion>) -> Result<(), AllocError>
    ensures { IfOk result (λ u. all.new.items ≡ all.old.items ++ of_flow.inclusions_at flow.now node) }
{
    add_on_edges(flow.in_edges(node), OnEdge::Delivered, all)?;
    add_on_edges(flow.out_edges(node), OnEdge::Discarded, all)?;
    all.push(Inclusion::OfCut(Side::Notified(node)))?;
    all.push(Inclusion::OfNote(Limit::Own(node)))?;
    add_on_edges(flow.in_edges(node), OnEdge::Note, all)
}

/// Adds the inclusions that say this of each of the edges. The error is want of memory.
fn add_on_edges(edges: &[EdgeId], what: OnEdge, all: &mut Vec<Inclusion>) -> Result<(), AllocError>
    ensures { IfOk result (λ u. all.new.items ≡ all.old.items ++ map (spec.inclusion_on_edge what) edges.now) }
{
    for edge in edges {
        match what {
            OnEdge::Delivered => all.push(Inclusion::OfCut(Side::Delivered(*edge)))?,
            OnEdge::Discarded => all.push(Inclusion::OfCut(Side::Discarded(*edge)))?,
            OnEdge::Note => all.push(Inclusion::OfNote(Limit::Note(*edge)))?,
        }
    }
    Ok(())
}

/// Those that a lower value on the left of an inclusion can break. The error is want of memory.
pub(crate) fn after(
    alloc: Global,
    flow: &Flow,
    inclusion: Inclusion,
) -> Result<Vec<Inclusion>, AllocError>
    ensures { IfOk result (λ all. all.items ≡ spec.after flow.now inclusion) }
{
    let mut all = Vec::new(alloc);
    match inclusion {
        Inclusion::OfCut(side) => add_after_cut(flow, owner(flow, side), &mut all)?,
        Inclusion::OfNote(limit) => {
            let node = note_node(flow, limit);
            all.push(Inclusion::OfCut(Side::Notified(node)))?;
            add_on_edges(flow.out_edges(node), OnEdge::Note, &mut all)?;
        }
    }
    Ok(all)
}

/// Adds those that a lower cut of a node can break. The error is want of memory.
fn add_after_cut(flow: &Flow, node: NodeId, all: &mut Vec<Inclusion>) -> Result<(), AllocError>
    ensures { IfOk result (λ u. all.new.items ≡ all.old.items ++ spec.after_cut flow.now node) }
{
    add_on_edges(flow.in_edges(node), OnEdge::Delivered, all)?;
    add_on_edges(flow.in_edges(node), OnEdge::Discarded, all)?;
    add_on_edges(flow.out_edges(node), OnEdge::Delivered, all)?;
    add_on_edges(flow.out_edges(node), OnEdge::Discarded, all)?;
    all.push(Inclusion::OfCut(Side::Notified(node)))?;
    all.push(Inclusion::OfNote(Limit::Own(node)))?;
    Ok(())
}

/// The number of an inclusion: those of edges come first.
pub(crate) fn number(flow: &Flow, inclusion: Inclusion) -> usize
    requires { IsInclusionOf flow.now inclusion }
    ensures { result ≡ number flow.now inclusion }
{
    match inclusion {
        Inclusion::OfCut(side) => side_number(flow, side),
        Inclusion::OfNote(limit) => limit_number(flow, limit),
    }
}

/// The same for a side.
fn side_number(flow: &Flow, side: Side) -> usize
    requires { IsInclusionOf flow.now (variants.OfCut side) }
    ensures { result ≡ number flow.now (variants.OfCut side) }
{
    flow_is_well_formed(flow);
    let edges = flow.edges();
    match side {
        Side::Delivered(edge) => edge.place() as usize,
        Side::Discarded(edge) => edges + edge.place() as usize,
        Side::Notified(node) => edges + edges + edges + node.place() as usize,
    }
}

/// The same for a limit.
fn limit_number(flow: &Flow, limit: Limit) -> usize
    requires { IsInclusionOf flow.now (variants.OfNote limit) }
    ensures { result ≡ number flow.now (variants.OfNote limit) }
{
    flow_is_well_formed(flow);
    let edges = flow.edges();
    match limit {
        Limit::Note(edge) => edges + edges + edge.place() as usize,
        Limit::Own(node) => edges + edges + edges + flow.nodes() + node.place() as usize,
    }
}

/// The first of a node and those whose values stand on the left of these inclusions.
pub(crate) fn first_node(flow: &Flow, node: NodeId, inclusions: &[Inclusion]) -> NodeId
    ensures node { result ≤ node }
    ensures each { AllByRecursion (λ i. result ≤ of_flow.node_of flow.now i) inclusions.now }
{
    let mut first = node;
    for inclusion in inclusions {
        first = earlier(first, node_of(flow, *inclusion));
    }
    first
}

/// The earlier of two nodes.
fn earlier(one: NodeId, other: NodeId) -> NodeId
    ensures one { result ≤ one }
    ensures other { result ≤ other }
{
    if other.place() < one.place() {
        other
    } else {
        one
    }
}

/// The node one of whose values stands on the left of an inclusion.
pub(crate) fn node_of(flow: &Flow, inclusion: Inclusion) -> NodeId
    ensures { result ≡ of_flow.node_of flow.now inclusion }
{
    match inclusion {
        Inclusion::OfCut(side) => owner(flow, side),
        Inclusion::OfNote(limit) => note_node(flow, limit),
    }
}

/// All wait. The error is want of memory.
pub(crate) fn all_wait(alloc: Global, flow: &Flow) -> Result<Vec<bool>, AllocError>
    ensures one_each { IfOk result (λ waiting. length waiting.items ≡ inclusion_count flow.now) }
    ensures all { IfOk result (λ waiting. AllByRecursion (λ w. w ≡ true) waiting.items) }
{
    let all = vec![in alloc; true; inclusion_count(flow)]?;
    Ok(all)
}

/// Puts these inclusions back among those that wait.
pub(crate) fn put_all(flow: &Flow, waiting: &mut Vec<bool>, inclusions: &[Inclusion])
    requires there { AllByRecursion (IsInclusionOf flow.now) inclusions.now }
    requires one_each { length waiting.old.items ≡ inclusion_count flow.now }
    ensures { AreMadeToWait flow.now inclusions.now waiting.old.items waiting.new.items }
{
    for inclusion in inclusions {
        put(flow, waiting, *inclusion);
    }
}

/// Puts an inclusion back among those that wait.
fn put(flow: &Flow, waiting: &mut Vec<bool>, inclusion: Inclusion)
    requires there { IsInclusionOf flow.now inclusion }
    requires one_each { length waiting.old.items ≡ inclusion_count flow.now }
    ensures { AreMadeToWait flow.now (inclusion ∷ []) waiting.old.items waiting.new.items }
{
    waiting[number(flow, inclusion)] = true;
}
