//! Whether the closed walks of a dataflow are right: none passes a node outside loops, and in each loop each passes a feedback
//! of it.
ghost use Rattle.std.specs.Prelude.{◌≡◌, ℕ, ◌<◌, ◌↔◌, List, [], ◌∷◌, map, length, IfOk, OnOk, IsTrue};
ghost use Rattle.std.specs.Bool.{OnTrue, OnFalse};
ghost use Rattle.std.specs.List.{Contains};
ghost use Rattle.fw_flow.specs.declared.walks.Link.{Link as AnyLink};
ghost use Rattle.fw_flow.specs.Check.{HoldsBelow, JoinsDomains, AreWalksRight, IsWalkWrong};
ghost use Rattle.fw_flow.specs.Dataflow.{Dataflow};
ghost use Rattle.fw_flow.specs.Depths.{depth_of_kind, ReturningPath, stays_deep, AreKept, ClosedPath};
ghost use Rattle.fw_flow.specs.Flow.{edges_at};
ghost use Rattle.fw_flow.specs.Walks.{Path, graph_of, AreWithin, AreOnward, AreOnwardWithin, AreMarked, IsReachOf, LeadsBack, IsMadeOf};

use crate::kind::parent_of;
use crate::{Domain, Kind, Loop, Node};
use std::alloc::{AllocError, Global};

// Loops lie in each other at most so deep.
const MAX_DEPTH: usize = 3;

/// An edge, by the places of the nodes that it joins.
#[derive(Clone, Copy)]
pub(crate) struct Link {
    pub(crate) sender: usize,
    pub(crate) receiver: usize,
}

/// Whether the links join nodes among so many.
pub(crate) fn are_within(places: usize, links: &[Link]) -> bool
    ensures { IsTrue result ↔ AreWithin places links.now }
{
    for link in links {
        if link.sender >= places || link.receiver >= places {
            return false;
        }
    }
    true
}

/// Whether the closed walks are right. At each depth the links count that stay at least so deep and leave no feedback of a
/// loop of that depth: from no node of that depth do they lead back to it. The links are those of the dataflow's edges, in
/// order; the only error is want of memory.
pub(crate) fn are_walks_right(
    alloc: Global,
    loops: &[Loop],
    nodes: &[Node],
    links: &[Link],
) -> Result<bool, AllocError>
    requires { AreWithin (length nodes.now) links.now }
    ensures right { (flow : Dataflow) → IsMadeOf flow loops.now nodes.now links.now
        → IfOk result (λ right. OnTrue right (AreWalksRight flow)) }
    ensures wrong { (flow : Dataflow) → IsMadeOf flow loops.now nodes.now links.now
        → HoldsBelow (JoinsDomains flow) (length links.now)
        → IfOk result (λ right. OnFalse right (IsWalkWrong flow)) }
{
    let depths = depths_of(alloc, loops, nodes)?;
    for depth in 0..=MAX_DEPTH {
        if does_one_return(alloc, nodes, &depths, links, depth)? {
            return Ok(false);
        }
    }
    Ok(true)
}

/// In how many loops each node lies.
fn depths_of(alloc: Global, loops: &[Loop], nodes: &[Node]) -> Result<Vec<usize>, AllocError>
    ensures len { IfOk result (λ depths. length depths.items ≡ length nodes.now) }
    ensures depths { (flow : Dataflow) → flow.loops ≡ loops.now
        → IfOk result (λ depths. depths.items ≡ map (λ node. depth_of_kind flow node.kind) nodes.now) }
{
    let mut depths = Vec::new(alloc);
    for node in nodes {
        depths.push(depth_of(loops, node.kind))?;
    }
    Ok(depths)
}

/// In how many loops a node of the kind lies.
fn depth_of(loops: &[Loop], kind: Kind) -> usize
    ensures { (flow : Dataflow) → flow.loops ≡ loops.now → result ≡ depth_of_kind flow kind }
{
    let Domain::Loop(inner) = kind.domain(loops) else {
        return 0;
    };
    let Domain::Loop(middle) = parent_of(loops, inner) else {
        return 1;
    };
    let Domain::Loop(_) = parent_of(loops, middle) else {
        return 2;
    };
    MAX_DEPTH
}

/// Whether the links that count at this depth lead from a node of this depth back to it.
fn does_one_return(
    alloc: Global,
    nodes: &[Node],
    depths: &[usize],
    links: &[Link],
    depth: usize,
) -> Result<bool, AllocError>
    requires within { AreWithin (length nodes.now) links.now }
    requires len { length depths.now ≡ length nodes.now }
    ensures some { (flow : Dataflow) → IsMadeOf flow flow.loops nodes.now links.now
        → depths.now ≡ map (λ node. depth_of_kind flow node.kind) nodes.now → IfOk result (λ b. OnTrue b (ReturningPath flow depth)) }
    ensures none { (flow : Dataflow) → IsMadeOf flow flow.loops nodes.now links.now
        → depths.now ≡ map (λ node. depth_of_kind flow node.kind) nodes.now → IfOk result (λ b. OnFalse b (ReturningPath flow depth → ⊥)) }
{
    let kept = links_at(alloc, nodes, depths, links, depth)?;
    is_one_on_closed_walk(alloc, &kept, depths, depth)
}

/// The links that stay at least so deep, and leave no feedback of a loop of this depth.
fn links_at(
    alloc: Global,
    nodes: &[Node],
    depths: &[usize],
    links: &[Link],
    depth: usize,
) -> Result<Vec<Link>, AllocError>
    requires within { AreWithin (length nodes.now) links.now }
    requires len { length depths.now ≡ length nodes.now }
    ensures { IfOk result (λ kept.
        AreKept (stays_deep nodes.now depths.now depth) links.now (length links.now) kept.items) }
{
    let mut kept = Vec::new(alloc);
    for link in links {
        if stays_deep(nodes, depths, depth, *link) {
            kept.push(*link)?;
        }
    }
    Ok(kept)
}

/// Whether the link stays at least so deep, and leaves no feedback of a loop of this depth.
fn stays_deep(nodes: &[Node], depths: &[usize], depth: usize, link: Link) -> bool
    requires sender { link.sender < length nodes.now }
    requires receiver { link.receiver < length nodes.now }
    requires len { length depths.now ≡ length nodes.now }
    ensures { result ≡ stays_deep nodes.now depths.now depth link }
{
    depths[link.sender] >= depth
        && depths[link.receiver] >= depth
        && !(nodes[link.sender].kind.is_feedback() && depths[link.sender] == depth)
}

/// Whether the links lead from a node of this depth back to it.
fn is_one_on_closed_walk(
    alloc: Global,
    links: &[Link],
    depths: &[usize],
    depth: usize,
) -> Result<bool, AllocError>
    requires { AreWithin (length depths.now) links.now }
    ensures some { IfOk result (λ found. OnTrue found (ClosedPath links.now depths.now depth)) }
    ensures none { IfOk result (λ found. OnFalse found (ClosedPath links.now depths.now depth → ⊥)) }
{
    let onward = receivers_by_sender(alloc, depths.len(), links)?;
    for (place, at) in depths.iter().enumerate() {
        if *at == depth && is_on_closed_walk(alloc, links, &onward, place)? {
            return Ok(true);
        }
    }
    Ok(false)
}

/// For each of so many nodes the receivers of the links that leave it.
fn receivers_by_sender(
    alloc: Global,
    places: usize,
    links: &[Link],
) -> Result<Vec<Vec<usize>>, AllocError>
    requires { AreWithin places links.now }
    ensures len { IfOk result (λ onward. length onward.items ≡ places) }
    ensures onward { IfOk result (λ onward. AreOnward links.now (length links.now) onward.items) }
{
    let mut onward = no_receivers(alloc, places)?;
    for link in links {
        onward[link.sender].push(link.receiver)?;
    }
    Ok(onward)
}

/// So many nodes that no link leaves.
fn no_receivers(alloc: Global, places: usize) -> Result<Vec<Vec<usize>>, AllocError>
    ensures len { IfOk result (λ onward. length onward.items ≡ places) }
    ensures empty { IfOk result (λ onward. (p : ℕ) → edges_at onward.items p ≡ []) }
{
    let mut onward = Vec::new(alloc);
    for _ in 0..places {
        onward.push(Vec::new(alloc))?;
    }
    Ok(onward)
}

/// Whether a closed walk passes the node. `onward` has the receivers of the links that leave each node.
fn is_on_closed_walk(
    alloc: Global,
    links: &[Link],
    onward: &[Vec<usize>],
    node: usize,
) -> Result<bool, AllocError>
    requires within { AreWithin (length onward.now) links.now }
    requires onward { AreOnward links.now (length links.now) onward.now }
    requires node_within { node < length onward.now }
    ensures some { IfOk result (λ b. OnTrue b (Path (graph_of links.now) node node)) }
    ensures none { IfOk result (λ b. OnFalse b (Path (graph_of links.now) node node → ⊥)) }
{
    let reached = nodes_from(alloc, onward, node)?;
    Ok(leads_back(links, &reached, node))
}

/// Whether a link leads from a marked node to the node.
fn leads_back(links: &[Link], marks: &[bool], node: usize) -> bool
    requires { AreWithin (length marks.now) links.now }
    ensures some { OnTrue result (LeadsBack links.now marks.now node) }
    ensures none { OnFalse result (LeadsBack links.now marks.now node → ⊥) }
{
    for link in links {
        if link.receiver == node && marks[link.sender] {
            return true;
        }
    }
    false
}

/// Marks the nodes that walks from the node reach, it among them. Each is visited once, and each link that leaves it is
/// looked at then.
fn nodes_from(alloc: Global, onward: &[Vec<usize>], node: usize) -> Result<Vec<bool>, AllocError>
    requires within { AreOnwardWithin onward.now }
    requires node_within { node < length onward.now }
    ensures len { IfOk result (λ marks. length marks.items ≡ length onward.now) }
    ensures reach { (links : List AnyLink) → AreOnward links (length links) onward.now
        → IfOk result (λ marks. IsReachOf links node marks.items) }
{
    let mut marks = vec![in alloc; false; onward.len()]?;
    let mut to_visit = Vec::new(alloc);
    mark(node, &mut marks, &mut to_visit)?;
    while let Some(place) = to_visit.pop() {
        mark_all(&onward[place], &mut marks, &mut to_visit)?;
    }
    Ok(marks)
}

/// Marks the places, and adds those that had no mark to the list of nodes to visit. The only error is want of memory.
fn mark_all(
    places: &[usize],
    marks: &mut Vec<bool>,
    to_visit: &mut Vec<usize>,
) -> Result<(), AllocError>
    requires { (p : ℕ) → Contains places.now p → p < length marks.old.items }
    ensures { OnOk result (AreMarked places.now marks.old.items marks.new.items to_visit.old.items to_visit.new.items) }
{
    for place in places {
        mark(*place, marks, to_visit)?;
    }
    Ok(())
}

/// Marks the place, and adds it to the list of nodes to visit if it had no mark. The only error is want of memory.
fn mark(place: usize, marks: &mut Vec<bool>, to_visit: &mut Vec<usize>) -> Result<(), AllocError>
    requires { place < length marks.old.items }
    ensures { OnOk result
        (AreMarked (place ∷ []) marks.old.items marks.new.items to_visit.old.items to_visit.new.items) }
{
    if marks[place] {
        return Ok(());
    }
    marks[place] = true;
    to_visit.push(place)?;
    Ok(())
}
