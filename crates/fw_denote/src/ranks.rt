//! In which order the nodes are run, and the rounds of loops.
use fw_flow::{EdgeId, Flow, NodeId};
use fw_time::Stamp;
use std::alloc::{AllocError, Global};

/// The round of a loop in which a node is run, and its rank within the round.
#[derive(Clone, Copy, Debug, PartialEq, Eq, PartialOrd, Ord)]
struct Round {
    counter: u32,
    rank: u32,
}

/// When a node is run on what is at the same counters: by its rank, then round by round of the loops that it lies in, the
/// outermost first.
#[derive(Clone, Copy, Debug, PartialEq, Eq, PartialOrd, Ord)]
pub(crate) struct Turn {
    rank: u32,
    outer: Round,
    middle: Round,
    inner: Round,
    node: u32,
}

impl Turn {
    /// Whose turn it is.
    pub(crate) fn node(&self) -> NodeId {
        NodeId::at(self.node)
    }
}

/// The ranks of the nodes at each depth: how many nodes that lie in exactly so many loops are the node or lead to it, along
/// edges between nodes that lie at least so deep, and not from a feedback of a loop of this depth. At depth 0 the rank rises
/// along each edge into a node outside loops, and at each other depth within a round along each edge into a node of the
/// loop's own.
#[derive(Debug, Drop)]
pub(crate) struct Ranks {
    outside: Vec<u32>,
    outer: Vec<u32>,
    middle: Vec<u32>,
    inner: Vec<u32>,
}

impl Ranks {
    /// Those of the nodes of the flow. The error is want of memory.
    pub(crate) fn of(alloc: Global, flow: &Flow) -> Result<Self, AllocError> {
        let depths = depths(alloc, flow)?;
        Ok(Ranks {
            outside: ranks_at(alloc, flow, &depths, 0)?,
            outer: ranks_at(alloc, flow, &depths, 1)?,
            middle: ranks_at(alloc, flow, &depths, 2)?,
            inner: ranks_at(alloc, flow, &depths, 3)?,
        })
    }

    /// When a node is run on what is at the counters of the stamp.
    pub(crate) fn turn(&self, node: NodeId, at: &Stamp) -> Turn {
        Turn {
            rank: rank_of(&self.outside, node),
            outer: round_at(&self.outer, node, at, 1),
            middle: round_at(&self.middle, node, at, 2),
            inner: round_at(&self.inner, node, at, 3),
            node: node.place(),
        }
    }
}

fn rank_of(ranks: &[u32], node: NodeId) -> u32 {
    ranks.get(node.place() as usize).copied().unwrap_or(0)
}

/// The round of the loop at a depth; the first one where the stamp does not lie so deep.
fn round_at(ranks: &[u32], node: NodeId, at: &Stamp, depth: usize) -> Round {
    if depth < at.len() {
        Round {
            counter: at.at(depth),
            rank: rank_of(ranks, node),
        }
    } else {
        Round {
            counter: 0,
            rank: 0,
        }
    }
}

/// In how many loops each node lies.
fn depths(alloc: Global, flow: &Flow) -> Result<Vec<usize>, AllocError> {
    let mut depths = Vec::with_capacity(alloc, flow.nodes())?;
    for place in 0..flow.nodes() {
        let coords = flow.domain(NodeId::at(place as u32)).greatest.len();
        depths.push(coords.saturating_sub(1))?;
    }
    Ok(depths)
}

fn depth_of(depths: &[usize], node: NodeId) -> usize {
    depths.get(node.place() as usize).copied().unwrap_or(0)
}

/// The ranks at a depth.
fn ranks_at(
    alloc: Global,
    flow: &Flow,
    depths: &[usize],
    depth: usize,
) -> Result<Vec<u32>, AllocError> {
    let mut ranks = vec![in alloc; 0u32; flow.nodes()]?;
    for place in 0..flow.nodes() {
        let node = NodeId::at(place as u32);
        if depth_of(depths, node) == depth {
            raise_reached(alloc, flow, depths, depth, node, &mut ranks)?;
        }
    }
    Ok(ranks)
}

/// Raises the rank of each node to which this one leads, and its own.
fn raise_reached(
    alloc: Global,
    flow: &Flow,
    depths: &[usize],
    depth: usize,
    start: NodeId,
    ranks: &mut [u32],
) -> Result<(), AllocError> {
    let mut seen = vec![in alloc; false; flow.nodes()]?;
    let mut waiting = Vec::new(alloc);
    mark(&mut seen, start);
    waiting.push(start)?;
    for _ in 0..flow.nodes() {
        let Some(node) = waiting.pop() else {
            return Ok(());
        };
        raise(ranks, node);
        for edge in flow.out_edges(node) {
            let receiver = flow.dst(*edge);
            if leads_on(flow, depths, depth, *edge) && mark(&mut seen, receiver) {
                waiting.push(receiver)?;
            }
        }
    }
    Ok(())
}

fn raise(ranks: &mut [u32], node: NodeId) {
    if let Some(rank) = ranks.get_mut(node.place() as usize) {
        *rank = rank.saturating_add(1);
    }
}

/// Marks a node, and says whether it was not marked before.
fn mark(seen: &mut [bool], node: NodeId) -> bool {
    match seen.get_mut(node.place() as usize) {
        Some(is_seen) => {
            let new = !*is_seen;
            *is_seen = true;
            new
        }
        None => false,
    }
}

/// Whether the edge stays at least so deep, and does not leave a feedback of a loop of this depth.
fn leads_on(flow: &Flow, depths: &[usize], depth: usize, edge: EdgeId) -> bool {
    let sender = flow.src(edge);
    let from = depth_of(depths, sender);
    from >= depth
        && depth_of(depths, flow.dst(edge)) >= depth
        && !(from == depth && flow.kind(sender).is_feedback())
}
