//! What a root has one of for each input, output, node or sequence, and which numbers and fronts may stand there.
ghost use Rattle.std.specs.Prelude.{◌≡◌, IfOk};
ghost use Rattle.fw_flow.specs.Dataflow.{node_ids};
ghost use Rattle.fw_root.specs.OfFlow as spec;
ghost use Rattle.fw_root.specs.declared.of_flow.Role.TheVariants.{Input};

use crate::codes::BOUND;
use crate::extent::Extent;
use fw_flow::{Flow, Kind, NodeId, Policy};
use fw_lines::Batches;
use std::alloc::{AllocError, Global};

/// What a node is to a root.
#[derive(Clone, Copy, Debug)]
pub enum Role {
    Input,
    Output,
    /// It numbers what it sends, from how much it sent before.
    ByCount,
}

/// Whether a node of the kind plays the role.
fn plays(role: Role, kind: Kind) -> bool
    ensures { result ≡ spec.plays role kind }
{
    match role {
        Role::Input => kind.is_input(),
        Role::Output => kind.is_output(),
        Role::ByCount => kind.is_sequence(),
    }
}

/// The nodes that play a role, in order.
#[tactic(auto, unfolding(crate::specs::OfFlow::nodes_as), using(crate::proofs::OfFlowLaws::picked_one, crate::proofs::OfFlowLaws::picked_none))]
pub fn nodes_as(alloc: Global, flow: &Flow, role: Role) -> Result<Vec<NodeId>, AllocError>
    ensures { IfOk result (λ nodes. nodes.items ≡ spec.nodes_as flow.now role) }
{
    let mut nodes = Vec::new(alloc);
    for place in 0..flow.nodes() {
        let node = NodeId::at(place as u32);
        if plays(role, flow.kind(node)) {
            nodes.push(node)?;
        }
    }
    Ok(nodes)
}

/// All nodes, in order.
#[tactic(auto, using(crate::proofs::OfFlowLaws::one_more))]
pub fn all_nodes(alloc: Global, flow: &Flow) -> Result<Vec<NodeId>, AllocError>
    ensures { IfOk result (λ nodes. nodes.items ≡ node_ids flow.now) }
{
    let mut nodes = Vec::new(alloc);
    for place in 0..flow.nodes() {
        nodes.push(NodeId::at(place as u32))?;
    }
    Ok(nodes)
}

/// The greatest number that may stand for a node: for an input how many batches it has, for an output 2^32.
#[tactic(auto, unfolding(crate::specs::OfFlow::limit_for))]
pub fn limit_for(flow: &Flow, batches: &Batches, node: NodeId) -> u64
    ensures { result ≡ spec.limit_for flow.now batches.now node }
{
    if flow.kind(node).is_input() {
        batches.count(node.place()) as u64
    } else {
        BOUND
    }
}

/// The place of a node among these; past them, where it is none of them.
pub fn place_in(nodes: &[NodeId], node: NodeId) -> usize
    ensures { result ≡ spec.place_among_nodes nodes.now node }
{
    for (i, other) in nodes.iter().enumerate() {
        if *other == node {
            return i;
        }
    }
    nodes.len()
}

/// Which of these numbers stands for a node, the numbers being those of these nodes.
pub fn number_of(nodes: &[NodeId], numbers: &[u64], node: NodeId) -> Option<u64>
    ensures { result ≡ spec.number_standing_for nodes.now numbers.now node }
{
    match numbers.get(place_in(nodes, node)) {
        None => None,
        Some(number) => Some(*number),
    }
}

/// Which fronts a node's low watermark may be, where these inputs injected so much.
#[tactic(auto, unfolding(crate::specs::OfFlow::low_extent))]
pub fn low_extent(
    flow: &Flow,
    batches: &Batches,
    inputs: &[NodeId],
    injected: &[u64],
    node: NodeId,
) -> Extent
    requires { inputs.now ≡ spec.nodes_as flow.now Input }
    ensures { result ≡ spec.low_extent flow.now batches.now injected.now node }
{
    match number_of(inputs, injected, node) {
        None => Extent::Any,
        Some(injected) => Extent::Batches {
            injected,
            whole: injected == batches.count(node.place()) as u64,
        },
    }
}

/// Which fronts a node's third one may be.
pub fn third_extent(flow: &Flow, node: NodeId) -> Extent
    ensures { result ≡ spec.third_extent flow.now node }
{
    match flow.policy(node) {
        Policy::Full => Extent::Any,
        _ => Extent::Nothing,
    }
}
