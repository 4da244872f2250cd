//! How much the inputs injected and the outputs acknowledged: told to a root, and got back from it.
ghost use Rattle.std.specs.Prelude.{◌≡◌, ◌<◌, ℕ, map, length, IfOk};
ghost use Rattle.fw_border.specs.Outputs.{output_at, with_output};
ghost use Rattle.fw_border.specs.Sources.{source_at, with_source};
ghost use Rattle.fw_resume.specs.Borders.{advanced_by, acknowledged_by, started, AreStarted, AreRaised};

use fw_border::{Outputs, Sources};
use fw_flow::{Flow, NodeId};
use fw_frontier::Front;
use fw_root::number_of;
use std::alloc::{AllocError, Global};

/// How many batches each of these inputs injected. The error is want of memory.
pub(crate) fn injected_of(
    alloc: Global,
    sources: &Sources,
    inputs: &[NodeId],
) -> Result<Vec<u64>, AllocError>
    ensures { IfOk result (λ ns. ns.items ≡ map (λ s. (source_at sources.now s).injected) inputs.now) }
{
    let mut numbers = Vec::with_capacity(alloc, inputs.len())?;
    for input in inputs {
        numbers.push(sources.injected(*input))?;
    }
    Ok(numbers)
}

/// How many stamps each of these outputs acknowledged. The error is want of memory.
pub(crate) fn bounds_of(
    alloc: Global,
    outputs: &Outputs,
    nodes: &[NodeId],
) -> Result<Vec<u64>, AllocError>
    ensures { IfOk result (λ ns. ns.items ≡ map (λ o. (output_at outputs.now.outputs o).bound) nodes.now) }
{
    let mut numbers = Vec::with_capacity(alloc, nodes.len())?;
    for node in nodes {
        numbers.push(outputs.bound(*node))?;
    }
    Ok(numbers)
}

/// Of these inputs so many batches are injected more, and of each node those are given up that lie inside its low watermark.
pub(crate) fn start_sources(
    flow: &Flow,
    sources: &mut Sources,
    inputs: &[NodeId],
    injected: &[u64],
    low: &[Front],
)
    requires low { length low.now ≡ length flow.now.nodes }
    requires one_each { length sources.old ≡ length flow.now.nodes }
    ensures { AreStarted inputs.now injected.now low.now (length flow.now.nodes) sources.old sources.new }
{
    for place in 0..flow.nodes() {
        let node = NodeId::at(place as u32);
        let count = number_of(inputs, injected, node).unwrap_or(0);
        start(sources, node, count, &low[place]);
    }
}

/// The same of one node.
fn start(sources: &mut Sources, node: NodeId, count: u64, low: &Front)
    requires { node < length sources.old }
    ensures { sources.new ≡ with_source (started count low.now) sources.old node }
{
    advance_by(sources, node, count);
    sources.acknowledge(node, low);
}

/// So many batches of an input are injected more.
fn advance_by(sources: &mut Sources, node: NodeId, count: u64)
    requires { node < length sources.old }
    ensures { sources.new ≡ with_source (advanced_by count) sources.old node }
{
    for _batch in 0..count {
        sources.advance(node);
    }
}

/// Of these outputs, of which none acknowledged anything, so many stamps are acknowledged.
pub(crate) fn raise_bounds(flow: &Flow, outputs: &mut Outputs, nodes: &[NodeId], bounds: &[u64])
    requires none { (o : ℕ) → (output_at outputs.old.outputs o).bound ≡ 0 }
    requires one_each { length outputs.old.outputs ≡ length flow.now.nodes }
    ensures { AreRaised nodes.now bounds.now (length flow.now.nodes) outputs.old.outputs outputs.new.outputs }
{
    for place in 0..flow.nodes() {
        let node = NodeId::at(place as u32);
        let bound = number_of(nodes, bounds, node).unwrap_or(0);
        raise(outputs, node, bound);
    }
}

/// So many stamps of an output are acknowledged, of which none was before.
fn raise(outputs: &mut Outputs, node: NodeId, bound: u64)
    requires none { (output_at outputs.old.outputs node).bound ≡ 0 }
    requires there { node < length outputs.old.outputs }
    ensures { outputs.new ≡ record outputs.old { outputs = with_output (acknowledged_by bound) outputs.old.outputs node } }
{
    for _stamp in 0..bound {
        let _recs = outputs.acknowledge(node);
    }
}
