//! What an engine that starts again keeps of nodes and edges.
ghost use Rattle.std.specs.Prelude.{◌≡◌, length, map, IfOk};
ghost use Rattle.fw_root.specs.declared.root.NodeFronts.{NodeFronts as Three};
ghost use Rattle.fw_resume.specs.Parts.{ArePartsOf, lows_told};

use crate::borders::{raise_bounds, start_sources};
use fw_border::{Outputs, Sources};
use fw_flow::{Flow, Fronts};
use fw_frontier::Front;
use fw_keep::Keep;
use fw_lines::Batches;
use fw_rollback::{Logs, Parts, Queues, Tables};
use fw_root::{NodeFronts, Role, Root, nodes_as};
use std::alloc::{AllocError, Global};

/// What is kept of nodes and edges that are failed, with this catalogue and these low watermarks. The error is want of memory.
pub(crate) fn parts_of(
    alloc: Global,
    flow: &Flow,
    batches: &Batches,
    root: &Root,
    low: Vec<Front>,
    keep: Keep,
) -> Result<Parts, AllocError>
    requires low { low.items ≡ lows_told root.now }
    requires one_each { length low.items ≡ length flow.now.nodes }
    ensures { IfOk result (ArePartsOf flow.now batches.now root.now keep) }
{
    let inputs = nodes_as(alloc, flow, Role::Input)?;
    let outputs = nodes_as(alloc, flow, Role::Output)?;
    let mut sources = Sources::new(alloc, flow, batches)?;
    start_sources(flow, &mut sources, &inputs, root.injected.as_slice(), &low);
    let mut acknowledged = Outputs::new(alloc, flow)?;
    raise_bounds(flow, &mut acknowledged, &outputs, root.bounds.as_slice());
    Ok(Parts {
        tables: Tables::new(alloc, flow.nodes())?,
        queues: Queues::new(alloc, flow.edges())?,
        logs: Logs::new(alloc, flow.edges())?,
        keep,
        sources,
        outputs: acknowledged,
        low: Fronts::of(low),
    })
}

/// The low watermark of each node. The error is want of memory.
pub(crate) fn lows_of(alloc: Global, fronts: &[NodeFronts]) -> Result<Vec<Front>, AllocError>
    ensures { IfOk result (λ low. low.items ≡ map (λ (f : Three). f.low) fronts.now) }
{
    let mut low = Vec::with_capacity(alloc, fronts.len())?;
    for of_node in fronts {
        low.push(of_node.low.copy()?)?;
    }
    Ok(low)
}

/// What is settled of each node. The error is want of memory.
pub(crate) fn settled_of(alloc: Global, fronts: &[NodeFronts]) -> Result<Vec<Front>, AllocError>
    ensures { IfOk result (λ settled. settled.items ≡ map (λ (f : Three). f.settled) fronts.now) }
{
    let mut settled = Vec::with_capacity(alloc, fronts.len())?;
    for of_node in fronts {
        settled.push(of_node.settled.copy()?)?;
    }
    Ok(settled)
}
