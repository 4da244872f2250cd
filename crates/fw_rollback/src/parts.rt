//! What an engine keeps that a recovery cuts.
ghost use Rattle.std.specs.Prelude.{◌≡◌, length, Option, IfOk};
ghost use Rattle.fw_flow.specs.Restoring.{way_of};
ghost use Rattle.fw_keep.specs.Stored.{Records, IsEmptyStore, IsStored};
ghost use Rattle.fw_rollback.specs.New.{AreNew, AreFirstTables, IsFirstTable};
ghost use Rattle.fw_rollback.specs.Restored.{AreOfFlow, AreOfNodes};

use crate::{Logs, Queues, Tables};
use fw_border::{Outputs, Sources};
use fw_flow::{Flow, Fronts, NodeId, Restoring};
use fw_keep::Keep;
use fw_lines::Batches;
use fw_node::Node;
use std::alloc::{AllocError, Global};

/// What an engine keeps of the nodes and edges of a dataflow that a recovery cuts, but for progress and traces.
#[derive(Drop)]
pub struct Parts {
    /// The table of each node; none of a node that failed, and none of an input or an output.
    pub tables: Tables,
    /// What is pending on each edge; nothing for a receiver that failed.
    pub queues: Queues,
    /// What was sent on each edge and may have to be sent again; nothing of a sender that failed or that logs nothing.
    pub logs: Logs,
    /// The writes that were not collected.
    pub keep: Keep,
    /// The batches of the inputs.
    pub sources: Sources,
    /// The recs of the outputs.
    pub outputs: Outputs,
    /// The low watermark of each node.
    pub low: Fronts,
}

impl Parts {
    /// What is kept of a dataflow with these batches where nothing has happened yet. The low watermarks are as given.
    ///
    /// The only error is want of memory.
    pub fn new(
        alloc: Global,
        flow: &Flow,
        batches: &Batches,
        low: Fronts,
    ) -> Result<Self, AllocError>
        ensures new { IfOk result (AreNew flow.now batches.now low) }
        ensures each { IfOk result (AreOfFlow flow.now) }
        ensures nodes { IfOk result (λ parts. AreOfNodes flow.now parts.tables) }
        ensures stored { (records : Option Records) → IsEmptyStore records → IfOk result (λ parts. IsStored parts.keep records) }
    {
        Ok(Parts {
            tables: tables_of(alloc, flow)?,
            queues: Queues::new(alloc, flow.edges())?,
            logs: Logs::new(alloc, flow.edges())?,
            keep: Keep::new(alloc),
            sources: Sources::new(alloc, flow, batches)?,
            outputs: Outputs::new(alloc, flow)?,
            low,
        })
    }
}

/// A table to which nothing came for each node that is no input and no output.
fn tables_of(alloc: Global, flow: &Flow) -> Result<Tables, AllocError>
    ensures first { IfOk result (AreFirstTables flow.now (length flow.now.nodes)) }
    ensures each { IfOk result (λ tables. length tables ≡ length flow.now.nodes) }
{
    let mut tables = Tables::new(alloc, flow.nodes())?;
    for place in 0..flow.nodes() {
        let node = NodeId::at(place as u32);
        tables.set(node, table_of(alloc, flow, node)?);
    }
    Ok(tables)
}

/// The table of a node to which nothing came, if it has one.
fn table_of(alloc: Global, flow: &Flow, node: NodeId) -> Result<Option<Node>, AllocError>
    ensures { IfOk result (IsFirstTable flow.now node (way_of flow.now node)) }
{
    match flow.restoring(node) {
        Restoring::Batches | Restoring::Bound => Ok(None),
        Restoring::Anything | Restoring::Checkpoints | Restoring::Events => {
            Ok(Some(Node::new(alloc, flow, node)?))
        }
    }
}
