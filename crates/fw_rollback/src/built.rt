//! What is built anew of the nodes that are cut.
ghost use Rattle.std.specs.Prelude.{◌≡◌, ◌≢◌, ◌<◌, ℕ, List, None, length, replicate, IfOk, OnOk};
ghost use Rattle.std.specs.List.{AllByRecursion};
ghost use Rattle.fw_flow.specs.declared.choice.Cut.TheVariants.{At as CutAt};
ghost use Rattle.fw_flow.specs.Dataflow.{sender};
ghost use Rattle.fw_flow.specs.Restoring.{way_of};
ghost use Rattle.fw_model.specs.Choice.{cut_of};
ghost use Rattle.fw_rollback.specs.Edges.{on_edge, nothing_there};
ghost use Rattle.fw_rollback.specs.Asked.{given_of, CanServe, CanServeEach};
ghost use Rattle.fw_rollback.specs.Built.{AreBuilt, AreNodesBuilt, HasPlaces};
ghost use Rattle.fw_rollback.specs.Restored.{HasLogs, IsBuilt, AreOfFlow};
ghost use Rattle.fw_rollback.specs.Tables.{table_at};

use crate::asked::front_of;
use crate::given::Given;
use crate::queueing::fill_queues;
use crate::replay::replayed;
use crate::restored::restored;
use crate::{Logs, Parts, Queues, Tables};
use fw_flow::{Choice, Flow, Fronts, NodeId, Restoring};
use fw_frontier::Front;
use fw_node::Node;
use fw_record::Record;
use std::alloc::{AllocError, Global};

/// What is built anew: the tables of the nodes that are cut, the logs of the edges from them, and the queues of the edges to
/// them. What stands at the other places is of no use.
#[derive(Drop)]
pub(crate) struct Built {
    pub(crate) tables: Tables,
    pub(crate) logs: Logs,
    pub(crate) queues: Queues,
}

/// Builds the tables and logs of the nodes that are cut from these records, and then the queues to them from the logs.
pub(crate) fn build(
    alloc: Global,
    flow: &Flow,
    choice: &Choice,
    parts: &Parts,
    given: &Given,
) -> Result<Built, AllocError>
    requires each { AreOfFlow flow.now parts.now }
    requires serve { CanServeEach flow.now given.now }
    ensures built { IfOk result (AreBuilt flow.now choice.now parts.now given.now) }
    ensures each { IfOk result (HasPlaces flow.now) }
{
    let mut built = empty(alloc, flow)?;
    fill(alloc, flow, choice, parts, given, &mut built)?;
    Ok(built)
}

/// Nothing is built yet.
fn empty(alloc: Global, flow: &Flow) -> Result<Built, AllocError>
    ensures tables { IfOk result (λ built. built.tables ≡ replicate (length flow.now.nodes) None) }
    ensures logs { IfOk result (λ built. built.logs ≡ replicate (length flow.now.edges) nothing_there) }
    ensures queues { IfOk result (λ built. built.queues ≡ replicate (length flow.now.edges) nothing_there) }
{
    Ok(Built {
        tables: Tables::new(alloc, flow.nodes())?,
        logs: Logs::new(alloc, flow.edges())?,
        queues: Queues::new(alloc, flow.edges())?,
    })
}

/// Builds all where nothing is built yet.
fn fill(
    alloc: Global,
    flow: &Flow,
    choice: &Choice,
    parts: &Parts,
    given: &Given,
    built: &mut Built,
) -> Result<(), AllocError>
    requires each { AreOfFlow flow.now parts.now }
    requires serve { CanServeEach flow.now given.now }
    requires tables { built.old.tables ≡ replicate (length flow.now.nodes) None }
    requires logs { built.old.logs ≡ replicate (length flow.now.edges) nothing_there }
    requires queues { built.old.queues ≡ replicate (length flow.now.edges) nothing_there }
    ensures built { OnOk result (AreBuilt flow.now choice.now parts.now given.now built.new) }
    ensures each { HasPlaces flow.now built.new }
{
    build_nodes(
        alloc,
        flow,
        choice,
        &parts.low,
        given,
        &mut built.tables,
        &mut built.logs,
    )?;
    fill_queues(flow, choice, &parts.logs, &built.logs, &mut built.queues)
}

/// Builds the table of each node that is cut, and its logs.
fn build_nodes(
    alloc: Global,
    flow: &Flow,
    choice: &Choice,
    low: &Fronts,
    given: &Given,
    tables: &mut Tables,
    logs: &mut Logs,
) -> Result<(), AllocError>
    requires serve { CanServeEach flow.now given.now }
    requires tables { length tables.old ≡ length flow.now.nodes }
    requires logs { logs.old ≡ replicate (length flow.now.edges) nothing_there }
    ensures built { OnOk result
        (AreNodesBuilt flow.now choice.now low.now given.now (length flow.now.nodes) tables.new logs.new) }
    ensures tables { length tables.new ≡ length tables.old }
    ensures logs { length logs.new ≡ length logs.old }
{
    for place in 0..flow.nodes() {
        build_at(
            alloc,
            flow,
            choice,
            NodeId::at(place as u32),
            low,
            given,
            tables,
            logs,
        )?;
    }
    Ok(())
}

/// Builds the table of a node, if it is cut, and its logs.
fn build_at(
    alloc: Global,
    flow: &Flow,
    choice: &Choice,
    node: NodeId,
    low: &Fronts,
    given: &Given,
    tables: &mut Tables,
    logs: &mut Logs,
) -> Result<(), AllocError>
    requires serve { AllByRecursion (CanServe flow.now node) (given_of given.now node) }
    requires there { node < length tables.old }
    requires each { length logs.old ≡ length flow.now.edges }
    requires empty { HasLogs flow.now node logs.old (λ e. nothing_there) }
    ensures built { (f : List (List ℕ)) → cut_of choice.now node ≡ CutAt f → OnOk result
        (IsBuilt flow.now low.now node f (given_of given.now node) (way_of flow.now node) (table_at tables.new node) logs.new) }
    ensures others { (e : ℕ) → sender flow.now e ≢ node → on_edge logs.new e ≡ on_edge logs.old e }
    ensures tables { (p : ℕ) → p ≢ node → table_at tables.new p ≡ table_at tables.old p }
    ensures each { length logs.new ≡ length logs.old }
    ensures each_table { length tables.new ≡ length tables.old }
{
    match front_of(choice, node) {
        Some(front) => {
            let table = build_node(alloc, flow, node, front, low, given.of(node), logs)?;
            tables.set(node, table);
            Ok(())
        }
        None => Ok(()),
    }
}

/// The table of a node that is cut to the frontier, from these records of it, if it has a table; its logs are filled.
fn build_node(
    alloc: Global,
    flow: &Flow,
    node: NodeId,
    front: &Front,
    low: &Fronts,
    records: &[Record],
    logs: &mut Logs,
) -> Result<Option<Node>, AllocError>
    requires serve { AllByRecursion (CanServe flow.now node) records.now }
    requires each { length logs.old ≡ length flow.now.edges }
    requires empty { HasLogs flow.now node logs.old (λ e. nothing_there) }
    ensures built { IfOk result
        (λ table. IsBuilt flow.now low.now node front.now records.now (way_of flow.now node) table logs.new) }
    ensures others { (e : ℕ) → sender flow.now e ≢ node → on_edge logs.new e ≡ on_edge logs.old e }
    ensures each { length logs.new ≡ length logs.old }
{
    match flow.restoring(node) {
        Restoring::Batches | Restoring::Bound => Ok(None),
        Restoring::Anything => Ok(Some(Node::new(alloc, flow, node)?)),
        Restoring::Checkpoints => {
            Ok(Some(restored(alloc, flow, node, front, low, records, logs)?))
        }
        Restoring::Events => Ok(Some(replayed(alloc, flow, node, front, low, records, logs)?)),
    }
}
