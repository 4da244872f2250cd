//! What was built anew takes the place of what was there, and the rest is cut. Nothing here takes memory.
ghost use Rattle.std.specs.Prelude.{◌≡◌, ◌≢◌, ◌<◌, ℕ, List, Option, length};
ghost use Rattle.fw_model.specs.Choice.{cut_of};
ghost use Rattle.fw_border.specs.Outputs.{output_at, with_output};
ghost use Rattle.fw_border.specs.Sources.{source_at, with_source, rolled_source};
ghost use Rattle.fw_rollback.specs.Edges.{on_edge};
ghost use Rattle.fw_keep.specs.Catalogue.{without};
ghost use Rattle.fw_keep.specs.Stored.{IsStored, Records};
ghost use Rattle.fw_record.specs.declared.record.Record.{Record};
ghost use Rattle.fw_rollback.specs.Tables.{table_at};
ghost use Rattle.fw_rollback.specs.Built.{table_after, log_put, queue_put, AreBuilt, HasPlaces};
ghost use Rattle.fw_rollback.specs.Restored.{is_undone, output_after, queue_from, queue_kept, AreOfFlow, IsRestored};

use crate::asked::front_of;
use crate::built::Built;
use crate::{Logs, Parts, Queues, Tables};
use fw_border::{Outputs, Sources};
use fw_edge::{MsgLog, Queue};
use fw_flow::{Choice, EdgeId, Flow, NodeId};
use fw_frontier::Front;
use fw_keep::{Entry, Going, Keep};
use fw_node::Node;

/// Puts what was built into its places, and cuts the writes, the inputs and the outputs.
pub(crate) fn swap(flow: &Flow, choice: &Choice, parts: &mut Parts, built: Built)
    requires each { AreOfFlow flow.now parts.old }
    requires built { HasPlaces flow.now built }
    ensures restored { (given : List (List Record)) → AreBuilt flow.now choice.now parts.old given built
        → IsRestored flow.now choice.now parts.old given parts.new }
    ensures each { AreOfFlow flow.now parts.new }
    ensures stored { (records : Option Records) → IsStored parts.old.keep records → IsStored parts.new.keep records }
{
    put_tables(flow, choice, built.tables, &mut parts.tables);
    put_logs(flow, choice, built.logs, &mut parts.logs);
    put_queues(flow, choice, built.queues, &mut parts.queues);
    forget(choice, &mut parts.keep);
    roll_sources(flow, choice, &mut parts.sources);
    clear_outputs(flow, choice, &mut parts.outputs);
}

/// Gives each node that is cut the table that was built for it.
fn put_tables(flow: &Flow, choice: &Choice, built: Tables, tables: &mut Tables)
    requires built { length built ≡ length flow.now.nodes }
    requires each { length tables.old ≡ length flow.now.nodes }
    ensures put { (p : ℕ) → p < length flow.now.nodes
        → table_at tables.new p ≡ table_after choice.now p (table_at tables.old p) (table_at built p) }
    ensures each { length tables.new ≡ length tables.old }
{
    let _nodes = flow.nodes();
    let mut rest = built;
    while let Some(table) = rest.pop() {
        put_table(choice, NodeId::at(rest.len() as u32), table, tables);
    }
}

/// Gives a node this table, if it is cut.
fn put_table(choice: &Choice, node: NodeId, table: Option<Node>, tables: &mut Tables)
    requires { node < length tables.old }
    ensures put { table_at tables.new node ≡ table_after choice.now node (table_at tables.old node) table }
    ensures others { (p : ℕ) → p ≢ node → table_at tables.new p ≡ table_at tables.old p }
    ensures each { length tables.new ≡ length tables.old }
{
    match front_of(choice, node) {
        Some(_) => tables.set(node, table),
        None => {}
    }
}

/// Gives each edge from a node that is cut the log that was built for it.
fn put_logs(flow: &Flow, choice: &Choice, built: Logs, logs: &mut Logs)
    requires built { length built ≡ length flow.now.edges }
    requires each { length logs.old ≡ length flow.now.edges }
    ensures put { (e : ℕ) → e < length flow.now.edges
        → on_edge logs.new e ≡ log_put flow.now choice.now e (on_edge logs.old e) (on_edge built e) }
    ensures each { length logs.new ≡ length logs.old }
{
    let (_nodes, _edges) = (flow.nodes(), flow.edges());
    let mut rest = built;
    while let Some(log) = rest.pop() {
        put_log(flow, choice, EdgeId::at(rest.len() as u32), log, logs);
    }
}

/// Gives an edge this log, if its sender is cut.
fn put_log(flow: &Flow, choice: &Choice, edge: EdgeId, log: MsgLog, logs: &mut Logs)
    requires { edge < length logs.old }
    ensures put { on_edge logs.new edge ≡ log_put flow.now choice.now edge (on_edge logs.old edge) log }
    ensures others { (e : ℕ) → e ≢ edge → on_edge logs.new e ≡ on_edge logs.old e }
    ensures each { length logs.new ≡ length logs.old }
{
    match front_of(choice, flow.src(edge)) {
        Some(_) => logs.set(edge, log),
        None => {}
    }
}

/// Gives each edge to a node that is cut the queue that was built for it; of each other queue what comes from what the sender
/// keeps stays.
fn put_queues(flow: &Flow, choice: &Choice, built: Queues, queues: &mut Queues)
    requires built { length built ≡ length flow.now.edges }
    requires each { length queues.old ≡ length flow.now.edges }
    ensures put { (e : ℕ) → e < length flow.now.edges
        → on_edge queues.new e ≡ queue_put flow.now choice.now e (on_edge queues.old e) (on_edge built e) }
    ensures each { length queues.new ≡ length queues.old }
{
    let (_nodes, _edges) = (flow.nodes(), flow.edges());
    let mut rest = built;
    while let Some(queue) = rest.pop() {
        put_queue(flow, choice, EdgeId::at(rest.len() as u32), queue, queues);
    }
}

/// Gives an edge this queue, if its receiver is cut; else what comes from what the sender keeps stays in its own.
fn put_queue(flow: &Flow, choice: &Choice, edge: EdgeId, queue: Queue, queues: &mut Queues)
    requires { edge < length queues.old }
    ensures put { on_edge queues.new edge ≡ queue_put flow.now choice.now edge (on_edge queues.old edge) queue }
    ensures others { (e : ℕ) → e ≢ edge → on_edge queues.new e ≡ on_edge queues.old e }
    ensures each { length queues.new ≡ length queues.old }
{
    match front_of(choice, flow.dst(edge)) {
        Some(_) => queues.set(edge, queue),
        None => keep_causes(flow, choice, edge, queues),
    }
}

/// Keeps of the queue of an edge what comes from what the sender keeps.
fn keep_causes(flow: &Flow, choice: &Choice, edge: EdgeId, queues: &mut Queues)
    requires { edge < length queues.old }
    ensures kept { on_edge queues.new edge ≡ queue_kept flow.now choice.now edge (on_edge queues.old edge) }
    ensures others { (e : ℕ) → e ≢ edge → on_edge queues.new e ≡ on_edge queues.old e }
    ensures each { length queues.new ≡ length queues.old }
{
    match front_of(choice, flow.src(edge)) {
        Some(front) => keep_from(front, edge, queues),
        None => {}
    }
}

/// Keeps of the queue of an edge what comes from inside the frontier.
fn keep_from(front: &Front, edge: EdgeId, queues: &mut Queues)
    requires { edge < length queues.old }
    ensures kept { on_edge queues.new edge ≡ queue_from front.now (on_edge queues.old edge) }
    ensures others { (e : ℕ) → e ≢ edge → on_edge queues.new e ≡ on_edge queues.old e }
    ensures each { length queues.new ≡ length queues.old }
{
    if let Some(queue) = queues.get_mut(edge) {
        queue.keep_causes(front);
    }
}

/// The writes that do not lie within the cuts of their nodes.
#[derive(Clone, Copy)]
struct Undone<'a> {
    choice: &'a Choice,
}

impl Going for Undone<'_> {
    ghost goes = { λ going e. is_undone going.choice.now e };

    fn takes(&self, entry: &Entry) -> bool {
        match front_of(self.choice, entry.node) {
            Some(front) => !entry.written.lies_within(front),
            None => false,
        }
    }
}

/// Takes the writes out that do not lie within the cuts of their nodes.
fn forget(choice: &Choice, keep: &mut Keep)
    ensures gone { keep.new ≡ without (is_undone choice.now) keep.old }
    ensures stored { (records : Option Records) → IsStored keep.old records → IsStored keep.new records }
{
    keep.forget(&Undone { choice });
}

/// Counts of each input those injections alone that lie within its cut.
fn roll_sources(flow: &Flow, choice: &Choice, sources: &mut Sources)
    ensures rolled { (s : ℕ) → s < length flow.now.nodes
        → source_at sources.new s ≡ rolled_source (cut_of choice.now s) (source_at sources.old s) }
    ensures each { length sources.new ≡ length sources.old }
{
    for place in 0..flow.nodes() {
        roll_source(choice, NodeId::at(place as u32), sources);
    }
}

/// Counts of an input those injections alone that lie within its cut.
fn roll_source(choice: &Choice, node: NodeId, sources: &mut Sources)
    ensures { sources.new ≡ with_source (rolled_source (cut_of choice.now node)) sources.old node }
{
    match choice.cuts.as_slice().get(node.place() as usize) {
        Some(cut) => sources.roll_to(node, cut),
        None => {}
    }
}

/// Drops the recs of each output that is cut.
fn clear_outputs(flow: &Flow, choice: &Choice, outputs: &mut Outputs)
    ensures cleared { (o : ℕ) → o < length flow.now.nodes
        → output_at outputs.new.outputs o ≡ output_after (cut_of choice.now o) (output_at outputs.old.outputs o) }
    ensures refused { outputs.new.refused ≡ outputs.old.refused }
    ensures each { length outputs.new.outputs ≡ length outputs.old.outputs }
{
    for place in 0..flow.nodes() {
        clear_output(choice, NodeId::at(place as u32), outputs);
    }
}

/// Drops the recs of an output, if it is cut.
fn clear_output(choice: &Choice, node: NodeId, outputs: &mut Outputs)
    ensures { outputs.new ≡ record outputs.old { outputs = with_output (output_after (cut_of choice.now node)) outputs.old.outputs node } }
{
    match front_of(choice, node) {
        Some(_) => outputs.clear(node),
        None => {}
    }
}
