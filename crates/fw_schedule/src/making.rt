//! Schedules that are made in code, each item tested as it is added.
ghost use Rattle.std.specs.Prelude.{◌≡◌, ◌++◌, ◌∷◌, [], OnOk, OnErr};
ghost use Rattle.std.specs.List.{AllByRecursion};
ghost use Rattle.fw_schedule.specs.Making as spec;
ghost use Rattle.fw_schedule.specs.Making.{item_fault, IsAddedOrFault};
ghost use Rattle.fw_schedule.specs.Schedule.{IsItemOf};

use crate::{Item, STEP_LIMIT, Schedule};
use fw_flow::{EdgeId, Flow, NodeId, Step};
use fw_time::{Bounds, Stamp};
use std::alloc::AllocError;
use thiserror::Error;

/// Why a schedule of a flow takes no item.
#[derive(Clone, Copy, Debug, PartialEq, Eq, Error)]
pub enum ItemFault {
    /// The flow has no node at this place.
    #[error("the flow has no node at place {0}")]
    NoNode(NodeId),
    /// The flow has no edge at this place.
    #[error("the flow has no such edge")]
    NoEdge(EdgeId),
    /// The node at this place is no input: inputs alone inject.
    #[error("the node at place {0} is no input")]
    NoInput(NodeId),
    /// The node at this place is no output: outputs alone acknowledge.
    #[error("the node at place {0} is no output")]
    NoOutput(NodeId),
    /// The stamp lies outside the domain, which is that of the node, or of the edge's receiver.
    #[error("the stamp lies outside the domain")]
    OutsideDomain,
    /// No node fails in the failure.
    #[error("no node fails in the failure")]
    NoneFails,
    /// It asks for more than 2^32 - 1 steps.
    #[error("more than 4294967295 steps are asked for")]
    TooManySteps,
    /// Memory was refused.
    #[error("out of memory")]
    NoMemory,
}

impl From<AllocError> for ItemFault {
    ghost use Rattle.fw_schedule.specs.declared.making.ItemFault.TheVariants.{NoMemory};

    ghost from_gives = { λ _ fault. fault ≡ NoMemory };

    fn from(_error: AllocError) -> Self {
        ItemFault::NoMemory
    }
}

impl Schedule {
    /// Puts an item behind the others: exactly where it is one of the flow's, so that its source, edge, node or output is one
    /// that the flow has, its stamp lies in the domain, and some node fails in a failure.
    ///
    /// # Errors
    ///
    /// Which of these fails, or want of memory. Then the items are as they were.
    pub fn add(&mut self, flow: &Flow, item: Item) -> Result<(), ItemFault>
        ensures added { IsAddedOrFault (item_fault flow.now item) result }
        ensures ok { OnOk result (self.new ≡ self.old ++ item ∷ []) }
        ensures err { OnErr result (self.new ≡ self.old) }
        ensures of_flow { AllByRecursion (IsItemOf flow.now) self.old → AllByRecursion (IsItemOf flow.now) self.new }
    {
        if let Some(fault) = fault_of(flow, &item) {
            return Err(fault);
        }
        self.push(item)?;
        Ok(())
    }
}

// Why the item is none of the flow's, if it is none.
fn fault_of(flow: &Flow, item: &Item) -> Option<ItemFault>
    ensures { result ≡ item_fault flow.now item.now }
{
    match item {
        Item::One(step) => step_fault(flow, step),
        Item::Auto(most) if *most > STEP_LIMIT => Some(ItemFault::TooManySteps),
        Item::Auto(_) => None,
    }
}

// Why the step is none of the flow's, if it is none.
fn step_fault(flow: &Flow, step: &Step) -> Option<ItemFault>
    ensures { result ≡ spec.step_fault flow.now step.now }
{
    match step {
        Step::Inject(source) => input_fault(flow, *source),
        Step::Deliver(edge, at) => delivery_fault(flow, *edge, at),
        Step::Notify(node, at) => notification_fault(flow, *node, at),
        Step::Checkpoint(node) => node_fault(flow, *node),
        Step::Fail(nodes) => failure_fault(flow, nodes.as_slice()),
        Step::Ack(output) => output_fault(flow, *output),
        Step::Progress | Step::Persist | Step::Recover | Step::Collect => None,
    }
}

fn input_fault(flow: &Flow, source: NodeId) -> Option<ItemFault>
    ensures { result ≡ spec.input_fault flow.now source }
{
    match node_fault(flow, source) {
        None if !flow.kind(source).is_input() => Some(ItemFault::NoInput(source)),
        fault => fault,
    }
}

fn output_fault(flow: &Flow, output: NodeId) -> Option<ItemFault>
    ensures { result ≡ spec.output_fault flow.now output }
{
    match node_fault(flow, output) {
        None if !flow.kind(output).is_output() => Some(ItemFault::NoOutput(output)),
        fault => fault,
    }
}

fn delivery_fault(flow: &Flow, edge: EdgeId, at: &Option<Stamp>) -> Option<ItemFault>
    ensures { result ≡ spec.delivery_fault flow.now edge at.now }
{
    if edge.place() as usize >= flow.edges() {
        return Some(ItemFault::NoEdge(edge));
    }
    time_fault(&flow.domain(flow.dst(edge)), at)
}

fn notification_fault(flow: &Flow, node: NodeId, at: &Option<Stamp>) -> Option<ItemFault>
    ensures { result ≡ spec.notification_fault flow.now node at.now }
{
    match node_fault(flow, node) {
        None => time_fault(&flow.domain(node), at),
        fault => fault,
    }
}

fn node_fault(flow: &Flow, node: NodeId) -> Option<ItemFault>
    ensures { result ≡ spec.node_fault flow.now node }
{
    if node.place() as usize >= flow.nodes() {
        return Some(ItemFault::NoNode(node));
    }
    None
}

fn time_fault(bounds: &Bounds, at: &Option<Stamp>) -> Option<ItemFault>
    ensures { result ≡ spec.time_fault bounds.now at.now }
{
    match at {
        Some(stamp) if !stamp.in_domain(bounds) => Some(ItemFault::OutsideDomain),
        _ => None,
    }
}

fn failure_fault(flow: &Flow, nodes: &[NodeId]) -> Option<ItemFault>
    ensures { result ≡ spec.failure_fault flow.now nodes.now }
{
    if nodes.is_empty() {
        return Some(ItemFault::NoneFails);
    }
    nodes_fault(flow, nodes)
}

// The first of the nodes that the flow lacks.
fn nodes_fault(flow: &Flow, nodes: &[NodeId]) -> Option<ItemFault>
    ensures { result ≡ spec.nodes_fault flow.now nodes.now }
{
    for node in nodes {
        if let Some(fault) = node_fault(flow, *node) {
            return Some(fault);
        }
    }
    None
}
