//! What an engine shows between steps.
ghost use Rattle.std.specs.Prelude.{◌≡◌, ◌≤◌, ◌<◌, ◌&&◌, Option, true, false, length, nat_lt, is_some, IfSome, slice_get};
ghost use Rattle.std.specs.Option.{option_copied};
ghost use Rattle.fw_flow.specs.Projection.{first_coordinate};
ghost use Rattle.fw_flow.specs.Dataflow.{kind_of, is_input_kind, is_output_kind};
ghost use Rattle.fw_model.specs.Machine as machine;
ghost use Rattle.fw_model.specs.Machine.{ack_count_of, events};
ghost use Rattle.fw_model.specs.History.{injected_count};
ghost use Rattle.fw_keep.specs.Catalogue.{AreAscending, ids_of};
ghost use Rattle.fw_keep.specs.Stored.{Records};
ghost use Rattle.fw_stands.specs.Parts.{queued, logged, kept_recs, IsTableIn};
ghost use Rattle.fw_stands.specs.Written.{AreEntriesOf, uncollected};
ghost use Rattle.fw_engine.specs.Engine.{flow_of, keep_of, was_refused, ForEachState};

use crate::Engine;
use fw_bag::Bag;
use fw_edge::{MsgLog, Queue};
use fw_flow::{EdgeId, NodeId};
use fw_frontier::Front;
use fw_keep::Entry;
use fw_node::Node;
use fw_time::Stamp;

impl Engine {
    /// Whether memory was refused to a step; if so, every later one answers want of memory.
    pub fn is_refused(&self) -> bool
        ensures { result ≡ was_refused self.now }
    {
        self.refused
    }

    /// What is settled at a node; none past the last node.
    pub fn settled(&self, node: NodeId) -> Option<&Front>
        ensures front { (records : Option Records)
            → ForEachState self.now records (λ sys state. option_copied result ≡ slice_get state.settled node) }
        ensures declared { was_refused self.now ≡ false → is_some result ≡ nat_lt node (length (flow_of self.now).nodes) }
    {
        front_at(self.running.progress.settled(), node)
    }

    /// Whether a node is failed. Past the last node none is.
    pub fn is_failed(&self, node: NodeId) -> bool
        ensures failed { (records : Option Records) → ForEachState self.now records (λ sys state. result ≡ machine.is_failed state node) }
        ensures past { was_refused self.now ≡ false → length (flow_of self.now).nodes ≤ node → result ≡ false }
    {
        self.running.is_failed(node)
    }

    /// How many stamps an output acknowledged; none where the node is no output, and past the last node.
    pub fn acknowledged(&self, output: NodeId) -> Option<u64>
        ensures count { (records : Option Records)
            → ForEachState self.now records (λ sys state. IfSome result (λ count. count ≡ ack_count_of state output)) }
        ensures declared { is_some result
            ≡ (nat_lt output (length (flow_of self.now).nodes) && is_output_kind (kind_of (flow_of self.now) output)) }
    {
        let flow = &self.running.flow;
        if (output.place() as usize) < flow.nodes() && flow.kind(output).is_output() {
            Some(self.running.parts.outputs.bound(output))
        } else {
            None
        }
    }

    /// How many batches an input injected; none where the node is no input, and past the last node.
    pub fn injected(&self, source: NodeId) -> Option<u64>
        ensures count { (records : Option Records)
            → ForEachState self.now records (λ sys state. IfSome result (λ count. count ≡ injected_count source (events state.history))) }
        ensures declared { is_some result
            ≡ (nat_lt source (length (flow_of self.now).nodes) && is_input_kind (kind_of (flow_of self.now) source)) }
    {
        let flow = &self.running.flow;
        if (source.place() as usize) < flow.nodes() && flow.kind(source).is_input() {
            Some(self.running.parts.sources.injected(source))
        } else {
            None
        }
    }

    /// The recs that an output took at an epoch or a number and did not acknowledge yet; none while it is failed.
    pub fn kept(&self, output: NodeId, at: &Stamp) -> &Bag
        ensures { (records : Option Records) → ForEachState self.now records (λ sys state.
            output < length sys.flow.nodes → is_output_kind (kind_of sys.flow output) ≡ true
            → result.now.recs ≡ kept_recs sys state output (first_coordinate at.now)) }
    {
        self.running.parts.outputs.at(output, at)
    }

    /// The table of a node: what stands for its events. None of an input, an output and a failed node, and past the last node.
    pub fn table(&self, node: NodeId) -> Option<&Node>
        ensures { (records : Option Records) → ForEachState self.now records (λ sys state.
            node < length sys.flow.nodes → IsTableIn sys state node (option_copied result)) }
    {
        self.running.parts.tables.get(node)
    }

    /// The low watermark of a node, below which no recovery cuts it; none past the last node.
    pub fn low_watermark(&self, node: NodeId) -> Option<&Front>
        ensures front { (records : Option Records)
            → ForEachState self.now records (λ sys state. option_copied result ≡ slice_get state.low node) }
        ensures declared { was_refused self.now ≡ false → is_some result ≡ nat_lt node (length (flow_of self.now).nodes) }
    {
        front_at(self.running.parts.low.as_slice(), node)
    }

    /// What is pending on an edge; an empty queue while its receiver is failed; none past the last edge.
    pub fn pending(&self, edge: EdgeId) -> Option<&Queue>
        ensures messages { (records : Option Records)
            → ForEachState self.now records (λ sys state. IfSome (option_copied result) (λ queue. queue.messages ≡ queued sys state edge)) }
        ensures declared { was_refused self.now ≡ false → is_some result ≡ nat_lt edge (length (flow_of self.now).edges) }
    {
        if (edge.place() as usize) < self.running.flow.edges() {
            self.running.parts.queues.get(edge)
        } else {
            None
        }
    }

    /// What was sent on an edge and may have to be sent again: outside the receiver's low watermark, where the sender logs what it
    /// sends and is not failed. None past the last edge.
    pub fn logged(&self, edge: EdgeId) -> Option<&MsgLog>
        ensures messages { (records : Option Records)
            → ForEachState self.now records (λ sys state. IfSome (option_copied result) (λ log. log.messages ≡ logged sys state edge)) }
        ensures declared { was_refused self.now ≡ false → is_some result ≡ nat_lt edge (length (flow_of self.now).edges) }
    {
        if (edge.place() as usize) < self.running.flow.edges() {
            self.running.parts.logs.get(edge)
        } else {
            None
        }
    }

    /// The catalogue: the writes of nodes that were not collected, in order of asking. An entry says of which node it is, what is
    /// written, and whether it is acknowledged; where it is not, it is in flight, and `Step::Persist` acknowledges the first of
    /// these.
    pub fn writes(&self) -> &[Entry]
        ensures catalogue { result.now ≡ (keep_of self.now).entries }
        ensures each { (records : Option Records)
            → ForEachState self.now records (λ sys state. AreEntriesOf sys state result.now (uncollected state)) }
        ensures in_order { AreAscending (ids_of result.now) }
    {
        self.running.parts.keep.entries()
    }
}

// The front of a node; none past the last one.
fn front_at(fronts: &[Front], node: NodeId) -> Option<&Front>
    ensures { option_copied result ≡ slice_get fronts.now node }
{
    fronts.get(node.place() as usize)
}
