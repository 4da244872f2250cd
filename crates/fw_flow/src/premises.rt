//! What an engine asks of its flow and batches, as a test.
ghost use Rattle.std.specs.Prelude.{◌≡◌, ◌↔◌, IsTrue};
ghost use Rattle.fw_lines.specs.Batches.{batches_at};
ghost use Rattle.fw_flow.specs.Dataflow.{kind_of, system_of};
ghost use Rattle.fw_flow.specs.WellFormed.{IsWellFormedSystem};
ghost use Rattle.fw_flow.specs.Premises as spec;

use crate::{Flow, Kind, NodeId};
use fw_lines::Batches;

/// How many batches a source may have.
pub(crate) const BATCH_LIMIT: usize = 1 << 20;

impl Flow {
    /// Whether the flow and the batches are a well-formed system: its sources have at most 2^20 batches each, and its other
    /// nodes have none. What batches say of places past the last node does not count.
    pub fn accepts(&self, batches: &Batches) -> bool
        ensures { IsTrue result ↔ IsWellFormedSystem (system_of self.now batches.now) }
    {
        batches.are_bags();
        for place in 0..self.nodes() as u32 {
            if !may_have(self.kind(NodeId::at(place)), batches.count(place)) {
                return false;
            }
        }
        true
    }
}

// Whether a node of the kind may have so many batches.
fn may_have(kind: Kind, count: usize) -> bool
    ensures { result ≡ spec.may_have kind count }
{
    count == 0 || kind.is_input() && count <= BATCH_LIMIT
}
