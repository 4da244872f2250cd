//! The nodes are run one after the other, until nothing changes.
ghost use Rattle.std.specs.Prelude.{◌≡◌, ◌+◌, ◌<◌, ℕ, length, false, IfOk, OnOk, IsTrue, slice_set};
ghost use Rattle.fw_flow.specs.Dataflow.{system_of};
ghost use Rattle.fw_flow.specs.WellFormed.{IsWellFormedSystem};
ghost use Rattle.fw_flow.specs.WholeBags as whole;
ghost use Rattle.fw_model.specs.Denotation.{Family, IsDenotation};
ghost use Rattle.fw_model.specs.Measure.{Measure};
ghost use Rattle.fw_denote.specs.Holding.{AreBagsHeld, IsSolved, AreRight, family_held};

use crate::outputs::outputs;
use crate::{Timed, TimedBag};
use fw_flow::{Flow, NodeId};
use fw_lines::Batches;
use std::alloc::{AllocError, Global};

/// Whether both are the same, timed rec by timed rec.
#[tactic(auto, using(crate::proofs::PassLaws::same_from_cmp))]
fn is_same(rs: &[Timed], others: &[Timed]) -> bool
    ensures { IsTrue result → rs.now ≡ others.now }
{
    rs.cmp(others).is_eq()
}

/// Finds anew what a node sends, and says whether it changed.
fn run(
    alloc: Global,
    flow: &Flow,
    batches: &Batches,
    bags: &mut Vec<TimedBag>,
    node: NodeId,
) -> Result<bool, AllocError>
    requires there { node < length flow.now.nodes }
    requires system { IsWellFormedSystem (system_of flow.now batches.now) }
    requires held { AreBagsHeld flow.now bags.old.items }
    ensures set { OnOk result (bags.new.items ≡ slice_set bags.old.items node
        (whole.outputs_of (system_of flow.now batches.now) (family_held flow.now bags.old.items) node)) }
    ensures same { IfOk result (λ changed. changed ≡ false → bags.new.items ≡ bags.old.items) }
{
    let bag = outputs(alloc, flow, batches, bags, node)?;
    let place = node.place() as usize;
    let same = is_same(bag.as_slice(), bags[place].as_slice());
    bags[place] = bag;
    Ok(!same)
}

/// Runs each node once, and says whether anything changed.
pub(crate) fn pass(
    alloc: Global,
    flow: &Flow,
    batches: &Batches,
    bags: &mut Vec<TimedBag>,
) -> Result<bool, AllocError>
    requires system { IsWellFormedSystem (system_of flow.now batches.now) }
    requires held { AreBagsHeld flow.now bags.old.items }
    ensures held { OnOk result (AreBagsHeld flow.now bags.new.items) }
    ensures solved { IfOk result (λ changed. changed ≡ false → IsSolved (system_of flow.now batches.now) bags.new.items) }
    ensures closer { (by : Measure flow.now) (family : Family) (m : ℕ) → IsDenotation (system_of flow.now batches.now) family
        → AreRight flow.now by family 0 m bags.old.items → OnOk result (AreRight flow.now by family 0 (m + 1) bags.new.items) }
{
    let mut changed = false;
    for place in 0..flow.nodes() {
        let anew = run(alloc, flow, batches, bags, NodeId::at(place as u32))?;
        changed = changed | anew;
    }
    Ok(changed)
}
