//! What was lost of nodes that log their events, got back from the frontiers that a root tells.
ghost use Rattle.std.specs.Prelude.{◌≡◌, ◌<◌, length, IfOk};
ghost use Rattle.fw_flow.specs.Dataflow.{System};
ghost use Rattle.fw_model.specs.Machine.{Machine};
ghost use Rattle.fw_regain.specs.RootOf.{IsRootOf};
ghost use Rattle.fw_resume.specs.Lost.{AreLostTold, KnowAllLosses, lost_told};
ghost use Rattle.fw_root.specs.declared.root.Root.{Root};

use fw_flow::{Flow, NodeId, Notices, Policy};
use fw_root::NodeFronts;
use fw_time::Stamp;
use std::alloc::{AllocError, Global};

/// Of each node that logs its events at which stamps some were lost, as far as what is settled tells it. The error is want of memory.
pub(crate) fn lost_of(
    alloc: Global,
    flow: &Flow,
    fronts: &[NodeFronts],
) -> Result<Vec<Notices>, AllocError>
    requires { length fronts.now ≡ length flow.now.nodes }
    ensures told { IfOk result (λ lost. AreLostTold flow.now fronts.now (length flow.now.nodes) lost.items) }

    // They tell all that is asked of it where every node is failed, if the frontiers are those of a root of the state.
    ensures held { (sys : System) (state : Machine) (root : Root) → sys.flow ≡ flow.now → root.fronts ≡ fronts.now → IsRootOf sys state root
        → IfOk result (λ lost. KnowAllLosses sys state lost.items) }
{
    lost_each(alloc, flow, fronts)
}

/// The same, frontier by frontier. The error is want of memory.
fn lost_each(alloc: Global, flow: &Flow, fronts: &[NodeFronts]) -> Result<Vec<Notices>, AllocError>
    requires { length fronts.now ≡ length flow.now.nodes }
    ensures { IfOk result (λ lost. AreLostTold flow.now fronts.now (length flow.now.nodes) lost.items) }
{
    let mut lost = Vec::with_capacity(alloc, fronts.len())?;
    for place in 0..flow.nodes() {
        let node = NodeId::at(place as u32);
        let stamps = lost_at(alloc, flow.policy(node), &fronts[place])?;
        lost.push(Notices::of(stamps))?;
    }
    Ok(lost)
}

/// The same of one node: where it logs its events the least outside stamps of the third frontier that are settled. The error is want of
/// memory.
fn lost_at(alloc: Global, policy: Policy, fronts: &NodeFronts) -> Result<Vec<Stamp>, AllocError>
    ensures { IfOk result (λ stamps. stamps.items ≡ lost_told policy fronts.now) }
{
    let mut stamps = Vec::new(alloc);
    let Policy::Full = policy else {
        return Ok(stamps);
    };
    for stamp in fronts.third.outside() {
        if fronts.settled.contains(stamp) {
            stamps.push(stamp.copy())?;
        }
    }
    Ok(stamps)
}
