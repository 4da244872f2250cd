//! Which events of a node are not logged.
ghost use Rattle.std.specs.Prelude.{◌≡◌, ◌++◌, true, IfOk, OnOk};
ghost use Rattle.std.specs.List.{AllByRecursion};
ghost use Rattle.fw_time.specs.Stamp.{in_domain};
ghost use Rattle.fw_time.specs.declared.stamp.Bounds.{Bounds as Domain};
ghost use Rattle.fw_frontier.specs.Front.{frontier_of, IsCanonical, IsFrontOf};
ghost use Rattle.fw_policy.specs.Offering as spec;

use fw_flow::NodeId;
use fw_frontier::Front;
use fw_keep::{Entry, Written};
use fw_time::Stamp;
use std::alloc::{AllocError, Global};

/// At which stamps events of the node are not logged. The error is want of memory.
pub fn unlogged(
    alloc: Global,
    entries: &[Entry],
    node: NodeId,
    lost: &[Stamp],
) -> Result<Vec<Stamp>, AllocError>
    ensures { IfOk result (λ ss. ss.items ≡ spec.unlogged_stamps node entries.now lost.now) }
{
    let mut stamps = Vec::new(alloc);
    for entry in entries {
        add_unlogged(&mut stamps, entry, node)?;
    }
    for t in lost {
        stamps.push(t.copy())?;
    }
    Ok(stamps)
}

/// Adds the stamp of the entry, if it is one of the node in flight.
fn add_unlogged(stamps: &mut Vec<Stamp>, entry: &Entry, node: NodeId) -> Result<(), AllocError>
    ensures { OnOk result (stamps.new.items ≡ stamps.old.items ++ spec.unlogged_by node entry.now) }
{
    if entry.node == node && !entry.acknowledged {
        if let Written::Event(event) = &entry.written {
            stamps.push(event.at().copy())?;
        }
    }
    Ok(())
}

/// What is inside, and at none of the stamps or above. The error is want of memory.
pub fn cut_below(front: &Front, stamps: &[Stamp]) -> Result<Front, AllocError>
    ensures { (bounds : Domain) → IsCanonical bounds front.now → AllByRecursion (λ s. in_domain bounds s ≡ true) stamps.now
        → IfOk result (λ f. IsFrontOf bounds f (spec.below_all stamps.now (frontier_of bounds front.now))) }
{
    let mut left = front.copy()?;
    for t in stamps {
        left = left.cut_above(t)?;
    }
    Ok(left)
}
