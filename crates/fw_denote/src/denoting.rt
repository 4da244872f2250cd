//! The denotation.
ghost use Rattle.std.specs.Prelude.{IfOk, OnOk};
ghost use Rattle.fw_flow.specs.Dataflow.{system_of};
ghost use Rattle.fw_flow.specs.WellFormed.{IsWellFormedSystem};
ghost use Rattle.fw_model.specs.Denotation.{IsDenotation};
ghost use Rattle.fw_denote.specs.Holding.{AreBagsHeld, family_held, family_on};

use crate::passes::pass;
use crate::rounds::first_bags;
use crate::{Family, TimedBag};
use fw_flow::Flow;
use fw_lines::Batches;
use std::alloc::{AllocError, Global};

/// Runs the nodes until nothing changes.
fn settle(
    alloc: Global,
    flow: &Flow,
    batches: &Batches,
    bags: &mut Vec<TimedBag>,
) -> Result<(), AllocError>
    requires system { IsWellFormedSystem (system_of flow.now batches.now) }
    requires held { AreBagsHeld flow.now bags.old.items }
    ensures held { OnOk result (AreBagsHeld flow.now bags.new.items) }
    ensures denoted { OnOk result (IsDenotation (system_of flow.now batches.now) (family_held flow.now bags.new.items)) }
{
    for _round in 0..u64::MAX {
        if !pass(alloc, flow, batches, bags)? {
            return Ok(());
        }
    }
    Ok(())
}

/// The denotation of a flow with these batches: the one family of bags that solves the equations of its nodes. The error is
/// want of memory.
pub fn denote(alloc: Global, flow: &Flow, batches: &Batches) -> Result<Family, AllocError>
    requires { IsWellFormedSystem (system_of flow.now batches.now) }
    ensures { IfOk result (λ family. IsDenotation (system_of flow.now batches.now) (family_on family)) }
{
    let mut bags = first_bags(alloc, flow, batches)?;
    settle(alloc, flow, batches, &mut bags)?;
    Family::of(alloc, flow, bags)
}
