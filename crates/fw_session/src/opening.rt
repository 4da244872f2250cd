//! The batches with which a session opens.
ghost use Rattle.std.specs.Prelude.{◌≡◌, IfOk, OnOk};
ghost use Rattle.fw_flow.specs.Dataflow.{batches_of_nodes};
ghost use Rattle.fw_session.specs.Opening.{AddsFirst};
ghost use Rattle.fw_session.specs.Story as spec;

use fw_flow::{Flow, NodeId};
use fw_lines::Batches;
use std::alloc::{AllocError, Global};

/// One batch of each input, which is empty. The error is want of memory.
pub(crate) fn opening_batches(alloc: Global, flow: &Flow) -> Result<Batches, AllocError>
    ensures { IfOk result (λ batches. batches_of_nodes flow.now batches ≡ spec.opening_batches flow.now) }
{
    let mut batches = Batches::new(alloc);
    for place in 0..flow.nodes() as u32 {
        add_first(&mut batches, flow, place)?;
    }
    Ok(batches)
}

// The node at the place is given the batch with which it opens, if it is an input. The error is want of memory.
fn add_first(batches: &mut Batches, flow: &Flow, place: u32) -> Result<(), AllocError>
    ensures { OnOk result (AddsFirst flow.now place batches.old batches.new) }
{
    if flow.kind(NodeId::at(place)).is_input() {
        batches.add(place, &[])?;
    }
    Ok(())
}
