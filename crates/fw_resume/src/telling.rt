//! The root of what an engine keeps.
ghost use Rattle.std.specs.Prelude.{◌≡◌, ◌<◌, ◌^◌, Option, IfOk};
ghost use Rattle.fw_flow.specs.Dataflow.{System, system_of};
ghost use Rattle.fw_model.specs.Machine.{Machine};
ghost use Rattle.fw_keep.specs.Stored.{Records};
ghost use Rattle.fw_regain.specs.RootOf.{IsRootOf};
ghost use Rattle.fw_running.specs.Shaped.{IsShaped};
ghost use Rattle.fw_running.specs.Stands.{Stands};
ghost use Rattle.fw_regain.specs.Down.{down};
ghost use Rattle.fw_resume.specs.Named.{AreNamed};
ghost use Rattle.fw_resume.specs.Resumable.{IsResumable};
ghost use Rattle.fw_resume.specs.RootTold.{IsToldBy};
ghost use Rattle.fw_root.specs.OfFlow.{Given};
ghost use Rattle.fw_root.specs.Sound.{IsMark, IsRootFor};

use crate::borders::{bounds_of, injected_of};
use crate::counts::{owed_of, pending_of};
use crate::fronts::fronts_of;
use crate::names::{names_of, others_of};
use crate::sends::sends_of;
use fw_root::{
    FrontsOfNodes, Mark, NamedWrites, Numbers, OwedStamps, PendingCounts, Role, Root, SentTables,
    nodes_as,
};
use fw_running::Running;
use std::alloc::AllocError;

/// The root of what an engine keeps, with this mark. The error is want of memory, or that a list or a sum is greater than a root can
/// say.
pub fn root_of(running: &Running, mark: Mark) -> Result<Root, AllocError>
    requires shaped { IsShaped running.now }
    ensures mark { IfOk result (λ root. root.mark ≡ mark) }
    ensures told { IfOk result (IsToldBy running.now) }

    // It is one of each state for which the engine stands, and the records of the store hold the writes that it names, also where every
    // node is failed.
    ensures root { (sys : System) (records : Option Records) (state : Machine) → Stands sys running.now records state
        → IfOk result (IsRootOf sys state) }
    ensures named { (sys : System) (records : Option Records) (state : Machine) → Stands sys running.now records state
        → IfOk result (λ root. AreNamed sys (down sys state) root records) }

    // It has a spelling where the numbers of the mark and the next id are below 2^62: it is one of the flow and its batches. An engine can
    // start again from it, and from the records.
    ensures sound { (batches : Given) (records : Option Records) (state : Machine) → Stands (system_of running.now.flow batches) running.now records state
        → IsMark mark → running.now.parts.keep.next < 2 ^ 62 → IfOk result (IsRootFor running.now.flow batches) }
    ensures resumable { (batches : Given) (records : Option Records) (state : Machine)
        → Stands (system_of running.now.flow batches) running.now records state → IsMark mark → running.now.parts.keep.next < 2 ^ 62
        → IfOk result (λ root. IsResumable running.now.flow batches state root records) }
{
    let alloc = running.alloc;
    let flow = &running.flow;
    let keep = &running.parts.keep;
    let inputs = nodes_as(alloc, flow, Role::Input)?;
    let outputs = nodes_as(alloc, flow, Role::Output)?;
    let sequences = nodes_as(alloc, flow, Role::ByCount)?;
    Ok(Root {
        mark,
        next_id: keep.next_id(),
        injected: Numbers::of(injected_of(alloc, &running.parts.sources, &inputs)?),
        bounds: Numbers::of(bounds_of(alloc, &running.parts.outputs, &outputs)?),
        fronts: FrontsOfNodes::of(fronts_of(running)?),
        writes: NamedWrites::of(names_of(alloc, keep.entries())?),
        others: Numbers::of(others_of(alloc, keep)?),
        pending: PendingCounts::of(pending_of(alloc, flow, &running.progress)?),
        owed: OwedStamps::of(owed_of(alloc, flow, &running.progress)?),
        sends: SentTables::of(sends_of(alloc, running.progress.counts(), &sequences)?),
    })
}
