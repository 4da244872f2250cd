//! Widening until no node can be widened.
ghost use Rattle.std.specs.Prelude.{◌≡◌, length, IfOk};
ghost use Rattle.fw_model.specs.Machine.{AreCanonical};
ghost use Rattle.fw_progress.specs.Counts.{AreCounts, AreNodes};
ghost use Rattle.fw_progress.specs.Refresh.{IsRefreshed};

use crate::counts::Counts;
use crate::grow::take_up;
use crate::growth::Growths;
use crate::worklist::Worklist;
use fw_flow::laws::flow_is_well_formed;
use fw_flow::{Flow, Steps};
use fw_frontier::Front;
use std::alloc::{AllocError, Global};
use std::sync::ledger::Ledger;

/// Widens the frontiers of the nodes that wait, and of those below a node that grew, until none can be widened. Each node
/// that is taken up is one step. The error is want of memory.
pub(crate) fn refresh<L: Ledger>(
    alloc: Global,
    flow: &Flow,
    counts: &Counts,
    fronts: &mut Vec<Front>,
    work: &mut Worklist,
    steps: &mut Steps<L>,
) -> Result<Growths, AllocError>
    requires counts { AreCounts flow.now counts.now }
    requires one_each { length fronts.old.items ≡ length flow.now.nodes }
    requires canonical { AreCanonical flow.now fronts.old.items }
    requires nodes { AreNodes flow.now work.old }
    ensures { IfOk result (λ growths. IsRefreshed flow.now counts.now fronts.old.items fronts.new.items
        work.old work.new growths.items steps.old steps.new) }
{
    flow_is_well_formed(flow);
    let mut growths = Vec::new(alloc);
    'take: while let Some(node) = work.take() {
        steps.tick();
        take_up(alloc, flow, counts, fronts, work, &mut growths, node)?;
    }
    Ok(growths)
}
