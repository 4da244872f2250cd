//! The tables of nodes settle: at progress, or where a checkpoint is asked.
ghost use Rattle.std.specs.Prelude.{◌≡◌, ◌<◌, not, length, OnOk};
ghost use Rattle.fw_frontier.specs.Front.{IsCanonical};
ghost use Rattle.fw_flow.specs.Dataflow.{bounds_of};
ghost use Rattle.fw_stands.specs.Parts as parts_of;
ghost use Rattle.fw_running.specs.Kept.{with_tables};
ghost use Rattle.fw_running.specs.Shaped.{IsShaped};
ghost use Rattle.fw_settle.specs.Settling as settling_of;
ghost use Rattle.fw_settle.specs.Settling.{SettlesTable, SettlesTableIf};

use crate::asking::is_asked_for_checkpoints;
use fw_flow::{Flow, Kind, NodeId};
use fw_frontier::Front;
use fw_running::Running;
use std::alloc::AllocError;

/// At progress the table of a node is settled to a front, unless it waits for a checkpoint.
pub(crate) fn settle_at_progress(
    running: &mut Running,
    node: NodeId,
    front: &Front,
) -> Result<(), AllocError>
    requires shaped { IsShaped running.old }
    requires there { node < length running.old.flow.nodes }
    requires front { IsCanonical (bounds_of running.old.flow node) front.now }
    ensures others { running.new ≡ with_tables running.new.parts.tables running.old }
    ensures shaped { IsShaped running.new }
    ensures settled { OnOk result (SettlesTableIf (not (settling_of.settles_when_asked running.old.flow node)) node front.now running.old running.new) }
{
    if settles_when_asked(&running.flow, node) {
        return Ok(());
    }
    settle_table(running, node, front)
}

/// Where its checkpoint was asked, the table of a node that waited for one is settled to the front of it.
pub(crate) fn settle_when_asked(
    running: &mut Running,
    node: NodeId,
    front: &Front,
) -> Result<(), AllocError>
    requires shaped { IsShaped running.old }
    requires there { node < length running.old.flow.nodes }
    requires front { IsCanonical (bounds_of running.old.flow node) front.now }
    ensures others { running.new ≡ with_tables running.new.parts.tables running.old }
    ensures shaped { IsShaped running.new }
    ensures settled { OnOk result (SettlesTableIf (settling_of.settles_when_asked running.old.flow node) node front.now running.old running.new) }
{
    if !settles_when_asked(&running.flow, node) {
        return Ok(());
    }
    settle_table(running, node, front)
}

// Whether the table of a node settles where a checkpoint is asked of it, and not at progress: it keeps totals, and takes
// checkpoints when asked. What came to it since its newest checkpoint then stays apart from what that has.
fn settles_when_asked(flow: &Flow, node: NodeId) -> bool
    ensures { result ≡ settling_of.settles_when_asked flow.now node }
{
    is_asked_for_checkpoints(flow.policy(node)) && sums_up(flow.kind(node))
}

// Whether a node of the kind keeps the total of each key over all that came.
fn sums_up(kind: Kind) -> bool
    ensures { result ≡ parts_of.sums_up kind }
{
    matches!(kind, Kind::Total | Kind::Ledger)
}

// The table of a node, if it has one, is settled to a front.
fn settle_table(running: &mut Running, node: NodeId, front: &Front) -> Result<(), AllocError>
    requires shaped { IsShaped running.old }
    requires there { node < length running.old.flow.nodes }
    requires front { IsCanonical (bounds_of running.old.flow node) front.now }
    ensures others { running.new ≡ with_tables running.new.parts.tables running.old }
    ensures shaped { IsShaped running.new }
    ensures settled { OnOk result (SettlesTable node front.now running.old running.new) }
{
    match running.parts.tables.get_mut(node) {
        Some(table) => table.settle(front),
        None => Ok(()),
    }
}
