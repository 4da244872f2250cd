//! A node is restored from its checkpoints.
ghost use Rattle.std.specs.Prelude.{◌≡◌, ◌≢◌, ◌++◌, ℕ, List, [], length, IfOk, OnOk};
ghost use Rattle.std.specs.List.{AllByRecursion};
ghost use Rattle.std.specs.Option.{option_copied};
ghost use Rattle.fw_frontier.specs.declared.state.State.{State as Kept};
ghost use Rattle.fw_flow.specs.declared.event.Message.{Message as Sent};
ghost use Rattle.fw_flow.specs.Dataflow.{sender};
ghost use Rattle.fw_node.specs.ChainOf.{IsOfChain};
ghost use Rattle.fw_node.specs.NodeOf.{IsNodeOf};
ghost use Rattle.fw_keep.specs.Chains.{changes_in, changes_of, logged_in_all, states_of};
ghost use Rattle.fw_rollback.specs.Edges.{on_edge, nothing_there};
ghost use Rattle.fw_rollback.specs.Asked as asked;
ghost use Rattle.fw_rollback.specs.Asked.{CanServe};
ghost use Rattle.fw_rollback.specs.Restored.{HasLogs, IsFromChain, log_of};

use crate::Logs;
use crate::logging::log_recorded;
use fw_flow::{Flow, Fronts, NodeId};
use fw_frontier::Front;
use fw_node::Node;
use fw_record::{Checkpoint, Record};
use std::alloc::{AllocError, Global};

/// The table of a node that is restored from these records, of which the first has its whole state and each later one what
/// changed since the one before it, and the node's logs with the messages that they hold but for what lies inside the
/// receivers' low watermarks. Where the first is no whole checkpoint, or the last changes (the first itself, where none holds
/// changes) are not of this very frontier, the node begins anew. Whether the others hold what changed since the one before them
/// is not looked at.
pub(crate) fn restored(
    alloc: Global,
    flow: &Flow,
    node: NodeId,
    front: &Front,
    low: &Fronts,
    records: &[Record],
    logs: &mut Logs,
) -> Result<Node, AllocError>
    requires serve { AllByRecursion (CanServe flow.now node) records.now }
    requires each { length logs.old ≡ length flow.now.edges }
    requires empty { HasLogs flow.now node logs.old (λ e. nothing_there) }
    ensures built { IfOk result
        (λ table. IsFromChain flow.now low.now node front.now (asked.first_up_to front.now records.now) (changes_of records.now) table logs.new) }
    ensures others { (e : ℕ) → sender flow.now e ≢ node → on_edge logs.new e ≡ on_edge logs.old e }
    ensures each { length logs.new ≡ length logs.old }
{
    match first_up_to(records, front) {
        Some(checkpoint) => {
            log_recorded(flow, low, checkpoint.log.as_slice(), logs)?;
            let mut table = Node::from_state(alloc, flow, node, &checkpoint.state)?;
            take_each(flow, node, low, records, &mut table, logs)?;
            Ok(table)
        }
        None => Node::new(alloc, flow, node),
    }
}

/// Has a node take in the changes that these records hold, one after the other, and appends their messages to its logs.
fn take_each(
    flow: &Flow,
    node: NodeId,
    low: &Fronts,
    records: &[Record],
    table: &mut Node,
    logs: &mut Logs,
) -> Result<(), AllocError>
    requires serve { AllByRecursion (CanServe flow.now node) records.now }
    requires each { length logs.old ≡ length flow.now.edges }
    ensures chain { (f : List (List ℕ)) (state : Kept) → IsOfChain flow.now node f state [] table.old
        → OnOk result (IsOfChain flow.now node f state (states_of (changes_of records.now)) table.new) }
    ensures node { IsNodeOf flow.now node table.old → IsNodeOf flow.now node table.new }
    ensures logged { (e : ℕ) (ms : List Sent) → on_edge logs.old e ≡ log_of flow.now low.now e ms
        → OnOk result (on_edge logs.new e ≡ log_of flow.now low.now e (ms ++ logged_in_all e (changes_of records.now))) }
    ensures others { (e : ℕ) → sender flow.now e ≢ node → on_edge logs.new e ≡ on_edge logs.old e }
    ensures each { length logs.new ≡ length logs.old }
{
    for what in records {
        take_one(flow, node, low, what, table, logs)?;
    }
    Ok(())
}

/// Has a node take in the changes that the record holds, if it holds changes, and appends their messages to its logs.
fn take_one(
    flow: &Flow,
    node: NodeId,
    low: &Fronts,
    what: &Record,
    table: &mut Node,
    logs: &mut Logs,
) -> Result<(), AllocError>
    requires serve { CanServe flow.now node what.now }
    requires each { length logs.old ≡ length flow.now.edges }
    ensures chain { (f : List (List ℕ)) (state : Kept) (done : List (List (List ℕ) × Kept)) → IsOfChain flow.now node f state done table.old
        → OnOk result (IsOfChain flow.now node f state (done ++ states_of (changes_in what.now)) table.new) }
    ensures node { IsNodeOf flow.now node table.old → IsNodeOf flow.now node table.new }
    ensures logged { (e : ℕ) (ms : List Sent) → on_edge logs.old e ≡ log_of flow.now low.now e ms
        → OnOk result (on_edge logs.new e ≡ log_of flow.now low.now e (ms ++ logged_in_all e (changes_in what.now))) }
    ensures others { (e : ℕ) → sender flow.now e ≢ node → on_edge logs.new e ≡ on_edge logs.old e }
    ensures each { length logs.new ≡ length logs.old }
{
    match what {
        Record::Changes { checkpoint, .. } => {
            log_recorded(flow, low, checkpoint.log.as_slice(), logs)?;
            table.take_changes(&checkpoint.state)
        }
        Record::State(_) | Record::Event { .. } => Ok(()),
    }
}

/// The whole checkpoint of which the first record is, if the last changes that the records hold, or else it itself, are of this
/// very frontier.
fn first_up_to<'a>(records: &'a [Record], front: &Front) -> Option<&'a Checkpoint>
    ensures { option_copied result ≡ asked.first_up_to front.now records.now }
{
    let first = first_checkpoint(records)?;
    last_front(first, records).same(front).then_some(first)
}

/// The front of the last changes that these records hold, or, where they hold none, of the checkpoint.
fn last_front<'a>(checkpoint: &'a Checkpoint, records: &'a [Record]) -> &'a Front
    ensures { result.now ≡ asked.leads_to checkpoint.now records.now }
{
    let mut last = &checkpoint.recorded.front;
    for what in records {
        if let Record::Changes {
            checkpoint: later,
            ..
        } = what
        {
            last = &later.recorded.front;
        }
    }
    last
}

/// The whole checkpoint of which the first record is, if it is of one.
fn first_checkpoint(records: &[Record]) -> Option<&Checkpoint>
    ensures { option_copied result ≡ asked.first_checkpoint records.now }
{
    match records.first()? {
        Record::State(checkpoint) => Some(checkpoint),
        Record::Event { .. } | Record::Changes { .. } => None,
    }
}
