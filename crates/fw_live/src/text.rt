//! The lines of answers.
ghost use Rattle.std.specs.Prelude.{◌≡◌, ◌++◌, IfOk, OnOk, string_bytes};
ghost use Rattle.fw_flow.specs.Dataflow.{node_at};
ghost use Rattle.fw_running.specs.EffectText.{outcome_text};
ghost use Rattle.fw_running.specs.Steps.{outcome_of};
ghost use Rattle.fw_live.specs.Answers as spec;
ghost use Rattle.fw_live.specs.Taken.{all, failed, spoiled};
ghost use Rattle.fw_live.specs.Life as life;

use crate::counts::LineCounts;
use crate::rule::LineRule;
use fw_engine::Stepped;
use fw_flow::{Flow, NodeId};
use std::alloc::{AllocError, Global};

/// Writes the lines of what came of a step. The error is want of memory.
pub fn write_outcome(
    alloc: Global,
    flow: &Flow,
    stepped: &Stepped,
    into: &mut Vec<u8>,
) -> Result<(), AllocError>
    ensures { OnOk result (into.new.items ≡ into.old.items ++ outcome_text flow.now (outcome_of stepped.now)) }
{
    let shown = stepped.display(flow);
    let lines = format!(in alloc; "{shown}")?;
    push(into, lines.as_bytes())
}

/// Writes `fed SOURCE EPOCH`.
pub(crate) fn write_fed(
    alloc: Global,
    flow: &Flow,
    source: NodeId,
    epoch: u64,
    into: &mut Vec<u8>,
) -> Result<(), AllocError>
    ensures { OnOk result (into.new.items ≡ into.old.items ++ spec.fed_line flow.now source epoch) }
{
    let name = name_of(flow, source);
    let line = format!(in alloc; "fed {name} {epoch}\n")?;
    push(into, line.as_bytes())
}

/// Writes `closed SOURCE EPOCH`.
pub(crate) fn write_closed(
    alloc: Global,
    flow: &Flow,
    source: NodeId,
    epoch: u64,
    into: &mut Vec<u8>,
) -> Result<(), AllocError>
    ensures { OnOk result (into.new.items ≡ into.old.items ++ spec.closed_line flow.now source epoch) }
{
    let name = name_of(flow, source);
    let line = format!(in alloc; "closed {name} {epoch}\n")?;
    push(into, line.as_bytes())
}

/// Writes `refused CODE line NUMBER`.
pub(crate) fn write_refused(
    alloc: Global,
    rule: LineRule,
    number: u64,
    into: &mut Vec<u8>,
) -> Result<(), AllocError>
    ensures { OnOk result (into.new.items ≡ into.old.items ++ spec.refused_line rule number) }
{
    let line = format!(in alloc; "refused {rule} line {number}\n")?;
    push(into, line.as_bytes())
}

/// Writes `done STEPS`.
pub(crate) fn write_done(alloc: Global, steps: u64, into: &mut Vec<u8>) -> Result<(), AllocError>
    ensures { OnOk result (into.new.items ≡ into.old.items ++ spec.ending_text all steps) }
{
    let line = format!(in alloc; "done {steps}\n")?;
    push(into, line.as_bytes())
}

/// Writes `fault`.
pub(crate) fn write_fault(into: &mut Vec<u8>) -> Result<(), AllocError>
    ensures { OnOk result (into.new.items ≡ into.old.items ++ spec.ending_text failed 0) }
{
    push(into, b"fault\n")
}

/// Writes `damaged ID`.
pub(crate) fn write_damaged(alloc: Global, id: u64, into: &mut Vec<u8>) -> Result<(), AllocError>
    ensures { OnOk result (into.new.items ≡ into.old.items ++ spec.ending_text (spoiled id) 0) }
{
    let line = format!(in alloc; "damaged {id}\n")?;
    push(into, line.as_bytes())
}

/// The last line, of all that was counted.
pub(crate) fn last_line(alloc: Global, counts: LineCounts) -> Result<String, AllocError>
    ensures { IfOk result (λ line. string_bytes line ≡ life.counts_line counts) }
{
    let LineCounts {
        steps,
        idle,
        faults,
        ..
    } = counts;
    if faults == 0 {
        format!(in alloc; "done steps {steps} idle {idle}\n")
    } else {
        format!(in alloc; "done steps {steps} idle {idle} faults {faults}\n")
    }
}

// Puts bytes behind the others.
pub(crate) fn push(into: &mut Vec<u8>, bytes: &[u8]) -> Result<(), AllocError>
    ensures { OnOk result (into.new.items ≡ into.old.items ++ bytes.now) }
{
    into.extend_from_slice(bytes)?;
    Ok(())
}

// The name of a node; past the last node it is empty.
pub(crate) fn name_of(flow: &Flow, node: NodeId) -> &str
    ensures { result.now ≡ (node_at flow.now node).name }
{
    if (node.place() as usize) < flow.nodes() {
        flow.node_name(node).as_str()
    } else {
        ""
    }
}
