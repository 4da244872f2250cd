//! The lines that are printed.
ghost use Rattle.std.specs.Prelude.{◌≡◌, ◌++◌, [], IfOk, IsTrue, string_bytes};
ghost use Rattle.fw_flow.specs.Dataflow.{Dataflow};
ghost use Rattle.fw_running.specs.EffectText.{outcome_text};
ghost use Rattle.fw_running.specs.Steps.{outcome_of};
ghost use Rattle.fw_run.specs.Printed as spec;
ghost use Rattle.fw_run.specs.Reports as reports;
ghost use Rattle.fw_run.specs.Performing.{shown_bytes};
ghost use Rattle.fw_run.specs.Status.{note_line};
ghost use Rattle.fw_run.specs.Tallies as tallies;
ghost use Rattle.fw_command.specs.Manner.{last_in, seeded_in};
ghost use Rattle.fw_run.specs.declared.status.Status.TheVariants as Status;

use crate::tally::StepCounts;
use fw_command::{GenerateWords, LastLine};
use fw_engine::{Effect, Stepped};
use fw_flow::Flow;
use fw_lines::Refusal;
use std::alloc::{AllocError, Global};

/// The lines of what came of a step of the flow, and these behind them, as bytes; none stands for no line.
pub fn lines_of(
    alloc: Global,
    flow: &Flow,
    stepped: &Stepped,
    behind: &str,
) -> Result<Option<Vec<u8>>, AllocError>
    ensures { IfOk result (λ line. shown_bytes line ≡ outcome_text flow.now (outcome_of stepped.now) ++ behind.now) }
{
    let shown = stepped.display(flow);
    let lines = format!(in alloc; "{shown}{behind}")?;
    if lines.is_empty() {
        return Ok(None);
    }
    Ok(Some(lines.into_bytes()))
}

/// Whether nothing is shown of the step: most show nothing.
pub(crate) fn is_silent(stepped: &Stepped) -> bool
    ensures { (flow : Dataflow) → IsTrue result → outcome_text flow (outcome_of stepped.now) ≡ [] }
{
    matches!(stepped, Stepped::Idle | Stepped::Did(Effect::Quiet))
}

/// The last line of a run whose steps were counted so.
pub(crate) fn last_line(
    alloc: Global,
    last: LastLine,
    tally: StepCounts,
) -> Result<String, AllocError>
    ensures { IfOk result (λ text. string_bytes text ≡ tallies.last_line (last_in last) tally) }
{
    match last {
        LastLine::Steps => done_line(alloc, tally.steps, tally.idle),
        LastLine::Faults => endured_line(alloc, tally),
        LastLine::Seed(words) => summary_line(alloc, words, tally),
    }
}

/// The line `done steps STEPS idle IDLE`, ended by LF.
pub fn done_line(alloc: Global, steps: u64, idle: u64) -> Result<String, AllocError>
    ensures { IfOk result (λ text. string_bytes text ≡ spec.done_line steps idle) }
{
    format!(in alloc; "done steps {steps} idle {idle}\n")
}

/// The line `fault step NUMBER`, ended by LF.
pub fn fault_line(alloc: Global, number: u64) -> Result<String, AllocError>
    ensures { IfOk result (λ text. string_bytes text ≡ reports.fault_line number) }
{
    format!(in alloc; "fault step {number}\n")
}

/// The line `done steps STEPS idle IDLE faults FAULTS`, ended by LF.
pub fn endured_line(alloc: Global, tally: StepCounts) -> Result<String, AllocError>
    ensures { IfOk result (λ text. string_bytes text ≡ tallies.endured_line tally) }
{
    let StepCounts {
        steps,
        idle,
        faults,
        ..
    } = tally;
    format!(in alloc; "done steps {steps} idle {idle} faults {faults}\n")
}

/// The line `gen seed SEED size SIZE steps STEPS idle IDLE cuts CUTS acks ACKS sum SUM`, ended by LF.
pub(crate) fn summary_line(
    alloc: Global,
    words: GenerateWords,
    tally: StepCounts,
) -> Result<String, AllocError>
    ensures { IfOk result (λ text. string_bytes text ≡ tallies.summary_line (seeded_in words) tally) }
{
    let GenerateWords { seed, size } = words;
    format!(in alloc; "gen seed {seed} size {size} {tally}\n")
}

/// The line `refused CODE line LINE`, ended by LF.
pub fn refused_line(alloc: Global, refusal: Refusal) -> Result<String, AllocError>
    ensures { IfOk result (λ text. string_bytes text ≡ note_line (Status.Refused refusal)) }
{
    format!(in alloc; "{refusal}\n")
}

/// The line `damaged record ID`, ended by LF.
pub fn damaged_line(alloc: Global, id: u64) -> Result<String, AllocError>
    ensures { IfOk result (λ text. string_bytes text ≡ note_line (Status.Damaged id)) }
{
    format!(in alloc; "damaged record {id}\n")
}

/// The line `damaged root ID`, ended by LF.
pub fn damaged_root_line(alloc: Global, id: u64) -> Result<String, AllocError>
    ensures { IfOk result (λ text. string_bytes text ≡ note_line (Status.DamagedRoot id)) }
{
    format!(in alloc; "damaged root {id}\n")
}
