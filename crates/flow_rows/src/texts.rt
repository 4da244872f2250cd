//! Flows, batches and schedules as texts.
use fw_flow::Flow;
use fw_flow_text::{BatchesText, FlowText};
use fw_lines::{Batches, ReadFault, read_batches};
use fw_schedule::{Schedule, ScheduleText, read_schedule};
use row_words::{Row, is_declaration, part};
use std::alloc::{AllocError, Global};
use std::fmt::Write;

/// A text of a row beside its flow.
#[derive(Clone, Copy, PartialEq, Eq)]
enum Text {
    Inputs,
    Schedule,
}

/// Tells the flow as a text, the batches of the lines `batch`, and the schedule of the lines that are neither; where they are
/// none, the rule that they break.
pub fn tell(alloc: Global, flow: &Flow, row: Row<'_>, told: &mut String) -> Result<(), AllocError> {
    write!(told, "{}", FlowText::of(flow))?;
    let inputs = lines_of(alloc, Text::Inputs, row.lines)?;
    tell_batches(flow, batches(alloc, flow, &inputs), told)?;
    let schedule = lines_of(alloc, Text::Schedule, row.lines)?;
    tell_schedule(flow, read_schedule(alloc, schedule.as_bytes(), flow), told)
}

/// The lines of a row that are of a text.
fn lines_of(alloc: Global, text: Text, lines: &str) -> Result<String, AllocError> {
    let mut own = String::new(alloc);
    for line in lines.lines() {
        if text_of(line) == Some(text) {
            own.push_str(line)?;
            own.push('\n')?;
        }
    }
    Ok(own)
}

/// The text of which a line is; none of a declaration.
fn text_of(line: &str) -> Option<Text> {
    if is_declaration(line) {
        None
    } else if part(line).0 == "batch" {
        Some(Text::Inputs)
    } else {
        Some(Text::Schedule)
    }
}

/// The batches of a text of inputs.
fn batches(alloc: Global, flow: &Flow, text: &str) -> Result<Batches, ReadFault> {
    let sources = flow.source_names(alloc)?;
    read_batches(alloc, text.as_bytes(), &sources)
}

/// Tells batches as a text, or the rule that their own text breaks.
fn tell_batches(
    flow: &Flow,
    batches: Result<Batches, ReadFault>,
    told: &mut String,
) -> Result<(), AllocError> {
    match batches {
        Ok(batches) => write!(told, "{}", BatchesText::of(flow, &batches)),
        Err(fault) => tell_fault(fault, told),
    }
}

/// Tells a schedule as a text, or the rule that its own text breaks.
fn tell_schedule(
    flow: &Flow,
    schedule: Result<Schedule, ReadFault>,
    told: &mut String,
) -> Result<(), AllocError> {
    match schedule {
        Ok(schedule) => write!(told, "{}", ScheduleText::of(flow, &schedule)),
        Err(fault) => tell_fault(fault, told),
    }
}

/// Tells the rule that a text breaks.
fn tell_fault(fault: ReadFault, told: &mut String) -> Result<(), AllocError> {
    match fault {
        ReadFault::Refused(refusal) => writeln!(told, "{refusal}"),
        ReadFault::NoMemory => Err(AllocError),
    }
}
