//! The three texts of a held run are fetched and read, each before the next one is fetched.
ghost use Rattle.std.specs.Prelude.{◌≡◌, ◌≤◌, IfOk, IfErr};
ghost use Rattle.sha2.specs.Sha256.{sha256};
ghost use Rattle.fw_outside.specs.Outside.{one_more};
ghost use Rattle.fw_lines.specs.Inputs as inputs;
ghost use Rattle.fw_flow.specs.Dataflow.{system_of};
ghost use Rattle.fw_flow.specs.Sources.{sources_of};
ghost use Rattle.fw_flow.specs.WellFormed.{IsWellFormedSystem};
ghost use Rattle.fw_flow_text.specs.Grammar as flows;
ghost use Rattle.fw_schedule.specs.Grammar as schedules;
ghost use Rattle.fw_schedule.specs.LineNumbers as spec;
ghost use Rattle.fw_schedule.specs.Schedule.{step_count, step_limit};
ghost use Rattle.fw_command.specs.Command.{three_texts};
ghost use Rattle.fw_command.specs.Held.{IsHeldJob};
ghost use Rattle.fw_command.specs.Reading.{IfJobRefused, IsReadyToRun, read_faults_after};
ghost use Rattle.fw_command.specs.Texts.{HasText, IsFlowRefused, Refuses, AsksNoMore};
ghost use Rattle.fw_command.specs.Words.{text_names_in};

use crate::reading::{Job, JobFault, fetch};
use crate::words::RunWords;
use fw_flow::Flow;
use fw_flow::laws::system_is_well_formed;
use fw_flow_text::{FLOW_LIMIT, read_flow};
use fw_lines::{Batches, Code, INPUTS_LIMIT, read_batches};
use fw_outside::Folder;
use fw_root::Digests;
use fw_schedule::{SCHEDULE_LIMIT, Schedule, line_numbers, read_schedule};
use sha2::{Digest, Sha256};
use std::alloc::Global;

/// What the three texts of a held run spell, on which lines the items of its schedule stand, and the digests of the texts.
#[derive(Debug, Drop)]
pub struct HeldJob {
    pub job: Job,
    pub numbers: Vec<u32>,
    pub digests: Digests,
}

/// Reads the three texts, each before the next one is fetched.
pub fn read_held<F: Folder>(
    alloc: Global,
    words: &RunWords,
    folder: &mut F,
) -> Result<HeldJob, JobFault>
    ensures job { IfOk result (IsHeldJob (F.texts folder.old) (text_names_in words.now)) }
    ensures ready { IfOk result (λ held. IsReadyToRun (system_of held.job.flow held.job.batches) held.job.items) }
    ensures refused { IfErr result (IfJobRefused (Refuses (F.texts folder.old) (three_texts (text_names_in words.now)))) }
    ensures faults { F.fault_count folder.new ≡ read_faults_after result (F.fault_count folder.old) }
    ensures asked_no_more { AsksNoMore (F.texts folder.old) (three_texts (text_names_in words.now)) (F.fetch_count folder.old) (F.fetch_count folder.new) }
    ensures texts_stay { F.texts folder.new ≡ F.texts folder.old }
{
    let (flow, flow_digest) = flow_with_digest(alloc, folder, words.flow)?;
    let (batches, inputs_digest) = inputs_with_digest(alloc, folder, words.inputs, &flow)?;
    let (items, numbers, schedule_digest) = schedule_with_digest(
        alloc,
        folder,
        words.schedule,
        &flow,
    )?;
    let job = Job {
        flow,
        batches,
        items,
    };
    let digests = Digests {
        flow: flow_digest,
        inputs: inputs_digest,
        schedule: schedule_digest,
    };
    Ok(HeldJob {
        job,
        numbers,
        digests,
    })
}

/// The flow of the text under a name, and the text's digest.
pub fn flow_with_digest<F: Folder>(
    alloc: Global,
    folder: &mut F,
    name: &str,
) -> Result<(Flow, [u8; 32]), JobFault>
    ensures flow { IfOk result (λ read. HasText (F.texts folder.old) name.now
        (λ text. flows.IsAcceptedFlow text read.0 × (read.1 ≡ sha256 text))) }
    ensures refused { IfErr result (IfJobRefused (IsFlowRefused (F.texts folder.old) name.now)) }
    ensures faults { F.fault_count folder.new ≡ read_faults_after result (F.fault_count folder.old) }
    ensures counted { F.fetch_count folder.new ≡ one_more (F.fetch_count folder.old) }
    ensures texts_stay { F.texts folder.new ≡ F.texts folder.old }
{
    let text = fetch(alloc, folder, name, FLOW_LIMIT, Code::F11)?;
    let flow = read_flow(alloc, &text)?;
    Ok((flow, Sha256::digest(&text)))
}

// The batches of the text under a name, and the text's digest.
fn inputs_with_digest<F: Folder>(
    alloc: Global,
    folder: &mut F,
    name: &str,
    flow: &Flow,
) -> Result<(Batches, [u8; 32]), JobFault>
    ensures batches { IfOk result (λ read. HasText (F.texts folder.old) name.now
        (λ text. inputs.AreAcceptedInputs text (sources_of flow.now) read.0 × (read.1 ≡ sha256 text))) }
    ensures well_formed { IfOk result (λ read. IsWellFormedSystem (system_of flow.now read.0)) }
    ensures refused { IfErr result (IfJobRefused (λ refusal. HasText (F.texts folder.old) name.now
        (λ text. inputs.AreRefusedInputs text (sources_of flow.now) refusal))) }
    ensures faults { F.fault_count folder.new ≡ read_faults_after result (F.fault_count folder.old) }
    ensures counted { F.fetch_count folder.new ≡ one_more (F.fetch_count folder.old) }
    ensures texts_stay { F.texts folder.new ≡ F.texts folder.old }
{
    let text = fetch(alloc, folder, name, INPUTS_LIMIT, Code::I5)?;
    let sources = flow.source_names(alloc)?;
    let batches = read_batches(alloc, &text, &sources)?;
    system_is_well_formed(flow, &batches);
    Ok((batches, Sha256::digest(&text)))
}

// The items of the text under a name with the lines on which they stand, and the text's digest.
fn schedule_with_digest<F: Folder>(
    alloc: Global,
    folder: &mut F,
    name: &str,
    flow: &Flow,
) -> Result<(Schedule, Vec<u32>, [u8; 32]), JobFault>
    ensures items { IfOk result (λ read. HasText (F.texts folder.old) name.now (λ text. schedules.IsAcceptedSchedule text flow.now read.0
        × (read.1.items ≡ spec.line_numbers text) × (read.2 ≡ sha256 text))) }
    ensures few { IfOk result (λ read. step_count read.0 ≤ step_limit) }
    ensures refused { IfErr result (IfJobRefused (λ refusal. HasText (F.texts folder.old) name.now
        (λ text. schedules.IsRefusedSchedule text flow.now refusal))) }
    ensures faults { F.fault_count folder.new ≡ read_faults_after result (F.fault_count folder.old) }
    ensures counted { F.fetch_count folder.new ≡ one_more (F.fetch_count folder.old) }
    ensures texts_stay { F.texts folder.new ≡ F.texts folder.old }
{
    let text = fetch(alloc, folder, name, SCHEDULE_LIMIT, Code::S4)?;
    let items = read_schedule(alloc, &text, flow)?;
    let numbers = line_numbers(alloc, &text)?;
    Ok((items, numbers, Sha256::digest(&text)))
}
