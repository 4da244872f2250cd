//! The three texts are fetched and read, each before the next one is fetched.
ghost use Rattle.std.specs.Prelude.{◌≡◌, ◌^◌, ◌<◌, ◌≤◌, IfOk, IfErr, IsErr, IsErrOf};
ghost use Rattle.fw_outside.specs.Outside.{IsText, one_more};
ghost use Rattle.fw_lines.specs.Inputs as inputs;
ghost use Rattle.fw_flow.specs.Dataflow.{system_of};
ghost use Rattle.fw_flow.specs.Sources.{sources_of};
ghost use Rattle.fw_flow.specs.WellFormed.{IsWellFormedSystem};
ghost use Rattle.fw_schedule.specs.Grammar as schedules;
ghost use Rattle.fw_schedule.specs.Schedule.{step_count, step_limit};
ghost use Rattle.fw_generate.specs.Laws.{accepted_size_limit};
ghost use Rattle.fw_command.specs.Reading.{IfJobRefused, IsTooLarge, IsJob, IsGenerated, IsFed, IsReadyToRun, read_faults_after};
ghost use Rattle.fw_command.specs.Manner.{seeded_in};
ghost use Rattle.fw_command.specs.Words.{text_names_in, system_names_in};
ghost use Rattle.fw_command.specs.Command.{three_texts, two_texts};
ghost use Rattle.fw_command.specs.Texts.{HasText, HasFlow, IsFlowRefused, Refuses, AsksNoMore};

use crate::words::{DenoteWords, GenerateWords, RunWords};
use fw_flow::Flow;
use fw_flow::laws::system_is_well_formed;
use fw_flow_text::{FLOW_LIMIT, read_flow};
use fw_generate::generate;
use fw_lines::{Batches, Code, INPUTS_LIMIT, ReadFault, Refusal, read_batches};
use fw_outside::{FetchFault, Folder};
use fw_schedule::{SCHEDULE_LIMIT, Schedule, read_schedule};
use std::alloc::{AllocError, Global};

/// What the three texts spell.
#[derive(Debug, Drop)]
pub struct Job {
    pub flow: Flow,
    pub batches: Batches,
    pub items: Schedule,
}

/// A flow with the batches of its inputs.
#[derive(Debug, Drop)]
pub struct Fed {
    pub flow: Flow,
    pub batches: Batches,
}

/// Why no run begins.
#[derive(Clone, Copy, Debug, PartialEq, Eq)]
pub enum JobFault {
    /// The folder failed.
    Failed,
    /// A text is not accepted.
    Refused(Refusal),
    /// Memory was refused.
    NoMemory,
}

impl From<AllocError> for JobFault {
    ghost use Rattle.fw_command.specs.declared.reading.JobFault.TheVariants.{NoMemory};

    ghost from_gives = { λ _ fault. fault ≡ NoMemory };

    fn from(_error: AllocError) -> Self {
        JobFault::NoMemory
    }
}

impl From<ReadFault> for JobFault {
    ghost use Rattle.fw_command.specs.Reading.{job_fault};

    ghost from_gives = { λ read fault. fault ≡ job_fault read };

    fn from(fault: ReadFault) -> Self {
        match fault {
            ReadFault::Refused(refusal) => JobFault::Refused(refusal),
            ReadFault::NoMemory => JobFault::NoMemory,
        }
    }
}

/// Reads the three texts, each before the next one is fetched.
pub fn read_job<F: Folder>(alloc: Global, words: &RunWords, folder: &mut F) -> Result<Job, JobFault>
    ensures job { IfOk result (IsJob (F.texts folder.old) (three_texts (text_names_in words.now))) }
    ensures ready { IfOk result (λ job. IsReadyToRun (system_of job.flow job.batches) job.items) }
    ensures refused { IfErr result (IfJobRefused (Refuses (F.texts folder.old) (three_texts (text_names_in words.now)))) }
    ensures faults { F.fault_count folder.new ≡ read_faults_after result (F.fault_count folder.old) }
    ensures asked_no_more { AsksNoMore (F.texts folder.old) (three_texts (text_names_in words.now)) (F.fetch_count folder.old) (F.fetch_count folder.new) }
    ensures texts_stay { F.texts folder.new ≡ F.texts folder.old }
{
    let flow = fetch_flow(alloc, folder, words.flow)?;
    let batches = fetch_inputs(alloc, folder, words.inputs, &flow)?;
    let items = fetch_schedule(alloc, folder, words.schedule, &flow)?;
    Ok(Job {
        flow,
        batches,
        items,
    })
}

/// Reads the texts of a flow and its inputs, the one before the other is fetched.
pub fn read_fed<F: Folder>(
    alloc: Global,
    names: &DenoteWords,
    folder: &mut F,
) -> Result<Fed, JobFault>
    ensures fed { IfOk result (IsFed (F.texts folder.old) (two_texts (system_names_in names.now))) }
    ensures well_formed { IfOk result (λ fed. IsWellFormedSystem (system_of fed.flow fed.batches)) }
    ensures refused { IfErr result (IfJobRefused (Refuses (F.texts folder.old) (two_texts (system_names_in names.now)))) }
    ensures faults { F.fault_count folder.new ≡ read_faults_after result (F.fault_count folder.old) }
    ensures asked_no_more { AsksNoMore (F.texts folder.old) (two_texts (system_names_in names.now)) (F.fetch_count folder.old) (F.fetch_count folder.new) }
    ensures texts_stay { F.texts folder.new ≡ F.texts folder.old }
{
    let flow = fetch_flow(alloc, folder, names.flow)?;
    let batches = fetch_inputs(alloc, folder, names.inputs, &flow)?;
    Ok(Fed { flow, batches })
}

/// Generates the three texts of a seed and a size, and reads them. Of a size up to the greatest none is refused, and the error
/// is want of memory.
pub fn read_generated(alloc: Global, words: GenerateWords) -> Result<Job, JobFault>
    ensures job { IfOk result (IsGenerated (seeded_in words)) }
    ensures ready { IfOk result (λ job. IsReadyToRun (system_of job.flow job.batches) job.items) }
    ensures accepted { words.size ≤ accepted_size_limit → IsErr result → IsErrOf result JobFault.NoMemory }
{
    let texts = generate(alloc, words.seed, words.size)?;
    let flow = read_flow(alloc, texts.flow().as_bytes())?;
    let sources = flow.source_names(alloc)?;
    let batches = read_batches(alloc, texts.inputs().as_bytes(), &sources)?;
    system_is_well_formed(&flow, &batches);
    let items = read_schedule(alloc, texts.schedule().as_bytes(), &flow)?;
    Ok(Job {
        flow,
        batches,
        items,
    })
}

/// The flow of the text under a name.
pub fn fetch_flow<F: Folder>(alloc: Global, folder: &mut F, name: &str) -> Result<Flow, JobFault>
    ensures flow { IfOk result (HasFlow (F.texts folder.old) name.now) }
    ensures refused { IfErr result (IfJobRefused (IsFlowRefused (F.texts folder.old) name.now)) }
    ensures faults { F.fault_count folder.new ≡ read_faults_after result (F.fault_count folder.old) }
    ensures counted { F.fetch_count folder.new ≡ one_more (F.fetch_count folder.old) }
    ensures texts_stay { F.texts folder.new ≡ F.texts folder.old }
{
    let text = fetch(alloc, folder, name, FLOW_LIMIT, Code::F11)?;
    Ok(read_flow(alloc, &text)?)
}

// The batches of the text under a name.
fn fetch_inputs<F: Folder>(
    alloc: Global,
    folder: &mut F,
    name: &str,
    flow: &Flow,
) -> Result<Batches, JobFault>
    ensures batches { IfOk result (λ batches. HasText (F.texts folder.old) name.now
        (λ text. inputs.AreAcceptedInputs text (sources_of flow.now) batches)) }
    ensures well_formed { IfOk result (λ batches. IsWellFormedSystem (system_of flow.now batches)) }
    ensures refused { IfErr result (IfJobRefused (λ refusal. HasText (F.texts folder.old) name.now
        (λ text. inputs.AreRefusedInputs text (sources_of flow.now) refusal))) }
    ensures faults { F.fault_count folder.new ≡ read_faults_after result (F.fault_count folder.old) }
    ensures counted { F.fetch_count folder.new ≡ one_more (F.fetch_count folder.old) }
    ensures texts_stay { F.texts folder.new ≡ F.texts folder.old }
{
    let text = fetch(alloc, folder, name, INPUTS_LIMIT, Code::I5)?;
    let sources = flow.source_names(alloc)?;
    let batches = read_batches(alloc, &text, &sources)?;
    system_is_well_formed(flow, &batches);
    Ok(batches)
}

// The items of the text under a name.
fn fetch_schedule<F: Folder>(
    alloc: Global,
    folder: &mut F,
    name: &str,
    flow: &Flow,
) -> Result<Schedule, JobFault>
    ensures items { IfOk result (λ items. HasText (F.texts folder.old) name.now
        (λ text. schedules.IsAcceptedSchedule text flow.now items)) }
    ensures few { IfOk result (λ items. step_count items ≤ step_limit) }
    ensures refused { IfErr result (IfJobRefused (λ refusal. HasText (F.texts folder.old) name.now
        (λ text. schedules.IsRefusedSchedule text flow.now refusal))) }
    ensures faults { F.fault_count folder.new ≡ read_faults_after result (F.fault_count folder.old) }
    ensures counted { F.fetch_count folder.new ≡ one_more (F.fetch_count folder.old) }
    ensures texts_stay { F.texts folder.new ≡ F.texts folder.old }
{
    let text = fetch(alloc, folder, name, SCHEDULE_LIMIT, Code::S4)?;
    Ok(read_schedule(alloc, &text, flow)?)
}

/// The text under a name, of at most `limit` bytes; a longer one is refused as a whole by this rule.
pub(crate) fn fetch<F: Folder>(
    alloc: Global,
    folder: &mut F,
    name: &str,
    limit: usize,
    too_large: Code,
) -> Result<Vec<u8>, JobFault>
    requires { limit < 2 ^ 32 }
    ensures text { IfOk result (λ text. IsText (F.texts folder.old) name.now text.items) }
    ensures refused { IfErr result (IfJobRefused (IsTooLarge (F.texts folder.old) name.now limit too_large)) }
    ensures faults { F.fault_count folder.new ≡ read_faults_after result (F.fault_count folder.old) }
    ensures counted { F.fetch_count folder.new ≡ one_more (F.fetch_count folder.old) }
    ensures texts_stay { F.texts folder.new ≡ F.texts folder.old }
{
    let mut text = Vec::new(alloc);
    match folder.fetch(name, limit, &mut text) {
        Ok(()) => Ok(text),
        Err(FetchFault::Failed) => Err(JobFault::Failed),
        Err(FetchFault::TooLarge) => Err(JobFault::Refused(Refusal {
            code: too_large,
            line: 0,
        })),
        Err(FetchFault::NoMemory) => Err(JobFault::NoMemory),
    }
}
