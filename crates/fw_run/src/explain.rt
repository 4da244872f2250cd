//! Why the cuts of a recovery are the largest, as lines.
ghost use Rattle.std.specs.Prelude.{◌≡◌, Option, IfOk, string_bytes};
ghost use Rattle.fw_model.specs.Offers.{AreOffersOf};
ghost use Rattle.fw_model.specs.Steps as spec;
ghost use Rattle.fw_keep.specs.Stored.{Records};
ghost use Rattle.fw_engine.specs.Engine.{ForEachState};
ghost use Rattle.fw_command.specs.Command as told;
ghost use Rattle.fw_command.specs.Manner.{showing_in};
ghost use Rattle.fw_run.specs.Explained.{AreReasonsFor, IsJudgedText, verdict_word};

use fw_certify::{Verdict, explain, verify};
use fw_command::Showing;
use fw_engine::{Engine, Outlook};
use fw_flow::{Flow, Step};
use std::alloc::{AllocError, Global};

/// Why the cuts of the recovery are the largest that the step does now, if it does one and that is to be shown; else nothing. The error
/// is want of memory.
pub(crate) fn reasons_for(
    alloc: Global,
    showing: Showing,
    engine: &Engine,
    step: &Step,
) -> Result<String, AllocError>
    ensures { IfOk result (λ reasons. (records : Option Records) → ForEachState engine.now records (λ sys state.
        AreReasonsFor (showing_in showing) sys state step.now (string_bytes reasons))) }
{
    match showing {
        Showing::Effects => Ok(String::new(alloc)),
        Showing::Certificates => reasons(alloc, engine, step),
    }
}

// The same where certificates are to be shown.
fn reasons(alloc: Global, engine: &Engine, step: &Step) -> Result<String, AllocError>
    ensures { IfOk result (λ reasons. (records : Option Records) → ForEachState engine.now records (λ sys state.
        AreReasonsFor told.with_certificates sys state step.now (string_bytes reasons))) }
{
    if !is_recovery(step) {
        return Ok(String::new(alloc));
    }
    match engine.outlook()? {
        Some(outlook) => certificate_lines(alloc, engine.flow(), &outlook),
        None => Ok(String::new(alloc)),
    }
}

// Whether the step is a recovery.
fn is_recovery(step: &Step) -> bool
    ensures { result ≡ spec.is_recovery step.now }
{
    matches!(step, Step::Recover)
}

// The lines of the trail, and of what the checker says of them.
fn certificate_lines(alloc: Global, flow: &Flow, outlook: &Outlook) -> Result<String, AllocError>
    requires { AreOffersOf flow.now outlook.now.candidates.items }
    ensures { IfOk result (λ text. IsJudgedText flow.now outlook.now.candidates.items outlook.now.descent.trail outlook.now.descent.choice (string_bytes text)) }
{
    let descent = &outlook.descent;
    let certificate = explain(alloc, &descent.trail)?;
    let verdict = verify(
        alloc,
        flow,
        &outlook.candidates,
        &descent.choice,
        &certificate,
    )?;
    let lines = certificate.display(flow);
    let count = certificate.as_slice().len();
    let word = word_of(verdict);
    format!(in alloc; "{lines}certificate {count} {word}\n")
}

// The word of a verdict.
fn word_of(verdict: Verdict) -> &'static str
    ensures { result.now ≡ verdict_word verdict }
{
    match verdict {
        Verdict::Yes => "yes",
        Verdict::No { .. } => "no",
    }
}
