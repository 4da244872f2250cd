//! The reader of certificates.
ghost use Rattle.std.specs.Prelude.{◌≡◌, ◌⊎◌, ◌++◌, ◌∷◌, [], ℕ, List, length, Some, None, IfOk, OnOk, IfErr, MatchResult};
ghost use Rattle.fw_flow.specs.Dataflow.{Dataflow};
ghost use Rattle.fw_lines.specs.Lines.{words_at, said_in};
ghost use Rattle.fw_offers_text.specs.declared.claim.Claim.{Claim};
ghost use Rattle.fw_offers_text.specs.declared.claim.ClaimEntry.{ClaimEntry};
ghost use Rattle.fw_offers_text.specs.declared.code.ChoiceRefusal.{ChoiceRefusal};
ghost use Rattle.fw_offers_text.specs.CertificateGrammar.{entries_of_lines, certificate_words_fault, IsAcceptedCertificate, IsRefusedCertificate};
ghost use Rattle.fw_offers_text.specs.ClaimDraft.{claimed_by, with_entry, fault_behind, EntryFits, IsEnteredOrFault};
ghost use Rattle.fw_offers_text.specs.Faults.{IfChoiceRefused};

use crate::certificate_form::certificate_form;
use crate::claim::{Claim, ClaimEntry};
use crate::claim_draft::ClaimDraft;
use crate::code::{ChoiceCode, ChoiceFault};
use crate::entering::entry_of;
use crate::offers_reader::CHOICE_LIMIT;
use crate::words::Words;
use fw_flow::Flow;
use fw_lines::{Line, Place, line_at};
use std::alloc::{AllocError, Global};

/// Reads a certificate over a flow.
///
/// It takes the memory of the claim and of the words of one line. Where no memory is refused it answers `Ok` exactly for the
/// texts of the grammar, with the claim that they spell, and else the first rule that is broken.
///
/// # Errors
///
/// The first rule that the text breaks, or want of memory.
pub fn read_certificate(alloc: Global, text: &[u8], flow: &Flow) -> Result<Claim, ChoiceFault>
    ensures { MatchResult result (IsAcceptedCertificate text.now flow.now)
        (IfChoiceRefused (IsRefusedCertificate text.now flow.now)) }
{
    if text.len() > CHOICE_LIMIT {
        return Err(ChoiceFault::of_whole(ChoiceCode::C6));
    }
    let mut draft = ClaimDraft::new(alloc, flow)?;
    let mut place = Some(Place::START);
    while let Some(at) = place {
        let (line, next) = line_at(alloc, text, at)?;
        read_line(alloc, text, &line, flow, &mut draft)?;
        place = next;
    }
    if !draft.has_ended() {
        return Err(ChoiceFault::of_whole(ChoiceCode::C5));
    }
    Ok(draft.into_claim(alloc)?)
}

/// Each text is accepted or refused, and not both; an accepted one spells one claim, and one that is refused is by one rule at one
/// line: so `read_certificate` answers `Ok` exactly for the texts of the grammar, and else that refusal, unless memory is refused.
pub fn one_claim()
    ensures some_answer { (text : List ℕ) (flow : Dataflow) → ((claim : Claim) × IsAcceptedCertificate text flow claim)
        ⊎ ((refusal : ChoiceRefusal) × IsRefusedCertificate text flow refusal) }
    ensures exclusive { (text : List ℕ) (flow : Dataflow) (claim : Claim) (refusal : ChoiceRefusal)
        → IsAcceptedCertificate text flow claim → IsRefusedCertificate text flow refusal → ⊥ }
    ensures one_value { (text : List ℕ) (flow : Dataflow) (first second : Claim)
        → IsAcceptedCertificate text flow first → IsAcceptedCertificate text flow second → first ≡ second }
    ensures one_refusal { (text : List ℕ) (flow : Dataflow) (first second : ChoiceRefusal)
        → IsRefusedCertificate text flow first → IsRefusedCertificate text flow second → first ≡ second }
{}

// Takes what a line says, or tells the rule that it breaks.
fn read_line(
    alloc: Global,
    text: &[u8],
    line: &Line,
    flow: &Flow,
    draft: &mut ClaimDraft,
) -> Result<(), ChoiceFault>
    requires { length draft.old.cuts ≡ length flow.now.nodes }
    ensures taken { (entries : List ClaimEntry) → draft.old ≡ claimed_by flow.now entries → OnOk result
        ((certificate_words_fault flow.now entries (words_at text.now line.now.words) ≡ None)
        × (draft.new ≡ claimed_by flow.now (entries ++ entries_of_lines flow.now (said_in text.now line.now ∷ [])))) }
    ensures broken { (entries : List ClaimEntry) → draft.old ≡ claimed_by flow.now entries → IfErr result (IfChoiceRefused (λ refusal.
        (certificate_words_fault flow.now entries (words_at text.now line.now.words) ≡ Some refusal.code)
        × (refusal.line ≡ line.now.number))) }
{
    let words = Words::of(text, line.words.as_slice());
    if words.is_empty() {
        return Ok(());
    }
    if draft.has_ended() {
        return Err(ChoiceFault::of_line(ChoiceCode::C1, line.number));
    }
    match take_words(alloc, &words, flow, draft)? {
        Ok(()) => Ok(()),
        Err(code) => Err(ChoiceFault::of_line(code, line.number)),
    }
}

// Takes what words say, or tells the rule that they break.
fn take_words(
    alloc: Global,
    words: &Words<'_>,
    flow: &Flow,
    draft: &mut ClaimDraft,
) -> Result<Result<(), ChoiceCode>, AllocError>
    requires { length draft.old.cuts ≡ length flow.now.nodes }
    ensures { IfOk result (IsEnteredOrFault flow.now words.now draft.old draft.new) }
{
    let Some(form) = certificate_form(words) else {
        return Ok(Err(ChoiceCode::C1));
    };
    match entry_of(alloc, form, flow)? {
        Ok(entry) => take_entry(entry, draft),
        Err(code) => Ok(Err(code)),
    }
}

// Takes what a line says whose stamps lie in their domains, or tells the rule that it breaks.
fn take_entry(
    entry: ClaimEntry,
    draft: &mut ClaimDraft,
) -> Result<Result<(), ChoiceCode>, AllocError>
    requires { EntryFits draft.old entry }
    ensures { IfOk result (λ taken. MatchResult taken
        (λ done. (fault_behind draft.old entry ≡ None) × (draft.new ≡ with_entry draft.old entry))
        (λ code. fault_behind draft.old entry ≡ Some code)) }
{
    match draft.fault(&entry) {
        Some(code) => Ok(Err(code)),
        None => {
            draft.tell(entry)?;
            Ok(Ok(()))
        }
    }
}
