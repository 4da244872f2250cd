//! The reader of offers.
ghost use Rattle.std.specs.Prelude.{◌≡◌, ◌⊎◌, ◌++◌, ◌∷◌, [], ℕ, List, true, Some, None, IfOk, OnOk, IfErr, MatchResult};
ghost use Rattle.fw_flow.specs.Dataflow.{Dataflow};
ghost use Rattle.fw_flow.specs.declared.choice.Offer.{Offer};
ghost use Rattle.fw_lines.specs.Lines.{words_at, said_in};
ghost use Rattle.fw_model.specs.Offers.{AreOffersOf, RecordsAscend};
ghost use Rattle.fw_offers_text.specs.declared.code.ChoiceRefusal.{ChoiceRefusal};
ghost use Rattle.fw_offers_text.specs.declared.statement.Statement.{Statement};
ghost use Rattle.fw_offers_text.specs.Draft.{told_by, fault_after, with_statement, IsOf, IsStatementTaken};
ghost use Rattle.fw_offers_text.specs.Faults.{IfChoiceRefused};
ghost use Rattle.fw_offers_text.specs.OffersGrammar.{AreAcceptedOffers, AreRefusedOffers};
ghost use Rattle.fw_offers_text.specs.Statements.{is_in_domains, statements_of, offer_words_fault, IsStatementOf};

use crate::code::{ChoiceCode, ChoiceFault};
use crate::draft::Draft;
use crate::offer_form::offer_form;
use crate::offers::Offers;
use crate::statement::Statement;
use crate::stating::statement_of;
use crate::words::Words;
use fw_flow::Flow;
use fw_flow::laws::flow_is_well_formed;
use fw_lines::{Line, Place, line_at};
use std::alloc::{AllocError, Global};

/// The most bytes that a text of offers or of a certificate may have.
pub const CHOICE_LIMIT: usize = 16_777_216;

/// Reads what the nodes of a flow offer.
///
/// It takes the memory of the offers and of the words of one line. Where no memory is refused it answers `Ok` exactly for the
/// texts of the grammar, with the offers that they spell, and else the first rule that is broken.
///
/// # Errors
///
/// The first rule that the text breaks, or want of memory.
pub fn read_offers(alloc: Global, text: &[u8], flow: &Flow) -> Result<Offers, ChoiceFault>
    ensures answer { MatchResult result (AreAcceptedOffers text.now flow.now)
        (IfChoiceRefused (AreRefusedOffers text.now flow.now)) }
    ensures of_flow { IfOk result (AreOffersOf flow.now) }
    ensures ascending { IfOk result (RecordsAscend flow.now) }
{
    if text.len() > CHOICE_LIMIT {
        return Err(ChoiceFault::of_whole(ChoiceCode::O8));
    }
    let mut draft = Draft::new(alloc, flow)?;
    let mut place = Some(Place::START);
    while let Some(at) = place {
        let (line, next) = line_at(alloc, text, at)?;
        read_line(alloc, text, &line, flow, &mut draft)?;
        place = next;
    }
    if !draft.is_all_told(flow) {
        return Err(ChoiceFault::of_whole(ChoiceCode::O7));
    }
    Ok(draft.into_offers(alloc)?)
}

/// Each text is accepted or refused, and not both; an accepted one spells one list of offers, and one that is refused is by one
/// rule at one line: so `read_offers` answers `Ok` exactly for the texts of the grammar, and else that refusal, unless memory is
/// refused.
pub fn one_answer()
    ensures some_answer { (text : List ℕ) (flow : Dataflow) → ((offers : List Offer) × AreAcceptedOffers text flow offers)
        ⊎ ((refusal : ChoiceRefusal) × AreRefusedOffers text flow refusal) }
    ensures exclusive { (text : List ℕ) (flow : Dataflow) (offers : List Offer) (refusal : ChoiceRefusal)
        → AreAcceptedOffers text flow offers → AreRefusedOffers text flow refusal → ⊥ }
    ensures one_value { (text : List ℕ) (flow : Dataflow) (first second : List Offer)
        → AreAcceptedOffers text flow first → AreAcceptedOffers text flow second → first ≡ second }
    ensures one_refusal { (text : List ℕ) (flow : Dataflow) (first second : ChoiceRefusal)
        → AreRefusedOffers text flow first → AreRefusedOffers text flow second → first ≡ second }
{}

// Takes what a line says, or tells the rule that it breaks.
fn read_line(
    alloc: Global,
    text: &[u8],
    line: &Line,
    flow: &Flow,
    draft: &mut Draft,
) -> Result<(), ChoiceFault>
    requires { IsOf flow.now draft.old }
    ensures taken { (said : List Statement) → draft.old ≡ told_by flow.now said → OnOk result
        ((offer_words_fault flow.now said (words_at text.now line.now.words) ≡ None)
        × (draft.new ≡ told_by flow.now (said ++ statements_of flow.now (said_in text.now line.now ∷ [])))) }
    ensures broken { (said : List Statement) → draft.old ≡ told_by flow.now said → IfErr result (IfChoiceRefused (λ refusal.
        (offer_words_fault flow.now said (words_at text.now line.now.words) ≡ Some refusal.code)
        × (refusal.line ≡ line.now.number))) }
{
    let words = Words::of(text, line.words.as_slice());
    if words.is_empty() {
        return Ok(());
    }
    match take_words(alloc, &words, flow, draft)? {
        Ok(()) => Ok(()),
        Err(code) => Err(ChoiceFault::of_line(code, line.number)),
    }
}

// Takes what words say, or tells the rule that they break.
fn take_words(
    alloc: Global,
    words: &Words<'_>,
    flow: &Flow,
    draft: &mut Draft,
) -> Result<Result<(), ChoiceCode>, AllocError>
    requires { IsOf flow.now draft.old }
    ensures { IfOk result (IsStatementTaken flow.now words.now draft.old draft.new) }
{
    flow_is_well_formed(flow);
    let Some(form) = offer_form(alloc, words)? else {
        return Ok(Err(ChoiceCode::O1));
    };
    match statement_of(alloc, form, flow)? {
        Ok(statement) => take_statement(alloc, statement, flow, draft),
        Err(code) => Ok(Err(code)),
    }
}

// Takes a statement of stamps in their domains, or tells the rule that it breaks.
fn take_statement(
    alloc: Global,
    statement: Statement,
    flow: &Flow,
    draft: &mut Draft,
) -> Result<Result<(), ChoiceCode>, AllocError>
    requires of_flow { IsOf flow.now draft.old }
    requires there { IsStatementOf flow.now statement }
    requires small { is_in_domains flow.now statement ≡ true }
    ensures { IfOk result (λ taken. MatchResult taken
        (λ done. (fault_after flow.now draft.old statement ≡ None) × (draft.new ≡ with_statement flow.now draft.old statement))
        (λ code. fault_after flow.now draft.old statement ≡ Some code)) }
{
    match draft.fault(flow, &statement) {
        Some(code) => Ok(Err(code)),
        None => {
            draft.tell(alloc, flow, statement)?;
            Ok(Ok(()))
        }
    }
}
