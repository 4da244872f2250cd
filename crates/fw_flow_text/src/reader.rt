//! The reader of a whole text.
ghost use Rattle.std.specs.Prelude.{◌≡◌, ◌⊎◌, ℕ, List, [], ◌∷◌, ◌++◌, true, false, IfOk, IfErr, MatchResult};
ghost use Rattle.fw_lines.specs.Faults.{IfRefused};
ghost use Rattle.fw_lines.specs.Lines.{Said, words_at, said_in};
ghost use Rattle.fw_lines.specs.declared.refusal.Code.{Code};
ghost use Rattle.fw_lines.specs.declared.refusal.Refusal.{Refusal};
ghost use Rattle.fw_flow.specs.Dataflow.{Dataflow};
ghost use Rattle.fw_flow.specs.Raw.{is_new};
ghost use Rattle.fw_flow_text.specs.Grammar.{Declare, BreakAfter, IsAcceptedFlow, IsRefusedFlow};

use crate::declaration::declaration;
use crate::words::has_large;
use fw_flow::{Declaration, Declared, Flow, RawFlow};
use fw_lines::{Code, Line, Place, ReadFault, Refusal, line_at};
use std::alloc::Global;

/// The most bytes that a flow may have.
pub const FLOW_LIMIT: usize = 1_048_576;

/// Reads a flow.
///
/// It takes the memory of the flow, of its declarations and of the words of one line. Where no memory is refused it
/// answers `Ok` exactly for the texts of the grammar, with the dataflow that they declare, and else the first rule that
/// is broken.
pub fn read_flow(alloc: Global, text: &[u8]) -> Result<Flow, ReadFault>
    ensures { MatchResult result (IsAcceptedFlow text.now) (IfRefused (IsRefusedFlow text.now)) }
{
    if text.len() > FLOW_LIMIT {
        return Err(ReadFault::of_whole(Code::F11));
    }
    let mut raw = RawFlow::new(alloc);
    let mut place = Some(Place::START);
    while let Some(at) = place {
        let (line, next) = line_at(alloc, text, at)?;
        raw = read_line(alloc, text, &line, raw)?;
        place = next;
    }
    Flow::check(alloc, raw)
}

/// Each text is accepted or refused, and not both; an accepted one has one dataflow, and one that is refused is by one rule
/// at one line: so `read_flow` answers `Ok` exactly for the texts of the grammar, and else that refusal, unless memory is
/// refused.
pub fn one_answer()
    ensures some_answer { (text : List ℕ) → ((flow : Dataflow) × IsAcceptedFlow text flow)
        ⊎ ((refusal : Refusal) × IsRefusedFlow text refusal) }
    ensures exclusive { (text : List ℕ) (flow : Dataflow) (refusal : Refusal)
        → IsAcceptedFlow text flow → IsRefusedFlow text refusal → ⊥ }
    ensures one_flow { (text : List ℕ) (first second : Dataflow)
        → IsAcceptedFlow text first → IsAcceptedFlow text second → first ≡ second }
    ensures one_refusal { (text : List ℕ) (first second : Refusal)
        → IsRefusedFlow text first → IsRefusedFlow text second → first ≡ second }
{}

// The declarations with what a line declares, or the rule that it breaks.
fn read_line(alloc: Global, text: &[u8], line: &Line, raw: RawFlow) -> Result<RawFlow, ReadFault>
    ensures sound { IfOk result
        (λ more. (code : Code) → BreakAfter raw (words_at text.now line.now.words) code → ⊥) }
    ensures value { IfOk result (λ more. (before : List Said) → Declare before raw
        → Declare (before ++ said_in text.now line.now ∷ []) more) }
    ensures broken { IfErr result (IfRefused (λ refusal.
        BreakAfter raw (words_at text.now line.now.words) refusal.code × (refusal.line ≡ line.now.number))) }
{
    let words = line.words.as_slice();
    if words.is_empty() {
        return Ok(raw);
    }
    let Some(declaration) = declaration(alloc, text, words)? else {
        return Err(refused(Code::F1, line.number));
    };
    if has_large(text, words) {
        return Err(refused(Code::F10, line.number));
    }
    let declared = Declared {
        line: line.number,
        declaration,
    };
    declare_new(declared, raw)
}

// The declarations with one more, or F2 where its name is not new.
fn declare_new(declared: Declared, raw: RawFlow) -> Result<RawFlow, ReadFault>
    ensures sound { IfOk result (λ more. is_new raw declared.declaration ≡ true) }
    ensures value { IfOk result (λ more. more ≡ raw ++ declared ∷ []) }
    ensures broken { IfErr result (IfRefused (λ refusal.
        (is_new raw declared.declaration ≡ false) × (refusal.code ≡ Code.F2) × (refusal.line ≡ declared.line))) }
{
    let line = declared.line;
    let (raw, new) = raw.declare(declared)?;
    if new {
        Ok(raw)
    } else {
        Err(refused(Code::F2, line))
    }
}

const fn refused(code: Code, line: u32) -> ReadFault
    ensures { result ≡ ReadFault.Refused (record { code = code; line = line }) }
{
    ReadFault::Refused(Refusal { code, line })
}
