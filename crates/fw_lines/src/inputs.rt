//! The reader of the inputs.
ghost use Rattle.std.specs.Prelude.{◌≡◌, ◌⊎◌, ℕ, List, [], ◌∷◌, ◌++◌, codes, IfOk, OnOk, IfErr, MatchResult, if◌then◌else◌};
ghost use Rattle.std.specs.List.{filter_map, list_any};
ghost use Rattle.std.specs.Option.{option_map_or, option_or};
ghost use Rattle.std.specs.Str.{bytes_eq};
ghost use Rattle.fw_bag.specs.Bag.{bag_sum, with_rec};
ghost use Rattle.fw_bag.specs.declared.rec.Rec.{Rec};
ghost use Rattle.fw_lines.specs.declared.refusal.Refusal.{Refusal};
ghost use Rattle.fw_lines.specs.Batches.{batches_at, batch_count_at, AreBatchesOf, IsBatch};
ghost use Rattle.fw_lines.specs.Faults.{IfRefused};
ghost use Rattle.fw_lines.specs.Inputs as spec;
ghost use Rattle.fw_lines.specs.Inputs.{record_said, spelled_rec, fault_in, batches_said_of, AreAcceptedInputs, AreRefusedInputs};
ghost use Rattle.fw_lines.specs.Lines.{bytes_at, words_at, said_in};
ghost use Rattle.fw_lines.specs.Sources.{node_named};

use crate::batches::Batches;
use crate::fault::ReadFault;
use crate::line::{Line, Place};
use crate::record::{RecordWord, read_record};
use crate::refusal::{Code, Refusal};
use crate::sources::SourceNames;
use crate::span::Span;
use crate::spelling::is_name;
use crate::text::line_at;
use fw_bag::Bag;
use std::alloc::{AllocError, Global};

/// The most bytes that inputs may have.
pub const INPUTS_LIMIT: usize = 16_777_216;

/// How many batches a text may give to a source.
const BATCH_LIMIT: usize = 1 << 20;

/// Reads inputs: the batches of these sources.
///
/// It takes the memory of the batches and of the words of one line. Where no memory is refused it
/// answers `Ok` exactly for the texts of the grammar, and else the first rule that is broken. Its batches are those of
/// these sources alone, at most 2^20 of each, and each is a bag of recs of 64 bits.
pub fn read_batches(alloc: Global, text: &[u8], sources: &SourceNames) -> Result<Batches, ReadFault>
    ensures answer { MatchResult result (AreAcceptedInputs text.now sources.now)
        (IfRefused (AreRefusedInputs text.now sources.now)) }
    ensures given { IfOk result (λ batches. AreBatchesOf sources.now (batches_at batches)) }
{
    if text.len() > INPUTS_LIMIT {
        return Err(ReadFault::of_whole(Code::I5));
    }
    let mut batches = Batches::new(alloc);
    let mut place = Some(Place::START);
    while let Some(at) = place {
        let (line, next) = line_at(alloc, text, at)?;
        read_line(alloc, text, &line, sources, &mut batches)?;
        place = next;
    }
    Ok(batches)
}

/// Each text is accepted or refused, and not both; an accepted one gives each node its batches, and one that is refused is
/// by one rule at one line: so `read_batches` answers `Ok` exactly for the texts of the grammar, and else that refusal,
/// unless memory is refused.
pub fn one_answer()
    ensures some_answer { (text : List ℕ) (sources : List (List ℕ × ℕ))
        → ((batches : List (ℕ × List (List Rec))) × AreAcceptedInputs text sources batches)
        ⊎ ((refusal : Refusal) × AreRefusedInputs text sources refusal) }
    ensures exclusive { (text : List ℕ) (sources : List (List ℕ × ℕ))
        (batches : List (ℕ × List (List Rec))) (refusal : Refusal)
        → AreAcceptedInputs text sources batches → AreRefusedInputs text sources refusal → ⊥ }
    ensures one_value { (text : List ℕ) (sources : List (List ℕ × ℕ)) (first second : List (ℕ × List (List Rec)))
        → AreAcceptedInputs text sources first → AreAcceptedInputs text sources second
        → (node : ℕ) → batches_at first node ≡ batches_at second node }
    ensures one_refusal { (text : List ℕ) (sources : List (List ℕ × ℕ)) (first second : Refusal)
        → AreRefusedInputs text sources first → AreRefusedInputs text sources second → first ≡ second }
{}

// Adds what a line gives, or tells the rule that it breaks.
fn read_line(
    alloc: Global,
    text: &[u8],
    line: &Line,
    sources: &SourceNames,
    batches: &mut Batches,
) -> Result<(), ReadFault>
    ensures sound { OnOk result (fault_in text.now sources.now line.now.words batches.old ≡ None) }
    ensures value { OnOk result ((node : ℕ) → batches_at batches.new node
        ≡ batches_at batches.old node
        ++ batches_said_of sources.now (said_in text.now line.now ∷ []) node) }
    ensures broken { IfErr result (IfRefused (λ refusal.
        (fault_in text.now sources.now line.now.words batches.old ≡ Some refusal.code)
        × (refusal.line ≡ line.now.number))) }
{
    let words = line.words.as_slice();
    if let Some(code) = fault(text, words, sources, batches) {
        return Err(ReadFault::Refused(Refusal {
            code,
            line: line.number,
        }));
    }
    take_batch(alloc, text, words, sources, batches)?;
    Ok(())
}

// The rule that a line of these words breaks after these batches.
fn fault(text: &[u8], words: &[Span], sources: &SourceNames, batches: &Batches) -> Option<Code>
    ensures { result ≡ fault_in text.now sources.now words.now batches.now }
{
    match words {
        [] => None,
        [first, name, records @ ..] => {
            batch_fault(text, *first, *name, records, sources, batches)
        }
        _ => Some(Code::I1),
    }
}

// The rule that a batch line breaks, by its first word, its name and its record words.
fn batch_fault(
    text: &[u8],
    first: Span,
    name: Span,
    records: &[Span],
    sources: &SourceNames,
    batches: &Batches,
) -> Option<Code>
    ensures { result ≡ option_or
        (spec.form_fault (bytes_at text.now first) (bytes_at text.now name)
        (words_at text.now records.now))
        (spec.value_fault (node_named sources.now (bytes_at text.now name))
        (words_at text.now records.now)
        (batch_count_at batches.now (node_named sources.now (bytes_at text.now name)))) }
{
    match form_fault(text, first, name, records) {
        Some(code) => Some(code),
        None => value_fault(text, name, records, sources, batches),
    }
}

// The rule of form that a line breaks.
fn form_fault(text: &[u8], first: Span, name: Span, records: &[Span]) -> Option<Code>
    ensures { result ≡ spec.form_fault (bytes_at text.now first) (bytes_at text.now name)
        (words_at text.now records.now) }
{
    if is_batch(first.of(text)) && is_name(name.of(text)) {
        words_fault(text, records)
    } else {
        Some(Code::I1)
    }
}

fn is_batch(word: &[u8]) -> bool
    ensures { result ≡ bytes_eq word.now (codes "batch") }
{
    word == b"batch".as_slice()
}

// The first rule that record words break.
fn words_fault(text: &[u8], words: &[Span]) -> Option<Code>
    ensures { result ≡ spec.words_fault (words_at text.now words.now) }
{
    for word in words {
        if let RecordWord::Broken(code) = read_record(word.of(text)) {
            return Some(code);
        }
    }
    None
}

// The rule that a line of a good form breaks.
fn value_fault(
    text: &[u8],
    name: Span,
    records: &[Span],
    sources: &SourceNames,
    batches: &Batches,
) -> Option<Code>
    ensures { result ≡ spec.value_fault (node_named sources.now (bytes_at text.now name))
        (words_at text.now records.now)
        (batch_count_at batches.now (node_named sources.now (bytes_at text.now name))) }
{
    let Some(node) = sources.node_spelled(name.of(text)) else {
        return Some(Code::I2);
    };
    if has_large(text, records) {
        return Some(Code::I3);
    }
    if batches.count(node) >= BATCH_LIMIT {
        return Some(Code::I5);
    }
    None
}

// Whether a record word has a number that is too large.
fn has_large(text: &[u8], words: &[Span]) -> bool
    ensures { result
        ≡ list_any (λ word. spec.has_large_number (record_said (bytes_at text.now word))) words.now }
{
    words
        .iter()
        .any(|word| read_record(word.of(text)).is_large())
}

// Adds the batch of a line that breaks no rule.
fn take_batch(
    alloc: Global,
    text: &[u8],
    words: &[Span],
    sources: &SourceNames,
    batches: &mut Batches,
) -> Result<(), AllocError>
    ensures { OnOk result ((node : ℕ) → batches_at batches.new node ≡ batches_at batches.old node
        ++ (if spec.is_batch_of_words sources.now node (words_at text.now words.now)
        then spec.batch_of (words_at text.now words.now) ∷ [] else [])) }
{
    if let [_, name, records @ ..] = words {
        if let Some(node) = sources.node_spelled(name.of(text)) {
            batches.push(node, batch(alloc, text, records)?)?;
        }
    }
    Ok(())
}

// The bag of the recs that record words spell.
fn batch(alloc: Global, text: &[u8], words: &[Span]) -> Result<Bag, AllocError>
    ensures recs { IfOk result (λ bag. bag.recs
        ≡ bag_sum (filter_map (λ word. spelled_rec (record_said word)) (words_at text.now words.now)) []) }
    ensures batch { IfOk result (λ bag. IsBatch bag.recs) }
{
    let mut batch = Bag::new(alloc);
    for word in words {
        add_record(&mut batch, read_record(word.of(text)))?;
    }
    Ok(batch)
}

// Adds the rec of a record word, if it spells one.
fn add_record(batch: &mut Bag, word: RecordWord) -> Result<(), AllocError>
    ensures { OnOk result
        (batch.new.recs
        ≡ option_map_or (λ rec. with_rec rec batch.old.recs) (spelled_rec word) batch.old.recs) }
{
    if let RecordWord::Sound(rec) = word {
        batch.add(rec)?;
    }
    Ok(())
}
