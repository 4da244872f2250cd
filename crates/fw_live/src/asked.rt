//! The reader of a line of a session.
ghost use Rattle.std.specs.Prelude.{◌≡◌, ◌≤◌, ℕ, List, not, [], ◌∷◌, length, IfOk};
ghost use Rattle.std.specs.List.{prefix_len};
ghost use Rattle.std.specs.Str.{bytes_eq};
ghost use Rattle.fw_lines.specs.Inputs.{AreAcceptedInputs};
ghost use Rattle.fw_lines.specs.Lines.{bytes_at, words_at, said_by, lines_of, is_line_feed};
ghost use Rattle.fw_flow.specs.Sources.{sources_of};
ghost use Rattle.fw_live.specs.Asked as spec;
ghost use Rattle.fw_live.specs.Asked.{line_limit};
ghost use Rattle.fw_live.specs.Reading.{heard_in, change_in};

use crate::rule::LineRule;
use fw_bag::{Bag, Rec};
use fw_flow::{Flow, NodeId};
use fw_lines::{
    Batches, Code, Place, ReadFault, SourceNames, Span, is_name, line_at, read_batches,
};
use fw_schedule::{Schedule, read_schedule};
use std::alloc::{AllocError, Global};

/// The most bytes of a line.
pub const LINE_LIMIT: usize = 1_048_576;

/// What a line does before it takes steps.
#[derive(Drop)]
pub(crate) enum Change {
    /// Nothing.
    Nothing,
    /// It feeds a source a batch of these recs.
    Feed(NodeId, Vec<Rec>),
    /// It closes one.
    Close(NodeId),
    /// It shows where the session stands.
    Show,
}

/// What a line asks for: a change, and then the steps of the first of these items, if there is one.
#[derive(Drop)]
pub(crate) struct Asked {
    pub(crate) change: Change,
    pub(crate) items: Schedule,
}

/// A line without what stands behind its first line feed.
pub(crate) fn first_line(line: &[u8]) -> &[u8]
    ensures line { result.now ≡ spec.first_line line.now }
    ensures one { lines_of result.now ≡ result.now ∷ [] }
{
    &line[..line_end(line)]
}

// Where the first line feed stands, or the end of the line.
fn line_end(line: &[u8]) -> usize
    ensures end { result ≡ prefix_len (λ b. not (is_line_feed b)) line.now }
    ensures within { result ≤ length line.now }
{
    line.iter().take_while(|byte| **byte != b'\n').count()
}

/// What a line asks for, or the first rule that it breaks, judged by itself.
pub(crate) fn read_line(
    alloc: Global,
    line: &[u8],
    flow: &Flow,
    sources: &SourceNames,
) -> Result<Result<Asked, LineRule>, AllocError>
    requires sources { sources.now ≡ sources_of flow.now }
    requires one { lines_of line.now ≡ line.now ∷ [] }
    ensures { IfOk result (λ heard. heard_in heard ≡ spec.asked_in flow.now line.now) }
{
    if line.len() > LINE_LIMIT {
        return Ok(Err(LineRule::Length));
    }
    let (said, _) = line_at(alloc, line, Place::START)?;
    read_words(alloc, line, said.words.as_slice(), flow, sources)
}

// What the words of a line ask for, or the first rule that they break.
fn read_words(
    alloc: Global,
    line: &[u8],
    words: &[Span],
    flow: &Flow,
    sources: &SourceNames,
) -> Result<Result<Asked, LineRule>, AllocError>
    requires sources { sources.now ≡ sources_of flow.now }
    requires one { lines_of line.now ≡ line.now ∷ [] }
    requires short { length line.now ≤ line_limit }
    requires said { words_at line.now words.now ≡ said_by line.now }
    ensures { IfOk result (λ heard. heard_in heard ≡ spec.asked_by flow.now (words_at line.now words.now)) }
{
    match words {
        [] => Ok(Ok(change_alone(alloc, Change::Nothing))),
        [verb, others @ ..] => {
            if is_word(line, *verb, b"batch") {
                read_batch(alloc, line, words, sources)
            } else if is_word(line, *verb, b"close") {
                Ok(read_close(alloc, line, others, sources))
            } else if is_word(line, *verb, b"show") {
                Ok(read_show(alloc, others))
            } else {
                read_item(alloc, line, flow)
            }
        }
    }
}

// A change without steps behind it.
fn change_alone(alloc: Global, change: Change) -> Asked
    ensures { result ≡ record { change = change; items = [] } }
{
    Asked {
        change,
        items: Schedule::new(alloc),
    }
}

// Whether a word of a line is this one.
fn is_word(line: &[u8], word: Span, expected: &[u8]) -> bool
    ensures { result ≡ bytes_eq (bytes_at line.now word) expected.now }
{
    word.of(line) == expected
}

// What a line of inputs asks for, or the first rule that it breaks.
fn read_batch(
    alloc: Global,
    line: &[u8],
    words: &[Span],
    sources: &SourceNames,
) -> Result<Result<Asked, LineRule>, AllocError>
    requires one { lines_of line.now ≡ line.now ∷ [] }
    requires short { length line.now ≤ line_limit }
    requires said { words_at line.now words.now ≡ said_by line.now }
    ensures { IfOk result (λ heard. heard_in heard ≡ spec.feeding_by sources.now (words_at line.now words.now)) }
{
    match read_batches(alloc, line, sources) {
        Ok(batches) => {
            let change = feeding(alloc, line, words, sources, &batches)?;
            Ok(Ok(change_alone(alloc, change)))
        }
        Err(ReadFault::Refused(refusal)) => Ok(Err(LineRule::OfText(refusal.code))),
        Err(ReadFault::NoMemory) => Err(AllocError),
    }
}

// The batch that a line gave to the source that its second word names.
fn feeding(
    alloc: Global,
    line: &[u8],
    words: &[Span],
    sources: &SourceNames,
    batches: &Batches,
) -> Result<Change, AllocError>
    requires accepted { AreAcceptedInputs line.now sources.now batches.now }
    requires one { lines_of line.now ≡ line.now ∷ [] }
    requires said { words_at line.now words.now ≡ said_by line.now }
    ensures { IfOk result (λ change. spec.of_change (change_in change) ≡ spec.feeding_by sources.now (words_at line.now words.now)) }
{
    let [_, name, ..] = words else {
        return Ok(Change::Nothing);
    };
    let Some(node) = sources.node_spelled(name.of(line)) else {
        return Ok(Change::Nothing);
    };
    match batches.of(node) {
        [] => Ok(Change::Nothing),
        [batch, ..] => Ok(Change::Feed(NodeId::at(node), recs_of(alloc, batch)?)),
    }
}

// The recs of a bag, in ascending order.
fn recs_of(alloc: Global, bag: &Bag) -> Result<Vec<Rec>, AllocError>
    ensures { IfOk result (λ recs. recs.items ≡ bag.now.recs) }
{
    let mut recs = Vec::with_capacity(alloc, bag.len())?;
    for rec in bag {
        recs.push(rec)?;
    }
    Ok(recs)
}

// What the words behind `close` ask for, or the rule that they break.
fn read_close(
    alloc: Global,
    line: &[u8],
    words: &[Span],
    sources: &SourceNames,
) -> Result<Asked, LineRule>
    ensures { heard_in result ≡ spec.closing_by sources.now (words_at line.now words.now) }
{
    let [name] = words else {
        return Err(LineRule::OfText(Code::S1));
    };
    if !is_name(name.of(line)) {
        return Err(LineRule::OfText(Code::S1));
    }
    match sources.node_spelled(name.of(line)) {
        Some(node) => Ok(change_alone(alloc, Change::Close(NodeId::at(node)))),
        None => Err(LineRule::OfText(Code::S2)),
    }
}

// What the words behind `show` ask for, or the rule that they break.
fn read_show(alloc: Global, words: &[Span]) -> Result<Asked, LineRule>
    ensures { (line : List ℕ) → heard_in result ≡ spec.showing_by (words_at line words.now) }
{
    match words {
        [] => Ok(change_alone(alloc, Change::Show)),
        _ => Err(LineRule::OfText(Code::S1)),
    }
}

// What a line of a schedule asks for, or the first rule that it breaks.
fn read_item(alloc: Global, line: &[u8], flow: &Flow) -> Result<Result<Asked, LineRule>, AllocError>
    requires one { lines_of line.now ≡ line.now ∷ [] }
    requires short { length line.now ≤ line_limit }
    ensures { IfOk result (λ heard. heard_in heard ≡ spec.stepping_by flow.now (said_by line.now)) }
{
    match read_schedule(alloc, line, flow) {
        Ok(items) => Ok(Ok(Asked {
            change: Change::Nothing,
            items,
        })),
        Err(ReadFault::Refused(refusal)) => Ok(Err(LineRule::OfText(refusal.code))),
        Err(ReadFault::NoMemory) => Err(AllocError),
    }
}
