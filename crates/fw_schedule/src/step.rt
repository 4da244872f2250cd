//! The steps that the words of lines spell.
ghost use Rattle.std.specs.Prelude.{◌≡◌, true, [], ◌∷◌, Some, IfOk, IfSome};
ghost use Rattle.std.specs.Option.{option_map, option_map_or};
ghost use Rattle.std.specs.Str.{bytes_eq};
ghost use Rattle.fw_lines.specs.Lines.{bytes_at, words_at};
ghost use Rattle.fw_schedule.specs.Names.{edge_named, node_with_name};
ghost use Rattle.fw_schedule.specs.Stamps as stamps;
ghost use Rattle.fw_schedule.specs.Steps as spec;
ghost use Rattle.fw_schedule.specs.Steps.{told_stamp};

use crate::coordinates::{is_stamp, stamp_up_to};
use crate::names::{are_names, nodes_named, output_named, source_named};
use fw_flow::{Flow, Step, is_full_name};
use fw_lines::{Code, Span};
use fw_time::{Bounds, Stamp};
use std::alloc::{AllocError, Global};

/// The step that a verb and the words behind it spell, or the first rule that they break.
pub fn step_of(
    alloc: Global,
    text: &[u8],
    verb: &[u8],
    words: &[Span],
    flow: &Flow,
) -> Result<Result<Step, Code>, AllocError>
    ensures { IfOk result (λ step. step ≡ spec.step_of flow.now verb.now (words_at text.now words.now)) }
{
    if is_word(verb, b"fail") {
        failure(alloc, text, words, flow)
    } else {
        Ok(short_step(text, verb, words, flow))
    }
}

// The failure of the nodes that words name, or the rule that they break.
fn failure(
    alloc: Global,
    text: &[u8],
    words: &[Span],
    flow: &Flow,
) -> Result<Result<Step, Code>, AllocError>
    ensures { IfOk result (λ step. step ≡ spec.failure_of flow.now (words_at text.now words.now)) }
{
    if !are_names(text, words) {
        return Ok(Err(Code::S1));
    }
    match nodes_named(alloc, text, words, flow)? {
        Some(nodes) => Ok(Ok(Step::Fail(nodes))),
        None => Ok(Err(Code::S2)),
    }
}

// The step of a line of a verb and at most a name and a stamp, or the rule that it breaks.
fn short_step(text: &[u8], verb: &[u8], words: &[Span], flow: &Flow) -> Result<Step, Code>
    ensures { result ≡ spec.short_step flow.now verb.now (words_at text.now words.now) }
{
    match words {
        [] => lone_step(verb),
        [name] => step_of_name(text, verb, *name, flow),
        [name, at, stamp] => step_of_stamp(text, verb, *name, *at, *stamp, flow),
        _ => Err(Code::S1),
    }
}

// The step of a line of a verb and a word.
fn step_of_name(text: &[u8], verb: &[u8], name: Span, flow: &Flow) -> Result<Step, Code>
    ensures { result ≡ spec.short_step flow.now verb.now (bytes_at text.now name ∷ []) }
{
    if is_full_name(name.of(text)) {
        named_step(text, verb, name, flow)
    } else {
        Err(Code::S1)
    }
}

// The step of a line of a verb and three words.
fn step_of_stamp(
    text: &[u8],
    verb: &[u8],
    name: Span,
    at: Span,
    stamp: Span,
    flow: &Flow,
) -> Result<Step, Code>
    ensures { result ≡ spec.short_step flow.now verb.now
        (bytes_at text.now name ∷ bytes_at text.now at ∷ bytes_at text.now stamp ∷ []) }
{
    if is_name_at_stamp(text, name, at, stamp) {
        stamped_step(text, verb, name, Some(stamp), flow)
    } else {
        Err(Code::S1)
    }
}

// Whether these words are a name, `at` and a stamp.
fn is_name_at_stamp(text: &[u8], name: Span, at: Span, stamp: Span) -> bool
    ensures value { result ≡ spec.is_name_at_stamp (bytes_at text.now name) (bytes_at text.now at)
        (bytes_at text.now stamp) }
    ensures spelled { result ≡ true → stamps.is_stamp (bytes_at text.now stamp) ≡ true }
{
    is_full_name(name.of(text)) && is_word(at.of(text), b"at") && is_stamp(stamp.of(text))
}

// The step of a line of one word.
fn lone_step(verb: &[u8]) -> Result<Step, Code>
    ensures { result ≡ spec.lone_step verb.now }
{
    if is_word(verb, b"progress") {
        Ok(Step::Progress)
    } else if is_word(verb, b"persist") {
        Ok(Step::Persist)
    } else if is_word(verb, b"recover") {
        Ok(Step::Recover)
    } else if is_word(verb, b"collect") {
        Ok(Step::Collect)
    } else {
        Err(Code::S1)
    }
}

// The step of a line of a verb and a name.
fn named_step(text: &[u8], verb: &[u8], name: Span, flow: &Flow) -> Result<Step, Code>
    ensures { result ≡ spec.named_step flow.now verb.now (bytes_at text.now name) }
{
    if is_word(verb, b"inject") {
        source_named(name.of(text), flow)
            .map(Step::Inject)
            .ok_or(Code::S2)
    } else if is_word(verb, b"checkpoint") {
        flow.node_spelled(name.of(text))
            .map(Step::Checkpoint)
            .ok_or(Code::S2)
    } else if is_word(verb, b"ack") {
        output_named(name.of(text), flow)
            .map(Step::Ack)
            .ok_or(Code::S2)
    } else {
        stamped_step(text, verb, name, None, flow)
    }
}

// The step of a line of a verb and a name, and perhaps a stamp.
fn stamped_step(
    text: &[u8],
    verb: &[u8],
    name: Span,
    stamp: Option<Span>,
    flow: &Flow,
) -> Result<Step, Code>
    requires { IfSome stamp (λ word. stamps.is_stamp (bytes_at text.now word) ≡ true) }
    ensures { result ≡ spec.stamped_step flow.now verb.now (bytes_at text.now name)
        (option_map (bytes_at text.now) stamp) }
{
    if is_word(verb, b"deliver") {
        delivery(text, name, stamp, flow)
    } else if is_word(verb, b"notify") {
        notification(text, name, stamp, flow)
    } else {
        Err(Code::S1)
    }
}

// The delivery on the edge with a name, or the rule that is broken.
fn delivery(text: &[u8], name: Span, stamp: Option<Span>, flow: &Flow) -> Result<Step, Code>
    requires { IfSome stamp (λ word. stamps.is_stamp (bytes_at text.now word) ≡ true) }
    ensures { result ≡ option_map_or (spec.delivery_on flow.now (option_map (bytes_at text.now) stamp))
        (edge_named flow.now (bytes_at text.now name)) (Err Code.S2) }
{
    let Some(edge) = flow.edge_spelled(name.of(text)) else {
        return Err(Code::S2);
    };
    match told(text, stamp, &flow.domain(flow.dst(edge))) {
        Some(at) => Ok(Step::Deliver(edge, at)),
        None => Err(Code::S3),
    }
}

// The notification of the node with a name, or the rule that is broken.
fn notification(text: &[u8], name: Span, stamp: Option<Span>, flow: &Flow) -> Result<Step, Code>
    requires { IfSome stamp (λ word. stamps.is_stamp (bytes_at text.now word) ≡ true) }
    ensures { result ≡ option_map_or (spec.notification_of flow.now (option_map (bytes_at text.now) stamp))
        (node_with_name flow.now (bytes_at text.now name)) (Err Code.S2) }
{
    let Some(node) = flow.node_spelled(name.of(text)) else {
        return Err(Code::S2);
    };
    match told(text, stamp, &flow.domain(node)) {
        Some(at) => Ok(Step::Notify(node, at)),
        None => Err(Code::S3),
    }
}

// The stamp that a line tells, or none where it tells none; nothing where it lies outside the domain.
fn told(text: &[u8], stamp: Option<Span>, bounds: &Bounds) -> Option<Option<Stamp>>
    requires { IfSome stamp (λ word. stamps.is_stamp (bytes_at text.now word) ≡ true) }
    ensures { result ≡ told_stamp bounds.now (option_map (bytes_at text.now) stamp) }
{
    match stamp {
        None => Some(None),
        Some(word) => {
            let at = stamp_up_to(word.of(text), &bounds.greatest)?;
            at.in_domain(bounds).then_some(Some(at))
        }
    }
}

/// Whether the word is this one.
pub fn is_word(word: &[u8], expected: &[u8]) -> bool
    ensures { result ≡ bytes_eq word.now expected.now }
{
    word == expected
}
