//! What a line declares.
ghost use Rattle.std.specs.Prelude.{◌∷◌, [], codes, IfOk};
ghost use Rattle.fw_flow_text.specs.Grammar.{Finds, AreWordsOf, capped_words};

use crate::ending::parent_at_end;
use crate::split::split_form;
use crate::words::{capped, numeral};
use fw_flow::{Declaration, Name};
use fw_lines::Span;
use std::alloc::{AllocError, Global};

// The declaration whose form the words have.
pub(crate) fn declaration(
    alloc: Global,
    text: &[u8],
    words: &[Span],
) -> Result<Option<Declaration>, AllocError>
    ensures { IfOk result (Finds (AreWordsOf (capped_words text.now words.now))) }
{
    let [first, rest @ ..] = words else {
        return Ok(None);
    };
    let first = capped(text, *first);
    if first == b"node".as_slice() {
        node(alloc, text, rest)
    } else if first == b"edge".as_slice() {
        edge(alloc, text, rest)
    } else if first == b"loop".as_slice() {
        a_loop(alloc, text, rest)
    } else {
        Ok(None)
    }
}

// A node, from its name on.
fn node(alloc: Global, text: &[u8], words: &[Span]) -> Result<Option<Declaration>, AllocError>
    ensures { IfOk result (Finds (AreWordsOf (codes "node" ∷ capped_words text.now words.now))) }
{
    let [name, kind, rest @ ..] = words else {
        return Ok(None);
    };
    let Some(name) = Name::from_bytes(alloc, capped(text, *name))? else {
        return Ok(None);
    };
    let Some((form, split)) = split_form(alloc, text, capped(text, *kind), rest)? else {
        return Ok(None);
    };
    let declaration = Declaration::Node {
        name,
        kind: form.kind,
        policy: form.policy,
        split,
        part: None,
    };
    Ok(Some(declaration))
}

// An edge, from its name on.
fn edge(alloc: Global, text: &[u8], words: &[Span]) -> Result<Option<Declaration>, AllocError>
    ensures { IfOk result (Finds (AreWordsOf (codes "edge" ∷ capped_words text.now words.now))) }
{
    let [name, sender, receiver] = words else {
        return Ok(None);
    };
    edge_of(
        alloc,
        capped(text, *name),
        capped(text, *sender),
        capped(text, *receiver),
    )
}

// The edge of these names, if they are names.
fn edge_of(
    alloc: Global,
    name: &[u8],
    sender: &[u8],
    receiver: &[u8],
) -> Result<Option<Declaration>, AllocError>
    ensures { IfOk result (Finds (AreWordsOf (codes "edge" ∷ name.now ∷ sender.now ∷ receiver.now ∷ []))) }
{
    let Some(name) = Name::from_bytes(alloc, name)? else {
        return Ok(None);
    };
    let Some(sender) = Name::from_bytes(alloc, sender)? else {
        return Ok(None);
    };
    let Some(receiver) = Name::from_bytes(alloc, receiver)? else {
        return Ok(None);
    };
    let declaration = Declaration::Edge {
        name,
        sender,
        receiver,
    };
    Ok(Some(declaration))
}

// A loop, from its name on.
fn a_loop(alloc: Global, text: &[u8], words: &[Span]) -> Result<Option<Declaration>, AllocError>
    ensures { IfOk result (Finds (AreWordsOf (codes "loop" ∷ capped_words text.now words.now))) }
{
    let [name, max, number, rest @ ..] = words else {
        return Ok(None);
    };
    if capped(text, *max) != b"max".as_slice() {
        return Ok(None);
    }
    loop_of(
        alloc,
        text,
        capped(text, *name),
        capped(text, *number),
        rest,
    )
}

// The loop of a name, with its greatest counter, and in another one where words name a parent.
fn loop_of(
    alloc: Global,
    text: &[u8],
    name: &[u8],
    number: &[u8],
    rest: &[Span],
) -> Result<Option<Declaration>, AllocError>
    ensures { IfOk result (Finds (AreWordsOf
        (codes "loop" ∷ name.now ∷ codes "max" ∷ number.now ∷ capped_words text.now rest.now))) }
{
    let Some(name) = Name::from_bytes(alloc, name)? else {
        return Ok(None);
    };
    let Some(max) = numeral(number) else {
        return Ok(None);
    };
    let Some(parent) = parent_at_end(alloc, text, rest)? else {
        return Ok(None);
    };
    let declaration = Declaration::Loop { name, max, parent };
    Ok(Some(declaration))
}
