//! The forms of a node.
ghost use Rattle.std.specs.Prelude.{◌≡◌, ◌≢◌, ◌≤◌, ◌∷◌, [], length, codes, IfOk};
ghost use Rattle.fw_flow_text.specs.Grammar.{Finds, capped_words};
ghost use Rattle.fw_flow_text.specs.Spelled.{AreNodeWords, policy_words, IsName};

use crate::ending::{ending, policy};
use crate::select::selection;
use crate::words::{capped, numeral};
use fw_flow::{Kind, Name, Policy, RawKind};
use fw_lines::Span;
use std::alloc::{AllocError, Global};

/// What a node's line says behind the node's name.
#[derive(Debug, Drop)]
pub(crate) struct NodeForm {
    pub(crate) kind: RawKind,
    pub(crate) policy: Policy,
}

fn form(kind: RawKind, policy: Policy) -> Option<NodeForm>
    ensures { result ≡ Some (record { kind = kind; policy = policy }) }
{
    Some(NodeForm { kind, policy })
}

// The form of a node, from the word of its kind on. How many words follow tells which kinds it can be.
pub(crate) fn node_form(
    alloc: Global,
    text: &[u8],
    kind: &[u8],
    rest: &[Span],
) -> Result<Option<NodeForm>, AllocError>
    ensures { IfOk result (Finds (AreNodeWords kind.now (capped_words text.now rest.now))) }
{
    match rest {
        [] => Ok(input(kind)),
        [domain] => Ok(output(kind, capped(text, *domain))),
        [head, word] => Ok(bare(kind, capped(text, *head), capped(text, *word))),
        [operand, head, word] => with_operand(
            alloc,
            kind,
            capped(text, *operand),
            capped(text, *head),
            capped(text, *word),
        ),
        [before, name, head, word] => in_loop(
            alloc,
            kind,
            capped(text, *before),
            capped(text, *name),
            capped(text, *head),
            capped(text, *word),
        ),
        _ => select(alloc, text, kind, rest),
    }
}

// Nothing follows `input`.
fn input(kind: &[u8]) -> Option<NodeForm>
    ensures { Finds (AreNodeWords kind.now []) result }
{
    if kind != b"input".as_slice() {
        return None;
    }
    form(Kind::Input, Policy::None)
}

// The domain follows `output`.
fn output(kind: &[u8], domain: &[u8]) -> Option<NodeForm>
    ensures { Finds (AreNodeWords kind.now (domain.now ∷ [])) result }
{
    if kind != b"output".as_slice() {
        return None;
    }
    if domain == b"epoch".as_slice() {
        form(Kind::OutputEpoch, Policy::None)
    } else if domain == b"number".as_slice() {
        form(Kind::OutputNumber, Policy::None)
    } else {
        None
    }
}

// The policy alone follows the word of the kind.
fn bare(kind: &[u8], head: &[u8], word: &[u8]) -> Option<NodeForm>
    ensures { Finds (AreNodeWords kind.now (head.now ∷ word.now ∷ [])) result }
{
    let policy = policy(head, word)?;
    bare_kind(kind, policy)
}

// The kind of a word behind which this policy stands alone.
fn bare_kind(word: &[u8], policy: Policy) -> Option<NodeForm>
    ensures { Finds (AreNodeWords word.now (policy_words policy)) result }
{
    if word == b"concat".as_slice() {
        form(Kind::Concat { within: None }, policy)
    } else if word == b"distinct".as_slice() {
        form(Kind::Distinct { within: None }, policy)
    } else if word == b"join".as_slice() {
        form(Kind::Join { within: None }, policy)
    } else if word == b"sum".as_slice() {
        form(Kind::Sum { within: None }, policy)
    } else if word == b"total".as_slice() {
        form(Kind::Total, policy)
    } else if word == b"sequence".as_slice() {
        form(Kind::Sequence, policy)
    } else if word == b"ledger".as_slice() {
        form(Kind::Ledger, policy)
    } else {
        None
    }
}

// A loop or a number, and the policy follow the word of the kind.
fn with_operand(
    alloc: Global,
    kind: &[u8],
    operand: &[u8],
    head: &[u8],
    word: &[u8],
) -> Result<Option<NodeForm>, AllocError>
    ensures { IfOk result (Finds (AreNodeWords kind.now (operand.now ∷ head.now ∷ word.now ∷ []))) }
{
    let Some(policy) = policy(head, word) else {
        return Ok(None);
    };
    if kind == b"regroup".as_slice() {
        return Ok(regroup(operand, policy));
    }
    let Some(name) = Name::from_bytes(alloc, operand)? else {
        return Ok(None);
    };
    Ok(leading(kind, name, policy))
}

// The regroup by so many numbers.
fn regroup(number: &[u8], policy: Policy) -> Option<NodeForm>
    ensures { Finds (AreNodeWords (codes "regroup") (number.now ∷ policy_words policy)) result }
{
    let size = numeral(number)?;
    form(Kind::Regroup(size), policy)
}

// A kind that leads into the loop of a name, to its next counter, or out of it.
fn leading(word: &[u8], name: Name, policy: Policy) -> Option<NodeForm>
    requires name { IsName name }
    requires other { word.now ≢ codes "regroup" }
    ensures { Finds (AreNodeWords word.now (name ∷ policy_words policy)) result }
{
    if word == b"enter".as_slice() {
        form(Kind::Enter(name), policy)
    } else if word == b"feedback".as_slice() {
        form(Kind::Feedback(name), policy)
    } else if word == b"leave".as_slice() {
        form(Kind::Leave(name), policy)
    } else {
        None
    }
}

// A loop in which the node stands, and the policy follow the word of the kind.
fn in_loop(
    alloc: Global,
    kind: &[u8],
    before: &[u8],
    name: &[u8],
    head: &[u8],
    word: &[u8],
) -> Result<Option<NodeForm>, AllocError>
    ensures { IfOk result (Finds (AreNodeWords kind.now
        (before.now ∷ name.now ∷ head.now ∷ word.now ∷ []))) }
{
    if before != b"loop".as_slice() {
        return Ok(None);
    }
    let Some(policy) = policy(head, word) else {
        return Ok(None);
    };
    let Some(name) = Name::from_bytes(alloc, name)? else {
        return Ok(None);
    };
    Ok(standing(kind, name, policy))
}

// A kind that stands in the loop of a name.
fn standing(word: &[u8], name: Name, policy: Policy) -> Option<NodeForm>
    requires { IsName name }
    ensures { Finds (AreNodeWords word.now (codes "loop" ∷ name ∷ policy_words policy)) result }
{
    let within = Some(name);
    if word == b"concat".as_slice() {
        form(Kind::Concat { within }, policy)
    } else if word == b"distinct".as_slice() {
        form(Kind::Distinct { within }, policy)
    } else if word == b"join".as_slice() {
        form(Kind::Join { within }, policy)
    } else if word == b"sum".as_slice() {
        form(Kind::Sum { within }, policy)
    } else {
        None
    }
}

// A selection, perhaps a loop, and the policy follow `select`.
fn select(
    alloc: Global,
    text: &[u8],
    kind: &[u8],
    words: &[Span],
) -> Result<Option<NodeForm>, AllocError>
    requires { 5 ≤ length words.now }
    ensures { IfOk result (Finds (AreNodeWords kind.now (capped_words text.now words.now))) }
{
    if kind != b"select".as_slice() {
        return Ok(None);
    }
    let Some((selection, rest)) = selection(text, words) else {
        return Ok(None);
    };
    let Some((within, policy)) = ending(alloc, text, rest)? else {
        return Ok(None);
    };
    Ok(Some(NodeForm {
        kind: Kind::Select { selection, within },
        policy,
    }))
}
