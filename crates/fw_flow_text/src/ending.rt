//! How lines end: the loop of a node, its policy, the loop in which a loop is.
ghost use Rattle.std.specs.Prelude.{◌≡◌, ◌∷◌, [], codes, IfOk, IfSome};
ghost use Rattle.fw_flow.specs.KindText.{policy_text};
ghost use Rattle.fw_flow_text.specs.Grammar.{Finds, capped_words};
ghost use Rattle.fw_flow_text.specs.Spelled.{policy_words, ending_words, parent_words, IsName};

use crate::words::capped;
use fw_flow::{Name, Policy};
use fw_lines::Span;
use std::alloc::{AllocError, Global};

// The loop, if one is named, and the policy whose words these are.
pub(crate) fn ending(
    alloc: Global,
    text: &[u8],
    words: &[Span],
) -> Result<Option<(Option<Name>, Policy)>, AllocError>
    ensures { IfOk result (Finds (λ end.
        (capped_words text.now words.now ≡ ending_words end.0 end.1) × IfSome end.0 IsName)) }
{
    match words {
        [head, word] => Ok(ending_outside(capped(text, *head), capped(text, *word))),
        [before, name, head, word] => ending_within(
            alloc,
            capped(text, *before),
            capped(text, *name),
            capped(text, *head),
            capped(text, *word),
        ),
        _ => Ok(None),
    }
}

// No loop, and the policy whose words these are.
fn ending_outside(head: &[u8], word: &[u8]) -> Option<(Option<Name>, Policy)>
    ensures { Finds (λ end. (head.now ∷ word.now ∷ [] ≡ ending_words end.0 end.1) × IfSome end.0 IsName) result }
{
    let policy = policy(head, word)?;
    Some((None, policy))
}

// The loop and the policy whose words these are.
fn ending_within(
    alloc: Global,
    before: &[u8],
    name: &[u8],
    head: &[u8],
    word: &[u8],
) -> Result<Option<(Option<Name>, Policy)>, AllocError>
    ensures { IfOk result (Finds (λ end.
        (before.now ∷ name.now ∷ head.now ∷ word.now ∷ [] ≡ ending_words end.0 end.1) × IfSome end.0 IsName)) }
{
    if before != b"loop".as_slice() {
        return Ok(None);
    }
    let Some(policy) = policy(head, word) else {
        return Ok(None);
    };
    let Some(name) = Name::from_bytes(alloc, name)? else {
        return Ok(None);
    };
    Ok(Some((Some(name), policy)))
}

// The policy whose words these are.
pub(crate) fn policy(head: &[u8], word: &[u8]) -> Option<Policy>
    ensures { Finds (λ policy. head.now ∷ word.now ∷ [] ≡ policy_words policy) result }
{
    if head != b"policy".as_slice() {
        return None;
    }
    policy_named(word)
}

// The policy whose word this is.
fn policy_named(word: &[u8]) -> Option<Policy>
    ensures { Finds (λ policy. word.now ≡ policy_text policy) result }
{
    if word == b"none".as_slice() {
        Some(Policy::None)
    } else if word == b"lazy".as_slice() {
        Some(Policy::Lazy)
    } else if word == b"logged".as_slice() {
        Some(Policy::Logged)
    } else if word == b"eager".as_slice() {
        Some(Policy::Eager)
    } else if word == b"full".as_slice() {
        Some(Policy::Full)
    } else {
        None
    }
}

// The parent of a loop, if one is named, whose words these are.
pub(crate) fn parent_at_end(
    alloc: Global,
    text: &[u8],
    words: &[Span],
) -> Result<Option<Option<Name>>, AllocError>
    ensures { IfOk result (Finds (λ parent.
        (capped_words text.now words.now ≡ parent_words parent) × IfSome parent IsName)) }
{
    match words {
        [] => Ok(Some(None)),
        [head, name] => parent_named(alloc, capped(text, *head), capped(text, *name)),
        _ => Ok(None),
    }
}

// The parent whose words these are.
fn parent_named(alloc: Global, head: &[u8], name: &[u8]) -> Result<Option<Option<Name>>, AllocError>
    ensures { IfOk result (Finds (λ parent.
        (head.now ∷ name.now ∷ [] ≡ parent_words parent) × IfSome parent IsName)) }
{
    if head != b"in".as_slice() {
        return Ok(None);
    }
    let Some(name) = Name::from_bytes(alloc, name)? else {
        return Ok(None);
    };
    Ok(Some(Some(name)))
}
