//! A node that is split, or is not.
ghost use Rattle.std.specs.Prelude.{◌≡◌, ◌++◌, ◌∷◌, ℕ, List, length, codes, IfOk, IfNone, IfSome};
ghost use Rattle.fw_lines.specs.Lines.{bytes_at};
ghost use Rattle.fw_flow_text.specs.Grammar as grammar;
ghost use Rattle.fw_flow_text.specs.Grammar.{Finds, capped_words};
ghost use Rattle.fw_flow_text.specs.Spelled.{AreSplitWords, IsAroundSplit};

use crate::node::{NodeForm, node_form};
use crate::words::{capped, numeral};
use fw_lines::Span;
use std::alloc::{AllocError, Global};

// The form of a node, from the word of its kind on, and the number by which it is split, if it is.
pub(crate) fn split_form(
    alloc: Global,
    text: &[u8],
    kind: &[u8],
    rest: &[Span],
) -> Result<Option<(NodeForm, Option<u64>)>, AllocError>
    ensures { IfOk result (Finds (λ found. AreSplitWords kind.now (capped_words text.now rest.now) found.0 found.1)) }
{
    if let Some((before, number, policy)) = around_split(text, rest) {
        return split_by(alloc, text, kind, before, capped(text, number), policy);
    }
    let Some(form) = node_form(alloc, text, kind, rest)? else {
        return Ok(None);
    };
    Ok(Some((form, None)))
}

// The words before `split`, that behind it, and the last two, where it is the fourth word from the end.
fn around_split<'a>(text: &[u8], words: &'a [Span]) -> Option<(&'a [Span], Span, &'a [Span])>
    ensures found { IfSome result (λ found. IsAroundSplit (capped_words text.now words.now)
        (capped_words text.now found.0.now) (grammar.capped (bytes_at text.now found.1)) (capped_words text.now found.2.now)) }
    ensures none { IfNone result ((before policy : List (List ℕ)) (number : List ℕ)
        → IsAroundSplit (capped_words text.now words.now) before number policy → ⊥) }
{
    let place = words.len().checked_sub(4)?;
    if capped(text, words[place]) != b"split".as_slice() {
        return None;
    }
    Some((&words[..place], words[place + 1], &words[place + 2..]))
}

// The form that the words have without `split` and this number, of a kind that may be split.
fn split_by(
    alloc: Global,
    text: &[u8],
    kind: &[u8],
    before: &[Span],
    number: &[u8],
    policy: &[Span],
) -> Result<Option<(NodeForm, Option<u64>)>, AllocError>
    requires { length (capped_words text.now policy.now) ≡ 2 }
    ensures { IfOk result (Finds (λ found. AreSplitWords kind.now
        (capped_words text.now before.now ++ codes "split" ∷ number.now ∷ capped_words text.now policy.now) found.0 found.1)) }
{
    let Some(number) = numeral(number) else {
        return Ok(None);
    };
    let mut words = Vec::from_slice(alloc, before)?;
    words.extend_from_slice(policy)?;
    let Some(form) = node_form(alloc, text, kind, &words)? else {
        return Ok(None);
    };
    if !form.kind.may_split() {
        return Ok(None);
    }
    Ok(Some((form, Some(number))))
}
