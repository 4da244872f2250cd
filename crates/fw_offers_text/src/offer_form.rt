//! The forms of the lines of offers.
ghost use Rattle.std.specs.Prelude.{◌≡◌, IfOk};
ghost use Rattle.fw_offers_text.specs.Forms as spec;

use crate::form::{CoverForm, CoverForms, OfferForm, SideForm};
use crate::words::{StampWords, Word, Words, behind, front_at, is_word, name_at};
use fw_flow::is_full_name;
use std::alloc::{AllocError, Global};

/// The form that the words of a line have.
pub(crate) fn offer_form<'a>(
    alloc: Global,
    words: &Words<'a>,
) -> Result<Option<OfferForm<'a>>, AllocError>
    ensures { IfOk result (λ form. form ≡ spec.offer_form words.now) }
{
    let [verb, name, rest @ ..] = words.spans else {
        return Ok(None);
    };
    let name = Word::of(words.text, *name);
    if !is_full_name(name.bytes()) {
        return Ok(None);
    }
    offer_in(
        alloc,
        verb.of(words.text),
        name,
        &Words::of(words.text, rest),
    )
}

// The form of a line by its verb, its name and the words behind them.
fn offer_in<'a>(
    alloc: Global,
    verb: &[u8],
    name: Word<'a>,
    words: &Words<'a>,
) -> Result<Option<OfferForm<'a>>, AllocError>
    ensures { IfOk result (λ form. form ≡ spec.offer_in verb.now name.entry words.now) }
{
    if is_word(verb, b"node") {
        Ok(node_in(name, words))
    } else if is_word(verb, b"record") {
        record_in(alloc, name, words)
    } else if is_word(verb, b"range") {
        Ok(range_in(name, words))
    } else if is_word(verb, b"count") {
        Ok(counts_in(name, words))
    } else {
        Ok(stamps_in(verb, name, words))
    }
}

// A line of what a node is.
fn node_in<'a>(name: Word<'a>, words: &Words<'a>) -> Option<OfferForm<'a>>
    ensures { result ≡ spec.node_form name.entry words.now }
{
    let present = presence_in(words)?;
    Some(OfferForm::Node { name, present })
}

// What a node is: `present` or `failed`.
fn presence_in(words: &Words<'_>) -> Option<bool>
    ensures { result ≡ spec.presence_in words.now }
{
    let [word] = words.spans else {
        return None;
    };
    if is_word(word.of(words.text), b"present") {
        Some(true)
    } else if is_word(word.of(words.text), b"failed") {
        Some(false)
    } else {
        None
    }
}

// A record of a node: a frontier and covers.
fn record_in<'a>(
    alloc: Global,
    name: Word<'a>,
    words: &Words<'a>,
) -> Result<Option<OfferForm<'a>>, AllocError>
    ensures { IfOk result (λ form. form ≡ spec.record_form name.entry words.now) }
{
    let Some((front, rest)) = front_at(words) else {
        return Ok(None);
    };
    let Some(covers) = covers_in(alloc, rest)? else {
        return Ok(None);
    };
    Ok(Some(OfferForm::Record {
        name,
        front,
        covers,
    }))
}

// The covers that words are, one behind the other.
fn covers_in<'a>(alloc: Global, words: Words<'a>) -> Result<Option<CoverForms<'a>>, AllocError>
    ensures { IfOk result (λ covers. covers ≡ spec.covers_of_words words.entry) }
{
    let mut covers = Vec::new(alloc);
    let mut rest = words;
    while !rest.is_empty() {
        let Some((cover, behind)) = cover_at(&rest) else {
            return Ok(None);
        };
        covers.push(cover)?;
        rest = behind;
    }
    Ok(Some(CoverForms { covers }))
}

// The cover that words begin with, and the words behind it.
fn cover_at<'a>(words: &Words<'a>) -> Option<(CoverForm<'a>, Words<'a>)>
    ensures { result ≡ spec.cover_at words.now }
{
    let (of, rest) = side_at(words)?;
    let (front, rest) = front_at(&rest)?;
    Some((CoverForm { of, front }, rest))
}

// What the cover is of that words begin with, and the words behind it.
fn side_at<'a>(words: &Words<'a>) -> Option<(SideForm<'a>, Words<'a>)>
    ensures { result ≡ spec.side_at words.now }
{
    let [word, rest @ ..] = words.spans else {
        return None;
    };
    let word = word.of(words.text);
    let rest = Words::of(words.text, rest);
    if is_word(word, b"notified") {
        Some((SideForm::Notified, rest))
    } else if is_word(word, b"delivered") {
        let (name, rest) = name_at(&rest)?;
        Some((SideForm::Delivered(name), rest))
    } else if is_word(word, b"discarded") {
        let (name, rest) = name_at(&rest)?;
        Some((SideForm::Discarded(name), rest))
    } else {
        None
    }
}

// A range of a node: `from`, a frontier, and its end.
fn range_in<'a>(name: Word<'a>, words: &Words<'a>) -> Option<OfferForm<'a>>
    ensures { result ≡ spec.range_form name.entry words.now }
{
    let (least, rest) = front_at(&behind(b"from", words)?)?;
    range_to(name, least, &rest)
}

// The end of a range, behind its least frontier: `to` and a frontier, and perhaps `and all`.
fn range_to<'a>(name: Word<'a>, least: StampWords<'a>, words: &Words<'a>) -> Option<OfferForm<'a>>
    ensures { result ≡ spec.range_to name.entry least.entry words.now }
{
    let (greatest, rest) = front_at(&behind(b"to", words)?)?;
    let and_all = and_all_in(&rest)?;
    Some(OfferForm::Range {
        name,
        least,
        greatest,
        and_all,
    })
}

// Whether all is offered above a range: `and all`, or nothing.
fn and_all_in(words: &Words<'_>) -> Option<bool>
    ensures { result ≡ spec.and_all_in words.now }
{
    match words.spans {
        [] => Some(false),
        [and, all] => {
            let is_end = is_word(and.of(words.text), b"and") && is_word(all.of(words.text), b"all");
            is_end.then_some(true)
        }
        _ => None,
    }
}

// A line of counts.
fn counts_in<'a>(name: Word<'a>, words: &Words<'a>) -> Option<OfferForm<'a>>
    ensures { result ≡ spec.counts_form name.entry words.now }
{
    let counts = words.counts()?;
    Some(OfferForm::Counts { name, counts })
}

// A line of stamps.
fn stamps_in<'a>(verb: &[u8], name: Word<'a>, words: &Words<'a>) -> Option<OfferForm<'a>>
    ensures { result ≡ spec.stamps_form verb.now name.entry words.now }
{
    let stamps = words.stamps()?;
    line_of_stamps(verb, name, stamps)
}

// A line of these stamps, by its verb.
fn line_of_stamps<'a>(verb: &[u8], name: Word<'a>, stamps: StampWords<'a>) -> Option<OfferForm<'a>>
    ensures { result ≡ spec.line_of_stamps verb.now name.entry stamps.entry }
{
    if is_word(verb, b"delivered") {
        Some(OfferForm::Delivered { name, stamps })
    } else if is_word(verb, b"sent") {
        Some(OfferForm::Sent { name, stamps })
    } else if is_word(verb, b"notified") {
        Some(OfferForm::Notified { name, stamps })
    } else {
        None
    }
}
