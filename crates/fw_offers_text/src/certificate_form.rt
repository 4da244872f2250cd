//! The forms of the lines of certificates.
ghost use Rattle.std.specs.Prelude.{◌≡◌, ◌∷◌};
ghost use Rattle.fw_offers_text.specs.Forms as spec;

use crate::form::{CauseForm, CertificateForm, CutForm};
use crate::words::{Word, Words, behind, front_at, is_word};
use fw_flow::{Part, is_full_name};
use fw_schedule::is_numeral;

/// The form that the words of a line have.
pub(crate) fn certificate_form<'a>(words: &Words<'a>) -> Option<CertificateForm<'a>>
    ensures { result ≡ spec.certificate_form words.now }
{
    let [verb, second, rest @ ..] = words.spans else {
        return None;
    };
    line_in(
        verb.of(words.text),
        Word::of(words.text, *second),
        &Words::of(words.text, rest),
    )
}

// The form of a line by its first two words and those behind them.
fn line_in<'a>(verb: &[u8], second: Word<'a>, words: &Words<'a>) -> Option<CertificateForm<'a>>
    ensures { result ≡ spec.line_in verb.now second.entry words.now }
{
    if is_word(verb, b"certificate") {
        if is_numeral(second.bytes()) {
            end_in(second, words)
        } else {
            None
        }
    } else if is_full_name(second.bytes()) {
        certificate_in(verb, second, words)
    } else {
        None
    }
}

// The form of a line of a node, by its verb.
fn certificate_in<'a>(verb: &[u8], name: Word<'a>, words: &Words<'a>) -> Option<CertificateForm<'a>>
    ensures { result ≡ spec.certificate_in verb.now name.entry words.now }
{
    if is_word(verb, b"cut") {
        cut_in(name, words)
    } else if is_word(verb, b"down") {
        down_in(name, words)
    } else if is_word(verb, b"none") {
        let by = perhaps_by_in(words)?;
        Some(CertificateForm::NoneLeft { name, by })
    } else {
        None
    }
}

// The last line: a number, and `yes` or `none`.
fn end_in<'a>(count: Word<'a>, words: &Words<'a>) -> Option<CertificateForm<'a>>
    ensures { result ≡ spec.end_in count.entry words.now }
{
    let [word] = words.spans else {
        return None;
    };
    if is_word(word.of(words.text), b"yes") {
        Some(CertificateForm::End {
            count,
            at_choice: true,
        })
    } else if is_word(word.of(words.text), b"none") {
        Some(CertificateForm::End {
            count,
            at_choice: false,
        })
    } else {
        None
    }
}

// The cut that words begin with, and the words behind it.
fn cut_at<'a>(words: &Words<'a>) -> Option<(CutForm<'a>, Words<'a>)>
    ensures { result ≡ spec.cut_at words.now }
{
    let [first, rest @ ..] = words.spans else {
        return None;
    };
    if is_word(first.of(words.text), b"present") {
        return Some((CutForm::Present, Words::of(words.text, rest)));
    }
    let (stamps, rest) = front_at(words)?;
    Some((CutForm::At(stamps), rest))
}

// A line of a cut.
fn cut_in<'a>(name: Word<'a>, words: &Words<'a>) -> Option<CertificateForm<'a>>
    ensures { result ≡ spec.cut_in name.entry words.now }
{
    let (cut, rest) = cut_at(words)?;
    if rest.is_empty() {
        Some(CertificateForm::Cut { name, cut })
    } else {
        None
    }
}

// A line of a lowering: which value, to what it is lowered, and why.
fn down_in<'a>(name: Word<'a>, words: &Words<'a>) -> Option<CertificateForm<'a>>
    ensures { result ≡ spec.down_in name.entry words.now }
{
    let [word, rest @ ..] = words.spans else {
        return None;
    };
    let part = part_in(word.of(words.text))?;
    lowering_in(name, part, &Words::of(words.text, rest))
}

// The lowering of a value: a cut, `by` and a cause.
fn lowering_in<'a>(name: Word<'a>, part: Part, words: &Words<'a>) -> Option<CertificateForm<'a>>
    ensures { result ≡ spec.lowering_in name.entry part words.now }
{
    let (to, rest) = cut_at(words)?;
    let by = by_in(&rest)?;
    Some(CertificateForm::Down { name, part, to, by })
}

// Which of a node's values a word names.
fn part_in(word: &[u8]) -> Option<Part>
    ensures { result ≡ spec.part_in word.now }
{
    if is_word(word, b"cut") {
        Some(Part::Cut)
    } else if is_word(word, b"note") {
        Some(Part::Note)
    } else {
        None
    }
}

// `by` and a cause, or nothing.
fn perhaps_by_in<'a>(words: &Words<'a>) -> Option<Option<CauseForm<'a>>>
    ensures { result ≡ spec.perhaps_by_in words.now }
{
    if words.is_empty() {
        return Some(None);
    }
    let by = by_in(words)?;
    Some(Some(by))
}

// `by` and a cause.
fn by_in<'a>(words: &Words<'a>) -> Option<CauseForm<'a>>
    ensures { result ≡ spec.by_in words.now }
{
    cause_in(&behind(b"by", words)?)
}

// A cause: a word, or a word and the name of an edge.
fn cause_in<'a>(words: &Words<'a>) -> Option<CauseForm<'a>>
    ensures { result ≡ spec.cause_in words.now }
{
    match words.spans {
        [word] => lone_cause(word.of(words.text)),
        [word, name] => named_cause(word.of(words.text), Word::of(words.text, *name)),
        _ => None,
    }
}

// The cause that a word is.
fn lone_cause<'a>(word: &[u8]) -> Option<CauseForm<'a>>
    ensures { result ≡ spec.lone_cause word.now }
{
    if is_word(word, b"notified") {
        Some(CauseForm::Notified)
    } else if is_word(word, b"own") {
        Some(CauseForm::Own)
    } else {
        None
    }
}

// The cause that a word and a name are.
fn named_cause<'a>(word: &[u8], name: Word<'a>) -> Option<CauseForm<'a>>
    ensures { result ≡ spec.named_cause word.now name.entry }
{
    if !is_full_name(name.bytes()) {
        return None;
    }
    if is_word(word, b"delivered") {
        Some(CauseForm::Delivered(name))
    } else if is_word(word, b"discarded") {
        Some(CauseForm::Discarded(name))
    } else if is_word(word, b"note") {
        Some(CauseForm::Note(name))
    } else {
        None
    }
}
