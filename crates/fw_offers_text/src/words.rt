//! Words of lines, and what is found where they begin.
ghost use Rattle.std.specs.Prelude.{◌≡◌, ◌<◌, ◌==◌, true, not, length, Some, None, if◌then◌else◌};
ghost use Rattle.std.specs.List.{list_any, list_all, position_or_len, prefix_len};
ghost use Rattle.std.specs.Str.{bytes_eq};
ghost use Rattle.fw_lines.specs.Inputs.{is_colon};
ghost use Rattle.fw_lines.specs.Lines.{bytes_at, words_at};
ghost use Rattle.fw_schedule.specs.Stamps as stamps;
ghost use Rattle.fw_offers_text.specs.Forms as spec;
ghost use Rattle.fw_offers_text.specs.Words as spelled;

use fw_flow::is_full_name;
use fw_lines::Span;
use fw_schedule::{is_numeral, is_stamp};
use std::marker::Model;

/// The byte between an epoch and a number.
const COLON: u8 = b':';

/// A word of a text. Contracts see its bytes.
#[derive(Drop)]
pub struct Word<'a> {
    bytes: &'a [u8],
}

impl<'a> Model for Word<'a> {
    ghost use Rattle.std.specs.Prelude.{ℕ, List};

    ghost Value = { List ℕ };

    ghost view = { λ word. word.bytes.now };
}

impl<'a> Word<'a> {
    /// The word that a part of a text is.
    pub(crate) fn of(text: &'a [u8], span: Span) -> Self
        ensures { result ≡ bytes_at text.now span }
    {
        Word {
            bytes: span.of(text),
        }
    }

    /// Its bytes.
    pub(crate) fn bytes(&self) -> &'a [u8]
        ensures { result.now ≡ self.now }
    {
        self.bytes
    }
}

/// Words of a line, as parts of its text. Contracts see the bytes of each.
#[derive(Drop)]
pub struct Words<'a> {
    pub(crate) text: &'a [u8],
    pub(crate) spans: &'a [Span],
}

impl<'a> Model for Words<'a> {
    ghost use Rattle.std.specs.Prelude.{ℕ, List};
    ghost use Rattle.fw_lines.specs.Lines.{words_at};

    ghost Value = { List (List ℕ) };

    ghost view = { λ words. words_at words.text.now words.spans.now };
}

impl<'a> Words<'a> {
    /// The words that these parts of a text are.
    pub(crate) fn of(text: &'a [u8], spans: &'a [Span]) -> Self
        ensures { result ≡ words_at text.now spans.now }
    {
        Words { text, spans }
    }

    /// Whether there is none.
    pub(crate) fn is_empty(&self) -> bool
        ensures { result ≡ (length self.now == 0) }
    {
        self.spans.is_empty()
    }
}

/// Words that are stamps. Contracts see the bytes of each.
#[derive(Drop)]
pub struct StampWords<'a> {
    pub(crate) text: &'a [u8],
    pub(crate) spans: &'a [Span],
}

impl<'a> Model for StampWords<'a> {
    ghost use Rattle.std.specs.Prelude.{◌≡◌, ℕ, List, true};
    ghost use Rattle.std.specs.List.{list_all};
    ghost use Rattle.fw_lines.specs.Lines.{words_at};
    ghost use Rattle.fw_schedule.specs.Stamps.{is_stamp};

    ghost Value = { List (List ℕ) };

    ghost view = { λ words. words_at words.text.now words.spans.now };

    ghost invariant = { λ words. list_all is_stamp (words_at words.text.now words.spans.now) ≡ true };
}

/// Words that are an epoch and a number, joined by a colon. Contracts see the bytes of each.
#[derive(Drop)]
pub struct CountWords<'a> {
    pub(crate) text: &'a [u8],
    pub(crate) spans: &'a [Span],
}

impl<'a> Model for CountWords<'a> {
    ghost use Rattle.std.specs.Prelude.{◌≡◌, ℕ, List, true};
    ghost use Rattle.std.specs.List.{list_all};
    ghost use Rattle.fw_lines.specs.Lines.{words_at};
    ghost use Rattle.fw_offers_text.specs.Words.{is_count};

    ghost Value = { List (List ℕ) };

    ghost view = { λ words. words_at words.text.now words.spans.now };

    ghost invariant = { λ words. list_all is_count (words_at words.text.now words.spans.now) ≡ true };
}

impl<'a> Words<'a> {
    /// The words as stamps, if each is one.
    pub(crate) fn stamps(&self) -> Option<StampWords<'a>>
        ensures { result ≡ (if list_all stamps.is_stamp self.now then Some self.now else None) }
    {
        if are_stamps(self.text, self.spans) {
            Some(StampWords {
                text: self.text,
                spans: self.spans,
            })
        } else {
            None
        }
    }

    /// The words as counts, if each is one.
    pub(crate) fn counts(&self) -> Option<CountWords<'a>>
        ensures { result ≡ (if list_all spelled.is_count self.now then Some self.now else None) }
    {
        if are_counts(self.text, self.spans) {
            Some(CountWords {
                text: self.text,
                spans: self.spans,
            })
        } else {
            None
        }
    }
}

// Whether each word is a stamp.
fn are_stamps(text: &[u8], words: &[Span]) -> bool
    ensures { result ≡ list_all (λ word. stamps.is_stamp (bytes_at text.now word)) words.now }
{
    words.iter().all(|word| is_stamp(word.of(text)))
}

// Whether each word is an epoch and a number, joined by a colon.
fn are_counts(text: &[u8], words: &[Span]) -> bool
    ensures { result ≡ list_all (λ word. spelled.is_count (bytes_at text.now word)) words.now }
{
    words.iter().all(|word| is_count(word.of(text)))
}

/// Whether the word is this one.
pub(crate) fn is_word(word: &[u8], expected: &[u8]) -> bool
    ensures { result ≡ bytes_eq word.now expected.now }
{
    word == expected
}

/// The words behind this one, if they begin with it.
pub(crate) fn behind<'a>(expected: &[u8], words: &Words<'a>) -> Option<Words<'a>>
    ensures { result ≡ spelled.behind expected.now words.now }
{
    match words.spans {
        [word, rest @ ..] if is_word(word.of(words.text), expected) => {
            Some(Words::of(words.text, rest))
        }
        _ => None,
    }
}

// Whether a word is two numbers, of any length, joined by a colon.
fn is_count(word: &[u8]) -> bool
    ensures { result ≡ spelled.is_count word.now }
{
    if !word.contains(&COLON) {
        return false;
    }
    let at = colon_place(word);
    is_numeral(&word[..at]) && is_numeral(&word[at + 1..])
}

/// How many bytes stand before the first colon.
pub(crate) fn colon_place(word: &[u8]) -> usize
    requires { list_any is_colon word.now ≡ true }
    ensures place { result ≡ position_or_len is_colon word.now }
    ensures within { result < length word.now }
{
    front_len(word, COLON)
}

// How many bytes stand before the first separator, or all of them.
fn front_len(bytes: &[u8], separator: u8) -> usize
    ensures { result ≡ prefix_len (λ b. not (b == separator)) bytes.now }
{
    bytes.iter().take_while(|byte| **byte != separator).count()
}

/// The name that words begin with, and the words behind it.
pub(crate) fn name_at<'a>(words: &Words<'a>) -> Option<(Word<'a>, Words<'a>)>
    ensures { result ≡ spec.name_at words.now }
{
    let [name, rest @ ..] = words.spans else {
        return None;
    };
    let name = Word::of(words.text, *name);
    if !is_full_name(name.bytes()) {
        return None;
    }
    Some((name, Words::of(words.text, rest)))
}

/// The frontier that words begin with, by its stamps, and the words behind it.
pub(crate) fn front_at<'a>(words: &Words<'a>) -> Option<(StampWords<'a>, Words<'a>)>
    ensures { result ≡ spec.frontier_at words.now }
{
    let [word, rest @ ..] = words.spans else {
        return None;
    };
    let rest = Words::of(words.text, rest);
    if is_word(word.of(words.text), b"all") {
        let none = StampWords {
            text: words.text,
            spans: &[],
        };
        Some((none, rest))
    } else if is_word(word.of(words.text), b"until") {
        stamps_at(&rest)
    } else {
        None
    }
}

// The stamps that words begin with, at least one, and the words behind them.
fn stamps_at<'a>(words: &Words<'a>) -> Option<(StampWords<'a>, Words<'a>)>
    ensures { result ≡ spec.stamps_at words.now }
{
    let count = stamps_before(words.text, words.spans);
    if count == 0 {
        return None;
    }
    let (stamps, rest) = words.spans.split_at(count);
    let stamps = StampWords {
        text: words.text,
        spans: stamps,
    };
    Some((stamps, Words::of(words.text, rest)))
}

// How many words stand before the first that is no stamp.
fn stamps_before(text: &[u8], words: &[Span]) -> usize
    ensures { result ≡ prefix_len (λ word. stamps.is_stamp (bytes_at text.now word)) words.now }
{
    words
        .iter()
        .take_while(|word| is_stamp(word.of(text)))
        .count()
}
