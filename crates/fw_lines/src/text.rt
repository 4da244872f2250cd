//! How a text falls into lines, and lines into words.
ghost use Rattle.std.specs.Prelude.{◌≡◌, ◌+◌, ◌-◌, ◌^◌, ◌<◌, ◌≤◌, ◌==◌, ◌&&◌, not, nat_lt, [], ◌∷◌, ◌++◌, length, map, IfOk, OnOk, IfSome, slice_range, if◌then◌else◌};
ghost use Rattle.std.specs.List.{slice_split, prefix_len, list_all};
ghost use Rattle.fw_lines.specs.Lines as spec;
ghost use Rattle.fw_lines.specs.Lines.{said_lines, said_in, lines_left, IsPlace, said_by, words_of, bytes_at, is_allowed};

use crate::line::{Line, Lines, Place};
use crate::span::{Span, Spans};
use std::alloc::{AllocError, Global};

/// The byte that ends a line.
const LINE_FEED: u8 = b'\n';

/// The byte that separates words.
const SPACE: u8 = b' ';

/// What each line of a text says, in order: its words, none where the line says nothing.
///
/// A comment with a byte that is not allowed says its words.
pub fn lines(alloc: Global, text: &[u8]) -> Result<Lines, AllocError>
    requires { length text.now < 2 ^ 32 - 1 }
    ensures { IfOk result (λ lines. map (said_in text.now) lines ≡ said_lines text.now) }
{
    let mut items = Vec::new(alloc);
    let mut place = Some(Place::START);
    while let Some(at) = place {
        let (line, next) = line_at(alloc, text, at)?;
        items.push(line)?;
        place = next;
    }
    Ok(Lines { items })
}

/// The line at a place, and the place of the next one, if there is one.
pub fn line_at(
    alloc: Global,
    text: &[u8],
    place: Place,
) -> Result<(Line, Option<Place>), AllocError>
    requires short { length text.now < 2 ^ 32 - 1 }
    requires place { IsPlace text.now place }
    ensures line { IfOk result
        (λ found. lines_left text.now (Some place) ≡ said_in text.now found.0 ∷ lines_left text.now found.1) }
    ensures next { IfOk result (λ found. IfSome found.1 (IsPlace text.now)) }
    ensures later { IfOk result (λ found. IfSome found.1 (λ next. place.from < next.from)) }
{
    let rest = Span {
        from: place.from,
        to: text.len(),
    };
    let to = part_end(text, rest, LINE_FEED);
    let words = said_words(alloc, text, Span { to, ..rest })?;
    let line = Line {
        number: place.passed + 1,
        words: Spans { items: words },
    };
    Ok((line, place_after(text, place, to)))
}

// The place behind the line that ends at `to`, if the text goes on there.
fn place_after(text: &[u8], place: Place, to: usize) -> Option<Place>
    requires from { place.from ≤ to }
    requires within { to ≤ length text.now }
    requires short { length text.now < 2 ^ 32 - 1 }
    requires passed { place.passed ≤ place.from }
    ensures { result ≡ (if to == length text.now then None
        else Some (record { from = to + 1; passed = place.passed + 1 })) }
{
    if to == text.len() {
        return None;
    }
    Some(Place {
        from: to + 1,
        passed: place.passed + 1,
    })
}

// Where the first part of a span ends that a byte separates from the next one.
fn part_end(text: &[u8], span: Span, separator: u8) -> usize
    requires order { span.from ≤ span.to }
    requires within { span.to ≤ length text.now }
    ensures from { span.from ≤ result }
    ensures to { result ≤ span.to }
    ensures last { result ≡ span.to
        → slice_split (λ b. b == separator) (bytes_at text.now span) ≡ bytes_at text.now span ∷ [] }
    ensures more { result < span.to → slice_split (λ b. b == separator) (bytes_at text.now span)
        ≡ slice_range text.now span.from result
        ∷ slice_split (λ b. b == separator) (slice_range text.now (result + 1) span.to) }
{
    span.from + front_len(span.of(text), separator)
}

// How many bytes stand before the first separator, or all of them.
pub(crate) fn front_len(bytes: &[u8], separator: u8) -> usize
    ensures { result ≡ prefix_len (λ b. not (b == separator)) bytes.now }
{
    bytes.iter().take_while(|byte| **byte != separator).count()
}

// What a line says: its words, none where it is a comment of allowed bytes.
#[tactic(auto, unfolding(crate::specs::Lines::said_by))]
fn said_words(alloc: Global, text: &[u8], line: Span) -> Result<Vec<Span>, AllocError>
    requires order { line.from ≤ line.to }
    requires within { line.to ≤ length text.now }
    ensures { IfOk result
        (λ words. map (bytes_at text.now) words.items ≡ said_by (bytes_at text.now line)) }
{
    let words = words(alloc, text, line)?;
    if is_silent(text, line, &words) {
        return Ok(Vec::new(alloc));
    }
    Ok(words)
}

// Whether a line with these words is a comment of allowed bytes.
fn is_silent(text: &[u8], line: Span, words: &[Span]) -> bool
    ensures { result ≡ (spec.is_comment (map (bytes_at text.now) words.now)
        && list_all is_allowed (bytes_at text.now line)) }
{
    is_comment(text, words) && all_allowed(line.of(text))
}

// The words of a line.
fn words(alloc: Global, text: &[u8], line: Span) -> Result<Vec<Span>, AllocError>
    requires order { line.from ≤ line.to }
    requires within { line.to ≤ length text.now }
    ensures { IfOk result
        (λ words. map (bytes_at text.now) words.items ≡ words_of (bytes_at text.now line)) }
{
    let mut words = Vec::new(alloc);
    let mut from = Some(line.from);
    while let Some(at) = from {
        let to = part_end(
            text,
            Span {
                from: at,
                to: line.to,
            },
            SPACE,
        );
        push_word(&mut words, Span { from: at, to })?;
        from = after(to, line.to);
    }
    Ok(words)
}

// Where the part behind the separator at `to` begins, if the line goes on there.
fn after(to: usize, end: usize) -> Option<usize>
    requires { to ≤ end }
    ensures { result ≡ (if to == end then None else Some (to + 1)) }
{
    if to == end { None } else { Some(to + 1) }
}

// Puts a part at the end, if it is a word.
fn push_word(words: &mut Vec<Span>, part: Span) -> Result<(), AllocError>
    ensures { OnOk result (words.new.items
        ≡ words.old.items ++ (if nat_lt part.from part.to then part ∷ [] else [])) }
{
    if part.from < part.to {
        words.push(part)?;
    }
    Ok(())
}

// Whether the first word begins with `#`.
fn is_comment(text: &[u8], words: &[Span]) -> bool
    ensures { result ≡ spec.is_comment (map (bytes_at text.now) words.now) }
{
    match words {
        [] => false,
        [first, ..] => begins_with_hash(first.of(text)),
    }
}

fn begins_with_hash(word: &[u8]) -> bool
    ensures { result ≡ spec.is_comment (word.now ∷ []) }
{
    match word {
        [] => false,
        [first, ..] => *first == b'#',
    }
}

pub(crate) fn all_allowed(line: &[u8]) -> bool
    ensures { result ≡ list_all is_allowed line.now }
{
    line.iter().all(|byte| is_allowed(*byte))
}

fn is_allowed(byte: u8) -> bool
    ensures { result ≡ spec.is_allowed byte }
{
    matches!(byte, b' '..=b'~')
}
