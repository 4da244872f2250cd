//! Words of lines, each with the place at which it begins.
use fw_lines::lines;
use std::alloc::{AllocError, Global};

/// A line is cut into words where it has fewer bytes than these.
const LINE_LIMIT: usize = 1 << 25;

/// A word of a line.
#[derive(Clone, Copy)]
pub(crate) struct Word<'a> {
    /// Its bytes.
    pub(crate) bytes: &'a [u8],
    /// How many bytes of the line stand before it.
    pub(crate) from: usize,
}

/// Whether a word is there, and is this one.
pub(crate) fn is_word(word: Option<Word<'_>>, wanted: &[u8]) -> bool {
    match word {
        Some(word) => word.bytes == wanted,
        None => false,
    }
}

/// A word as a text; the empty one, where it is none.
pub(crate) fn str_of(word: &[u8]) -> &str {
    str::from_utf8(word).unwrap_or("")
}

/// A line that says something.
#[derive(Drop)]
pub(crate) struct Row<'a> {
    /// Lines are counted from 1.
    pub(crate) number: u32,
    /// Its words.
    pub(crate) words: Vec<Word<'a>>,
}

/// The words of a line, none where it says nothing.
pub(crate) fn words_of<'a>(alloc: Global, line: &'a [u8]) -> Result<Vec<Word<'a>>, AllocError> {
    let mut words = Vec::new(alloc);
    if line.len() >= LINE_LIMIT {
        return Ok(words);
    }
    let said = lines(alloc, line)?;
    for part in said.as_slice() {
        for span in part.words.as_slice() {
            words.push(Word {
                bytes: span.of(line),
                from: span.from,
            })?;
        }
    }
    Ok(words)
}

/// The lines of a text that say something, in order.
pub(crate) fn rows<'a>(alloc: Global, text: &'a [u8]) -> Result<Vec<Row<'a>>, AllocError> {
    let mut rows = Vec::new(alloc);
    let mut number: u32 = 0;
    for line in text.split(|byte| *byte == b'\n') {
        number = number.saturating_add(1);
        let words = words_of(alloc, line)?;
        if !words.is_empty() {
            rows.push(Row { number, words })?;
        }
    }
    Ok(rows)
}

/// The line of this number, counted from 1, without its end.
pub(crate) fn line_of<'a>(text: &'a [u8], number: u32) -> Option<&'a [u8]> {
    let place = usize::try_from(number.checked_sub(1)?).ok()?;
    text.split(|byte| *byte == b'\n').nth(place)
}
