//! The known word that is nearest to a word that is none of them.
use std::alloc::{AllocError, Global};
use strsim::generic_levenshtein;

/// The longest word for which a near one is sought.
const LONGEST: usize = 40;

// The word in small letters.
fn small(alloc: Global, word: &[u8]) -> Result<Vec<u8>, AllocError> {
    let mut letters = Vec::with_capacity(alloc, word.len())?;
    for byte in word {
        letters.push(byte.to_ascii_lowercase())?;
    }
    Ok(letters)
}

/// The nearest of words that stand in one text, with a space between.
pub(crate) fn nearest_of<'a>(
    alloc: Global,
    word: &[u8],
    known: &'a [u8],
) -> Result<Option<&'a [u8]>, AllocError> {
    let parts: Vec<&'a [u8]> = known.split(|byte| *byte == b' ').collect(alloc)?;
    nearest_among(alloc, word, parts.as_slice())
}

/// The nearest of some words.
pub(crate) fn nearest_among<'a>(
    alloc: Global,
    word: &[u8],
    known: &[&'a [u8]],
) -> Result<Option<&'a [u8]>, AllocError> {
    match place_of_nearest(alloc, word, known)? {
        Some(place) => Ok(known.get(place).copied()),
        None => Ok(None),
    }
}

// The place of the nearest of some words: at most two edits lead to it, of a long word some more, and fewer than it has letters.
fn place_of_nearest(
    alloc: Global,
    word: &[u8],
    known: &[&[u8]],
) -> Result<Option<usize>, AllocError> {
    let word = small(alloc, word)?;
    let length = word.len();
    let mut fewest = length.min(3 + length / 8);
    let mut place = None;
    for (at, other) in known.iter().enumerate() {
        let edits = edits_between(alloc, word.as_slice(), other)?;
        if edits < fewest {
            fewest = edits;
            place = Some(at);
        }
    }
    Ok(place)
}

// How many edits lead from one word to the other; of long words, many.
fn edits_between(alloc: Global, word: &[u8], other: &[u8]) -> Result<usize, AllocError> {
    if word.len() > LONGEST || other.len() > LONGEST {
        return Ok(usize::MAX);
    }
    generic_levenshtein(alloc, word, other)
}
