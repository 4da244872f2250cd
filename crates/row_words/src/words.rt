//! Stamps and recs by words.
use crate::NoAnswer;
use fw_bag::Rec;
use fw_time::Stamp;
use std::alloc::Global;

/// How many coordinates a stamp has at most.
const PLACES: usize = 4;

/// The stamp of one to four numbers with dots between them.
pub fn stamp_of(alloc: Global, word: &str) -> Result<Stamp, NoAnswer> {
    let mut coords = Vec::new(alloc);
    for part in word.split('.') {
        coords.push(part.parse::<u32>()?)?;
    }
    if coords.is_empty() || coords.len() > PLACES {
        return Err(NoAnswer::NotSpelled);
    }
    Ok(Stamp::new(&coords))
}

/// The stamps of some words, or of some with commas between them in one word.
pub fn stamps_of(alloc: Global, text: &str) -> Result<Vec<Stamp>, NoAnswer> {
    let mut stamps = Vec::new(alloc);
    for words in text.split_whitespace() {
        for word in words.split(',') {
            stamps.push(stamp_of(alloc, word)?)?;
        }
    }
    Ok(stamps)
}

/// The rec of a key and a value with a colon between them.
pub fn rec_of(word: &str) -> Result<Rec, NoAnswer> {
    let Some((key, value)) = word.split_once(':') else {
        return Err(NoAnswer::NotSpelled);
    };
    let key = key.parse::<u64>()?;
    let value = value.parse::<u64>()?;
    Ok(Rec { key, value })
}

/// The recs of some words.
pub fn recs_of(alloc: Global, words: &str) -> Result<Vec<Rec>, NoAnswer> {
    let mut recs = Vec::new(alloc);
    for word in words.split_whitespace() {
        recs.push(rec_of(word)?)?;
    }
    Ok(recs)
}

/// What stands before a mark, and what follows it.
pub fn columns<'a>(text: &'a str, mark: &str) -> (&'a str, &'a str) {
    match text.split_once(mark) {
        Some(columns) => columns,
        None => (text, ""),
    }
}
