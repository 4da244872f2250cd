//! Bytes by hexadecimal digits.
use crate::NoAnswer;
use crate::rows::part;
use std::alloc::{AllocError, Global};
use std::fmt::Write;

/// The value of a digit, `0` to `9` or `a` to `f`.
pub fn digit(byte: u8) -> Option<u8> {
    if byte >= b'0' && byte <= b'9' {
        Some(byte - b'0')
    } else if byte >= b'a' && byte <= b'f' {
        Some(byte - b'a' + 10)
    } else {
        None
    }
}

/// The bytes that some words of any length spell, two digits for each.
pub fn bytes_of(alloc: Global, words: &str) -> Result<Vec<u8>, NoAnswer> {
    let mut bytes = Vec::new(alloc);
    add_bytes(words, &mut bytes)?;
    Ok(bytes)
}

/// Adds the bytes that some words spell.
fn add_bytes(words: &str, bytes: &mut Vec<u8>) -> Result<(), NoAnswer> {
    for word in words.split_whitespace() {
        for digits in word.as_bytes().chunks(2) {
            bytes.push(byte_of(digits).ok_or(NoAnswer::NotSpelled)?)?;
        }
    }
    Ok(())
}

/// The bytes that the lines `record` of a name spell, one after the other.
pub fn bytes_named(alloc: Global, lines: &str, name: &str) -> Result<Vec<u8>, NoAnswer> {
    let mut bytes = Vec::new(alloc);
    for line in lines.lines() {
        add_named(line, name, &mut bytes)?;
    }
    Ok(bytes)
}

/// Adds the bytes that a line spells, if it is a line `record` of this name.
fn add_named(line: &str, name: &str, bytes: &mut Vec<u8>) -> Result<(), NoAnswer> {
    let (word, rest) = part(line);
    let (of, words) = part(rest);
    if word == "record" && of == name {
        add_bytes(words, bytes)?;
    }
    Ok(())
}

/// The byte of two digits.
fn byte_of(digits: &[u8]) -> Option<u8> {
    let [high, low] = digits else {
        return None;
    };
    Some(digit(*high)? << 4 | digit(*low)?)
}

/// Adds bytes by their digits, two for each.
pub fn show_digits(bytes: &[u8], into: &mut String) -> Result<(), AllocError> {
    for byte in bytes {
        write!(into, "{byte:02x}")?;
    }
    Ok(())
}
