//! How any bytes are written in lines of text: `\\` is a backslash, `\n` byte 10, `\x` and two hexadecimal digits any
//! byte, and a backslash at the end of a line says that no LF ends it.
use crate::hex::digit;
use std::alloc::{AllocError, Global};
use std::fmt::Write;

/// What of an escape was read.
#[derive(Clone, Copy)]
enum Escape {
    /// None is under way.
    No,
    /// Its backslash.
    Begun,
    /// Its backslash and the `x`.
    Byte,
    /// All but its second digit, and the value of the first.
    Half(u8),
    /// One that is none.
    Bad,
}

/// The bytes that a line spells, with the LF that ends it; none where an escape is none.
pub fn spelled(alloc: Global, line: &str) -> Result<Option<Vec<u8>>, AllocError> {
    let mut bytes = Vec::new(alloc);
    let mut escape = Escape::No;
    for byte in line.bytes() {
        escape = read_byte(escape, byte, &mut bytes)?;
    }
    match escape {
        Escape::No => bytes.push(b'\n')?,
        Escape::Begun => {}
        _ => return Ok(None),
    }
    Ok(Some(bytes))
}

/// Reads the next byte of a line, and adds the byte that it ends.
fn read_byte(escape: Escape, byte: u8, bytes: &mut Vec<u8>) -> Result<Escape, AllocError> {
    let spelled = match (escape, byte) {
        (Escape::No, b'\\') => return Ok(Escape::Begun),
        (Escape::No, _) => byte,
        (Escape::Begun, b'\\') => b'\\',
        (Escape::Begun, b'n') => b'\n',
        (Escape::Begun, b'x') => return Ok(Escape::Byte),
        (Escape::Byte, _) => match digit(byte) {
            Some(high) => return Ok(Escape::Half(high)),
            None => return Ok(Escape::Bad),
        },
        (Escape::Half(high), _) => match digit(byte) {
            Some(low) => high << 4 | low,
            None => return Ok(Escape::Bad),
        },
        _ => return Ok(Escape::Bad),
    };
    bytes.push(spelled)?;
    Ok(Escape::No)
}

/// Adds bytes as a line spells them, but for LF, which is written as it is.
pub fn show(bytes: &[u8], into: &mut String) -> Result<(), AllocError> {
    for byte in bytes {
        let byte = *byte;
        if byte == b'\\' {
            into.push_str("\\\\")?;
        } else if byte == b'\n' || byte.is_ascii_graphic() || byte == b' ' {
            into.push(char::from(byte))?;
        } else {
            write!(into, "\\x{byte:02x}")?;
        }
    }
    Ok(())
}

/// Adds whole lines as they are spelled; where the last lacks its LF, a backslash at its end says so.
pub fn show_lines(bytes: &[u8], into: &mut String) -> Result<(), AllocError> {
    show(bytes, into)?;
    match bytes.last() {
        None | Some(b'\n') => Ok(()),
        Some(_) => into.push_str("\\\n"),
    }
}
