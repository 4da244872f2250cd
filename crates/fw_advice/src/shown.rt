//! Bytes of foreign files as a terminal may be shown them.
ghost use Rattle.std.specs.Prelude.{IfOk, All};
ghost use Rattle.fw_advice.specs.Plain.{IsPlain};

use std::alloc::{AllocError, Global};
use std::fmt;

/// How many bytes of a word are shown.
const SHOWN: usize = 60;

/// Bytes as they are shown: those that are printed stand for themselves, each other one is told by its number.
#[derive(Clone, Copy)]
pub(crate) struct Shown<'a>(pub(crate) &'a [u8]);

impl fmt::Display for Shown<'_> {
    fn fmt<W: fmt::Write>(&self, f: &mut fmt::Formatter<W>) -> fmt::Result {
        for byte in self.0.iter().take(SHOWN) {
            match *byte {
                b'\t' => f.write_str("\\t")?,
                b'\r' => f.write_str("\\r")?,
                32..=126 => f.write_char(char::from(*byte))?,
                other => write!(f, "\\x{other:02x}")?,
            }
        }
        if self.0.len() > SHOWN {
            f.write_str("..")?;
        }
        Ok(())
    }
}

/// A text without a byte that does something to a terminal: only LF and the bytes from 32 to 126 are left, each other one is `?`.
pub(crate) fn plain(alloc: Global, text: &str) -> Result<Vec<u8>, AllocError>
    ensures { IfOk result (λ bytes. All IsPlain bytes.items) }
{
    let mut bytes = Vec::new(alloc);
    for byte in text.as_bytes() {
        bytes.push(plain_byte(*byte))?;
    }
    Ok(bytes)
}

// The byte itself where it is plain, else `?`.
fn plain_byte(byte: u8) -> u8
    ensures { IsPlain result }
{
    match byte {
        b'\n' | 32..=126 => byte,
        _ => b'?',
    }
}
