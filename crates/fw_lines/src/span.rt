//! Parts of a text.
ghost use Rattle.std.specs.Prelude.{◌≡◌};
ghost use Rattle.fw_lines.specs.Lines.{bytes_at};

use std::marker::Model;

/// A part of a text: its bytes from `from` on up to `to`, without the one at `to`.
#[derive(Clone, Copy, Debug, PartialEq, Eq)]
pub struct Span {
    /// The place of its first byte, from 0 on.
    pub from: usize,
    /// The place behind its last byte.
    pub to: usize,
}

impl Span {
    /// The bytes of this part of a text; what lies beyond the text is left out.
    pub fn of<'a>(&self, text: &'a [u8]) -> &'a [u8]
        ensures { result.now ≡ bytes_at text.now self.now }
    {
        let to = self.to.min(text.len());
        let from = self.from.min(to);
        &text[from..to]
    }
}

/// Parts of a text, in the order in which they were found.
#[derive(Debug, Drop)]
pub struct Spans {
    pub(crate) items: Vec<Span>,
}

impl Model for Spans {
    ghost use Rattle.std.specs.Prelude.{List};
    ghost use Rattle.fw_lines.specs.declared.span.Span.{Span};

    ghost Value = { List Span };

    ghost view = { λ s. s.items.items };
}

impl Spans {
    /// The parts as a slice.
    pub fn as_slice(&self) -> &[Span]
        ensures { result.now ≡ self.now }
    {
        self.items.as_slice()
    }
}
