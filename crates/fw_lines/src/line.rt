//! Lines, and places at which they begin.
ghost use Rattle.std.specs.Prelude.{◌≡◌};

use crate::span::Spans;
use std::marker::Model;

/// A line of a text.
#[derive(Debug, Drop)]
pub struct Line {
    /// Lines are counted from 1.
    pub number: u32,
    /// Its words as parts of the text, none where it says nothing.
    pub words: Spans,
}

/// The lines of a text, in order.
#[derive(Debug, Drop)]
pub struct Lines {
    pub(crate) items: Vec<Line>,
}

impl Model for Lines {
    ghost use Rattle.std.specs.Prelude.{List};
    ghost use Rattle.fw_lines.specs.declared.line.Line.{Line};

    ghost Value = { List Line };

    ghost view = { λ lines. lines.items.items };
}

impl Lines {
    /// The lines as a slice.
    pub fn as_slice(&self) -> &[Line]
        ensures { result.now ≡ self.now }
    {
        self.items.as_slice()
    }
}

/// A place in a text at which a line begins.
#[derive(Clone, Copy, Debug, PartialEq, Eq)]
pub struct Place {
    /// How many bytes stand before it.
    pub from: usize,
    /// How many lines stand before it.
    pub passed: u32,
}

impl Place {
    /// The first line's place.
    pub const START: Place = Place { from: 0, passed: 0 };
}
