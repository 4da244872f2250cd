//! The rules that a line of a session may break.

use fw_lines::Code;
use std::fmt;

/// A rule that a line of a session breaks.
#[derive(Clone, Copy, Debug, PartialEq, Eq)]
pub enum LineRule {
    /// That of a text of which the line is one: of inputs or of a schedule.
    OfText(Code),
    /// A line has at most 1,048,576 bytes.
    Length,
    /// The source is open.
    Closed,
}

impl fmt::Display for LineRule {
    ghost use Rattle.fw_live.specs.Answers.{rule_text};
    ghost use Rattle.std.specs.Prelude.{Some};

    ghost output = { λ rule. Some (rule_text rule) };

    fn fmt<W: fmt::Write>(&self, f: &mut fmt::Formatter<W>) -> fmt::Result {
        match self {
            LineRule::OfText(code) => write!(f, "{code}"),
            LineRule::Length => write!(f, "L1"),
            LineRule::Closed => write!(f, "L2"),
        }
    }
}
