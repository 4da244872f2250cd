//! Refusals: which rule a text breaks, and on which line.
use std::fmt;

/// The rule that a text breaks: of the flow (F), of the inputs (I) or of the schedule (S).
#[derive(Clone, Copy, Debug, PartialEq, Eq)]
pub enum Code {
    /// A line of a flow has no form of the grammar, a word of it is badly spelled, or a byte is not allowed.
    F1,
    /// The name of a node, an edge or a loop is there already.
    F2,
    /// A loop, a sender or a receiver is not declared.
    F3,
    /// A node has another number of in-edges than its kind wants, or an output has an out-edge.
    F4,
    /// The out domain of an edge's sender is not the domain of its receiver.
    F5,
    /// A closed walk passes a node of epochs or numbers, or one that stays in a loop passes no feedback of it.
    F6,
    /// The policy of a node is not allowed for its kind.
    F7,
    /// There are too many nodes, edges or loops, or the `max` of a loop or the number of a regroup is out of range.
    F8,
    /// There is no source or no output.
    F9,
    /// A number of a flow is 2^64 or more.
    F10,
    /// The text of a flow is too long.
    F11,
    /// A loop's chain of loops, each declared in the next, does not end within three.
    F12,
    /// A line of the inputs has no form of the grammar, a word of it is badly spelled, or a byte is not allowed.
    I1,
    /// The name of a batch is not that of a source.
    I2,
    /// A number of the inputs is 2^64 or more.
    I3,
    /// A record word has no colon.
    I4,
    /// The text of the inputs is too long, or a source has too many batches.
    I5,
    /// A line of a schedule has no form of the grammar, a word of it is badly spelled, or a byte is not allowed.
    S1,
    /// A name is not that of a source, an edge, a node or an output, as the step wants.
    S2,
    /// A stamp is not of the domain.
    S3,
    /// The text of a schedule is too long.
    S4,
}

impl Code {
    ghost use Rattle.std.specs.Prelude.{◌≡◌};
    ghost use Rattle.fw_lines.specs.Refusal.{code_text};

    /// The code's letter and digits.
    pub fn as_str(&self) -> &'static str
        ensures { result.now ≡ code_text self.now }
    {
        match self {
            Code::F1 => "F1",
            Code::F2 => "F2",
            Code::F3 => "F3",
            Code::F4 => "F4",
            Code::F5 => "F5",
            Code::F6 => "F6",
            Code::F7 => "F7",
            Code::F8 => "F8",
            Code::F9 => "F9",
            Code::F10 => "F10",
            Code::F11 => "F11",
            Code::F12 => "F12",
            Code::I1 => "I1",
            Code::I2 => "I2",
            Code::I3 => "I3",
            Code::I4 => "I4",
            Code::I5 => "I5",
            Code::S1 => "S1",
            Code::S2 => "S2",
            Code::S3 => "S3",
            Code::S4 => "S4",
        }
    }
}

impl fmt::Display for Code {
    ghost use Rattle.fw_lines.specs.Refusal.{code_text};
    ghost use Rattle.std.specs.Prelude.{Some};

    ghost output = { λ code. Some (code_text code) };

    fn fmt<W: fmt::Write>(&self, f: &mut fmt::Formatter<W>) -> fmt::Result {
        write!(f, "{}", self.as_str())
    }
}

/// A refusal of a text: the rule that is broken, and the line that breaks it.
#[derive(Clone, Copy, Debug, PartialEq, Eq)]
pub struct Refusal {
    /// The rule.
    pub code: Code,
    /// Lines are counted from 1; 0 is for the text as a whole.
    pub line: u32,
}

impl fmt::Display for Refusal {
    ghost use Rattle.fw_lines.specs.Refusal.{refusal_text};
    ghost use Rattle.std.specs.Prelude.{Some};

    ghost output = { λ refusal. Some (refusal_text refusal) };

    fn fmt<W: fmt::Write>(&self, f: &mut fmt::Formatter<W>) -> fmt::Result {
        write!(f, "refused {} line {}", self.code, self.line)
    }
}
