//! Why a text of offers or of a certificate is refused.
ghost use Rattle.std.specs.Prelude.{◌≡◌};

use std::alloc::{AllocError, AllocFailed};
use std::fmt;
use thiserror::Error;

/// The rule of a text of offers or of a certificate that is broken.
#[derive(Clone, Copy, Debug, PartialEq, Eq)]
pub enum ChoiceCode {
    /// A line of offers has none of the forms, or a byte that no text may have.
    O1,
    /// A name is not declared, or an edge of a record is none of its node's.
    O2,
    /// A stamp lies outside its domain, the stamps of a frontier are not its least in order, or a number is too large.
    O3,
    /// The node is of another kind than the line is for.
    O4,
    /// Something is said twice.
    O5,
    /// A record does not lie above the one before, or a range ends below its beginning.
    O6,
    /// Something is not told.
    O7,
    /// The text of offers is too long.
    O8,
    /// A line of a certificate has none of the forms, or stands behind the last one.
    C1,
    /// A name is not declared.
    C2,
    /// A stamp lies outside its domain, or the stamps of a frontier are not its least in order.
    C3,
    /// Two lines cut one node, or two tell that no cut is left.
    C4,
    /// The last line does not fit those before it, or is not there.
    C5,
    /// The text of a certificate is too long.
    C6,
}

impl ChoiceCode {
    ghost use Rattle.std.specs.Prelude.{◌≡◌};
    ghost use Rattle.fw_offers_text.specs.Code.{choice_code_text};

    /// The code's letter and digit.
    pub fn as_str(&self) -> &'static str
        ensures { result.now ≡ choice_code_text self.now }
    {
        match self {
            ChoiceCode::O1 => "O1",
            ChoiceCode::O2 => "O2",
            ChoiceCode::O3 => "O3",
            ChoiceCode::O4 => "O4",
            ChoiceCode::O5 => "O5",
            ChoiceCode::O6 => "O6",
            ChoiceCode::O7 => "O7",
            ChoiceCode::O8 => "O8",
            ChoiceCode::C1 => "C1",
            ChoiceCode::C2 => "C2",
            ChoiceCode::C3 => "C3",
            ChoiceCode::C4 => "C4",
            ChoiceCode::C5 => "C5",
            ChoiceCode::C6 => "C6",
        }
    }
}

impl fmt::Display for ChoiceCode {
    ghost use Rattle.fw_offers_text.specs.Code.{choice_code_text};
    ghost use Rattle.std.specs.Prelude.{Some};

    ghost output = { λ code. Some (choice_code_text code) };

    fn fmt<W: fmt::Write>(&self, f: &mut fmt::Formatter<W>) -> fmt::Result {
        write!(f, "{}", self.as_str())
    }
}

/// A refusal of such a text: the rule that is broken, and the line that breaks it.
#[derive(Clone, Copy, Debug, PartialEq, Eq)]
pub struct ChoiceRefusal {
    /// The rule.
    pub code: ChoiceCode,
    /// Lines are counted from 1; 0 is for the text as a whole.
    pub line: u32,
}

impl fmt::Display for ChoiceRefusal {
    ghost use Rattle.fw_offers_text.specs.Code.{choice_refusal_text};
    ghost use Rattle.std.specs.Prelude.{Some};

    ghost output = { λ refusal. Some (choice_refusal_text refusal) };

    fn fmt<W: fmt::Write>(&self, f: &mut fmt::Formatter<W>) -> fmt::Result {
        write!(f, "refused {} line {}", self.code, self.line)
    }
}

/// Why such a text gives nothing.
#[derive(Clone, Copy, Debug, PartialEq, Eq, Error)]
pub enum ChoiceFault {
    /// The text is not accepted.
    #[error("{0}")]
    Refused(ChoiceRefusal),
    /// Memory was refused.
    #[error("out of memory")]
    NoMemory,
}

impl ChoiceFault {
    /// The refusal of a text as a whole.
    pub(crate) const fn of_whole(code: ChoiceCode) -> Self
        ensures { result ≡ ChoiceFault.Refused (record { code = code; line = 0 }) }
    {
        ChoiceFault::Refused(ChoiceRefusal { code, line: 0 })
    }

    /// The refusal of a line.
    pub(crate) const fn of_line(code: ChoiceCode, line: u32) -> Self
        ensures { result ≡ ChoiceFault.Refused (record { code = code; line = line }) }
    {
        ChoiceFault::Refused(ChoiceRefusal { code, line })
    }
}

impl From<AllocError> for ChoiceFault {
    ghost use Rattle.fw_offers_text.specs.declared.code.ChoiceFault.TheVariants.{NoMemory};

    ghost from_gives = { λ _ fault. fault ≡ NoMemory };

    fn from(_error: AllocError) -> Self {
        ChoiceFault::NoMemory
    }
}

impl<T: Drop> From<AllocFailed<T>> for ChoiceFault {
    ghost use Rattle.fw_offers_text.specs.declared.code.ChoiceFault.TheVariants.{NoMemory};

    ghost from_gives = { λ _ fault. fault ≡ NoMemory };

    fn from(_error: AllocFailed<T>) -> Self {
        ChoiceFault::NoMemory
    }
}
