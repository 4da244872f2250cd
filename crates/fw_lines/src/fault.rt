//! Why a text gives nothing.
ghost use Rattle.std.specs.Prelude.{◌≡◌};

use crate::refusal::{Code, Refusal};
use std::alloc::{AllocError, AllocFailed};
use thiserror::Error;

/// Why a text gives nothing.
#[derive(Clone, Copy, Debug, PartialEq, Eq, Error)]
pub enum ReadFault {
    /// The text is not accepted.
    #[error("{0}")]
    Refused(Refusal),
    /// Memory was refused.
    #[error("out of memory")]
    NoMemory,
}

impl ReadFault {
    /// The refusal of a text as a whole.
    pub const fn of_whole(code: Code) -> Self
        ensures { result ≡ ReadFault.Refused (record { code = code; line = 0 }) }
    {
        ReadFault::Refused(Refusal { code, line: 0 })
    }
}

impl From<AllocError> for ReadFault {
    ghost use Rattle.fw_lines.specs.declared.fault.ReadFault.TheVariants.{NoMemory};

    ghost from_gives = { λ _ fault. fault ≡ NoMemory };

    fn from(_error: AllocError) -> Self {
        ReadFault::NoMemory
    }
}

impl<T: Drop> From<AllocFailed<T>> for ReadFault {
    ghost use Rattle.fw_lines.specs.declared.fault.ReadFault.TheVariants.{NoMemory};

    ghost from_gives = { λ _ fault. fault ≡ NoMemory };

    fn from(_error: AllocFailed<T>) -> Self {
        ReadFault::NoMemory
    }
}
