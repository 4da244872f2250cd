//! Why a session can't go on.
ghost use Rattle.std.specs.Prelude.{◌≡◌};

use std::alloc::AllocError;
use thiserror::Error;

/// Why a session is not fed, or can't go on.
#[derive(Clone, Copy, Debug, PartialEq, Eq, Error)]
pub enum LifeFault {
    /// The source takes no batch: it is not open, or to it came 2^20 - 1.
    #[error("the source takes no batch")]
    NotFed,
    /// The store failed where it had to keep what was done.
    #[error("the store failed")]
    StoreFault,
    /// Memory was refused.
    #[error("out of memory")]
    NoMemory,
}

impl From<AllocError> for LifeFault {
    ghost use Rattle.fw_living.specs.declared.fault.LifeFault.TheVariants.{NoMemory};

    ghost from_gives = { λ _ fault. fault ≡ NoMemory };

    fn from(_error: AllocError) -> Self {
        LifeFault::NoMemory
    }
}
