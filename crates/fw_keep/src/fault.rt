//! Why a call of the catalogue gives nothing.
ghost use Rattle.std.specs.Prelude.{◌≡◌};

use std::alloc::{AllocError, AllocFailed};
use thiserror::Error;

/// Why a call of the catalogue gives nothing.
#[derive(Debug, Drop, Error)]
pub enum KeepFault {
    /// The store failed; its count of faults rose by one, or stands at 2^64 - 1.
    #[error("the store failed")]
    StoreFault,
    /// The bytes that the store gave under an id spell no record of the write.
    #[error("the record under {id} is damaged")]
    Damaged { id: u64, bytes: Vec<u8> },
    /// There was no memory for the call.
    #[error("out of memory")]
    NoMemory,
}

impl From<AllocError> for KeepFault {
    ghost use Rattle.fw_keep.specs.declared.fault.KeepFault.TheVariants.{NoMemory};

    ghost from_gives = { λ _ fault. fault ≡ NoMemory };

    fn from(_: AllocError) -> Self {
        KeepFault::NoMemory
    }
}

impl<T: Drop> From<AllocFailed<T>> for KeepFault {
    ghost use Rattle.fw_keep.specs.declared.fault.KeepFault.TheVariants.{NoMemory};

    ghost from_gives = { λ _ fault. fault ≡ NoMemory };

    fn from(_: AllocFailed<T>) -> Self {
        KeepFault::NoMemory
    }
}
