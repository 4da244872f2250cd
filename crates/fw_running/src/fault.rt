//! Why a step is not taken.
ghost use Rattle.std.specs.Prelude.{◌≡◌};
ghost use Rattle.fw_running.specs.declared.fault.EngineFault.TheVariants.{NoMemory as NoMemoryThere};
ghost use Rattle.fw_running.specs.Faults.{fault_of};

use fw_keep::KeepFault;
use std::alloc::{AllocError, AllocFailed};
use thiserror::Error;

/// Why a step is not taken.
#[derive(Clone, Copy, Debug, PartialEq, Eq, Error)]
pub enum EngineFault {
    /// The store failed; its count of faults rose by one, or stands at 2^64 - 1.
    #[error("the store failed")]
    StoreFault,
    /// The bytes that the store gave under an id spell no record of the write.
    #[error("the record under {id} is damaged")]
    Damaged { id: u64 },
    /// There was no memory for the step.
    #[error("out of memory")]
    NoMemory,
}

impl From<KeepFault> for EngineFault {
    ghost from_gives = { λ fault e. e ≡ fault_of fault };

    fn from(fault: KeepFault) -> Self {
        match fault {
            KeepFault::StoreFault => EngineFault::StoreFault,
            KeepFault::Damaged { id, .. } => EngineFault::Damaged { id },
            KeepFault::NoMemory => EngineFault::NoMemory,
        }
    }
}

impl From<AllocError> for EngineFault {
    ghost from_gives = { λ _ e. e ≡ NoMemoryThere };

    fn from(_: AllocError) -> Self {
        EngineFault::NoMemory
    }
}

impl<T: Drop> From<AllocFailed<T>> for EngineFault {
    ghost from_gives = { λ _ e. e ≡ NoMemoryThere };

    fn from(_: AllocFailed<T>) -> Self {
        EngineFault::NoMemory
    }
}
