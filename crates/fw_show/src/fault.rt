//! Why not all was shown.
use fw_disk::{DiskCause, DiskRefusal};
use fw_outside::OutFault;
use std::alloc::AllocError;

/// Why not all was shown.
#[derive(Clone, Copy)]
pub enum ShowFault {
    /// The output failed.
    Out,
    /// The store's folder could not be read.
    Store(DiskCause),
    /// Memory was refused.
    NoMemory,
}

impl From<AllocError> for ShowFault {
    fn from(_: AllocError) -> Self {
        ShowFault::NoMemory
    }
}

impl From<OutFault> for ShowFault {
    fn from(fault: OutFault) -> Self {
        match fault {
            OutFault::Failed => ShowFault::Out,
            OutFault::NoMemory => ShowFault::NoMemory,
        }
    }
}

impl From<DiskRefusal> for ShowFault {
    fn from(refusal: DiskRefusal) -> Self {
        match refusal {
            DiskRefusal::NoMemory => ShowFault::NoMemory,
            DiskRefusal::Failed(cause) => ShowFault::Store(cause),
        }
    }
}
