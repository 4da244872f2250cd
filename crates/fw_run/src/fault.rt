//! Why a command ends before all was printed.
ghost use Rattle.std.specs.Prelude.{◌≡◌};
ghost use Rattle.fw_outside.specs.declared.fault.OutFault.TheVariants as output;
ghost use Rattle.fw_run.specs.declared.fault.RunFault.TheVariants.{Out as OutThere, Engine as EngineThere};
ghost use Rattle.fw_run.specs.Fault as spec;

use crate::Status;
use fw_engine::EngineFault;
use fw_outside::OutFault;
use std::alloc::AllocError;

/// Why a command ends before all was printed.
#[derive(Clone, Copy, Debug, PartialEq, Eq)]
pub enum RunFault {
    /// The output failed, or memory was refused.
    Out(OutFault),
    /// The engine took no step more.
    Engine(EngineFault),
}

impl From<OutFault> for RunFault {
    ghost from_gives = { λ fault e. e ≡ OutThere fault };

    fn from(fault: OutFault) -> Self {
        RunFault::Out(fault)
    }
}

impl From<EngineFault> for RunFault {
    ghost from_gives = { λ fault e. e ≡ EngineThere fault };

    fn from(fault: EngineFault) -> Self {
        RunFault::Engine(fault)
    }
}

impl From<AllocError> for RunFault {
    ghost from_gives = { λ _ e. e ≡ OutThere output.NoMemory };

    fn from(_: AllocError) -> Self {
        RunFault::Out(OutFault::NoMemory)
    }
}

/// The status that tells a fault.
pub(crate) fn status_of(fault: RunFault) -> Status
    ensures { result ≡ spec.status_of fault }
{
    match fault {
        RunFault::Out(OutFault::Failed) => Status::WriteFault,
        RunFault::Engine(EngineFault::StoreFault) => Status::StoreFault,
        RunFault::Engine(EngineFault::Damaged { id }) => Status::Damaged { id },
        RunFault::Out(OutFault::NoMemory) | RunFault::Engine(EngineFault::NoMemory) => {
            Status::NoMemory
        }
    }
}
