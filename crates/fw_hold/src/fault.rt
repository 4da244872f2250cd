//! Why a held run ends before all was done.
ghost use Rattle.std.specs.Prelude.{◌≡◌};
ghost use Rattle.fw_hold.specs.declared.fault.HoldFault.TheVariants.{Engine as EngineThere};
ghost use Rattle.fw_hold.specs.Faults as spec;
ghost use Rattle.fw_running.specs.declared.fault.EngineFault.TheVariants as engine;

use fw_outside::{Failed, OutFault};
use fw_running::EngineFault;
use std::alloc::AllocError;

/// Why a held run ends before all was done.
#[derive(Clone, Copy, Debug, PartialEq, Eq)]
pub enum HoldFault {
    /// The output failed, or it refused memory.
    Out(OutFault),
    /// The store failed, a record is damaged, or memory was refused.
    Engine(EngineFault),
    /// What the store gave as the root under this id is none.
    DamagedRoot { id: u64 },
    /// The root is one of other texts.
    ForeignRoot,
}

impl From<EngineFault> for HoldFault {
    ghost from_gives = { λ fault e. e ≡ EngineThere fault };

    fn from(fault: EngineFault) -> Self {
        HoldFault::Engine(fault)
    }
}

impl From<AllocError> for HoldFault {
    ghost from_gives = { λ _ e. e ≡ EngineThere engine.NoMemory };

    fn from(_: AllocError) -> Self {
        HoldFault::Engine(EngineFault::NoMemory)
    }
}

impl From<Failed> for HoldFault {
    ghost from_gives = { λ _ e. e ≡ EngineThere engine.StoreFault };

    fn from(_: Failed) -> Self {
        HoldFault::Engine(EngineFault::StoreFault)
    }
}

/// The fault of a call of the store; that of the output is `HoldFault::Out`.
impl From<OutFault> for HoldFault {
    ghost from_gives = { λ fault e. e ≡ spec.of_store fault };

    fn from(fault: OutFault) -> Self {
        match fault {
            OutFault::Failed => HoldFault::Engine(EngineFault::StoreFault),
            OutFault::NoMemory => HoldFault::Engine(EngineFault::NoMemory),
        }
    }
}
