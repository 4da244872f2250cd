//! Why no more lines are answered.
ghost use Rattle.std.specs.Prelude.{◌≡◌};

use fw_living::LifeFault;

/// Why no more lines are answered.
#[derive(Clone, Copy, Debug, PartialEq, Eq)]
pub enum ServeFault {
    /// The source of lines failed, or gave 2^64 - 1 of them and no end.
    Read,
    /// The output failed.
    Write,
    /// The store failed that keeps what was done.
    Store,
    /// Memory was refused.
    NoMemory,
}

impl From<LifeFault> for ServeFault {
    ghost use Rattle.fw_living.specs.declared.fault.LifeFault.TheVariants as life;
    ghost use Rattle.fw_live.specs.declared.fault.ServeFault.TheVariants as serve;
    ghost use Rattle.fw_live.specs.Serving.{fault_of};

    ghost from_gives = { λ known fault. (fault ≡ fault_of known) × (fault ≡ serve.Store → known ≡ life.StoreFault) };

    // A source was asked for before it is fed: that it takes no batch comes where memory was refused earlier.
    fn from(fault: LifeFault) -> Self {
        match fault {
            LifeFault::StoreFault => ServeFault::Store,
            LifeFault::NotFed | LifeFault::NoMemory => ServeFault::NoMemory,
        }
    }
}
