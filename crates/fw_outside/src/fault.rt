//! What a call to the outside answers when it is refused, and the list of calls that are to fail.
ghost use Rattle.std.specs.Prelude.{◌≡◌, ◌+◌, ◌-◌, ◌^◌, ◌≤◌, ◌↔◌, IsTrue, IsFalse, Contains};
ghost use Rattle.fw_outside.specs.Outside.{Rose};
ghost use Rattle.fw_outside.specs.Outside as spec;
ghost use Rattle.fw_outside.specs.declared.fault.FetchFault.TheVariants.{NoMemory as FetchNoMemory};
ghost use Rattle.fw_outside.specs.declared.fault.OutFault.TheVariants.{NoMemory as OutNoMemory};

use std::alloc::{AllocError, AllocFailed};
use thiserror::Error;

/// Why a text was not fetched.
#[derive(Clone, Copy, Debug, PartialEq, Eq, Error)]
pub enum FetchFault {
    /// The folder failed, and counts it.
    #[error("the folder failed")]
    Failed,
    /// The text has more bytes than the limit.
    #[error("the text is too large")]
    TooLarge,
    /// There was no memory for the text.
    #[error("out of memory")]
    NoMemory,
}

impl From<AllocError> for FetchFault {
    ghost from_gives = { λ _ e. e ≡ FetchNoMemory };

    fn from(_: AllocError) -> Self {
        FetchFault::NoMemory
    }
}

/// Why a store or a sink refused a call.
#[derive(Clone, Copy, Debug, PartialEq, Eq, Error)]
pub enum OutFault {
    /// The store or the sink failed, and counts it.
    #[error("the store or the sink failed")]
    Failed,
    /// There was no memory for the call.
    #[error("out of memory")]
    NoMemory,
}

impl From<AllocError> for OutFault {
    ghost from_gives = { λ _ e. e ≡ OutNoMemory };

    fn from(_: AllocError) -> Self {
        OutFault::NoMemory
    }
}

impl<T: Drop> From<AllocFailed<T>> for OutFault {
    ghost from_gives = { λ _ e. e ≡ OutNoMemory };

    fn from(_: AllocFailed<T>) -> Self {
        OutFault::NoMemory
    }
}

/// The store failed, and counts it: why it did not say whether a record is there.
#[derive(Clone, Copy, Debug, PartialEq, Eq, Error)]
#[error("the store failed")]
pub struct Failed;

/// One more; a count at the end of its type stays there.
pub(crate) fn one_more(count: u64) -> u64
    ensures exact { result ≡ spec.one_more count }
    ensures rose { Rose count result }
    ensures later { count ≤ result }
{
    count.saturating_add(1)
}

/// Which calls of an object in memory are to fail, by number from 0, and how many did.
#[derive(Debug, Drop)]
pub(crate) struct FaultPlan {
    failing: Vec<u64>,
    calls: u64,
    pub(crate) faults: u64,
}

impl FaultPlan {
    /// The calls of these numbers are to fail.
    pub(crate) fn new(failing: Vec<u64>) -> Self
        ensures { result ≡ record { failing = failing; calls = 0; faults = 0 } }
    {
        FaultPlan {
            failing,
            calls: 0,
            faults: 0,
        }
    }

    /// Counts a call, and says whether it is to fail.
    pub(crate) fn next_fails(&mut self) -> bool
        ensures failing { IsTrue result ↔ Contains self.old.failing.items self.old.calls }
        ensures more { IsTrue result → self.new.faults ≡ spec.one_more self.old.faults }
        ensures faults_stay { IsFalse result → self.new.faults ≡ self.old.faults }
        ensures rose { IsTrue result → Rose self.old.faults self.new.faults }
        ensures later { self.old.faults ≤ self.new.faults }
        ensures counted { self.new.calls ≡ spec.one_more self.old.calls }
        ensures failing_stays { self.new.failing.items ≡ self.old.failing.items }
    {
        let fails = self.failing.contains(&self.calls);
        self.calls = one_more(self.calls);
        if fails {
            self.faults = one_more(self.faults);
        }
        fails
    }
}
