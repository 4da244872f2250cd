//! Sinks in memory.
ghost use Rattle.std.specs.Prelude.{◌≡◌, [], Some};

use crate::fault::{FaultPlan, one_more};
use crate::{OutFault, Sink};
use std::alloc::{AllocError, Global};

/// A sink in memory that tells what it has taken and never fails; want of memory aside it takes each piece.
#[derive(Debug, Drop)]
pub struct FaultlessSink {
    taken: Vec<u8>,
    refusals: u64,
}

impl FaultlessSink {
    /// A sink that has taken nothing.
    pub fn new(alloc: Global) -> Self
        ensures { ⟦<FaultlessSink as Sink>⟧.view result ≡ record { taken = Some []; refusals = 0; faults = 0 } }
    {
        FaultlessSink {
            taken: Vec::new(alloc),
            refusals: 0,
        }
    }

    /// All bytes that it has taken.
    pub fn taken(&self) -> &[u8]
        ensures { (⟦<FaultlessSink as Sink>⟧.view self.now).taken ≡ Some result.now }
    {
        &self.taken
    }
}

impl Sink for FaultlessSink {
    ghost view = { λ sink. record { taken = Some sink.taken.items; refusals = sink.refusals; faults = 0 } };

    fn write(&mut self, piece: &[u8]) -> Result<(), OutFault> {
        if self.taken.extend_from_slice(piece).is_err() {
            self.refusals = one_more(self.refusals);
            return Err(OutFault::NoMemory);
        }
        Ok(())
    }

    fn faults(&self) -> u64 {
        0
    }
}

/// A sink in memory that tells what it has taken and has a list of calls that are to fail, which take nothing.
#[derive(Debug, Drop)]
pub struct MemSink {
    sink: FaultlessSink,
    plan: FaultPlan,
}

impl MemSink {
    /// A sink that has taken nothing, whose writes of these numbers are to fail.
    pub fn new(alloc: Global, failing: Vec<u64>) -> Self
        ensures { ⟦<MemSink as Sink>⟧.view result ≡ record { taken = Some []; refusals = 0; faults = 0 } }
    {
        MemSink {
            sink: FaultlessSink::new(alloc),
            plan: FaultPlan::new(failing),
        }
    }

    /// All bytes that it has taken.
    pub fn taken(&self) -> &[u8]
        ensures { (⟦<MemSink as Sink>⟧.view self.now).taken ≡ Some result.now }
    {
        self.sink.taken()
    }
}

impl Sink for MemSink {
    ghost view = { λ sink. record { taken = Some sink.sink.taken.items; refusals = sink.sink.refusals; faults = sink.plan.faults } };

    fn write(&mut self, piece: &[u8]) -> Result<(), OutFault> {
        if self.plan.next_fails() {
            self.sink.refusals = one_more(self.sink.refusals);
            return Err(OutFault::Failed);
        }
        self.sink.write(piece)
    }

    fn faults(&self) -> u64 {
        self.plan.faults
    }
}
