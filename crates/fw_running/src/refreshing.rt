//! The kept frontiers are brought up.
ghost use Rattle.std.specs.Prelude.{◌≡◌, ◌<◌, OnOk};
ghost use Rattle.fw_running.specs.BroughtUp.{AreNoted, IsBroughtUp};
ghost use Rattle.fw_running.specs.Shaped.{IsShaped};

use crate::{Ready, Running};
use fw_flow::Steps;
use fw_progress::Growth;
use std::alloc::AllocError;
use std::marker::Brand;
use std::sync::ledger::{Blank, Ledger};

impl Running {
    /// The kept frontiers are complete from now on, and where they grew is noted. The error is want of memory.
    pub fn refresh(&mut self) -> Result<(), AllocError>
        requires shaped { IsShaped self.old }
        ensures flow { self.new.flow ≡ self.old.flow }
        ensures parts { self.new.parts ≡ self.old.parts }
        ensures up { OnOk result (IsBroughtUp self.old self.new) }
        ensures shaped { OnOk result (IsShaped self.new) }
    {
        self.refresh_by::<Brand>(Blank::new(1))
    }

    // The same by a counter of its own.
    fn refresh_by<L: Ledger>(&mut self, blank: Blank) -> Result<(), AllocError>
        requires shaped { IsShaped self.old }
        requires name { blank.name ≡ L.name }
        requires parts { blank.parts ≡ L.parts }
        requires some { 0 < L.parts }
        ensures flow { self.new.flow ≡ self.old.flow }
        ensures parts { self.new.parts ≡ self.old.parts }
        ensures up { OnOk result (IsBroughtUp self.old self.new) }
        ensures shaped { OnOk result (IsShaped self.new) }
    {
        let mut steps = Steps::<L>::none(blank);
        let growths = self.progress.refresh(self.alloc, &self.flow, &mut steps)?;
        note_growths(&mut self.ready, &growths)?;
        Ok(())
    }
}

// Where frontiers grew is noted. The error is want of memory.
fn note_growths(ready: &mut Ready, growths: &[Growth]) -> Result<(), AllocError>
    ensures others { ready.new ≡ record ready.old { growing = ready.new.growing } }
    ensures noted { OnOk result (AreNoted growths.now ready.old.growing ready.new.growing) }
{
    for growth in growths {
        ready.put_growing(growth.node)?;
    }
    Ok(())
}
