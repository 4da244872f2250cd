//! Standard output, as the programs print on it.
ghost use Rattle.std.specs.Prelude.{◌≡◌, [], Some};

use crate::PacedSink;
use fw_outside::Sink;
use fw_telling::TellingSink;
use std::io::IsTerminal;
use std::rt::{Stderr, Stdout};

/// Standard output, which may say on standard error how far a run is.
pub type Printed<'a> = PacedSink<'a, TellingSink<Stdout>, TellingSink<Stderr>, HostRuntime>;

/// Standard output, to which nothing was handed yet. Where a person is told, and what is printed is not shown on a terminal, it says on
/// standard error how far a long run is.
pub fn printed<'a>(rt: &'a HostRuntime, is_person: bool) -> Printed<'a>
    ensures { ⟦<Printed<'a> as Sink>⟧.view result ≡ record { taken = Some []; refusals = 0; faults = 0 } }
{
    let is_awake = is_person && !rt.stdout().is_terminal();
    let out = TellingSink::new(rt.stdout());
    let notes = TellingSink::new(rt.stderr());
    PacedSink::new(rt.alloc(), out, notes, rt, is_awake)
}
