//! Where text goes.
ghost use Rattle.std.specs.Prelude.{◌≡◌, OnOk, OnErr};
ghost use Rattle.fw_outside.specs.Outside.{SinkView, Takes, TakesPrefix, faults_after, refusals_after};

use crate::OutFault;

/// A sink of text.
pub trait Sink {
    /// What it has taken, where it tells that, and its counts of refusals, one for each call that answers an error, and of
    /// faults, one for each call that answers `Failed`; a count of 2^64 - 1 stands for that many or more.
    ghost view: { Self → SinkView };

    /// Takes the whole piece.
    ///
    /// # Errors
    ///
    /// `Failed` where the sink fails, `NoMemory` where memory is refused, which may come at any time. Then some first
    /// bytes of the piece may have been taken. A later call may succeed.
    fn write(&mut self, piece: &[u8]) -> Result<(), OutFault>
        ensures whole { OnOk result (Takes (view self.old).taken piece.now (view self.new).taken) }
        ensures refused { OnErr result (TakesPrefix (view self.old).taken piece.now (view self.new).taken) }
        ensures refusals { (view self.new).refusals ≡ refusals_after result (view self.old).refusals }
        ensures faults { (view self.new).faults ≡ faults_after result (view self.old).faults };

    /// How often the sink failed; a count of 2^64 - 1 stands for that many or more.
    fn faults(&self) -> u64
        ensures { result ≡ (view self.now).faults };
}
