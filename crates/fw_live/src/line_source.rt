//! Where lines come from.
ghost use Rattle.std.specs.Prelude.{◌≡◌, ◌^◌, ◌<◌, ℕ, Bool, List, Option};
ghost use Rattle.fw_outside.specs.Outside.{faults_after};
ghost use Rattle.fw_live.specs.Given.{ends_after, gives_after};

use fw_outside::OutFault;

/// What a source of lines answers.
#[derive(Clone, Copy, Debug, PartialEq, Eq)]
pub enum NextLine {
    /// A line.
    Line,
    /// A line that is longer than the limit: it is passed over.
    TooLong,
    /// No line comes any more.
    End,
}

/// A source of lines.
pub trait LineSource {
    /// The lines that it gave, each by its bytes, or by nothing where it was too long; or nothing, where the source does not tell.
    ghost given: { Self → Option (List (Option (List ℕ))) };

    /// Whether it told that no line comes any more.
    ghost ended: { Self → Bool };

    /// How often it failed: once for each call that answers `Failed`; a count of 2^64 - 1 stands for that many or more.
    ghost fault_count: { Self → ℕ };

    /// Puts the bytes of the next line, without the line feed that ends it, into `into`, in place of what was there. One that is longer
    /// than the limit may be passed over. That a line which is told as too long is longer, no clause of a source says.
    ///
    /// # Errors
    ///
    /// `Failed` where the source fails, `NoMemory` where memory is refused, which may come at any time. Then no line was given.
    fn next(&mut self, limit: usize, into: &mut Vec<u8>) -> Result<NextLine, OutFault>
        requires { limit < 2 ^ 32 }
        ensures given { given self.new ≡ gives_after result into.new.items (given self.old) }
        ensures ended { ended self.new ≡ ends_after result (ended self.old) }
        ensures faults { fault_count self.new ≡ faults_after result (fault_count self.old) };
}
