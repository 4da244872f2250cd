//! A sink over a real stream.
ghost use Rattle.std.specs.Prelude.{◌≡◌, None};

use crate::fault::one_more;
use crate::{OutFault, Sink};
use std::io;
use std::io::Write;

/// A stream, as standard output, that is flushed after each piece. It does not tell what it has taken.
#[derive(Drop)]
pub struct StreamSink<W: Write> {
    stream: W,
    faults: u64,
}

impl<W: Write> StreamSink<W> {
    /// A sink over this stream.
    pub fn new(stream: W) -> Self
        ensures { ⟦<StreamSink<W> as Sink>⟧.view result ≡ record { taken = None; refusals = 0; faults = 0 } }
    {
        StreamSink { stream, faults: 0 }
    }
}

// Writes the whole piece, and flushes.
fn write_and_flush<W: Write>(stream: &mut W, piece: &[u8]) -> io::Result<()> {
    stream.write_all(piece)?;
    stream.flush()
}

impl<W: Write> Sink for StreamSink<W> {
    ghost view = { λ sink. record { taken = None; refusals = sink.faults; faults = sink.faults } };

    /// Writes the piece and flushes the stream. An error of either is a fault, want of memory too.
    fn write(&mut self, piece: &[u8]) -> Result<(), OutFault> {
        if write_and_flush(&mut self.stream, piece).is_err() {
            self.faults = one_more(self.faults);
            return Err(OutFault::Failed);
        }
        Ok(())
    }

    /// How many pieces the stream refused.
    fn faults(&self) -> u64 {
        self.faults
    }
}
