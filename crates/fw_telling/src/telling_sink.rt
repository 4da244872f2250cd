//! A sink over a stream.
ghost use Rattle.std.specs.Prelude.{◌≡◌, [], Some, IfOk, OnOk, OnErr};
ghost use Rattle.std.specs.Io.KnownBytes.{Appends, Keeps};
ghost use Rattle.fw_outside.specs.Outside.{Takes, TakesPrefix, faults_after, refusals_after};
ghost use Rattle.fw_telling.specs.Handed.{AppendsPart, HasTaken, bytes_taken};

use fw_heard::Heard;
use fw_outside::{OutFault, Sink};
use std::io;
use std::io::{ErrorKind, Write};

/// A stream, as standard output, that is flushed after each piece. It tells the pieces that it handed to the stream and that the
/// stream answered for, one after the other; that they came out is the stream's to keep.
#[derive(Drop)]
pub struct TellingSink<W: Write> {
    stream: W,
    faults: u64,
    heard: Heard,
}

impl<W: Write> TellingSink<W> {
    /// A sink over this stream, which it has handed nothing.
    pub fn new(stream: W) -> Self
        ensures { ⟦<TellingSink<W> as Sink>⟧.view result ≡ record { taken = Some []; refusals = 0; faults = 0 } }
    {
        TellingSink {
            stream,
            faults: 0,
            heard: Heard::new(),
        }
    }
}

// Writes the whole piece, and flushes.
fn write_and_flush<W: Write>(stream: &mut W, piece: &[u8]) -> io::Result<()>
    ensures whole { OnOk result (Appends (W.contents stream.old) (W.contents stream.new) piece.now) }
    ensures part { OnErr result (AppendsPart (W.contents stream.old) (W.contents stream.new) piece.now) }
{
    write_parts(stream, piece)?;
    stream.flush()
}

// Writes the whole piece, part by part. Where the stream takes no more, it has taken a first part of the piece, and nothing else.
fn write_parts<W: Write>(stream: &mut W, piece: &[u8]) -> io::Result<()>
    ensures whole { OnOk result (Appends (W.contents stream.old) (W.contents stream.new) piece.now) }
    ensures part { OnErr result (AppendsPart (W.contents stream.old) (W.contents stream.new) piece.now) }
{
    let mut left = piece;
    for _ in 0..u64::MAX {
        if left.is_empty() {
            return Ok(());
        }
        left = write_part(stream, left)?;
    }
    Err(io::Error::from(ErrorKind::WriteZero))
}

// Writes a first part of what is left of a piece. Behind it this is left; all of it, where the call was interrupted.
#[tactic(auto, using(crate::proofs::Parts::taken, crate::proofs::Parts::none_taken_yet))]
fn write_part<'a, W: Write>(stream: &mut W, left: &'a [u8]) -> io::Result<&'a [u8]>
    ensures taken { IfOk result (λ later. HasTaken (W.contents stream.old) (W.contents stream.new) left.now later.now) }
    ensures none { OnErr result (Keeps (W.contents stream.old) (W.contents stream.new)) }
{
    match stream.write(left) {
        Ok(0) => Err(io::Error::from(ErrorKind::WriteZero)),
        Ok(count) => Ok(&left[count..]),
        Err(error) if error.kind() == ErrorKind::Interrupted => Ok(left),
        Err(error) => Err(error),
    }
}

impl<W: Write> Sink for TellingSink<W> {
    ghost view = { λ sink. record {
      taken = Some (bytes_taken sink.heard.notes);
      refusals = sink.faults;
      faults = sink.faults;
    } };

    /// Writes the piece and flushes the stream. An error of either is a fault, want of memory too; of such a piece it tells nothing. A
    /// stream that tells its bytes has this piece more, where the answer is Ok, and else a first part of it, or all.
    fn write(&mut self, piece: &[u8]) -> Result<(), OutFault>
        ensures whole { OnOk result (Takes (Some (bytes_taken self.old.heard.notes)) piece.now (Some (bytes_taken self.new.heard.notes))) }
        ensures refused { OnErr result (TakesPrefix (Some (bytes_taken self.old.heard.notes)) piece.now (Some (bytes_taken self.new.heard.notes))) }
        ensures untold { OnErr result (bytes_taken self.new.heard.notes ≡ bytes_taken self.old.heard.notes) }
        ensures refusals { self.new.faults ≡ refusals_after result self.old.faults }
        ensures faults { self.new.faults ≡ faults_after result self.old.faults }
        ensures written { OnOk result (Appends (W.contents self.old.stream) (W.contents self.new.stream) piece.now) }
        ensures part { OnErr result (AppendsPart (W.contents self.old.stream) (W.contents self.new.stream) piece.now) }
    {
        if write_and_flush(&mut self.stream, piece).is_err() {
            self.faults = self.faults.saturating_add(1);
            return Err(OutFault::Failed);
        }
        self.heard.note(&[], piece);
        Ok(())
    }

    /// How many pieces the stream refused.
    fn faults(&self) -> u64 {
        self.faults
    }
}
