//! What a run acknowledges, as it is printed.
ghost use Rattle.std.specs.Prelude.{◌≡◌};

use fw_outside::{OutFault, Sink};
use std::alloc::{AllocError, Global};

/// A sink that hands all on to another one, and counts the epochs that the lines acknowledge.
#[derive(Drop)]
pub struct AckSink<S: Sink> {
    sink: S,
    acks: Acks,
}

/// How many epochs each output has acknowledged.
#[derive(Drop)]
pub(crate) struct Acks {
    alloc: Global,
    counts: Vec<Count>,
    // false where memory was refused, so that one is missing
    is_whole: bool,
}

/// How many epochs an output has acknowledged.
#[derive(Drop)]
struct Count {
    output: Vec<u8>,
    epochs: u64,
}

impl<S: Sink> AckSink<S> {
    /// A sink that hands on to this one, and has counted nothing.
    pub fn new(alloc: Global, sink: S) -> Self
        ensures { ⟦<AckSink<S> as Sink>⟧.view result ≡ S.view sink }
    {
        let acks = Acks {
            alloc,
            counts: Vec::new(alloc),
            is_whole: true,
        };
        AckSink { sink, acks }
    }

    /// What was acknowledged so far.
    pub(crate) fn acks(&self) -> &Acks {
        &self.acks
    }
}

impl Acks {
    /// How many epochs an output has acknowledged; nothing where that is not known, for want of memory.
    pub(crate) fn epochs(&self, output: &[u8]) -> Option<u64> {
        if !self.is_whole {
            return None;
        }
        match self.place_of(output) {
            Some(place) => Some(self.counts.get(place)?.epochs),
            None => Some(0),
        }
    }

    // Counts what a line acknowledges.
    fn note(&mut self, line: &[u8]) {
        if self.count(line).is_err() {
            self.is_whole = false;
        }
    }

    fn count(&mut self, line: &[u8]) -> Result<(), AllocError> {
        let Some(output) = acknowledging(line) else {
            return Ok(());
        };
        if let Some(place) = self.place_of(output) {
            self.add_one(place);
            return Ok(());
        }
        let output = Vec::from_slice(self.alloc, output)?;
        self.counts.push(Count { output, epochs: 1 })?;
        Ok(())
    }

    fn place_of(&self, output: &[u8]) -> Option<usize> {
        for (place, it) in self.counts.iter().enumerate() {
            if it.output.as_slice() == output {
                return Some(place);
            }
        }
        None
    }

    fn add_one(&mut self, place: usize) {
        if let Some(it) = self.counts.get_mut(place) {
            it.epochs = it.epochs.saturating_add(1);
        }
    }
}

// The output of a line `ack OUTPUT ..`.
fn acknowledging(line: &[u8]) -> Option<&[u8]> {
    let mut words = line.split(|byte| *byte == b' ');
    let verb = words.next()?;
    if verb != b"ack".as_slice() {
        return None;
    }
    words.next()
}

impl<S: Sink> Sink for AckSink<S> {
    ghost view = { λ it. S.view it.sink };

    /// Hands the piece on. Where it is taken, what it acknowledges is counted.
    fn write(&mut self, piece: &[u8]) -> Result<(), OutFault> {
        let written = self.sink.write(piece);
        if written.is_ok() {
            self.acks.note(piece);
        }
        written
    }

    /// How many pieces the other sink refused by a fault.
    fn faults(&self) -> u64 {
        self.sink.faults()
    }
}
