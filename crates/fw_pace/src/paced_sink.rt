//! A sink that says how far a run is.
ghost use Rattle.std.specs.Prelude.{◌≡◌};

use fw_outside::{OutFault, Sink};
use std::alloc::{AllocError, Global};
use std::time::{Clock, Duration, Instant};

/// A run says nothing in its first second.
const FIRST_SECONDS: u64 = 1;

/// No more seconds than these lie between two notes, where something is printed.
const MOST_SECONDS: u64 = 10;

/// At most so many bytes of a line are shown.
const SHOWN: usize = 60;

/// A sink that hands all on to another one. Where it is awake it says on a second sink how long the run has taken, how many lines came,
/// and how the last one begins: first after a second, then after as long again as the run has taken, at most ten seconds.
#[derive(Drop)]
pub struct PacedSink<'a, S: Sink, N: Sink, C: Clock> {
    sink: S,
    pace: Option<Pace<'a, N, C>>,
}

/// How far a run is, and where that is told.
#[derive(Drop)]
struct Pace<'a, N: Sink, C: Clock> {
    alloc: Global,
    notes: N,
    clock: &'a C,
    began: Instant,
    next: Instant,
    lines: u64,
}

impl<'a, S: Sink, N: Sink + Drop, C: Clock> PacedSink<'a, S, N, C> {
    /// A sink that hands on to the first one. Where it is awake it says on the other how far the run is; where the clock can't be read it
    /// says nothing.
    pub fn new(alloc: Global, sink: S, notes: N, clock: &'a C, is_awake: bool) -> Self
        ensures { ⟦<PacedSink<'a, S, N, C> as Sink>⟧.view result ≡ S.view sink }
    {
        let pace = Pace::begin(alloc, notes, clock, is_awake);
        PacedSink { sink, pace }
    }
}

impl<'a, N: Sink + Drop, C: Clock> Pace<'a, N, C> {
    fn begin(alloc: Global, notes: N, clock: &'a C, is_awake: bool) -> Option<Self> {
        if !is_awake {
            return None;
        }
        let began = Instant::now(clock).ok()?;
        let next = began.checked_add(Duration::from_secs(FIRST_SECONDS))?;
        Some(Pace {
            alloc,
            notes,
            clock,
            began,
            next,
            lines: 0,
        })
    }

    // Counts the lines of a piece, and tells where it is time to. What can't be told, for want of memory or of a clock, is not.
    fn note(&mut self, piece: &[u8]) {
        let ends = piece.iter().filter(|byte| **byte == b'\n').count();
        self.lines = self.lines.saturating_add(ends as u64);
        if let Ok(now) = Instant::now(self.clock)
            && self.next <= now
        {
            let taken = now.duration_since(self.began);
            let pause = taken.min(Duration::from_secs(MOST_SECONDS));
            self.next = now.checked_add(pause).unwrap_or(now);
            let _ = self.tell(taken, piece);
        }
    }

    fn tell(&mut self, taken: Duration, piece: &[u8]) -> Result<(), AllocError> {
        let lines = self.lines;
        let seconds = taken.as_secs();
        let mut told = format!(in self.alloc; "after {seconds} s: {lines} lines, the last one ")?;
        told.push_str(head(piece))?;
        told.push_str("\n")?;
        let _ = self.notes.write(told.as_bytes());
        Ok(())
    }
}

// How the last line of a piece begins.
fn head(piece: &[u8]) -> &str {
    let line = piece
        .split(|byte| *byte == b'\n')
        .filter(|line| !line.is_empty())
        .last()
        .unwrap_or(piece);
    let shown = line.get(..SHOWN).unwrap_or(line);
    str::from_utf8(shown).unwrap_or("")
}

impl<S: Sink, N: Sink + Drop, C: Clock> Sink for PacedSink<'_, S, N, C> {
    ghost view = { λ it. S.view it.sink };

    /// Hands the piece on. Where it is taken it is counted.
    fn write(&mut self, piece: &[u8]) -> Result<(), OutFault> {
        let written = self.sink.write(piece);
        if written.is_ok()
            && let Some(pace) = &mut self.pace
        {
            pace.note(piece);
        }
        written
    }

    /// How many pieces the other sink refused by a fault.
    fn faults(&self) -> u64 {
        self.sink.faults()
    }
}
