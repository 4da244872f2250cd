//! Lines of a real stream.
ghost use Rattle.std.specs.Prelude.{◌≡◌, ◌≢◌, ◌<◌, ◌++◌, [], List, ℕ, All, Some, IfOk, IfSome, OnOk, get_or, length, true};
ghost use Rattle.std.specs.Io.BufRead.{DropsThrough};
ghost use Rattle.fw_live.specs.Asked as asked;
ghost use Rattle.fw_live.specs.Given.{IsLineOf, MeetsBy, ends_after, gives_after, lines_heard};
ghost use Rattle.fw_outside.specs.Outside as spec;
ghost use Rattle.fw_outside.specs.Outside.{faults_after};

use crate::asked::first_line;
use crate::line_source::{LineSource, NextLine};
use fw_heard::Heard;
use fw_outside::OutFault;
use std::io;
use std::io::{BufRead, ErrorKind};

/// The lines of a stream, as standard input. It tells those that it handed over.
#[derive(Drop)]
pub struct StreamLines<R: BufRead> {
    stream: R,
    ended: bool,
    faults: u64,
    heard: Heard,
}

// What a part of a line ends at: a line feed, the end of the stream, or what the stream shows at once.
#[derive(Clone, Copy)]
enum Met {
    LineFeed,
    End,
    Part,
}

impl<R: BufRead> StreamLines<R> {
    /// The lines of this stream.
    pub fn new(stream: R) -> Self
        ensures { ⟦<StreamLines<R> as LineSource>⟧.given result ≡ Some [] }
    {
        StreamLines {
            stream,
            ended: false,
            faults: 0,
            heard: Heard::new(),
        }
    }
}

impl<R: BufRead> LineSource for StreamLines<R> {
    ghost given = { λ lines. Some (lines_heard lines.heard.notes) };

    ghost ended = { λ lines. lines.ended };

    ghost fault_count = { λ lines. lines.faults };

    /// An error of the stream is a fault, want of memory too. The last line may have no line feed. Of a stream that tells its bytes its
    /// first line comes, and the bytes behind it are left; a line that is told as too long is longer than the limit; and the end is told
    /// where no byte is left.
    fn next(&mut self, limit: usize, into: &mut Vec<u8>) -> Result<NextLine, OutFault>
        ensures given { Some (lines_heard self.new.heard.notes) ≡ gives_after result into.new.items (Some (lines_heard self.old.heard.notes)) }
        ensures ended { self.new.ended ≡ ends_after result self.old.ended }
        ensures faults { self.new.faults ≡ faults_after result self.old.faults }
        ensures line { IfOk result (λ next. IfSome (R.Read.remaining self.old.stream) (λ bytes. IsLineOf limit bytes next into.new.items)) }
        ensures rest { OnOk result (DropsThrough (R.Read.remaining self.old.stream) (R.Read.remaining self.new.stream) 10) }
    {
        match read_line(&mut self.stream, limit, into) {
            Ok(NextLine::Line) => {
                self.heard.note(&[0], into);
                Ok(NextLine::Line)
            }
            Ok(NextLine::TooLong) => {
                self.heard.note(&[], &[]);
                Ok(NextLine::TooLong)
            }
            Ok(NextLine::End) => {
                self.ended = true;
                Ok(NextLine::End)
            }
            Err(_) => {
                self.faults = one_more(self.faults);
                Err(OutFault::Failed)
            }
        }
    }
}

// Reads a line of at most so many bytes; a longer one is passed over.
fn read_line<R: BufRead>(stream: &mut R, limit: usize, into: &mut Vec<u8>) -> io::Result<NextLine>
    ensures line { IfOk result (λ next. IfSome (R.Read.remaining stream.old) (λ bytes. IsLineOf limit bytes next into.new.items)) }
    ensures rest { OnOk result (DropsThrough (R.Read.remaining stream.old) (R.Read.remaining stream.new) 10) }
{
    into.clear();
    for _ in 0..u64::MAX {
        match read_part(stream, into)? {
            Met::LineFeed => return Ok(line_within(limit, into)),
            Met::End if into.is_empty() => return Ok(NextLine::End),
            Met::End => return Ok(line_within(limit, into)),
            Met::Part => {}
        }
        if into.len() > limit {
            stream.skip_until(b'\n')?;
            return Ok(NextLine::TooLong);
        }
    }
    Err(io::Error::from(ErrorKind::TimedOut))
}

// Whether a line is within the limit.
fn line_within(limit: usize, line: &[u8]) -> NextLine
    ensures { (bytes : List ℕ) → bytes ≢ [] → line.now ≡ asked.first_line bytes → IsLineOf limit bytes result line.now }
{
    if line.len() <= limit {
        NextLine::Line
    } else {
        NextLine::TooLong
    }
}

// Reads what a stream shows of a line, and the line feed behind it.
fn read_part<R: BufRead>(stream: &mut R, into: &mut Vec<u8>) -> io::Result<Met>
    ensures part { IfOk result (λ met. (bytes : List ℕ) × (into.new.items ≡ into.old.items ++ bytes) × All (λ b. b ≢ 10) bytes
        × MeetsBy met (R.Read.remaining stream.old) (R.Read.remaining stream.new) bytes) }
{
    let shown = match stream.fill_buf() {
        Ok(shown) => shown,
        Err(error) if error.kind() == ErrorKind::Interrupted => return Ok(Met::Part),
        Err(error) => return Err(error),
    };
    if shown.is_empty() {
        return Ok(Met::End);
    }
    let part = first_line(shown);
    let count = part.len();
    let ends = is_line_feed_at(shown, count);
    into.extend_from_slice(part)?;
    if ends {
        stream.consume(count + 1);
        return Ok(Met::LineFeed);
    }
    stream.consume(count);
    Ok(Met::Part)
}

// Whether a line feed stands there.
fn is_line_feed_at(shown: &[u8], at: usize) -> bool
    ensures { result ≡ true → (at < length shown.now) × (get_or shown.now at 0 ≡ 10) }
{
    if at < shown.len() {
        shown[at] == b'\n'
    } else {
        false
    }
}

// A count with one more.
fn one_more(count: u64) -> u64
    ensures { result ≡ spec.one_more count }
{
    count.saturating_add(1)
}
