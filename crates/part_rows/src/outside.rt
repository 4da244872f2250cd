//! The objects outside: real files, streams, and what lies in memory; and generated texts.
use fw_generate::{Texts, generate};
use fw_outside::{
    FaultlessFolder, FaultlessSink, FetchFault, Folder, FoulStore, MemText, OutFault, Sink, Store,
};
use fw_telling::{ReadFolder, TellingSink};
use row_words::{Answers, NoAnswer, Row, part, show, tell_row};
use std::alloc::{AllocError, Global};
use std::fmt::Write;
use std::io::BufWriter;
use std::rt::Files;

/// Real files, those of them that were read, and what the last call left that got bytes.
#[derive(Drop)]
struct Outside<'a, R: Files> {
    alloc: Global,
    files: &'a R,
    folder: ReadFolder,
    bytes: Vec<u8>,
}

/// Tells what became of each call. One that gets bytes finds in their place what the one before it left.
pub fn tell<R: Files>(
    alloc: Global,
    files: &R,
    row: Row<'_>,
    told: &mut String,
) -> Result<(), AllocError> {
    let mut outside = Outside {
        alloc,
        files,
        folder: ReadFolder::read(alloc, files, &[], 0)?,
        bytes: Vec::new(alloc),
    };
    tell_row(alloc, row, &mut outside, told)
}

impl<R: Files> Answers for Outside<'_, R> {
    ghost stands = { λ _. Unit {0} };

    fn answer(&mut self, line: &str, said: &mut String) -> Result<(), NoAnswer> {
        let alloc = self.alloc;
        let (word, rest) = part(line);
        match word {
            "read" => self.read(rest, said),
            "file" => fetch(&mut self.folder, rest, &mut self.bytes, said),
            "text" => fetch_from_memory(alloc, rest, &mut self.bytes, said),
            "stream" => stream(alloc, rest, said),
            "buffered" => buffer(alloc, rest, said),
            "sink" => take(alloc, rest, said),
            "misused" => misuse(alloc, rest, said),
            "generate" => texts(alloc, rest, said),
            _ => Err(NoAnswer::NotSpelled),
        }
    }
}

impl<R: Files> Outside<'_, R> {
    /// Reads the files of names, at most so many bytes of each and one more: `LIMIT NAME ..`.
    fn read(&mut self, words: &str, said: &mut String) -> Result<(), NoAnswer> {
        let (limit, names) = part(words);
        let limit = usize::from(limit.parse::<u16>()?);
        let names: Vec<&str> = names.split_whitespace().collect(self.alloc)?;
        self.folder = ReadFolder::read(self.alloc, self.files, &names, limit)?;
        write!(said, "names {}", names.len())?;
        Ok(())
    }
}

/// What became of a call, the bytes that it left, and how often the object failed so far.
fn say_outcome(became: &str, bytes: &[u8], faults: u64, said: &mut String) -> Result<(), NoAnswer> {
    write!(said, "{became} \"")?;
    show(bytes, said)?;
    write!(said, "\" faults {faults}")?;
    Ok(())
}

/// What a folder gives of a text of a name, at most so many bytes: `NAME LIMIT`.
fn fetch<F: Folder>(
    folder: &mut F,
    words: &str,
    into: &mut Vec<u8>,
    said: &mut String,
) -> Result<(), NoAnswer> {
    let (name, limit) = part(words);
    let limit = usize::from(limit.parse::<u16>()?);
    let became = match folder.fetch(name, limit, into) {
        Ok(()) => "whole",
        Err(FetchFault::TooLarge) => "too large",
        Err(FetchFault::Failed) => "failed",
        Err(FetchFault::NoMemory) => return Err(NoAnswer::NoMemory),
    };
    say_outcome(became, into, folder.faults(), said)
}

/// What a folder in memory that never fails gives, whose text `text` is the first word.
fn fetch_from_memory(
    alloc: Global,
    words: &str,
    into: &mut Vec<u8>,
    said: &mut String,
) -> Result<(), NoAnswer> {
    let (text, rest) = part(words);
    let mut texts = Vec::new(alloc);
    texts.push(MemText::new(alloc, "text", text.as_bytes())?)?;
    fetch(&mut FaultlessFolder::new(texts), rest, into, said)
}

/// What became of pieces that a sink is given.
fn written<S: Sink>(sink: &mut S, pieces: &str) -> Result<&'static str, NoAnswer> {
    for piece in pieces.split_whitespace() {
        match sink.write(piece.as_bytes()) {
            Ok(()) => {}
            Err(OutFault::Failed) => return Ok("failed"),
            Err(OutFault::NoMemory) => return Err(NoAnswer::NoMemory),
        }
    }
    Ok("taken")
}

/// What became of pieces that a stream into a buffer of so many bytes is given.
fn stream(alloc: Global, words: &str, said: &mut String) -> Result<(), NoAnswer> {
    let (room, pieces) = part(words);
    let room = usize::from(room.parse::<u16>()?);
    let mut buffer = vec![in alloc; 0u8; room]?;
    let mut sink = TellingSink::new(buffer.as_mut_slice());
    let became = written(&mut sink, pieces)?;
    say_outcome(became, b"", sink.faults(), said)
}

/// What a stream behind a buffer has of the pieces that it was given.
fn buffer(alloc: Global, pieces: &str, said: &mut String) -> Result<(), NoAnswer> {
    let Ok(mut writer) = BufWriter::new(alloc, Vec::new(alloc)) else {
        return Err(NoAnswer::NoMemory);
    };
    let mut sink = TellingSink::new(&mut writer);
    let became = written(&mut sink, pieces)?;
    let faults = sink.faults();
    say_outcome(became, writer.get_ref(), faults, said)
}

/// What a sink in memory that never fails has of the pieces that it was given.
fn take(alloc: Global, pieces: &str, said: &mut String) -> Result<(), NoAnswer> {
    let mut sink = FaultlessSink::new(alloc);
    let became = written(&mut sink, pieces)?;
    say_outcome(became, sink.taken(), sink.faults(), said)
}

/// How often a store that tells nothing fails where a record is put twice, one is got that is not there, and one is removed
/// twice.
fn misuse(alloc: Global, record: &str, said: &mut String) -> Result<(), NoAnswer> {
    let mut store = FoulStore::new(alloc, Vec::new(alloc));
    let mut into = Vec::new(alloc);
    let _ = store.put(3, record.as_bytes());
    let _ = store.put(3, record.as_bytes());
    let _ = store.get(4, &mut into);
    let _ = store.remove(3);
    let _ = store.remove(3);
    write!(said, "faults {}", store.faults())?;
    Ok(())
}

/// The texts of a seed and a size: `SEED SIZE`.
fn texts(alloc: Global, words: &str, said: &mut String) -> Result<(), NoAnswer> {
    let (seed, size) = part(words);
    let texts = generate(alloc, seed.parse::<u64>()?, size.parse::<u32>()?)?;
    say_texts(&texts, said)
}

/// Says texts.
fn say_texts(texts: &Texts, said: &mut String) -> Result<(), NoAnswer> {
    write!(said, "flow\n{}", texts.flow())?;
    write!(said, "\ninputs\n{}", texts.inputs())?;
    write!(said, "\nschedule\n{}", texts.schedule())?;
    Ok(())
}
