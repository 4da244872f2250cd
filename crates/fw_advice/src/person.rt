//! A person at a terminal: what is told to them before a run and behind the line that programs read.
use crate::acks::AckSink;
use crate::refusing::{Refused, advice};
use crate::shown::{Shown, plain};
use crate::usage::{Program, usage};
use crate::warnings::{RunTexts, flow_warnings, run_warnings};
use fw_flow_text::read_flow;
use fw_lines::Refusal;
use fw_outside::Sink;
use std::alloc::{AllocError, Global};
use std::io::{ErrorKind, Read};
use std::rt::Files;
use std::{fs, io};

/// What is told of a held run over a store in memory.
const NOTHING_KEPT: &str =
    "hold: nothing is kept when this program ends; falkirk_disk FOLDER hold keeps it in a folder\n";

/// At most so many bytes of a text are looked at.
const LOOKED_AT: u64 = 16_777_217;

/// A call of a program: the words behind its name, of `falkirk_disk` those behind the folder's name.
#[derive(Clone, Copy, Debug)]
pub struct Call<'a> {
    /// The program.
    pub program: Program,
    /// The words.
    pub words: &'a [&'a str],
    /// Whether standard error is a terminal; else nothing is told beside the lines that programs read.
    pub is_person: bool,
}

/// How a program ended.
#[derive(Clone, Copy, Debug)]
pub struct Ended {
    /// The number of its status.
    pub number: u8,
    /// The refusal, where a text is refused.
    pub refusal: Option<Refusal>,
}

/// Warns of what leads nowhere in the flow of a run, before it begins. Of a text that can't be read or is refused, or for want of
/// memory, it says nothing.
pub fn warn_before<R: Files, N: Sink>(alloc: Global, files: &R, call: Call<'_>, notes: &mut N) {
    let [verb, flow, ..] = call.words else {
        return;
    };
    if !call.is_person || *verb == "gen" {
        return;
    }
    if *verb == "hold" && call.program == Program::Falkirk {
        tell(alloc, NOTHING_KEPT, notes);
    }
    if let Ok(text) = fetched(alloc, files, flow)
        && read_flow(alloc, text.as_slice()).is_ok()
        && let Ok(told) = flow_warnings(alloc, flow, text.as_slice())
    {
        tell(alloc, told.as_str(), notes);
    }
}

/// Tells more behind the line of a status: why, where and what to do, or what a run has left unacknowledged.
pub fn tell_after<R: Files, N: Sink, S: Sink>(
    alloc: Global,
    files: &R,
    call: Call<'_>,
    ended: Ended,
    out: &AckSink<S>,
    notes: &mut N,
) {
    if !call.is_person {
        return;
    }
    if let Some(refusal) = ended.refusal {
        tell_refused(alloc, files, call, refusal, notes);
        return;
    }
    let told = match ended.number {
        0 => unacknowledged(alloc, files, call, out),
        2 => usage(alloc, call.program, call.words),
        6 => unread(alloc, files, call),
        number => String::from_str(alloc, why(number, is_held(call))),
    };
    if let Ok(told) = told {
        tell(alloc, told.as_str(), notes);
    }
}

// Writes what of a text may be shown; a refused write changes nothing.
fn tell<N: Sink>(alloc: Global, told: &str, notes: &mut N) {
    if let Ok(bytes) = plain(alloc, told) {
        let _ = notes.write(bytes.as_slice());
    }
}

// The text of a file, once more; of what is no file, as a pipe, nothing is read.
fn fetched<R: Files>(alloc: Global, files: &R, name: &str) -> io::Result<Vec<u8>> {
    let mut text = Vec::new(alloc);
    if files.metadata(name)?.is_file() {
        fs::open(files, name)?
            .take(LOOKED_AT)
            .read_to_end(&mut text)?;
    }
    Ok(text)
}

// Tells why a text is refused.
fn tell_refused<R: Files, N: Sink>(
    alloc: Global,
    files: &R,
    call: Call<'_>,
    refusal: Refusal,
    notes: &mut N,
) {
    let Some((name, flow)) = names_of(call.words, refusal) else {
        return;
    };
    let Ok(text) = fetched(alloc, files, name) else {
        return;
    };
    let Ok(flow) = fetched(alloc, files, flow) else {
        return;
    };
    let refused = Refused {
        refusal,
        name,
        text: text.as_slice(),
        flow: flow.as_slice(),
    };
    if let Ok(bytes) = advice(alloc, &refused) {
        let _ = notes.write(bytes.as_slice());
    }
}

// The names of the text that is refused and of the flow.
fn names_of<'a>(words: &'a [&'a str], refusal: Refusal) -> Option<(&'a str, &'a str)> {
    let place = match refusal.code.as_str().as_bytes() {
        [b'F', ..] => 1,
        [b'I', ..] => 2,
        _ => 3,
    };
    let flow = words.get(1).copied()?;
    let name = words.get(place).copied()?;
    Some((name, flow))
}

// Which file could not be read, and the system's cause.
fn unread<R: Files>(alloc: Global, files: &R, call: Call<'_>) -> Result<String, AllocError> {
    let mut told = String::new(alloc);
    for name in call.words.iter().skip(1) {
        let file = Shown(name.as_bytes());
        if let Err(error) = looked_at(alloc, files, name) {
            let hint = hint_of(error.kind());
            write!(told, "{file}: {error}{hint}\n")?;
            break;
        }
    }
    Ok(told)
}

// Reads a file, to see the system's cause.
fn looked_at<R: Files>(alloc: Global, files: &R, name: &str) -> io::Result<()> {
    let mut text = Vec::new(alloc);
    if files.metadata(name)?.is_dir() {
        return Err(ErrorKind::IsADirectory.into());
    }
    fs::open(files, name)?.take(1).read_to_end(&mut text)?;
    Ok(())
}

// What to do at a cause.
fn hint_of(kind: ErrorKind) -> &'static str {
    match kind {
        ErrorKind::NotFound => " (names are taken from the folder in which the program is called)",
        ErrorKind::PermissionDenied => " (its owner can let you read it by chmod)",
        ErrorKind::IsADirectory => " (name a file in it)",
        _ => "",
    }
}

// Whether these are the words of a held run.
fn is_held(call: Call<'_>) -> bool {
    matches!(call.words, ["hold", ..])
}

// Why a program ended with one of the other statuses, and what to do; of a held run, or of another command.
fn why(number: u8, is_held: bool) -> &'static str {
    match number {
        7 if is_held =>
            "  standard output took no more: what reads it has ended, or its disk is full. Start again with the same words: the last lines come once more\n",
        8 if is_held =>
            "  the store failed: is its folder there? Is there room on its disk? May you write there? Mend it, and start again with the same words\n",
        9 if is_held =>
            "  a record or a root was changed in the store's folder: no start can go on from it; begin with an empty folder\n",
        11 =>
            "  the folder holds a run of other texts: name the texts that it began with, or another folder, or empty this one to begin anew\n",
        7 =>
            "  standard output took no more: what reads it has ended, or its disk is full. What it took is the beginning of the text\n",
        8 =>
            "  the store failed: is its folder there, and empty at first? Is there room on its disk? May you write there? (docs/guide.md, \"When the store fails\")\n",
        9 =>
            "  a record was changed in the store's folder: no run can restore it; begin with an empty folder\n",
        12 | 13 => "  docs/choosing.md has the rule of this code\n",
        10 => "  memory was refused: take smaller texts, or raise the limit (ulimit -v)\n",
        _ => "",
    }
}

// What a run has left unacknowledged.
fn unacknowledged<R: Files, S: Sink>(
    alloc: Global,
    files: &R,
    call: Call<'_>,
    out: &AckSink<S>,
) -> Result<String, AllocError> {
    let [verb, flow, inputs, schedule] = call.words else {
        return Ok(String::new(alloc));
    };
    if !["run", "endure", "explain"].contains(verb) {
        return Ok(String::new(alloc));
    }
    let Ok(flow) = fetched(alloc, files, flow) else {
        return Ok(String::new(alloc));
    };
    let Ok(inputs) = fetched(alloc, files, inputs) else {
        return Ok(String::new(alloc));
    };
    let Ok(steps) = fetched(alloc, files, schedule) else {
        return Ok(String::new(alloc));
    };
    let texts = RunTexts {
        flow: flow.as_slice(),
        inputs: inputs.as_slice(),
        schedule: steps.as_slice(),
        name: schedule,
    };
    run_warnings(alloc, texts, out.acks())
}
