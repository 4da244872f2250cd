//! The call of the commands over texts of choices.
ghost use Rattle.std.specs.Prelude.{◌≡◌, ◌≤◌};
ghost use Rattle.fw_command.specs.Words.{words_in};
ghost use Rattle.fw_command.specs.Writing.{NeverFall};
ghost use Rattle.fw_choosing.specs.Answers.{ChoosingAnswers, EndsBeforeOut, KeepsTexts, TellsStatus};
ghost use Rattle.fw_choosing.specs.Status.{IsNoted, IsToldStatus};
ghost use Rattle.fw_choosing.specs.Words.{choosing_of};

use crate::answer::answer_words;
use crate::status::ChoosingStatus;
use crate::text::{flow_refused_line, refused_line};
use crate::words::parse;
use fw_outside::{Folder, OutFault, Sink};
use std::alloc::Global;

/// Runs a command over texts of choices: `words` are those after the program's name. `choose FLOW OFFERS` fetches and reads the texts of a
/// flow and of what its nodes offer, and prints to `out` the largest consistent choice and why there is no larger one, or why there is
/// none; `verify FLOW OFFERS CERTIFICATE` reads such an answer too, and prints whether it is right. Where that does not end well, one line
/// on `notes` says why.
pub fn falkirk_choose<F: Folder, O: Sink, N: Sink>(
    alloc: Global,
    words: &[&str],
    folder: &mut F,
    out: &mut O,
    notes: &mut N,
) -> ChoosingStatus
    // What is true of the call by its status: a field for each promise.
    ensures answers { ChoosingAnswers (choosing_of (words_in words.now)) (F.texts folder.old) result (O.view out.old) (O.view out.new) }
    // What was asked of the folder, and how often it failed.
    ensures folder { KeepsTexts F.texts F.fetch_count F.fault_count (choosing_of (words_in words.now)) result folder.old folder.new }
    // Nothing was written where a command ended before anything was printed.
    ensures nothing_out { EndsBeforeOut result → out.new ≡ out.old }
    // What the notes took.
    ensures notes { TellsStatus N.view result notes.old notes.new }
    ensures never_fall { NeverFall (N.view notes.old) (N.view notes.new) }
{
    let status = run(alloc, words, folder, out);
    tell(alloc, status, notes)
}

// Reads the texts that the words name, and writes what the command prints of them.
fn run<F: Folder, O: Sink>(
    alloc: Global,
    words: &[&str],
    folder: &mut F,
    out: &mut O,
) -> ChoosingStatus
    ensures answers { ChoosingAnswers (choosing_of (words_in words.now)) (F.texts folder.old) result (O.view out.old) (O.view out.new) }
    ensures folder { KeepsTexts F.texts F.fetch_count F.fault_count (choosing_of (words_in words.now)) result folder.old folder.new }
    ensures nothing_out { EndsBeforeOut result → out.new ≡ out.old }
{
    let Some(words) = parse(words) else {
        return ChoosingStatus::BadWords;
    };
    let answer = match answer_words(alloc, &words, folder) {
        Ok(answer) => answer,
        Err(status) => return status,
    };
    match out.write(answer.text.as_bytes()) {
        Ok(()) => answer.status,
        Err(OutFault::Failed) => ChoosingStatus::WriteFault,
        Err(OutFault::NoMemory) => ChoosingStatus::NoMemory,
    }
}

// Tells a status by its line. Where there is no memory for that line, this is told, and is the status.
fn tell<N: Sink>(alloc: Global, status: ChoosingStatus, notes: &mut N) -> ChoosingStatus
    ensures status { IsToldStatus status result }
    ensures notes { TellsStatus N.view result notes.old notes.new }
{
    match status {
        ChoosingStatus::Done => {}
        ChoosingStatus::BadWords => note(notes, b"bad words\n"),
        ChoosingStatus::ReadFault => note(notes, b"read fault\n"),
        ChoosingStatus::WriteFault => note(notes, b"write fault\n"),
        ChoosingStatus::NoMemory => note(notes, b"no memory\n"),
        ChoosingStatus::NoChoice => note(notes, b"no choice\n"),
        ChoosingStatus::NotShown => note(notes, b"not shown\n"),
        ChoosingStatus::FlowRefused(refusal) => match flow_refused_line(alloc, refusal) {
            Ok(line) => note(notes, line.as_bytes()),
            Err(_) => {
                note(notes, b"no memory\n");
                return ChoosingStatus::NoMemory;
            }
        },
        ChoosingStatus::OffersRefused(refusal) | ChoosingStatus::CertificateRefused(refusal) => {
            match refused_line(alloc, refusal) {
                Ok(line) => note(notes, line.as_bytes()),
                Err(_) => {
                    note(notes, b"no memory\n");
                    return ChoosingStatus::NoMemory;
                }
            }
        }
    }
    status
}

// Writes a line; a refused write changes nothing else.
fn note<N: Sink>(notes: &mut N, line: &[u8])
    ensures told { IsNoted line.now (N.view notes.old) (N.view notes.new) }
{
    let _ = notes.write(line);
}
