//! The top call.
ghost use Rattle.std.specs.Prelude.{◌≡◌, List, Some, None};
ghost use Rattle.fw_flow.specs.Dataflow.{Dataflow};
ghost use Rattle.fw_schedule.specs.declared.item.Item.{Item};
ghost use Rattle.fw_run.specs.Answers.{RunAnswers, known_by, outside_of};
ghost use Rattle.fw_run.specs.Call.{call_of, TellsNotes};
ghost use Rattle.fw_run.specs.Headline.{Headline};
ghost use Rattle.fw_run.specs.Held.{HeldAnswers};
ghost use Rattle.fw_run.specs.HeldTexts.{MayBegin};
ghost use Rattle.fw_run.specs.Status.{IsTold, IsTellingOf};
ghost use Rattle.fw_generate.specs.Laws.{AreAccepted};
ghost use Rattle.fw_generate.specs.Texts.{Texts};
ghost use Rattle.fw_unsplit.specs.WithoutTheWord.{AcceptedWithoutTheWord};
ghost use Rattle.fw_command.specs.Command.{TextNames};
ghost use Rattle.fw_command.specs.Texts.{spelled_system};
ghost use Rattle.fw_command.specs.Words.{held_of, words_in};
ghost use Rattle.fw_command.specs.Writing.{NeverFall};

use crate::Status;
use crate::held::run_held;
use crate::run::run;
use crate::text::{damaged_line, damaged_root_line, refused_line};
use fw_command::held_words;
use fw_held::RestartableEngine;
use fw_outside::{Folder, Sink, Store};
use std::alloc::Global;

/// Runs a command: `words` are those after the program's name. `run FLOW INPUTS SCHEDULE` fetches and reads the
/// three texts from the folder, takes the steps of the schedule and prints their effects to `out`; `endure FLOW INPUTS SCHEDULE`
/// does the same, and goes on where the store fails in a step; `explain FLOW INPUTS SCHEDULE` does what `run` does, and prints behind
/// the cuts of each recovery why they are the largest; `gen SEED SIZE` generates three texts, takes the steps and prints one line on
/// what came of them; `denote FLOW INPUTS` reads the texts of a flow and its inputs and prints its denotation at the outputs; `check FLOW` reads the text of a flow and
/// prints its nodes. Where that does not end well, one line on `notes` says why. The store is for records of what the nodes of
/// a run write, and holds none at first.
///
/// `hold FLOW INPUTS SCHEDULE` does what `run` does, and behind each step that is done it puts into the store what a later start needs.
/// Over a store that holds such a root it goes on from there: it tells `resumed at STEPS` and the lines of that step once more, counts every
/// node as failed, recovers, and takes the steps that are left.
pub fn falkirk<F: Folder, K: Store, O: Sink, N: Sink>(
    alloc: Global,
    words: &[&str],
    folder: &mut F,
    store: &mut K,
    out: &mut O,
    notes: &mut N,
) -> Status
    requires { MayBegin (words_in words.now) (F.texts folder.old) (K.view store.old).records }

    // What is true of the call by its status: a field for each promise.
    ensures answers { held_of (words_in words.now) ≡ None
        → RunAnswers (known_by F.texts F.fetch_count F.fault_count K.view O.view) (call_of words.now (F.texts folder.new))
        (outside_of folder.old store.old out.old) result (outside_of folder.new store.new out.new) }
    // The same of a held run.
    ensures held { (names : TextNames) → held_of (words_in words.now) ≡ Some names
        → HeldAnswers (known_by F.texts F.fetch_count F.fault_count K.view O.view) names
        (outside_of folder.old store.old out.old) result (outside_of folder.new store.new out.new) }
    // What the notes took; and neither their count of faults nor that of refusals falls.
    ensures notes { TellsNotes N.view result notes.old notes.new }
    ensures never_fall { NeverFall (N.view notes.old) (N.view notes.new) }
    // What the machine does with accepted texts of a run.
    ensures headline { (texts : Texts) (flow : Dataflow) (items : List Item) → AreAccepted texts flow → Headline (spelled_system flow texts) items }
    // Where a node of an accepted flow is split, the flow is accepted without that word too, and denotes what is acknowledged.
    ensures without_the_word { AcceptedWithoutTheWord }
{
    let status = run_or_hold(alloc, words, folder, store, out);
    tell(alloc, status, notes)
}

// Goes on with a held run, or runs another command.
fn run_or_hold<F: Folder, K: Store, O: Sink>(
    alloc: Global,
    words: &[&str],
    folder: &mut F,
    store: &mut K,
    out: &mut O,
) -> Status
    requires { MayBegin (words_in words.now) (F.texts folder.old) (K.view store.old).records }
    ensures answers { held_of (words_in words.now) ≡ None
        → RunAnswers (known_by F.texts F.fetch_count F.fault_count K.view O.view) (call_of words.now (F.texts folder.new))
        (outside_of folder.old store.old out.old) result (outside_of folder.new store.new out.new) }
    ensures held { (names : TextNames) → held_of (words_in words.now) ≡ Some names
        → HeldAnswers (known_by F.texts F.fetch_count F.fault_count K.view O.view) names
        (outside_of folder.old store.old out.old) result (outside_of folder.new store.new out.new) }
{
    match held_words(words) {
        Some(names) => run_held::<RestartableEngine, F, K, O>(alloc, &names, folder, store, out),
        None => run(alloc, words, folder, store, out),
    }
}

/// Tells a status by its line on the notes. Where there is no memory for that line, this is told, and is the status.
pub fn tell<N: Sink>(alloc: Global, status: Status, notes: &mut N) -> Status
    ensures status { IsTellingOf status result }
    ensures notes { TellsNotes N.view result notes.old notes.new }
{
    match status {
        Status::Done => {}
        Status::BadWords => note(notes, b"bad words\n"),
        Status::ReadFault => note(notes, b"read fault\n"),
        Status::WriteFault => note(notes, b"write fault\n"),
        Status::StoreFault => note(notes, b"store fault\n"),
        Status::NoMemory => note(notes, b"no memory\n"),
        Status::ForeignRoot => note(notes, b"foreign root\n"),
        Status::Refused(refusal) => match refused_line(alloc, refusal) {
            Ok(line) => note(notes, line.as_bytes()),
            Err(_) => {
                note(notes, b"no memory\n");
                return Status::NoMemory;
            }
        },
        Status::Damaged { id } => match damaged_line(alloc, id) {
            Ok(line) => note(notes, line.as_bytes()),
            Err(_) => {
                note(notes, b"no memory\n");
                return Status::NoMemory;
            }
        },
        Status::DamagedRoot { id } => match damaged_root_line(alloc, id) {
            Ok(line) => note(notes, line.as_bytes()),
            Err(_) => {
                note(notes, b"no memory\n");
                return Status::NoMemory;
            }
        },
    }
    status
}

// Writes a line; a refused write changes nothing else.
fn note<N: Sink>(notes: &mut N, line: &[u8])
    ensures told { IsTold line.now (N.view notes.old) (N.view notes.new) }
{
    let _ = notes.write(line);
}
