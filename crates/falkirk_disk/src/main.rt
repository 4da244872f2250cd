//! The command `falkirk_disk`: the top call over real files, standard output, standard error and a store in a folder of real files.
//! Each of them tells: the files what was read of them, the streams what they answered for, the store what it put and was given.
//! The first word is the folder's name. `FOLDER show [FLOW]` prints what each of its files is, and is no word of the top call. On a
//! terminal the causes of the store's faults are told behind the line of the status.
#![tactic(auto)]

ghost use Rattle.std.specs.Prelude.{◌≡◌};
ghost use Rattle.std.specs.FinMap as map;
ghost use Rattle.std.specs.Option.{ForSome};

use fw_advice::{AckSink, Call, Ended, Program, tell_after, warn_before};
use fw_choosing::{falkirk_choose, is_choosing, names_of_texts};
use fw_command::{JobFault, fetch_flow};
use fw_disk::{DiskCause, DiskStore};
use fw_flow::Flow;
use fw_flow_text::FLOW_LIMIT;
use fw_lines::INPUTS_LIMIT;
use fw_live::{StreamLines, is_live, name_of_text};
use fw_outside::{Sink, Store};
use fw_pace::printed;
use fw_relive::falkirk_lasting;
use fw_relive::laws::empty_stores_may_begin;
use fw_run::{Status, falkirk};
use fw_show::{ShowFault, show};
use fw_telling::{ReadFolder, TellingSink, read_texts};
use std::alloc::{AllocError, Global};
use std::io::{BufReader, ErrorKind, IsTerminal};
use std::process::ExitCode;
use std::rt::Files;
use std::{env, io};

/// What stands before the cause that is told before a run.
const AHEAD: &str = "each call of the store will fail: ";

fn main(rt: HostRuntime) -> ExitCode {
    ExitCode::from(run(&rt))
}

// The number of the status. Words that are not UTF-8 are bad words, as no words are.
fn run(rt: &HostRuntime) -> u8 {
    let mut notes = TellingSink::new(rt.stderr());
    match arguments(rt) {
        Ok(words) => run_words(rt, &words, &mut notes),
        Err(error) if error.kind() == ErrorKind::OutOfMemory => out_of_memory(&mut notes).number(),
        Err(_) => run_words(rt, &[], &mut notes),
    }
}

// The words after the program's name.
fn arguments(rt: &HostRuntime) -> io::Result<Vec<String>> {
    Ok(env::args(rt)?.skip(1).collect(rt.alloc())?)
}

// Runs the words behind the first one, which names the store's folder; none, where that is no name.
fn run_words<N: Sink>(rt: &HostRuntime, words: &[String], notes: &mut N) -> u8 {
    match words {
        [folder, others @ ..] if is_name(folder) => run_over(rt, folder, others, notes),
        _ => run_over(rt, ".", &[], notes),
    }
}

// As an operand a folder's name is not empty and does not begin with a dash.
fn is_name(word: &str) -> bool {
    match word.as_bytes() {
        [] => false,
        [first, ..] => *first != b'-',
    }
}

// Runs the words over the store of a folder, or shows the folder, or runs a choice over texts.
fn run_over<N: Sink>(rt: &HostRuntime, name: &str, words: &[String], notes: &mut N) -> u8 {
    let alloc = rt.alloc();
    let words: Result<Vec<&str>, _> = words.iter().map(|word| word.as_str()).collect(alloc);
    let Ok(words) = words else {
        return out_of_memory(notes).number();
    };
    if is_choosing(&words) {
        return run_choice(rt, &words, notes);
    }
    match String::from_str(alloc, name) {
        Ok(name) => run_in(rt, name, &words, notes).number(),
        Err(_) => out_of_memory(notes).number(),
    }
}

// Runs the words over the store of the folder of this name, or shows the folder.
fn run_in<N: Sink>(rt: &HostRuntime, name: String, words: &[&str], notes: &mut N) -> Status {
    let mut store = store_for(rt, name, words);
    match words {
        ["show"] => show_files(rt, &store, None, notes),
        ["show", flow] if is_name(flow) => show_by(rt, &store, flow, notes),
        words if is_live(words) => run_live(rt, words, store, notes),
        words => run_command(rt, words, &mut store, notes),
    }
}

// Runs a choice over texts, which wants no store.
fn run_choice<N: Sink>(rt: &HostRuntime, words: &[&str], notes: &mut N) -> u8 {
    let alloc = rt.alloc();
    let call = Call {
        program: Program::FalkirkDisk,
        words,
        is_person: rt.stderr().is_terminal(),
    };
    let names = names_of_texts(words);
    let Ok(mut folder) = ReadFolder::read(alloc, rt, names, INPUTS_LIMIT) else {
        return out_of_memory(notes).number();
    };
    let mut out = AckSink::new(alloc, TellingSink::new(rt.stdout()));
    let status = falkirk_choose(alloc, words, &mut folder, &mut out, notes);
    let ended = Ended {
        number: status.number(),
        refusal: status.flow_refusal(),
    };
    tell_after(alloc, rt, call, ended, &out, notes);
    ended.number
}

// The store of a folder: a held run, and a session, take the records that are there. Where it tells its records, there are none.
fn store_for<'a>(rt: &'a HostRuntime, name: String, words: &[&str]) -> DiskStore<'a, HostRuntime>
    ensures { ForSome (⟦<DiskStore<'a, HostRuntime> as Store>⟧.view result).records (λ held. held ≡ map.empty) }
{
    match words {
        ["hold" | "live", ..] => DiskStore::reopen(rt.alloc(), rt, name),
        _ => DiskStore::new(rt.alloc(), rt, name),
    }
}

// Runs a command over the store; a terminal is told what stands in its way before, and the causes of its faults behind.
fn run_command<'a, N: Sink>(
    rt: &HostRuntime,
    words: &[&str],
    store: &mut DiskStore<'a, HostRuntime>,
    notes: &mut N,
) -> Status
    requires { ForSome (⟦<DiskStore<'a, HostRuntime> as Store>⟧.view store.old).records (λ held. held ≡ map.empty) }
{
    let alloc = rt.alloc();
    let call = Call {
        program: Program::FalkirkDisk,
        words,
        is_person: rt.stderr().is_terminal(),
    };
    warn_before(alloc, rt, call, notes);
    if call.is_person && may_call_store(words) {
        if let Ok(Some(cause)) = store.obstacle() {
            let _ = tell_cause(alloc, store, &cause, AHEAD, notes);
        }
    }
    let mut out = AckSink::new(alloc, printed(rt, call.is_person));
    let status = answer(rt, words, store, &mut out, notes);
    if call.is_person {
        if let Ok(told) = store.told() {
            let _ = notes.write(told.as_bytes());
        }
    }
    let ended = Ended {
        number: status.number(),
        refusal: status.refusal(),
    };
    tell_after(alloc, rt, call, ended, &out, notes);
    status
}

// Runs a session over the store; a terminal is told what stands in its way before.
fn run_live<'a, N: Sink>(
    rt: &HostRuntime,
    words: &[&str],
    store: DiskStore<'a, HostRuntime>,
    notes: &mut N,
) -> Status
    requires { ForSome (⟦<DiskStore<'a, HostRuntime> as Store>⟧.view store).records (λ held. held ≡ map.empty) }
{
    let alloc = rt.alloc();
    let call = Call {
        program: Program::FalkirkDisk,
        words,
        is_person: rt.stderr().is_terminal(),
    };
    let folder = match name_of_text(words) {
        Some(name) => ReadFolder::read(alloc, rt, &[name], INPUTS_LIMIT),
        None => ReadFolder::read(alloc, rt, &[], INPUTS_LIMIT),
    };
    let Ok(mut folder) = folder else {
        return out_of_memory(notes);
    };
    let Ok(input) = BufReader::new(alloc, rt.stdin()) else {
        return out_of_memory(notes);
    };
    let mut lines = StreamLines::new(input);
    let mut out = AckSink::new(alloc, TellingSink::new(rt.stdout()));
    empty_stores_may_begin();
    let lasted = falkirk_lasting(
        alloc,
        words,
        &mut folder,
        store,
        &mut lines,
        &mut out,
        notes,
    );
    let ended = Ended {
        number: lasted.status.number(),
        refusal: lasted.status.refusal(),
    };
    tell_after(alloc, rt, call, ended, &out, notes);
    lasted.status
}

// What the top call answers to the words.
fn answer<'a, O: Sink, N: Sink>(
    rt: &HostRuntime,
    words: &[&str],
    store: &mut DiskStore<'a, HostRuntime>,
    out: &mut O,
    notes: &mut N,
) -> Status
    requires { ForSome (⟦<DiskStore<'a, HostRuntime> as Store>⟧.view store.old).records (λ held. held ≡ map.empty) }
{
    let Ok(mut folder) = read_texts(rt.alloc(), rt, words) else {
        return out_of_memory(notes);
    };
    falkirk(rt.alloc(), words, &mut folder, store, out, notes)
}

// Whether these are the words of a command that runs a flow.
fn may_call_store(words: &[&str]) -> bool {
    match words.first() {
        Some(word) => ["run", "endure", "explain", "hold", "gen"].contains(word),
        None => false,
    }
}

// Tells a cause, behind some words.
fn tell_cause<R: Files, N: Sink>(
    alloc: Global,
    store: &DiskStore<'_, R>,
    cause: &DiskCause,
    words: &str,
    notes: &mut N,
) -> Result<(), AllocError> {
    let told = store.cause_told(cause)?;
    let line = format!(in alloc; "{words}{told}\n")?;
    let _ = notes.write(line.as_bytes());
    Ok(())
}

// Shows what each file of the folder is, with the names of the flow in this file.
fn show_by<N: Sink>(
    rt: &HostRuntime,
    store: &DiskStore<'_, HostRuntime>,
    name: &str,
    notes: &mut N,
) -> Status {
    let alloc = rt.alloc();
    let Ok(mut folder) = ReadFolder::read(alloc, rt, &[name], FLOW_LIMIT) else {
        return out_of_memory(notes);
    };
    match fetch_flow(alloc, &mut folder, name) {
        Ok(flow) => show_files(rt, store, Some(&flow), notes),
        Err(fault) => tell_status(alloc, status_of_job(fault), notes),
    }
}

// Shows what each file of the folder is.
fn show_files<N: Sink>(
    rt: &HostRuntime,
    store: &DiskStore<'_, HostRuntime>,
    flow: Option<&Flow>,
    notes: &mut N,
) -> Status {
    let alloc = rt.alloc();
    let mut out = TellingSink::new(rt.stdout());
    match show(alloc, store, flow, &mut out) {
        Ok(true) => Status::Done,
        Ok(false) => tell_status(alloc, Status::StoreFault, notes),
        Err(ShowFault::Out) => tell_status(alloc, Status::WriteFault, notes),
        Err(ShowFault::NoMemory) => out_of_memory(notes),
        Err(ShowFault::Store(cause)) => {
            let status = tell_status(alloc, Status::StoreFault, notes);
            if rt.stderr().is_terminal() {
                let _ = tell_cause(alloc, store, &cause, "  ", notes);
            }
            status
        }
    }
}

// The status that tells why a flow was not read.
fn status_of_job(fault: JobFault) -> Status {
    match fault {
        JobFault::Failed => Status::ReadFault,
        JobFault::Refused(refusal) => Status::Refused(refusal),
        JobFault::NoMemory => Status::NoMemory,
    }
}

// Tells the status with which `show` ended.
fn tell_status<N: Sink>(alloc: Global, status: Status, notes: &mut N) -> Status {
    let _ = match status {
        Status::ReadFault => notes.write(b"read fault\n"),
        Status::StoreFault => notes.write(b"store fault\n"),
        Status::WriteFault => notes.write(b"write fault\n"),
        Status::Refused(refusal) => match format!(in alloc; "{refusal}\n") {
            Ok(line) => notes.write(line.as_bytes()),
            Err(_) => return out_of_memory(notes),
        },
        Status::NoMemory => return out_of_memory(notes),
        _ => Ok(()),
    };
    status
}

fn out_of_memory<N: Sink>(notes: &mut N) -> Status {
    let _ = notes.write(b"no memory\n");
    Status::NoMemory
}
