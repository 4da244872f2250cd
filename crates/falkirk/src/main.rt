//! The command `falkirk`: the top calls over real files, standard input, output and error, and a store in memory. Each of them tells: the
//! files what was read of them, standard input the lines that it gave, the others what they answered for.
#![tactic(auto)]

use fw_advice::{AckSink, Call, Ended, Program, tell_after, warn_before};
use fw_choosing::{falkirk_choose, is_choosing, names_of_texts};
use fw_lines::INPUTS_LIMIT;
use fw_live::{StreamLines, falkirk_live, is_live, name_of_text};
use fw_outside::{FaultlessStore, Sink};
use fw_pace::printed;
use fw_run::{Status, falkirk};
use fw_telling::{ReadFolder, TellingSink, read_texts};
use std::io::{BufReader, ErrorKind, IsTerminal};
use std::process::ExitCode;
use std::{env, io};

fn main(rt: HostRuntime) -> ExitCode {
    ExitCode::from(run(&rt))
}

// The number of the status. Words that are not UTF-8 are bad words, as no words are.
fn run(rt: &HostRuntime) -> u8 {
    let mut notes = TellingSink::new(rt.stderr());
    match arguments(rt) {
        Ok(words) => run_words(rt, &words, &mut notes),
        Err(error) if error.kind() == ErrorKind::OutOfMemory => out_of_memory(&mut notes),
        Err(_) => run_words(rt, &[], &mut notes),
    }
}

// The words after the program's name.
fn arguments(rt: &HostRuntime) -> io::Result<Vec<String>> {
    Ok(env::args(rt)?.skip(1).collect(rt.alloc())?)
}

// Runs the words. Where standard error is a terminal, a person is told more: warnings before a run, and behind the line of its
// status what is wrong, where, and what to do. The line itself, and what else programs read, are those of `falkirk` and of
// `falkirk_choose`.
fn run_words<N: Sink>(rt: &HostRuntime, words: &[String], notes: &mut N) -> u8 {
    let alloc = rt.alloc();
    let words: Result<Vec<&str>, _> = words.iter().map(|word| word.as_str()).collect(alloc);
    let Ok(words) = words else {
        return out_of_memory(notes);
    };
    let call = Call {
        program: Program::Falkirk,
        words: words.as_slice(),
        is_person: rt.stderr().is_terminal(),
    };
    let mut out = AckSink::new(alloc, printed(rt, call.is_person && !is_live(&words)));
    let ended = if is_choosing(&words) {
        choose(rt, &words, &mut out, notes)
    } else if is_live(&words) {
        answer_lines(rt, &words, &mut out, notes)
    } else {
        warn_before(alloc, rt, call, notes);
        answer(rt, &words, &mut out, notes)
    };
    tell_after(alloc, rt, call, ended, &out, notes);
    ended.number
}

// What the call of the commands over texts of choices answers to the words.
fn choose<O: Sink, N: Sink>(rt: &HostRuntime, words: &[&str], out: &mut O, notes: &mut N) -> Ended {
    let names = names_of_texts(words);
    let Ok(mut folder) = ReadFolder::read(rt.alloc(), rt, names, INPUTS_LIMIT) else {
        return without_memory(notes);
    };
    let status = falkirk_choose(rt.alloc(), words, &mut folder, out, notes);
    Ended {
        number: status.number(),
        refusal: status.flow_refusal(),
    }
}

// What a session over standard input comes to.
fn answer_lines<O: Sink, N: Sink>(
    rt: &HostRuntime,
    words: &[&str],
    out: &mut O,
    notes: &mut N,
) -> Ended {
    let alloc = rt.alloc();
    let folder = match name_of_text(words) {
        Some(name) => ReadFolder::read(alloc, rt, &[name], INPUTS_LIMIT),
        None => ReadFolder::read(alloc, rt, &[], INPUTS_LIMIT),
    };
    let Ok(mut folder) = folder else {
        return without_memory(notes);
    };
    let Ok(input) = BufReader::new(alloc, rt.stdin()) else {
        return without_memory(notes);
    };
    let store = FaultlessStore::new(alloc);
    let mut lines = StreamLines::new(input);
    let status = falkirk_live(alloc, words, &mut folder, store, &mut lines, out, notes);
    Ended {
        number: status.number(),
        refusal: status.refusal(),
    }
}

// What the top call answers to the words, over a store in memory.
fn answer<O: Sink, N: Sink>(rt: &HostRuntime, words: &[&str], out: &mut O, notes: &mut N) -> Ended {
    let Ok(mut folder) = read_texts(rt.alloc(), rt, words) else {
        return without_memory(notes);
    };
    let mut store = FaultlessStore::new(rt.alloc());
    let status = falkirk(rt.alloc(), words, &mut folder, &mut store, out, notes);
    Ended {
        number: status.number(),
        refusal: status.refusal(),
    }
}

// How a call ends where there is no memory for its texts.
fn without_memory<N: Sink>(notes: &mut N) -> Ended {
    Ended {
        number: out_of_memory(notes),
        refusal: None,
    }
}

fn out_of_memory<N: Sink>(notes: &mut N) -> u8 {
    let _ = notes.write(b"no memory\n");
    Status::NoMemory.number()
}
