//! Runs rows, and tells what became of them.
ghost use Rattle.fw_keep.specs.Stored.{IsEmptyStore};

use crate::noted::NotedStore;
use crate::run::{Run, with_line};
use crate::stopped::StoppedStore;
use fw_choosing::{falkirk_choose, is_choosing};
use fw_live::{MemLines, falkirk_live, is_live};
use fw_outside::{
    Folder, FoulBytes, FoulStore, MemFolder, MemSink, MemStore, MemText, Sink, Store,
};
use fw_run::falkirk;
use row_words::{show, show_lines, tell_name};
use std::alloc::{AllocError, Global};
use std::fmt::Write;

/// The words of a row that has none.
const RUN: &str = "run flow inputs schedule";

/// How often the calls of a store fail, each in a run of its own, at most.
const MOST_CALLS: u64 = 1000;

/// The objects over which the commands of a row run, one after the other; each command has a store of its own.
#[derive(Drop)]
struct Outside {
    folder: MemFolder,
    out: MemSink,
    notes: MemSink,
    /// The lines that come in, and which calls of the store of a session fail.
    lines: Vec<u8>,
    failing: Vec<u64>,
}

impl Outside {
    /// What a row has, with other texts.
    fn new(alloc: Global, run: &Run, texts: Vec<MemText>) -> Result<Self, AllocError> {
        let failing = &run.failing;
        Ok(Outside {
            folder: MemFolder::new(texts, failing.folder.clone()?),
            out: MemSink::new(alloc, failing.out.clone()?),
            notes: MemSink::new(alloc, failing.notes.clone()?),
            lines: run.text("lines").unwrap_or(&[]).to_vec(alloc)?,
            failing: failing.store.clone()?,
        })
    }
}

/// Tells a row: its name, and what became of each command.
pub fn tell_row(alloc: Global, run: &Run, told: &mut String) -> Result<(), AllocError> {
    if let Some(number) = run.mistake {
        tell_name(&run.name, told)?;
        return writeln!(told, "line {number} says nothing known");
    }
    if let Some(more) = &run.before_each {
        return tell_family(alloc, run, more, told);
    }
    if run.fails_each {
        return tell_each_failure(alloc, run, told);
    }
    if run.stops_each {
        return tell_each_stop(alloc, run, told);
    }
    if run.has_one_store {
        return tell_starts(alloc, run, told);
    }
    tell_name(&run.name, told)?;
    let texts = copies(alloc, run)?;
    tell_runs(alloc, run, texts, &run.failing.store, told)?;
    Ok(())
}

/// Tells the runs in which the first call of the store fails, the second, and so on, up to one in which none fails.
fn tell_each_failure(alloc: Global, run: &Run, told: &mut String) -> Result<(), AllocError> {
    for call in 0..MOST_CALLS {
        writeln!(told, "== {}, store call {call} fails", run.name)?;
        let texts = copies(alloc, run)?;
        if !tell_runs(alloc, run, texts, &[call], told)? {
            break;
        }
    }
    Ok(())
}

/// Tells the runs that are stopped at the first call of the store, at the second, and so on, each with the next start; and last
/// the run that is not stopped.
fn tell_each_stop(alloc: Global, run: &Run, told: &mut String) -> Result<(), AllocError> {
    for call in 1..=MOST_CALLS {
        let mut starts = String::new(alloc);
        if !tell_stop(alloc, run, call, &mut starts)? {
            writeln!(told, "== {}, not stopped", run.name)?;
            told.push_str(&starts)?;
            break;
        }
        writeln!(told, "== {}, stopped at call {call}", run.name)?;
        told.push_str(&starts)?;
    }
    Ok(())
}

/// Tells a run that is stopped at a call of the store, and the next start over what the store holds; whether it was stopped.
fn tell_stop(alloc: Global, run: &Run, call: u64, told: &mut String) -> Result<bool, AllocError> {
    let mut outside = Outside::new(alloc, run, copies(alloc, run)?)?;
    let words = match run.commands.first() {
        Some(words) => words.as_str(),
        None => RUN,
    };
    let mut store = StoppedStore::new(alloc, call);
    if !tell_status(alloc, words, &mut outside, &mut store, told)? {
        return Ok(false);
    }
    let mut store = store.start_again(Vec::new(alloc));
    tell_status(alloc, words, &mut outside, &mut store, told)?;
    if run.tells_records {
        store.tell(told)?;
    }
    Ok(true)
}

/// Tells the commands of a row over one store, each as the next start; the store of the last one may give foul bytes.
fn tell_starts(alloc: Global, run: &Run, told: &mut String) -> Result<(), AllocError> {
    tell_name(&run.name, told)?;
    let [others @ .., last] = run.commands.as_slice() else {
        return Ok(());
    };
    let mut outside = Outside::new(alloc, run, copies(alloc, run)?)?;
    let mut store = StoppedStore::new(alloc, u64::MAX);
    for words in others {
        tell_status(alloc, words, &mut outside, &mut store, told)?;
        store = store.start_again(Vec::new(alloc));
    }
    let mut store = store.start_again(foul_of(alloc, run)?);
    tell_status(alloc, last, &mut outside, &mut store, told)?;
    if run.tells_records {
        store.tell(told)?;
    }
    Ok(())
}

/// Tells the runs with more before one line of the schedule, a run for each line.
fn tell_family(alloc: Global, run: &Run, more: &[u8], told: &mut String) -> Result<(), AllocError> {
    let schedule = run.text("schedule").unwrap_or(&[]);
    for place in 1..=schedule.len() {
        let Some(longer) = with_line(alloc, schedule, place, more, true)? else {
            break;
        };
        writeln!(told, "== {}, before line {place}", run.name)?;
        tell_longer(alloc, run, &longer, told)?;
    }
    Ok(())
}

/// Tells the run with another schedule.
fn tell_longer(
    alloc: Global,
    run: &Run,
    schedule: &[u8],
    told: &mut String,
) -> Result<(), AllocError> {
    let mut texts = copies(alloc, run)?;
    // the first text of a name is the one that is fetched
    texts.insert(0, MemText::new(alloc, "schedule", schedule)?)?;
    tell_runs(alloc, run, texts, &run.failing.store, told)?;
    Ok(())
}

/// The texts of a row.
fn copies(alloc: Global, run: &Run) -> Result<Vec<MemText>, AllocError> {
    let mut texts = Vec::new(alloc);
    for text in run.texts.iter() {
        texts.push(MemText::new(alloc, &text.name, &text.bytes)?)?;
    }
    Ok(texts)
}

/// Tells the commands of a row over these texts, and over stores whose calls of these numbers fail; whether one failed.
fn tell_runs(
    alloc: Global,
    run: &Run,
    texts: Vec<MemText>,
    failing: &[u64],
    told: &mut String,
) -> Result<bool, AllocError> {
    let mut outside = Outside::new(alloc, run, texts)?;
    tell_commands(alloc, run, &mut outside, failing, told)
}

/// Tells the commands of a row over these objects; whether one failed.
fn tell_commands(
    alloc: Global,
    run: &Run,
    outside: &mut Outside,
    failing: &[u64],
    told: &mut String,
) -> Result<bool, AllocError> {
    if run.commands.is_empty() {
        return tell_run(alloc, run, RUN, outside, failing, told);
    }
    let mut failed = false;
    for words in run.commands.iter() {
        failed |= tell_run(alloc, run, words, outside, failing, told)?;
    }
    Ok(failed)
}

/// Tells a command over a store of its own; whether the store failed.
fn tell_run(
    alloc: Global,
    run: &Run,
    words: &str,
    outside: &mut Outside,
    failing: &[u64],
    told: &mut String,
) -> Result<bool, AllocError> {
    if run.foul.is_empty() {
        let store = MemStore::failing_at(alloc, failing.to_vec(alloc)?);
        return tell_over(alloc, run, words, outside, store, told);
    }
    let store = FoulStore::new(alloc, foul_of(alloc, run)?);
    tell_over(alloc, run, words, outside, store, told)
}

/// What the store of a row gives in place of what it holds.
fn foul_of(alloc: Global, run: &Run) -> Result<Vec<FoulBytes>, AllocError> {
    let mut foul = Vec::new(alloc);
    for listed in run.foul.iter() {
        foul.push(FoulBytes {
            call: listed.call,
            bytes: listed.bytes.clone()?,
        })?;
    }
    Ok(foul)
}

/// Runs a command over a store, whose records are noted; whether the store failed.
fn tell_over<K: Store + Drop>(
    alloc: Global,
    run: &Run,
    words: &str,
    outside: &mut Outside,
    store: K,
    told: &mut String,
) -> Result<bool, AllocError>
    requires { IsEmptyStore (K.view store).records }
{
    let mut store = NotedStore::new(alloc, store);
    tell_noted(alloc, run, words, outside, &mut store, told)
}

/// Runs a command over a store, and tells what came of it, and the records if they are asked for; whether the store failed.
fn tell_noted<K: Store>(
    alloc: Global,
    run: &Run,
    words: &str,
    outside: &mut Outside,
    store: &mut NotedStore<K>,
    told: &mut String,
) -> Result<bool, AllocError>
    requires { IsEmptyStore (⟦<NotedStore<K> as Store>⟧.view store.old).records }
{
    let failed = tell_status(alloc, words, outside, store, told)?;
    if run.tells_records {
        store.tell(told)?;
    }
    Ok(failed)
}

/// Runs a command over a store, and tells its status, what the notes and the output took of it, and all faults so far; whether the
/// store failed.
fn tell_status<K: Store>(
    alloc: Global,
    words: &str,
    outside: &mut Outside,
    store: &mut K,
    told: &mut String,
) -> Result<bool, AllocError>
    requires { IsEmptyStore (K.view store.old).records }
{
    let printed = outside.out.taken().len();
    let noted = outside.notes.taken().len();
    let number = run_over(alloc, words, outside, store)?;
    write!(told, "status {number}")?;
    tell_note(after(outside.notes.taken(), noted), told)?;
    tell_faults(outside, store.faults(), told)?;
    told.push('\n')?;
    show_lines(after(outside.out.taken(), printed), told)?;
    Ok(store.faults() > 0)
}

/// Runs a command over a store that is empty, where it tells that; the number of its status.
fn run_over<K: Store>(
    alloc: Global,
    words: &str,
    outside: &mut Outside,
    store: &mut K,
) -> Result<u8, AllocError>
    requires { IsEmptyStore (K.view store.old).records }
{
    let words = words_of(alloc, words)?;
    if is_choosing(&words) {
        return Ok(choose_over(alloc, &words, outside));
    }
    if is_live(&words) {
        return live_over(alloc, &words, outside);
    }
    Ok(answer_over(alloc, &words, outside, store))
}

/// The words of a command; `""` is an empty one.
fn words_of(alloc: Global, words: &str) -> Result<Vec<&str>, AllocError> {
    let mut list = Vec::new(alloc);
    for word in words.split_whitespace() {
        list.push(if word == "\"\"" { "" } else { word })?;
    }
    Ok(list)
}

/// Runs a command over texts of choices, which wants no store; the number of its status.
fn choose_over(alloc: Global, words: &[&str], outside: &mut Outside) -> u8 {
    let Outside {
        folder,
        out,
        notes,
        ..
    } = outside;
    falkirk_choose(alloc, words, folder, out, notes).number()
}

/// Runs a session's command over the lines that come in, and over a store of its own; the number of its status.
fn live_over(alloc: Global, words: &[&str], outside: &mut Outside) -> Result<u8, AllocError> {
    let mut lines = MemLines::new(lines_of(alloc, &outside.lines)?);
    let store = MemStore::failing_at(alloc, outside.failing.clone()?);
    let Outside {
        folder,
        out,
        notes,
        ..
    } = outside;
    Ok(falkirk_live(alloc, words, folder, store, &mut lines, out, notes).number())
}

/// The lines of a text, each without the LF that ends it.
fn lines_of(alloc: Global, text: &[u8]) -> Result<Vec<Vec<u8>>, AllocError> {
    let mut lines = Vec::new(alloc);
    for line in text.split_inclusive(|byte| *byte == b'\n') {
        lines.push(line.strip_suffix(b"\n").unwrap_or(line).to_vec(alloc)?)?;
    }
    Ok(lines)
}

/// Runs any other command; the number of its status.
fn answer_over<K: Store>(alloc: Global, words: &[&str], outside: &mut Outside, store: &mut K) -> u8
    requires { IsEmptyStore (K.view store.old).records }
{
    let Outside {
        folder,
        out,
        notes,
        ..
    } = outside;
    falkirk(alloc, words, folder, store, out, notes).number()
}

/// What a sink took after so many bytes.
fn after(taken: &[u8], before: usize) -> &[u8] {
    taken.get(before..).unwrap_or(&[])
}

/// Tells what the notes took, without the LF of its last line.
fn tell_note(note: &[u8], told: &mut String) -> Result<(), AllocError> {
    if note.is_empty() {
        return Ok(());
    }
    told.push_str(", note ")?;
    match note.strip_suffix(b"\n") {
        Some(line) => show(line, told),
        None => {
            show(note, told)?;
            told.push('\\')
        }
    }
}

/// Tells how often each object failed, if it did.
fn tell_faults(outside: &Outside, store_faults: u64, told: &mut String) -> Result<(), AllocError> {
    let counts = [
        ("folder", outside.folder.faults()),
        ("store", store_faults),
        ("out", outside.out.faults()),
        ("notes", outside.notes.faults()),
    ];
    for (object, count) in counts {
        if count > 0 {
            write!(told, ", {object} failed {count}")?;
        }
    }
    Ok(())
}
