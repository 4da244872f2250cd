//! The call of a session's command.
ghost use Rattle.std.specs.Prelude.{◌≡◌};
ghost use Rattle.fw_keep.specs.Stored.{IsEmptyStore};
ghost use Rattle.fw_command.specs.Words.{words_in};
ghost use Rattle.fw_command.specs.Writing.{IsWritten, NeverFall};
ghost use Rattle.fw_run.specs.Call.{CountsWrites, TellsNotes};
ghost use Rattle.fw_engine.specs.Engine.{flow_of};
ghost use Rattle.fw_flow.specs.Dataflow.{Dataflow};
ghost use Rattle.fw_session.specs.Session.{IsAt};
ghost use Rattle.fw_session.specs.Story.{opening};
ghost use Rattle.fw_live.specs.Call.{CountsReads, CountsSession, EndsBefore, EndsUnbegun, EndsWhole, FlowAnswers, IsLineCutAt, KeepsFlow, LiveAnswers, status_by, stopped_status, unread_status};
ghost use Rattle.fw_live.specs.Life as life;
ghost use Rattle.fw_live.specs.Life.{no_counts};
ghost use Rattle.fw_live.specs.Words.{live_of};
ghost use Rattle.fw_run.specs.Status.{TellsOfRoot};

use crate::counts::LineCounts;
use crate::fault::ServeFault;
use crate::line_source::LineSource;
use crate::live::Live;
use crate::serving::serve;
use crate::text::last_line;
use crate::words::parse;
use fw_command::{JobFault, fetch_flow};
use fw_flow::Flow;
use fw_outside::{Folder, OutFault, Sink, Store};
use fw_run::{Status, tell};
use fw_session::Session;
use std::alloc::Global;

/// Runs a session's command: `words` are those after the program's name. `live FLOW` fetches and reads the text of a flow from the folder,
/// and answers the lines that come in over an empty store, up to their end: each answer is written to `out` before the next line is read.
/// With `auto` behind the flow each line that is accepted, but `show`, ends with steps to rest. Where that does not end well, one line on
/// `notes` says why.
pub fn falkirk_live<F: Folder, K: Store + Drop, L: LineSource, O: Sink, N: Sink>(
    alloc: Global,
    words: &[&str],
    folder: &mut F,
    store: K,
    input: &mut L,
    out: &mut O,
    notes: &mut N,
) -> Status
    requires { IsEmptyStore (K.view store).records }
    // What is true of the call by its status: a field for each promise.
    ensures answers { LiveAnswers K.view (F.texts folder.old) (live_of (words_in words.now)) (L.given input.old) (L.given input.new)
        (L.ended input.new) result (O.view out.old) (O.view out.new) }
    // How often what it reads failed, and the output.
    ensures reads { CountsReads (F.texts folder.old) (live_of (words_in words.now)) result (L.given input.old) (L.given input.new)
        (record { folder = F.fault_count folder.old; lines = L.fault_count input.old })
        (record { folder = F.fault_count folder.new; lines = L.fault_count input.new }) (O.view out.old) (O.view out.new) }
    ensures writes { CountsWrites result (O.view out.old) (O.view out.new) }
    // What was asked of the folder.
    ensures folder { KeepsFlow F.texts F.fetch_count (live_of (words_in words.now)) folder.old folder.new }
    // What the notes took.
    ensures notes { TellsNotes N.view result notes.old notes.new }
    ensures never_fall { NeverFall (N.view notes.old) (N.view notes.new) }
{
    let status = run(alloc, words, folder, store, input, out);
    tell(alloc, status, notes)
}

// Reads the flow, and answers the lines that come in.
fn run<F: Folder, K: Store + Drop, L: LineSource, O: Sink>(
    alloc: Global,
    words: &[&str],
    folder: &mut F,
    store: K,
    input: &mut L,
    out: &mut O,
) -> Status
    requires { IsEmptyStore (K.view store).records }
    ensures answers { LiveAnswers K.view (F.texts folder.old) (live_of (words_in words.now)) (L.given input.old) (L.given input.new)
        (L.ended input.new) result (O.view out.old) (O.view out.new) }
    ensures reads { CountsReads (F.texts folder.old) (live_of (words_in words.now)) result (L.given input.old) (L.given input.new)
        (record { folder = F.fault_count folder.old; lines = L.fault_count input.old })
        (record { folder = F.fault_count folder.new; lines = L.fault_count input.new }) (O.view out.old) (O.view out.new) }
    ensures writes { CountsWrites result (O.view out.old) (O.view out.new) }
    ensures folder { KeepsFlow F.texts F.fetch_count (live_of (words_in words.now)) folder.old folder.new }
{
    let Some(words) = parse(words) else {
        return Status::BadWords;
    };
    match fetch_flow(alloc, folder, words.flow) {
        Ok(flow) => answer_lines(alloc, flow, words.rests, store, input, out),
        Err(fault) => unread(fault),
    }
}

/// How a call ends whose flow was not read.
pub fn unread(fault: JobFault) -> Status
    ensures { result ≡ unread_status fault }
{
    match fault {
        JobFault::Failed => Status::ReadFault,
        JobFault::Refused(refusal) => Status::Refused(refusal),
        JobFault::NoMemory => Status::NoMemory,
    }
}

// Answers the lines that come in over a flow, and writes the last line.
fn answer_lines<K: Store + Drop, L: LineSource, O: Sink>(
    alloc: Global,
    flow: Flow,
    rests: bool,
    store: K,
    input: &mut L,
    out: &mut O,
) -> Status
    requires { IsEmptyStore (K.view store).records }
    ensures answers { FlowAnswers K.view rests flow (L.given input.old) (L.given input.new) (L.ended input.new) result (O.view out.old) (O.view out.new) }
    ensures reads { CountsSession result (L.given input.old) (L.given input.new) (L.fault_count input.old) (L.fault_count input.new) }
    ensures writes { CountsWrites result (O.view out.old) (O.view out.new) }
{
    match Live::open(alloc, flow, store, rests) {
        Ok(live) => answer_all(alloc, live, input, out),
        Err(_) => Status::NoMemory,
    }
}

// Answers the lines that come in over a session that was opened, and writes the last line.
fn answer_all<K: Store + Drop, L: LineSource, O: Sink>(
    alloc: Global,
    live: Live<Session<K>>,
    input: &mut L,
    out: &mut O,
) -> Status
    ensures answers { (flow : Dataflow) → flow_of live.session.engine ≡ flow → live.counts ≡ no_counts
        → IsAt live.session.engine (K.view live.session.store).records live.session.arrivals (opening flow)
        → FlowAnswers K.view live.rests flow (L.given input.old) (L.given input.new) (L.ended input.new) result (O.view out.old) (O.view out.new) }
    ensures reads { CountsSession result (L.given input.old) (L.given input.new) (L.fault_count input.old) (L.fault_count input.new) }
    ensures writes { CountsWrites result (O.view out.old) (O.view out.new) }
{
    let mut live = live;
    match serve(alloc, &mut live, input, out) {
        Ok(()) => end(alloc, live.counts(), out),
        Err(fault) => stopped(fault),
    }
}

/// How a call ends that was stopped.
pub fn stopped(fault: ServeFault) -> Status
    ensures { result ≡ stopped_status fault }
{
    match fault {
        ServeFault::Read => Status::ReadFault,
        ServeFault::Write => Status::WriteFault,
        ServeFault::Store => Status::StoreFault,
        ServeFault::NoMemory => Status::NoMemory,
    }
}

/// Writes the last line, and tells whether a record was damaged or the store failed.
pub fn end<O: Sink>(alloc: Global, counts: LineCounts, out: &mut O) -> Status
    ensures whole { EndsWhole result → (result ≡ status_by counts) × IsWritten (life.counts_line counts) (O.view out.old) (O.view out.new) }
    ensures part { EndsBefore result → IsLineCutAt result (life.counts_line counts) (O.view out.old) (O.view out.new) }
    ensures begun { EndsUnbegun result → ⊥ }
    ensures no_root { TellsOfRoot result → ⊥ }
{
    let Ok(line) = last_line(alloc, counts) else {
        return Status::NoMemory;
    };
    match out.write(line.as_bytes()) {
        Ok(()) => status_of(counts),
        Err(OutFault::Failed) => Status::WriteFault,
        Err(OutFault::NoMemory) => Status::NoMemory,
    }
}

// The status of a session that answered all lines, by what was counted.
fn status_of(counts: LineCounts) -> Status
    ensures { result ≡ status_by counts }
{
    match counts.damaged {
        Some(id) => Status::Damaged { id },
        None if counts.faults == 0 => Status::Done,
        None => Status::StoreFault,
    }
}
