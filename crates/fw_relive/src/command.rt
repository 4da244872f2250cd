//! The call of the command.
ghost use Rattle.std.specs.Prelude.{◌≡◌, ℕ, [], List, IsSome};
ghost use Rattle.std.specs.Option.{ForSome};
ghost use Rattle.fw_command.specs.Words.{words_in};
ghost use Rattle.fw_command.specs.Writing.{NeverFall};
ghost use Rattle.fw_engine.specs.Engine.{flow_of};
ghost use Rattle.fw_lasting.specs.Starting.{HoldsSome, MayStart};
ghost use Rattle.fw_lasting.specs.UnderWay.{IsUnderWay, SaysLast};
ghost use Rattle.fw_live.specs.Call.{CountsReads, CountsSession, EndsUnbegun, KeepsFlow};
ghost use Rattle.fw_live.specs.Life.{no_counts};
ghost use Rattle.fw_live.specs.Words.{live_of};
ghost use Rattle.fw_run.specs.Call.{CountsWrites, TellsNotes};
ghost use Rattle.fw_run.specs.Status.{TellsOfRoot};
ghost use Rattle.fw_session.specs.Story.{Story, IsStory};
ghost use Rattle.fw_relive.specs.Call as spec;
ghost use Rattle.fw_relive.specs.Call.{AnswersBehind, EndsLasting, GivesBack, KeepsAtEnd, LastingAnswers, MayBeginOver, OpensAt, records_in};
ghost use Rattle.fw_relive.specs.Opening.{restart_in};
ghost use Rattle.sha2.specs.Sha256.{sha256};

use crate::opening::open;
use fw_command::flow_with_digest;
use fw_flow::Flow;
use fw_hold::HoldFault;
use fw_lasting::{LastingSession, Resumed};
use fw_live::{LineSource, Live, end, parse, serve, stopped, unread};
use fw_living::Living;
use fw_outside::{Folder, Sink, Store};
use fw_root::Digests;
use fw_run::{Status, tell};
use fw_running::EngineFault;
use sha2::{Digest, Sha256};
use std::alloc::{AllocError, Global};

/// How a call ended, and its store.
#[derive(Drop)]
pub struct Lasted<K: Store + Drop> {
    /// How it ended.
    pub status: Status,
    /// The store; none where memory was refused before the first line was read.
    pub store: Option<K>,
}

/// Runs a session's command over a store that lasts: `words` are those after the program's name, as those of `fw_live::falkirk_live`. It
/// goes on from the story that the store holds, tells what that is, and answers the lines that come in, up to their end. What was done is
/// kept in the store before it is told. Where that does not end well, one line on `notes` says why.
pub fn falkirk_lasting<F: Folder, K: Store + Drop, L: LineSource, O: Sink, N: Sink>(
    alloc: Global,
    words: &[&str],
    folder: &mut F,
    store: K,
    input: &mut L,
    out: &mut O,
    notes: &mut N,
) -> Lasted<K>
    requires may { MayBeginOver (F.texts folder.old) (live_of (words_in words.now)) (K.view store).records }
    // What is true of the call by its status: a field for each promise.
    ensures answers { LastingAnswers (F.texts folder.old) (live_of (words_in words.now)) (K.view store).records (records_in K.view result.store)
        (L.given input.old) (L.given input.new) (L.ended input.new) result.status (O.view out.old) (O.view out.new) }
    // How often what it reads failed, and the output.
    ensures reads { CountsReads (F.texts folder.old) (live_of (words_in words.now)) result.status (L.given input.old) (L.given input.new)
        (record { folder = F.fault_count folder.old; lines = L.fault_count input.old })
        (record { folder = F.fault_count folder.new; lines = L.fault_count input.new }) (O.view out.old) (O.view out.new) }
    ensures writes { CountsWrites result.status (O.view out.old) (O.view out.new) }
    // It gives its store back; or memory was refused before a line came in.
    ensures store { GivesBack result.store result.status (L.given input.old) (L.given input.new) }
    // What was asked of the folder.
    ensures folder { KeepsFlow F.texts F.fetch_count (live_of (words_in words.now)) folder.old folder.new }
    // What the notes took.
    ensures notes { TellsNotes N.view result.status notes.old notes.new }
    ensures never_fall { NeverFall (N.view notes.old) (N.view notes.new) }
{
    let ended = run(alloc, words, folder, store, input, out);
    Lasted {
        status: tell(alloc, ended.status, notes),
        store: ended.store,
    }
}

// Reads the flow, and goes on with its session.
fn run<F: Folder, K: Store + Drop, L: LineSource, O: Sink>(
    alloc: Global,
    words: &[&str],
    folder: &mut F,
    store: K,
    input: &mut L,
    out: &mut O,
) -> Lasted<K>
    requires may { MayBeginOver (F.texts folder.old) (live_of (words_in words.now)) (K.view store).records }
    ensures answers { LastingAnswers (F.texts folder.old) (live_of (words_in words.now)) (K.view store).records (records_in K.view result.store)
        (L.given input.old) (L.given input.new) (L.ended input.new) result.status (O.view out.old) (O.view out.new) }
    ensures reads { CountsReads (F.texts folder.old) (live_of (words_in words.now)) result.status (L.given input.old) (L.given input.new)
        (record { folder = F.fault_count folder.old; lines = L.fault_count input.old })
        (record { folder = F.fault_count folder.new; lines = L.fault_count input.new }) (O.view out.old) (O.view out.new) }
    ensures writes { CountsWrites result.status (O.view out.old) (O.view out.new) }
    ensures store { GivesBack result.store result.status (L.given input.old) (L.given input.new) }
    ensures folder { KeepsFlow F.texts F.fetch_count (live_of (words_in words.now)) folder.old folder.new }
{
    let Some(words) = parse(&*words) else {
        return Lasted {
            status: Status::BadWords,
            store: Some(store),
        };
    };
    match flow_with_digest(alloc, folder, words.flow) {
        Ok(read) => {
            let (flow, digest) = read;
            let digests = live_digests(digest);
            start(alloc, flow, digests, words.rests, store, input, out)
        }
        Err(fault) => Lasted {
            status: unread(fault),
            store: Some(store),
        },
    }
}

// The digests of a session over a flow whose text has this digest.
fn live_digests(digest: [u8; 32]) -> Digests
    ensures { (text : List ℕ) → digest ≡ sha256 text → result ≡ spec.live_digests text }
{
    Digests {
        flow: digest,
        inputs: Sha256::digest(b"live"),
        schedule: Sha256::digest(b"live"),
    }
}

// Starts a session over the store, and goes on with it.
fn start<K: Store + Drop, L: LineSource, O: Sink>(
    alloc: Global,
    flow: Flow,
    digests: Digests,
    rests: bool,
    store: K,
    input: &mut L,
    out: &mut O,
) -> Lasted<K>
    requires may { MayStart flow digests (K.view store).records }
    ensures answers { EndsLasting rests flow digests (K.view store).records (records_in K.view result.store) (L.given input.old) (L.given input.new)
        (L.ended input.new) result.status (O.view out.old) (O.view out.new) }
    ensures begun { EndsUnbegun result.status → ⊥ }
    ensures reads { CountsSession result.status (L.given input.old) (L.given input.new) (L.fault_count input.old) (L.fault_count input.new) }
    ensures writes { CountsWrites result.status (O.view out.old) (O.view out.new) }
    ensures store { GivesBack result.store result.status (L.given input.old) (L.given input.new) }
{
    match LastingSession::start(alloc, flow, digests, store) {
        Ok((session, resumed)) => go_on(alloc, session, &resumed, rests, input, out),
        Err(failed) => Lasted {
            status: unstarted(failed.fault),
            store: Some(failed.store),
        },
    }
}

// How a call ends whose session did not start. A start writes nothing, so no fault is one of the output.
fn unstarted(fault: HoldFault) -> Status
    ensures { result ≡ spec.unstarted_status fault }
{
    match fault {
        HoldFault::Engine(EngineFault::StoreFault) => Status::StoreFault,
        HoldFault::Engine(EngineFault::Damaged { id }) => Status::Damaged { id },
        HoldFault::Engine(EngineFault::NoMemory) | HoldFault::Out(_) => Status::NoMemory,
        HoldFault::DamagedRoot { id } => Status::DamagedRoot { id },
        HoldFault::ForeignRoot => Status::ForeignRoot,
    }
}

// Opens, and answers the lines that come in.
fn go_on<K: Store + Drop, L: LineSource, O: Sink>(
    alloc: Global,
    session: LastingSession<K>,
    resumed: &Option<Resumed>,
    rests: bool,
    input: &mut L,
    out: &mut O,
) -> Lasted<K>
    ensures answers { (kept first : Story)
        → IsUnderWay session.digests session.engine.engine session.arrivals (K.view session.store).records session.turn kept first
        → IsSome (records_in K.view result.store) → OpensAt rests (flow_of session.engine.engine) (restart_in resumed.now) first
        (KeepsAtEnd (flow_of session.engine.engine) session.digests (records_in K.view result.store))
        (L.given input.old) (L.given input.new) (L.ended input.new) result.status (O.view out.old) (O.view out.new) }
    ensures left { (kept first : Story)
        → IsUnderWay session.digests session.engine.engine session.arrivals (K.view session.store).records session.turn kept first
        → ForSome (records_in K.view result.store) (HoldsSome (flow_of session.engine.engine) session.digests) }
    ensures told_before { IsSome (records_in K.view result.store) → IsSome (K.view session.store).records }
    ensures no_root { TellsOfRoot result.status → ⊥ }
    ensures begun { EndsUnbegun result.status → ⊥ }
    ensures reads { CountsSession result.status (L.given input.old) (L.given input.new) (L.fault_count input.old) (L.fault_count input.new) }
    ensures writes { CountsWrites result.status (O.view out.old) (O.view out.new) }
    ensures store { GivesBack result.store result.status (L.given input.old) (L.given input.new) }
{
    let mut session = session;
    match open(alloc, &mut session, resumed, out) {
        Ok(()) => answer_on(alloc, session, rests, input, out),
        Err(fault) => Lasted {
            status: stopped(fault),
            store: Some(session.into_store()),
        },
    }
}

// Answers the lines that come in, over a session that opened.
fn answer_on<K: Store + Drop, L: LineSource, O: Sink>(
    alloc: Global,
    session: LastingSession<K>,
    rests: bool,
    input: &mut L,
    out: &mut O,
) -> Lasted<K>
    ensures answers { (first : Story) (kept : List ℕ)
        → IsUnderWay session.digests session.engine.engine session.arrivals (K.view session.store).records session.turn first first
        → SaysLast (flow_of session.engine.engine) session.digests first session.steps kept (K.view session.store).records
        → IsSome (records_in K.view result.store) → AnswersBehind rests (flow_of session.engine.engine) [] kept first
        (KeepsAtEnd (flow_of session.engine.engine) session.digests (records_in K.view result.store))
        (L.given input.old) (L.given input.new) (L.ended input.new) result.status (O.view out.old) (O.view out.new) }
    ensures left { (first : Story) (kept : List ℕ)
        → IsUnderWay session.digests session.engine.engine session.arrivals (K.view session.store).records session.turn first first
        → SaysLast (flow_of session.engine.engine) session.digests first session.steps kept (K.view session.store).records
        → ForSome (records_in K.view result.store) (HoldsSome (flow_of session.engine.engine) session.digests) }
    ensures told_before { IsSome (records_in K.view result.store) → IsSome (K.view session.store).records }
    ensures no_root { TellsOfRoot result.status → ⊥ }
    ensures begun { EndsUnbegun result.status → ⊥ }
    ensures reads { CountsSession result.status (L.given input.old) (L.given input.new) (L.fault_count input.old) (L.fault_count input.new) }
    ensures writes { CountsWrites result.status (O.view out.old) (O.view out.new) }
    ensures store { GivesBack result.store result.status (L.given input.old) (L.given input.new) }
{
    match Live::over(alloc, session, rests) {
        Ok(mut live) => Lasted {
            status: answer_all(alloc, &mut live, input, out),
            store: Some(live.into_session().into_store()),
        },
        Err(AllocError) => Lasted {
            status: Status::NoMemory,
            store: None,
        },
    }
}

// Answers the lines that come in, and writes the last line.
fn answer_all<S: Living + Drop, L: LineSource, O: Sink>(
    alloc: Global,
    live: &mut Live<S>,
    input: &mut L,
    out: &mut O,
) -> Status
    ensures answers { (story : Story) (kept : List ℕ) → live.old.counts ≡ no_counts → S.at live.old.session story → S.keeps live.old.session story kept
        → IsSome (S.records live.new.session) → AnswersBehind live.old.rests (flow_of (S.engine_of live.old.session)) [] kept story
        (λ last lines. S.at live.new.session last × S.keeps live.new.session last lines)
        (L.given input.old) (L.given input.new) (L.ended input.new) result (O.view out.old) (O.view out.new) }
    ensures left { (story : Story) (kept : List ℕ) → S.at live.old.session story → S.keeps live.old.session story kept
        → S.may_restart live.old.session → IsSome (S.records live.new.session) → S.may_restart live.new.session }
    ensures flow { flow_of (S.engine_of live.new.session) ≡ flow_of (S.engine_of live.old.session) }
    ensures told_before { IsSome (S.records live.new.session) → IsSome (S.records live.old.session) }
    ensures texts { S.digests_of live.new.session ≡ S.digests_of live.old.session }
    ensures no_root { TellsOfRoot result → ⊥ }
    ensures begun { EndsUnbegun result → ⊥ }
    ensures reads { CountsSession result (L.given input.old) (L.given input.new) (L.fault_count input.old) (L.fault_count input.new) }
    ensures writes { CountsWrites result (O.view out.old) (O.view out.new) }
{
    match serve(alloc, live, input, out) {
        Ok(()) => {
            is_at_stories(live);
            end(alloc, live.counts(), out)
        }
        Err(fault) => stopped(fault),
    }
}

// Where a session is, that is a story.
fn is_at_stories<S: Living + Drop>(live: &Live<S>)
    ensures { (story : Story) → S.at live.now.session story → IsStory (flow_of (S.engine_of live.now.session)) story }
{
    let _ = live.session().engine();
}
