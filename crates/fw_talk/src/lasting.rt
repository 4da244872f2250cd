//! A talk over a session that lasts, whose records the holder of the talk keeps.
ghost use Rattle.std.specs.Prelude.{◌≡◌, [], Some, None, IfOk, IfSome};
ghost use Rattle.std.specs.FinMap as map;
ghost use Rattle.std.specs.List.{slice_get};
ghost use Rattle.fw_engine.specs.Engine.{flow_of};
ghost use Rattle.fw_lasting.specs.Starting.{MayStart};
ghost use Rattle.fw_lasting.specs.UnderWay.{IsUnderWay};
ghost use Rattle.fw_outside.specs.Memory.{record_map};
ghost use Rattle.fw_session.specs.Story.{Story};
ghost use Rattle.fw_talk.specs.Lasting as spec;
ghost use Rattle.fw_talk.specs.Lasting.{WereDone, IsGathering, IsTold, IsUnstarted, IsOpenedFrom, IsStartedOver, IsOpenedAt, MayOpenFrom, lines_of, writes_of, reason_of};
ghost use Rattle.sha2.specs.Sha256.{sha256};

use crate::{Reply, Speaker, Talk, Unstarted};
use fw_flow::Flow;
use fw_flow_text::read_flow;
use fw_hold::HoldFault;
use fw_lasting::{LastingSession, Resumed};
use fw_lines::ReadFault;
use fw_live::Live;
use fw_root::Digests;
use fw_running::EngineFault;
use fw_writing::{KeptRecords, RecordWrite, WritingStore};
use sha2::{Digest, Sha256};
use std::alloc::{AllocError, Global};
use std::mem::replace;

impl Talk {
    /// No session yet, and no record that was kept.
    pub fn gathering(alloc: Global) -> Self
        ensures { IsGathering map.empty result.speaker result.answer.items }
    {
        Talk {
            speaker: Speaker::Kept(KeptRecords::new(alloc)),
            answer: Vec::new(alloc),
        }
    }

    /// Tells a record that was kept: these bytes are under the id, in place of what was told of it. `NoMemory` where memory is refused: all
    /// is as it was.
    pub fn put_kept(&mut self, id: u64, bytes: &[u8]) -> Reply
        ensures told { IsTold id (Some bytes.now) self.old.speaker result self.new.speaker }
        ensures answer { self.new.answer ≡ self.old.answer }
    {
        match &mut self.speaker {
            Speaker::Kept(records) => match records.put(id, bytes) {
                Ok(()) => Reply::Answered,
                Err(_) => Reply::NoMemory,
            },
            _ => Reply::NoSession,
        }
    }

    /// Tells that a record was not kept: nothing is under the id.
    pub fn remove_kept(&mut self, id: u64) -> Reply
        ensures told { IsTold id None self.old.speaker result self.new.speaker }
        ensures answer { self.new.answer ≡ self.old.answer }
    {
        match &mut self.speaker {
            Speaker::Kept(records) => {
                records.remove(id);
                Reply::Answered
            }
            _ => Reply::NoSession,
        }
    }

    /// Opens a session over the flow of this text that goes on from the records that were told, which are those of a session over it that
    /// lasts, or none. The lines that it kept last are its answer. Where the text is refused there is none, and the refusal is the answer.
    /// With `rests` each line that is accepted ends with steps to rest, as by `auto 4294967295`.
    pub fn start(&mut self, alloc: Global, text: &[u8], rests: bool) -> Reply
        requires { MayOpenFrom text.now self.old.speaker }
        ensures { IsOpenedFrom text.now rests self.old.speaker self.old.answer.items result self.new.speaker self.new.answer.items }
    {
        let Speaker::Kept(kept) = &mut self.speaker else {
            return Reply::NoSession;
        };
        let records = replace(kept, KeptRecords::new(alloc));
        self.end();
        match started(alloc, text, records, rests) {
            Ok(talk) => {
                *self = talk;
                self.reply()
            }
            Err(_) => Reply::NoMemory,
        }
    }

    /// What a session that lasts put and removed on the way to where it is, in order. Its holder does the same to what it keeps behind each
    /// line. What was told already may be told once more: done again it changes nothing.
    pub fn writes(&self) -> &[RecordWrite]
        ensures noted { result.now ≡ writes_of self.now.speaker }
        ensures done { WereDone self.now.speaker result.now }
    {
        match &self.speaker {
            Speaker::Lasting(live) => live.session().store().writes(),
            _ => &[],
        }
    }
}

// A talk over the records that were kept of a session over the flow of this text. The error is want of memory.
fn started(
    alloc: Global,
    text: &[u8],
    records: KeptRecords,
    rests: bool,
) -> Result<Talk, AllocError>
    requires { MayOpenFrom text.now (Speaker.Kept records) }
    ensures { IfOk result (λ talk. spec.IsStartedBy text.now rests (record_map records.records.entries) talk.speaker talk.answer.items) }
{
    match read_flow(alloc, text) {
        Ok(flow) => begun(alloc, flow, live_digests(text), records, rests),
        Err(ReadFault::Refused(refusal)) => Talk::refused(alloc, refusal),
        Err(ReadFault::NoMemory) => Err(AllocError),
    }
}

// The digests of a session over a flow of this text: it has neither inputs nor a schedule.
fn live_digests(text: &[u8]) -> Digests
    ensures { result ≡ spec.live_digests text.now }
{
    Digests {
        flow: Sha256::digest(text),
        inputs: Sha256::digest(b"live"),
        schedule: Sha256::digest(b"live"),
    }
}

// One over a flow.
fn begun(
    alloc: Global,
    flow: Flow,
    digests: Digests,
    records: KeptRecords,
    rests: bool,
) -> Result<Talk, AllocError>
    requires { MayStart flow digests (Some (record_map records.records.entries)) }
    ensures { IfOk result (λ talk. IsStartedOver flow digests rests (record_map records.records.entries) talk.speaker talk.answer.items) }
{
    match LastingSession::start(alloc, flow, digests, WritingStore::over(records)) {
        Ok((session, resumed)) => opened_at(alloc, session, &resumed, rests),
        Err(failed) => unstarted(alloc, failed.fault),
    }
}

// One over a session that started. Where the start led is kept first, with the lines that were kept last.
fn opened_at(
    alloc: Global,
    session: LastingSession<WritingStore>,
    resumed: &Option<Resumed>,
    rests: bool,
) -> Result<Talk, AllocError>
    ensures { IfOk result (λ talk. IsOpenedAt rests (flow_of session.engine.engine) session.digests (lines_of resumed.now) (λ first. (kept : Story)
        × IsUnderWay session.digests session.engine.engine session.arrivals (Some (record_map session.store.records.entries)) session.turn kept first)
        talk.speaker talk.answer.items) }
{
    let mut session = session;
    let answer = found_lines(resumed).to_vec(alloc)?;
    match session.keep_line(&answer) {
        Ok(()) => {
            let live = Live::over(alloc, session, rests)?;
            Ok(Talk {
                speaker: Speaker::Lasting(live),
                answer,
            })
        }
        Err(_) => Err(AllocError),
    }
}

// The lines that were kept last.
fn found_lines(resumed: &Option<Resumed>) -> &[u8]
    ensures { result.now ≡ lines_of resumed.now }
{
    match resumed {
        Some(resumed) => resumed.lines.as_slice(),
        None => &[],
    }
}

// None, as the session did not start.
fn unstarted(alloc: Global, fault: HoldFault) -> Result<Talk, AllocError>
    ensures { IfOk result (λ talk. IsUnstarted fault talk.speaker talk.answer.items) }
{
    match reason(fault) {
        Some(why) => Ok(Talk {
            speaker: Speaker::Unstarted(why),
            answer: Vec::new(alloc),
        }),
        None => Err(AllocError),
    }
}

// Why it did not; nothing where memory was refused. A start writes no output.
fn reason(fault: HoldFault) -> Option<Unstarted>
    ensures { result ≡ reason_of fault }
{
    match fault {
        HoldFault::Engine(EngineFault::StoreFault) => Some(Unstarted::Missing),
        HoldFault::Engine(EngineFault::Damaged { .. }) | HoldFault::DamagedRoot { .. } => {
            Some(Unstarted::Damaged)
        }
        HoldFault::ForeignRoot => Some(Unstarted::Foreign),
        HoldFault::Engine(EngineFault::NoMemory) | HoldFault::Out(_) => None,
    }
}
