//! A session of lines with its last answer.
ghost use Rattle.std.specs.Prelude.{◌≡◌, ◌++◌, [], codes, IfOk, OnOk};
ghost use Rattle.fw_lines.specs.Refusal.{refusal_text};
ghost use Rattle.fw_talk.specs.Talk.{IsOpenedTalk, IsOpenedOver, IsLineTold, reply_of};

use crate::{Reply, Unstarted};
use fw_flow::Flow;
use fw_flow_text::read_flow;
use fw_lasting::LastingSession;
use fw_lines::{ReadFault, Refusal};
use fw_live::Live;
use fw_living::LifeFault;
use fw_outside::FaultlessStore;
use fw_session::Session;
use fw_writing::{KeptRecords, WritingStore};
use std::alloc::{AllocError, Global};

/// What answers the lines of a talk.
pub enum Speaker {
    /// A session whose records end with it.
    Session(Live<Session<FaultlessStore>>),
    /// One that lasts: whoever holds the talk keeps its records.
    Lasting(Live<LastingSession<WritingStore>>),
    /// None yet: the records that were kept of one that lasts are told.
    Kept(KeptRecords),
    /// None: it did not start over those that were told.
    Unstarted(Unstarted),
    /// None: the text of the flow was refused.
    FlowRefused,
    /// None any more: memory was refused.
    NoMemory,
}

// Written out, so that it is one call wherever a speaker is let go.
impl Drop for Speaker {
    fn drop(self) {
        match self {
            Speaker::Session(live) => drop(live),
            Speaker::Lasting(live) => drop(live),
            Speaker::Kept(records) => drop(records),
            Speaker::Unstarted(_) | Speaker::FlowRefused | Speaker::NoMemory => {}
        }
    }
}

/// A session of lines with the answer to its last line.
pub struct Talk {
    pub(crate) speaker: Speaker,
    // To its last line; or the refusal of its flow.
    pub(crate) answer: Vec<u8>,
}

// Written out, so that it is one call wherever a talk is let go.
impl Drop for Talk {
    fn drop(self) {
        let Talk { speaker, answer } = self;
        drop(speaker);
        drop(answer);
    }
}

impl Talk {
    /// A talk over the flow of this text: a session in which nothing was done. Where the text is refused there is none, and the refusal is
    /// the answer. With `rests` each line that is accepted ends with steps to rest, as by `auto 4294967295`. The error is want of memory.
    pub fn open(alloc: Global, text: &[u8], rests: bool) -> Result<Self, AllocError>
        ensures { IfOk result (λ talk. IsOpenedTalk text.now rests talk.speaker talk.answer.items) }
    {
        match read_flow(alloc, text) {
            Ok(flow) => Talk::over(alloc, flow, rests),
            Err(ReadFault::Refused(refusal)) => Talk::refused(alloc, refusal),
            Err(ReadFault::NoMemory) => Err(AllocError),
        }
    }

    // A session over the flow, and no answer.
    fn over(alloc: Global, flow: Flow, rests: bool) -> Result<Self, AllocError>
        ensures { IfOk result (λ talk. IsOpenedOver flow rests talk.speaker talk.answer.items) }
    {
        let live = Live::open(alloc, flow, FaultlessStore::new(alloc), rests)?;
        Ok(Talk {
            speaker: Speaker::Session(live),
            answer: Vec::new(alloc),
        })
    }

    // No session, and the refusal as the answer.
    pub(crate) fn refused(alloc: Global, refusal: Refusal) -> Result<Self, AllocError>
        ensures speaker { IfOk result (λ talk. talk.speaker ≡ Speaker.FlowRefused) }
        ensures answer { IfOk result (λ talk. talk.answer.items ≡ refusal_text refusal ++ codes "\n") }
    {
        let line = format!(in alloc; "{refusal}\n")?;
        Ok(Talk {
            speaker: Speaker::FlowRefused,
            answer: line.into_bytes(),
        })
    }

    /// Answers a line. What stands behind its first line feed is left out.
    pub fn line(&mut self, line: &[u8]) -> Reply
        ensures told { IsLineTold line.now self.old.speaker self.old.answer.items self.new.speaker self.new.answer.items }
        ensures reply { result ≡ reply_of self.new.speaker }
    {
        match &mut self.speaker {
            Speaker::Session(live) => match answered(live, line, &mut self.answer) {
                Ok(()) => Reply::Answered,
                Err(_) => {
                    self.end();
                    Reply::NoMemory
                }
            },
            Speaker::Lasting(live) => match answered_lasting(live, line, &mut self.answer) {
                Ok(()) => Reply::Answered,
                Err(_) => {
                    self.end();
                    Reply::NoMemory
                }
            },
            Speaker::Kept(_) => Reply::NoSession,
            Speaker::Unstarted(why) => Reply::Unstarted(*why),
            Speaker::FlowRefused => Reply::FlowRefused,
            Speaker::NoMemory => Reply::NoMemory,
        }
    }

    // There is no session any more, and no answer.
    pub(crate) fn end(&mut self)
        ensures speaker { self.new.speaker ≡ Speaker.NoMemory }
        ensures answer { self.new.answer.items ≡ [] }
    {
        self.speaker = Speaker::NoMemory;
        self.answer.clear();
    }

    /// What it replied to its last line; before the first one, whether it was opened.
    pub fn reply(&self) -> Reply
        ensures { result ≡ reply_of self.now.speaker }
    {
        match &self.speaker {
            Speaker::Session(_) | Speaker::Lasting(_) => Reply::Answered,
            Speaker::Kept(_) => Reply::NoSession,
            Speaker::Unstarted(why) => Reply::Unstarted(*why),
            Speaker::FlowRefused => Reply::FlowRefused,
            Speaker::NoMemory => Reply::NoMemory,
        }
    }

    /// The answer to its last line; or the refusal of its flow.
    pub fn answer(&self) -> &[u8]
        ensures { result.now ≡ self.now.answer.items }
    {
        self.answer.as_slice()
    }

    /// Where the bytes of the answer begin. No clause says what lies there.
    pub fn answer_start(&self) -> *const u8 {
        self.answer.as_ptr()
    }
}

// Answers a line over a session whose records end with it, in place of what `into` has.
fn answered(
    live: &mut Live<Session<FaultlessStore>>,
    line: &[u8],
    into: &mut Vec<u8>,
) -> Result<(), LifeFault>
    ensures { OnOk result (IsLineTold line.now (Speaker.Session live.old) into.old.items (Speaker.Session live.new) into.new.items) }
{
    into.clear();
    live.answer(line, into)
}

// Answers a line over one that lasts. Its store never fails; were it to, it would be as if memory were refused.
fn answered_lasting(
    live: &mut Live<LastingSession<WritingStore>>,
    line: &[u8],
    into: &mut Vec<u8>,
) -> Result<(), LifeFault>
    ensures { OnOk result (IsLineTold line.now (Speaker.Lasting live.old) into.old.items (Speaker.Lasting live.new) into.new.items) }
{
    into.clear();
    live.answer(line, into)
}
