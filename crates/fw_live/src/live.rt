//! A session that answers lines.
ghost use Rattle.std.specs.Prelude.{◌≡◌, ◌≤◌, ℕ, List, Some, None, false, IsErrOf, IsSome, IfOk};
ghost use Rattle.fw_flow.specs.Sources.{sources_of};
ghost use Rattle.fw_engine.specs.Engine.{flow_of};
ghost use Rattle.fw_keep.specs.Stored.{IsEmptyStore};
ghost use Rattle.fw_outside.specs.Outside.{one_more};
ghost use Rattle.fw_session.specs.Session.{IsAt};
ghost use Rattle.fw_session.specs.Story.{Story, opening};
ghost use Rattle.fw_live.specs.Answered.{HasAnswered};
ghost use Rattle.fw_live.specs.Asked.{asked_for};
ghost use Rattle.fw_live.specs.Faults.{FaultsBy};
ghost use Rattle.fw_live.specs.Life.{no_counts};
ghost use Rattle.fw_live.specs.Relies.{IsLineReliedOn, IsAskedReliedOn};
ghost use Rattle.fw_live.specs.Reading.{heard_in};

use crate::asked::{Asked, first_line, read_line};
use crate::counts::LineCounts;
use crate::rule::LineRule;
use crate::text::write_refused;
use crate::turn::{allowed, turn};
use fw_flow::Flow;
use fw_lines::SourceNames;
use fw_living::{LifeFault, Living};
use fw_outside::Store;
use fw_session::Session;
use std::alloc::{AllocError, Global};

/// A session that answers lines: batches, ends of sources, and steps.
pub struct Live<S: Living + Drop> {
    alloc: Global,
    pub(crate) session: S,
    sources: SourceNames,
    pub(crate) rests: bool,
    pub(crate) counts: LineCounts,
    // The sources are those of its flow.
    ghost named: { sources ≡ sources_of (flow_of (S.engine_of session)) },
}

// Written out, so that it is one call wherever a session is let go.
impl<S: Living + Drop> Drop for Live<S> {
    fn drop(self) {
        drop(self.into_session());
    }
}

impl<K: Store + Drop> Live<Session<K>> {
    /// Nothing was done, and each input is a source that is open. The store holds no record. With `rests` each line that is accepted,
    /// but `show`, ends with steps to rest, as by `auto 4294967295`. The error is want of memory.
    pub fn open(alloc: Global, flow: Flow, store: K, rests: bool) -> Result<Self, AllocError>
        requires { IsEmptyStore (K.view store).records }
        ensures at { IfOk result (λ live. IsAt live.session.engine (K.view live.session.store).records live.session.arrivals (opening flow)) }
        ensures flow { IfOk result (λ live. flow_of live.session.engine ≡ flow) }
        ensures rests { IfOk result (λ live. live.rests ≡ rests) }
        ensures none { IfOk result (λ live. live.counts ≡ no_counts) }
    {
        let session = Session::open(alloc, flow, store)?;
        Live::over(alloc, session, rests)
    }
}

impl<S: Living + Drop> Live<S> {
    /// No line was answered. With `rests` each line that is accepted, but `show`, ends with steps to rest, as by `auto 4294967295`. The
    /// error is want of memory.
    pub fn over(alloc: Global, session: S, rests: bool) -> Result<Self, AllocError>
        ensures session { IfOk result (λ live. live.session ≡ session) }
        ensures rests { IfOk result (λ live. live.rests ≡ rests) }
        ensures none { IfOk result (λ live. live.counts ≡ no_counts) }
    {
        let sources = session.engine().flow().source_names(alloc)?;
        Ok(Live {
            alloc,
            session,
            sources,
            rests,
            counts: LineCounts::new(),
        })
    }

    /// Answers a line: what it comes to is put behind the bytes of `into`, as the lines of effects and one that ends the answer. What
    /// stands behind the first line feed of the line is left out.
    ///
    /// # Errors
    ///
    /// Those of `Living::keep_line` and of `Living::feed`: then the answer may not be told, and no further line be answered.
    pub fn answer(&mut self, line: &[u8], into: &mut Vec<u8>) -> Result<(), LifeFault>
        ensures answered { (story : Story) (kept : List ℕ) → S.at self.old.session story → S.keeps self.old.session story kept
            → IsLineReliedOn (S.records self.new.session) (flow_of (S.engine_of self.old.session)) (Some line.now)
            → IfOk result (λ _. HasAnswered self.old.rests (flow_of (S.engine_of self.old.session)) story kept (asked_for (flow_of (S.engine_of self.old.session)) (Some line.now))
            self.old.counts self.new.counts into.old.items into.new.items
            (λ next lines. S.at self.new.session next × S.keeps self.new.session next lines) (S.records self.new.session)) }
        ensures flow { flow_of (S.engine_of self.new.session) ≡ flow_of (S.engine_of self.old.session) }
        ensures rests { self.new.rests ≡ self.old.rests }
        ensures told_before { IsSome (S.records self.new.session) → IsSome (S.records self.old.session) }
        ensures texts { S.digests_of self.new.session ≡ S.digests_of self.old.session }
        ensures left { (story : Story) → S.at self.old.session story → S.may_restart self.old.session → IsSome (S.records self.new.session)
            → S.may_restart self.new.session }
        ensures faults { FaultsBy result self.old.counts.faults self.new.counts.faults (S.fault_count self.old.session) (S.fault_count self.new.session) }
        ensures store_failed { (story : Story) → S.at self.old.session story → IsSome (S.records self.new.session) → IsErrOf result LifeFault.StoreFault
            → one_more (S.fault_count self.old.session) ≤ S.fault_count self.new.session }
        ensures lasts { S.lasts ≡ false → IsErrOf result LifeFault.StoreFault → ⊥ }
    {
        let heard = read_line(
            self.alloc,
            first_line(line),
            self.session.engine().flow(),
            &self.sources,
        )?;
        self.answer_heard(heard, into)
    }

    /// Answers a line that is too long, as `answer` does.
    ///
    /// # Errors
    ///
    /// Want of memory.
    pub fn answer_long(&mut self, into: &mut Vec<u8>) -> Result<(), LifeFault>
        ensures answered { (story : Story) (kept : List ℕ) → S.at self.old.session story → S.keeps self.old.session story kept
            → IfOk result (λ _. HasAnswered self.old.rests (flow_of (S.engine_of self.old.session)) story kept (asked_for (flow_of (S.engine_of self.old.session)) None)
            self.old.counts self.new.counts into.old.items into.new.items
            (λ next lines. S.at self.new.session next × S.keeps self.new.session next lines) (S.records self.new.session)) }
        ensures flow { flow_of (S.engine_of self.new.session) ≡ flow_of (S.engine_of self.old.session) }
        ensures rests { self.new.rests ≡ self.old.rests }
        ensures told_before { IsSome (S.records self.new.session) → IsSome (S.records self.old.session) }
        ensures texts { S.digests_of self.new.session ≡ S.digests_of self.old.session }
        ensures left { (story : Story) → S.at self.old.session story → S.may_restart self.old.session → IsSome (S.records self.new.session)
            → S.may_restart self.new.session }
        ensures faults { FaultsBy result self.old.counts.faults self.new.counts.faults (S.fault_count self.old.session) (S.fault_count self.new.session) }
        ensures store_failed { (story : Story) → S.at self.old.session story → IsSome (S.records self.new.session) → IsErrOf result LifeFault.StoreFault
            → one_more (S.fault_count self.old.session) ≤ S.fault_count self.new.session }
        ensures lasts { S.lasts ≡ false → IsErrOf result LifeFault.StoreFault → ⊥ }
    {
        self.answer_heard(Err(LineRule::Length), into)
    }

    // Answers what was heard.
    fn answer_heard(
        &mut self,
        heard: Result<Asked, LineRule>,
        into: &mut Vec<u8>,
    ) -> Result<(), LifeFault>
        ensures answered { (story : Story) (kept : List ℕ) → S.at self.old.session story → S.keeps self.old.session story kept
            → IsAskedReliedOn (S.records self.new.session) (heard_in heard)
            → IfOk result (λ _. HasAnswered self.old.rests (flow_of (S.engine_of self.old.session)) story kept (heard_in heard)
            self.old.counts self.new.counts into.old.items into.new.items
            (λ next lines. S.at self.new.session next × S.keeps self.new.session next lines) (S.records self.new.session)) }
        ensures flow { flow_of (S.engine_of self.new.session) ≡ flow_of (S.engine_of self.old.session) }
        ensures rests { self.new.rests ≡ self.old.rests }
        ensures told_before { IsSome (S.records self.new.session) → IsSome (S.records self.old.session) }
        ensures texts { S.digests_of self.new.session ≡ S.digests_of self.old.session }
        ensures left { (story : Story) → S.at self.old.session story → S.may_restart self.old.session → IsSome (S.records self.new.session)
            → S.may_restart self.new.session }
        ensures faults { FaultsBy result self.old.counts.faults self.new.counts.faults (S.fault_count self.old.session) (S.fault_count self.new.session) }
        ensures store_failed { (story : Story) → S.at self.old.session story → IsSome (S.records self.new.session) → IsErrOf result LifeFault.StoreFault
            → one_more (S.fault_count self.old.session) ≤ S.fault_count self.new.session }
        ensures lasts { S.lasts ≡ false → IsErrOf result LifeFault.StoreFault → ⊥ }
    {
        self.counts.count_line();
        match allowed(&self.session, heard) {
            Err(rule) => {
                write_refused(self.alloc, rule, self.counts.lines, into)?;
                Ok(())
            }
            Ok(asked) => turn(
                self.alloc,
                &mut self.session,
                &asked,
                self.rests,
                &mut self.counts,
                into,
            ),
        }
    }

    /// The session, to be looked at.
    pub fn session(&self) -> &S
        ensures { result.now ≡ self.now.session }
    {
        &self.session
    }

    /// The session, where no line is answered any more.
    pub fn into_session(self) -> S
        ensures { result ≡ self.session }
    {
        let Live {
            alloc: _,
            session,
            sources,
            rests: _,
            counts: _,
        } = self;
        drop(sources);
        session
    }

    /// What was counted of its lines.
    pub fn counts(&self) -> LineCounts
        ensures { result ≡ self.now.counts }
    {
        self.counts
    }
}
