//! A session that lasts.
ghost use Rattle.std.specs.Prelude.{◌≡◌, ◌↔◌, ◌⊎◌, ◌-◌, ◌^◌, ◌≤◌, ◌≢◌, Err, false, is_some, IfOk, IsErrOf, IsSome, IsTrue, OnErr, OnOk};
ghost use Rattle.fw_bag.specs.Keyed.{sorted_recs};
ghost use Rattle.fw_engine.specs.Engine.{flow_of, keep_of};
ghost use Rattle.std.specs.Option.{ForSome};
ghost use Rattle.fw_flow.specs.declared.step.Step.TheVariants.{Recover};
ghost use Rattle.fw_keep.specs.Stored.{HasEntries};
ghost use Rattle.fw_running.specs.Faults.{faults_after_step};
ghost use Rattle.fw_running.specs.Steps.{MayCallByItself, MayCallStore};
ghost use Rattle.fw_session.specs.Session.{came_in, is_open_in, StepGoesOn};
ghost use Rattle.fw_session.specs.Story.{Story, after_close, after_feed};
ghost use Rattle.fw_living.specs.Life.{life_faults_after, life_of, AutoGoesOn, CountsKeeping};
ghost use Rattle.fw_lasting.specs.UnderWay as spec;
ghost use Rattle.fw_lasting.specs.UnderWay.{IsUnderWay, KeepsEither, SaysLast, StillHolds};

use crate::putting::{MOST, next_root, put_batch, put_next};
use crate::stepping::{take_first, take_step};
use fw_bag::Rec;
use fw_engine::Engine;
use fw_flow::{NodeId, Step};
use fw_held::RestartableEngine;
use fw_hold::HeldEngine;
use fw_living::LifeFault;
use fw_outside::Store;
use fw_root::Digests;
use fw_running::{EngineFault, Stepped};
use fw_session::{Arrivals, FeedFault, feed_engine};
use std::alloc::Global;

/// An engine with its store, which takes batches while it runs, and goes on where it is started again over the same store: each batch is put
/// before the engine is fed with it, and behind the steps of a line a root is put.
pub struct LastingSession<K: Store + Drop> {
    pub(crate) alloc: Global,
    pub(crate) engine: RestartableEngine,
    pub(crate) arrivals: Arrivals,
    pub(crate) store: K,
    pub(crate) digests: Digests,
    // The turn of the root that was put last, and how many steps were done.
    pub(crate) turn: u64,
    pub(crate) steps: u64,
    // The store holds what the engine's catalogue names, and the ids of that lie before those of batches.
    ghost stored: { ForSome (K.view store).records (HasEntries (keep_of engine.engine)) },
    ghost few: { (keep_of engine.engine).next ≤ 2 ^ 63 },
}

// Written out, so that it is one call wherever a session is let go.
impl<K: Store + Drop> Drop for LastingSession<K> {
    fn drop(self) {
        drop(self.into_store());
    }
}

impl<K: Store + Drop> LastingSession<K> {
    /// The source is fed a batch of these recs, in any order: it is the one of this epoch. It is put into the store first.
    ///
    /// # Errors
    ///
    /// `NotFed` where the source is not open, or 2^20 - 1 batches came to it: then all is as it was. `StoreFault` where the store fails: then
    /// nothing was put. `NoMemory` where memory is refused: then the batch may have been put, and a next start finds it.
    pub fn feed(&mut self, source: NodeId, recs: &[Rec]) -> Result<u64, LifeFault>
        ensures epoch { IfOk result (λ epoch. epoch ≡ came_in self.old.arrivals source) }
        ensures fed { (kept now : Story)
            → IsUnderWay self.old.digests self.old.engine.engine self.old.arrivals (K.view self.old.store).records self.old.turn kept now
            → IfOk result (λ epoch. IsUnderWay self.new.digests self.new.engine.engine self.new.arrivals (K.view self.new.store).records self.new.turn (after_feed source (sorted_recs recs.now) kept) (after_feed source (sorted_recs recs.now) now)) }
        ensures not_fed { IsErrOf result LifeFault.NotFed
            ↔ (is_open_in self.old.arrivals source ≡ false) ⊎ (2 ^ 20 - 1 ≤ came_in self.old.arrivals source) }
        // Behind an error its store holds what was kept, with the batch or without.
        ensures left { (kept now : Story)
            → IsUnderWay self.old.digests self.old.engine.engine self.old.arrivals (K.view self.old.store).records self.old.turn kept now
            → OnErr result (KeepsEither (flow_of self.old.engine.engine) self.old.digests (K.view self.new.store).records kept (after_feed source (sorted_recs recs.now) kept)) }
        ensures stays { IsErrOf result LifeFault.NotFed → self.new ≡ self.old }
        ensures flow { flow_of self.new.engine.engine ≡ flow_of self.old.engine.engine }
        ensures faults { CountsKeeping result (K.view self.new.store).records
            (λ now. (kept : Story) × IsUnderWay self.old.digests self.old.engine.engine self.old.arrivals (K.view self.old.store).records self.old.turn kept now)
            (K.view self.old.store).faults (K.view self.new.store).faults }
        ensures told_before { IsSome (K.view self.new.store).records → IsSome (K.view self.old.store).records }
        ensures digests { self.new.digests ≡ self.old.digests }
    {
        let epoch = match self.arrivals.next_epoch(source) {
            Ok(epoch) => epoch,
            Err(fault) => return Err(of_feed(fault)),
        };
        self.engine.stands_over_others();
        put_batch(self.alloc, source, epoch, false, recs, &mut self.store)?;
        match feed_engine(&mut self.engine.engine, &mut self.arrivals, source, recs) {
            Ok(epoch) => Ok(epoch),
            Err(_) => Err(LifeFault::NoMemory),
        }
    }

    /// Nothing more comes to the source: the batch of this epoch, which is empty, is its last. It is put into the store first.
    ///
    /// # Errors
    ///
    /// `NotFed` where the source is not open: then all is as it was. `StoreFault` where the store fails, `NoMemory` where memory is refused: then
    /// nothing was put.
    pub fn close(&mut self, source: NodeId) -> Result<u64, LifeFault>
        ensures epoch { IfOk result (λ epoch. epoch ≡ came_in self.old.arrivals source) }
        ensures closed { (kept now : Story)
            → IsUnderWay self.old.digests self.old.engine.engine self.old.arrivals (K.view self.old.store).records self.old.turn kept now
            → IfOk result (λ epoch. IsUnderWay self.new.digests self.new.engine.engine self.new.arrivals (K.view self.new.store).records self.new.turn (after_close source kept) (after_close source now)) }
        ensures not_fed { IsErrOf result LifeFault.NotFed ↔ is_open_in self.old.arrivals source ≡ false }
        // Behind an error its store holds what was kept, with the batch or without.
        ensures left { (kept now : Story)
            → IsUnderWay self.old.digests self.old.engine.engine self.old.arrivals (K.view self.old.store).records self.old.turn kept now
            → OnErr result (KeepsEither (flow_of self.old.engine.engine) self.old.digests (K.view self.new.store).records kept (after_close source kept)) }
        ensures stays { IsErrOf result LifeFault.NotFed → self.new ≡ self.old }
        ensures flow { flow_of self.new.engine.engine ≡ flow_of self.old.engine.engine }
        ensures faults { CountsKeeping result (K.view self.new.store).records
            (λ now. (kept : Story) × IsUnderWay self.old.digests self.old.engine.engine self.old.arrivals (K.view self.old.store).records self.old.turn kept now)
            (K.view self.old.store).faults (K.view self.new.store).faults }
        ensures told_before { IsSome (K.view self.new.store).records → IsSome (K.view self.old.store).records }
        ensures digests { self.new.digests ≡ self.old.digests }
    {
        if !self.arrivals.is_open(source) {
            return Err(LifeFault::NotFed);
        }
        let epoch = self.arrivals.came(source);
        self.engine.stands_over_others();
        put_batch(self.alloc, source, epoch, true, &[], &mut self.store)?;
        match self.arrivals.close(source) {
            Ok(epoch) => Ok(epoch),
            Err(fault) => Err(of_feed(fault)),
        }
    }

    /// Takes a step, and tells what it shows: Idle where it is not enabled, and where it is the injection of the last batch of a source that is
    /// open. A collection sweeps nothing before its root is put.
    ///
    /// # Errors
    ///
    /// `StoreFault` where the store fails, and `Damaged` where the bytes that it gives to a recovery spell no record of a write: it is where it
    /// was. `NoMemory` where memory is refused, now or in an earlier step, or where 2^62 ids were drawn.
    pub fn step(&mut self, step: &Step) -> Result<Stepped, EngineFault>
        ensures goes_on { (kept : Story) → StepGoesOn (flow_of self.old.engine.engine) step.now result (K.view self.new.store).records
            (IsUnderWay self.old.digests self.old.engine.engine self.old.arrivals (K.view self.old.store).records self.old.turn kept)
            (IsUnderWay self.new.digests self.new.engine.engine self.new.arrivals (K.view self.new.store).records self.new.turn kept) }
        // Whatever it answers, its store holds what was kept.
        ensures holds { (kept now : Story)
            → IsUnderWay self.old.digests self.old.engine.engine self.old.arrivals (K.view self.old.store).records self.old.turn kept now
            → StillHolds (flow_of self.old.engine.engine) self.old.digests (K.view self.new.store).records kept }
        ensures counted { self.new.steps ≡ spec.steps_after self.old.steps result }
        ensures calls { IsErrOf result EngineFault.StoreFault → MayCallStore (flow_of self.old.engine.engine) step.now }
        ensures tells { step.now ≢ Recover → is_some (K.view self.new.store).records ≡ is_some (K.view self.old.store).records }
        ensures flow { flow_of self.new.engine.engine ≡ flow_of self.old.engine.engine }
        ensures faults { (K.view self.new.store).faults ≡ faults_after_step result (K.view self.old.store).faults }
        ensures told_before { IsSome (K.view self.new.store).records → IsSome (K.view self.old.store).records }
        ensures digests { self.new.digests ≡ self.old.digests }
    {
        if !has_room(&self.engine.engine) {
            return Err(EngineFault::NoMemory);
        }
        let stepped = take_step(
            &mut self.engine.engine,
            &self.arrivals,
            step,
            &mut self.store,
        );
        self.steps = steps_after(self.steps, &stepped);
        stepped
    }

    /// Takes the first step that is enabled, in the order of `auto`, where no source that is open injects its last batch. The errors are
    /// those of `step`; no record is damaged.
    pub fn auto_step(&mut self) -> Result<Stepped, EngineFault>
        ensures goes_on { (kept : Story) → AutoGoesOn (flow_of self.old.engine.engine) result
            (IsUnderWay self.old.digests self.old.engine.engine self.old.arrivals (K.view self.old.store).records self.old.turn kept)
            (IsUnderWay self.new.digests self.new.engine.engine self.new.arrivals (K.view self.new.store).records self.new.turn kept) }
        // Whatever it answers, its store holds what was kept.
        ensures holds { (kept now : Story)
            → IsUnderWay self.old.digests self.old.engine.engine self.old.arrivals (K.view self.old.store).records self.old.turn kept now
            → StillHolds (flow_of self.old.engine.engine) self.old.digests (K.view self.new.store).records kept }
        ensures counted { self.new.steps ≡ spec.steps_after self.old.steps result }
        ensures calls { IsErrOf result EngineFault.StoreFault → MayCallByItself (flow_of self.old.engine.engine) }
        ensures tells { is_some (K.view self.new.store).records ≡ is_some (K.view self.old.store).records }
        ensures flow { flow_of self.new.engine.engine ≡ flow_of self.old.engine.engine }
        ensures faults { (K.view self.new.store).faults ≡ faults_after_step result (K.view self.old.store).faults }
        ensures told_before { IsSome (K.view self.new.store).records → IsSome (K.view self.old.store).records }
        ensures digests { self.new.digests ≡ self.old.digests }
    {
        if !has_room(&self.engine.engine) {
            return Err(EngineFault::NoMemory);
        }
        let stepped = take_first(&mut self.engine.engine, &self.arrivals, &mut self.store);
        self.steps = steps_after(self.steps, &stepped);
        stepped
    }

    /// Keeps what was done: it puts the next root, with these lines, and sweeps what waits. What the store holds then is what was done.
    ///
    /// # Errors
    ///
    /// `StoreFault` where the store fails, `NoMemory` where memory is refused, now or earlier.
    pub fn keep_line(&mut self, lines: &[u8]) -> Result<(), LifeFault>
        ensures kept { (kept now : Story)
            → IsUnderWay self.old.digests self.old.engine.engine self.old.arrivals (K.view self.old.store).records self.old.turn kept now
            → OnOk result (IsUnderWay self.new.digests self.new.engine.engine self.new.arrivals (K.view self.new.store).records self.new.turn
            now now × SaysLast (flow_of self.new.engine.engine) self.new.digests now self.new.steps lines.now (K.view self.new.store).records) }
        ensures left { (kept now : Story)
            → IsUnderWay self.old.digests self.old.engine.engine self.old.arrivals (K.view self.old.store).records self.old.turn kept now
            → OnErr result (KeepsEither (flow_of self.old.engine.engine) self.old.digests (K.view self.new.store).records kept now) }
        ensures flow { flow_of self.new.engine.engine ≡ flow_of self.old.engine.engine }
        ensures faults { (K.view self.new.store).faults ≡ life_faults_after result (K.view self.old.store).faults }
        ensures not_fed { IsErrOf result LifeFault.NotFed → ⊥ }
        ensures told_before { IsSome (K.view self.new.store).records → IsSome (K.view self.old.store).records }
        ensures digests { self.new.digests ≡ self.old.digests }
    {
        let root = next_root(
            self.alloc,
            &self.engine,
            &self.digests,
            self.turn,
            self.steps,
            lines,
        )?;
        self.engine.stands_over_others();
        put_next(self.alloc, &root, &mut self.store)?;
        self.turn += 1;
        match self.engine.sweep(&mut self.store) {
            Ok(()) => Ok(()),
            Err(fault) => Err(of_sweep(fault)),
        }
    }

    /// Its store, to be looked at.
    pub fn store(&self) -> &K
        ensures { result.now ≡ self.now.store }
    {
        &self.store
    }

    /// Its store, which it gives back.
    pub fn into_store(self) -> K
        ensures { result ≡ self.store }
    {
        let LastingSession {
            alloc: _,
            engine,
            arrivals,
            store,
            digests: _,
            turn: _,
            steps: _,
        } = self;
        drop(engine);
        drop(arrivals);
        store
    }

    /// The engine, to be looked at.
    pub fn engine(&self) -> &Engine
        ensures { result.now ≡ self.now.engine.engine }
    {
        &self.engine.engine
    }

    /// Whether the node is a source that is open. Past the last node none is.
    pub fn is_open(&self, source: NodeId) -> bool
        ensures { result ≡ is_open_in self.now.arrivals source }
    {
        self.arrivals.is_open(source)
    }

    /// How many batches came to the node, with the empty one with which it was closed.
    pub fn came(&self, source: NodeId) -> u64
        ensures { result ≡ came_in self.now.arrivals source }
    {
        self.arrivals.came(source)
    }
}

// Whether there are ids to be drawn.
fn has_room(engine: &Engine) -> bool
    ensures { IsTrue result → (keep_of engine.now).next ≤ 2 ^ 62 }
{
    engine.running().parts.keep.next_id() <= MOST
}

// How many steps were done, with one that answered so.
fn steps_after(steps: u64, stepped: &Result<Stepped, EngineFault>) -> u64
    ensures { result ≡ spec.steps_after steps stepped.now }
{
    match stepped {
        Ok(Stepped::Did(_)) if steps < MOST => steps + 1,
        _ => steps,
    }
}

// Why a source is not fed.
fn of_feed(fault: FeedFault) -> LifeFault
    ensures { Err result ≡ life_of (Err fault) }
{
    match fault {
        FeedFault::Closed(_) | FeedFault::Full(_) => LifeFault::NotFed,
        FeedFault::NoMemory => LifeFault::NoMemory,
    }
}

// Why a sweep was not done.
fn of_sweep(fault: EngineFault) -> LifeFault
    ensures { result ≡ spec.of_sweep fault }
{
    match fault {
        EngineFault::NoMemory => LifeFault::NoMemory,
        _ => LifeFault::StoreFault,
    }
}
