//! A session.
ghost use Rattle.std.specs.Prelude.{◌≡◌, ◌↔◌, ◌⊎◌, ◌-◌, ◌^◌, ◌≤◌, ◌<◌, Option, true, false, length, IfOk, IsErr, IsErrOf, IsSome, IsTrue};
ghost use Rattle.fw_bag.specs.Keyed.{sorted_recs};
ghost use Rattle.fw_flow.specs.Dataflow.{kind_of, is_input_kind};
ghost use Rattle.fw_keep.specs.Stored.{Records, IsEmptyStore, IsStored};
ghost use Rattle.fw_model.specs.History.{injected_count};
ghost use Rattle.fw_model.specs.Machine.{events};
ghost use Rattle.fw_running.specs.Faults.{faults_after_step, is_refusal};
ghost use Rattle.fw_feeding.specs.OpenRuns.{HoldsBack};
ghost use Rattle.fw_engine.specs.Engine.{flow_of, keep_of, was_refused, ForEachState};
ghost use Rattle.fw_session.specs.Story.{Story, system_now, opening, after_feed, after_close};
ghost use Rattle.fw_session.specs.Session.{is_open_in, came_in, FirstGoesOn, FirstLeaves, IsAt, IsAtSome, IsCounted, IsOpened, IsShut, StepGoesOn, StepLeaves};

use crate::opening::opening_batches;
use crate::{Arrivals, FeedFault};
use fw_bag::Rec;
use fw_engine::Engine;
use fw_flow::laws::flow_is_well_formed;
use fw_flow::{Flow, NodeId, Step};
use fw_outside::Store;
use fw_running::{EngineFault, Stepped};
use std::alloc::{AllocError, Global};

/// An engine with its store, which takes batches while it runs.
pub struct Session<K: Store + Drop> {
    pub(crate) engine: Engine,
    pub(crate) arrivals: Arrivals,
    pub(crate) store: K,
    // The store holds what the engine's catalogue names.
    ghost stored: { IsStored (keep_of engine) (K.view store).records },
    // Unless memory was refused, it is at some story, over a store that tells its records.
    pub ghost real: { ∥ IsAtSome engine (K.view store).records arrivals ∥₁ },
}

// Written out, so that it is one call wherever a session is let go.
impl<K: Store + Drop> Drop for Session<K> {
    fn drop(self) {
        let Session {
            engine,
            arrivals,
            store,
        } = self;
        drop(engine);
        drop(arrivals);
        drop(store);
    }
}

impl<K: Store + Drop> Session<K> {
    /// Nothing was done, and each input is a source that is open. The store holds no record. The error is want of memory.
    pub fn open(alloc: Global, flow: Flow, store: K) -> Result<Self, AllocError>
        requires { IsEmptyStore (K.view store).records }
        ensures at { IfOk result (λ session. IsAt session.engine (K.view session.store).records session.arrivals (opening flow)) }
        ensures flow { IfOk result (λ session. flow_of session.engine ≡ flow) }
        ensures store { IfOk result (λ session. session.store ≡ store) }
        ensures told { IfOk result (λ session. was_refused session.engine ≡ false) }
    {
        let arrivals = Arrivals::none(alloc, &flow)?;
        let engine = open_engine(alloc, flow)?;
        Ok(Session {
            engine,
            arrivals,
            store,
        })
    }

    /// The source is fed a batch of these recs, in any order: it is the one of this epoch.
    ///
    /// # Errors
    ///
    /// `Closed` where the source is not open, `Full` where 2^20 - 1 batches came to it, or the engine, at no story any more, takes none;
    /// `NoMemory` where memory is refused, now or in an earlier step, and the source is open and not full. Then all is as it was.
    pub fn feed(&mut self, source: NodeId, recs: &[Rec]) -> Result<u64, FeedFault>
        ensures epoch { IfOk result (λ epoch. epoch ≡ came_in self.old.arrivals source) }
        ensures fed { (story : Story) → IsAt self.old.engine (K.view self.old.store).records self.old.arrivals story
            → IfOk result (λ epoch. IsAt self.new.engine (K.view self.new.store).records self.new.arrivals
            (after_feed source (sorted_recs recs.now) story)) }
        ensures stays { IsErr result → self.new.engine ≡ self.old.engine }
        ensures came { IsErr result → self.new.arrivals ≡ self.old.arrivals }
        ensures closed { IsErrOf result (FeedFault.Closed source) ↔ is_open_in self.old.arrivals source ≡ false }
        ensures full { (story : Story) → IsAt self.old.engine (K.view self.old.store).records self.old.arrivals story
            → (IsErrOf result (FeedFault.Full source)
            ↔ (is_open_in self.old.arrivals source ≡ true) × (2 ^ 20 - 1 ≤ came_in self.old.arrivals source)) }
        ensures full_there { IsErrOf result (FeedFault.Full source) → IsTrue (was_refused self.old.engine)
            → 2 ^ 20 - 1 ≤ came_in self.old.arrivals source }
        ensures only { IsErr result
            → IsErrOf result (FeedFault.Closed source) ⊎ (IsErrOf result (FeedFault.Full source) ⊎ IsErrOf result FeedFault.NoMemory) }
        ensures refused { IsTrue (was_refused self.old.engine) → IsErr result }
        ensures counted { IfOk result (λ epoch. IsCounted source self.old.arrivals self.new.arrivals) }
        ensures opened { self.new.arrivals.opened ≡ self.old.arrivals.opened }
        ensures flow { flow_of self.new.engine ≡ flow_of self.old.engine }
        ensures store { self.new.store ≡ self.old.store }
        ensures told { was_refused self.new.engine ≡ was_refused self.old.engine }
    {
        feed_engine(&mut self.engine, &mut self.arrivals, source, recs)
    }

    /// Nothing more comes to the source: the batch of this epoch, which is empty, is its last, and can be injected now.
    ///
    /// # Errors
    ///
    /// `Closed` where the source is not open. Then all is as it was.
    pub fn close(&mut self, source: NodeId) -> Result<u64, FeedFault>
        ensures epoch { IfOk result (λ epoch. epoch ≡ came_in self.old.arrivals source) }
        ensures closes { (story : Story) → IsAt self.old.engine (K.view self.old.store).records self.old.arrivals story
            → IfOk result (λ epoch. IsAt self.new.engine (K.view self.new.store).records self.new.arrivals (after_close source story)) }
        ensures counted { IfOk result (λ epoch. IsCounted source self.old.arrivals self.new.arrivals) }
        ensures shut { IfOk result (λ epoch. IsShut source self.old.arrivals self.new.arrivals) }
        ensures came { IsErr result → self.new.arrivals ≡ self.old.arrivals }
        ensures only { IsErr result → IsErrOf result (FeedFault.Closed source) }
        ensures closed { IsErrOf result (FeedFault.Closed source) ↔ is_open_in self.old.arrivals source ≡ false }
        ensures engine { self.new.engine ≡ self.old.engine }
        ensures store { self.new.store ≡ self.old.store }
    {
        self.arrivals.close(source)
    }

    /// Takes a step, and tells what it shows: Idle where it is not enabled, and where it is the injection of the last batch of a source that
    /// is open.
    ///
    /// # Errors
    ///
    /// `StoreFault` where the store fails, in a step that may call it; it is where it was, but behind a collection, which sweeps last.
    /// `Damaged` where the bytes that the store gives to a recovery spell no record of a write; it is where it was. `NoMemory` where memory
    /// is refused, now or in an earlier step.
    pub fn step(&mut self, step: &Step) -> Result<Stepped, EngineFault>
        ensures goes_on { StepGoesOn (flow_of self.old.engine) step.now result (K.view self.new.store).records
            (IsAt self.old.engine (K.view self.old.store).records self.old.arrivals)
            (IsAt self.new.engine (K.view self.new.store).records self.new.arrivals) }
        ensures leaves { StepLeaves K.view (flow_of self.old.engine) step.now result self.old.store self.new.store }
        ensures flow { flow_of self.new.engine ≡ flow_of self.old.engine }
        ensures came { self.new.arrivals ≡ self.old.arrivals }
        ensures told_before { IsSome (K.view self.new.store).records → IsSome (K.view self.old.store).records }
        ensures faults { (K.view self.new.store).faults ≡ faults_after_step result (K.view self.old.store).faults }
        ensures told { was_refused self.new.engine ≡ is_refusal result }
        ensures refused { IsTrue (was_refused self.old.engine) → IsErrOf result EngineFault.NoMemory }
    {
        if self.engine.is_refused() {
            return Err(EngineFault::NoMemory);
        }
        if is_held_back(&self.engine, &self.arrivals, step) {
            return Ok(Stepped::Idle);
        }
        self.engine.step(step, &mut self.store)
    }

    /// Takes the first step that is enabled, in the order of `auto`, where no source that is open injects its last batch. The errors are
    /// those of `step`; no record is damaged.
    pub fn auto_step(&mut self) -> Result<Stepped, EngineFault>
        ensures goes_on { FirstGoesOn (flow_of self.old.engine) self.old.arrivals result
            (IsAt self.old.engine (K.view self.old.store).records self.old.arrivals)
            (IsAt self.new.engine (K.view self.new.store).records self.new.arrivals) }
        ensures leaves { FirstLeaves K.view (flow_of self.old.engine) result self.old.store self.new.store }
        ensures flow { flow_of self.new.engine ≡ flow_of self.old.engine }
        ensures came { self.new.arrivals ≡ self.old.arrivals }
        ensures told_before { IsSome (K.view self.new.store).records → IsSome (K.view self.old.store).records }
        ensures faults { (K.view self.new.store).faults ≡ faults_after_step result (K.view self.old.store).faults }
        ensures told { was_refused self.new.engine ≡ is_refusal result }
        ensures refused { IsTrue (was_refused self.old.engine) → IsErrOf result EngineFault.NoMemory }
    {
        self.engine
            .auto_step_within(&self.arrivals.came, &mut self.store)
    }

    /// The flow that it runs.
    pub fn flow(&self) -> &Flow
        ensures { result.now ≡ flow_of self.now.engine }
    {
        self.engine.flow()
    }

    /// The engine, to be looked at.
    pub fn engine(&self) -> &Engine
        ensures { result.now ≡ self.now.engine }
    {
        &self.engine
    }

    /// The store, to be looked at.
    pub fn store(&self) -> &K
        ensures { result.now ≡ self.now.store }
    {
        &self.store
    }

    /// Whether the node is a source that is open. Past the last node none is.
    pub fn is_open(&self, source: NodeId) -> bool
        ensures { result ≡ is_open_in self.now.arrivals source }
    {
        self.arrivals.is_open(source)
    }

    /// How many batches came to the node, with the empty one with which it was closed.
    pub fn came(&self, source: NodeId) -> u64
        ensures { result ≡ came_in self.now.arrivals source }
    {
        self.arrivals.came(source)
    }
}

// An engine of the flow, with the batches with which a session opens. The error is want of memory.
fn open_engine(alloc: Global, flow: Flow) -> Result<Engine, AllocError>
    ensures opened { (records : Option Records) → IfOk result (λ engine. IsOpened flow engine records) }
    ensures stored { (records : Option Records) → IsEmptyStore records → IfOk result (λ engine. IsStored (keep_of engine) records) }
    ensures told { IfOk result (λ engine. was_refused engine ≡ false) }
{
    flow_is_well_formed(&flow);
    let batches = opening_batches(alloc, &flow)?;
    Engine::new(alloc, flow, &batches)
}

/// The source is fed the batch, and it is counted: its epoch. The errors are those of `Session::feed`.
pub fn feed_engine(
    engine: &mut Engine,
    arrivals: &mut Arrivals,
    source: NodeId,
    recs: &[Rec],
) -> Result<u64, FeedFault>
    ensures epoch { IfOk result (λ epoch. epoch ≡ came_in arrivals.old source) }
    ensures fed { (records : Option Records) (story : Story) → IsAt engine.old records arrivals.old story
        → IfOk result (λ epoch. IsAt engine.new records arrivals.new (after_feed source (sorted_recs recs.now) story)) }
    ensures stays { IsErr result → engine.new ≡ engine.old }
    ensures came { IsErr result → arrivals.new ≡ arrivals.old }
    ensures closed { IsErrOf result (FeedFault.Closed source) ↔ is_open_in arrivals.old source ≡ false }
    ensures full { (records : Option Records) (story : Story) → IsAt engine.old records arrivals.old story
        → (IsErrOf result (FeedFault.Full source) ↔ (is_open_in arrivals.old source ≡ true) × (2 ^ 20 - 1 ≤ came_in arrivals.old source)) }
    ensures full_there { IsErrOf result (FeedFault.Full source) → IsTrue (was_refused engine.old) → 2 ^ 20 - 1 ≤ came_in arrivals.old source }
    ensures only { IsErr result
        → IsErrOf result (FeedFault.Closed source) ⊎ (IsErrOf result (FeedFault.Full source) ⊎ IsErrOf result FeedFault.NoMemory) }
    ensures refused { IsTrue (was_refused engine.old) → IsErr result }
    ensures counted { IfOk result (λ epoch. IsCounted source arrivals.old arrivals.new) }
    ensures opened { arrivals.new.opened ≡ arrivals.old.opened }
    ensures told { was_refused engine.new ≡ was_refused engine.old }
    ensures flow { flow_of engine.new ≡ flow_of engine.old }
    ensures keep { keep_of engine.new ≡ keep_of engine.old }
{
    let epoch = arrivals.next_epoch(source)?;
    if !engine.feed(source, recs)? {
        return Err(FeedFault::Full(source));
    }
    arrivals.count(source);
    Ok(epoch)
}

/// Whether the step is the injection of the last batch of a source that is open.
pub fn is_held_back(engine: &Engine, arrivals: &Arrivals, step: &Step) -> bool
    ensures held { (records : Option Records) (story : Story) → IsAt engine.now records arrivals.now story → IsTrue result
        → HoldsBack story.now.opened (system_now (flow_of engine.now) story) story.now.state step.now → ⊥ }
    ensures free { (records : Option Records) (story : Story) → IsAt engine.now records arrivals.now story → result ≡ false
        → HoldsBack story.now.opened (system_now (flow_of engine.now) story) story.now.state step.now }
{
    match step {
        Step::Inject(source) => {
            arrivals.is_open(*source) && has_injected(engine, *source, arrivals.came(*source))
        }
        _ => false,
    }
}

// Whether an input injected so many batches.
fn has_injected(engine: &Engine, source: NodeId, count: u64) -> bool
    ensures all { (records : Option Records) → ForEachState engine.now records (λ sys state.
        IsTrue result → count ≤ injected_count source (events state.history)) }
    ensures fewer { (records : Option Records) → ForEachState engine.now records (λ sys state.
        source < length (flow_of engine.now).nodes → is_input_kind (kind_of (flow_of engine.now) source) ≡ true
        → result ≡ false → injected_count source (events state.history) < count) }
{
    match engine.injected(source) {
        Some(injected) => injected >= count,
        None => false,
    }
}
