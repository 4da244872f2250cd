//! A session over which lines can be answered.
ghost use Rattle.std.specs.Prelude.{◌≡◌, ◌≢◌, ◌↔◌, ◌⊎◌, ◌-◌, ◌^◌, ◌≤◌, ℕ, false, is_some, Bool, List, Option, IfOk, IsErrOf, IsSome, OnOk};
ghost use Rattle.fw_bag.specs.Keyed.{sorted_recs};
ghost use Rattle.fw_keep.specs.Stored.{Records};
ghost use Rattle.fw_root.specs.declared.root.Digests.{Digests};
ghost use Rattle.fw_flow.specs.declared.step.Step.TheVariants.{Recover};
ghost use Rattle.fw_running.specs.Faults.{faults_after_step};
ghost use Rattle.fw_running.specs.Steps.{MayCallByItself, MayCallStore};
ghost use Rattle.fw_engine.specs.declared.engine.Engine.{Engine as EngineOf};
ghost use Rattle.fw_engine.specs.Engine.{flow_of, StandsFor};
ghost use Rattle.fw_session.specs.Session.{StepGoesOn};
ghost use Rattle.fw_session.specs.Story.{Story, IsStory, system_now, after_feed, after_close};
ghost use Rattle.fw_living.specs.Life.{came_in_story, life_faults_after, AutoGoesOn, CountsKeeping};

use crate::LifeFault;
use fw_bag::Rec;
use fw_engine::Engine;
use fw_flow::{NodeId, Step};
use fw_running::{EngineFault, Stepped};

/// A session: an engine with its store, which takes batches while it runs. What was done in it is a story.
///
/// The words `lasts`, `at` and `keeps` are each session's own. The clauses here lead from one story to the next. At which story a session
/// begins, its `open` says; what a start behind its end finds, a law of its crate.
pub trait Living {
    /// Whether its store may fail in a call that takes no step. Where it is false, none does.
    ghost lasts: { Bool };

    /// Its engine.
    ghost engine_of: { Self → EngineOf };

    /// What its store tells of its records, if it does.
    ghost records: { Self → Option Records };

    /// How often its store failed.
    ghost fault_count: { Self → ℕ };

    /// Of which texts are the roots that its store holds, where it lasts.
    ghost digests_of: { Self → Option Digests };

    /// A start may go on over its store.
    ghost may_restart: { Self → Type 0 };

    /// It is at this story: this is what was done in it.
    ghost at: { Self → Story → Type 0 };

    /// What a start behind its end goes on from, by the laws of the session: this story, and these lines of what the last line showed.
    /// Of a session that ends with its store it says no more than `at`.
    ghost keeps: { Self → Story → List ℕ → Type 0 };

    /// Its engine, to be looked at.
    fn engine(&self) -> &Engine
        ensures engine { result.now ≡ engine_of self.now }
        ensures of_story { (story : Story) → at self.now story → IsStory (flow_of result.now) story }
        ensures stands { (story : Story) → at self.now story
            → StandsFor (system_now (flow_of result.now) story) result.now (records self.now) story.now.state };

    /// Whether the node is a source that is open. Past the last node none is.
    fn is_open(&self, source: NodeId) -> bool
        ensures { (story : Story) → at self.now story → result ≡ story.now.opened source };

    /// How many batches came to the node, with the empty one with which it was closed.
    fn came(&self, source: NodeId) -> u64
        ensures { (story : Story) → at self.now story → result ≡ came_in_story (flow_of (engine_of self.now)) story source };

    /// The source is fed a batch of these recs, in any order: it is the one of this epoch.
    ///
    /// # Errors
    ///
    /// `NotFed` where the source is not open, or 2^20 - 1 batches came to it: it is where it was. `StoreFault` where the store fails that
    /// has to keep the batch; of a store that tells its records that is counted once. `NoMemory` where memory is refused, now or earlier.
    fn feed(&mut self, source: NodeId, recs: &[Rec]) -> Result<u64, LifeFault>
        ensures fed { (story : Story) → at self.old story
            → IfOk result (λ epoch. (epoch ≡ came_in_story (flow_of (engine_of self.old)) story source)
            × at self.new (after_feed source (sorted_recs recs.now) story)) }
        ensures not_fed { (story : Story) → at self.old story → (IsErrOf result LifeFault.NotFed
            ↔ (story.now.opened source ≡ false) ⊎ (2 ^ 20 - 1 ≤ came_in_story (flow_of (engine_of self.old)) story source)) }
        ensures stays { (story : Story) → at self.old story → IsErrOf result LifeFault.NotFed → at self.new story }
        ensures flow { flow_of (engine_of self.new) ≡ flow_of (engine_of self.old) }
        ensures store { lasts ≡ false → IsErrOf result LifeFault.StoreFault → ⊥ }
        ensures faults { CountsKeeping result (records self.new) (at self.old) (fault_count self.old) (fault_count self.new) }
        ensures told_before { IsSome (records self.new) → IsSome (records self.old) }
        ensures texts { digests_of self.new ≡ digests_of self.old }
        ensures left { (story : Story) → at self.old story → IsSome (records self.new) → may_restart self.new };

    /// Nothing more comes to the source: the batch of this epoch, which is empty, is its last.
    ///
    /// # Errors
    ///
    /// `NotFed` where the source is not open: it is where it was; the others as by `feed`.
    fn close(&mut self, source: NodeId) -> Result<u64, LifeFault>
        ensures closed { (story : Story) → at self.old story
            → IfOk result (λ epoch. (epoch ≡ came_in_story (flow_of (engine_of self.old)) story source)
            × at self.new (after_close source story)) }
        ensures not_fed { (story : Story) → at self.old story → (IsErrOf result LifeFault.NotFed ↔ story.now.opened source ≡ false) }
        ensures stays { (story : Story) → at self.old story → IsErrOf result LifeFault.NotFed → at self.new story }
        ensures flow { flow_of (engine_of self.new) ≡ flow_of (engine_of self.old) }
        ensures store { lasts ≡ false → IsErrOf result LifeFault.StoreFault → ⊥ }
        ensures faults { CountsKeeping result (records self.new) (at self.old) (fault_count self.old) (fault_count self.new) }
        ensures told_before { IsSome (records self.new) → IsSome (records self.old) }
        ensures texts { digests_of self.new ≡ digests_of self.old }
        ensures left { (story : Story) → at self.old story → IsSome (records self.new) → may_restart self.new };

    /// Takes a step, and tells what it shows: Idle where it is not enabled, and where it is the injection of the last batch of a source
    /// that is open.
    ///
    /// # Errors
    ///
    /// `StoreFault` where the store fails that the step has to call: it is where it was, but behind a collection. `Damaged` where a
    /// recovery reads bytes that spell no record: it is where it was. `NoMemory` where memory is refused, now or earlier.
    fn step(&mut self, step: &Step) -> Result<Stepped, EngineFault>
        ensures goes_on { StepGoesOn (flow_of (engine_of self.old)) step.now result (records self.new) (at self.old) (at self.new) }
        ensures calls { IsErrOf result EngineFault.StoreFault → MayCallStore (flow_of (engine_of self.old)) step.now }
        ensures tells { step.now ≢ Recover → is_some (records self.new) ≡ is_some (records self.old) }
        ensures flow { flow_of (engine_of self.new) ≡ flow_of (engine_of self.old) }
        ensures faults { fault_count self.new ≡ faults_after_step result (fault_count self.old) }
        ensures told_before { IsSome (records self.new) → IsSome (records self.old) }
        ensures texts { digests_of self.new ≡ digests_of self.old }
        ensures left { (story : Story) → at self.old story → IsSome (records self.new) → may_restart self.new };

    /// Takes the first step that is enabled, in the order of `auto`, where no source that is open injects its last batch. The errors are
    /// those of `step`; no record is damaged.
    fn auto_step(&mut self) -> Result<Stepped, EngineFault>
        ensures goes_on { AutoGoesOn (flow_of (engine_of self.old)) result (at self.old) (at self.new) }
        ensures calls { IsErrOf result EngineFault.StoreFault → MayCallByItself (flow_of (engine_of self.old)) }
        ensures tells { is_some (records self.new) ≡ is_some (records self.old) }
        ensures flow { flow_of (engine_of self.new) ≡ flow_of (engine_of self.old) }
        ensures faults { fault_count self.new ≡ faults_after_step result (fault_count self.old) }
        ensures told_before { IsSome (records self.new) → IsSome (records self.old) }
        ensures texts { digests_of self.new ≡ digests_of self.old }
        ensures left { (story : Story) → at self.old story → IsSome (records self.new) → may_restart self.new };

    /// Keeps what was done, at the end of a line, before its answer is told, and these lines, of what its steps showed.
    ///
    /// # Errors
    ///
    /// `StoreFault` where the store fails. `NoMemory` where memory is refused, now or earlier.
    fn keep_line(&mut self, lines: &[u8]) -> Result<(), LifeFault>
        ensures kept { (story : Story) → at self.old story → OnOk result (at self.new story × keeps self.new story lines.now) }
        ensures flow { flow_of (engine_of self.new) ≡ flow_of (engine_of self.old) }
        ensures store { lasts ≡ false → IsErrOf result LifeFault.StoreFault → ⊥ }
        ensures faults { fault_count self.new ≡ life_faults_after result (fault_count self.old) }
        ensures not_fed { IsErrOf result LifeFault.NotFed → ⊥ }
        ensures told_before { IsSome (records self.new) → IsSome (records self.old) }
        ensures texts { digests_of self.new ≡ digests_of self.old }
        ensures left { (story : Story) → at self.old story → IsSome (records self.new) → may_restart self.new };
}
