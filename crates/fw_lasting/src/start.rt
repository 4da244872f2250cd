//! A session starts over its store.
ghost use Rattle.std.specs.Prelude.{◌≡◌, ◌⊎◌, ◌^◌, ◌≤◌, ℕ, List, Some, true, IfErr, IfOk, IsErrOf, IsSome};
ghost use Rattle.std.specs.Option.{ForSome};
ghost use Rattle.fw_engine.specs.Engine.{flow_of, keep_of};
ghost use Rattle.fw_flow.specs.Dataflow.{Dataflow};
ghost use Rattle.fw_hold.specs.Engine.{EntriesAreThere, KeepsOutside};
ghost use Rattle.fw_hold.specs.Found.{GaveForeign};
ghost use Rattle.fw_hold.specs.Starting.{IsForeignIn, IsToldForeign};
ghost use Rattle.fw_hold.specs.declared.fault.HoldFault.TheVariants.{ForeignRoot};
ghost use Rattle.fw_keep.specs.Stored.{Records};
ghost use Rattle.fw_outside.specs.Outside.{StayIfTold};
ghost use Rattle.fw_session.specs.Story.{Story};
ghost use Rattle.fw_lasting.specs.KeptStory.{HoldsStory};
ghost use Rattle.fw_lasting.specs.Starting.{HasStarted, IsForeignFault, IsOfOutside, MayStart, TellsAgain};
ghost use Rattle.fw_lasting.specs.UnderWay.{SaysLast};

use crate::{LastingSession, read_came};
use fw_flow::Flow;
use fw_held::RestartableEngine;
use fw_hold::{HeldEngine, HoldFault, are_same, counted_root, decoded_root};
use fw_outside::Store;
use fw_root::{Digests, Printed};
use fw_running::Stepped;
use fw_session::Arrivals;
use std::alloc::Global;

/// What a start found that goes on behind a root.
#[derive(Drop)]
pub struct Resumed {
    /// How many steps were done in all.
    pub steps: u64,
    /// The lines of the root.
    pub lines: Printed,
    /// How every node was restored.
    pub stepped: Stepped,
}

/// Why a session did not start, and its store, in which nothing was changed.
#[derive(Drop)]
pub struct NotStarted<K: Store + Drop> {
    /// Why.
    pub fault: HoldFault,
    /// The store.
    pub store: K,
}

// With what a session begins: its engine, what came, and how many roots were put and steps done.
#[derive(Drop)]
struct Begun {
    engine: RestartableEngine,
    arrivals: Arrivals,
    turn: u64,
    steps: u64,
    resumed: Option<Resumed>,
}

impl<K: Store + Drop> LastingSession<K> {
    /// Goes on from what the store holds: all batches that came are read; behind the root that counts every node is restored; where there is
    /// no root nothing was done. Nothing is written. The first `keep_line` puts a root, also where nothing was done: call it before a batch
    /// comes, with the lines of the root that was found, so that a start of other texts finds it.
    ///
    /// # Errors
    ///
    /// `ForeignRoot` where the root is one of other texts, `DamagedRoot` where what the store gave is none; `Damaged` where a batch, or a write
    /// that the root names, is no record of one; `StoreFault` where the store fails, `NoMemory`.
    pub fn start(
        alloc: Global,
        flow: Flow,
        digests: Digests,
        store: K,
    ) -> Result<(Self, Option<Resumed>), NotStarted<K>>
        requires may { MayStart flow digests (K.view store).records }
        // It goes on from the story that the store holds, and has the lines that were kept last.
        ensures begun { (story : Story) (turn next : ℕ) (held : Records) → (K.view store).records ≡ Some held
            → HoldsStory flow digests held story turn next
            → IfOk result (λ begun. IsSome (K.view begun.0.store).records → HasStarted flow begun.0.digests begun.0.engine.engine begun.0.arrivals
            (K.view begun.0.store).records begun.0.turn begun.1 story) }
        ensures tells { (story : Story) (turn next : ℕ) (held : Records) (done : ℕ) (lines : List ℕ) → (K.view store).records ≡ Some held
            → HoldsStory flow digests held story turn next → SaysLast flow digests story done lines (Some held)
            → IfOk result (λ begun. IsSome (K.view begun.0.store).records → TellsAgain done lines begun.1) }
        // Over a store that holds a root of other texts it does not start.
        ensures foreign { IsForeignIn digests (K.view store).records → IfOk result (λ begun. IsSome (K.view begun.0.store).records → ⊥) }
        ensures foreign_root { IsForeignIn digests (K.view store).records → IfErr result (λ failed. IsSome (K.view failed.store).records → IsForeignFault failed.fault) }
        // Over a store that holds a story it fails by nothing but the store, or want of memory.
        ensures whole { (story : Story) (turn next : ℕ) (held : Records) → (K.view store).records ≡ Some held
            → HoldsStory flow digests held story turn next
            → IfErr result (λ failed. IsSome (K.view failed.store).records → IsOfOutside failed.fault) }
        // Nothing is written.
        ensures stays { IfOk result (λ begun. KeepsOutside 0 0 (K.view store).records (K.view begun.0.store).records) }
        ensures stays_behind { IfErr result (λ failed. KeepsOutside 0 0 (K.view store).records (K.view failed.store).records) }
        ensures flow { IfOk result (λ begun. flow_of begun.0.engine.engine ≡ flow) }
        ensures digests { IfOk result (λ begun. begun.0.digests ≡ digests) }
        ensures told_before { IfOk result (λ begun. IsSome (K.view begun.0.store).records → IsSome (K.view store).records) }
    {
        let mut store = store;
        match begin(alloc, flow, &digests, &mut store) {
            Ok(begun) => {
                let session = LastingSession {
                    alloc,
                    engine: begun.engine,
                    arrivals: begun.arrivals,
                    store,
                    digests,
                    turn: begun.turn,
                    steps: begun.steps,
                };
                Ok((session, begun.resumed))
            }
            Err(fault) => Err(NotStarted { fault, store }),
        }
    }
}

// With what a session begins over a store.
fn begin<K: Store>(
    alloc: Global,
    flow: Flow,
    digests: &Digests,
    store: &mut K,
) -> Result<Begun, HoldFault>
    requires may { MayStart flow digests.now (K.view store.old).records }
    ensures begun { (story : Story) (turn next : ℕ) (held : Records) → (K.view store.old).records ≡ Some held
        → HoldsStory flow digests.now held story turn next
        → IfOk result (λ begun. IsSome (K.view store.new).records → HasStarted flow digests.now begun.engine.engine begun.arrivals
        (K.view store.new).records begun.turn begun.resumed story) }
    ensures tells { (story : Story) (turn next : ℕ) (held : Records) (done : ℕ) (lines : List ℕ) → (K.view store.old).records ≡ Some held
        → HoldsStory flow digests.now held story turn next → SaysLast flow digests.now story done lines (Some held)
        → IfOk result (λ begun. IsSome (K.view store.new).records → TellsAgain done lines begun.resumed) }
    ensures foreign { IsForeignIn digests.now (K.view store.old).records → IsSome (K.view store.new).records → IsToldForeign result }
    ensures whole { (story : Story) (turn next : ℕ) (held : Records) → (K.view store.old).records ≡ Some held
        → HoldsStory flow digests.now held story turn next → IsSome (K.view store.new).records → IfErr result IsOfOutside }
    // Nothing is written.
    ensures stays { KeepsOutside 0 0 (K.view store.old).records (K.view store.new).records }
    ensures stored { IfOk result (λ begun. EntriesAreThere (keep_of begun.engine.engine) (K.view store.new).records) }
    ensures few { IfOk result (λ begun. (keep_of begun.engine.engine).next ≤ 2 ^ 63) }
    ensures flow { IfOk result (λ begun. flow_of begun.engine.engine ≡ flow) }
    ensures told_before { IsSome (K.view store.new).records → IsSome (K.view store.old).records }
{
    refuse_foreign(alloc, digests, store)?;
    let (batches, arrivals) = read_came(alloc, &flow, store)?;
    let Some(found) = counted_root(alloc, store)? else {
        let engine = RestartableEngine::fresh(alloc, flow, &batches)?;
        return Ok(Begun {
            engine,
            arrivals,
            turn: 0,
            steps: 0,
            resumed: None,
        });
    };
    let root = decoded_root(alloc, digests, &flow, &batches, &found)?;
    let (engine, stepped) = RestartableEngine::resume(alloc, flow, &batches, &root, store)?;
    let resumed = Resumed {
        steps: root.mark.steps,
        lines: root.mark.lines,
        stepped,
    };
    Ok(Begun {
        engine,
        arrivals,
        turn: root.mark.turn,
        steps: root.mark.steps,
        resumed: Some(resumed),
    })
}

// Nothing, unless the root that counts is one of other texts.
fn refuse_foreign<K: Store>(
    alloc: Global,
    digests: &Digests,
    store: &mut K,
) -> Result<(), HoldFault>
    ensures foreign { IsForeignIn digests.now (K.view store.old).records → IsSome (K.view store.new).records → IsToldForeign result }
    ensures foreign_root { IsErrOf result ForeignRoot → GaveForeign digests.now (K.view store.new).given }
    ensures whole { (flow : Dataflow) (story : Story) (turn next : ℕ) (held : Records) → (K.view store.old).records ≡ Some held
        → HoldsStory flow digests.now held story turn next → IsSome (K.view store.new).records → IfErr result IsOfOutside }
    ensures stays { StayIfTold (K.view store.old).records (K.view store.new).records }
{
    let Some(found) = counted_root(alloc, store)? else {
        return Ok(());
    };
    if are_same(&found.head.digests, digests) {
        Ok(())
    } else {
        Err(HoldFault::ForeignRoot)
    }
}
