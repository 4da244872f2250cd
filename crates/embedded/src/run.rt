//! A session over a store in memory, what came to its source, and what it told.
ghost use Rattle.std.specs.Prelude.{◌≡◌, ◌++◌, ◌∷◌, [], false, IfOk, IsTrue, OnOk};
ghost use Rattle.cimboery.specs.Engine.{flow_of, was_refused};
ghost use Rattle.cimboery.specs.Session.{IsAt};
ghost use Rattle.cimboery.specs.Story.{Story};
ghost use Rattle.embedded.specs.Told.{HasToldOneMore, IsStoryOf, IsMeant};

use cimboery::laws::{stories_have_what_came, stories_show_what_is_denoted};
use cimboery::{
    Engine, EngineFault, FeedFault, Flow, MemStore, NodeId, Rec, Session, Step, Stepped, Store,
};
use std::alloc::{AllocError, Global};

/// A run of a flow whose batches come while it goes on.
#[derive(Drop)]
pub(crate) struct Run {
    session: Session<MemStore>,
    // The source that is fed, and the batches that came to it, the last one empty where it was closed.
    source: NodeId,
    came: Vec<Vec<Rec>>,
    // What its steps told, through failures and recoveries.
    told: Vec<Stepped>,
    // Unless memory was refused, the session is at a story in which this came to the source, and this was told.
    ghost kept: { ∥ (was_refused session.engine ≡ false → (story : Story)
        × IsAt session.engine (⟦<MemStore as Store>⟧.view session.store).records session.arrivals story
        × IsStoryOf source came.items told.items story) ∥₁ },
}

impl Run {
    /// Nothing came yet, and nothing was told.
    pub(crate) fn open(alloc: Global, flow: Flow, source: NodeId) -> Result<Self, AllocError>
        ensures flow { IfOk result (λ run. flow_of run.session.engine ≡ flow) }
        ensures source { IfOk result (λ run. run.source ≡ source) }
    {
        let session = Session::open(alloc, flow, MemStore::new(alloc))?;
        Ok(Run {
            session,
            source,
            came: Vec::new(alloc),
            told: Vec::new(alloc),
        })
    }

    /// A batch comes to the source.
    pub(crate) fn feed(&mut self, batch: Vec<Rec>) -> Result<(), FeedFault>
        ensures fed { OnOk result (self.new.came.items ≡ self.old.came.items ++ batch ∷ []) }
        ensures source { self.new.source ≡ self.old.source }
        ensures told { self.new.told ≡ self.old.told }
        ensures flow { flow_of self.new.session.engine ≡ flow_of self.old.session.engine }
    {
        self.came.reserve(1)?;
        self.session.feed(self.source, &batch)?;
        self.came.push_reserved(batch);
        Ok(())
    }

    /// Nothing more comes to the source.
    pub(crate) fn close(&mut self, alloc: Global) -> Result<(), FeedFault>
        ensures source { self.new.source ≡ self.old.source }
        ensures told { self.new.told ≡ self.old.told }
    {
        self.came.reserve(1)?;
        self.session.close(self.source)?;
        self.came.push_reserved(Vec::new(alloc));
        Ok(())
    }

    /// Takes a step, and keeps what it told.
    pub(crate) fn step(&mut self, step: &Step) -> Result<(), EngineFault>
        ensures told { OnOk result (HasToldOneMore self.old.told.items self.new.told.items) }
        ensures source { self.new.source ≡ self.old.source }
        ensures came { self.new.came ≡ self.old.came }
        ensures flow { flow_of self.new.session.engine ≡ flow_of self.old.session.engine }
    {
        self.told.reserve(1)?;
        let stepped = self.session.step(step)?;
        self.told.push_reserved(stepped);
        Ok(())
    }

    /// Takes the first step that is enabled, and keeps what it told. The answer is whether there was one.
    pub(crate) fn auto_step(&mut self) -> Result<bool, EngineFault>
        ensures told { IfOk result (λ took. IsTrue took → HasToldOneMore self.old.told.items self.new.told.items) }
        ensures source { self.new.source ≡ self.old.source }
        ensures came { self.new.came ≡ self.old.came }
        ensures flow { flow_of self.new.session.engine ≡ flow_of self.old.session.engine }
    {
        self.told.reserve(1)?;
        let stepped = self.session.auto_step()?;
        if let Stepped::Idle = &stepped {
            return Ok(false);
        }
        self.told.push_reserved(stepped);
        Ok(true)
    }

    /// The engine, to be looked at.
    pub(crate) fn engine(&self) -> &Engine {
        self.session.engine()
    }

    /// What was told. Whatever comes to the source behind what came, it is what the flow means of it, unless memory was refused.
    pub(crate) fn told(&self) -> &[Stepped]
        ensures all { result.now ≡ self.now.told.items }
        ensures right { was_refused self.now.session.engine ≡ false
            → ∥ IsMeant (flow_of self.now.session.engine) self.now.source self.now.came.items result.now ∥₁ }
    {
        stories_have_what_came();
        stories_show_what_is_denoted();
        self.told.as_slice()
    }
}
