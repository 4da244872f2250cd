//! The engine over a store that may hold what others put.
ghost use Rattle.fw_keep.specs.Catalogue.{IsCatalogue};

use fw_engine::Engine;
use fw_flow::laws::flow_is_well_formed;
use fw_flow::{Flow, Step};
use fw_hold::HeldEngine;
use fw_lines::Batches;
use fw_outside::Store;
use fw_recover::recover;
use fw_resume::{resume, root_of};
use fw_root::{Mark, Root};
use fw_running::{EngineFault, Running, Stepped};
use std::alloc::{AllocError, Global};

/// The engine, from whose steps a run can start again.
#[derive(Drop)]
pub struct RestartableEngine {
    /// The engine.
    pub engine: Engine,
}

impl HeldEngine for RestartableEngine {
    ghost use Rattle.fw_engine.specs.Engine.{StandsFor};
    ghost use Rattle.fw_engine.specs.Engine as spec;

    ghost stand = { λ sys made records state. StandsFor sys made.engine records state };

    ghost keep_of = { λ made. spec.keep_of made.engine };

    ghost flow_of = { λ made. spec.flow_of made.engine };

    fn fresh(alloc: Global, flow: Flow, batches: &Batches) -> Result<Self, AllocError> {
        let mut engine = Engine::new(alloc, flow, batches)?;
        engine.share();
        Ok(RestartableEngine { engine })
    }

    fn resume<K: Store>(
        alloc: Global,
        flow: Flow,
        batches: &Batches,
        root: &Root,
        store: &mut K,
    ) -> Result<(Self, Stepped), EngineFault> {
        let mut running = resume(alloc, flow, batches, root, store)?;
        let stepped = recover(&mut running, store)?;
        let engine = Engine::of(running);
        Ok((RestartableEngine { engine }, stepped))
    }

    fn flow(&self) -> &Flow {
        self.engine.flow()
    }

    fn step_held<K: Store>(&mut self, step: &Step, store: &mut K) -> Result<Stepped, EngineFault> {
        flow_is_well_formed(self.engine.flow());
        self.engine.share();
        match step {
            Step::Collect => Ok(self.engine.raise_low()?),
            _ => self.engine.step(step, store),
        }
    }

    fn auto_step_held<K: Store>(&mut self, store: &mut K) -> Result<Stepped, EngineFault> {
        flow_is_well_formed(self.engine.flow());
        self.engine.share();
        self.engine.auto_step(store)
    }

    fn sweep<K: Store>(&mut self, store: &mut K) -> Result<(), EngineFault> {
        self.engine.share();
        self.engine.sweep(store)
    }

    fn stands_over_others(&self) {
        ids_are_drawn(self.engine.running());
    }

    fn root(&self, mark: Mark) -> Result<Root, AllocError> {
        if self.engine.is_refused() {
            return Err(AllocError);
        }
        let running = self.engine.running();
        ids_are_drawn(running);
        root_of(running, mark)
    }
}

// The ids of what is written were drawn.
fn ids_are_drawn(running: &Running)
    ensures { IsCatalogue running.now.parts.keep }
{
    let _entries = running.parts.keep.entries();
}
