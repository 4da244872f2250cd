//! A session that lasts, as one over which lines are answered.

use crate::LastingSession;
use fw_bag::Rec;
use fw_engine::Engine;
use fw_flow::{NodeId, Step};
use fw_living::{LifeFault, Living};
use fw_outside::Store;
use fw_running::{EngineFault, Stepped};

/// It keeps what was done: a start over its store goes on from there.
impl<K: Store + Drop> Living for LastingSession<K> {
    ghost use Rattle.std.specs.Prelude.{true, Some};
    ghost use Rattle.std.specs.Option.{ForSome};
    ghost use Rattle.fw_engine.specs.Engine.{flow_of};
    ghost use Rattle.fw_session.specs.Story.{Story};
    ghost use Rattle.fw_lasting.specs.UnderWay.{IsUnderWay, SaysLast};
    ghost use Rattle.fw_lasting.specs.Starting.{HoldsSome};

    ghost lasts = { true };

    ghost engine_of = { λ session. session.engine.engine };

    ghost records = { λ session. (K.view session.store).records };

    ghost fault_count = { λ session. (K.view session.store).faults };

    ghost digests_of = { λ session. Some session.digests };

    // It holds a story.
    ghost may_restart = { λ session. ForSome (K.view session.store).records (HoldsSome (flow_of session.engine.engine) session.digests) };

    ghost at = { λ session story. (kept : Story) × IsUnderWay session.digests session.engine.engine session.arrivals
        (K.view session.store).records session.turn kept story };

    // Its store holds the story, and the root there has the lines.
    ghost keeps = { λ session story lines. IsUnderWay session.digests session.engine.engine session.arrivals (K.view session.store).records
        session.turn story story
        × SaysLast (flow_of session.engine.engine) session.digests story session.steps lines (K.view session.store).records };

    fn engine(&self) -> &Engine {
        self.engine()
    }

    fn is_open(&self, source: NodeId) -> bool {
        self.is_open(source)
    }

    fn came(&self, source: NodeId) -> u64 {
        self.came(source)
    }

    fn feed(&mut self, source: NodeId, recs: &[Rec]) -> Result<u64, LifeFault> {
        self.feed(source, recs)
    }

    fn close(&mut self, source: NodeId) -> Result<u64, LifeFault> {
        self.close(source)
    }

    fn step(&mut self, step: &Step) -> Result<Stepped, EngineFault> {
        self.step(step)
    }

    fn auto_step(&mut self) -> Result<Stepped, EngineFault> {
        self.auto_step()
    }

    fn keep_line(&mut self, lines: &[u8]) -> Result<(), LifeFault> {
        self.keep_line(lines)
    }
}
