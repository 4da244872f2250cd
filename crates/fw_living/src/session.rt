//! A session over a store that ends with it.
ghost use Rattle.std.specs.Prelude.{◌≡◌};
ghost use Rattle.fw_living.specs.Life.{life_of};

use crate::{LifeFault, Living};
use fw_bag::Rec;
use fw_engine::Engine;
use fw_flow::{NodeId, Step};
use fw_outside::Store;
use fw_running::{EngineFault, Stepped};
use fw_session::{FeedFault, Session};

/// It keeps nothing beside its store.
impl<K: Store + Drop> Living for Session<K> {
    ghost use Rattle.std.specs.Prelude.{false, None};
    ghost use Rattle.fw_session.specs.Session.{IsAt};

    ghost lasts = { false };

    ghost engine_of = { λ session. session.engine };

    ghost records = { λ session. (K.view session.store).records };

    ghost fault_count = { λ session. (K.view session.store).faults };

    ghost digests_of = { λ session. None };

    // It ends with its store.
    ghost may_restart = { λ session. Unit {0} };

    ghost at = { λ session story. IsAt session.engine (K.view session.store).records session.arrivals story };

    ghost keeps = { λ session story lines. IsAt session.engine (K.view session.store).records session.arrivals story };

    fn engine(&self) -> &Engine {
        self.engine()
    }

    fn is_open(&self, source: NodeId) -> bool {
        self.is_open(source)
    }

    fn came(&self, source: NodeId) -> u64 {
        self.came(source)
    }

    fn feed(&mut self, source: NodeId, recs: &[Rec]) -> Result<u64, LifeFault> {
        life(self.feed(source, recs))
    }

    fn close(&mut self, source: NodeId) -> Result<u64, LifeFault> {
        life(self.close(source))
    }

    fn step(&mut self, step: &Step) -> Result<Stepped, EngineFault> {
        self.step(step)
    }

    fn auto_step(&mut self) -> Result<Stepped, EngineFault> {
        self.auto_step()
    }

    fn keep_line(&mut self, _lines: &[u8]) -> Result<(), LifeFault> {
        Ok(())
    }
}

// The same, by the faults of a session over which lines are answered.
fn life(fed: Result<u64, FeedFault>) -> Result<u64, LifeFault>
    ensures { result ≡ life_of fed }
{
    match fed {
        Ok(epoch) => Ok(epoch),
        Err(FeedFault::Closed(_) | FeedFault::Full(_)) => Err(LifeFault::NotFed),
        Err(FeedFault::NoMemory) => Err(LifeFault::NoMemory),
    }
}
