//! How many messages a node sent, by the stamps of its events.
ghost use Rattle.std.specs.Prelude.{◌≡◌, ◌+◌, [], IfOk, OnErr};
ghost use Rattle.fw_frontier.specs.Front.{inside};
ghost use Rattle.fw_progress.specs.Tally.{count_inside};
ghost use Rattle.fw_progress.specs.SentTally.{CountsMore, IsTallySettledTo, IsCountedInAll, IsTallyCutTo};

use crate::tally::Tally;
use fw_frontier::Front;
use fw_time::Stamp;
use std::alloc::{AllocError, Global};

/// How many messages a node sent: those of its events outside a base by their stamps, those of the others in all. The base
/// is the caller's.
#[derive(Debug, Drop)]
pub struct SentTally {
    /// How many in all inside the base.
    pub inside: u64,
    /// How many by each stamp outside.
    pub outside: Tally,
}

impl SentTally {
    /// None, in memory from `alloc`.
    pub fn new(alloc: Global) -> Self
        ensures { result ≡ record { inside = 0; outside = [] } }
    {
        SentTally {
            inside: 0,
            outside: Tally::new(alloc),
        }
    }

    /// So many messages more, which an event at the stamp sent. The error is want of memory, or that their number would not
    /// fit 64 bits; after it all is as it was.
    pub fn add(&mut self, at: &Stamp, count: u64) -> Result<(), AllocError>
        ensures ok { IfOk result (λ u. CountsMore at.now count self.old self.new) }
        ensures err { OnErr result (self.new ≡ self.old) }
    {
        let outside = &mut self.outside;
        outside.add_many(at, count)?;
        Ok(())
    }

    /// Counts the messages inside a larger base in all. The error is that their number would not fit 64 bits; after it all is
    /// as it was.
    pub fn settle(&mut self, base: &Front) -> Result<(), AllocError>
        ensures ok { IfOk result (λ u. IsTallySettledTo base.now self.old self.new) }
        ensures value { IfOk result (λ u. IsCountedInAll base.now self.old self.new) }
        ensures err { OnErr result (self.new ≡ self.old) }
    {
        let inside = self.count(base)?;
        self.inside = inside;
        let outside = &mut self.outside;
        outside.keep_outside(base);
        Ok(())
    }

    /// Leaves the messages from inside a frontier, which holds the base, as a cut to it does. It takes no memory.
    pub fn keep_inside(&mut self, f: &Front)
        ensures { IsTallyCutTo f.now self.old self.new }
    {
        let outside = &mut self.outside;
        outside.keep_inside(f);
    }

    /// How many messages are counted inside the base and at stamps inside a frontier: if that holds the base, as many come from
    /// inside it (`IsSentTally`). The error is that their number would not fit 64 bits.
    pub fn count(&self, f: &Front) -> Result<u64, AllocError>
        ensures { IfOk result (λ n. n ≡ self.now.inside + count_inside (inside f.now) self.now.outside) }
    {
        let outside = self.outside.count_inside(f)?;
        self.inside.checked_add(outside).ok_or(AllocError)
    }
}
