//! The sums of the values of each key at each time.
ghost use Rattle.std.specs.Prelude.{◌≡◌, not, ℕ, List, Bool, [], ◌∷◌, IfOk, OnOk, OnErr, IsTrue, IsErr, true, false};
ghost use Rattle.fw_bag.specs.Arrivals.{Arrival, arrivals_inside, arrival, recs_arrived_at};
ghost use Rattle.fw_table.specs.Sums.{sums_by_key};
ghost use Rattle.fw_frontier.specs.declared.state.Entries.TheVariants.{Totals};
ghost use Rattle.fw_keyed.specs.Tables.{IsSum};

use fw_bag::Rec;
use fw_frontier::{Logical, State};
use fw_table::{Sent, SentRecs, Sums, empty_state, keep_outside, put_at};
use std::alloc::{AllocError, Global};
use std::collections::BTreeMap;

/// Once a time is complete, sends for each of its keys the sum of the values, modulo 2^64.
#[derive(Drop)]
pub struct Sum<T: Ord> {
    sums: BTreeMap<T, Sums>,
    alloc: Global,
    refused: bool,
}

impl<T: Logical> Sum<T> {
    /// The table to which nothing came.
    pub fn new(alloc: Global) -> Self
        ensures table { IsSum T.cmp T.coords result [] }
        ensures live { result.refused ≡ false }
    {
        Sum {
            sums: BTreeMap::new(alloc),
            alloc,
            refused: false,
        }
    }

    /// Takes in a rec that came on an in-edge, by its place. It sends nothing.
    ///
    /// It costs the logarithm of what the table holds. It fails where memory is refused, now or earlier.
    pub fn on_message(&mut self, side: usize, t: T, rec: Rec) -> Result<Sent<T>, AllocError>
        ensures ok { (came : List Arrival) → IsSum T.cmp T.coords self.old came
            → OnOk result (IsSum T.cmp T.coords self.new (arrival side (T.coords t) rec ∷ came)) }
        ensures sent { IfOk result (λ sent. sent ≡ record { at = t; recs = [] }) }
        ensures err { (came : List Arrival) → IsSum T.cmp T.coords self.old came
            → OnErr result (IsSum T.cmp T.coords self.new came) }
        ensures live { OnOk result (self.new.refused ≡ false) }
        ensures refused { OnErr result (self.new.refused ≡ true) }
        ensures stays { IsTrue self.old.refused → IsErr result }
    {
        if self.refused {
            return Err(AllocError);
        }
        if let Err(refusal) = put_at(&mut self.sums, self.alloc, side, t, rec) {
            self.refused = true;
            return Err(refusal);
        }
        Ok(Sent::of(t, None))
    }

    // What a notification sends.
    fn sums_at(&self, t: &T) -> Result<SentRecs, AllocError>
        ensures { (came : List Arrival) → IsSum T.cmp T.coords self.now came
            → IfOk result (λ recs. recs ≡ sums_by_key (recs_arrived_at (T.coords t.now) came)) }
    {
        match self.sums.get(t) {
            Some(sums) => sums.recs(self.alloc),
            None => Ok(SentRecs::of(None)),
        }
    }

    /// Sends for each key of the time the sum of its values, in ascending order. The table stays.
    ///
    /// It costs the time's keys. It fails where memory is refused, now or earlier.
    pub fn on_notify(&mut self, t: T) -> Result<Sent<T>, AllocError>
        ensures stands { (came : List Arrival) → IsSum T.cmp T.coords self.old came → IsSum T.cmp T.coords self.new came }
        ensures sent { (came : List Arrival) → IsSum T.cmp T.coords self.old came
            → IfOk result (λ sent. sent ≡ record { at = t; recs = sums_by_key (recs_arrived_at (T.coords t) came) }) }
        ensures live { OnOk result (self.new.refused ≡ false) }
        ensures refused { OnErr result (self.new.refused ≡ true) }
        ensures stays { IsTrue self.old.refused → IsErr result }
    {
        if self.refused {
            return Err(AllocError);
        }
        match self.sums_at(&t) {
            Ok(recs) => Ok(Sent { at: t, recs }),
            Err(refusal) => {
                self.refused = true;
                Err(refusal)
            }
        }
    }

    /// Forgets what came at times inside, to which nothing comes any more. It takes no memory.
    pub fn settle(&mut self, f: &T::Frontier)
        ensures table { (kept : List ℕ → Bool) (came : List Arrival)
            → ((t : T) → kept (T.coords t) ≡ not (T.Frontier.inside f.now t))
            → IsSum T.cmp T.coords self.old came
            → IsSum T.cmp T.coords self.new (arrivals_inside kept came) }
        ensures live { self.new.refused ≡ self.old.refused }
    {
        keep_outside(&mut self.sums, f);
    }

    /// The state at f as it changed since g: of what is settled the table keeps nothing. It takes no memory.
    pub fn state_since(&self, _g: &T::Frontier, _f: &T::Frontier) -> State
        ensures { result ≡ record { sent = 0; sends = []; entries = Totals [] } }
    {
        empty_state(self.alloc)
    }
}
