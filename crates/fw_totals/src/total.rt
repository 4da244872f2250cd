//! The running totals of each key over the epochs.
ghost use Rattle.std.specs.Prelude.{◌≡◌, ◌||◌, ◌&&◌, not, ℕ, Bool, List, [], ◌∷◌, true, false, IfOk, OnOk, OnErr, IsTrue, IsErr};
ghost use Rattle.std.specs.Ordering.{nat_cmp};
ghost use Rattle.std.specs.List.Sorted.{IsStrictlySortedBy};
ghost use Rattle.std.specs.Map.{keys_of};
ghost use Rattle.fw_time.specs.Stamp.{same};
ghost use Rattle.fw_bag.specs.Arrivals.{Arrival, recs_of, arrival, recs_arrived_at, recs_inside, AreInside, AreTimes};
ghost use Rattle.fw_frontier.specs.Below.{is_below};
ghost use Rattle.fw_frontier.specs.Frontier.{Within};
ghost use Rattle.fw_frontier.specs.declared.state.Entries.TheVariants.{Totals};
ghost use Rattle.fw_table.specs.Sums.{sums_at_keys, sums_by_key};
ghost use Rattle.fw_totals.specs.Totals.{found, raised_recs, WritesOver};
ghost use Rattle.fw_totals.specs.Total.{IsTotal};
ghost use Rattle.fw_totals.specs.Gathered.{HasPlaceForEach};

use crate::settling::Settling;
use crate::totals::{place_at, restored, write};
use fw_bag::{Rec, Recs};
use fw_frontier::{Below, State};
use fw_table::{Sent, SentRecs, state_of};
use fw_time::{Epoch, Time};
use std::alloc::{AllocError, Global};
use std::collections::BTreeMap;

// The sums with the totals before them added, as recs, after a place was made for each key. No total changes, whether
// memory is refused or not.
fn raised(
    alloc: Global,
    totals: &mut BTreeMap<u64, Option<u64>>,
    sums: &BTreeMap<u64, u64>,
) -> Result<SentRecs, AllocError>
    ensures recs { IfOk result (λ recs. recs ≡ raised_recs totals.old sums.now.entries) }
    ensures same { (q : ℕ) → found totals.new q ≡ found totals.old q }
    ensures room { OnOk result (HasPlaceForEach sums.now totals.new) }
    ensures ordered { IsStrictlySortedBy nat_cmp (keys_of sums.now.entries) }
{
    let mut recs = SentRecs::of(None);
    for (key, sum) in sums {
        let total = place_at(totals, *key)?;
        let value = sum.wrapping_add(total);
        recs.push(alloc, Rec { key: *key, value })?;
    }
    Ok(recs)
}

/// Once an epoch is complete, sends for each of its keys the sum of the values up to it, modulo 2^64.
///
/// Beside the sums at each epoch that is not settled, and the totals of the settled ones, it keeps the running totals of the
/// epochs that were taken in: those that are settled, and those of which it was notified.
#[derive(Drop)]
pub struct Total {
    table: Settling<Epoch>,
    running: BTreeMap<u64, Option<u64>>,
    alloc: Global,
    refused: bool,
}

impl Total {
    /// The table to which nothing came, whatever is settled and was taken in.
    pub fn new(alloc: Global) -> Self
        ensures table { (inside taken : List ℕ → Bool) → IsTotal inside taken result [] }
        ensures live { result.refused ≡ false }
    {
        Total {
            table: Settling::new(alloc),
            running: BTreeMap::new(alloc),
            alloc,
            refused: false,
        }
    }

    /// The table whose totals are these, where all that came is settled.
    ///
    /// It fails where memory is refused.
    pub fn from_state(alloc: Global, totals: &[Rec]) -> Result<Self, AllocError>
        ensures table { (inside : List ℕ → Bool) (came : List Arrival)
            → AreInside inside came → AreTimes ⟦<Epoch as Time>⟧.coords came
            → totals.now ≡ sums_by_key (recs_of came)
            → IfOk result (λ total. IsTotal inside inside total came) }
        ensures live { IfOk result (λ total. total.refused ≡ false) }
    {
        let table = Settling::from_state(alloc, totals)?;
        let running = restored(alloc, totals)?;
        Ok(Total {
            table,
            running,
            alloc,
            refused: false,
        })
    }

    /// Takes in a rec that came on an in-edge, by its place, at an epoch of which it was not notified. It sends nothing.
    ///
    /// It costs the logarithm of what the table holds. It fails where memory is refused, now or earlier.
    pub fn on_message(&mut self, side: usize, t: Epoch, rec: Rec) -> Result<Sent<Epoch>, AllocError>
        ensures ok { (inside taken : List ℕ → Bool) (came : List Arrival)
            → inside (t.0 ∷ []) ≡ false → taken (t.0 ∷ []) ≡ false → IsTotal inside taken self.old came
            → OnOk result (IsTotal inside taken self.new (arrival side (t.0 ∷ []) rec ∷ came)) }
        ensures sent { IfOk result (λ sent. sent ≡ record { at = t; recs = [] }) }
        ensures err { (inside taken : List ℕ → Bool) (came : List Arrival) → IsTotal inside taken self.old came
            → OnErr result (IsTotal inside taken self.new came) }
        ensures live { OnOk result (self.new.refused ≡ false) }
        ensures refused { OnErr result (self.new.refused ≡ true) }
        ensures stays { IsTrue self.old.refused → IsErr result }
    {
        if self.refused {
            return Err(AllocError);
        }
        self.refused = true;
        self.table.put(side, t, rec)?;
        self.refused = false;
        Ok(Sent::of(t, None))
    }

    /// Sends for each key of the epoch the total of what was taken in before and of what came at it, in ascending order,
    /// and takes the epoch in.
    ///
    /// It costs two look-ups for each key of the epoch, and never goes over earlier ones. It fails where memory is
    /// refused, now or earlier.
    pub fn on_notify(&mut self, t: Epoch) -> Result<Sent<Epoch>, AllocError>
        ensures ok { (inside taken : List ℕ → Bool) (came : List Arrival)
            → inside (t.0 ∷ []) ≡ false → taken (t.0 ∷ []) ≡ false → IsTotal inside taken self.old came
            → OnOk result (IsTotal inside (λ s. same s (t.0 ∷ []) || taken s) self.new came) }
        ensures sent { (inside taken : List ℕ → Bool) (came : List Arrival)
            → inside (t.0 ∷ []) ≡ false → taken (t.0 ∷ []) ≡ false → IsTotal inside taken self.old came
            → IfOk result (λ sent. sent ≡ record {
              at = t;
              recs = sums_at_keys (recs_arrived_at (t.0 ∷ []) came) (recs_inside (λ s. same s (t.0 ∷ []) || taken s) came);
            }) }
        ensures err { (inside taken : List ℕ → Bool) (came : List Arrival) → IsTotal inside taken self.old came
            → OnErr result (IsTotal inside taken self.new came) }
        ensures live { OnOk result (self.new.refused ≡ false) }
        ensures refused { OnErr result (self.new.refused ≡ true) }
        ensures stays { IsTrue self.old.refused → IsErr result }
    {
        if self.refused {
            return Err(AllocError);
        }
        let Some(sums) = self.table.by_time.get(&t) else {
            return Ok(Sent::of(t, None));
        };
        self.refused = true;
        let recs = raised(self.alloc, &mut self.running, &sums.by_key)?;
        write(&mut self.running, recs.as_slice())?;
        self.refused = false;
        Ok(Sent { at: t, recs })
    }

    /// Settles what came inside, which holds what was settled.
    ///
    /// It goes over all epochs that are not settled, several times, and looks up each key of those that come to be settled. It
    /// fails where memory is refused, now or earlier.
    pub fn settle(&mut self, f: &Below) -> Result<(), AllocError>
        ensures ok { (inside after taken : List ℕ → Bool) (came : List Arrival)
            → ((n : ℕ) → after (n ∷ []) ≡ is_below f.now.until n) → Within inside after
            → IsTotal inside taken self.old came → OnOk result (IsTotal after taken self.new came) }
        ensures err { (inside taken : List ℕ → Bool) (came : List Arrival) → IsTotal inside taken self.old came
            → OnErr result (IsTotal inside taken self.new came) }
        ensures live { OnOk result (self.new.refused ≡ false) }
        ensures refused { OnErr result (self.new.refused ≡ true) }
        ensures stays { IsTrue self.old.refused → IsErr result }
    {
        if self.refused {
            return Err(AllocError);
        }
        self.refused = true;
        self.table.settle(f)?;
        self.refused = false;
        Ok(())
    }

    /// The totals of what came inside, which holds what is settled, in ascending order of the keys.
    ///
    /// It costs the keys, and the epochs that are not settled. It fails where memory is refused, now or earlier.
    pub fn totals_at(&self, f: &Below) -> Result<Recs, AllocError>
        ensures totals { (inside after taken : List ℕ → Bool) (came : List Arrival)
            → ((n : ℕ) → after (n ∷ []) ≡ is_below f.now.until n) → Within inside after
            → IsTotal inside taken self.now came
            → IfOk result (λ totals. totals ≡ sums_by_key (recs_inside after came)) }
        ensures stays { IsTrue self.now.refused → IsErr result }
    {
        if self.refused {
            return Err(AllocError);
        }
        self.table.totals_at(f)
    }

    /// The totals of what came inside, which holds what is settled, of the keys alone to which something came outside what is
    /// settled; in ascending order of the keys.
    ///
    /// It costs these keys, and the times that are not settled. It fails where memory is refused, now or earlier.
    pub fn totals_since(&self, f: &Below) -> Result<Recs, AllocError>
        ensures totals { (inside after taken : List ℕ → Bool) (came : List Arrival)
            → ((n : ℕ) → after (n ∷ []) ≡ is_below f.now.until n) → Within inside after
            → IsTotal inside taken self.now came
            → IfOk result (λ totals. totals ≡ sums_at_keys (recs_inside (λ s. after s && not (inside s)) came) (recs_inside after came)) }
        ensures stays { IsTrue self.now.refused → IsErr result }
    {
        if self.refused {
            return Err(AllocError);
        }
        self.table.totals_since(f)
    }

    /// The state at f of the keys alone to which something came outside g: their totals of what came inside f, in ascending order
    /// of the keys. What is settled lies inside g, and g inside f. How much was sent it does not tell.
    ///
    /// It costs the keys, and the times that are not settled. It fails where memory is refused, now or earlier.
    pub fn state_since(&self, g: &Below, f: &Below) -> Result<State, AllocError>
        ensures state { (inside before after taken : List ℕ → Bool) (came : List Arrival)
            → ((n : ℕ) → before (n ∷ []) ≡ is_below g.now.until n) → Within inside before
            → ((n : ℕ) → after (n ∷ []) ≡ is_below f.now.until n) → Within before after
            → IsTotal inside taken self.now came
            → IfOk result (λ state. state ≡ record {
              sent = 0;
              sends = [];
              entries = Totals (sums_at_keys (recs_inside (λ s. after s && not (before s)) came) (recs_inside after came));
            }) }
        ensures no_counts { IfOk result (λ state. state.sends ≡ []) }
        ensures stays { IsTrue self.now.refused → IsErr result }
    {
        if self.refused {
            return Err(AllocError);
        }
        let totals = self.table.totals_between(g, f)?;
        Ok(state_of(self.alloc, 0, totals))
    }

    /// Writes totals over those of what is settled, where nothing came outside. It is for restoring.
    ///
    /// It fails where memory is refused, now or earlier.
    pub fn take_changes(&mut self, totals: &[Rec]) -> Result<(), AllocError>
        ensures ok { (inside after : List ℕ → Bool) (came all : List Arrival)
            → AreInside inside came → AreInside after all → AreTimes ⟦<Epoch as Time>⟧.coords all
            → WritesOver totals.now (recs_of came) (recs_of all) → IsTotal inside inside self.old came
            → OnOk result (IsTotal after after self.new all) }
        ensures refused { OnErr result (self.new.refused ≡ true) }
        ensures stays { IsTrue self.old.refused → IsErr result }
    {
        if self.refused {
            return Err(AllocError);
        }
        self.refused = true;
        self.table.take_changes(totals)?;
        write(&mut self.running, totals)?;
        self.refused = false;
        Ok(())
    }
}
