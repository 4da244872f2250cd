//! The running total of each key over the numbers.
ghost use Rattle.std.specs.Prelude.{◌≡◌, ◌&&◌, not, ℕ, Bool, List, [], ◌∷◌, true, false, IfOk, OnOk, OnErr, IsTrue, IsErr};
ghost use Rattle.fw_bag.specs.Arrivals.{Arrival, recs_of, arrival, recs_inside, AreInside, AreTimes};
ghost use Rattle.fw_bag.specs.Keyed.{plus, value_sum};
ghost use Rattle.fw_frontier.specs.Below.{is_below};
ghost use Rattle.fw_frontier.specs.Frontier.{Within};
ghost use Rattle.fw_frontier.specs.declared.state.Entries.TheVariants.{Totals};
ghost use Rattle.fw_table.specs.Sums.{sums_at_keys, sums_by_key};
ghost use Rattle.fw_totals.specs.Ledger.{IsLedger};
ghost use Rattle.fw_totals.specs.Totals.{WritesOver};

use crate::settling::Settling;
use crate::totals::{place_at, restored, write};
use fw_bag::{Rec, Recs};
use fw_frontier::{Below, State};
use fw_table::{Sent, state_of};
use fw_time::{SeqNo, Time};
use std::alloc::{AllocError, Global};
use std::collections::BTreeMap;

/// Sends for each rec the total of its key up to it, modulo 2^64.
///
/// Beside the running totals of all that came it keeps the sums at each number that is not settled, and the totals of what
/// is settled.
#[derive(Drop)]
pub struct Ledger {
    table: Settling<SeqNo>,
    running: BTreeMap<u64, Option<u64>>,
    alloc: Global,
    refused: bool,
}

impl Ledger {
    /// The table to which nothing came, whatever is settled.
    pub fn new(alloc: Global) -> Self
        ensures table { (inside : List ℕ → Bool) → IsLedger inside result [] }
        ensures live { result.refused ≡ false }
    {
        Ledger {
            table: Settling::new(alloc),
            running: BTreeMap::new(alloc),
            alloc,
            refused: false,
        }
    }

    /// The table whose totals are these, where all that came is settled.
    ///
    /// It fails where memory is refused.
    pub fn from_state(alloc: Global, totals: &[Rec]) -> Result<Self, AllocError>
        ensures table { (inside : List ℕ → Bool) (came : List Arrival)
            → AreInside inside came → AreTimes ⟦<SeqNo as Time>⟧.coords came
            → totals.now ≡ sums_by_key (recs_of came)
            → IfOk result (λ ledger. IsLedger inside ledger came) }
        ensures live { IfOk result (λ ledger. ledger.refused ≡ false) }
    {
        let table = Settling::from_state(alloc, totals)?;
        let running = restored(alloc, totals)?;
        Ok(Ledger {
            table,
            running,
            alloc,
            refused: false,
        })
    }

    /// Takes in a rec that came on an in-edge, by its place, and sends it with the total of its key for its value.
    ///
    /// It looks up the key twice among the running totals, a new key three times; the number among those that are not
    /// settled, a new number twice; and the key twice among those of the number. It fails where memory is refused, now or
    /// earlier.
    pub fn on_message(&mut self, side: usize, t: SeqNo, rec: Rec) -> Result<Sent<SeqNo>, AllocError>
        ensures ok { (inside : List ℕ → Bool) (came : List Arrival)
            → inside (t.0 ∷ []) ≡ false → IsLedger inside self.old came
            → OnOk result (IsLedger inside self.new (arrival side (t.0 ∷ []) rec ∷ came)) }
        ensures sent { (inside : List ℕ → Bool) (came : List Arrival) → IsLedger inside self.old came
            → IfOk result (λ sent. sent ≡ record {
              at = t;
              recs = record { key = rec.key; value = plus rec.value (value_sum rec.key (recs_of came)) } ∷ [];
            }) }
        ensures err { (inside : List ℕ → Bool) (came : List Arrival) → IsLedger inside self.old came
            → OnErr result (IsLedger inside self.new came) }
        ensures live { OnOk result (self.new.refused ≡ false) }
        ensures refused { OnErr result (self.new.refused ≡ true) }
        ensures stays { IsTrue self.old.refused → IsErr result }
    {
        if self.refused {
            return Err(AllocError);
        }
        self.refused = true;
        let total = place_at(&mut self.running, rec.key)?;
        let value = rec.value.wrapping_add(total);
        self.table.put(side, t, rec)?;
        self.running.insert(rec.key, Some(value))?;
        self.refused = false;
        Ok(Sent::of(
            t,
            Some(Rec {
                key: rec.key,
                value,
            }),
        ))
    }

    /// Settles what came inside, which holds what was settled.
    ///
    /// It goes over all numbers that are not settled, several times, and looks up each key of those that come to be settled.
    /// It fails where memory is refused, now or earlier.
    pub fn settle(&mut self, f: &Below) -> Result<(), AllocError>
        ensures ok { (inside after : List ℕ → Bool) (came : List Arrival)
            → ((n : ℕ) → after (n ∷ []) ≡ is_below f.now.until n) → Within inside after
            → IsLedger inside self.old came → OnOk result (IsLedger after self.new came) }
        ensures err { (inside : List ℕ → Bool) (came : List Arrival) → IsLedger inside self.old came
            → OnErr result (IsLedger inside self.new came) }
        ensures live { OnOk result (self.new.refused ≡ false) }
        ensures refused { OnErr result (self.new.refused ≡ true) }
        ensures stays { IsTrue self.old.refused → IsErr result }
    {
        if self.refused {
            return Err(AllocError);
        }
        self.refused = true;
        self.table.settle(f)?;
        self.refused = false;
        Ok(())
    }

    /// The totals of what came inside, which holds what is settled, in ascending order of the keys.
    ///
    /// It costs the keys, and the numbers that are not settled. It fails where memory is refused, now or earlier.
    pub fn totals_at(&self, f: &Below) -> Result<Recs, AllocError>
        ensures totals { (inside after : List ℕ → Bool) (came : List Arrival)
            → ((n : ℕ) → after (n ∷ []) ≡ is_below f.now.until n) → Within inside after
            → IsLedger inside self.now came
            → IfOk result (λ totals. totals ≡ sums_by_key (recs_inside after came)) }
        ensures stays { IsTrue self.now.refused → IsErr result }
    {
        if self.refused {
            return Err(AllocError);
        }
        self.table.totals_at(f)
    }

    /// The totals of what came inside, which holds what is settled, of the keys alone to which something came outside what is
    /// settled; in ascending order of the keys.
    ///
    /// It costs these keys, and the times that are not settled. It fails where memory is refused, now or earlier.
    pub fn totals_since(&self, f: &Below) -> Result<Recs, AllocError>
        ensures totals { (inside after : List ℕ → Bool) (came : List Arrival)
            → ((n : ℕ) → after (n ∷ []) ≡ is_below f.now.until n) → Within inside after
            → IsLedger inside self.now came
            → IfOk result (λ totals. totals ≡ sums_at_keys (recs_inside (λ s. after s && not (inside s)) came) (recs_inside after came)) }
        ensures stays { IsTrue self.now.refused → IsErr result }
    {
        if self.refused {
            return Err(AllocError);
        }
        self.table.totals_since(f)
    }

    /// The state at f of the keys alone to which something came outside g: their totals of what came inside f, in ascending order
    /// of the keys. What is settled lies inside g, and g inside f. How much was sent it does not tell.
    ///
    /// It costs the keys, and the times that are not settled. It fails where memory is refused, now or earlier.
    pub fn state_since(&self, g: &Below, f: &Below) -> Result<State, AllocError>
        ensures state { (inside before after : List ℕ → Bool) (came : List Arrival)
            → ((n : ℕ) → before (n ∷ []) ≡ is_below g.now.until n) → Within inside before
            → ((n : ℕ) → after (n ∷ []) ≡ is_below f.now.until n) → Within before after
            → IsLedger inside self.now came
            → IfOk result (λ state. state ≡ record {
              sent = 0;
              sends = [];
              entries = Totals (sums_at_keys (recs_inside (λ s. after s && not (before s)) came) (recs_inside after came));
            }) }
        ensures no_counts { IfOk result (λ state. state.sends ≡ []) }
        ensures stays { IsTrue self.now.refused → IsErr result }
    {
        if self.refused {
            return Err(AllocError);
        }
        let totals = self.table.totals_between(g, f)?;
        Ok(state_of(self.alloc, 0, totals))
    }

    /// Writes totals over those of what is settled, where nothing came outside. It is for restoring.
    ///
    /// It fails where memory is refused, now or earlier.
    pub fn take_changes(&mut self, totals: &[Rec]) -> Result<(), AllocError>
        ensures ok { (inside after : List ℕ → Bool) (came all : List Arrival)
            → AreInside inside came → AreInside after all → AreTimes ⟦<SeqNo as Time>⟧.coords all
            → WritesOver totals.now (recs_of came) (recs_of all) → IsLedger inside self.old came
            → OnOk result (IsLedger after self.new all) }
        ensures refused { OnErr result (self.new.refused ≡ true) }
        ensures stays { IsTrue self.old.refused → IsErr result }
    {
        if self.refused {
            return Err(AllocError);
        }
        self.refused = true;
        self.table.take_changes(totals)?;
        write(&mut self.running, totals)?;
        self.refused = false;
        Ok(())
    }
}
