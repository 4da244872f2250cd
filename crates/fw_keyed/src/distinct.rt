//! The first of equal recs at each time.
ghost use Rattle.std.specs.Prelude.{◌≡◌, not, ℕ, List, Bool, [], ◌∷◌, IfOk, OnOk, OnErr, IsTrue, IsErr, true, false, if◌then◌else◌};
ghost use Rattle.fw_bag.specs.declared.rec.Rec.{Rec};
ghost use Rattle.fw_bag.specs.Arrivals.{Arrival, arrivals_inside, arrival, recs_arrived_at};
ghost use Rattle.fw_bag.specs.Keyed.{is_among};
ghost use Rattle.fw_frontier.specs.declared.state.Entries.TheVariants.{Totals};
ghost use Rattle.fw_keyed.specs.Seen.{HasSeen};
ghost use Rattle.fw_keyed.specs.Tables.{IsDistinct};

use fw_bag::Rec;
use fw_frontier::{Logical, State};
use fw_table::{Content, Sent, empty_state, keep_outside, put_at};
use std::alloc::{AllocError, Global};
use std::collections::{BTreeMap, BTreeSet};

/// The different recs that came at one time.
#[derive(Drop)]
pub(crate) struct Seen {
    recs: BTreeSet<Rec>,
}

impl Content for Seen {
    ghost use Rattle.fw_bag.specs.Arrivals.{recs_of};
    ghost use Rattle.fw_keyed.specs.Seen.{HasSeen};

    ghost holds = { λ s came. HasSeen s.recs (recs_of came) };

    fn empty(alloc: Global) -> Self {
        Seen {
            recs: BTreeSet::new(alloc),
        }
    }

    fn put(&mut self, _side: usize, rec: Rec) -> Result<(), AllocError> {
        see(&mut self.recs, rec)
    }
}

// Puts a rec in, unless it is there.
#[tactic(auto, using(crate::proofs::SeenLaws::seen_more))]
fn see(seen: &mut BTreeSet<Rec>, rec: Rec) -> Result<(), AllocError>
    ensures ok { (rs : List Rec) → HasSeen seen.old rs → OnOk result (HasSeen seen.new (rec ∷ rs)) }
    ensures err { (rs : List Rec) → HasSeen seen.old rs → OnErr result (HasSeen seen.new rs) }
{
    seen.insert(rec)?;
    Ok(())
}

/// Sends a rec on where it is the first of equal ones at its time.
#[derive(Drop)]
pub struct Distinct<T: Ord> {
    seen: BTreeMap<T, Seen>,
    alloc: Global,
    refused: bool,
}

impl<T: Logical> Distinct<T> {
    /// The table to which nothing came.
    pub fn new(alloc: Global) -> Self
        ensures table { IsDistinct T.cmp T.coords result [] }
        ensures live { result.refused ≡ false }
    {
        Distinct {
            seen: BTreeMap::new(alloc),
            alloc,
            refused: false,
        }
    }

    // Whether the rec came at the time.
    fn has(&self, t: &T, rec: Rec) -> bool
        ensures { (came : List Arrival) → IsDistinct T.cmp T.coords self.now came
            → result ≡ is_among rec (recs_arrived_at (T.coords t.now) came) }
    {
        match self.seen.get(t) {
            Some(seen) => seen.recs.contains(&rec),
            None => false,
        }
    }

    /// Takes in a rec that came on an in-edge, by its place, and sends it on unless an equal one came at the time before.
    ///
    /// It costs the logarithm of what the table holds. It fails where memory is refused, now or earlier.
    pub fn on_message(&mut self, side: usize, t: T, rec: Rec) -> Result<Sent<T>, AllocError>
        ensures ok { (came : List Arrival) → IsDistinct T.cmp T.coords self.old came
            → OnOk result (IsDistinct T.cmp T.coords self.new (arrival side (T.coords t) rec ∷ came)) }
        ensures sent { (came : List Arrival) → IsDistinct T.cmp T.coords self.old came
            → IfOk result (λ sent. sent ≡ record {
              at = t;
              recs = if is_among rec (recs_arrived_at (T.coords t) came) then [] else rec ∷ [];
            }) }
        ensures err { (came : List Arrival) → IsDistinct T.cmp T.coords self.old came
            → OnErr result (IsDistinct T.cmp T.coords self.new came) }
        ensures live { OnOk result (self.new.refused ≡ false) }
        ensures refused { OnErr result (self.new.refused ≡ true) }
        ensures stays { IsTrue self.old.refused → IsErr result }
    {
        if self.refused {
            return Err(AllocError);
        }
        let again = self.has(&t, rec);
        if let Err(refusal) = put_at(&mut self.seen, self.alloc, side, t, rec) {
            self.refused = true;
            return Err(refusal);
        }
        Ok(Sent::of(t, if again { None } else { Some(rec) }))
    }

    /// Forgets what came at times inside, to which nothing comes any more. It takes no memory.
    pub fn settle(&mut self, f: &T::Frontier)
        ensures table { (kept : List ℕ → Bool) (came : List Arrival)
            → ((t : T) → kept (T.coords t) ≡ not (T.Frontier.inside f.now t))
            → IsDistinct T.cmp T.coords self.old came
            → IsDistinct T.cmp T.coords self.new (arrivals_inside kept came) }
        ensures live { self.new.refused ≡ self.old.refused }
    {
        keep_outside(&mut self.seen, f);
    }

    /// The state at f as it changed since g: of what is settled the table keeps nothing. It takes no memory.
    pub fn state_since(&self, _g: &T::Frontier, _f: &T::Frontier) -> State
        ensures { result ≡ record { sent = 0; sends = []; entries = Totals [] } }
    {
        empty_state(self.alloc)
    }
}
