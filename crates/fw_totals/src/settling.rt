//! Sums by time outside what is settled, and totals of what is settled.
ghost use Rattle.std.specs.Prelude.{◌≡◌, ◌&&◌, not, ℕ, Bool, List, [], ◌∷◌, false, IfOk, OnOk, OnErr, IsOk};
ghost use Rattle.std.specs.List.Sorted.{IsStrictlySortedBy};
ghost use Rattle.std.specs.Map.{keys_of};
ghost use Rattle.fw_bag.specs.Arrivals.{Arrival, recs_of, arrival, recs_inside, AreInside, AreTimes};
ghost use Rattle.fw_frontier.specs.Frontier.{Within};
ghost use Rattle.fw_table.specs.Sums.{sums_at_keys, sums_by_key};
ghost use Rattle.fw_totals.specs.Totals.{found, WritesOver};
ghost use Rattle.fw_totals.specs.Gathered.{gathered, HasRooms};
ghost use Rattle.fw_totals.specs.Settling.{IsSettling};

use crate::totals::{added, make_room, restored, shown, take_in, write};
use fw_bag::{Rec, Recs};
use fw_frontier::{Frontier, Logical};
use fw_table::{Sums, keep_outside, put_at};
use std::alloc::{AllocError, Global};
use std::collections::BTreeMap;

// Makes a place for each key of the times inside. No total changes, whether memory is refused or not.
fn make_rooms<T: Logical>(
    totals: &mut BTreeMap<u64, Option<u64>>,
    by_time: &BTreeMap<T, Sums>,
    f: &T::Frontier,
) -> Result<(), AllocError>
    ensures same { (q : ℕ) → found totals.new q ≡ found totals.old q }
    ensures room { OnOk result (HasRooms (T.Frontier.inside f.now) totals.new by_time.now.entries) }
{
    for (t, sums) in by_time {
        if f.contains(t) {
            make_room(totals, &sums.by_key)?;
        }
    }
    Ok(())
}

// Takes the sums of the times inside into the totals. Where each key has a place it takes no memory.
fn take_all<T: Logical>(
    totals: &mut BTreeMap<u64, Option<u64>>,
    by_time: &BTreeMap<T, Sums>,
    f: &T::Frontier,
) -> Result<(), AllocError>
    ensures ok { HasRooms (T.Frontier.inside f.now) totals.old by_time.now.entries → IsOk result }
    ensures totals { OnOk result ((q : ℕ) → found totals.new q
        ≡ gathered (T.Frontier.inside f.now) q (found totals.old q) by_time.now.entries) }
    ensures ordered { IsStrictlySortedBy T.cmp (keys_of by_time.now.entries) }
{
    for (t, sums) in by_time {
        if f.contains(t) {
            take_in(totals, &sums.by_key)?;
        }
    }
    Ok(())
}

// Takes the sums of the times inside, but of those inside an earlier frontier, into the totals.
fn take_since<T: Logical>(
    totals: &mut BTreeMap<u64, Option<u64>>,
    by_time: &BTreeMap<T, Sums>,
    g: &T::Frontier,
    f: &T::Frontier,
) -> Result<(), AllocError>
    ensures { OnOk result ((q : ℕ) → found totals.new q
        ≡ gathered (λ t. T.Frontier.inside f.now t && not (T.Frontier.inside g.now t)) q (found totals.old q) by_time.now.entries) }
{
    for (t, sums) in by_time {
        if f.contains(t) && !g.contains(t) {
            take_in(totals, &sums.by_key)?;
        }
    }
    Ok(())
}

/// The sums of each key at each time outside what is settled, and the totals of what is settled.
#[derive(Drop)]
pub struct Settling<T: Ord> {
    /// The sums at each time.
    pub(crate) by_time: BTreeMap<T, Sums>,
    settled: BTreeMap<u64, Option<u64>>,
    alloc: Global,
}

impl<T: Logical> Settling<T> {
    /// Nothing came, whatever is settled.
    pub fn new(alloc: Global) -> Self
        ensures { (inside : List ℕ → Bool) → IsSettling T.cmp T.coords inside result [] }
    {
        Settling {
            by_time: BTreeMap::new(alloc),
            settled: BTreeMap::new(alloc),
            alloc,
        }
    }

    /// What is settled has these totals, and nothing came outside.
    ///
    /// It fails where memory is refused.
    pub fn from_state(alloc: Global, totals: &[Rec]) -> Result<Self, AllocError>
        ensures { (inside : List ℕ → Bool) (came : List Arrival) → AreInside inside came → AreTimes T.coords came
            → totals.now ≡ sums_by_key (recs_of came)
            → IfOk result (λ table. IsSettling T.cmp T.coords inside table came) }
    {
        let settled = restored(alloc, totals)?;
        Ok(Settling {
            by_time: BTreeMap::new(alloc),
            settled,
            alloc,
        })
    }

    /// Takes in a rec that came outside what is settled, on an in-edge by its place.
    ///
    /// It fails where memory is refused; then the table is that of what came before.
    pub fn put(&mut self, side: usize, t: T, rec: Rec) -> Result<(), AllocError>
        ensures ok { (inside : List ℕ → Bool) (came : List Arrival) → inside (T.coords t) ≡ false
            → IsSettling T.cmp T.coords inside self.old came
            → OnOk result (IsSettling T.cmp T.coords inside self.new (arrival side (T.coords t) rec ∷ came)) }
        ensures err { (inside : List ℕ → Bool) (came : List Arrival) → IsSettling T.cmp T.coords inside self.old came
            → OnErr result (IsSettling T.cmp T.coords inside self.new came) }
    {
        put_at(&mut self.by_time, self.alloc, side, t, rec)
    }

    /// Settles what came inside, which holds what was settled.
    ///
    /// It fails where memory is refused; then as much is settled as before.
    pub fn settle(&mut self, f: &T::Frontier) -> Result<(), AllocError>
        ensures ok { (inside after : List ℕ → Bool) (came : List Arrival)
            → ((t : T) → after (T.coords t) ≡ T.Frontier.inside f.now t) → Within inside after
            → IsSettling T.cmp T.coords inside self.old came
            → OnOk result (IsSettling T.cmp T.coords after self.new came) }
        ensures err { (inside : List ℕ → Bool) (came : List Arrival) → IsSettling T.cmp T.coords inside self.old came
            → OnErr result (IsSettling T.cmp T.coords inside self.new came) }
    {
        make_rooms::<T>(&mut self.settled, &self.by_time, f)?;
        take_all::<T>(&mut self.settled, &self.by_time, f)?;
        keep_outside(&mut self.by_time, f);
        Ok(())
    }

    /// The totals of what came inside, which holds what is settled, in ascending order of the keys.
    ///
    /// It fails where memory is refused.
    pub fn totals_at(&self, f: &T::Frontier) -> Result<Recs, AllocError>
        ensures { (inside after : List ℕ → Bool) (came : List Arrival)
            → ((t : T) → after (T.coords t) ≡ T.Frontier.inside f.now t) → Within inside after
            → IsSettling T.cmp T.coords inside self.now came
            → IfOk result (λ totals. totals ≡ sums_by_key (recs_inside after came)) }
    {
        let settled = shown(self.alloc, &self.settled)?;
        let mut totals = restored(self.alloc, &settled)?;
        make_rooms::<T>(&mut totals, &self.by_time, f)?;
        take_all::<T>(&mut totals, &self.by_time, f)?;
        let recs = shown(self.alloc, &totals)?;
        Ok(Recs::of(recs))
    }

    /// The totals of what came inside, which holds what is settled, of the keys alone to which something came outside what is
    /// settled; in ascending order of the keys.
    ///
    /// It costs these keys, and the times that are not settled. It fails where memory is refused.
    pub fn totals_since(&self, f: &T::Frontier) -> Result<Recs, AllocError>
        ensures { (inside after : List ℕ → Bool) (came : List Arrival)
            → ((t : T) → after (T.coords t) ≡ T.Frontier.inside f.now t) → Within inside after
            → IsSettling T.cmp T.coords inside self.now came
            → IfOk result (λ totals. totals ≡ sums_at_keys (recs_inside (λ s. after s && not (inside s)) came) (recs_inside after came)) }
    {
        let mut changed = BTreeMap::new(self.alloc);
        make_rooms::<T>(&mut changed, &self.by_time, f)?;
        take_all::<T>(&mut changed, &self.by_time, f)?;
        let recs = added(self.alloc, &self.settled, &changed)?;
        Ok(Recs::of(recs))
    }

    /// The totals of what came inside f, of the keys alone to which something came outside g; in ascending order of the keys. What
    /// is settled lies inside g, and g inside f.
    ///
    /// It costs the keys, and the times that are not settled. It fails where memory is refused.
    pub fn totals_between(&self, g: &T::Frontier, f: &T::Frontier) -> Result<Recs, AllocError>
        ensures { (inside before after : List ℕ → Bool) (came : List Arrival)
            → ((t : T) → before (T.coords t) ≡ T.Frontier.inside g.now t) → Within inside before
            → ((t : T) → after (T.coords t) ≡ T.Frontier.inside f.now t) → Within before after
            → IsSettling T.cmp T.coords inside self.now came
            → IfOk result (λ totals. totals ≡ sums_at_keys (recs_inside (λ s. after s && not (before s)) came) (recs_inside after came)) }
    {
        let settled = shown(self.alloc, &self.settled)?;
        let mut totals = restored(self.alloc, &settled)?;
        take_all::<T>(&mut totals, &self.by_time, g)?;
        let mut later = BTreeMap::new(self.alloc);
        take_since::<T>(&mut later, &self.by_time, g, f)?;
        let recs = added(self.alloc, &totals, &later)?;
        Ok(Recs::of(recs))
    }

    /// Writes totals over those of what is settled, where nothing came outside.
    ///
    /// It fails where memory is refused.
    pub fn take_changes(&mut self, totals: &[Rec]) -> Result<(), AllocError>
        ensures { (inside after : List ℕ → Bool) (came all : List Arrival)
            → AreInside inside came → AreInside after all → AreTimes T.coords all
            → WritesOver totals.now (recs_of came) (recs_of all) → IsSettling T.cmp T.coords inside self.old came
            → OnOk result (IsSettling T.cmp T.coords after self.new all) }
    {
        write(&mut self.settled, totals)?;
        Ok(())
    }
}
