//! The pairs of recs of two edges with one key, at each time.
ghost use Rattle.std.specs.Prelude.{◌≡◌, ◌<◌, ℕ, List, Bool, [], ◌∷◌, not, ◌==◌, IfOk, OnOk, OnErr, IsTrue, IsErr, true, false, reverse};
ghost use Rattle.fw_bag.specs.declared.rec.Rec.{Rec};
ghost use Rattle.fw_bag.specs.Arrivals.{Arrival, arrivals_inside, arrival};
ghost use Rattle.fw_bag.specs.Keyed.{joined_rec};
ghost use Rattle.fw_frontier.specs.declared.state.Entries.TheVariants.{Totals};
ghost use Rattle.fw_keyed.specs.Sides.{HasValues, sums_with, values_with, recs_across, AreOfTwo};
ghost use Rattle.fw_keyed.specs.Tables.{IsJoin};

use fw_bag::Rec;
use fw_frontier::{Logical, State};
use fw_table::{Content, Sent, SentRecs, empty_state, keep_outside, put_at};
use std::alloc::{AllocError, Global};
use std::collections::BTreeMap;

/// The values of each key on each of two sides that came at one time, the earliest first.
#[derive(Drop)]
pub(crate) struct Sides {
    left: BTreeMap<u64, Vec<u64>>,
    right: BTreeMap<u64, Vec<u64>>,
    alloc: Global,
}

impl Content for Sides {
    ghost use Rattle.std.specs.Prelude.{not};
    ghost use Rattle.fw_bag.specs.Arrivals.{recs_where};
    ghost use Rattle.fw_keyed.specs.Sides.{HasValues, is_left};

    ghost holds = { λ s came. HasValues s.left (recs_where is_left came) × HasValues s.right (recs_where (λ a. not (is_left a)) came) };

    fn empty(alloc: Global) -> Self {
        Sides {
            left: BTreeMap::new(alloc),
            right: BTreeMap::new(alloc),
            alloc,
        }
    }

    fn put(&mut self, side: usize, rec: Rec) -> Result<(), AllocError> {
        if side == 0 {
            push_at(&mut self.left, self.alloc, rec)
        } else {
            push_at(&mut self.right, self.alloc, rec)
        }
    }
}

// Puts the value of a rec last among those of its key.
fn push_at(values: &mut BTreeMap<u64, Vec<u64>>, alloc: Global, rec: Rec) -> Result<(), AllocError>
    ensures ok { (rs : List Rec) → HasValues values.old rs → OnOk result (HasValues values.new (rec ∷ rs)) }
    ensures err { (rs : List Rec) → HasValues values.old rs → OnErr result (HasValues values.new rs) }
{
    if let Some(there) = values.get_mut(&rec.key) {
        there.push(rec.value)?;
        return Ok(());
    }
    let mut first = Vec::new(alloc);
    first.push(rec.value)?;
    values.insert(rec.key, first)?;
    Ok(())
}

// The rec with each of these values added, from the latest back.
fn summed(alloc: Global, rec: Rec, values: &[u64]) -> Result<Vec<Rec>, AllocError>
    ensures { IfOk result (λ recs. recs.items ≡ sums_with rec (reverse values.now)) }
{
    values
        .iter()
        .rev()
        .map(|value| Rec {
            key: rec.key,
            value: rec.value.wrapping_add(*value),
        })
        .collect(alloc)
}

// The same, where one alone takes no memory.
fn pairs(alloc: Global, rec: Rec, values: &[u64]) -> Result<SentRecs, AllocError>
    ensures { IfOk result (λ recs. recs ≡ sums_with rec (reverse values.now)) }
{
    if let [value] = values {
        let sum = Rec {
            key: rec.key,
            value: rec.value.wrapping_add(*value),
        };
        return Ok(SentRecs::of(Some(sum)));
    }
    let recs = summed(alloc, rec, values)?;
    Ok(SentRecs::all(recs))
}

// The values of a key on the other side, of two.
fn values_across(sides: &Sides, side: usize, key: u64) -> &[u64]
    ensures left { side ≡ 1 → (rs : List Rec) → HasValues sides.now.left rs → reverse result.now ≡ values_with key rs }
    ensures right { side ≡ 0 → (rs : List Rec) → HasValues sides.now.right rs → reverse result.now ≡ values_with key rs }
{
    let values = if side == 0 { &sides.right } else { &sides.left };
    match values.get(&key) {
        Some(there) => there,
        None => &[],
    }
}

/// Sends for each rec its sum with each rec of the other in-edge of its key and time.
#[derive(Drop)]
pub struct Join<T: Ord> {
    sides: BTreeMap<T, Sides>,
    alloc: Global,
    refused: bool,
}

impl<T: Logical> Join<T> {
    /// The table to which nothing came.
    pub fn new(alloc: Global) -> Self
        ensures table { IsJoin T.cmp T.coords result [] }
        ensures live { result.refused ≡ false }
    {
        Join {
            sides: BTreeMap::new(alloc),
            alloc,
            refused: false,
        }
    }

    // What the rec makes the node send.
    fn answer(&self, side: usize, t: &T, rec: Rec) -> Result<SentRecs, AllocError>
        ensures { (came : List Arrival) → IsJoin T.cmp T.coords self.now came → side < 2 → AreOfTwo came
            → IfOk result (λ recs. recs ≡ joined_rec rec (recs_across side (T.coords t.now) came)) }
    {
        match self.sides.get(t) {
            Some(sides) => pairs(self.alloc, rec, values_across(sides, side, rec.key)),
            None => Ok(SentRecs::of(None)),
        }
    }

    /// Takes in a rec that came on one of two in-edges, by its place, 0 or 1, and sends its sum with each rec of its key
    /// that came at the time on the other one.
    ///
    /// It costs the logarithm of what the table holds, and what it sends. It fails where memory is refused, now or earlier.
    pub fn on_message(&mut self, side: usize, t: T, rec: Rec) -> Result<Sent<T>, AllocError>
        ensures ok { (came : List Arrival) → IsJoin T.cmp T.coords self.old came
            → OnOk result (IsJoin T.cmp T.coords self.new (arrival side (T.coords t) rec ∷ came)) }
        ensures sent { (came : List Arrival) → IsJoin T.cmp T.coords self.old came → side < 2 → AreOfTwo came
            → IfOk result (λ sent. sent ≡ record { at = t; recs = joined_rec rec (recs_across side (T.coords t) came) }) }
        ensures err { (came : List Arrival) → IsJoin T.cmp T.coords self.old came
            → OnErr result (IsJoin T.cmp T.coords self.new came) }
        ensures live { OnOk result (self.new.refused ≡ false) }
        ensures refused { OnErr result (self.new.refused ≡ true) }
        ensures stays { IsTrue self.old.refused → IsErr result }
    {
        if self.refused {
            return Err(AllocError);
        }
        match self.answer(side, &t, rec) {
            Ok(recs) => {
                if let Err(refusal) = put_at(&mut self.sides, self.alloc, side, t, rec) {
                    self.refused = true;
                    return Err(refusal);
                }
                Ok(Sent { at: t, recs })
            }
            Err(refusal) => {
                self.refused = true;
                Err(refusal)
            }
        }
    }

    /// Forgets what came at times inside, to which nothing comes any more. It takes no memory.
    pub fn settle(&mut self, f: &T::Frontier)
        ensures table { (kept : List ℕ → Bool) (came : List Arrival)
            → ((t : T) → kept (T.coords t) ≡ not (T.Frontier.inside f.now t))
            → IsJoin T.cmp T.coords self.old came
            → IsJoin T.cmp T.coords self.new (arrivals_inside kept came) }
        ensures live { self.new.refused ≡ self.old.refused }
    {
        keep_outside(&mut self.sides, f);
    }

    /// The state at f as it changed since g: of what is settled the table keeps nothing. It takes no memory.
    pub fn state_since(&self, _g: &T::Frontier, _f: &T::Frontier) -> State
        ensures { result ≡ record { sent = 0; sends = []; entries = Totals [] } }
    {
        empty_state(self.alloc)
    }
}
