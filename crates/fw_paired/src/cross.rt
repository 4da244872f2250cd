//! The pairs of recs of two edges with one key, whenever they came.
ghost use Rattle.std.specs.Prelude.{◌≡◌, ◌==◌, ◌++◌, ℕ, if◌then◌else◌, List, [], ◌∷◌, map, IfOk, OnOk, OnErr, IsTrue, IsErr, true, false};
ghost use Rattle.std.specs.List.Sorted.{IsSorted, IsStrictlySortedBy};
ghost use Rattle.std.specs.Map.{keys_of};
ghost use Rattle.std.specs.Ordering.{nat_cmp};
ghost use Rattle.std.specs.BTreeMap.{get};
ghost use Rattle.fw_bag.specs.Arrivals.{Arrival, arrivals_inside, arrival};
ghost use Rattle.fw_frontier.specs.Front.{inside};
ghost use Rattle.fw_keyed.specs.Sides.{AreOfTwo};
ghost use Rattle.fw_paired.specs.Bags.{AreReordered};
ghost use Rattle.fw_paired.specs.Cross.{HasArrivals, IsCross, held, held_cmp, held_entries, held_values, values_at};
ghost use Rattle.fw_paired.specs.Pairs.{pair_of, pairs_with};

use crate::pair::{StampedValue, pair_with};
use crate::{HeldRec, Pair};
use fw_bag::Rec;
use fw_frontier::Front;
use fw_time::Stamp;
use std::alloc::{AllocError, Global};
use std::collections::BTreeMap;

// Puts the value of a rec last among those of its key.
fn push_at(
    values: &mut BTreeMap<u64, Vec<StampedValue>>,
    alloc: Global,
    at: &Stamp,
    rec: Rec,
) -> Result<(), AllocError>
    ensures ok { (side : ℕ) (came : List Arrival) → HasArrivals values.old came
        → OnOk result (HasArrivals values.new (arrival side at.now rec ∷ came)) }
    ensures err { (came : List Arrival) → HasArrivals values.old came → OnErr result (HasArrivals values.new came) }
{
    let value = StampedValue {
        at: at.copy(),
        value: rec.value,
    };
    if let Some(there) = values.get_mut(&rec.key) {
        there.push(value)?;
        return Ok(());
    }
    let mut first = Vec::new(alloc);
    first.push(value)?;
    values.insert(rec.key, first)?;
    Ok(())
}

// A rec with each of these values of its key.
fn pairs(
    alloc: Global,
    side: usize,
    at: &Stamp,
    rec: Rec,
    values: &[StampedValue],
) -> Result<Vec<Pair>, AllocError>
    ensures { IfOk result (λ pairs. pairs.items ≡ map (pair_of side at.now rec) values.now) }
{
    values
        .iter()
        .map(|earlier| pair_with(side, at, rec, earlier))
        .collect(alloc)
}

// Adds the values of a key that came at stamps inside, as held recs.
fn add_values(
    recs: &mut Vec<HeldRec>,
    side: usize,
    key: u64,
    values: &[StampedValue],
    f: &Front,
) -> Result<(), AllocError>
    ensures { OnOk result (recs.new.items ≡ recs.old.items ++ held_values side key (inside f.now) values.now) }
{
    for value in values {
        if f.contains(&value.at) {
            recs.push(HeldRec {
                side,
                at: value.at.copy(),
                rec: Rec {
                    key,
                    value: value.value,
                },
            })?;
        }
    }
    Ok(())
}

// Adds what came on one in-edge at stamps inside, as held recs.
fn add_side(
    recs: &mut Vec<HeldRec>,
    side: usize,
    values: &BTreeMap<u64, Vec<StampedValue>>,
    f: &Front,
) -> Result<(), AllocError>
    ensures recs { OnOk result (recs.new.items ≡ recs.old.items ++ held_entries side (inside f.now) values.now.entries) }
    ensures ordered { IsStrictlySortedBy nat_cmp (keys_of values.now.entries) }
{
    for (key, there) in values {
        add_values(recs, side, *key, there, f)?;
    }
    Ok(())
}

/// Sends for each rec its sum with each earlier rec of its key on the other in-edge, at the least stamp that both stamps are at
/// most.
///
/// It keeps all that came: each later rec meets it, at whatever stamp that comes.
#[derive(Drop)]
pub struct Cross {
    first: BTreeMap<u64, Vec<StampedValue>>,
    second: BTreeMap<u64, Vec<StampedValue>>,
    alloc: Global,
    refused: bool,
}

impl Cross {
    /// The table to which nothing came.
    pub fn new(alloc: Global) -> Self
        ensures table { IsCross result [] }
        ensures live { result.refused ≡ false }
    {
        Cross {
            first: BTreeMap::new(alloc),
            second: BTreeMap::new(alloc),
            alloc,
            refused: false,
        }
    }

    /// The table that holds these recs, in whatever order they came.
    ///
    /// It fails where memory is refused.
    pub fn from_held(alloc: Global, recs: &[HeldRec]) -> Result<Self, AllocError>
        ensures table { (came : List Arrival) → AreReordered (map held came) recs.now
            → IfOk result (λ cross. IsCross cross came) }
        ensures live { IfOk result (λ cross. cross.refused ≡ false) }
    {
        let mut cross = Cross::new(alloc);
        for one in recs {
            cross.put(one.side, &one.at, one.rec)?;
        }
        Ok(cross)
    }

    // Takes in a rec that came on an in-edge, by its place.
    fn put(&mut self, side: usize, at: &Stamp, rec: Rec) -> Result<(), AllocError>
        ensures ok { (came : List Arrival) → IsCross self.old came
            → OnOk result (IsCross self.new (arrival side at.now rec ∷ came)) }
        ensures err { (came : List Arrival) → IsCross self.old came → OnErr result (IsCross self.new came) }
        ensures refused { self.new.refused ≡ self.old.refused }
    {
        if side == 0 {
            push_at(&mut self.first, self.alloc, at, rec)
        } else {
            push_at(&mut self.second, self.alloc, at, rec)
        }
    }

    // The values of a key on the other in-edge than this one.
    fn values_across(&self, side: usize, key: u64) -> &[StampedValue]
        ensures { result.now ≡ values_at (get nat_cmp (if side == 0 then self.now.second else self.now.first) key) }
    {
        let values = if side == 0 { &self.second } else { &self.first };
        match values.get(&key) {
            Some(there) => there,
            None => &[],
        }
    }

    // The pairs of a rec that comes, with what came.
    fn answer(&self, side: usize, at: &Stamp, rec: Rec) -> Result<Vec<Pair>, AllocError>
        ensures { (came : List Arrival) → IsCross self.now came
            → IfOk result (λ pairs. AreReordered (pairs_with (arrival side at.now rec) came) pairs.items) }
    {
        pairs(self.alloc, side, at, rec, self.values_across(side, rec.key))
    }

    /// Takes in a rec that came on one of two in-edges, by its place, 0 or 1, and gives its pairs with each rec of its key that came on
    /// the other one.
    ///
    /// It costs the logarithm of the keys, and what it sends. It fails where memory is refused, now or earlier.
    pub fn on_message(&mut self, side: usize, at: &Stamp, rec: Rec) -> Result<Vec<Pair>, AllocError>
        ensures ok { (came : List Arrival) → IsCross self.old came
            → OnOk result (IsCross self.new (arrival side at.now rec ∷ came)) }
        ensures sent { (came : List Arrival) → IsCross self.old came
            → IfOk result (λ pairs. AreReordered (pairs_with (arrival side at.now rec) came) pairs.items) }
        ensures err { (came : List Arrival) → IsCross self.old came → OnErr result (IsCross self.new came) }
        ensures live { OnOk result (self.new.refused ≡ false) }
        ensures refused { OnErr result (self.new.refused ≡ true) }
        ensures stays { IsTrue self.old.refused → IsErr result }
    {
        if self.refused {
            return Err(AllocError);
        }
        self.refused = true;
        let pairs = self.answer(side, at, rec)?;
        self.put(side, at, rec)?;
        self.refused = false;
        Ok(pairs)
    }

    /// What came at stamps inside, in ascending order.
    ///
    /// It goes over all that came. It fails where memory is refused, now or earlier.
    pub fn held_inside(&self, f: &Front) -> Result<Vec<HeldRec>, AllocError>
        ensures recs { (came : List Arrival) → AreOfTwo came → IsCross self.now came
            → IfOk result (λ recs. AreReordered (map held (arrivals_inside (inside f.now) came)) recs.items) }
        ensures sorted { IfOk result (λ recs. IsSorted held_cmp recs.items) }
        ensures stays { IsTrue self.now.refused → IsErr result }
    {
        if self.refused {
            return Err(AllocError);
        }
        let mut recs = Vec::new(self.alloc);
        add_side(&mut recs, 0, &self.first, f)?;
        add_side(&mut recs, 1, &self.second, f)?;
        recs.sort_unstable();
        Ok(recs)
    }
}
