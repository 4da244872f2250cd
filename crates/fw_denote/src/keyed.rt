//! What the kinds that look at keys send.
ghost use Rattle.std.specs.Prelude.{◌≡◌, ◌∷◌, List, map, IfOk, OnOk};
ghost use Rattle.std.specs.List.Sorted.{IsStrictlySortedBy};
ghost use Rattle.std.specs.Map.{keys_of};
ghost use Rattle.std.specs.Ordering.{is_eq, is_gt};
ghost use Rattle.fw_flow.specs.WholeBags as whole;
ghost use Rattle.fw_denote.specs.Numbers.{HasNumbers, HasSlotSums, AreInLine, ComeBefore, sum_of_slot, total_at, slot_cmp, slot_of, entry_rec};

use crate::Timed;
use fw_bag::Rec;
use fw_time::Stamp;
use std::alloc::{AllocError, Global};
use std::collections::BTreeMap;

/// Where values are added up: a stamp and a key. Slots are ordered by stamp, and then by key.
#[derive(Debug, PartialEq, Eq, PartialOrd, Ord, Drop)]
pub(crate) struct Slot {
    pub(crate) at: Stamp,
    pub(crate) key: u64,
}

impl Slot {
    /// That of a timed rec.
    pub(crate) fn of(r: &Timed) -> Self
        ensures { result ≡ slot_of r.now }
    {
        Slot {
            at: r.at().copy(),
            key: r.rec().key,
        }
    }

    /// Whether the timed rec is of a lesser stamp, or of a lesser key at its stamp.
    pub(crate) fn is_above(&self, r: &Timed) -> bool
        ensures { result ≡ is_gt (slot_cmp self.now (slot_of r.now)) }
    {
        self.cmp(&Slot::of(r)).is_gt()
    }

    /// Whether it is that of the timed rec.
    pub(crate) fn is_of(&self, r: &Timed) -> bool
        ensures { result ≡ is_eq (slot_cmp self.now (slot_of r.now)) }
    {
        self.cmp(&Slot::of(r)).is_eq()
    }
}

/// Adds the value of a timed rec to the sum of its slot.
#[tactic(auto, using(crate::proofs::NumberLaws::sums_more))]
fn add_to(sums: &mut BTreeMap<Slot, u64>, r: &Timed) -> Result<(), AllocError>
    ensures { (rs : List whole.Timed) → HasNumbers sums.old (sum_of_slot rs) rs
        → OnOk result (HasNumbers sums.new (sum_of_slot (r.now ∷ rs)) (r.now ∷ rs)) }
{
    let slot = Slot::of(r);
    let sum = sums.get(&slot).copied().unwrap_or(0);
    let raised = r.rec().value.wrapping_add(sum);
    sums.insert(slot, raised)?;
    Ok(())
}

/// The sum of the values at each slot.
#[tactic(auto, using(crate::proofs::NumberLaws::sums_all))]
fn sums(alloc: Global, rs: &[Timed]) -> Result<BTreeMap<Slot, u64>, AllocError>
    ensures { IfOk result (λ sums. HasNumbers sums (sum_of_slot rs.now) rs.now) }
{
    let mut sums = BTreeMap::new(alloc);
    for r in rs {
        add_to(&mut sums, r)?;
    }
    Ok(sums)
}

/// The numbers as timed recs, in order.
fn recs_of(alloc: Global, numbers: &BTreeMap<Slot, u64>) -> Result<Vec<Timed>, AllocError>
    ensures recs { IfOk result (λ recs. recs.items ≡ map entry_rec numbers.now.entries) }
    ensures ordered { IsStrictlySortedBy slot_cmp (keys_of numbers.now.entries) }
{
    let mut recs = Vec::with_capacity(alloc, numbers.len())?;
    for (slot, number) in numbers {
        recs.push(Timed::new(
            slot.at.copy(),
            Rec {
                key: slot.key,
                value: *number,
            },
        ))?;
    }
    Ok(recs)
}

/// What a sum sends: at each stamp the sum of the values of each key that is there.
#[tactic(auto, using(crate::proofs::NumberLaws::sums_sent))]
pub(crate) fn sum_sent(alloc: Global, rs: &[Timed]) -> Result<Vec<Timed>, AllocError>
    ensures { IfOk result (λ sent. whole.in_order sent.items ≡ whole.in_order (whole.sums_at (whole.distinct_stamps rs.now) rs.now)) }
{
    let sums = sums(alloc, rs)?;
    recs_of(alloc, &sums)
}

/// Adds the value of a timed rec to the total of its key, and keeps the total for its slot.
#[tactic(auto, using(crate::proofs::TotalLaws::totals_more, crate::proofs::TotalLaws::slots_more))]
fn total_up(
    totals: &mut BTreeMap<u64, u64>,
    by_slot: &mut BTreeMap<Slot, u64>,
    r: &Timed,
) -> Result<(), AllocError>
    ensures totals { (rs : List whole.Timed) → HasSlotSums totals.old rs → OnOk result (HasSlotSums totals.new (r.now ∷ rs)) }
    ensures by_slot { (rs : List whole.Timed) → HasSlotSums totals.old rs → ComeBefore rs r.now
        → HasNumbers by_slot.old (total_at rs) rs
        → OnOk result (HasNumbers by_slot.new (total_at (r.now ∷ rs)) (r.now ∷ rs)) }
{
    let rec = r.rec();
    let total = totals.get(&rec.key).copied().unwrap_or(0);
    let raised = rec.value.wrapping_add(total);
    totals.insert(rec.key, raised)?;
    by_slot.insert(Slot::of(r), raised)?;
    Ok(())
}

/// The sum of the values of each slot's key at its stamp and at lesser ones, where the stamps are numbers, in order.
fn totals(alloc: Global, rs: &[Timed]) -> Result<BTreeMap<Slot, u64>, AllocError>
    requires in_order { whole.in_order rs.now ≡ rs.now }
    requires in_line { AreInLine rs.now }
    ensures { IfOk result (λ totals. HasNumbers totals (total_at rs.now) rs.now) }
{
    let mut totals = BTreeMap::new(alloc);
    let mut by_slot = BTreeMap::new(alloc);
    for r in rs {
        total_up(&mut totals, &mut by_slot, r)?;
    }
    Ok(by_slot)
}

/// What a total sends: at each stamp, for each key that is there, the sum of its values up to it. The error is want of
/// memory.
#[tactic(auto, using(crate::proofs::NumberLaws::totals_sent))]
pub(crate) fn total_sent(alloc: Global, rs: &[Timed]) -> Result<Vec<Timed>, AllocError>
    requires in_order { whole.in_order rs.now ≡ rs.now }
    requires in_line { AreInLine rs.now }
    ensures { IfOk result (λ sent. whole.in_order sent.items ≡ whole.in_order (whole.totals_at (whole.distinct_stamps rs.now) rs.now)) }
{
    let totals = totals(alloc, rs)?;
    recs_of(alloc, &totals)
}

/// What a ledger sends: for each rec the running total of its key. The error is want of memory.
pub(crate) fn running_totals(alloc: Global, rs: &[Timed]) -> Result<Vec<Timed>, AllocError>
    requires in_order { whole.in_order rs.now ≡ rs.now }
    requires in_line { AreInLine rs.now }
    ensures { IfOk result (λ sent. sent.items ≡ whole.running_totals rs.now) }
{
    let totals = totals(alloc, rs)?;
    let mut sent = Vec::with_capacity(alloc, rs.len())?;
    for r in rs {
        let value = totals.get(&Slot::of(r)).copied().unwrap_or(0);
        sent.push(Timed::new(
            r.at().copy(),
            Rec {
                key: r.rec().key,
                value,
            },
        ))?;
    }
    Ok(sent)
}
