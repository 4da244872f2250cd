//! Totals of keys, for which all memory can be taken before any of them changes: a key may have a place without a total.
ghost use Rattle.std.specs.Prelude.{◌≡◌, ℕ, List, true, IfOk, OnOk, IsOk};
ghost use Rattle.std.specs.Option.{is_some, unwrap_or};
ghost use Rattle.std.specs.Ordering.{nat_cmp};
ghost use Rattle.std.specs.List.Sorted.{IsStrictlySortedBy};
ghost use Rattle.std.specs.Map.{keys_of};
ghost use Rattle.std.specs.BTreeMap.{get};
ghost use Rattle.fw_bag.specs.declared.rec.Rec.{Rec};
ghost use Rattle.fw_bag.specs.Keyed.{has_key};
ghost use Rattle.fw_table.specs.Sums.{entry_recs, sums_by_key};
ghost use Rattle.fw_totals.specs.Gathered.{HasPlaceForEach};
ghost use Rattle.fw_totals.specs.Totals.{combined, found, raised_recs, shown_entries, written, AreSumsIn, HasTotals};

use fw_bag::Rec;
use std::alloc::{AllocError, Global};
use std::collections::BTreeMap;

/// Makes a place for each key of the sums. No total changes, whether memory is refused or not.
pub(crate) fn make_room(
    totals: &mut BTreeMap<u64, Option<u64>>,
    sums: &BTreeMap<u64, u64>,
) -> Result<(), AllocError>
    ensures same { (q : ℕ) → found totals.new q ≡ found totals.old q }
    ensures kept { HasPlaceForEach totals.old totals.new }
    ensures room { OnOk result (HasPlaceForEach sums.now totals.new) }
{
    for (key, _) in sums {
        if !totals.contains_key(key) {
            totals.insert(*key, None)?;
        }
    }
    Ok(())
}

/// The total of a key, or 0, after a place was made for it. No total changes, whether memory is refused or not.
pub(crate) fn place_at(totals: &mut BTreeMap<u64, Option<u64>>, key: u64) -> Result<u64, AllocError>
    ensures total { IfOk result (λ total. total ≡ unwrap_or (found totals.old key) 0) }
    ensures same { (q : ℕ) → found totals.new q ≡ found totals.old q }
    ensures kept { HasPlaceForEach totals.old totals.new }
    ensures room { OnOk result (is_some (get nat_cmp totals.new key) ≡ true) }
{
    match totals.get(&key) {
        Some(Some(total)) => Ok(*total),
        Some(None) => Ok(0),
        None => {
            totals.insert(key, None)?;
            Ok(0)
        }
    }
}

// The total of a key, or 0.
fn total_at(totals: &BTreeMap<u64, Option<u64>>, key: u64) -> u64
    ensures { result ≡ unwrap_or (found totals.now key) 0 }
{
    match totals.get(&key) {
        Some(Some(total)) => *total,
        Some(None) | None => 0,
    }
}

/// Takes the sums of a time into the totals. Where each key has a place it takes no memory.
pub(crate) fn take_in(
    totals: &mut BTreeMap<u64, Option<u64>>,
    sums: &BTreeMap<u64, u64>,
) -> Result<(), AllocError>
    ensures ok { HasPlaceForEach sums.now totals.old → IsOk result }
    ensures kept { HasPlaceForEach totals.old totals.new }
    ensures totals { OnOk result
        ((q : ℕ) → found totals.new q ≡ combined (found totals.old q) (get nat_cmp sums.now q)) }
{
    for (key, sum) in sums {
        let total = total_at(totals, *key);
        totals.insert(*key, Some(sum.wrapping_add(total)))?;
    }
    Ok(())
}

// The keys that have a total, with it, in ascending order.
fn shown_recs(alloc: Global, totals: &BTreeMap<u64, Option<u64>>) -> Result<Vec<Rec>, AllocError>
    ensures recs { IfOk result (λ recs. recs.items ≡ entry_recs (shown_entries totals.now.entries)) }
    ensures ordered { IsStrictlySortedBy nat_cmp (keys_of totals.now.entries) }
{
    let mut recs = Vec::new(alloc);
    for (key, total) in totals {
        if let Some(total) = total {
            recs.push(Rec {
                key: *key,
                value: *total,
            })?;
        }
    }
    Ok(recs)
}

/// The totals, in ascending order of the keys.
pub(crate) fn shown(
    alloc: Global,
    totals: &BTreeMap<u64, Option<u64>>,
) -> Result<Vec<Rec>, AllocError>
    ensures { (rs : List Rec) → HasTotals totals.now rs → IfOk result (λ recs. recs.items ≡ sums_by_key rs) }
{
    shown_recs(alloc, totals)
}

/// The sums with the totals of other keys left out and those of theirs added, as recs, in ascending order of the keys.
pub(crate) fn added(
    alloc: Global,
    totals: &BTreeMap<u64, Option<u64>>,
    sums: &BTreeMap<u64, Option<u64>>,
) -> Result<Vec<Rec>, AllocError>
    ensures recs { IfOk result (λ recs. recs.items ≡ raised_recs totals.now (shown_entries sums.now.entries)) }
    ensures ordered { IsStrictlySortedBy nat_cmp (keys_of sums.now.entries) }
{
    let mut recs = Vec::new(alloc);
    for (key, sum) in sums {
        if let Some(sum) = sum {
            let value = sum.wrapping_add(total_at(totals, *key));
            recs.push(Rec { key: *key, value })?;
        }
    }
    Ok(recs)
}

/// Writes recs as the totals of their keys. Where each key has a place it takes no memory.
pub(crate) fn write(totals: &mut BTreeMap<u64, Option<u64>>, recs: &[Rec]) -> Result<(), AllocError>
    ensures ok { ((q : ℕ) → has_key q recs.now ≡ true → is_some (get nat_cmp totals.old q) ≡ true) → IsOk result }
    ensures totals { (rs : List Rec) → AreSumsIn rs recs.now
        → OnOk result ((q : ℕ) → found totals.new q ≡ written rs recs.now (found totals.old q) q) }
{
    let mut rest = recs;
    while let Some((first, later)) = rest.split_first() {
        totals.insert(first.key, Some(first.value))?;
        rest = later;
    }
    Ok(())
}

/// The map that has these totals.
pub(crate) fn restored(
    alloc: Global,
    recs: &[Rec],
) -> Result<BTreeMap<u64, Option<u64>>, AllocError>
    ensures { (rs : List Rec) → recs.now ≡ sums_by_key rs → IfOk result (λ totals. HasTotals totals rs) }
{
    let mut totals = BTreeMap::new(alloc);
    write(&mut totals, recs)?;
    Ok(totals)
}
