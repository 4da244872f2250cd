//! How many there are of each stamp.
ghost use Rattle.std.specs.Prelude.{◌≡◌, ◌↔◌, ◌+◌, [], ◌∷◌, not, drop, filter, find, Some, IsTrue, IfOk, OnOk, OnErr};
ghost use Rattle.std.specs.BTreeMap.{insert_entry, IsOrdered, Updates};
ghost use Rattle.std.specs.List.{AllByRecursion, list_any};
ghost use Rattle.std.specs.List.Sorted.{IsStrictlySortedBy};
ghost use Rattle.std.specs.Map.{keys_of};
ghost use Rattle.fw_time.specs.Stamp.{lesser, stamp_cmp};
ghost use Rattle.fw_time.specs.declared.stamp.Bounds.{Bounds as Domain};
ghost use Rattle.fw_frontier.specs.Front.{inside, frontier_of, IsFrontOf};
ghost use Rattle.fw_progress.specs.Few.{entries_of};
ghost use Rattle.fw_progress.specs.Tally.{times_in, count_inside, IsTallyOf, HasOneMore, HasManyMore, HasOneLess, HasNoMore, AreLowest};

use fw_frontier::Front;
use fw_time::Stamp;
use std::alloc::{AllocError, Global};
use std::collections::BTreeMap;
use std::marker::Model;
use std::slice;

/// How many there are of each stamp. One stamp alone takes no memory. Contracts see the stamps, in order, each with its
/// number.
#[derive(Debug, Drop)]
pub struct Tally {
    alloc: Global,
    few: Few,
}

// The stamps with their numbers: one in place, or any number in a map.
#[derive(Debug, Drop)]
enum Few {
    One(Stamp, u64),
    Many(BTreeMap<Stamp, u64>),
}

impl Model for Tally {
    ghost use Rattle.std.specs.Prelude.{ℕ, List};
    ghost use Rattle.fw_time.specs.Stamp.{Stamp};
    ghost use Rattle.fw_progress.specs.Few.{entries_of};

    ghost Value = { List (Stamp × ℕ) };

    ghost view = { λ tally. entries_of tally.few };
}

impl Tally {
    /// None of any stamp, in memory from `alloc`.
    pub fn new(alloc: Global) -> Self
        ensures { result ≡ [] }
    {
        Tally {
            alloc,
            few: Few::Many(BTreeMap::new(alloc)),
        }
    }

    /// How many there are of a stamp.
    pub fn times(&self, at: &Stamp) -> u64
        ensures { result ≡ times_in at.now self.now }
    {
        match &self.few {
            Few::One(stamp, count) if at.compare(stamp).is_eq() => *count,
            Few::One(..) => 0,
            Few::Many(counts) => times_of(counts, at),
        }
    }

    /// Whether there is one of a lesser stamp.
    pub fn has_lesser(&self, at: &Stamp) -> bool
        ensures { result ≡ list_any (λ s. lesser s at.now) (keys_of self.now) }
    {
        match &self.few {
            Few::One(stamp, _) => is_lesser(stamp, at),
            Few::Many(counts) => has_lesser(counts, at),
        }
    }

    /// One more of a stamp. The error is want of memory, or that the number would not fit 64 bits; after it all is as it was.
    pub fn add(&mut self, at: &Stamp) -> Result<(), AllocError>
        ensures ok { IfOk result (λ u. HasOneMore at.now self.old self.new) }
        ensures err { OnErr result (self.new ≡ self.old) }
    {
        self.add_many(at, 1)
    }

    /// So many more of a stamp. The error is want of memory, or that the number would not fit 64 bits; after it all is as it
    /// was.
    pub fn add_many(&mut self, at: &Stamp, count: u64) -> Result<(), AllocError>
        ensures ok { IfOk result (λ u. HasManyMore at.now count self.old self.new) }
        ensures err { OnErr result (self.new ≡ self.old) }
    {
        if count == 0 {
            return Ok(());
        }
        let more = match &mut self.few {
            Few::Many(counts) => {
                if !counts.is_empty() {
                    return add_many(counts, at, count);
                }
                Few::One(at.copy(), count)
            }
            Few::One(stamp, times) => {
                if at.compare(stamp).is_eq() {
                    *times = times.checked_add(count).ok_or(AllocError)?;
                    return Ok(());
                }
                with_more(self.alloc, stamp, *times, at, count)?
            }
        };
        self.few = more;
        Ok(())
    }

    /// How many there are at stamps inside a frontier. The error is that the number would not fit 64 bits.
    pub fn count_inside(&self, f: &Front) -> Result<u64, AllocError>
        ensures { IfOk result (λ n. n ≡ count_inside (inside f.now) self.now) }
    {
        match &self.few {
            Few::One(stamp, count) if f.contains(stamp) => Ok(*count),
            Few::One(..) => Ok(0),
            Few::Many(counts) => count_inside(counts, f),
        }
    }

    /// Leaves what is at stamps inside a frontier. It takes no memory.
    pub fn keep_inside(&mut self, f: &Front)
        ensures { self.new ≡ filter (λ entry. inside f.now entry.0) self.old }
    {
        match &mut self.few {
            Few::Many(counts) => {
                counts.retain(|stamp, _| f.contains(stamp));
                return;
            }
            Few::One(stamp, _) => {
                if f.contains(stamp) {
                    return;
                }
            }
        }
        self.few = Few::Many(BTreeMap::new(self.alloc));
    }

    /// Leaves what is at stamps outside a frontier. It takes no memory.
    pub fn keep_outside(&mut self, f: &Front)
        ensures { self.new ≡ filter (λ entry. not (inside f.now entry.0)) self.old }
    {
        match &mut self.few {
            Few::Many(counts) => {
                counts.retain(|stamp, _| !f.contains(stamp));
                return;
            }
            Few::One(stamp, _) => {
                if !f.contains(stamp) {
                    return;
                }
            }
        }
        self.few = Few::Many(BTreeMap::new(self.alloc));
    }

    /// One less of a stamp, if there is one. It takes no memory.
    pub fn take(&mut self, at: &Stamp)
        ensures { HasOneLess at.now self.old self.new }
    {
        match &mut self.few {
            Few::Many(counts) => {
                take_one(counts, at);
                return;
            }
            Few::One(stamp, count) => {
                if !at.compare(stamp).is_eq() {
                    return;
                }
                if *count > 1 {
                    *count -= 1;
                    return;
                }
            }
        }
        self.few = Few::Many(BTreeMap::new(self.alloc));
    }

    /// None of a stamp from now on. It takes no memory.
    pub fn clear(&mut self, at: &Stamp)
        ensures { HasNoMore at.now self.old self.new }
    {
        match &mut self.few {
            Few::Many(counts) => {
                clear_one(counts, at);
                return;
            }
            Few::One(stamp, _) => {
                if !at.compare(stamp).is_eq() {
                    return;
                }
            }
        }
        self.few = Few::Many(BTreeMap::new(self.alloc));
    }

    /// Whether there is none of any stamp.
    pub fn is_empty(&self) -> bool
        ensures { IsTrue result ↔ (self.now ≡ []) }
    {
        match &self.few {
            Few::One(..) => false,
            Few::Many(counts) => counts.is_empty(),
        }
    }

    /// A copy. The error is want of memory.
    pub fn copy(&self, alloc: Global) -> Result<Self, AllocError>
        ensures { IfOk result (λ tally. tally ≡ self.now) }
    {
        let few = match &self.few {
            Few::One(stamp, count) => Few::One(stamp.copy(), *count),
            Few::Many(counts) => Few::Many(copied(alloc, counts)?),
        };
        Ok(Tally { alloc, few })
    }

    /// Its stamps with their numbers, in order. The error is want of memory.
    pub fn entries(&self, alloc: Global) -> Result<Vec<(Stamp, u64)>, AllocError>
        ensures { IfOk result (λ entries. entries.items ≡ self.now) }
    {
        match &self.few {
            Few::One(stamp, count) => one_entry(alloc, stamp, *count),
            Few::Many(counts) => listed(alloc, counts),
        }
    }

    /// The first of its stamps inside a frontier, by the coordinates from the outermost on.
    pub fn first_inside(&self, f: &Front) -> Option<Stamp>
        ensures first { result ≡ find (inside f.now) (keys_of self.now) }
        ensures in_order { IsStrictlySortedBy stamp_cmp (keys_of self.now) }
    {
        match &self.few {
            Few::One(stamp, _) if f.contains(stamp) => Some(stamp.copy()),
            Few::One(..) => None,
            Few::Many(counts) => first_inside(counts, f),
        }
    }

    /// Up to where there is none: the frontier that has these stamps outside. The error is want of memory.
    pub fn until(&self, alloc: Global) -> Result<Front, AllocError>
        ensures { (bounds : Domain) → IsTallyOf bounds self.now
            → IfOk result (λ f. IsFrontOf bounds f (frontier_of bounds (keys_of self.now))) }
    {
        match &self.few {
            Few::One(stamp, _) => Front::until(alloc, slice::from_ref(stamp)),
            Few::Many(counts) => until(alloc, counts),
        }
    }
}

// How many there are of a stamp.
#[tactic(auto, unfolding(crate::specs::Tally::times_in))]
fn times_of(counts: &BTreeMap<Stamp, u64>, at: &Stamp) -> u64
    ensures { result ≡ times_in at.now counts.now.entries }
{
    match counts.get(at) {
        Some(count) => *count,
        None => 0,
    }
}

// Whether there is one of a lesser stamp.
fn has_lesser(counts: &BTreeMap<Stamp, u64>, at: &Stamp) -> bool
    ensures { result ≡ list_any (λ s. lesser s at.now) (keys_of counts.now.entries) }
{
    counts.keys().any(|stamp| is_lesser(stamp, at))
}

// Whether the first stamp is lesser.
fn is_lesser(stamp: &Stamp, at: &Stamp) -> bool
    ensures { result ≡ lesser stamp.now at.now }
{
    stamp.leq(at) && !at.leq(stamp)
}

// The number of a stamp is so much greater from now on, by one look-up; all is as it was after an error.
fn raise(counts: &mut BTreeMap<Stamp, u64>, at: &Stamp, more: u64) -> Result<(), AllocError>
    ensures ok { OnOk result
        (Updates stamp_cmp counts.old counts.new at.now (Some (times_in at.now counts.old.entries + more))) }
    ensures entries { OnOk result (counts.new.entries
        ≡ insert_entry stamp_cmp counts.old.entries at.now (times_in at.now counts.old.entries + more)) }
    ensures err { OnErr result (counts.new.entries ≡ counts.old.entries) }
    ensures ordered { IsOrdered stamp_cmp counts.old }
{
    let count = counts.entry(at.copy())?.or_insert(0);
    *count = count.checked_add(more).ok_or(AllocError)?;
    Ok(())
}

// So many more of a stamp; all is as it was after an error.
fn add_many(counts: &mut BTreeMap<Stamp, u64>, at: &Stamp, count: u64) -> Result<(), AllocError>
    ensures ok { IfOk result (λ u. HasManyMore at.now count counts.old.entries counts.new.entries) }
    ensures err { OnErr result (counts.new.entries ≡ counts.old.entries) }
{
    if count == 0 {
        return Ok(());
    }
    raise(counts, at, count)?;
    Ok(())
}

// So many of one stamp in a map, and so many more of another one.
fn with_more(
    alloc: Global,
    stamp: &Stamp,
    times: u64,
    at: &Stamp,
    count: u64,
) -> Result<Few, AllocError>
    ensures { IfOk result (λ few. HasManyMore at.now count ((stamp.now, times) ∷ []) (entries_of few)) }
{
    let mut counts = BTreeMap::new(alloc);
    counts.insert(stamp.copy(), times)?;
    add_many(&mut counts, at, count)?;
    Ok(Few::Many(counts))
}

// How many there are at stamps inside a frontier.
fn count_inside(counts: &BTreeMap<Stamp, u64>, f: &Front) -> Result<u64, AllocError>
    ensures { IfOk result (λ n. n ≡ count_inside (inside f.now) counts.now.entries) }
{
    let mut sum: u64 = 0;
    for (stamp, count) in counts {
        if f.contains(stamp) {
            sum = sum.checked_add(*count).ok_or(AllocError)?;
        }
    }
    Ok(sum)
}

// One less of a stamp, if there is one.
fn take_one(counts: &mut BTreeMap<Stamp, u64>, at: &Stamp)
    ensures { HasOneLess at.now counts.old.entries counts.new.entries }
{
    let Some(count) = counts.get_mut(at) else {
        return;
    };
    if *count > 1 {
        *count -= 1;
    } else {
        counts.remove(at);
    }
}

// None of a stamp.
fn clear_one(counts: &mut BTreeMap<Stamp, u64>, at: &Stamp)
    ensures { HasNoMore at.now counts.old.entries counts.new.entries }
{
    counts.remove(at);
}

// A copy of the counts.
fn copied(alloc: Global, counts: &BTreeMap<Stamp, u64>) -> Result<BTreeMap<Stamp, u64>, AllocError>
    ensures { IfOk result (λ copy. copy.entries ≡ counts.now.entries) }
{
    let mut copy = BTreeMap::new(alloc);
    for (at, count) in counts.iter() {
        copy.insert(at.copy(), *count)?;
    }
    Ok(copy)
}

// One stamp with its number.
fn one_entry(alloc: Global, stamp: &Stamp, count: u64) -> Result<Vec<(Stamp, u64)>, AllocError>
    ensures { IfOk result (λ entries. entries.items ≡ (stamp.now, count) ∷ []) }
{
    let mut entries = Vec::new(alloc);
    entries.push((stamp.copy(), count))?;
    Ok(entries)
}

// The stamps with their numbers.
fn listed(alloc: Global, counts: &BTreeMap<Stamp, u64>) -> Result<Vec<(Stamp, u64)>, AllocError>
    ensures { IfOk result (λ entries. entries.items ≡ counts.now.entries) }
{
    let mut entries = Vec::new(alloc);
    for (at, count) in counts.iter() {
        entries.push((at.copy(), *count))?;
    }
    Ok(entries)
}

// The first of the stamps inside a frontier.
fn first_inside(counts: &BTreeMap<Stamp, u64>, f: &Front) -> Option<Stamp>
    ensures first { result ≡ find (inside f.now) (keys_of counts.now.entries) }
    ensures in_order { IsStrictlySortedBy stamp_cmp (keys_of counts.now.entries) }
{
    for stamp in counts.keys() {
        if f.contains(stamp) {
            return Some(stamp.copy());
        }
    }
    None
}

// Up to where there is none. Where the first stamp begins an epoch, it says so alone, and no list is made.
fn until(alloc: Global, counts: &BTreeMap<Stamp, u64>) -> Result<Front, AllocError>
    ensures { (bounds : Domain) → IsTallyOf bounds counts.now.entries
        → IfOk result (λ f. IsFrontOf bounds f (frontier_of bounds (keys_of counts.now.entries))) }
{
    let Some((first, _)) = counts.first_key_value() else {
        return Ok(Front::all(alloc));
    };
    if begins_epoch(first) {
        return Front::until(alloc, slice::from_ref(first));
    }
    let stamps = lowest(alloc, counts)?;
    Front::until(alloc, &stamps)
}

// The stamps in order, up to the first one whose coordinates but the first are all 0: each later one is at or above it.
fn lowest(alloc: Global, counts: &BTreeMap<Stamp, u64>) -> Result<Vec<Stamp>, AllocError>
    ensures { IfOk result (λ stamps. AreLowest stamps.items (keys_of counts.now.entries)) }
{
    let mut stamps = Vec::new(alloc);
    for stamp in counts.keys() {
        stamps.push(stamp.copy())?;
        if begins_epoch(stamp) {
            return Ok(stamps);
        }
    }
    Ok(stamps)
}

// Whether all coordinates of a stamp but the first are 0.
fn begins_epoch(stamp: &Stamp) -> bool
    ensures { IsTrue result ↔ AllByRecursion (λ n. n ≡ 0) (drop 1 stamp.now) }
{
    for place in 1..stamp.len() {
        if stamp.at(place) > 0 {
            return false;
        }
    }
    true
}
