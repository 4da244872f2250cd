//! Stamps that are kept thinned inside a base.
ghost use Rattle.std.specs.Prelude.{◌≡◌, ◌≤◌, ◌||◌, ◌&&◌, not, [], ◌∷◌, ◌++◌, List, ℕ, filter, insert, length, None, IfSome, IfNone, IfOk, OnOk, OnErr};
ghost use Rattle.std.specs.List.{list_any};
ghost use Rattle.std.specs.List.Sorted.{IsStrictlySortedBy};
ghost use Rattle.std.specs.BTreeSet.{insert_key};
ghost use Rattle.fw_time.specs.Stamp.{lesser, leq, stamp_cmp};
ghost use Rattle.fw_frontier.specs.Frontier.{Frontier, Within, cover};
ghost use Rattle.fw_frontier.specs.Front.{inside, frontier_of, IsFrontOf};
ghost use Rattle.fw_model.specs.Thinned.{IsThinned};
ghost use Rattle.fw_progress.specs.StampData.{AreTheSame, HaveAdded};
ghost use Rattle.fw_progress.specs.Traces as spec;
ghost use Rattle.fw_progress.specs.Traces.{has_greater_inside, is_lesser_than_top, top_from, thinned, AreOf, StandForOneMore, IsSettledTo, StandsInside, IsThinnedTo};

use fw_frontier::Front;
use fw_time::{Bounds, Stamp};
use std::alloc::{AllocError, Global};
use std::cmp::Ordering;
use std::marker::Model;

/// Stamps that stand for a list of stamps: all of the list that lie outside a base, and inside it at least the greatest. The
/// base is the caller's. They lie in one ascending row, since most that are added are greater than all that are there. Contracts
/// see the stamps, in ascending order, each once.
#[derive(Debug, Drop)]
pub struct KeptStamps {
    alloc: Global,
    stamps: Vec<Stamp>,
}

impl Model for KeptStamps {
    ghost use Rattle.std.specs.Prelude.{ℕ, List};
    ghost use Rattle.std.specs.List.Sorted.{IsStrictlySortedBy};
    ghost use Rattle.fw_time.specs.Stamp.{stamp_cmp};

    ghost Value = { List (List ℕ) };

    ghost view = { λ kept. kept.stamps.items };

    ghost invariant = { λ kept. IsStrictlySortedBy stamp_cmp kept.stamps.items };
}

impl KeptStamps {
    /// No stamps, in memory from `alloc`.
    pub fn new(alloc: Global) -> Self
        ensures { result ≡ [] }
    {
        KeptStamps {
            alloc,
            stamps: Vec::new(alloc),
        }
    }

    /// These stamps, in any order. The error is want of memory.
    pub fn of(alloc: Global, stamps: &[Stamp]) -> Result<Self, AllocError>
        ensures { IfOk result (AreTheSame stamps.now) }
    {
        let mut kept = KeptStamps::new(alloc);
        kept.add_all(stamps)?;
        Ok(kept)
    }

    /// One stamp more. The error is want of memory, which leaves the stamps as they were.
    pub fn add(&mut self, at: &Stamp) -> Result<(), AllocError>
        ensures thinned { IfOk result (λ u. StandForOneMore at.now self.old self.new) }
        ensures value { IfOk result (λ u. self.new ≡ insert_key stamp_cmp self.old at.now) }
        ensures err { OnErr result (self.new ≡ self.old) }
    {
        if let Some(i) = place_for(&self.stamps, at) {
            put_at(&mut self.stamps, i, at)?;
        }
        Ok(())
    }

    /// Adds these stamps. The error is want of memory; some of them may then be in.
    pub fn add_all(&mut self, stamps: &[Stamp]) -> Result<(), AllocError>
        ensures { IfOk result (λ u. HaveAdded stamps.now self.old self.new) }
    {
        for stamp in stamps {
            self.add(stamp)?;
        }
        Ok(())
    }

    /// Thins the stamps inside a larger base: of those inside, the ones that are lesser than another go. The error is want of
    /// memory, which leaves the stamps as they were.
    pub fn settle(&mut self, base: &Front) -> Result<(), AllocError>
        ensures thinned { IfOk result (λ u. IsSettledTo base.now self.old self.new) }
        ensures value { IfOk result (λ u. self.new ≡ thinned base.now self.old) }
        ensures err { OnErr result (self.new ≡ self.old) }
    {
        if self.stamps.len() < 2 {
            return Ok(());
        }
        if let Some(top) = top_of_chain(&self.stamps, base) {
            self.stamps.retain(|stamp| !is_lesser(stamp, &top));
            return Ok(());
        }
        let tops = greatest_inside(self.alloc, &self.stamps, base)?;
        self.stamps.retain(|stamp| !has_greater(&tops, stamp));
        Ok(())
    }

    /// Leaves the stamps inside a frontier, which holds the base, as a cut to it does. It takes no memory.
    pub fn keep_inside(&mut self, f: &Front)
        ensures thinned { StandsInside f.now self.old self.new }
        ensures value { self.new ≡ filter (inside f.now) self.old }
    {
        self.stamps.retain(|stamp| f.contains(stamp));
    }

    /// The stamps inside a frontier, which holds the base, thinned with the frontier as base, in ascending order. The error is
    /// want of memory.
    pub fn thinned(&self, f: &Front) -> Result<Vec<Stamp>, AllocError>
        ensures thinned { IfOk result (λ kept. IsThinnedTo f.now self.now kept.items) }
        ensures value { IfOk result (λ kept. kept.items ≡ thinned f.now (filter (inside f.now) self.now)) }
    {
        let mut kept = self.stamps_inside(f)?;
        if kept.len() < 2 {
            return Ok(kept);
        }
        let tops = greatest_inside(self.alloc, &self.stamps, f)?;
        kept.retain(|stamp| !has_greater(&tops, stamp));
        Ok(kept)
    }

    /// The cover of the stamps inside a frontier, which holds the base: it is the cover of all that these stand for inside it.
    /// The error is want of memory.
    pub fn cover(&self, f: &Front, bounds: &Bounds) -> Result<Front, AllocError>
        ensures { (base : Frontier) (all : List (List ℕ)) → AreOf bounds.now all
            → Within base (frontier_of bounds.now f.now) → IsThinned base all self.now
            → IfOk result (λ front. IsFrontOf bounds.now front
            (cover bounds.now (filter (frontier_of bounds.now f.now) all))) }
    {
        let stamps = self.stamps_inside(f)?;
        Front::cover_of(self.alloc, &stamps, bounds)
    }

    /// The stamps, in ascending order.
    pub(crate) fn as_slice(&self) -> &[Stamp]
        ensures { result.now ≡ self.now }
    {
        &self.stamps
    }

    /// The stamps, in ascending order. The error is want of memory.
    pub fn stamps(&self) -> Result<Vec<Stamp>, AllocError>
        ensures { IfOk result (λ stamps. stamps.items ≡ self.now) }
    {
        let mut stamps = Vec::with_capacity(self.alloc, self.stamps.len())?;
        for stamp in &self.stamps {
            stamps.push(stamp.copy())?;
        }
        Ok(stamps)
    }

    /// The stamps inside a frontier, in ascending order. The error is want of memory.
    pub fn stamps_inside(&self, f: &Front) -> Result<Vec<Stamp>, AllocError>
        ensures { IfOk result (λ stamps. stamps.items ≡ filter (inside f.now) self.now) }
    {
        let mut stamps = Vec::new(self.alloc);
        for stamp in &self.stamps {
            if f.contains(stamp) {
                stamps.push(stamp.copy())?;
            }
        }
        Ok(stamps)
    }
}

/// Where a stamp goes among ascending ones, if it is not there. The last one is looked at first.
fn place_for(stamps: &[Stamp], at: &Stamp) -> Option<usize>
    requires { IsStrictlySortedBy stamp_cmp stamps.now }
    ensures place { IfSome result (λ i. (i ≤ length stamps.now) × (insert stamps.now i at.now ≡ insert_key stamp_cmp stamps.now at.now)) }
    ensures there { IfNone result (insert_key stamp_cmp stamps.now at.now ≡ stamps.now) }
{
    let Some(last) = stamps.last() else {
        return Some(0);
    };
    match last.cmp(at) {
        Ordering::Less => Some(stamps.len()),
        Ordering::Equal => None,
        Ordering::Greater => stamps.binary_search(at).err(),
    }
}

/// Puts a stamp in at a place; behind the last one nothing is moved.
fn put_at(stamps: &mut Vec<Stamp>, i: usize, at: &Stamp) -> Result<(), AllocError>
    requires { i ≤ length stamps.old.items }
    ensures ok { OnOk result (stamps.new.items ≡ insert stamps.old.items i at.now) }
    ensures err { OnErr result (stamps.new.items ≡ stamps.old.items) }
{
    if i == stamps.len() {
        stamps.push(at.copy())?;
    } else {
        stamps.insert(i, at.copy())?;
    }
    Ok(())
}

/// Whether the first stamp is lesser.
fn is_lesser(stamp: &Stamp, top: &Stamp) -> bool
    ensures { result ≡ lesser stamp.now top.now }
{
    stamp.leq(top) && !top.leq(stamp)
}

/// Whether one of these stamps is greater.
fn has_greater(tops: &[Stamp], stamp: &Stamp) -> bool
    ensures { result ≡ list_any (lesser stamp.now) tops.now }
{
    tops.iter().any(|top| is_lesser(stamp, top))
}

/// The last of the stamps inside a frontier, where each that is inside is at or above the one before it. It takes no memory.
fn top_of_chain(stamps: &[Stamp], base: &Front) -> Option<Stamp>
    ensures value { result ≡ top_from base.now None stamps.now }
    ensures greatest { IfSome result (λ top. (s : List ℕ) → lesser s top ≡ has_greater_inside base.now stamps.now s) }
{
    let mut top = None;
    for stamp in stamps {
        if base.contains(stamp) {
            let next = raised(&top, stamp)?;
            top = Some(next);
        }
    }
    top
}

/// The stamp, where it is at or above the top so far.
fn raised(top: &Option<Stamp>, stamp: &Stamp) -> Option<Stamp>
    ensures value { result ≡ spec.raised top.now stamp.now }
    ensures greater { IfSome result
        (λ next. (s : List ℕ) → lesser s next ≡ (is_lesser_than_top top.now s || lesser s stamp.now)) }
{
    match top {
        Some(top) if !top.leq(stamp) => None,
        _ => Some(stamp.copy()),
    }
}

/// Those of the stamps inside a frontier that are at or below no later one. The error is want of memory.
fn greatest_inside(alloc: Global, stamps: &[Stamp], base: &Front) -> Result<Vec<Stamp>, AllocError>
    ensures { IfOk result
        (λ tops. (s : List ℕ) → list_any (lesser s) tops.items ≡ has_greater_inside base.now stamps.now s) }
{
    let mut tops = Vec::new(alloc);
    for stamp in stamps {
        if base.contains(stamp) {
            raise(&mut tops, stamp)?;
        }
    }
    Ok(tops)
}

/// Takes a stamp up, in place of those at or below it. The error is want of memory.
fn raise(tops: &mut Vec<Stamp>, stamp: &Stamp) -> Result<(), AllocError>
    ensures { IfOk result (λ u. (s : List ℕ) → list_any (lesser s) tops.new.items
        ≡ (list_any (lesser s) tops.old.items || lesser s stamp.now)) }
{
    tops.retain(|top| !top.leq(stamp));
    tops.push(stamp.copy())?;
    Ok(())
}
