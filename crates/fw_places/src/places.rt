//! A set of places.
ghost use Rattle.std.specs.Prelude.{◌≡◌, ◌<◌, ◌≤◌, ◌*◌, ◌/◌, ◌%◌, ◌^◌, [], ◌∷◌, OnOk, OnErr, IfSome, IfNone, length, slice_index, slice_set, bit_or, bit_and};
ghost use Rattle.std.specs.BTreeSet.{insert_key};
ghost use Rattle.std.specs.BTreeMap.{is_at};
ghost use Rattle.std.specs.Set.{remove_key};
ghost use Rattle.std.specs.Ordering.{nat_cmp};
ghost use Rattle.std.specs.Int.{bit_not, w64};
ghost use Rattle.fw_places.specs.Marks.{marked, IsNextMark};
ghost use Rattle.fw_places.specs.Places.{IsPut, IsTakenOut, IsFirstPlace, IsFirstBetween};

use std::alloc::{AllocError, Global};
use std::marker::Model;

/// A set of places of nodes or edges: a row of marks, one bit for each place up to the greatest that was ever put in, so that
/// putting in and taking out take constant time. Contracts see the places as their ascending list.
#[derive(Debug, Drop)]
pub struct Places {
    words: Vec<u64>,
}

impl Model for Places {
    ghost use Rattle.std.specs.Prelude.{ℕ, ◌≤◌, List, length};
    ghost use Rattle.fw_places.specs.Marks.{marked};

    ghost Value = { List ℕ };

    ghost view = { λ places. marked places.words.items };

    // each place is a number of 32 bits
    ghost invariant = { λ places. length places.words.items ≤ 67108864 };
}

impl Places {
    /// No place. The words take their memory from `alloc` when a place is put in.
    pub fn new(alloc: Global) -> Self
        ensures { result ≡ [] }
    {
        Places {
            words: Vec::new(alloc),
        }
    }

    /// Puts a place in, which may be there already, in constant time once a place as great was in. The error is want of memory,
    /// and leaves the places as they were.
    #[inline]
    pub fn insert(&mut self, place: u32) -> Result<(), AllocError>
        ensures keys { OnOk result (self.new ≡ insert_key nat_cmp self.old place) }
        ensures put { OnOk result (IsPut place self.old self.new) }
        ensures unchanged { OnErr result (self.new ≡ self.old) }
    {
        grow(&mut self.words, (place / 64) as usize)?;
        mark(&mut self.words, place);
        Ok(())
    }

    /// Takes a place out, if it is there, in constant time.
    #[inline]
    pub fn remove(&mut self, place: u32)
        ensures keys { self.new ≡ remove_key (is_at (nat_cmp place)) self.old }
        ensures taken { IsTakenOut place self.old self.new }
    {
        if ((place / 64) as usize) < self.words.len() {
            unmark(&mut self.words, place);
        }
    }

    /// Takes the first place out, if there is one.
    pub fn pop_first(&mut self) -> Option<u32>
        ensures some { IfSome result (λ place. self.old ≡ place ∷ self.new) }
        ensures none { IfNone result (self.old ≡ []) }
        ensures unchanged { IfNone result (self.new ≡ []) }
    {
        let place = next_mark(&self.words, 0)?;
        unmark(&mut self.words, place);
        Some(place)
    }

    /// The first place, which is looked for a word of 64 places at a time.
    #[inline]
    pub fn first(&self) -> Option<u32>
        ensures { IsFirstPlace self.now result }
    {
        next_mark(&self.words, 0)
    }

    /// The first place from `from` on, if it is below `limit`, which is looked for a word of 64 places at a time.
    #[inline]
    pub fn first_between(&self, from: u32, limit: u32) -> Option<u32>
        ensures { IsFirstBetween from limit self.now result }
    {
        let place = next_mark(&self.words, from)?;
        if place < limit { Some(place) } else { None }
    }
}

// Words without marks, until there is one at a place in the row. The error is want of memory.
#[inline]
fn grow(words: &mut Vec<u64>, i: usize) -> Result<(), AllocError>
    requires few { length words.old.items ≤ 67108864 }
    requires fits { i < 67108864 }
    ensures same { marked words.new.items ≡ marked words.old.items }
    ensures few { length words.new.items ≤ 67108864 }
    ensures long { OnOk result (i < length words.new.items) }
{
    while words.len() <= i {
        words.push(0)?;
    }
    Ok(())
}

// Sets the bit of a place.
#[inline]
fn mark(words: &mut Vec<u64>, place: u32)
    requires { place / 64 < length words.old.items }
    ensures { words.new.items ≡ slice_set words.old.items (place / 64)
        (bit_or (slice_index words.old.items (place / 64)) (1 * 2 ^ (place % 64) % 2 ^ 64)) }
{
    words[(place / 64) as usize] |= 1 << (place % 64);
}

// Clears the bit of a place.
#[inline]
fn unmark(words: &mut Vec<u64>, place: u32)
    requires { place / 64 < length words.old.items }
    ensures { words.new.items ≡ slice_set words.old.items (place / 64)
        (bit_and (slice_index words.old.items (place / 64)) (bit_not w64 (1 * 2 ^ (place % 64) % 2 ^ 64))) }
{
    words[(place / 64) as usize] &= !(1 << (place % 64));
}

// The first place from one on whose bit is set.
#[inline]
fn next_mark(words: &[u64], from: u32) -> Option<u32>
    requires { length words.now ≤ 67108864 }
    ensures { IsNextMark words.now from result }
{
    let start = (from / 64) as usize;
    if words.len() <= start {
        return None;
    }
    let rest = words[start] & (u64::MAX << (from % 64));
    if rest != 0 {
        return Some(start as u32 * 64 + rest.trailing_zeros());
    }
    for i in start + 1..words.len() {
        let word = words[i];
        if word != 0 {
            return Some(i as u32 * 64 + word.trailing_zeros());
        }
    }
    None
}
