//! Lists of outside stamps, and what the calls of frontiers do to them.
ghost use Rattle.std.specs.Prelude.{◌≡◌, true, ℕ, List, [], ◌<◌, ◌≤◌, not, nat_lt, if◌then◌else◌, length, slice_index, filter, IfOk, OnOk};
ghost use Rattle.std.specs.List.{AllByRecursion};
ghost use Rattle.fw_time.specs.Stamp.{leq, lub, stamp_raised_at, in_domain, up_to};
ghost use Rattle.fw_frontier.specs.Front.{inside, is_within, all_in_domain, frontier_of, IsFrontOf};
ghost use Rattle.fw_frontier.specs.Frontier.{join};
ghost use Rattle.fw_frontier.specs.Outside.{place_among, with_stamp, front_without, front_without_all, rise_count, front_without_near, front_without_all_near, below_at};

use crate::planes;
use fw_time::{Bounds, Stamp};
use std::alloc::{AllocError, Global};

// Of two stamps of up to so many coordinates, one is greater at no more than one place.
const FEW: usize = 3;

// Whether a stamp is inside: no outside stamp is at most it.
pub fn has_inside(outside: &[Stamp], t: &Stamp) -> bool
    ensures { result ≡ inside outside.now t.now }
{
    for o in outside {
        if o.leq(t) {
            return false;
        }
    }
    true
}

// Whether none of these stamps is inside.
pub fn has_none_inside(outside: &[Stamp], stamps: &[Stamp]) -> bool
    ensures { result ≡ is_within outside.now stamps.now }
{
    for s in stamps {
        if has_inside(outside, s) {
            return false;
        }
    }
    true
}

// Whether all stamps are the domain's.
pub fn are_in_domain(stamps: &[Stamp], bounds: &Bounds) -> bool
    ensures { result ≡ all_in_domain bounds.now stamps.now }
{
    for s in stamps {
        if !s.in_domain(bounds) {
            return false;
        }
    }
    true
}

// How many of the stamps stand before the first that comes after `s`.
fn place_of(outside: &[Stamp], s: &Stamp) -> usize
    ensures place { result ≡ place_among s.now outside.now }
    ensures within { result ≤ length outside.now }
{
    for (i, o) in outside.iter().enumerate() {
        if s.compare(o).is_lt() {
            return i;
        }
    }
    outside.len()
}

// Puts a stamp in its place in the ascending list.
fn insert(outside: &mut Vec<Stamp>, s: Stamp) -> Result<(), AllocError>
    ensures { OnOk result (outside.new.items ≡ with_stamp s outside.old.items) }
{
    let place = place_of(outside, &s);
    outside.insert(place, s)?;
    Ok(())
}

// Takes out the stamps that `s` is at most.
fn remove_above(outside: &mut Vec<Stamp>, s: &Stamp)
    ensures { outside.new.items ≡ filter (λ o. not (leq s.now o)) outside.old.items }
{
    outside.retain(|o| !s.leq(o));
}

// Makes a stamp more an outside one. After an error the list is of no use.
#[tactic(auto, unfolding(crate::specs::Outside::front_without))]
pub fn exclude(outside: &mut Vec<Stamp>, s: Stamp) -> Result<(), AllocError>
    ensures { OnOk result (outside.new.items ≡ front_without s outside.old.items) }
{
    if !has_inside(outside, &s) {
        return Ok(());
    }
    remove_above(outside, &s);
    insert(outside, s)
}

// The same stamps once more.
pub fn copied(alloc: Global, stamps: &[Stamp]) -> Result<Vec<Stamp>, AllocError>
    ensures { IfOk result (λ copy. copy.items ≡ stamps.now) }
{
    let mut copy = Vec::with_capacity(alloc, stamps.len())?;
    for s in stamps {
        copy.push(s.copy())?;
    }
    Ok(copy)
}

// Makes these stamps outside ones.
pub fn exclude_all(outside: &mut Vec<Stamp>, stamps: &[Stamp]) -> Result<(), AllocError>
    ensures { OnOk result (outside.new.items ≡ front_without_all stamps.now outside.old.items) }
{
    for s in stamps {
        exclude(outside, s.copy())?;
    }
    Ok(())
}

// At how many places the second stamp is greater.
fn count_of_rises(s: &Stamp, p: &Stamp) -> usize
    ensures { result ≡ rise_count s.now p.now }
{
    let mut count = 0;
    for i in 0..s.len().min(p.len()) {
        if s.at(i) < p.at(i) {
            count += 1;
        }
    }
    count
}

// Makes outside the least upper bounds of `s` with those of the stamps that are greater at no more than one place. Two of
// them that are greater at the same place are comparable.
fn exclude_near(outside: &mut Vec<Stamp>, s: &Stamp, stamps: &[Stamp]) -> Result<(), AllocError>
    ensures { OnOk result (outside.new.items ≡ front_without_near s.now stamps.now outside.old.items) }
{
    for p in stamps {
        if count_of_rises(s, p) <= 1 {
            exclude(outside, s.lub(p))?;
        }
    }
    Ok(())
}

// Does so for each of the stamps. Of the bounds of one stamp only the least go on: at most one for each place.
fn exclude_all_near(
    outside: &mut Vec<Stamp>,
    stamps: &[Stamp],
    others: &[Stamp],
) -> Result<(), AllocError>
    ensures { OnOk result
        (outside.new.items ≡ front_without_all_near stamps.now others.now outside.old.items) }
{
    for s in stamps {
        let mut near = Vec::new(*outside.allocator());
        exclude_near(&mut near, s, others)?;
        exclude_all(outside, &near)?;
    }
    Ok(())
}

// What is inside one of two frontiers of at most three coordinates. Of two stamps one is then greater at no more than one
// place, so that each pair is looked at from one side at least.
fn joined_by_near(alloc: Global, mine: &[Stamp], others: &[Stamp]) -> Result<Vec<Stamp>, AllocError>
    ensures { IfOk result (λ both. both.items
        ≡ front_without_all_near others.now mine.now (front_without_all_near mine.now others.now [])) }
{
    let mut both = Vec::new(alloc);
    exclude_all_near(&mut both, mine, others)?;
    exclude_all_near(&mut both, others, mine)?;
    Ok(both)
}

// Keeps the stamps of a domain.
pub fn keep_in_domain(stamps: &mut Vec<Stamp>, bounds: &Bounds)
    ensures { stamps.new.items ≡ filter (in_domain bounds.now) stamps.old.items }
{
    stamps.retain(|s| s.in_domain(bounds));
}

// What is inside one of two frontiers of a domain without sides.
pub fn joined(alloc: Global, mine: &[Stamp], others: &[Stamp]) -> Result<Vec<Stamp>, AllocError>
    ensures { (greatest : List ℕ) → AllByRecursion (λ s. leq s greatest ≡ true) mine.now
        → AllByRecursion (λ s. leq s greatest ≡ true) others.now
        → IfOk result (λ both. IsFrontOf (up_to greatest) both.items
        (join (frontier_of (up_to greatest) mine.now) (frontier_of (up_to greatest) others.now))) }
{
    let [first, ..] = mine else {
        return Ok(Vec::new(alloc));
    };
    if first.len() <= FEW {
        return joined_by_near(alloc, mine, others);
    }
    planes::least_bounds(alloc, mine, others)
}

// Makes outside what has a greater coordinate than `s` at a place, if the domain has such stamps.
fn exclude_raised(
    outside: &mut Vec<Stamp>,
    s: &Stamp,
    greatest: &Stamp,
    place: usize,
) -> Result<(), AllocError>
    requires { place < length s.now }
    ensures { OnOk result (outside.new.items
        ≡ (if nat_lt (slice_index s.now place) (slice_index greatest.now place)
        then front_without (stamp_raised_at s.now place) outside.old.items
        else outside.old.items)) }
{
    if place < greatest.len() && s.at(place) < greatest.at(place) {
        return exclude(outside, s.raised(place));
    }
    Ok(())
}

// What of a domain is at most `s`, a stamp of it.
pub fn below(alloc: Global, s: &Stamp, greatest: &Stamp) -> Result<Vec<Stamp>, AllocError>
    ensures { IfOk result
        (λ outside. outside.items ≡ below_at s.now greatest.now (length s.now)) }
{
    let mut outside = Vec::new(alloc);
    for place in 0..s.len() {
        exclude_raised(&mut outside, s, greatest, place)?;
    }
    Ok(outside)
}
