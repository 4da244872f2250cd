//! The greatest stamps inside a frontier.
ghost use Rattle.std.specs.Prelude.{◌≡◌, ◌<◌, ℕ, List, [], true, false, not, set, length, filter, IfOk, OnOk};
ghost use Rattle.std.specs.List.{AllByRecursion};
ghost use Rattle.fw_time.specs.Stamp.{leq, lesser, in_domain};
ghost use Rattle.fw_frontier.specs.Front.{frontier_of};
ghost use Rattle.fw_frontier.specs.Frontier.{some_above, cover};
ghost use Rattle.fw_frontier.specs.Tops.{AreIncomparable, with_top, with_lowered, with_left, with_all_left, tops_left, domain_tops};

use crate::outside;
use fw_time::{Bounds, Stamp};
use std::alloc::{AllocError, Global};

// Whether the stamp is at most one of these.
fn is_covered(tops: &[Stamp], t: &Stamp) -> bool
    ensures { result ≡ some_above tops.now t.now }
{
    for top in tops {
        if t.leq(top) {
            return true;
        }
    }
    false
}

// Takes out the stamps that are at most `t`.
fn remove_below(tops: &mut Vec<Stamp>, t: &Stamp)
    ensures { tops.new.items ≡ filter (λ s. not (leq s t.now)) tops.old.items }
{
    tops.retain(|s| !s.leq(t));
}

// Puts a stamp among the greatest ones.
#[tactic(auto, unfolding(crate::specs::Tops::with_top))]
fn put(tops: &mut Vec<Stamp>, t: Stamp) -> Result<(), AllocError>
    ensures { OnOk result (tops.new.items ≡ with_top t tops.old.items) }
{
    if is_covered(tops, &t) {
        return Ok(());
    }
    remove_below(tops, &t);
    tops.push(t)?;
    Ok(())
}

// The stamp with another coordinate at a place.
fn with_coord(t: &Stamp, place: usize, coord: u32) -> Stamp
    requires { place < length t.now }
    ensures { result ≡ set t.now place coord }
{
    let mut coords = [0; 4];
    for i in 0..t.len() {
        coords[i] = t.at(i);
    }
    coords[place] = coord;
    Stamp::new(&coords[..t.len()])
}

// Puts in what an outside stamp leaves of one that it is at most: below each of its coordinates that is above 0.
fn put_lowered(tops: &mut Vec<Stamp>, o: &Stamp, t: &Stamp) -> Result<(), AllocError>
    requires { length o.now ≡ length t.now }
    ensures { OnOk result (tops.new.items ≡ with_lowered o.now t.now (length o.now) tops.old.items) }
{
    for place in 0..o.len() {
        let coord = o.at(place);
        if coord > 0 {
            put(tops, with_coord(t, place, coord - 1))?;
        }
    }
    Ok(())
}

// Puts in what an outside stamp leaves of one.
#[tactic(auto, using(crate::proofs::TopLaws::same_length))]
fn put_left(tops: &mut Vec<Stamp>, o: &Stamp, t: &Stamp) -> Result<(), AllocError>
    ensures { OnOk result (tops.new.items ≡ with_left o.now t.now tops.old.items) }
{
    if o.leq(t) {
        return put_lowered(tops, o, t);
    }
    put(tops, t.copy())
}

// What an outside stamp leaves of these.
fn left_by(alloc: Global, o: &Stamp, tops: &[Stamp]) -> Result<Vec<Stamp>, AllocError>
    ensures { IfOk result (λ left. left.items ≡ with_all_left o.now tops.now []) }
{
    let mut left = Vec::new(alloc);
    for t in tops {
        put_left(&mut left, o, t)?;
    }
    Ok(left)
}

// The greatest stamps of a domain.
fn of_domain(alloc: Global, bounds: &Bounds) -> Result<Vec<Stamp>, AllocError>
    ensures { IfOk result (λ tops. tops.items ≡ domain_tops bounds.now) }
{
    let greatest = &bounds.greatest;
    let mut tops = Vec::new(alloc);
    if !bounds.sides {
        tops.push(greatest.copy())?;
        return Ok(tops);
    }
    if greatest.len() == 2 {
        put(&mut tops, Stamp::new(&[0, greatest.at(1)]))?;
        put(&mut tops, Stamp::new(&[greatest.at(0), 0]))?;
    }
    Ok(tops)
}

// What these outside stamps leave of the greatest stamps of a domain.
fn left_of_domain(
    alloc: Global,
    outside: &[Stamp],
    bounds: &Bounds,
) -> Result<Vec<Stamp>, AllocError>
    ensures { IfOk result (λ tops. tops.items ≡ tops_left outside.now (domain_tops bounds.now)) }
{
    let mut tops = of_domain(alloc, bounds)?;
    for o in outside {
        tops = left_by(alloc, o, &tops)?;
    }
    Ok(tops)
}

// The greatest stamps of a domain that are inside.
pub fn inside(alloc: Global, outside: &[Stamp], bounds: &Bounds) -> Result<Vec<Stamp>, AllocError>
    ensures cover { IfOk result
        (λ tops. (t : List ℕ) → cover bounds.now tops.items t ≡ frontier_of bounds.now outside.now t) }
    ensures domain { IfOk result
        (λ tops. AllByRecursion (λ s. in_domain bounds.now s ≡ true) tops.items) }
    ensures apart { IfOk result (λ tops. AreIncomparable tops.items) }
    ensures greatest { IfOk result
        (λ tops. AllByRecursion (λ s. AllByRecursion (λ t. lesser s t ≡ false) tops.items) tops.items) }
{
    let mut tops = left_of_domain(alloc, outside, bounds)?;
    outside::keep_in_domain(&mut tops, bounds);
    Ok(tops)
}
