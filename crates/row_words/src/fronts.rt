//! Frontiers, and stamps of a domain, by words.
ghost use Rattle.std.specs.Prelude.{◌≡◌, IfOk, true};
ghost use Rattle.fw_time.specs.Stamp.{in_domain};
ghost use Rattle.fw_frontier.specs.Front.{IsCanonical};

use crate::NoAnswer;
use crate::rows::part;
use crate::words::{stamp_of, stamps_of};
use fw_frontier::Front;
use fw_time::{Bounds, Stamp};
use std::alloc::Global;

/// The stamps outside the frontier that is spelled `all`, or `until` and these.
fn outside_of(alloc: Global, text: &str) -> Result<Vec<Stamp>, NoAnswer> {
    let (word, words) = part(text);
    if word == "all" {
        return Ok(Vec::new(alloc));
    }
    if word != "until" {
        return Err(NoAnswer::NotSpelled);
    }
    stamps_of(alloc, words)
}

/// The frontier that is spelled `all`, or `until` and stamps outside.
pub fn front_of(alloc: Global, text: &str) -> Result<Front, NoAnswer> {
    let outside = outside_of(alloc, text)?;
    Ok(Front::until(alloc, &outside)?)
}

/// The frontier of a domain that is spelled so.
pub fn front_in(alloc: Global, text: &str, bounds: &Bounds) -> Result<Front, NoAnswer>
    ensures { IfOk result (λ f. IsCanonical bounds.now f) }
{
    let outside = outside_of(alloc, text)?;
    checked(alloc, &outside, bounds)
}

/// The stamps of some words; none where they are `all`.
fn stamps_or_none(alloc: Global, words: &str) -> Result<Vec<Stamp>, NoAnswer> {
    if words.trim() == "all" {
        return Ok(Vec::new(alloc));
    }
    stamps_of(alloc, words)
}

/// The frontier of a domain that has the stamps of some words outside, or of `all`.
pub fn front_outside(alloc: Global, words: &str, bounds: &Bounds) -> Result<Front, NoAnswer>
    ensures { IfOk result (λ f. IsCanonical bounds.now f) }
{
    let outside = stamps_or_none(alloc, words)?;
    checked(alloc, &outside, bounds)
}

/// The frontier of a domain that has these stamps outside.
fn checked(alloc: Global, outside: &[Stamp], bounds: &Bounds) -> Result<Front, NoAnswer>
    ensures { IfOk result (λ f. IsCanonical bounds.now f) }
{
    match Front::checked_until(alloc, outside, bounds)? {
        Some(front) => Ok(front),
        None => Err(NoAnswer::NotSpelled),
    }
}

/// The stamp of a domain.
pub fn stamp_in(alloc: Global, word: &str, bounds: &Bounds) -> Result<Stamp, NoAnswer>
    ensures { IfOk result (λ s. in_domain bounds.now s ≡ true) }
{
    let stamp = stamp_of(alloc, word)?;
    if stamp.in_domain(bounds) {
        Ok(stamp)
    } else {
        Err(NoAnswer::NotSpelled)
    }
}
