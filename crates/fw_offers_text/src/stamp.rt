//! Numbers, stamps and frontiers as words spell them.
ghost use Rattle.std.specs.Prelude.{◌≡◌, true, Some, None, IfOk, if◌then◌else◌};
ghost use Rattle.std.specs.Option.{option_map};
ghost use Rattle.std.specs.List.{list_all};
ghost use Rattle.fw_schedule.specs.Stamps as spec;
ghost use Rattle.fw_schedule.specs.Stamps.{stamp_spelled};
ghost use Rattle.fw_time.specs.declared.stamp.Bounds.{Bounds as Domain};
ghost use Rattle.fw_time.specs.Stamp.{in_domain};
ghost use Rattle.fw_offers_text.specs.Statements.{are_least_in_order, is_canonical, is_count_small, count_spelled, counts_spelled, stamps_spelled};
ghost use Rattle.fw_offers_text.specs.Words.{is_count};

use crate::statement::EpochCounts;
use crate::words::{CountWords, StampWords, colon_place};
use fw_bag::{Bag, Rec};
use fw_flow::Notices;
use fw_frontier::Front;
use fw_lines::{Number, number};
use fw_schedule::{number_up_to, stamp_up_to};
use fw_time::{Bounds, Stamp};
use std::alloc::{AllocError, Global};

/// The stamps that words spell, if each of them is of the domain.
pub(crate) fn stamps_in(
    alloc: Global,
    words: &StampWords<'_>,
    bounds: &Bounds,
) -> Result<Option<Notices>, AllocError>
    ensures { IfOk result (λ stamps. stamps
        ≡ (if list_all (in_domain bounds.now) (stamps_spelled words.now) then Some (stamps_spelled words.now) else None)) }
{
    let Some(stamps) = stamps_of(alloc, words, bounds)? else {
        return Ok(None);
    };
    Ok(Some(Notices::of(stamps)))
}

/// The frontier whose stamps words spell, if these are the domain's and name it: in order, no two comparable.
pub(crate) fn front_in(
    alloc: Global,
    words: &StampWords<'_>,
    bounds: &Bounds,
) -> Result<Option<Front>, AllocError>
    ensures { IfOk result (λ front. front
        ≡ (if is_canonical bounds.now (stamps_spelled words.now) then Some (stamps_spelled words.now) else None)) }
{
    match stamps_of(alloc, words, bounds)? {
        Some(stamps) => front_of(alloc, stamps),
        None => Ok(None),
    }
}

// The frontier that stamps of a domain name, if they are in order and no two comparable.
fn front_of(alloc: Global, stamps: Vec<Stamp>) -> Result<Option<Front>, AllocError>
    ensures { (bounds : Domain) → list_all (in_domain bounds) stamps.items ≡ true → IfOk result (λ front. front
        ≡ (if are_least_in_order stamps.items then Some stamps.items else None)) }
{
    let told = Front::of_outside(stamps);
    let least = Front::until(alloc, told.outside())?;
    if told.same(&least) {
        Ok(Some(told))
    } else {
        Ok(None)
    }
}

// The stamps that words spell, if each of them is of the domain.
fn stamps_of(
    alloc: Global,
    words: &StampWords<'_>,
    bounds: &Bounds,
) -> Result<Option<Vec<Stamp>>, AllocError>
    ensures { IfOk result (λ stamps. option_map (λ all. all.items) stamps
        ≡ (if list_all (in_domain bounds.now) (stamps_spelled words.now) then Some (stamps_spelled words.now) else None)) }
{
    let mut stamps = Vec::new(alloc);
    for word in words.spans {
        let Some(stamp) = stamp_in(word.of(words.text), bounds) else {
            return Ok(None);
        };
        stamps.push(stamp)?;
    }
    Ok(Some(stamps))
}

// The stamp that a word spells, if it is of the domain.
fn stamp_in(word: &[u8], bounds: &Bounds) -> Option<Stamp>
    requires { spec.is_stamp word.now ≡ true }
    ensures { result ≡ (if in_domain bounds.now (stamp_spelled word.now) then Some (stamp_spelled word.now) else None) }
{
    let stamp = stamp_up_to(word, &bounds.greatest)?;
    if stamp.in_domain(bounds) {
        Some(stamp)
    } else {
        None
    }
}

/// The counts that words spell, in order, if their numbers are not too large.
pub(crate) fn counts_in(
    alloc: Global,
    words: &CountWords<'_>,
) -> Result<Option<EpochCounts>, AllocError>
    ensures { IfOk result (λ counts. counts
        ≡ (if list_all is_count_small (counts_spelled words.now) then Some (counts_spelled words.now) else None)) }
{
    let mut counts = Bag::new(alloc);
    for word in words.spans {
        let Some(count) = count_in(word.of(words.text)) else {
            return Ok(None);
        };
        counts.add(count)?;
    }
    Ok(Some(EpochCounts { counts }))
}

// The count that a word spells, if its numbers are not too large.
fn count_in(word: &[u8]) -> Option<Rec>
    requires { is_count word.now ≡ true }
    ensures { result ≡ (if is_count_small (count_spelled word.now) then Some (count_spelled word.now) else None) }
{
    let at = colon_place(word);
    let epoch = number_up_to(&word[..at], u32::MAX)?;
    match number(&word[at + 1..]) {
        Number::Value(value) => Some(Rec {
            key: u64::from(epoch),
            value,
        }),
        Number::TooLarge | Number::NotANumber => None,
    }
}
