//! Lists of parts, each of which may come next after those before it.
ghost use Rattle.std.specs.Prelude.{[]};
ghost use Rattle.fw_bytes.specs.Reading.{Gives, many_of};
ghost use Rattle.fw_record.specs.Reading.{next_total_of, next_logged_of};

use crate::Logged;
use crate::fields::{logged_at, rec_at};
use crate::rules::{follows_logged, follows_totals};
use fw_bag::Rec;
use fw_bytes::ReadFault;
use std::alloc::Global;

/// The next total.
fn next_total<'a>(before: &[Rec], bytes: &'a [u8]) -> Result<(Rec, &'a [u8]), ReadFault>
    ensures { Gives (λ x. (x.0, x.1.now)) result (next_total_of before.now bytes.now) }
{
    match rec_at(bytes) {
        Some((part, rest)) if follows_totals(before, &part) => Ok((part, rest)),
        _ => Err(ReadFault::Broken { left: bytes.len() }),
    }
}

/// So many totals.
pub fn recs_at(alloc: Global, count: u64, bytes: &[u8]) -> Result<(Vec<Rec>, &[u8]), ReadFault>
    ensures { Gives (λ x. (x.0.items, x.1.now)) result (many_of next_total_of count [] bytes.now) }
{
    let mut parts = Vec::new(alloc);
    let mut rest = bytes;
    for _ in 0..count {
        let (part, after) = next_total(&parts, rest)?;
        parts.push(part)?;
        rest = after;
    }
    Ok((parts, rest))
}

/// The next logged message.
fn next_logged<'a>(before: &[Logged], bytes: &'a [u8]) -> Result<(Logged, &'a [u8]), ReadFault>
    ensures { Gives (λ x. (x.0, x.1.now)) result (next_logged_of before.now bytes.now) }
{
    match logged_at(bytes) {
        Some((part, rest)) if follows_logged(before, &part) => Ok((part, rest)),
        _ => Err(ReadFault::Broken { left: bytes.len() }),
    }
}

/// So many logged messages.
pub fn messages_at(
    alloc: Global,
    count: u64,
    bytes: &[u8],
) -> Result<(Vec<Logged>, &[u8]), ReadFault>
    ensures { Gives (λ x. (x.0.items, x.1.now)) result (many_of next_logged_of count [] bytes.now) }
{
    let mut parts = Vec::new(alloc);
    let mut rest = bytes;
    for _ in 0..count {
        let (part, after) = next_logged(&parts, rest)?;
        parts.push(part)?;
        rest = after;
    }
    Ok((parts, rest))
}
