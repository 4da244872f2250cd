//! Lists of parts, each of which may come next after those before it.
ghost use Rattle.std.specs.Prelude.{[]};
ghost use Rattle.fw_bytes.specs.Reading.{Gives, many_of, next_stamp_of, next_count_of};

use crate::fault::ReadFault;
use crate::fields::{sent_count_at, stamp_at};
use crate::rules::{follows_counts, follows_stamps};
use fw_frontier::SentCount;
use fw_time::Stamp;
use std::alloc::Global;

/// The next stamp of a front.
fn next_stamp<'a>(before: &[Stamp], bytes: &'a [u8]) -> Result<(Stamp, &'a [u8]), ReadFault>
    ensures { Gives (λ x. (x.0, x.1.now)) result (next_stamp_of before.now bytes.now) }
{
    match stamp_at(bytes) {
        Some((part, rest)) if follows_stamps(before, &part) => Ok((part, rest)),
        _ => Err(ReadFault::Broken { left: bytes.len() }),
    }
}

/// So many stamps of a front.
pub fn stamps_at(alloc: Global, count: u32, bytes: &[u8]) -> Result<(Vec<Stamp>, &[u8]), ReadFault>
    ensures { Gives (λ x. (x.0.items, x.1.now)) result (many_of next_stamp_of count [] bytes.now) }
{
    let mut parts = Vec::new(alloc);
    let mut rest = bytes;
    for _ in 0..count {
        let (part, after) = next_stamp(&parts, rest)?;
        parts.push(part)?;
        rest = after;
    }
    Ok((parts, rest))
}

/// The next count of what was sent.
fn next_count<'a>(before: &[SentCount], bytes: &'a [u8]) -> Result<(SentCount, &'a [u8]), ReadFault>
    ensures { Gives (λ x. (x.0, x.1.now)) result (next_count_of before.now bytes.now) }
{
    match sent_count_at(bytes) {
        Some((part, rest)) if follows_counts(before, &part) => Ok((part, rest)),
        _ => Err(ReadFault::Broken { left: bytes.len() }),
    }
}

/// So many counts of what was sent.
pub fn counts_at(
    alloc: Global,
    count: u32,
    bytes: &[u8],
) -> Result<(Vec<SentCount>, &[u8]), ReadFault>
    ensures { Gives (λ x. (x.0.items, x.1.now)) result (many_of next_count_of count [] bytes.now) }
{
    let mut parts = Vec::new(alloc);
    let mut rest = bytes;
    for _ in 0..count {
        let (part, after) = next_count(&parts, rest)?;
        parts.push(part)?;
        rest = after;
    }
    Ok((parts, rest))
}
