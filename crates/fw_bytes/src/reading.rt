//! Reading numbers, stamps, fronts and counts.
ghost use Rattle.std.specs.Int.{w32, w64};
ghost use Rattle.fw_bytes.specs.Fields.{number_field, stamp_field};
ghost use Rattle.fw_bytes.specs.Reading.{Gives, any, read_front, sent_counts_of};

use crate::fault::ReadFault;
use crate::fields::{stamp_at, u32_at, u64_at};
use crate::parts::{counts_at, stamps_at};
use fw_frontier::{Front, SentCounts};
use fw_time::Stamp;
use std::alloc::Global;

/// Four bytes that may be any number.
#[inline]
pub fn any_u32(bytes: &[u8]) -> Result<(u32, &[u8]), ReadFault>
    ensures { Gives (λ x. (x.0, x.1.now)) result (any bytes.now (number_field w32 bytes.now)) }
{
    match u32_at(bytes) {
        Some(read) => Ok(read),
        None => Err(ReadFault::Broken { left: bytes.len() }),
    }
}

/// Eight bytes that may be any number.
#[inline]
pub fn any_u64(bytes: &[u8]) -> Result<(u64, &[u8]), ReadFault>
    ensures { Gives (λ x. (x.0, x.1.now)) result (any bytes.now (number_field w64 bytes.now)) }
{
    match u64_at(bytes) {
        Some(read) => Ok(read),
        None => Err(ReadFault::Broken { left: bytes.len() }),
    }
}

/// Any stamp.
pub fn any_stamp(bytes: &[u8]) -> Result<(Stamp, &[u8]), ReadFault>
    ensures { Gives (λ x. (x.0, x.1.now)) result (any bytes.now (stamp_field bytes.now)) }
{
    match stamp_at(bytes) {
        Some(read) => Ok(read),
        None => Err(ReadFault::Broken { left: bytes.len() }),
    }
}

/// A front: a count, and that many stamps.
#[tactic(auto, unfolding(crate::specs::Reading::read_front))]
pub fn front_at(alloc: Global, bytes: &[u8]) -> Result<(Front, &[u8]), ReadFault>
    ensures { Gives (λ x. (x.0, x.1.now)) result (read_front bytes.now) }
{
    let (count, rest) = any_u32(bytes)?;
    let (stamps, rest) = stamps_at(alloc, count, rest)?;
    Ok((Front::of_outside(stamps), rest))
}

/// A count, and that many counts of what was sent.
#[tactic(auto, unfolding(crate::specs::Reading::sent_counts_of))]
pub fn sent_counts_at(alloc: Global, bytes: &[u8]) -> Result<(SentCounts, &[u8]), ReadFault>
    ensures { Gives (λ x. (x.0, x.1.now)) result (sent_counts_of bytes.now) }
{
    let (count, rest) = any_u32(bytes)?;
    let (counts, rest) = counts_at(alloc, count, rest)?;
    Ok((SentCounts::of(counts), rest))
}
