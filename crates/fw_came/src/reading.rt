//! Reading a batch.
ghost use Rattle.std.specs.Prelude.{[], true};
ghost use Rattle.fw_bytes.specs.Fields.{byte_of};
ghost use Rattle.fw_bytes.specs.Reading.{Gives, IsField, kept_if, many_of};
ghost use Rattle.fw_record.specs.Fields.{rec_of};
ghost use Rattle.fw_came.specs.Came.{batch_reading, is_mark, next_rec_of, read_came, counted_recs};

use crate::CameBatch;
use fw_bag::{Rec, Recs};
use fw_bytes::{ReadFault, any_u64, byte_at, u64_at};
use std::alloc::Global;

/// A key and a value.
#[tactic(auto, unfolding(fw_record::specs::Fields::rec_of))]
fn rec_at(bytes: &[u8]) -> Option<(Rec, &[u8])>
    ensures { IsField (λ x. (x.0, x.1.now)) result (rec_of bytes.now) }
{
    let (key, rest) = u64_at(bytes)?;
    let (value, rest) = u64_at(rest)?;
    Some((Rec { key, value }, rest))
}

/// The next rec.
fn next_rec(bytes: &[u8]) -> Result<(Rec, &[u8]), ReadFault>
    ensures { Gives (λ x. (x.0, x.1.now)) result (kept_if (λ r. true) bytes.now (rec_of bytes.now)) }
{
    match rec_at(bytes) {
        Some(read) => Ok(read),
        None => Err(ReadFault::Broken { left: bytes.len() }),
    }
}

/// So many recs.
fn recs_from(alloc: Global, count: u64, bytes: &[u8]) -> Result<(Vec<Rec>, &[u8]), ReadFault>
    ensures { Gives (λ x. (x.0.items, x.1.now)) result (many_of next_rec_of count [] bytes.now) }
{
    let mut recs = Vec::new(alloc);
    let mut rest = bytes;
    for _ in 0..count {
        let (rec, after) = next_rec(rest)?;
        recs.push(rec)?;
        rest = after;
    }
    Ok((recs, rest))
}

/// A count, and that many recs.
#[tactic(auto, unfolding(crate::specs::Came::counted_recs))]
fn recs_at(alloc: Global, bytes: &[u8]) -> Result<(Recs, &[u8]), ReadFault>
    ensures { Gives (λ x. (x.0, x.1.now)) result (counted_recs bytes.now) }
{
    let (count, rest) = any_u64(bytes)?;
    let (recs, rest) = recs_from(alloc, count, rest)?;
    Ok((Recs::of(recs), rest))
}

/// The byte that tells whether the source was closed.
fn mark_at(bytes: &[u8]) -> Result<(u8, &[u8]), ReadFault>
    ensures { Gives (λ x. (x.0, x.1.now)) result (kept_if is_mark bytes.now (byte_of bytes.now)) }
{
    match byte_at(bytes) {
        Some((mark, rest)) if mark < 2 => Ok((mark, rest)),
        _ => Err(ReadFault::Broken { left: bytes.len() }),
    }
}

/// The batch at the front of the bytes.
#[tactic(auto, unfolding(crate::specs::Came::read_came))]
fn came_at(alloc: Global, bytes: &[u8]) -> Result<(CameBatch, &[u8]), ReadFault>
    ensures { Gives (λ x. (x.0, x.1.now)) result (read_came bytes.now) }
{
    let (mark, rest) = mark_at(bytes)?;
    let (recs, rest) = recs_at(alloc, rest)?;
    let batch = CameBatch {
        last: mark == 1,
        recs,
    };
    Ok((batch, rest))
}

/// The batch that the bytes spell, and no byte more. It takes memory for what it read alone, whatever count the bytes have.
///
/// # Errors
///
/// `Broken` where they spell none, with how many bytes are left from the first broken field on; `NoMemory` where memory is refused.
#[tactic(auto, unfolding(crate::specs::Came::batch_reading))]
pub fn read_batch(alloc: Global, bytes: &[u8]) -> Result<CameBatch, ReadFault>
    ensures { Gives (λ batch. batch) result (batch_reading bytes.now) }
{
    let (batch, rest) = came_at(alloc, bytes)?;
    if !rest.is_empty() {
        return Err(ReadFault::Broken { left: rest.len() });
    }
    Ok(batch)
}
