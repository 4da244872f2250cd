//! Single fields: what stands at the front of the bytes, and the bytes after it; nothing where the bytes end inside.
ghost use Rattle.std.specs.Int.{w16, w32, w64};
ghost use Rattle.fw_bytes.specs.Fields.{byte_of, number_field, stamp_field, sent_count_of};
ghost use Rattle.fw_bytes.specs.Reading.{IsField};

use fw_frontier::SentCount;
use fw_time::Stamp;

/// A byte.
#[inline]
pub fn byte_at(bytes: &[u8]) -> Option<(u8, &[u8])>
    ensures { IsField (λ x. (x.0, x.1.now)) result (byte_of bytes.now) }
{
    match bytes {
        [] => None,
        [byte, rest @ ..] => Some((*byte, rest)),
    }
}

/// A number of two bytes.
#[inline]
pub fn u16_at(bytes: &[u8]) -> Option<(u16, &[u8])>
    ensures { IsField (λ x. (x.0, x.1.now)) result (number_field w16 bytes.now) }
{
    if bytes.len() < 2 {
        return None;
    }
    let (front, rest) = bytes.split_at(2);
    Some((u16::from_be_bytes([front[0], front[1]]), rest))
}

/// A number of four bytes.
#[inline]
pub fn u32_at(bytes: &[u8]) -> Option<(u32, &[u8])>
    ensures { IsField (λ x. (x.0, x.1.now)) result (number_field w32 bytes.now) }
{
    if bytes.len() < 4 {
        return None;
    }
    let (front, rest) = bytes.split_at(4);
    let number = u32::from_be_bytes([front[0], front[1], front[2], front[3]]);
    Some((number, rest))
}

/// A number of eight bytes.
#[inline]
pub fn u64_at(bytes: &[u8]) -> Option<(u64, &[u8])>
    ensures { IsField (λ x. (x.0, x.1.now)) result (number_field w64 bytes.now) }
{
    if bytes.len() < 8 {
        return None;
    }
    let (front, rest) = bytes.split_at(8);
    let number = u64::from_be_bytes([
        front[0], front[1], front[2], front[3], front[4], front[5], front[6], front[7],
    ]);
    Some((number, rest))
}

/// A stamp of one to four coordinates.
#[tactic(auto, unfolding(crate::specs::Fields::stamp_field, crate::specs::Fields::coords_of))]
pub fn stamp_at(bytes: &[u8]) -> Option<(Stamp, &[u8])>
    ensures { IsField (λ x. (x.0, x.1.now)) result (stamp_field bytes.now) }
{
    let (count, rest) = byte_at(bytes)?;
    match count {
        1 => {
            let (a, rest) = u32_at(rest)?;
            Some((Stamp::new(&[a]), rest))
        }
        2 => {
            let (a, rest) = u32_at(rest)?;
            let (b, rest) = u32_at(rest)?;
            Some((Stamp::new(&[a, b]), rest))
        }
        3 => {
            let (a, rest) = u32_at(rest)?;
            let (b, rest) = u32_at(rest)?;
            let (c, rest) = u32_at(rest)?;
            Some((Stamp::new(&[a, b, c]), rest))
        }
        4 => {
            let (a, rest) = u32_at(rest)?;
            let (b, rest) = u32_at(rest)?;
            let (c, rest) = u32_at(rest)?;
            let (d, rest) = u32_at(rest)?;
            Some((Stamp::new(&[a, b, c, d]), rest))
        }
        _ => None,
    }
}

/// A stamp and a count.
#[tactic(auto, unfolding(crate::specs::Fields::sent_count_of))]
pub fn sent_count_at(bytes: &[u8]) -> Option<(SentCount, &[u8])>
    ensures { IsField (λ x. (x.0, x.1.now)) result (sent_count_of bytes.now) }
{
    let (cause, rest) = stamp_at(bytes)?;
    let (count, rest) = u64_at(rest)?;
    Some((SentCount { cause, count }, rest))
}
