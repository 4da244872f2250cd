//! Writing numbers, stamps, fronts and counts behind bytes that are there. The error is want of memory.
ghost use Rattle.std.specs.Prelude.{◌≡◌, ◌<◌, ◌^◌, [], ◌∷◌, ◌++◌, OnOk, IfSome};
ghost use Rattle.fw_bytes.specs.Spelling.{u32_bytes, u64_bytes, stamp_bytes, front_bytes, sent_count_bytes, sent_counts_bytes, IsCountable};

use fw_frontier::{Front, SentCount};
use fw_time::Stamp;
use std::alloc::AllocError;

/// A number in four bytes.
#[inline]
pub fn put_u32(out: &mut Vec<u8>, number: u32) -> Result<(), AllocError>
    ensures { OnOk result (out.new.items ≡ out.old.items ++ u32_bytes number) }
{
    out.extend_from_slice(&number.to_be_bytes())?;
    Ok(())
}

/// A number in eight bytes.
#[inline]
pub fn put_u64(out: &mut Vec<u8>, number: u64) -> Result<(), AllocError>
    ensures { OnOk result (out.new.items ≡ out.old.items ++ u64_bytes number) }
{
    out.extend_from_slice(&number.to_be_bytes())?;
    Ok(())
}

/// How many parts follow, in four bytes. A number that does not fit is answered as want of memory.
pub fn put_count(out: &mut Vec<u8>, count: usize) -> Result<(), AllocError>
    ensures bytes { OnOk result (out.new.items ≡ out.old.items ++ u32_bytes count) }
    ensures counted { OnOk result (count < 2 ^ 32) }
{
    let Ok(count) = u32::try_from(count) else {
        return Err(AllocError);
    };
    put_u32(out, count)
}

/// The coordinate of a stamp of one.
#[inline]
pub fn only_coord(stamp: &Stamp) -> Option<u32>
    ensures { IfSome result (λ coord. stamp.now ≡ coord ∷ []) }
{
    if stamp.len() != 1 {
        return None;
    }
    Some(stamp.at(0))
}

/// A stamp: the number of its coordinates, and these.
pub fn put_stamp(out: &mut Vec<u8>, stamp: &Stamp) -> Result<(), AllocError>
    ensures { OnOk result (out.new.items ≡ out.old.items ++ stamp_bytes stamp.now) }
{
    // Most stamps are of one coordinate, and are written at once.
    if let Some(coord) = only_coord(stamp) {
        let [a, b, c, d] = coord.to_be_bytes();
        out.extend_from_slice(&[1, a, b, c, d])?;
        return Ok(());
    }
    out.push(stamp.len() as u8)?;
    for i in 0..stamp.len() {
        put_u32(out, stamp.at(i))?;
    }
    Ok(())
}

/// A front: the number of its stamps outside, and these.
pub fn put_front(out: &mut Vec<u8>, front: &Front) -> Result<(), AllocError>
    ensures bytes { OnOk result (out.new.items ≡ out.old.items ++ front_bytes front.now) }
    ensures counted { OnOk result (IsCountable front.now) }
{
    let stamps = front.outside();
    put_count(out, stamps.len())?;
    for stamp in stamps {
        put_stamp(out, stamp)?;
    }
    Ok(())
}

/// Counts of what was sent, after their number.
pub fn put_counts(out: &mut Vec<u8>, counts: &[SentCount]) -> Result<(), AllocError>
    ensures bytes { OnOk result (out.new.items ≡ out.old.items ++ sent_counts_bytes counts.now) }
    ensures counted { OnOk result (IsCountable counts.now) }
{
    put_count(out, counts.len())?;
    for sent in counts {
        put_sent(out, sent)?;
    }
    Ok(())
}

/// How many messages were sent from a stamp.
fn put_sent(out: &mut Vec<u8>, sent: &SentCount) -> Result<(), AllocError>
    ensures { OnOk result (out.new.items ≡ out.old.items ++ sent_count_bytes sent.now) }
{
    if let Some(coord) = only_coord(&sent.cause) {
        let [a, b, c, d] = coord.to_be_bytes();
        let [e, f, g, h, i, j, k, l] = sent.count.to_be_bytes();
        out.extend_from_slice(&[1, a, b, c, d, e, f, g, h, i, j, k, l])?;
        return Ok(());
    }
    put_stamp(out, &sent.cause)?;
    put_u64(out, sent.count)
}
