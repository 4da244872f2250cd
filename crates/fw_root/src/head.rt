//! Of which texts and of which turn bytes are. No call takes memory.
ghost use Rattle.std.specs.Prelude.{◌≡◌, ◌==◌};
ghost use Rattle.std.specs.Int.{w16, w64};
ghost use Rattle.fw_bytes.specs.Fields.{byte_of, number_field};
ghost use Rattle.fw_bytes.specs.Reading.{kept_if, any};
ghost use Rattle.fw_root.specs.Head.{Reads};
ghost use Rattle.fw_root.specs.Reading.{any_bytes, read_digests, read_root_head};
ghost use Rattle.fw_root.specs.Decoding.{IsHeadOf};

use crate::codes::{MAGIC, VERSION};
use crate::fields::digest_at;
use crate::{BadRoot, Digests, Head};
use fw_bytes::{byte_at, u16_at, u64_at};

/// The letters FR, one field.
fn magic_at(bytes: &[u8]) -> Result<(u16, &[u8]), usize>
    ensures { Reads (λ x. (x.0, x.1.now)) result
        (kept_if (λ m. m == 18002) bytes.now (number_field w16 bytes.now)) }
{
    match u16_at(bytes) {
        Some((magic, rest)) if magic == MAGIC => Ok((magic, rest)),
        _ => Err(bytes.len()),
    }
}

/// The version.
fn version_at(bytes: &[u8]) -> Result<(u8, &[u8]), usize>
    ensures { Reads (λ x. (x.0, x.1.now)) result
        (kept_if (λ v. v == 1) bytes.now (byte_of bytes.now)) }
{
    match byte_at(bytes) {
        Some((version, rest)) if version == VERSION => Ok((version, rest)),
        _ => Err(bytes.len()),
    }
}

/// A digest.
fn any_digest(bytes: &[u8]) -> Result<([u8; 32], &[u8]), usize>
    ensures { Reads (λ x. (x.0, x.1.now)) result (any_bytes 32 bytes.now) }
{
    match digest_at(bytes) {
        Some(read) => Ok(read),
        None => Err(bytes.len()),
    }
}

/// The letters, the version and the digests. The error is how many bytes are left from the first broken field on.
#[tactic(auto, unfolding(crate::specs::Reading::read_digests))]
pub fn digests_at(bytes: &[u8]) -> Result<(Digests, &[u8]), usize>
    ensures { Reads (λ x. (x.0, x.1.now)) result (read_digests bytes.now) }
{
    let (_, rest) = magic_at(bytes)?;
    let (_, rest) = version_at(rest)?;
    let (flow, rest) = any_digest(rest)?;
    let (inputs, rest) = any_digest(rest)?;
    let (schedule, rest) = any_digest(rest)?;
    let digests = Digests {
        flow,
        inputs,
        schedule,
    };
    Ok((digests, rest))
}

/// Any number of eight bytes.
fn any_turn(bytes: &[u8]) -> Result<(u64, &[u8]), usize>
    ensures { Reads (λ x. (x.0, x.1.now)) result (any bytes.now (number_field w64 bytes.now)) }
{
    match u64_at(bytes) {
        Some(read) => Ok(read),
        None => Err(bytes.len()),
    }
}

/// The head at the front of the bytes.
#[tactic(auto, unfolding(crate::specs::Reading::read_root_head))]
fn head_at(bytes: &[u8]) -> Result<(Head, &[u8]), usize>
    ensures { Reads (λ x. (x.0, x.1.now)) result (read_root_head bytes.now) }
{
    let (digests, rest) = digests_at(bytes)?;
    let (turn, rest) = any_turn(rest)?;
    Ok((Head { digests, turn }, rest))
}

/// Of which texts and of which turn the bytes are, whatever comes after. A turn may be any number here.
///
/// # Errors
///
/// The place of the first broken field, where the bytes do not begin with the letters, the version, three digests and a turn.
pub fn root_head(bytes: &[u8]) -> Result<Head, BadRoot>
    ensures { IsHeadOf bytes.now result }
{
    match head_at(bytes) {
        Ok((head, _)) => Ok(head),
        Err(left) => Err(BadRoot {
            at: bytes.len() - left,
        }),
    }
}
