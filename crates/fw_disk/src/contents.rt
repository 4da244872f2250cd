//! The contents of a record's file.
ghost use Rattle.std.specs.Prelude.{◌≡◌, ◌++◌, ℕ, List, IfOk, IsErr, IfSome, IsNone, ◌<◌, length};
ghost use Rattle.fw_disk.specs.Contents.{contents_of};

use sha2::{Digest, Sha256};
use std::alloc::{AllocError, Global};

/// How many bytes tell the length.
const LENGTH: usize = 8;

/// How many bytes a digest has.
const DIGEST: usize = 32;

/// What keeps a file from being one of a record.
#[derive(Clone, Copy)]
pub enum Difference {
    /// It has fewer bytes than its length says, or too few for a length and a digest.
    Short,
    /// It has more bytes than its length says.
    Long,
    /// Its digest is not that of its bytes.
    Digest,
}

/// The contents of the file of a record. The error is want of memory.
pub(crate) fn contents_of(alloc: Global, bytes: &[u8]) -> Result<Vec<u8>, AllocError>
    ensures { IfOk result (λ contents. contents.items ≡ contents_of bytes.now) }
{
    let mut contents = Vec::new(alloc);
    contents.reserve(bytes.len().saturating_add(LENGTH + DIGEST))?;
    contents.extend_from_slice(&(bytes.len() as u64).to_le_bytes())?;
    contents.extend_from_slice(bytes)?;
    contents.extend_from_slice(&Sha256::digest(bytes))?;
    Ok(contents)
}

/// The bytes of the record whose file has these contents, or what differs.
pub(crate) fn record_in(contents: &[u8]) -> Result<&[u8], Difference>
    ensures { IfOk result (λ bytes. contents.now ≡ contents_of bytes.now) }
{
    let Some((length, rest)) = contents.split_at_checked(LENGTH) else {
        return Err(Difference::Short);
    };
    let Some((bytes, digest)) = split_last(rest, DIGEST) else {
        return Err(Difference::Short);
    };
    if length != (bytes.len() as u64).to_le_bytes().as_slice() {
        return Err(other_length(length, bytes));
    }
    if digest != Sha256::digest(bytes).as_slice() {
        return Err(Difference::Digest);
    }
    Ok(bytes)
}

// What differs where these first eight bytes do not tell how many bytes there are.
fn other_length(length: &[u8], bytes: &[u8]) -> Difference {
    match <[u8; LENGTH]>::try_from(length) {
        Ok(length) if u64::from_le_bytes(length) < bytes.len() as u64 => Difference::Long,
        _ => Difference::Short,
    }
}

// So many last bytes, and those before them; none where there are fewer.
fn split_last(bytes: &[u8], count: usize) -> Option<(&[u8], &[u8])>
    ensures parts { IfSome result (λ parts. bytes.now ≡ parts.0.now ++ parts.1.now) }
    ensures fewer { IsNone result → length bytes.now < count }
{
    if bytes.len() < count {
        return None;
    }
    Some(bytes.split_at(bytes.len() - count))
}
