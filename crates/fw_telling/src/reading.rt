//! What came of reading a file.
ghost use Rattle.std.specs.Prelude.{◌≡◌, ◌++◌, ◌+◌, ◌^◌, ◌<◌, ◌≤◌, [], Some, take, length, IfOk, IfSome, OnOk, IsErrOf, IsSomeAnd};
ghost use Rattle.fw_telling.specs.Read.{IsAllOf, IsReadingOf, MayComeOf, bytes_read};

use crate::NamedFiles;
use fw_outside::FetchFault;
use std::alloc::Global;
use std::io;
use std::io::{ErrorKind, Read};

/// What came of reading a file.
#[derive(Debug, Drop)]
pub(crate) enum Reading {
    /// All of its bytes.
    Whole(Vec<u8>),
    /// Its first bytes, of a file that has more than the limit: one more than the limit.
    Beginning(Vec<u8>),
    /// It could not be opened or read.
    Failed,
    /// There was no memory for it.
    NoMemory,
}

/// Reads the file under a name, and no more of it than one byte behind the limit.
#[tactic(auto, using(crate::proofs::Known::read_nothing))]
pub(crate) fn read_text<T: NamedFiles>(
    alloc: Global,
    files: &T,
    name: &str,
    limit: usize,
) -> Reading
    requires { limit < 2 ^ 32 }
    ensures { IfSome (T.bytes files.now name.now) (λ bytes. MayComeOf limit bytes result) }
{
    match open_and_read(alloc, files, name, limit) {
        Ok(reading) => reading,
        Err(error) if error.kind() == ErrorKind::OutOfMemory => Reading::NoMemory,
        Err(_) => Reading::Failed,
    }
}

// Opens the file under a name, and reads it.
fn open_and_read<T: NamedFiles>(
    alloc: Global,
    files: &T,
    name: &str,
    limit: usize,
) -> io::Result<Reading>
    requires { limit < 2 ^ 32 }
    ensures { IfOk result (λ reading. IfSome (T.bytes files.now name.now) (λ bytes. IsReadingOf limit bytes reading)) }
{
    read_file(alloc, files.open(name)?, limit)
}

// Reads a file, where it tells its bytes all of them, or one more than the limit.
#[tactic(auto, using(crate::proofs::Beginnings::take_short))]
fn read_file<F: Read + Drop>(alloc: Global, file: F, limit: usize) -> io::Result<Reading>
    requires { limit < 2 ^ 32 }
    ensures { IfOk result (λ reading. IfSome (F.remaining file) (λ bytes. IsReadingOf limit bytes reading)) }
{
    let mut bytes = Vec::new(alloc);
    file.take(limit as u64 + 1).read_to_end(&mut bytes)?;
    if bytes.len() <= limit {
        Ok(Reading::Whole(bytes))
    } else {
        Ok(Reading::Beginning(bytes))
    }
}

/// Adds what was read to an empty list, or its first bytes where it is longer than the limit. Of a file that was not read to its end
/// no more is known, so that within the limit it is a failure.
pub(crate) fn hand_over(
    reading: &Reading,
    limit: usize,
    into: &mut Vec<u8>,
) -> Result<(), FetchFault>
    requires limit { limit < 2 ^ 32 }
    requires empty { into.old.items ≡ [] }
    ensures all { OnOk result (IsAllOf reading.now into.new.items) }
    ensures whole { OnOk result (bytes_read reading.now ≡ Some into.new.items) }
    ensures within { OnOk result (length into.new.items ≤ limit) }
    ensures too_large { IsErrOf result FetchFault.TooLarge → IsSomeAnd (bytes_read reading.now) (λ bytes. (limit < length bytes) × (into.new.items ≡ take (limit + 1) bytes)) }
    ensures cut { IsErrOf result FetchFault.TooLarge → length into.new.items ≡ limit + 1 }
    ensures failed_empty { IsErrOf result FetchFault.Failed → into.new.items ≡ [] }
    ensures no_memory_empty { IsErrOf result FetchFault.NoMemory → into.new.items ≡ [] }
{
    match reading {
        Reading::Whole(bytes) => {
            if bytes.len() > limit {
                return hand_beginning(bytes, limit, into);
            }
            into.extend_from_slice(bytes)?;
            Ok(())
        }
        Reading::Beginning(bytes) if bytes.len() > limit => hand_beginning(bytes, limit, into),
        Reading::Beginning(_) | Reading::Failed => Err(FetchFault::Failed),
        Reading::NoMemory => Err(FetchFault::NoMemory),
    }
}

// Adds one byte more than the limit to an empty list.
fn hand_beginning(bytes: &[u8], limit: usize, into: &mut Vec<u8>) -> Result<(), FetchFault>
    requires longer { limit < length bytes.now }
    requires empty { into.old.items ≡ [] }
    ensures beginning { IsErrOf result FetchFault.TooLarge → into.new.items ≡ take (limit + 1) bytes.now }
    ensures cut { IsErrOf result FetchFault.TooLarge → length into.new.items ≡ limit + 1 }
    ensures never_whole { OnOk result ⊥ }
    ensures never_failed { IsErrOf result FetchFault.Failed → ⊥ }
    ensures no_memory_empty { IsErrOf result FetchFault.NoMemory → into.new.items ≡ [] }
{
    into.extend_from_slice(&bytes[..limit + 1])?;
    Err(FetchFault::TooLarge)
}
