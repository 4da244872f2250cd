//! A folder of files that were read.
ghost use Rattle.std.specs.Prelude.{◌≡◌, ◌+◌, ◌^◌, ◌<◌, ◌≤◌, ℕ, List, [], ◌∷◌, ◌++◌, map, Some, IfOk, OnOk, IsErrOf, IsSome, IsSomeAnd, length, take};
ghost use Rattle.std.specs.Option.{option_copied};
ghost use Rattle.fw_telling.specs.Read.{AreTextsOf, reading_under, text_read};

use crate::NamedFiles;
use crate::reading::{Reading, hand_over, read_text};
use fw_outside::{FetchFault, Folder};
use std::alloc::{AllocError, Global};

/// A file's name, and what came of reading it.
#[derive(Debug, Drop)]
struct ReadText {
    name: String,
    reading: Reading,
}

/// Files of the system, a name being a path, each of which was read once, when the folder was made. It tells what reading them
/// answered; that this is what they hold is the system's to keep.
#[derive(Debug, Drop)]
pub struct ReadFolder {
    texts: Vec<ReadText>,
    fetches: u64,
    faults: u64,
}

impl ReadFolder {
    /// Reads the file of each name, and no more of it than one byte behind the limit. A file that can't be read is a fault of each call
    /// that asks for it, and so is one that is longer than this limit, where the call would take more of it.
    ///
    /// # Errors
    ///
    /// Memory was refused for the names. Where it is refused for the bytes of a file, each call that asks for them answers so.
    pub fn read<T: NamedFiles>(
        alloc: Global,
        files: &T,
        names: &[&str],
        limit: usize,
    ) -> Result<Self, AllocError>
        requires { limit < 2 ^ 32 }
        ensures texts { IfOk result (λ folder. AreTextsOf (T.bytes files.now) limit (map (λ name. name.now) names.now) folder.texts.items) }
        ensures tells { IfOk result (λ folder. IsSome (⟦<ReadFolder as Folder>⟧.texts folder)) }
        ensures unasked { IfOk result (λ folder. ⟦<ReadFolder as Folder>⟧.fetch_count folder ≡ 0) }
        ensures faultless { IfOk result (λ folder. ⟦<ReadFolder as Folder>⟧.fault_count folder ≡ 0) }
    {
        let texts = read_each(alloc, files, names, limit)?;
        Ok(ReadFolder {
            texts,
            fetches: 0,
            faults: 0,
        })
    }
}

// Reads the file of each name, once.
fn read_each<T: NamedFiles>(
    alloc: Global,
    files: &T,
    names: &[&str],
    limit: usize,
) -> Result<Vec<ReadText>, AllocError>
    requires { limit < 2 ^ 32 }
    ensures { IfOk result (λ texts. AreTextsOf (T.bytes files.now) limit (map (λ name. name.now) names.now) texts.items) }
{
    let mut texts = Vec::new(alloc);
    for name in names {
        read_once(alloc, files, name, limit, &mut texts)?;
    }
    Ok(texts)
}

// Reads the file of this name, where that was not done.
fn read_once<T: NamedFiles>(
    alloc: Global,
    files: &T,
    name: &str,
    limit: usize,
    texts: &mut Vec<ReadText>,
) -> Result<(), AllocError>
    requires { limit < 2 ^ 32 }
    ensures { (names : List (List ℕ)) → AreTextsOf (T.bytes files.now) limit names texts.old.items
        → OnOk result (AreTextsOf (T.bytes files.now) limit (names ++ name.now ∷ []) texts.new.items) }
{
    if find_reading(texts, name).is_some() {
        return Ok(());
    }
    let text = ReadText {
        name: String::from_str(alloc, name)?,
        reading: read_text(alloc, files, name, limit),
    };
    texts.push(text)?;
    Ok(())
}

// What came of reading the first file of this name.
fn find_reading<'a>(texts: &'a [ReadText], name: &str) -> Option<&'a Reading>
    ensures { option_copied result ≡ reading_under texts.now name.now }
{
    let text = texts.iter().find(|text| text.name.as_str() == name)?;
    Some(&text.reading)
}

// Adds what was read of the file of this name to an empty list, or its first bytes where it is longer than the limit.
fn copy_text(
    texts: &[ReadText],
    name: &str,
    limit: usize,
    into: &mut Vec<u8>,
) -> Result<(), FetchFault>
    requires limit { limit < 2 ^ 32 }
    requires empty { into.old.items ≡ [] }
    ensures whole { OnOk result (text_read texts.now name.now ≡ Some into.new.items) }
    ensures within { OnOk result (length into.new.items ≤ limit) }
    ensures too_large { IsErrOf result FetchFault.TooLarge → IsSomeAnd (text_read texts.now name.now) (λ bytes. (limit < length bytes) × (into.new.items ≡ take (limit + 1) bytes)) }
    ensures cut { IsErrOf result FetchFault.TooLarge → length into.new.items ≡ limit + 1 }
    ensures failed_empty { IsErrOf result FetchFault.Failed → into.new.items ≡ [] }
    ensures no_memory_empty { IsErrOf result FetchFault.NoMemory → into.new.items ≡ [] }
{
    match find_reading(texts, name) {
        Some(reading) => hand_over(reading, limit, into),
        None => Err(FetchFault::Failed),
    }
}

impl Folder for ReadFolder {
    ghost texts = { λ folder. Some (text_read folder.texts.items) };

    ghost fetch_count = { λ folder. folder.fetches };

    ghost fault_count = { λ folder. folder.faults };

    /// Copies what was read. Nothing is asked of the system.
    fn fetch(&mut self, name: &str, limit: usize, into: &mut Vec<u8>) -> Result<(), FetchFault> {
        self.fetches = self.fetches.saturating_add(1);
        into.clear();
        let fetched = copy_text(&self.texts, name, limit, into);
        if fetched == Err(FetchFault::Failed) {
            self.faults = self.faults.saturating_add(1);
        }
        fetched
    }

    /// How many calls asked for a file that could not be read.
    fn faults(&self) -> u64 {
        self.faults
    }
}
