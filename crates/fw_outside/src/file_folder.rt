//! A folder of real files.
ghost use Rattle.std.specs.Prelude.{◌≡◌, None};

use crate::fault::one_more;
use crate::{FetchFault, Folder};
use std::io::{ErrorKind, Read};
use std::rt::Files;
use std::{fs, io};

/// The files of the system, a name being a path. It does not tell what they hold.
#[derive(Drop)]
pub struct FileFolder<'a, R: Files> {
    files: &'a R,
    fetches: u64,
    faults: u64,
}

impl<'a, R: Files> FileFolder<'a, R> {
    /// The files that this runtime reaches.
    pub fn new(files: &'a R) -> Self
        ensures unasked { ⟦<FileFolder<'a, R> as Folder>⟧.fetch_count result ≡ 0 }
        ensures faultless { ⟦<FileFolder<'a, R> as Folder>⟧.fault_count result ≡ 0 }
    {
        FileFolder {
            files,
            fetches: 0,
            faults: 0,
        }
    }
}

// Adds the first bytes of a file, at most so many.
fn read_first<R: Files>(files: &R, path: &str, most: u64, into: &mut Vec<u8>) -> io::Result<()> {
    fs::open(files, path)?.take(most).read_to_end(into)?;
    Ok(())
}

impl<R: Files> Folder for FileFolder<'_, R> {
    ghost texts = { λ _. None };

    ghost fetch_count = { λ folder. folder.fetches };

    ghost fault_count = { λ folder. folder.faults };

    /// Reads the first bytes of the file, at most `limit + 1`. A file that cannot be opened or read is a fault.
    fn fetch(&mut self, name: &str, limit: usize, into: &mut Vec<u8>) -> Result<(), FetchFault> {
        self.fetches = one_more(self.fetches);
        into.clear();
        if let Err(error) = read_first(self.files, name, limit as u64 + 1, into) {
            into.clear();
            if error.kind() == ErrorKind::OutOfMemory {
                return Err(FetchFault::NoMemory);
            }
            self.faults = one_more(self.faults);
            return Err(FetchFault::Failed);
        }
        if into.len() > limit {
            into.truncate(limit + 1);
            return Err(FetchFault::TooLarge);
        }
        Ok(())
    }

    /// How many files could not be opened or read.
    fn faults(&self) -> u64 {
        self.faults
    }
}
