//! Files that are opened by name.
ghost use Rattle.std.specs.Prelude.{◌≡◌, ℕ, List, Option, None, Some, IfOk, IfSome};

use std::io::Read;
use std::rt::Files;
use std::{fs, io};

/// Files that are opened by name, to be read.
pub trait NamedFiles {
    /// A file that was opened. It is read from its first byte on.
    type File: Read + Drop;

    /// The bytes of the file under each name, where they are known.
    ghost bytes: { Self → List ℕ → Option (List ℕ) };

    /// Opens the file under this name.
    ///
    /// # Errors
    ///
    /// There is none that can be read, or it is refused.
    fn open(&self, name: &str) -> io::Result<Self::File>
        ensures { IfOk result (λ file. IfSome (bytes self.now name.now) (λ known. Self.File.Read.remaining file ≡ Some known)) };
}

// The files of the system, a name being a path. What they hold is the system's to keep: nothing is known of it.
impl<R: Files> NamedFiles for R {
    type File = R::File;

    ghost bytes = { λ files name. None };

    fn open(&self, name: &str) -> io::Result<R::File> {
        fs::open(self, name)
    }
}
