//! Why a call of the store failed.
ghost use Rattle.std.specs.Prelude.{◌≡◌, false, IsTrue, ◌↔◌};
ghost use Rattle.std.specs.IoError.{error_kind};
ghost use Rattle.fw_disk.specs.Causes as causes;
ghost use Rattle.fw_disk.specs.declared.cause.DiskRefusal.TheVariants.{NoMemory};

use crate::Difference;
use std::alloc::{AllocError, AllocFailed};
use std::fmt;
use std::io::{self, ErrorKind};

/// The folder, or a file in it.
#[derive(Clone, Copy)]
pub enum DiskPlace {
    /// The folder itself.
    Folder,
    /// The file of the record under an id.
    Record(u64),
    /// The file beside it, in which the record is written first.
    Beside(u64),
    /// The file that has a line for each record.
    Run,
    /// The file beside that one, in which it is written anew.
    RunBeside,
}

/// What is wrong at a place.
#[derive(Clone, Copy)]
pub enum Trouble {
    /// The system refused a call.
    System(io::Error),
    /// Another process has the folder.
    Locked,
    /// The folder holds a record of an earlier run.
    Used,
    /// Another folder stands there than the one that this run began in.
    Moved,
    /// The record is not there.
    Gone,
    /// The file is none of a record.
    Differs(Difference),
    /// The file is that of another record than this run put there.
    Foreign,
    /// A file is there, and no record of this run.
    Stray,
}

/// Why a call of the system was of no use.
#[derive(Clone, Copy)]
pub struct DiskCause {
    /// Where.
    pub place: DiskPlace,
    /// What is wrong there.
    pub trouble: Trouble,
}

/// Why a call was refused.
#[derive(Clone, Copy)]
pub enum DiskRefusal {
    /// The files failed, or hold no record.
    Failed(DiskCause),
    /// There was no memory.
    NoMemory,
}

/// A call of the store.
#[derive(Clone, Copy)]
pub enum DiskCall {
    /// `put`.
    Put,
    /// `get`.
    Get,
    /// `has`.
    Has,
    /// `remove`.
    Remove,
}

/// A call that failed, and why.
#[derive(Clone, Copy)]
pub struct Fault {
    /// The call.
    pub call: DiskCall,
    /// The id that it was for.
    pub id: u64,
    /// Why it failed.
    pub cause: DiskCause,
}

impl DiskRefusal {
    /// Something is wrong at a place.
    pub(crate) const fn at(place: DiskPlace, trouble: Trouble) -> Self
        ensures { causes.tells_gone result ≡ causes.is_gone trouble }
    {
        DiskRefusal::Failed(DiskCause { place, trouble })
    }

    /// The system refused a call at a place.
    pub(crate) fn of(place: DiskPlace, error: io::Error) -> Self
        ensures { causes.tells_gone result ≡ false }
    {
        match error.kind() {
            ErrorKind::OutOfMemory => DiskRefusal::NoMemory,
            _ => DiskRefusal::at(place, Trouble::System(error)),
        }
    }

    /// The system refused a call on the file of a record, which may be gone.
    pub(crate) fn of_record(place: DiskPlace, error: io::Error) -> Self
        // That it is gone is told exactly where the system says that there is no such file.
        ensures { IsTrue (causes.tells_gone result) ↔ (error_kind error ≡ ErrorKind.NotFound) }
    {
        match error.kind() {
            ErrorKind::NotFound => DiskRefusal::at(place, Trouble::Gone),
            _ => DiskRefusal::of(place, error),
        }
    }

    /// Whether the file system has no second names for files.
    pub(crate) fn is_of_second_names(&self) -> bool {
        match self {
            DiskRefusal::Failed(
                DiskCause {
                    trouble: Trouble::System(error),
                    ..
                },
            ) => matches!(
                error.kind(),
                ErrorKind::PermissionDenied | ErrorKind::Unsupported
            ),
            _ => false,
        }
    }

    /// The cause of a refusal by a call at a place that does not answer want of memory by itself.
    pub(crate) fn cause(self, place: DiskPlace) -> DiskCause {
        match self {
            DiskRefusal::Failed(cause) => cause,
            DiskRefusal::NoMemory => DiskCause {
                place,
                trouble: Trouble::System(io::Error::from(ErrorKind::OutOfMemory)),
            },
        }
    }
}

impl Trouble {
    /// Whether a file is not there.
    pub fn is_gone(&self) -> bool
        ensures { result ≡ causes.is_gone self.now }
    {
        match self {
            Trouble::Gone => true,
            _ => false,
        }
    }

    /// Whether the bytes of a file are not those of the record that it should have.
    pub(crate) fn is_of_bytes(&self) -> bool {
        match self {
            Trouble::Differs(_) | Trouble::Foreign => true,
            _ => false,
        }
    }
}

impl From<AllocError> for DiskRefusal {
    ghost from_gives = { λ _ e. e ≡ NoMemory };

    fn from(_: AllocError) -> Self {
        DiskRefusal::NoMemory
    }
}

impl<T: Drop> From<AllocFailed<T>> for DiskRefusal {
    ghost from_gives = { λ _ e. e ≡ NoMemory };

    fn from(_: AllocFailed<T>) -> Self {
        DiskRefusal::NoMemory
    }
}

impl fmt::Display for DiskCall {
    fn fmt<W: fmt::Write>(&self, f: &mut fmt::Formatter<W>) -> fmt::Result {
        f.write_str(match self {
            DiskCall::Put => "put",
            DiskCall::Get => "get",
            DiskCall::Has => "has",
            DiskCall::Remove => "remove",
        })
    }
}

impl fmt::Display for DiskPlace {
    fn fmt<W: fmt::Write>(&self, f: &mut fmt::Formatter<W>) -> fmt::Result {
        match self {
            DiskPlace::Folder => Ok(()),
            DiskPlace::Record(id) => write!(f, "/{id}"),
            DiskPlace::Beside(id) => write!(f, "/{id}.new"),
            DiskPlace::Run => write!(f, "/run"),
            DiskPlace::RunBeside => write!(f, "/run.new"),
        }
    }
}

impl fmt::Display for Trouble {
    fn fmt<W: fmt::Write>(&self, f: &mut fmt::Formatter<W>) -> fmt::Result {
        match self {
            Trouble::System(error) => write!(f, "{error}"),
            Trouble::Locked => f.write_str("another process works in this folder"),
            Trouble::Used => f.write_str(
                "a record of an earlier run, and a run wants a folder without records",
            ),
            Trouble::Moved => f.write_str("not the folder that this run began in"),
            Trouble::Gone => f.write_str("gone"),
            Trouble::Differs(Difference::Short) => f.write_str("too short for its record"),
            Trouble::Differs(Difference::Long) => f.write_str("too long for its record"),
            Trouble::Differs(Difference::Digest) => f.write_str(
                "its digest is not that of its bytes",
            ),
            Trouble::Foreign => f.write_str(
                "not the record that this run wrote there, by its digest",
            ),
            Trouble::Stray => f.write_str("a file that no record of this run has"),
        }
    }
}
