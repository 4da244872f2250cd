//! The folder of a store, by calls of the system.
ghost use Rattle.std.specs.Prelude.{◌≡◌, ◌⊎◌, ℕ, List, [], ◌∷◌, ◌++◌, map, true, false, Ok, is_ok, IfOk, IfSome, OnOk, OnErr, string_bytes};
ghost use Rattle.std.specs.Io.KnownBytes.{Appends};
ghost use Rattle.fw_disk.specs.KnownFiles.{HasGrown, AreRead};
ghost use Rattle.fw_disk.specs.FolderCalls.{calls_of, made, flushed, linked, renamed, removed, folder_flushed, is_run, IsRefused, IsNotRenamed, EndsInRemoval, IsLonger, AreOfRun, AreBesideRun};
ghost use Rattle.fw_disk.specs.Names.{AreNamesRead};
ghost use Rattle.fw_disk.specs.Paths.{path_of};
ghost use Rattle.fw_disk.specs.declared.cause.DiskPlace.TheVariants.{Record, Beside};
ghost use Rattle.fw_disk.specs.PowerLoss.{Disk, AtEachMoment, HasBytes};
ghost use Rattle.fw_disk.specs.Survival.{IsOld, IsOldOrNew, IsBesideFlushed, IsNamed};

use crate::call_notes::CallNotes;
use crate::cause::{DiskPlace, DiskRefusal, Trouble};
use crate::names::{names_of_digits, read_names};
use std::alloc::{AllocError, Global};
use std::fs::{self, File, Metadata, OpenFile, OpenOptions, TryLockError};
use std::io::{self, ErrorKind, Read, Write};
use std::os::unix::fs::MetadataExt;
use std::rt::Files;

/// A folder of real files. Each call that may change what is in it is noted with its answer.
#[derive(Drop)]
pub(crate) struct Folder<'a, R: Files> {
    alloc: Global,
    files: &'a R,
    name: String,
    calls: CallNotes,
}

impl<'a, R: Files> Folder<'a, R> {
    /// The folder of this name, which no call has reached yet.
    pub(crate) fn new(alloc: Global, files: &'a R, name: String) -> Self
        ensures { calls_of result.calls ≡ [] }
    {
        Folder {
            alloc,
            files,
            name,
            calls: CallNotes::new(),
        }
    }

    /// The folder's name.
    pub(crate) fn name(&self) -> &str {
        &self.name
    }

    /// Where the memory comes from.
    pub(crate) fn alloc(&self) -> Global {
        self.alloc
    }

    // The path of a place. That of the folder ends in a slash, so that nothing but a folder is opened by it.
    fn path(&self, place: DiskPlace) -> Result<String, AllocError>
        ensures { IfOk result (λ path. string_bytes path ≡ path_of (string_bytes self.now.name) place) }
    {
        let mut path = String::from_str(self.alloc, &self.name)?;
        path.push('/')?;
        match place {
            DiskPlace::Folder => {}
            DiskPlace::Record(id) => path.push_str(&format!(in self.alloc; "{id}")?)?,
            DiskPlace::Beside(id) => path.push_str(&format!(in self.alloc; "{id}.new")?)?,
            DiskPlace::Run => path.push_str("run")?,
            DiskPlace::RunBeside => path.push_str("run.new")?,
        }
        Ok(path)
    }

    // A new file with these bytes.
    fn new_file(&self, place: DiskPlace, bytes: &[u8]) -> Result<R::File, DiskRefusal>
        ensures { IfOk result (λ file. HasGrown R.File.Write.contents file bytes.now) }
    {
        let path = self.path(place)?;
        let made = OpenOptions::new()
            .write(true)
            .create_new(true)
            .open(self.files, path.as_str());
        let mut file = answered(place, made)?;
        answered(place, write_whole(&mut file, bytes))?;
        Ok(file)
    }

    // A file, with these bytes written behind its own.
    fn longer_file(&self, place: DiskPlace, bytes: &[u8]) -> Result<R::File, DiskRefusal>
        ensures { IfOk result (λ file. HasGrown R.File.Write.contents file bytes.now) }
    {
        let path = self.path(place)?;
        let opened = OpenOptions::new()
            .append(true)
            .open(self.files, path.as_str());
        let mut longer = answered(place, opened)?;
        answered(place, write_whole(&mut longer, bytes))?;
        Ok(longer)
    }

    // Flushes the bytes of a file that was written.
    fn flush_file(&mut self, place: DiskPlace, file: &R::File) -> Result<(), DiskRefusal>
        ensures { calls_of self.new.calls ≡ flushed place (is_ok result) ∷ calls_of self.old.calls }
    {
        let done = answered(place, file.sync_all());
        self.calls.flushed(place, done.is_ok());
        done
    }

    // Makes a file that is not there, with these bytes.
    fn create(&mut self, place: DiskPlace, bytes: &[u8]) -> Result<R::File, DiskRefusal>
        ensures { calls_of self.new.calls ≡ made place bytes.now (is_ok result) ∷ calls_of self.old.calls }
    {
        let file = self.new_file(place, bytes);
        self.calls.made(place, bytes, &file);
        file
    }

    /// Makes a file that is not there, with these bytes, and flushes it to the disk.
    pub(crate) fn make(&mut self, place: DiskPlace, bytes: &[u8]) -> Result<(), DiskRefusal>
        ensures done { OnOk result (calls_of self.new.calls ≡ flushed place true ∷ made place bytes.now true ∷ calls_of self.old.calls) }
        ensures refused { OnErr result (IsRefused place bytes.now (calls_of self.old.calls) (calls_of self.new.calls)) }
    {
        let made = self.create(place, bytes)?;
        self.flush_file(place, &made)
    }

    /// Writes bytes behind those of a file, and flushes them if they are to be.
    pub(crate) fn append(
        &mut self,
        place: DiskPlace,
        bytes: &[u8],
        flushes: bool,
    ) -> Result<(), DiskRefusal>
        ensures of_run { is_run place ≡ true → AreOfRun (calls_of self.old.calls) (calls_of self.new.calls) }
        ensures longer { OnOk result (IsLonger flushes place bytes.now (calls_of self.old.calls) (calls_of self.new.calls)) }
        // Where the file had bytes that are known, it has those and these behind them.
        ensures bytes { OnOk result ((start : Disk) (before : List ℕ) → HasBytes start (calls_of self.old.calls) place before
            → HasBytes start (calls_of self.new.calls) place (before ++ bytes.now)) }
    {
        let longer = self.longer_file(place, bytes);
        self.calls.appended(place, bytes, &longer);
        let file = longer?;
        if !flushes {
            return Ok(());
        }
        self.flush_file(place, &file)
    }

    // The system's call that gives a file a second name.
    fn do_link(&self, from: DiskPlace, to: DiskPlace) -> Result<(), DiskRefusal> {
        let (beside, named) = (self.path(from)?, self.path(to)?);
        answered(
            to,
            fs::hard_link(self.files, beside.as_str(), named.as_str()),
        )
    }

    // Gives a file a second name that is not there.
    fn link(&mut self, from: DiskPlace, to: DiskPlace) -> Result<(), DiskRefusal>
        ensures { calls_of self.new.calls ≡ linked from to (is_ok result) ∷ calls_of self.old.calls }
    {
        let done = self.do_link(from, to);
        self.calls.linked(from, to, done.is_ok());
        done
    }

    /// Gives the file beside the name of the record, which is not there. Where the file system has no second names, the name is taken
    /// by an empty file first, and then the file is renamed.
    pub(crate) fn give_name(&mut self, id: u64) -> Result<(), DiskRefusal>
        ensures any_moment { (start : Disk) (contents : List ℕ) → IsBesideFlushed id contents start (calls_of self.old.calls) → AtEachMoment (IsOldOrNew id contents start (calls_of self.old.calls)) (calls_of self.old.calls) (calls_of self.new.calls) }
        ensures named { OnOk result ((start : Disk) (contents : List ℕ) → IsBesideFlushed id contents start (calls_of self.old.calls) → IsNamed id contents start (calls_of self.new.calls)) }
        ensures beside { AreBesideRun (calls_of self.old.calls) (calls_of self.new.calls) }
    {
        match self.link(DiskPlace::Beside(id), DiskPlace::Record(id)) {
            Ok(()) => Ok(()),
            Err(refusal) => {
                if refusal.is_of_second_names() {
                    self.take_name(id)
                } else {
                    Err(refusal)
                }
            }
        }
    }

    // Takes the name of a record by an empty file, and gives it to the file beside. Where that is refused the empty file goes again.
    fn take_name(&mut self, id: u64) -> Result<(), DiskRefusal>
        ensures any_moment { (start : Disk) (contents : List ℕ) → IsBesideFlushed id contents start (calls_of self.old.calls) → AtEachMoment (IsOldOrNew id contents start (calls_of self.old.calls)) (calls_of self.old.calls) (calls_of self.new.calls) }
        ensures named { OnOk result ((start : Disk) (contents : List ℕ) → IsBesideFlushed id contents start (calls_of self.old.calls) → IsNamed id contents start (calls_of self.new.calls)) }
        // Where it took the name and did not give it, it tried to take it away again.
        ensures undone { OnErr result ((calls_of self.new.calls ≡ made (Record id) [] false ∷ calls_of self.old.calls) ⊎ EndsInRemoval (Record id) (calls_of self.new.calls)) }
        ensures beside { AreBesideRun (calls_of self.old.calls) (calls_of self.new.calls) }
    {
        let file = self.create(DiskPlace::Record(id), &[])?;
        match self.rename_over(id, &file) {
            Ok(()) => Ok(()),
            Err(refusal) => {
                let _ = self.remove(DiskPlace::Record(id));
                Err(refusal)
            }
        }
    }

    // Flushes the empty file that has the name of a record, and gives the name to the file beside.
    fn rename_over(&mut self, id: u64, file: &R::File) -> Result<(), DiskRefusal>
        ensures done { OnOk result (calls_of self.new.calls ≡ renamed (Beside id) (Record id) true ∷ flushed (Record id) true ∷ calls_of self.old.calls) }
        ensures refused { OnErr result (IsNotRenamed id (calls_of self.old.calls) (calls_of self.new.calls)) }
    {
        self.flush_file(DiskPlace::Record(id), file)?;
        self.rename(DiskPlace::Beside(id), DiskPlace::Record(id))
    }

    // The system's call that renames a file.
    fn do_rename(&self, from: DiskPlace, to: DiskPlace) -> Result<(), DiskRefusal> {
        let (beside, named) = (self.path(from)?, self.path(to)?);
        answered(to, fs::rename(self.files, beside.as_str(), named.as_str()))
    }

    /// Renames a file, in place of what has the name.
    pub(crate) fn rename(&mut self, from: DiskPlace, to: DiskPlace) -> Result<(), DiskRefusal>
        ensures { calls_of self.new.calls ≡ renamed from to (is_ok result) ∷ calls_of self.old.calls }
    {
        let done = self.do_rename(from, to);
        self.calls.renamed(from, to, done.is_ok());
        done
    }

    // The system's call that takes a file away.
    fn do_remove(&self, place: DiskPlace) -> Result<(), DiskRefusal> {
        let path = self.path(place)?;
        fs::remove_file(self.files, path.as_str()).map_err(|error| DiskRefusal::of_record(
            place, error,
        ))
    }

    /// Takes a file away.
    pub(crate) fn remove(&mut self, place: DiskPlace) -> Result<(), DiskRefusal>
        ensures { calls_of self.new.calls ≡ removed place (is_ok result) ∷ calls_of self.old.calls }
    {
        let done = self.do_remove(place);
        self.calls.removed(place, done.is_ok());
        done
    }

    /// Whether a file is there.
    pub(crate) fn has(&self, place: DiskPlace) -> Result<bool, DiskRefusal>
        // One that is told to be there was opened.
        ensures { IfOk result (λ there. there ≡ true → R.File) }
    {
        let path = self.path(place)?;
        match fs::open(self.files, path.as_str()) {
            Ok(_) => Ok(true),
            Err(error) => match error.kind() {
                ErrorKind::NotFound => Ok(false),
                _ => Err(DiskRefusal::of(place, error)),
            },
        }
    }

    // Whether a file has no bytes.
    fn is_empty(&self, place: DiskPlace) -> Result<bool, DiskRefusal> {
        let path = self.path(place)?;
        let there = answered(place, fs::metadata(self.files, path.as_str()))?;
        Ok(there.is_file() && there.len() == 0)
    }

    /// Takes the file of a record away if it has no bytes. Whether it had none.
    pub(crate) fn remove_empty(&mut self, id: u64) -> Result<bool, DiskRefusal>
        ensures { (start : Disk) → AtEachMoment (IsOld start (calls_of self.old.calls)) (calls_of self.old.calls) (calls_of self.new.calls) }
    {
        if !self.is_empty(DiskPlace::Record(id))? {
            return Ok(false);
        }
        self.calls.seen_empty(DiskPlace::Record(id));
        self.remove(DiskPlace::Record(id))?;
        Ok(true)
    }

    /// The bytes of a file.
    pub(crate) fn read(&self, place: DiskPlace) -> Result<Vec<u8>, DiskRefusal>
        ensures { IfOk result (λ bytes. AreRead R.File.Read.remaining bytes.items) }
    {
        let path = self.path(place)?;
        let mut file = fs::open(self.files, path.as_str()).map_err(|error| DiskRefusal::of_record(
            place, error,
        ))?;
        read_whole(self.alloc, &mut file).map_err(|error| DiskRefusal::of_record(place, error))
    }

    // The system's calls that flush the names.
    fn do_flush(&self) -> Result<(), DiskRefusal> {
        let path = self.path(DiskPlace::Folder)?;
        let folder = answered(DiskPlace::Folder, fs::open(self.files, path.as_str()))?;
        answered(DiskPlace::Folder, folder.sync_all())
    }

    /// Flushes the names of the folder's files to the disk.
    pub(crate) fn flush(&mut self) -> Result<(), DiskRefusal>
        ensures { calls_of self.new.calls ≡ folder_flushed (is_ok result) ∷ calls_of self.old.calls }
    {
        let done = self.do_flush();
        self.calls.folder_flushed(done.is_ok());
        done
    }

    // What the folder gives as it is read: its names, each with a zero byte behind it.
    fn listed(&self) -> Result<Vec<u8>, DiskRefusal>
        ensures { IfOk result (λ read. AreRead R.Dir.Read.remaining read.items) }
    {
        let path = self.path(DiskPlace::Folder)?;
        let mut dir = answered(DiskPlace::Folder, self.files.open_dir(path.as_str()))?;
        answered(DiskPlace::Folder, read_names(self.alloc, &mut dir))
    }

    /// The names of digits alone in the folder, ascending by number.
    pub(crate) fn record_names(&self) -> Result<Vec<String>, DiskRefusal>
        ensures { IfOk result (λ names. AreNamesRead R.Dir.Read.remaining (map string_bytes names.items)) }
    {
        let read = self.listed()?;
        let mut names = names_of_digits(self.alloc, &read)?;
        names.sort_unstable_by(|x, y| x.len().cmp(&y.len()).then(x.cmp(y)));
        Ok(names)
    }
}

impl<R: Files<File = File>> Folder<'_, R> {
    /// The folder, opened and locked for as long as the handle is there.
    pub(crate) fn lock(&self) -> Result<File, DiskRefusal> {
        let path = self.path(DiskPlace::Folder)?;
        let folder = answered(DiskPlace::Folder, fs::open(self.files, path.as_str()))?;
        match folder.try_lock() {
            Ok(()) => Ok(folder),
            Err(TryLockError::WouldBlock) => Err(DiskRefusal::at(
                DiskPlace::Folder,
                Trouble::Locked,
            )),
            Err(TryLockError::Error(error)) => Err(DiskRefusal::of(DiskPlace::Folder, error)),
        }
    }

    /// Whether the folder that is there is the one of a handle.
    pub(crate) fn is_that_of(&self, handle: &File) -> Result<bool, DiskRefusal> {
        let path = self.path(DiskPlace::Folder)?;
        let there = answered(DiskPlace::Folder, fs::metadata(self.files, path.as_str()))?;
        let locked = answered(DiskPlace::Folder, OpenFile::metadata(handle))?;
        Ok(is_same_node(&there, &locked))
    }
}

// What the system answered to a call at a place, with what it refused as the refusal of that place.
fn answered<T: Drop>(place: DiskPlace, answer: io::Result<T>) -> Result<T, DiskRefusal>
    ensures { IfOk result (λ value. answer ≡ Ok value) }
{
    match answer {
        Ok(value) => Ok(value),
        Err(error) => Err(DiskRefusal::of(place, error)),
    }
}

// Writes all of the bytes: a file that tells its bytes has these more then.
fn write_whole<W: Write>(file: &mut W, bytes: &[u8]) -> io::Result<()>
    ensures { OnOk result (Appends (W.contents file.old) (W.contents file.new) bytes.now) }
{
    file.write_all(bytes)
}

// Reads a file to its end: of one that tells its bytes, all that are left.
fn read_whole<F: Read>(alloc: Global, file: &mut F) -> io::Result<Vec<u8>>
    ensures { IfOk result (λ read. IfSome (F.remaining file.old) (λ bytes. read.items ≡ bytes)) }
{
    let mut bytes = Vec::new(alloc);
    file.read_to_end(&mut bytes)?;
    Ok(bytes)
}

// Whether two files are one.
fn is_same_node(x: &Metadata, y: &Metadata) -> bool {
    x.dev() == y.dev() && x.ino() == y.ino()
}
