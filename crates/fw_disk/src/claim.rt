//! The folder as one run has it.
ghost use Rattle.std.specs.Prelude.{◌≡◌, ℕ, ◌<◌, true, [], ◌∷◌, None, IsTrue, IsSome, IfOk, IfErr, IfSome, OnOk, OnErr, string_bytes};
ghost use Rattle.sha2.specs.Sha256.{sha256};
ghost use Rattle.fw_disk.specs.Causes.{tells_gone};
ghost use Rattle.fw_disk.specs.FolderCalls.{calls_of, folder_flushed, AreOfRun};
ghost use Rattle.fw_disk.specs.KnownFiles.{IsRunText, IsRecordRead, IsDigestFound};
ghost use Rattle.fw_disk.specs.Names.{HoldsNoRecord};
ghost use Rattle.fw_disk.specs.PowerLoss.{Disk, AtEachMoment};
ghost use Rattle.fw_disk.specs.RunLines.{digest_line, digests_of, digests_under, are_any, MayStand, StandByLines, HasLinesOf, StandsByText};
ghost use Rattle.fw_disk.specs.Survival.{IsOld, IsOldOrNew, IsOldOrGone, IsOnDisk, IsGone, EndsIn, IsLineWritten, IsRunFileKnown, IsWithLine};
ghost use Rattle.fw_disk.specs.Told.{HasDigestsNoted, IsClaimFor};
ghost use Rattle.fw_disk.specs.declared.claim.Wanted.TheVariants.{Empty};

use crate::cause::{DiskPlace, DiskRefusal, Trouble};
use crate::contents::record_in;
use crate::folder::Folder;
use crate::heard::FOUND;
use crate::lines::{Digest, RunLines, line_of, lines_in};
use crate::names::place_named;
use fw_heard::Heard;
use sha2::{Digest as _, Sha256};
use std::alloc::{AllocError, Global};
use std::fs::File;
use std::rt::Files;

/// The folder as one run has it: locked, and with the lines that its file `run` has by now.
#[derive(Drop)]
pub(crate) struct Claim {
    locked: File,
    lines: RunLines,
    // whether the last line may be cut short
    is_cut: bool,
}

/// Which folder a run wants.
#[derive(Clone, Copy)]
pub(crate) enum Wanted {
    /// One without a record.
    Empty,
    /// One that may hold the records of an earlier run.
    AsLeft,
}

/// A claim on such a folder.
pub(crate) fn claim_folder<R: Files<File = File>>(
    folder: &mut Folder<'_, R>,
    wanted: Wanted,
) -> Result<Claim, DiskRefusal>
    ensures claim { IfOk result (IsClaimFor wanted) }
    ensures empty { IfOk result (λ claim. wanted ≡ Empty → HoldsNoRecord R.Dir.Read.remaining) }
    ensures any_moment { (start : Disk) → AtEachMoment (IsOld start (calls_of folder.old.calls)) (calls_of folder.old.calls) (calls_of folder.new.calls) }
{
    match wanted {
        Wanted::Empty => claim_empty(folder),
        Wanted::AsLeft => claim_left(folder, &mut Heard::new()),
    }
}

// A claim on a folder that holds no record.
fn claim_empty<R: Files<File = File>>(folder: &mut Folder<'_, R>) -> Result<Claim, DiskRefusal>
    ensures none { IfOk result (λ claim. (id : ℕ) → digests_of claim.lines.told id ≡ None) }
    ensures empty { IfOk result (λ claim. HoldsNoRecord R.Dir.Read.remaining) }
    ensures of_run { AreOfRun (calls_of folder.old.calls) (calls_of folder.new.calls) }
{
    let locked = locked_empty(folder)?;
    write_run(folder, &[])?;
    Ok(Claim {
        locked,
        lines: RunLines::new(folder.alloc()),
        is_cut: false,
    })
}

/// A claim on a folder as an earlier run left it, which may have been killed: its names are flushed first. Each record that stands
/// there is noted, with its digest.
pub(crate) fn claim_left<R: Files<File = File>>(
    folder: &mut Folder<'_, R>,
    heard: &mut Heard,
) -> Result<Claim, DiskRefusal>
    requires { heard.old.notes ≡ [] }
    ensures noted { IfOk result (λ claim. HasDigestsNoted heard.new.notes claim.lines.told) }
    ensures any_moment { (start : Disk) → AtEachMoment (IsOld start (calls_of folder.old.calls)) (calls_of folder.old.calls) (calls_of folder.new.calls) }
    ensures flushed { IfOk result (λ claim. (start : Disk) → IsOld start (folder_flushed true ∷ calls_of folder.old.calls) (calls_of folder.new.calls)) }
{
    let locked = folder.lock()?;
    folder.flush()?;
    let text = run_text(folder)?;
    let lines = lines_left(folder, &text, heard)?;
    Ok(Claim {
        locked,
        lines,
        is_cut: !matches!(text.last(), None | Some(b'\n')),
    })
}

// The lines of the records that stand in a folder whose file `run` has this text.
fn lines_left<R: Files>(
    folder: &mut Folder<'_, R>,
    text: &[u8],
    heard: &mut Heard,
) -> Result<RunLines, DiskRefusal>
    requires { heard.old.notes ≡ [] }
    ensures noted { IfOk result (λ left. HasDigestsNoted heard.new.notes left.told) }
    ensures by_text { IfOk result (λ left. StandsByText text.now left.told) }
    ensures any_moment { (start : Disk) → AtEachMoment (IsOld start (calls_of folder.old.calls)) (calls_of folder.old.calls) (calls_of folder.new.calls) }
{
    let told = lines_in(folder.alloc(), text)?;
    let lines = found(folder, &told, heard)?;
    see_run(folder, text)?;
    Ok(lines)
}

// The records that stand in a folder whose file `run` has these lines, each with its digest, which is noted.
fn found<R: Files>(
    folder: &mut Folder<'_, R>,
    lines: &RunLines,
    heard: &mut Heard,
) -> Result<RunLines, DiskRefusal>
    requires { heard.old.notes ≡ [] }
    ensures noted { IfOk result (λ found. HasDigestsNoted heard.new.notes found.told) }
    ensures stand { IfOk result (λ found. StandByLines lines.now.told found.told) }
    ensures have { IfOk result (λ found. HasLinesOf lines.now.told found.told) }
    ensures any_moment { (start : Disk) → AtEachMoment (IsOld start (calls_of folder.old.calls)) (calls_of folder.old.calls) (calls_of folder.new.calls) }
{
    let mut found = RunLines::new(folder.alloc());
    for name in &folder.record_names()? {
        add_found(folder, lines, name, &mut found, heard)?;
    }
    found.add_gone(lines)?;
    Ok(found)
}

// Adds the record that stands in the file of this name, if one does. A file without bytes that has the name of a record was to get
// one and did not: it goes.
fn add_found<R: Files>(
    folder: &mut Folder<'_, R>,
    lines: &RunLines,
    name: &str,
    found: &mut RunLines,
    heard: &mut Heard,
) -> Result<(), DiskRefusal>
    requires { HasDigestsNoted heard.old.notes found.old.told }
    ensures noted { OnOk result (HasDigestsNoted heard.new.notes found.new.told) }
    ensures stand { OnOk result (StandByLines lines.now.told found.old.told → StandByLines lines.now.told found.new.told) }
    ensures any_moment { (start : Disk) → AtEachMoment (IsOld start (calls_of folder.old.calls)) (calls_of folder.old.calls) (calls_of folder.new.calls) }
{
    let DiskPlace::Record(id) = place_named(folder.alloc(), name)? else {
        return Ok(());
    };
    if folder.remove_empty(id)? {
        return Ok(());
    }
    if let Some(digest) = digest_found(folder, lines, id)? {
        found.add(id, digest)?;
        heard.note(&[FOUND, id], &digest);
    }
    Ok(())
}

// The digest of the record in the file of an id: that of its line; where it has no line, or more than one, that of the bytes. None,
// where these are of no record that may stand there.
fn digest_found<R: Files>(
    folder: &Folder<'_, R>,
    lines: &RunLines,
    id: u64,
) -> Result<Option<Digest>, DiskRefusal>
    ensures may_stand { IfOk result (λ found. IfSome found (λ digest. MayStand lines.now.told id digest)) }
    ensures found { IfOk result (λ found. IfSome found (λ digest. IsDigestFound R.File.Read.remaining lines.now.told id digest)) }
{
    if let Some(digest) = lines.only(id) {
        return Ok(Some(digest));
    }
    match record_of(folder, lines, id) {
        Ok(bytes) => Ok(Some(Sha256::digest(&bytes))),
        Err(DiskRefusal::Failed(cause)) if cause.trouble.is_of_bytes() => Ok(None),
        Err(refusal) => Err(refusal),
    }
}

/// The bytes of the file `run`; none, where it is not there.
pub(crate) fn run_text<R: Files>(folder: &Folder<'_, R>) -> Result<Vec<u8>, DiskRefusal>
    ensures { IfOk result (λ text. IsRunText R.File.Read.remaining text.items) }
{
    none_if_gone(folder.alloc(), folder.read(DiskPlace::Run))
}

// The bytes that were read of a file; none, where that was refused since it is not there.
fn none_if_gone(alloc: Global, read: Result<Vec<u8>, DiskRefusal>) -> Result<Vec<u8>, DiskRefusal>
    ensures read { IfOk read (λ bytes. IfOk result (λ same. same.items ≡ bytes.items)) }
    ensures refused { IfErr read (λ refusal. IfOk result (λ none. (none.items ≡ []) × IsTrue (tells_gone refusal))) }
{
    match read {
        Ok(bytes) => Ok(bytes),
        Err(DiskRefusal::Failed(cause)) if cause.trouble.is_gone() => Ok(Vec::new(alloc)),
        Err(refusal) => Err(refusal),
    }
}

/// The folder, locked, where it holds no record.
pub(crate) fn locked_empty<R: Files<File = File>>(
    folder: &Folder<'_, R>,
) -> Result<File, DiskRefusal>
    ensures { IfOk result (λ locked. HoldsNoRecord R.Dir.Read.remaining) }
{
    let locked = folder.lock()?;
    match folder.record_names()?.first() {
        None => Ok(locked),
        Some(name) => Err(DiskRefusal::at(place_named(folder.alloc(), name)?, Trouble::Used)),
    }
}

// Sees to it that the file `run`, which has this text, is there.
fn see_run<R: Files>(folder: &mut Folder<'_, R>, text: &[u8]) -> Result<(), DiskRefusal>
    ensures { AreOfRun (calls_of folder.old.calls) (calls_of folder.new.calls) }
{
    if text.is_empty() {
        return write_run(folder, &[]);
    }
    Ok(())
}

// Writes the file `run` anew.
fn write_run<R: Files>(folder: &mut Folder<'_, R>, text: &[u8]) -> Result<(), DiskRefusal>
    ensures { AreOfRun (calls_of folder.old.calls) (calls_of folder.new.calls) }
{
    let _ = folder.remove(DiskPlace::RunBeside);
    match write_beside(folder, text) {
        Ok(()) => Ok(()),
        Err(refusal) => {
            let _ = folder.remove(DiskPlace::RunBeside);
            Err(refusal)
        }
    }
}

// Writes the file beside `run`, and gives it this name.
fn write_beside<R: Files>(folder: &mut Folder<'_, R>, text: &[u8]) -> Result<(), DiskRefusal>
    ensures { AreOfRun (calls_of folder.old.calls) (calls_of folder.new.calls) }
{
    folder.make(DiskPlace::RunBeside, text)?;
    folder.rename(DiskPlace::RunBeside, DiskPlace::Run)?;
    folder.flush()
}

impl Claim {
    /// Whether the folder is still the locked one.
    pub(crate) fn check<R: Files<File = File>>(
        &self,
        folder: &Folder<'_, R>,
    ) -> Result<(), DiskRefusal> {
        if folder.is_that_of(&self.locked)? {
            Ok(())
        } else {
            Err(DiskRefusal::at(DiskPlace::Folder, Trouble::Moved))
        }
    }

    /// Puts a record under a new id, with its line in `run` first. Where it is refused this record does not stand there, unless
    /// its file can't be removed again.
    pub(crate) fn put<R: Files>(
        &mut self,
        folder: &mut Folder<'_, R>,
        id: u64,
        digest: Digest,
        contents: &[u8],
    ) -> Result<(), DiskRefusal>
        ensures stands { OnOk result (digests_under self.new.lines.told id ≡ digest ∷ []) }
        ensures refused { OnErr result (digests_under self.new.lines.told id ≡ digests_under self.old.lines.told id) }
        ensures others { (other : ℕ) → (other ≡ id → ⊥) → digests_under self.new.lines.told other ≡ digests_under self.old.lines.told other }
        ensures any_moment { (start : Disk) → AtEachMoment (IsOldOrNew id contents.now start (calls_of folder.old.calls)) (calls_of folder.old.calls) (calls_of folder.new.calls) }
        ensures on_disk { OnOk result ((start : Disk) → IsOnDisk id contents.now start (calls_of folder.new.calls)) }
        // Where the id has a line already, and `run` is not written anew, the new record is left with its own line alone.
        ensures line { IsSome (digests_of self.old.lines.told id) → self.old.lines.gone < 64 → (start : Disk) → IsRunFileKnown start (calls_of folder.old.calls)
            → AtEachMoment (IsWithLine id contents.now (digest_line id digest) start (calls_of folder.old.calls)) (calls_of folder.old.calls) (calls_of folder.new.calls) }
    {
        self.write_anew(folder)?;
        let has_line = self.lines.has(id);
        self.lines.add(id, digest)?;
        let put = self.tell_and_name(folder, id, &digest, has_line, contents);
        let _ = folder.remove(DiskPlace::Beside(id));
        match put {
            Ok(()) => self.lines.last_stands(id),
            Err(_) => self.lines.last_is_refused(id),
        }
        put
    }

    // Writes the file `run` anew, without the lines of ids that are gone, where most of them are.
    fn write_anew<R: Files>(&mut self, folder: &mut Folder<'_, R>) -> Result<(), DiskRefusal>
        ensures lines { (id : ℕ) → digests_under self.new.lines.told id ≡ digests_under self.old.lines.told id }
        ensures of_run { AreOfRun (calls_of folder.old.calls) (calls_of folder.new.calls) }
        ensures rest { self.old.lines.gone < 64 → (self.new.lines ≡ self.old.lines) × (calls_of folder.new.calls ≡ calls_of folder.old.calls) }
    {
        if !self.lines.are_mostly_gone() {
            return Ok(());
        }
        write_run(folder, self.lines.text()?.as_bytes())?;
        self.lines.forget_gone();
        self.is_cut = false;
        Ok(())
    }

    // Writes the line of a record, and then the record.
    fn tell_and_name<R: Files>(
        &mut self,
        folder: &mut Folder<'_, R>,
        id: u64,
        digest: &Digest,
        has_line: bool,
        contents: &[u8],
    ) -> Result<(), DiskRefusal>
        ensures lines { self.new.lines ≡ self.old.lines }
        // Where the id has a line already, the new record is left with its own alone.
        ensures line { has_line ≡ true → (start : Disk) → IsRunFileKnown start (calls_of folder.old.calls)
            → AtEachMoment (IsWithLine id contents.now (digest_line id digest.now) start (calls_of folder.old.calls)) (calls_of folder.old.calls) (calls_of folder.new.calls) }
        ensures any_moment { (start : Disk) → AtEachMoment (IsOldOrNew id contents.now start (calls_of folder.old.calls)) (calls_of folder.old.calls) (calls_of folder.new.calls) }
        ensures on_disk { OnOk result ((start : Disk) → IsOnDisk id contents.now start (calls_of folder.new.calls)) }
    {
        // one that an earlier program left may be a second name of the record, so it is taken away and not written into
        let _ = folder.remove(DiskPlace::Beside(id));
        folder.make(DiskPlace::Beside(id), contents)?;
        self.tell(folder, id, digest, has_line)?;
        folder.give_name(id)?;
        match folder.flush() {
            Ok(()) => Ok(()),
            Err(refusal) => {
                let _ = folder.remove(DiskPlace::Record(id));
                Err(refusal)
            }
        }
    }

    // Writes a line behind those of `run`, which is flushed where the id has one already.
    fn tell<R: Files>(
        &mut self,
        folder: &mut Folder<'_, R>,
        id: u64,
        digest: &Digest,
        has_line: bool,
    ) -> Result<(), DiskRefusal>
        ensures lines { self.new.lines ≡ self.old.lines }
        ensures of_run { AreOfRun (calls_of folder.old.calls) (calls_of folder.new.calls) }
        ensures told { OnOk result (IsLineWritten has_line id digest.now (calls_of folder.old.calls) (calls_of folder.new.calls)) }
    {
        let text = self.text_of(folder.alloc(), id, digest)?;
        self.is_cut = true;
        folder.append(DiskPlace::Run, text.as_bytes(), has_line)?;
        self.is_cut = false;
        Ok(())
    }

    // A line, on a new one where the last may be cut short.
    fn text_of(&self, alloc: Global, id: u64, digest: &Digest) -> Result<String, AllocError>
        ensures { IfOk result (λ text. EndsIn (digest_line id digest.now) (string_bytes text)) }
    {
        let mut text = String::new(alloc);
        if self.is_cut {
            text.push('\n')?;
        }
        text.push_str(&line_of(alloc, id, digest)?)?;
        Ok(text)
    }

    /// The record under an id.
    pub(crate) fn get<R: Files>(
        &self,
        folder: &Folder<'_, R>,
        id: u64,
    ) -> Result<Vec<u8>, DiskRefusal>
        ensures may_stand { IfOk result (λ bytes. MayStand self.now.lines.told id (sha256 bytes.items)) }
        ensures read { IfOk result (λ bytes. IsRecordRead R.File.Read.remaining bytes.items) }
    {
        record_of(folder, &self.lines, id)
    }

    /// Whether a record stands under an id. Where there is a file and no record stands, or the other way round, that is a fault.
    pub(crate) fn has<R: Files>(&self, folder: &Folder<'_, R>, id: u64) -> Result<bool, DiskRefusal>
        ensures { IfOk result (λ there. there ≡ are_any (digests_under self.now.lines.told id)) }
    {
        let place = DiskPlace::Record(id);
        let stands = self.lines.stands(id);
        match (folder.has(place)?, stands) {
            (true, false) => Err(DiskRefusal::at(place, Trouble::Stray)),
            (false, true) => Err(DiskRefusal::at(place, Trouble::Gone)),
            _ => Ok(stands),
        }
    }

    /// Takes the record under an id away.
    pub(crate) fn remove<R: Files>(
        &mut self,
        folder: &mut Folder<'_, R>,
        id: u64,
    ) -> Result<(), DiskRefusal>
        ensures none { OnOk result (digests_under self.new.lines.told id ≡ []) }
        ensures refused { OnErr result (self.new.lines ≡ self.old.lines) }
        ensures others { (other : ℕ) → (other ≡ id → ⊥) → digests_of self.new.lines.told other ≡ digests_of self.old.lines.told other }
        ensures any_moment { (start : Disk) → AtEachMoment (IsOldOrGone id start (calls_of folder.old.calls)) (calls_of folder.old.calls) (calls_of folder.new.calls) }
        ensures gone { OnOk result ((start : Disk) → IsGone id start (calls_of folder.new.calls)) }
    {
        folder.remove(DiskPlace::Record(id))?;
        self.lines.is_removed(id);
        Ok(())
    }
}

/// The record in the file of an id, which may stand there by these lines.
pub(crate) fn record_of<R: Files>(
    folder: &Folder<'_, R>,
    lines: &RunLines,
    id: u64,
) -> Result<Vec<u8>, DiskRefusal>
    ensures may_stand { IfOk result (λ bytes. MayStand lines.now.told id (sha256 bytes.items)) }
    ensures read { IfOk result (λ bytes. IsRecordRead R.File.Read.remaining bytes.items) }
{
    let place = DiskPlace::Record(id);
    let contents = folder.read(place)?;
    match record_in(&contents) {
        Ok(bytes) if lines.may_stand(id, &Sha256::digest(bytes)) => Ok(bytes.to_vec(
            folder.alloc(),
        )?),
        Ok(_) => Err(DiskRefusal::at(place, Trouble::Foreign)),
        Err(difference) => Err(DiskRefusal::at(place, Trouble::Differs(difference))),
    }
}
