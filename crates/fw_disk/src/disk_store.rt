//! The store.
ghost use Rattle.std.specs.Prelude.{◌≡◌, [], None, Some, IsOk, IsErr, IsSome, IfOk, IfSome, OnOk, OnErr, is_some, option_map, map as list_map, string_bytes};
ghost use Rattle.std.specs.Option.{ForSome};
ghost use Rattle.std.specs.FinMap as map;
ghost use Rattle.fw_disk.specs.declared.claim.Wanted.TheVariants.{Empty as WantsEmpty, AsLeft};
ghost use Rattle.fw_disk.specs.Contents.{contents_of};
ghost use Rattle.fw_disk.specs.FolderCalls.{calls_of};
ghost use Rattle.fw_disk.specs.KnownFiles.{TellRead};
ghost use Rattle.fw_disk.specs.Names.{AreNamesRead, HoldsNoRecord};
ghost use Rattle.fw_disk.specs.PowerLoss.{Disk, AtEachMoment};
ghost use Rattle.fw_disk.specs.Survival.{IsOld, IsOldOrNew, IsOldOrGone, IsOnDisk, IsGone, Survive, StayWhole};
ghost use Rattle.fw_disk.specs.Told.{told_by, last_given, HasDigestsOf};
ghost use Rattle.fw_outside.specs.Outside.{StayIfTold, faults_after, one_more};

use crate::DiskPlace;
use crate::cause::{DiskCall, DiskCause, DiskRefusal, Fault};
use crate::claim::{Claim, Wanted, claim_folder, claim_left, locked_empty, record_of, run_text};
use crate::contents::contents_of;
use crate::folder::Folder;
use crate::heard::{GAVE, NOT_REMOVED, OPENED, PUT, REMOVED};
use crate::lines::{RunLines, lines_in};
use crate::names::place_named;
use crate::start::{Empty, Start};
use fw_heard::Heard;
use fw_outside::{Failed, OutFault, Store};
use sha2::{Digest, Sha256};
use std::alloc::{AllocError, Global};
use std::fs::File;
use std::marker::PhantomData;
use std::rt::Files;

/// How many faults a store notes.
const MOST_NOTED: usize = 1000;

/// A store of records in a folder of real files: that of an id is named by its decimal digits.
///
/// It works for one run in one folder, which it locks for as long as it is there. A folder that is not there, that another process
/// has locked, or that holds a record is a fault of each call until that is mended. A store that is reopened takes the records
/// that are there.
///
/// A record is written into a file `ID.new` and flushed to the disk before the file gets its name, by a link that never takes
/// the place of another file; then the folder is flushed. So a loss of power between any two of these leaves under an id
/// nothing, the whole record, or what no call takes for a record. Before a record gets its name the file `run` has a line of
/// its id and its digest. A record that is not the one which was put under its id last, by the digest, is given by no call.
///
/// `S` names what the folder held when the store was opened; it is there for clauses alone. What the store tells is what its calls
/// made of that. It keeps the digest of each record: a file that is not there, is torn or is another one's is a fault of the call,
/// and so is a file under an id of no record. So it tells a fault, or the right thing; and it ceases to tell where a file had
/// other bytes than were put, with the same SHA-256, and at no other call. A store that was reopened tells where the records that
/// it found are those that `S` names, by their digests, and else nothing. That the folder held what `S` names is supposed and
/// not looked at, beyond the digests; what the system does with files is trusted.
#[derive(Drop)]
pub struct DiskStore<'a, R: Files, S: Start = Empty> {
    alloc: Global,
    folder: Folder<'a, R>,
    wanted: Wanted,
    claim: Option<Claim>,
    noted: Vec<Fault>,
    faults: u64,
    heard: Heard,
    start: PhantomData<S>,
    ghost has_digests: { ForSome (told_by S.held heard.notes) (HasDigestsOf claim wanted) },
    ghost survive: { Survive S.held heard.notes (calls_of folder.calls) },
    ghost whole: { StayWhole (calls_of folder.calls) },
}

impl<'a, R: Files<File = File>, S: Start> DiskStore<'a, R, S> {
    /// The store of a folder without records, which no call has reached yet.
    pub fn new(alloc: Global, files: &'a R, folder: String) -> Self
        requires { IfSome S.held (λ held. held ≡ map.empty) }
        ensures { ⟦<DiskStore<'a, R, S> as Store>⟧.view result ≡ record { records = S.held; given = None; faults = 0 } }
    {
        let mut heard = Heard::new();
        heard.note(&[OPENED], &[]);
        DiskStore {
            alloc,
            folder: Folder::new(alloc, files, folder),
            wanted: Wanted::Empty,
            claim: None,
            noted: Vec::new(alloc),
            faults: 0,
            heard,
            start: PhantomData,
        }
    }

    /// The store of a folder as an earlier run left it, whose records are looked at. Those of another run are found out by the file
    /// `run`. Where the folder can't be opened now, the store tells nothing; `is_open` says whether it was.
    pub fn reopen(alloc: Global, files: &'a R, folder: String) -> Self
        ensures records { StayIfTold S.held (⟦<DiskStore<'a, R, S> as Store>⟧.view result).records }
        // Where it was opened, and what stands there is what `S` names, by the digests, it tells that.
        ensures opened { IsSome result.claim → IfSome S.held (λ held. HasDigestsOf result.claim result.wanted held → (⟦<DiskStore<'a, R, S> as Store>⟧.view result).records ≡ Some held) }
        ensures given { (⟦<DiskStore<'a, R, S> as Store>⟧.view result).given ≡ None }
        ensures faults { (⟦<DiskStore<'a, R, S> as Store>⟧.view result).faults ≡ 0 }
    {
        let mut folder = Folder::new(alloc, files, folder);
        let mut heard = Heard::new();
        match claim_left(&mut folder, &mut heard) {
            Ok(claim) => {
                heard.note(&[OPENED], &[]);
                DiskStore::left(alloc, folder, Some(claim), heard)
            }
            Err(_) => DiskStore::left(alloc, folder, None, Heard::new()),
        }
    }

    // The store of a folder as an earlier run left it, with this claim on it.
    fn left(alloc: Global, folder: Folder<'a, R>, claim: Option<Claim>, heard: Heard) -> Self
        requires has_digests { ForSome (told_by S.held heard.notes) (HasDigestsOf claim AsLeft) }
        requires survive { Survive S.held heard.notes (calls_of folder.calls) }
        requires whole { StayWhole (calls_of folder.calls) }
        ensures notes { result.heard.notes ≡ heard.notes }
        ensures claim { (result.claim ≡ claim) × (result.wanted ≡ AsLeft) }
        ensures faults { result.faults ≡ 0 }
    {
        DiskStore {
            alloc,
            folder,
            wanted: Wanted::AsLeft,
            claim,
            noted: Vec::new(alloc),
            faults: 0,
            heard,
            start: PhantomData,
        }
    }
}

impl<R: Files, S: Start> DiskStore<'_, R, S> {
    /// Whether the folder is open by now: locked, its records known. A store that was not open when it was reopened tells nothing, also
    /// when it is open later.
    pub fn is_open(&self) -> bool
        ensures { result ≡ is_some self.now.claim }
    {
        self.claim.is_some()
    }

    /// A line for each fault, up to a thousand, with its place and its cause, and one that tells how many more there were.
    pub fn told(&self) -> Result<String, AllocError> {
        let mut told = String::new(self.alloc);
        for fault in &self.noted {
            self.add_fault(fault, &mut told)?;
        }
        let more = self.faults.saturating_sub(self.noted.len() as u64);
        if more > 0 {
            write!(told, "  and {more} more\n")?;
        }
        Ok(told)
    }

    /// The path of a cause's place, and what is wrong there.
    pub fn cause_told(&self, cause: &DiskCause) -> Result<String, AllocError> {
        let mut told = String::new(self.alloc);
        self.add_cause(cause, &mut told)?;
        Ok(told)
    }

    // Adds the line of a fault.
    fn add_fault(&self, fault: &Fault, told: &mut String) -> Result<(), AllocError> {
        write!(told, "  {} {}: ", fault.call, fault.id)?;
        self.add_cause(&fault.cause, told)?;
        told.push('\n')
    }

    // Adds the path of a cause's place, and what is wrong there.
    fn add_cause(&self, cause: &DiskCause, told: &mut String) -> Result<(), AllocError> {
        write!(
            told,
            "{}{}: {}",
            self.folder.name(),
            cause.place,
            cause.trouble
        )
    }

    /// The names of the files that no run may find in its folder, ascending by number: those of digits alone. Nothing is locked.
    pub fn record_names(&self) -> Result<Vec<String>, DiskRefusal>
        ensures { IfOk result (λ names. AreNamesRead R.Dir.Read.remaining (list_map string_bytes names.items)) }
    {
        self.folder.record_names()
    }

    /// The lines of `run`; none, where it is not there. Nothing is locked.
    pub fn lines(&self) -> Result<RunLines, DiskRefusal>
        ensures { IfOk result (λ lines. TellRead R.File.Read.remaining lines.told) }
    {
        let text = run_text(&self.folder)?;
        Ok(lines_in(self.alloc, &text)?)
    }

    /// The record in the file of this name, which may stand there by these lines; none, where no id has the name. Nothing is
    /// locked.
    pub fn record_named(
        &self,
        lines: &RunLines,
        name: &str,
    ) -> Result<Option<Vec<u8>>, DiskRefusal> {
        match place_named(self.alloc, name)? {
            DiskPlace::Record(id) => Ok(Some(record_of(&self.folder, lines, id)?)),
            _ => Ok(None),
        }
    }

    /// What a loss of power leaves of the folder now, and what one would have left at each moment since the store was made, by the
    /// clauses of this call, which does nothing.
    pub fn survives(&self)
        ensures survive { Survive S.held self.now.heard.notes (calls_of self.now.folder.calls) }
        ensures whole { StayWhole (calls_of self.now.folder.calls) }
    {}

    // The answer of a call; a failure is counted, and noted.
    fn answer(
        &mut self,
        call: DiskCall,
        id: u64,
        done: Result<(), DiskRefusal>,
    ) -> Result<(), OutFault>
        ensures faults { self.new.faults ≡ faults_after result self.old.faults }
        ensures notes { self.new.heard.notes ≡ self.old.heard.notes }
        ensures ok { IsOk result → IsOk done }
        ensures err { IsErr result → IsErr done }
    {
        match done {
            Ok(()) => Ok(()),
            Err(DiskRefusal::NoMemory) => Err(OutFault::NoMemory),
            Err(DiskRefusal::Failed(cause)) => {
                self.note(call, id, cause);
                Err(OutFault::Failed)
            }
        }
    }

    // Counts a call that failed, and notes it.
    fn note(&mut self, call: DiskCall, id: u64, cause: DiskCause)
        ensures faults { self.new.faults ≡ one_more self.old.faults }
        ensures notes { self.new.heard.notes ≡ self.old.heard.notes }
    {
        self.faults = self.faults.saturating_add(1);
        if self.noted.len() < MOST_NOTED {
            let _ = self.noted.push(Fault { call, id, cause });
        }
    }
}

impl<R: Files<File = File>, S: Start> DiskStore<'_, R, S> {
    /// What stands in the way of a run in this folder; nothing is changed. The error is want of memory.
    pub fn obstacle(&self) -> Result<Option<DiskCause>, AllocError> {
        match self.stands_clear() {
            Ok(()) => Ok(None),
            Err(DiskRefusal::Failed(cause)) => Ok(Some(cause)),
            Err(DiskRefusal::NoMemory) => Err(AllocError),
        }
    }

    // Whether the folder is the one that is locked; where none is yet, whether it can be locked as it is wanted.
    fn stands_clear(&self) -> Result<(), DiskRefusal> {
        match (&self.claim, self.wanted) {
            (Some(claim), _) => claim.check(&self.folder),
            (None, Wanted::Empty) => locked_empty(&self.folder).map(|_| ()),
            (None, Wanted::AsLeft) => self.folder.lock().map(|_| ()),
        }
    }

    // Sees to it that this run has a claim on its folder: that which it has, or one that it makes now.
    fn see_claim(&mut self) -> Result<(), DiskRefusal>
        ensures claimed { OnOk result (IsSome self.new.claim) }
        // A claim that is made now on a folder that is to hold no record: no name in it has digits alone.
        ensures empty { OnOk result (self.old.claim ≡ None → self.old.wanted ≡ WantsEmpty → HoldsNoRecord R.Dir.Read.remaining) }
        ensures any_moment { (start : Disk) → AtEachMoment (IsOld start (calls_of self.old.folder.calls)) (calls_of self.old.folder.calls) (calls_of self.new.folder.calls) }
        ensures notes { self.new.heard.notes ≡ self.old.heard.notes }
        ensures faults { self.new.faults ≡ self.old.faults }
    {
        if let Some(claim) = &self.claim {
            return claim.check(&self.folder);
        }
        self.claim = Some(claim_folder(&mut self.folder, self.wanted)?);
        Ok(())
    }

    // Puts a record under a new id.
    fn put_new(&mut self, id: u64, bytes: &[u8]) -> Result<(), DiskRefusal>
        ensures any_moment { (start : Disk) → AtEachMoment (IsOldOrNew id (contents_of bytes.now) start (calls_of self.old.folder.calls)) (calls_of self.old.folder.calls) (calls_of self.new.folder.calls) }
        ensures on_disk { OnOk result ((start : Disk) → IsOnDisk id (contents_of bytes.now) start (calls_of self.new.folder.calls)) }
        ensures added { OnOk result (told_by S.held self.new.heard.notes ≡ option_map (λ held. map.insert held id bytes.now) (told_by S.held self.old.heard.notes)) }
        ensures refused { OnErr result (self.new.heard.notes ≡ self.old.heard.notes) }
        ensures given { last_given self.new.heard.notes ≡ last_given self.old.heard.notes }
        ensures faults { self.new.faults ≡ self.old.faults }
    {
        let contents = contents_of(self.alloc, bytes)?;
        self.see_claim()?;
        match &mut self.claim {
            Some(claim) => claim.put(&mut self.folder, id, Sha256::digest(bytes), &contents)?,
            None => unreachable!(),
        }
        self.heard.note(&[PUT, id], bytes);
        Ok(())
    }

    // Puts the record under an id into an empty list.
    fn read_into(&mut self, id: u64, into: &mut Vec<u8>) -> Result<(), DiskRefusal>
        requires empty { into.old.items ≡ [] }
        requires there { ForSome (told_by S.held self.old.heard.notes) (λ held. IsSome (map.get held id)) }
        ensures bytes { OnOk result (IfSome (told_by S.held self.new.heard.notes) (λ held. map.get held id ≡ Some into.new.items)) }
        ensures given { OnOk result (last_given self.new.heard.notes ≡ Some (id, into.new.items)) }
        ensures refused { OnErr result (self.new.heard.notes ≡ self.old.heard.notes) }
        ensures empty { OnErr result (into.new.items ≡ []) }
        ensures stay { StayIfTold (told_by S.held self.old.heard.notes) (told_by S.held self.new.heard.notes) }
        ensures faults { self.new.faults ≡ self.old.faults }
    {
        self.see_claim()?;
        let bytes = match &self.claim {
            Some(claim) => claim.get(&self.folder, id)?,
            None => unreachable!(),
        };
        into.extend_from_slice(&bytes)?;
        self.heard.note(&[GAVE, id], &bytes);
        Ok(())
    }

    // Whether a record is under an id.
    fn is_there(&mut self, id: u64) -> Result<bool, DiskRefusal>
        ensures there { IfOk result (λ there. IfSome (told_by S.held self.new.heard.notes) (λ held. there ≡ is_some (map.get held id))) }
        ensures notes { self.new.heard.notes ≡ self.old.heard.notes }
        ensures faults { self.new.faults ≡ self.old.faults }
    {
        self.see_claim()?;
        match &self.claim {
            Some(claim) => claim.has(&self.folder, id),
            None => unreachable!(),
        }
    }

    // Takes the record under an id out.
    fn take_out(&mut self, id: u64) -> Result<(), DiskRefusal>
        ensures any_moment { (start : Disk) → AtEachMoment (IsOldOrGone id start (calls_of self.old.folder.calls)) (calls_of self.old.folder.calls) (calls_of self.new.folder.calls) }
        ensures gone { OnOk result ((start : Disk) → IsGone id start (calls_of self.new.folder.calls)) }
        ensures removed { OnOk result (told_by S.held self.new.heard.notes ≡ option_map (λ held. map.remove held id) (told_by S.held self.old.heard.notes)) }
        ensures refused { OnErr result (told_by S.held self.new.heard.notes ≡ told_by S.held self.old.heard.notes) }
        ensures given { last_given self.new.heard.notes ≡ last_given self.old.heard.notes }
        ensures faults { self.new.faults ≡ self.old.faults }
    {
        self.see_claim()?;
        let removed = match &mut self.claim {
            Some(claim) => claim.remove(&mut self.folder, id),
            None => unreachable!(),
        };
        match removed {
            Ok(()) => self.heard.note(&[REMOVED, id], &[]),
            Err(_) => self.heard.note(&[NOT_REMOVED, id], &[]),
        }
        removed
    }
}

impl<R: Files<File = File>, S: Start> Store for DiskStore<'_, R, S> {
    ghost view = { λ store. record {
      records = told_by S.held store.heard.notes;
      given = last_given store.heard.notes;
      faults = store.faults;
    } };

    /// Writes the record into a new file, and its line into `run` first. A file that is there under the id is a fault. After
    /// a refusal what stood under the id stands there still, and else nothing, unless the new file can't be removed again: then
    /// it is a fault of each call for the id.
    fn put(&mut self, id: u64, bytes: &[u8]) -> Result<(), OutFault> {
        let put = self.put_new(id, bytes);
        self.answer(DiskCall::Put, id, put)
    }

    /// Reads the record of a file. One that is not there, is too short or too long for its length, has another digest, or is
    /// not the one that was put there is a fault.
    fn get(&mut self, id: u64, into: &mut Vec<u8>) -> Result<(), OutFault> {
        into.clear();
        let got = self.read_into(id, into);
        self.answer(DiskCall::Get, id, got)
    }

    /// Whether a record is there, and its file, which opens. One without the other is a fault, as is a file that does not open,
    /// and want of memory.
    fn has(&mut self, id: u64) -> Result<bool, Failed> {
        match self.is_there(id) {
            Ok(there) => Ok(there),
            Err(refusal) => {
                self.note(DiskCall::Has, id, refusal.cause(DiskPlace::Record(id)));
                Err(Failed)
            }
        }
    }

    /// Removes the file. One that is not there is a fault. That it is gone is not flushed to the disk.
    fn remove(&mut self, id: u64) -> Result<(), OutFault> {
        let removed = self.take_out(id);
        self.answer(DiskCall::Remove, id, removed)
    }

    /// How often a call failed.
    fn faults(&self) -> u64 {
        self.faults
    }
}
