//! How each call that changes the folder is noted.
ghost use Rattle.std.specs.Prelude.{◌≡◌, [], ◌∷◌, is_ok, IfOk};
ghost use Rattle.fw_disk.specs.FolderCalls.{calls_of, coded_place, made, appended, flushed, linked, renamed, removed, folder_flushed, seen_empty};
ghost use Rattle.fw_disk.specs.KnownFiles.{HasGrown};

use crate::cause::{DiskPlace, DiskRefusal};
use fw_heard::Heard;
use std::io::Write;

const MADE: u64 = 0;

const APPENDED: u64 = 1;

const FLUSHED: u64 = 2;

const LINKED: u64 = 3;

const RENAMED: u64 = 4;

const REMOVED: u64 = 5;

const FOLDER_FLUSHED: u64 = 6;

const SEEN_EMPTY: u64 = 7;

/// The calls that may have changed a folder, each with its answer, the newest first. They are there for clauses alone, and take no
/// memory.
#[derive(Drop)]
pub(crate) struct CallNotes {
    heard: Heard,
}

// The two numbers of a place.
fn coded(place: DiskPlace) -> (u64, u64)
    ensures { coded_place result.0 result.1 ≡ place }
{
    match place {
        DiskPlace::Record(id) => (0, id),
        DiskPlace::Beside(id) => (1, id),
        DiskPlace::Run => (2, 0),
        DiskPlace::RunBeside => (3, 0),
        DiskPlace::Folder => (4, 0),
    }
}

impl CallNotes {
    /// Nothing yet.
    pub(crate) fn new() -> Self
        ensures { calls_of result ≡ [] }
    {
        CallNotes {
            heard: Heard::new(),
        }
    }

    /// A file was made, with these bytes. It is there to be shown, where it was made.
    pub(crate) fn made<F: Write>(
        &mut self,
        place: DiskPlace,
        bytes: &[u8],
        file: &Result<F, DiskRefusal>,
    )
        requires { IfOk file.now (λ file. HasGrown F.contents file bytes.now) }
        ensures { calls_of self.new ≡ made place bytes.now (is_ok file.now) ∷ calls_of self.old }
    {
        let (kind, id) = coded(place);
        self.heard
            .note(&[MADE, kind, id, 0, 0, file.is_ok() as u64], bytes);
    }

    /// Bytes were written behind those of a file. It is there to be shown, where they were.
    pub(crate) fn appended<F: Write>(
        &mut self,
        place: DiskPlace,
        bytes: &[u8],
        file: &Result<F, DiskRefusal>,
    )
        requires { IfOk file.now (λ file. HasGrown F.contents file bytes.now) }
        ensures { calls_of self.new ≡ appended place bytes.now (is_ok file.now) ∷ calls_of self.old }
    {
        let (kind, id) = coded(place);
        self.heard
            .note(&[APPENDED, kind, id, 0, 0, file.is_ok() as u64], bytes);
    }

    /// The bytes of a file were flushed.
    pub(crate) fn flushed(&mut self, place: DiskPlace, done: bool)
        ensures { calls_of self.new ≡ flushed place done ∷ calls_of self.old }
    {
        let (kind, id) = coded(place);
        self.heard
            .note(&[FLUSHED, kind, id, 0, 0, done as u64], &[]);
    }

    /// A file got a second name.
    pub(crate) fn linked(&mut self, from: DiskPlace, to: DiskPlace, done: bool)
        ensures { calls_of self.new ≡ linked from to done ∷ calls_of self.old }
    {
        let (kind, id) = coded(from);
        let (second, other) = coded(to);
        self.heard
            .note(&[LINKED, kind, id, second, other, done as u64], &[]);
    }

    /// A file got another name.
    pub(crate) fn renamed(&mut self, from: DiskPlace, to: DiskPlace, done: bool)
        ensures { calls_of self.new ≡ renamed from to done ∷ calls_of self.old }
    {
        let (kind, id) = coded(from);
        let (second, other) = coded(to);
        self.heard
            .note(&[RENAMED, kind, id, second, other, done as u64], &[]);
    }

    /// A name was taken away.
    pub(crate) fn removed(&mut self, place: DiskPlace, done: bool)
        ensures { calls_of self.new ≡ removed place done ∷ calls_of self.old }
    {
        let (kind, id) = coded(place);
        self.heard
            .note(&[REMOVED, kind, id, 0, 0, done as u64], &[]);
    }

    /// The names were flushed.
    pub(crate) fn folder_flushed(&mut self, done: bool)
        ensures { calls_of self.new ≡ folder_flushed done ∷ calls_of self.old }
    {
        self.heard
            .note(&[FOLDER_FLUSHED, 0, 0, 0, 0, done as u64], &[]);
    }

    /// A file had no bytes.
    pub(crate) fn seen_empty(&mut self, place: DiskPlace)
        ensures { calls_of self.new ≡ seen_empty place ∷ calls_of self.old }
    {
        let (kind, id) = coded(place);
        self.heard.note(&[SEEN_EMPTY, kind, id, 0, 0, 1], &[]);
    }
}
