//! A store on disk, and the files under it.
use fw_disk::{DiskStore, Unknown};
use fw_outside::{Failed, OutFault, Store};
use row_words::{Answers, NoAnswer, Row, bytes_of, part, tell_row};
use std::alloc::{AllocError, Global};
use std::fmt::Write;
use std::fs::{self, File};
use std::io::Read;
use std::rt::Files;

/// A store over a folder.
#[derive(Drop)]
struct OnDisk<'a, R: Files> {
    alloc: Global,
    files: &'a R,
    folder: &'a str,
    store: DiskStore<'a, R, Unknown>,
}

/// Tells what became of each call. The name of the row is that of the folder of its store.
pub fn tell<R: Files<File = File>>(
    alloc: Global,
    files: &R,
    row: Row<'_>,
    told: &mut String,
) -> Result<(), AllocError> {
    let folder = String::from_str(alloc, row.name)?;
    let mut on_disk = OnDisk {
        alloc,
        files,
        folder: row.name,
        store: DiskStore::new(alloc, files, folder),
    };
    tell_row(alloc, row, &mut on_disk, told)
}

impl<R: Files<File = File>> Answers for OnDisk<'_, R> {
    ghost stands = { λ _. Unit {0} };

    fn answer(&mut self, line: &str, said: &mut String) -> Result<(), NoAnswer> {
        let (word, rest) = part(line);
        let (first, words) = part(rest);
        match word {
            "put" => put(self.alloc, &mut self.store, first, words, said),
            "get" => get(self.alloc, &mut self.store, first, said),
            "has" => has(&mut self.store, first, said),
            "remove" => remove(&mut self.store, first, said),
            "many" => many(&mut self.store, first, words, said),
            "other" => other(self.alloc, self.files, self.folder, first, said),
            "again" => self.reopen(said),
            "told" => say_told(&self.store, said),
            "file" => say_file(self.alloc, self.files, first, said),
            _ => beside(self.alloc, self.files, word, first, words, said),
        }
    }
}

impl<R: Files<File = File>> OnDisk<'_, R> {
    /// Another store over the folder takes the place of the one that is there, and finds what it left.
    fn reopen(&mut self, said: &mut String) -> Result<(), NoAnswer> {
        // the lock goes with the store that has it
        let folder = String::from_str(self.alloc, self.folder)?;
        self.store = DiskStore::new(self.alloc, self.files, folder);
        let folder = String::from_str(self.alloc, self.folder)?;
        self.store = DiskStore::reopen(self.alloc, self.files, folder);
        said.push_str("done")?;
        Ok(())
    }
}

/// What became of a call, and how often the store failed so far.
fn say_became(
    became: Result<(), OutFault>,
    faults: u64,
    said: &mut String,
) -> Result<(), NoAnswer> {
    let word = match became {
        Ok(()) => "done",
        Err(OutFault::Failed) => "failed",
        Err(OutFault::NoMemory) => return Err(NoAnswer::NoMemory),
    };
    write!(said, "{word} faults {faults}")?;
    Ok(())
}

/// A record is put.
fn put<R: Files<File = File>>(
    alloc: Global,
    store: &mut DiskStore<'_, R, Unknown>,
    id: &str,
    words: &str,
    said: &mut String,
) -> Result<(), NoAnswer> {
    let bytes = bytes_of(alloc, words)?;
    let became = store.put(id.parse::<u64>()?, &bytes);
    say_became(became, store.faults(), said)
}

/// A record is got, with the bytes that the store gives.
fn get<R: Files<File = File>>(
    alloc: Global,
    store: &mut DiskStore<'_, R, Unknown>,
    id: &str,
    said: &mut String,
) -> Result<(), NoAnswer> {
    let mut bytes = Vec::new(alloc);
    let became = store.get(id.parse::<u64>()?, &mut bytes);
    say_became(became, store.faults(), said)?;
    show(&bytes, said)?;
    Ok(())
}

/// Whether a record is there.
fn has<R: Files<File = File>>(
    store: &mut DiskStore<'_, R, Unknown>,
    id: &str,
    said: &mut String,
) -> Result<(), NoAnswer> {
    let word = match store.has(id.parse::<u64>()?) {
        Ok(true) => "there",
        Ok(false) => "not there",
        Err(Failed) => "failed",
    };
    write!(said, "{word} faults {}", store.faults())?;
    Ok(())
}

/// A record is removed.
fn remove<R: Files<File = File>>(
    store: &mut DiskStore<'_, R, Unknown>,
    id: &str,
    said: &mut String,
) -> Result<(), NoAnswer> {
    let became = store.remove(id.parse::<u64>()?);
    say_became(became, store.faults(), said)
}

/// Records without bytes are put and removed under so many ids, up to the first refusal.
fn many<R: Files<File = File>>(
    store: &mut DiskStore<'_, R, Unknown>,
    first: &str,
    count: &str,
    said: &mut String,
) -> Result<(), NoAnswer> {
    let first = first.parse::<u64>()?;
    let mut became = Ok(());
    for id in first..first.saturating_add(count.parse::<u64>()?) {
        became = store.put(id, &[]);
        if became.is_ok() {
            became = store.remove(id);
        }
        if became.is_err() {
            break;
        }
    }
    say_became(became, store.faults(), said)
}

/// A record without bytes is put by another store over the folder.
fn other<R: Files<File = File>>(
    alloc: Global,
    files: &R,
    folder: &str,
    id: &str,
    said: &mut String,
) -> Result<(), NoAnswer> {
    let folder = String::from_str(alloc, folder)?;
    let mut other: DiskStore<'_, R, Unknown> = DiskStore::new(alloc, files, folder);
    let became = other.put(id.parse::<u64>()?, &[]);
    say_became(became, other.faults(), said)
}

/// The lines of the faults so far, with a bar between them.
fn say_told<R: Files<File = File>>(
    store: &DiskStore<'_, R, Unknown>,
    said: &mut String,
) -> Result<(), NoAnswer> {
    let mut is_first = true;
    for line in store.told()?.lines() {
        if !is_first {
            said.push_str(" | ")?;
        }
        is_first = false;
        said.push_str(line.trim_start())?;
    }
    Ok(())
}

/// What a file holds.
fn say_file<R: Files<File = File>>(
    alloc: Global,
    files: &R,
    path: &str,
    said: &mut String,
) -> Result<(), NoAnswer> {
    let Ok(mut file) = fs::open(files, path) else {
        said.push_str("not there")?;
        return Ok(());
    };
    let mut bytes = Vec::new(alloc);
    if file.read_to_end(&mut bytes).is_err() {
        return Err(NoAnswer::NoMemory);
    }
    said.push_str("holds")?;
    show(&bytes, said)?;
    Ok(())
}

/// Whether a folder was made, a file written past the store or taken away, or a second name given.
fn beside<R: Files<File = File>>(
    alloc: Global,
    files: &R,
    word: &str,
    path: &str,
    words: &str,
    said: &mut String,
) -> Result<(), NoAnswer> {
    let is_done = match word {
        "folder" => fs::create_dir(files, path).is_ok(),
        "write" => fs::write(files, path, &bytes_of(alloc, words)?).is_ok(),
        "delete" => fs::remove_file(files, path).is_ok(),
        "link" => fs::hard_link(files, path, words).is_ok(),
        _ => return Err(NoAnswer::NotSpelled),
    };
    said.push_str(if is_done { "done" } else { "failed" })?;
    Ok(())
}

/// Adds bytes by their digits, those of each byte after a space.
fn show(bytes: &[u8], said: &mut String) -> Result<(), AllocError> {
    for byte in bytes {
        write!(said, " {byte:02x}")?;
    }
    Ok(())
}
