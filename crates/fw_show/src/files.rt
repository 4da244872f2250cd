//! The files of a folder, a line for each.
use crate::fault::ShowFault;
use crate::telling::tell_bytes;
use fw_disk::{Difference, DiskRefusal, DiskStore, RunLines, Trouble};
use fw_flow::Flow;
use fw_outside::Sink;
use std::alloc::{AllocError, Global};
use std::rt::Files;

/// Shows what each file is that is named by digits alone, a line for each: a record, a batch that came to a session, or a root. Nodes are
/// told by the names that the flow has, and without one by their numbers. Whether each file is one of these.
///
/// # Errors
///
/// The output failed, the folder could not be read, or memory was refused. Then the lines of the first files may be written.
pub fn show<R: Files, O: Sink>(
    alloc: Global,
    store: &DiskStore<'_, R>,
    flow: Option<&Flow>,
    out: &mut O,
) -> Result<bool, ShowFault> {
    let lines = store.lines()?;
    show_by(alloc, store, &lines, flow, out)
}

// Shows the files, as the lines of `run` tell which record may stand where.
fn show_by<R: Files, O: Sink>(
    alloc: Global,
    store: &DiskStore<'_, R>,
    lines: &RunLines,
    flow: Option<&Flow>,
    out: &mut O,
) -> Result<bool, ShowFault> {
    let mut are_all = true;
    for name in &store.record_names()? {
        let mut told = String::new(alloc);
        let found = store.record_named(lines, name);
        let is_record = tell_file(alloc, flow, name, found, &mut told)?;
        out.write(told.as_bytes())?;
        are_all = are_all && is_record;
    }
    Ok(are_all)
}

// Tells what was found in a file, and whether that is a record, a batch or a root.
fn tell_file(
    alloc: Global,
    flow: Option<&Flow>,
    name: &str,
    found: Result<Option<Vec<u8>>, DiskRefusal>,
    told: &mut String,
) -> Result<bool, AllocError> {
    write!(told, "{name} ")?;
    let is_record = match found {
        Ok(Some(bytes)) => tell_bytes(alloc, flow, name, &bytes, told)?,
        Ok(None) => {
            told.push_str("no record: name")?;
            false
        }
        Err(DiskRefusal::Failed(cause)) => {
            tell_trouble(&cause.trouble, told)?;
            false
        }
        Err(DiskRefusal::NoMemory) => return Err(AllocError),
    };
    told.push('\n')?;
    Ok(is_record)
}

// Tells what keeps a file from being a record.
fn tell_trouble(trouble: &Trouble, told: &mut String) -> Result<(), AllocError> {
    told.push_str("no record: ")?;
    match word_of(trouble) {
        Some(word) => told.push_str(word),
        None => write!(told, "{trouble}"),
    }
}

// What keeps a file from being a record, where there is a word for it.
fn word_of(trouble: &Trouble) -> Option<&'static str> {
    match trouble {
        Trouble::Gone => Some("gone"),
        Trouble::Differs(Difference::Short) => Some("short"),
        Trouble::Differs(Difference::Long) => Some("long"),
        Trouble::Differs(Difference::Digest) => Some("digest"),
        Trouble::Foreign => Some("other digest in run"),
        _ => None,
    }
}
