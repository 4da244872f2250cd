//! Rows of data: runs of the command over memory. The arguments name the files of rows, in order; `docs/rows.md` has their
//! format.
#![tactic(auto)]

mod directive;
mod noted;
mod outcome;
mod reading;
mod run;
mod stopped;

use crate::reading::Reader;
use std::{env, fs, io};

/// For each row its name, and of each command that it runs the status, the notes, the faults and what was printed.
fn main(rt: HostRuntime) -> io::Result<()> {
    let mut reader = Reader::new(rt.alloc());
    tell_files(&rt, &mut reader)
}

/// Tells the rows of the files that the arguments name.
fn tell_files(rt: &HostRuntime, reader: &mut Reader) -> io::Result<()> {
    for path in env::args(rt)?.skip(1) {
        tell_file(rt, path.as_str(), reader)?;
    }
    Ok(())
}

/// Tells the rows of a file.
fn tell_file(rt: &HostRuntime, path: &str, reader: &mut Reader) -> io::Result<()> {
    println!(rt; "# {path}")?;
    let text = fs::read_to_string(rt, path)?;
    let told = reader.tell(&text)?;
    print!(rt; "{told}")?;
    Ok(())
}
