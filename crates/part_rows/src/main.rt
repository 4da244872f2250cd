//! Rows of data: calls of the parts of an engine, of a store on disk, and of what is outside. The arguments name the files of
//! rows, in order; `docs/rows.md` has their formats.
#![tactic(auto)]

mod disk;
mod families;
mod nodes;
mod outside;
mod progress;
mod restored;
mod writes;

use crate::families::PartFamilies;
use fw_outside::Sink;
use fw_telling::TellingSink;
use row_words::tell_files;
use std::io::{self, ErrorKind};

/// For each row its name, and the answers to its lines.
fn main(rt: HostRuntime) -> io::Result<()> {
    let families = PartFamilies {
        alloc: rt.alloc(),
        files: &rt,
    };
    tell_files(&rt, &families)?;
    // standard error is a stream too, which nothing else here writes
    match TellingSink::new(rt.stderr()).write(b"all rows are told\n") {
        Ok(()) => Ok(()),
        Err(_) => Err(ErrorKind::Other.into()),
    }
}
