//! Rows of data: calls whose answers follow from a flow and the lines of the row. The arguments name the files of rows, in order;
//! `docs/rows.md` has their formats.
#![tactic(auto)]

mod certificates;
mod choices;
mod domain;
mod families;
mod records;
mod roots;
mod texts;
mod trail;
mod values;

use crate::families::FlowFamilies;
use row_words::tell_files;
use std::io;

/// For each row its name, and the answers to its lines.
fn main(rt: HostRuntime) -> io::Result<()> {
    let families = FlowFamilies { alloc: rt.alloc() };
    tell_files(&rt, &families)
}
