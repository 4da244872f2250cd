//! What answers the rows of a file, by its ending.
use crate::{disk, nodes, outside, progress, restored, writes};
use fw_flow::Flow;
use row_words::{Families, Row, flow_of};
use std::alloc::{AllocError, Global};
use std::fs::File;
use std::rt::Files;

/// What answers rows about parts of an engine, and about what is outside.
#[derive(Drop)]
pub struct PartFamilies<'a, R: Files> {
    /// Where what is told lies.
    pub alloc: Global,
    /// Real files.
    pub files: &'a R,
}

impl<R: Files<File = File>> Families for PartFamilies<'_, R> {
    fn tell(&self, ending: &str, row: Row<'_>, told: &mut String) -> Result<(), AllocError> {
        match ending {
            "disk" => disk::tell(self.alloc, self.files, row, told),
            "outside" => outside::tell(self.alloc, self.files, row, told),
            _ => tell_declared(self.alloc, ending, row, told),
        }
    }
}

/// Tells the answers to the lines of a row about parts of an engine over the flow that it declares, or why this is none.
fn tell_declared(
    alloc: Global,
    ending: &str,
    row: Row<'_>,
    told: &mut String,
) -> Result<(), AllocError> {
    match flow_of(alloc, row.lines, told)? {
        Some(flow) => tell_of_flow(alloc, ending, &flow, row, told),
        None => Ok(()),
    }
}

/// Tells the answers to the lines of a row about parts of an engine over a flow.
fn tell_of_flow(
    alloc: Global,
    ending: &str,
    flow: &Flow,
    row: Row<'_>,
    told: &mut String,
) -> Result<(), AllocError> {
    match ending {
        "nodes" => nodes::tell(alloc, flow, row, told),
        "progress" => progress::tell(alloc, flow, row, told),
        "writes" => writes::tell(alloc, flow, row, told),
        _ => restored::tell(alloc, flow, row, told),
    }
}
