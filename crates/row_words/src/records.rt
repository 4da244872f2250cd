//! Records by names.
use crate::NoAnswer;
use crate::hex::bytes_named;
use fw_record::{Record, RecordFault, decode};
use std::alloc::Global;

/// The record whose bytes the lines `record` of a name spell, one after the other.
pub fn record_named(alloc: Global, lines: &str, name: &str) -> Result<Record, NoAnswer> {
    let bytes = bytes_named(alloc, lines, name)?;
    match decode(alloc, &bytes) {
        Ok(record) => Ok(record),
        Err(RecordFault::BadRecord { .. }) => Err(NoAnswer::NotSpelled),
        Err(RecordFault::NoMemory) => Err(NoAnswer::NoMemory),
    }
}
