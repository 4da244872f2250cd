//! Why bytes give no record.
use thiserror::Error;

/// Why bytes give no record.
#[derive(Clone, Copy, Debug, PartialEq, Eq, Error)]
pub enum RecordFault {
    /// They spell no record; the first broken field begins at `at`.
    #[error("no record: the field at byte {at} is broken")]
    BadRecord { at: usize },
    /// Memory was refused.
    #[error("no memory for the record")]
    NoMemory,
}
