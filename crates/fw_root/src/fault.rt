//! Why bytes give no root.
use thiserror::Error;

/// Bytes do not begin as a root does; the first broken field begins at `at`.
#[derive(Clone, Copy, Debug, PartialEq, Eq, Error)]
#[error("no root: the field at byte {at} is broken")]
pub struct BadRoot {
    /// The place of the field's first byte.
    pub at: usize,
}

/// Why bytes give no root of a dataflow and its batches.
#[derive(Clone, Copy, Debug, PartialEq, Eq, Error)]
pub enum RootFault {
    /// They spell none; the first broken field begins at `at`.
    #[error("no root: the field at byte {at} is broken")]
    BadRoot { at: usize },
    /// Memory was refused.
    #[error("no memory for the root")]
    NoMemory,
}
