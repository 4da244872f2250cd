//! The numbers of the format.

/// The letters FR.
pub const MAGIC: u16 = 0x4652;

/// The version of the format.
pub const VERSION: u8 = 1;

/// What the numbers of a mark, and the next id, are below.
pub const LIMIT: u64 = 1 << 62;

/// The greatest bound of an output: how many epochs or numbers there are.
pub const BOUND: u64 = 1 << 32;
