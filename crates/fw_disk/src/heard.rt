//! What became of the store's calls, by the first number of a note. The second is the id that the call was for.

/// These bytes were put under an id.
pub(crate) const PUT: u64 = 0;

/// These bytes were given as the record under an id.
pub(crate) const GAVE: u64 = 1;

/// The record under an id was removed.
pub(crate) const REMOVED: u64 = 2;

/// A record with this digest was found under an id before the folder was open.
pub(crate) const FOUND: u64 = 3;

/// The folder was opened; no other record is in it than those found.
pub(crate) const OPENED: u64 = 4;

/// A removal of the record under an id was refused.
pub(crate) const NOT_REMOVED: u64 = 5;
