//! Numbers, stamps, fronts and counts as bytes: how they are written, and how they are read, field by field, up to the first
//! broken one.
//!
//! A reader is given bytes, and answers with a value and the bytes after it, or with `ReadFault`: how many bytes are left from
//! the first broken field on. Its clause says so by a definition of `specs/Reading`, whatever the bytes are. That reading and
//! spelling agree both ways, and that a broken field begins in the bytes or at their end, are the laws of `laws`
//! (`IsExactReading`). Lists of other parts are read by `many_of`, and such a reader's laws come from those of its part
//! (`proofs/PartLaws`, `proofs/PartLoops`).
#![tactic(auto)]

mod fault;
mod fields;
pub mod laws;
mod parts;
mod reading;
mod rules;
pub mod size;
mod writing;

pub use fault::ReadFault;
pub use fields::{byte_at, stamp_at, u16_at, u32_at, u64_at};
pub use reading::{any_stamp, any_u32, any_u64, front_at, sent_counts_at};
pub use writing::{only_coord, put_count, put_counts, put_front, put_stamp, put_u32, put_u64};
