//! How many bytes a spelling takes, or `usize::MAX` where that is more. Only memory rests on it.
ghost use Rattle.std.specs.Prelude.{◌≤◌};

use fw_frontier::{Front, SentCount};
use fw_time::Stamp;

/// A number of 64 bits.
pub const NUMBER: usize = 8;

/// A count of fewer than 2^32, or a number of 32 bits.
pub const COUNT: usize = 4;

/// The bytes of a stamp.
#[inline]
pub fn of_stamp(stamp: &Stamp) -> usize
    ensures { result ≤ 17 }
{
    1 + 4 * stamp.len()
}

/// The bytes of a front.
pub fn of_front(front: &Front) -> usize {
    front
        .outside()
        .iter()
        .fold(COUNT, |size, stamp| size.saturating_add(of_stamp(stamp)))
}

/// The bytes of counts of what was sent.
pub fn of_counts(counts: &[SentCount]) -> usize {
    counts.iter().fold(COUNT, |size, sent| {
        size.saturating_add(of_stamp(&sent.cause) + NUMBER)
    })
}
