//! Two recs that meet.
ghost use Rattle.std.specs.Prelude.{◌≡◌};
ghost use Rattle.fw_paired.specs.Pairs.{pair_of, pair_stamp};

use fw_bag::Rec;
use fw_time::Stamp;

/// Two recs of one key that came on two in-edges, and what they make.
#[derive(Debug, Drop)]
pub struct Pair {
    /// The stamp of the rec on the first in-edge.
    pub first: Stamp,
    /// The stamp of the rec on the second in-edge.
    pub second: Stamp,
    /// Their key, and the sum of their values, modulo 2^64.
    pub rec: Rec,
}

impl Pair {
    /// The stamp at which they meet: the least one that both are at most. It takes no memory.
    pub fn at(&self) -> Stamp
        ensures { result ≡ pair_stamp self.now }
    {
        self.first.lub(&self.second)
    }
}

/// The value of a rec, with the stamp at which it came.
#[derive(Drop)]
pub(crate) struct StampedValue {
    pub(crate) at: Stamp,
    pub(crate) value: u64,
}

/// A rec that comes on an in-edge, by its place, with an earlier one of its key on the other in-edge. It takes no memory.
pub(crate) fn pair_with(side: usize, at: &Stamp, rec: Rec, earlier: &StampedValue) -> Pair
    ensures { result ≡ pair_of side at.now rec earlier.now }
{
    let sum = Rec {
        key: rec.key,
        value: rec.value.wrapping_add(earlier.value),
    };
    if side == 0 {
        Pair {
            first: at.copy(),
            second: earlier.at.copy(),
            rec: sum,
        }
    } else {
        Pair {
            first: earlier.at.copy(),
            second: at.copy(),
            rec: sum,
        }
    }
}
