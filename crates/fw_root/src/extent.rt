//! Which fronts may stand at a place of a root.
ghost use Rattle.std.specs.Prelude.{◌≡◌, slice_index};
ghost use Rattle.fw_root.specs.OfFlow as spec;

use fw_time::{Bounds, Stamp};

/// Which fronts of a domain.
#[derive(Clone, Copy, Debug)]
pub enum Extent {
    /// All.
    Any,
    /// Those of an input that injected so many batches, which may be the whole of them.
    Batches { injected: u64, whole: bool },
    /// The one without stamps.
    Nothing,
}

impl Extent {
    /// Whether such a front may have so many outside stamps.
    pub fn allows_size(self, size: u32) -> bool
        ensures { result ≡ spec.allows_size self size }
    {
        match self {
            Extent::Any => true,
            Extent::Batches { whole, .. } => whole || size > 0,
            Extent::Nothing => size == 1,
        }
    }

    /// Whether it may have this outside stamp, which is the domain's.
    pub fn allows_stamp(self, bounds: &Bounds, s: &Stamp) -> bool
        ensures { result ≡ spec.allows_stamp bounds.now self s.now }
    {
        match self {
            Extent::Any => true,
            Extent::Batches { injected, .. } => u64::from(first_of(s)) <= injected,
            Extent::Nothing => s.compare(&bounds.origin()).is_eq(),
        }
    }
}

// The outermost coordinate; 0 where there is none.
fn first_of(s: &Stamp) -> u32
    ensures { result ≡ slice_index s.now 0 }
{
    if s.len() == 0 {
        return 0;
    }
    s.at(0)
}
