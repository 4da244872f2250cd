//! What is true of values by their types. Each function's `ensures` says it, and its body is empty.
ghost use Rattle.std.specs.Prelude.{◌<◌, ◌^◌, ℕ};
ghost use Rattle.std.specs.Prelude.{slice_index};
ghost use Rattle.fw_bytes.specs.Exact.{AreBytes};
ghost use Rattle.fw_root.specs.Sound.{AreSoMany};

/// Bytes are below 256.
pub fn are_bytes(bytes: &[u8])
    ensures { AreBytes bytes.now }
{}

/// A digest has 32 bytes.
pub fn is_digest(digest: &[u8; 32])
    ensures { AreSoMany 32 digest.now }
{
    are_bytes(digest.as_slice());
}

/// The numbers of lines are below 2^32.
pub fn are_small(numbers: &[u32])
    ensures { (i : ℕ) → slice_index numbers.now i < 2 ^ 32 }
{}
