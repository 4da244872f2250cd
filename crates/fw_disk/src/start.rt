//! What a folder held when its store was opened.
ghost use Rattle.std.specs.Prelude.{Option, None, Some};
ghost use Rattle.std.specs.FinMap as map;
ghost use Rattle.fw_disk.specs.Told.{Held};

/// The records that a folder held when its store was opened, where they are named. No code can read them: what is proved over each
/// `S: Start` is true whatever the folder held.
pub trait Start: Drop {
    /// The bytes of each id; or none, where the records are not named.
    ghost held: { Option Held };
}

/// A folder that held no record.
#[derive(Drop)]
pub struct Empty;

impl Start for Empty {
    ghost held = { Some map.empty };
}

/// A folder of which nothing is said. Its store tells nothing, so each call may be made of it.
#[derive(Drop)]
pub struct Unknown;

impl Start for Unknown {
    ghost held = { None };
}
