//! The numbers of the format.

/// The letters FW.
pub const MAGIC: u16 = 0x4657;

/// The first version of the format, which has the tags of checkpoints and events.
pub const VERSION: u8 = 1;

/// The second version of the format, which has the tag of changes.
pub const SECOND_VERSION: u8 = 2;

/// The tag of a checkpoint.
pub const CHECKPOINT: u8 = 1;

/// The tag of an event.
pub const EVENT: u8 = 2;

/// The tag of changes.
pub const CHANGES: u8 = 3;

/// The byte of a delivery.
pub const DELIVERY: u8 = 1;

/// The byte of a notification.
pub const NOTICE: u8 = 2;
