//! What was done to a record.

/// What was done to the record of an id.
#[derive(Drop)]
pub struct RecordWrite {
    /// The id.
    pub id: u64,
    /// What was put there; nothing where the record was removed.
    pub bytes: Option<Vec<u8>>,
}
