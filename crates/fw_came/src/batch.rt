//! A batch that came.
ghost use Rattle.std.specs.Prelude.{◌≡◌};
ghost use Rattle.fw_came.specs.Came as spec;

use fw_bag::Recs;

/// A batch that came to a source.
#[derive(Debug, Drop)]
pub struct CameBatch {
    /// Whether the source was closed with it.
    pub last: bool,
    /// Its recs.
    pub recs: Recs,
}

/// The id of a batch of a source: behind those that an engine draws, and before those of roots.
pub fn batch_id(source: u32, epoch: u32) -> u64
    ensures { result ≡ spec.batch_id source epoch }
{
    (1 << 63) + (((source as u64) << 24) + epoch as u64)
}
