//! Why a session takes no batch of a source.
ghost use Rattle.std.specs.Prelude.{◌≡◌};

use fw_flow::NodeId;
use std::alloc::AllocError;
use thiserror::Error;

/// Why a source is not fed, or not closed.
#[derive(Clone, Copy, Debug, PartialEq, Eq, Error)]
pub enum FeedFault {
    /// No source is open at this place: it was closed, or the node is no input, or there is none.
    #[error("no source is open at place {0}")]
    Closed(NodeId),
    /// To the source at this place came 2^20 - 1 batches, and no more may come.
    #[error("to the source at place {0} came 1048575 batches, the most that may come")]
    Full(NodeId),
    /// Memory was refused.
    #[error("out of memory")]
    NoMemory,
}

impl From<AllocError> for FeedFault {
    ghost use Rattle.fw_session.specs.declared.fault.FeedFault.TheVariants.{NoMemory};

    ghost from_gives = { λ _ fault. fault ≡ NoMemory };

    fn from(_error: AllocError) -> Self {
        FeedFault::NoMemory
    }
}
