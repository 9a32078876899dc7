//! Why a line isn't accepted.
ghost use Rattle.std.specs.Prelude.{◌≡◌};
ghost use Rattle.mq_track.specs.declared.fault.TrackFault.TheVariants.{Memory};

use std::alloc::AllocError;
use thiserror::Error;

/// Why a line wasn't accepted.
#[derive(Clone, Copy, Debug, PartialEq, Eq, Error)]
pub enum TrackFault {
    /// A link-auth whose parameters have no result at either end.
    #[error("report refused: auth")]
    Auth,
    /// A tx-begin, tx-commit or tx-rollback without a message id.
    #[error("report refused: message")]
    Message,
    /// A tx-begin after 4,294,967,295 of them.
    #[error("report refused: exhausted")]
    Exhausted,
    #[error("out of memory")]
    Memory,
}

impl From<AllocError> for TrackFault {
    ghost from_gives = { λ _ e. e ≡ Memory };

    fn from(_: AllocError) -> TrackFault {
        TrackFault::Memory
    }
}
