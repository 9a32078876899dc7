//! Why no further connection is served.
ghost use Rattle.std.specs.Prelude.{◌≡◌};

use std::alloc::AllocError;
use thiserror::Error;

/// Why no further connection is served.
#[derive(Clone, Copy, Debug, PartialEq, Eq, Error)]
pub enum RoomFault {
    /// The listener accepts no more, or the system doesn't report connections.
    #[error("accept failed")]
    Accept,
    /// A growth was refused before the first connection.
    #[error("out of memory")]
    Memory,
    /// The ledger's store failed.
    #[error("store failed")]
    Store,
}

impl From<AllocError> for RoomFault {
    ghost use Rattle.mq_connections.specs.declared.fault.RoomFault.TheVariants.{Memory};

    ghost from_gives = { λ _ fault. fault ≡ Memory };

    fn from(_refused: AllocError) -> RoomFault {
        RoomFault::Memory
    }
}
