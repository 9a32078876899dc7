//! Why the serving of a connection breaks off.
ghost use Rattle.std.specs.Prelude.{◌≡◌};

use std::alloc::AllocError;
use thiserror::Error;

/// Why connections couldn't be served to their end.
#[derive(Clone, Copy, Debug, PartialEq, Eq, Error)]
pub enum ServeFault {
    /// A read failed.
    #[error("read failed")]
    Read,
    /// A write or a flush failed.
    #[error("write failed")]
    Write,
    /// A growth was refused.
    #[error("out of memory")]
    Memory,
    /// The ledger's store failed.
    #[error("store failed")]
    Store,
}

impl From<AllocError> for ServeFault {
    ghost use Rattle.mq_server.specs.declared.fault.ServeFault.TheVariants.{Memory as NoMemory};

    ghost from_gives = { λ _ fault. fault ≡ NoMemory };

    fn from(_refused: AllocError) -> ServeFault {
        ServeFault::Memory
    }
}
