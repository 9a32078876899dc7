//! Why a list of servers is refused.

use mq_request::EscapedText;
use mq_settings::{AddressFlaw, Flaw};
use std::alloc::{AllocError, AllocFailed};
use std::net::SocketAddr;
use thiserror::Error;

/// Why a list of servers is refused. The checks come in this order: the text, then the names of its
/// entries, then the list, then each entry of it in turn.
#[derive(Debug, Drop, Error)]
pub enum ServersFault {
    /// The text is no UTF-8 or no TOML: where, and why.
    #[error("{0}")]
    Text(Flaw),
    /// A name that isn't `servers`.
    #[error("setting {name}: unknown", name = EscapedText(.0.as_bytes()))]
    Unknown(String),
    #[error("setting servers: missing")]
    Missing,
    /// The value is no list of 1 to 16 texts.
    #[error("setting servers: bad value, it has to be a list of 1 to 16 addresses in quotes")]
    NoList,
    /// A text of the list is no numeric address with a port: what it lacks.
    #[error("setting servers: {text}: {1}", text = EscapedText(.0.as_bytes()))]
    Address(String, AddressFlaw),
    /// This address stands in the list already.
    #[error("setting servers: {0} stands there twice")]
    Twice(SocketAddr),
    #[error("out of memory")]
    Memory,
}

impl From<AllocError> for ServersFault {
    ghost use Rattle.std.specs.Prelude.{◌≡◌};
    ghost use Rattle.mq_servers.specs.declared.fault.ServersFault.TheVariants.{Memory};

    ghost from_gives = { λ _ fault. fault ≡ Memory };

    fn from(_error: AllocError) -> ServersFault {
        ServersFault::Memory
    }
}

impl<T: Drop> From<AllocFailed<T>> for ServersFault {
    ghost use Rattle.std.specs.Prelude.{◌≡◌};
    ghost use Rattle.mq_servers.specs.declared.fault.ServersFault.TheVariants.{Memory};

    ghost from_gives = { λ _ fault. fault ≡ Memory };

    fn from(_error: AllocFailed<T>) -> ServersFault {
        ServersFault::Memory
    }
}
