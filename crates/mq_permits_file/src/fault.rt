//! Why a file of permits is refused.

use mq_request::EscapedText;
use mq_settings::Flaw;
use std::alloc::{AllocError, AllocFailed};
use std::fmt;
use thiserror::Error;

/// What a text lacks from which a peer is to ask.
#[derive(Clone, Copy, Debug, PartialEq, Eq, Error)]
pub enum OriginFlaw {
    #[error("no address: write 192.0.2.1, 192.0.2.0/24, 2001:db8::1 or local")]
    Address,
    #[error("no length of a prefix: 0 to 32 bits, of IPv6 128, stand after the slash")]
    Prefix,
}

/// Where in a text a word stands: its line, from 1, if it was found.
#[derive(Clone, Copy, Debug)]
pub struct Line(pub Option<usize>);

impl fmt::Display for Line {
    fn fmt<W: fmt::Write>(&self, f: &mut fmt::Formatter<W>) -> fmt::Result {
        match self.0 {
            Some(line) => write!(f, "line {line}: "),
            None => Ok(()),
        }
    }
}

/// Why a file of permits is refused. The lines are those in which the words stand.
#[derive(Debug, Drop, Error)]
pub enum PermitsFault {
    /// The text is no UTF-8 or no TOML, or a name stands twice: where, and why.
    #[error("{0}")]
    Text(Flaw),
    /// A name at the top that is neither `hosts` nor `peers`, or one of `[peers]` that is neither
    /// `admin` nor `report`.
    #[error("{0}{name} is unknown", name = EscapedText(.1.as_bytes()))]
    Unknown(Line, String),
    /// `hosts` or `peers` is no table.
    #[error("{0}{name} is no table", name = EscapedText(.1.as_bytes()))]
    NoTable(Line, String),
    /// The name of a host is none: 1 to 64 letters, digits, dots and hyphens.
    #[error("{0}{name} is no name of a host", name = EscapedText(.1.as_bytes()))]
    Host(Line, String),
    /// There are more than 1,000 hosts.
    #[error("more than 1,000 hosts")]
    ManyHosts,
    /// What stands under this name is no list of texts in quotes.
    #[error("{0}{name} has no list of addresses in quotes", name = EscapedText(.1.as_bytes()))]
    NoList(Line, String),
    /// The list under this name has more than 16 entries.
    #[error("{0}{name} has more than 16 addresses", name = EscapedText(.1.as_bytes()))]
    ManyOrigins(Line, String),
    /// An entry is no address, network or `local`.
    #[error("{0}{text} is {2}", text = EscapedText(.1.as_bytes()))]
    Origin(Line, String, OriginFlaw),
    /// Nobody could set limits.
    #[error("no address may set limits: [peers] has no admin")]
    NoAdmin,
    #[error("out of memory")]
    Memory,
}

impl From<AllocError> for PermitsFault {
    ghost use Rattle.mq_permits_file.specs.declared.fault.PermitsFault.TheVariants.{Memory};

    ghost from_gives = { λ _ fault. fault ≡ Memory };

    ghost use Rattle.std.specs.Prelude.{◌≡◌};

    fn from(_error: AllocError) -> PermitsFault {
        PermitsFault::Memory
    }
}

impl<T: Drop> From<AllocFailed<T>> for PermitsFault {
    ghost use Rattle.mq_permits_file.specs.declared.fault.PermitsFault.TheVariants.{Memory};
    ghost use Rattle.std.specs.Prelude.{◌≡◌};

    ghost from_gives = { λ _ fault. fault ≡ Memory };

    fn from(_error: AllocFailed<T>) -> PermitsFault {
        PermitsFault::Memory
    }
}
