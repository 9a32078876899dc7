//! Why settings are refused.

use crate::settings::address::AddressFlaw;
use crate::settings::flaw::Flaw;
use crate::settings::key::Key;
use mq_request::EscapedText;
use std::alloc::AllocError;
use thiserror::Error;

/// Why settings are refused. The checks come in this order: the text, then the names of its
/// entries, then each key in the order of its file.
#[derive(Debug, Drop, Error)]
pub enum SettingsFault {
    /// The text is no UTF-8 or no TOML: where, and why.
    #[error("settings are not TOML")]
    Text(Flaw),
    /// The least name, byte for byte, that is no key of this file. It is printed escaped.
    #[error("setting {name}: unknown", name = EscapedText(.0.as_bytes()))]
    Unknown(String),
    #[error("setting {0}: missing")]
    Missing(Key),
    /// The value has a wrong type, a wrong form, or is out of range.
    #[error("setting {0}: bad value")]
    Bad(Key),
    /// The value is a text, and no numeric address with a port: what it lacks.
    #[error("setting {0}: bad value")]
    Address(Key, AddressFlaw),
    #[error("out of memory")]
    Memory,
}

impl From<AllocError> for SettingsFault {
    ghost use Rattle.std.specs.Prelude.{◌≡◌};
    ghost use Rattle.mq_settings.specs.declared.settings.fault.SettingsFault.TheVariants.{Memory};

    ghost from_gives = { λ _ fault. fault ≡ Memory };

    fn from(_error: AllocError) -> SettingsFault {
        SettingsFault::Memory
    }
}
