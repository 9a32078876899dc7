//! The settings files of the filter and the server: what their text means, and why one is refused.
//!
//! [`read_file`] gives the bytes of a file, at most 65,536, and [`read_filter_settings`] and
//! [`read_server_settings`] what they mean, or the first refusal in key order. From
//! `mq_process/src/settings.rt`:
//!
//!     match read_filter_settings(rt.alloc(), text) {
//!
//! It stands on `mq_request` and `mq_ledger`, for a host's name and a zone. It knows nothing of
//! what is done by the settings. Begin with `specs/Settings.antt` and `settings.rt`;
//! `mailquota.toml(5)` has every key.
#![tactic(auto)]

mod file;
mod settings;

pub use file::{FileFault, read_file, read_limited};
pub use settings::{
    AddressFlaw, FilterSettings, Flaw, Key, Place, ServerSettings, SettingsFault, address_flaw,
    read_filter_settings, read_server_settings,
};
