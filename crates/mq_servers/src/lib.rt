//! The file that lists the quota servers which commands ask: what its text means, and why one is
//! refused.
//!
//! [`read_servers`] gives the addresses that a text lists. From `mq_process/src/settings.rt`:
//!
//!     match read_servers(rt.alloc(), text) {
//!
//! It stands on `mq_request` and `mq_settings`, for how a name is printed, where a text is no TOML
//! and what an address lacks. It knows nothing of what is asked. Begin with `specs/Lists.antt`;
//! `mailquota.toml(5)` has the file's form.
#![tactic(auto)]

mod fault;
mod read;

pub use fault::ServersFault;
pub use read::read_servers;
