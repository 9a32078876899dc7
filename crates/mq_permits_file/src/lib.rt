//! The file that lists who may ask a quota server what: what its text means, and why one is refused.
//!
//! [`read_file`] gives the bytes of a file, at most 1 MiB, and [`read_permits`] what they mean. From
//! `mq_program/src/permits.rt`:
//!
//!     match read_permits(rt.alloc(), text.as_slice()) {
//!
//! It stands on `mq_request`, `mq_permits` and `mq_settings`, for a host's name, the permits and
//! where a text is no TOML. It knows nothing of what is asked. Begin with `specs/Texts.antt`, what
//! each entry writes; `mailquota.toml(5)` has the file's form.
#![tactic(auto)]

mod fault;
mod file;
mod line;
mod origin;
mod read;

pub use fault::{OriginFlaw, PermitsFault};
pub use file::{FileFault, read_file};
pub use read::read_permits;
