//! Lines of smtpd: what a filter reads and writes, by smtpd-filters(7) in protocol 0.7. Another
//! filter can stand on it.
//!
//! [`LineFeed`] gives the lines of a text that comes in pieces, [`read_line`] takes a line apart,
//! and [`auth_of`] and [`message_of`] read the parameters of a report. [`write_registration`] and
//! [`write_result`] write what a filter says to smtpd. From `mq_client/src/filter.rt`:
//!
//!     let line = match read_line(bytes) {
//!         Ok(line) => line,
//!         Err(fault) => return Err(FilterFault::Line(fault)),
//!     };
//!
//! It stands on no crate of ours. It knows nothing of quotas, logins and sessions, nor of the
//! server. Begin with `specs/Grammar.antt`, what a line means and which fault it has, and
//! `reading.rt`. docs/LINES.md has the protocol.
#![tactic(auto)]

mod fault;
mod feed;
mod fields;
mod laws;
mod parameters;
mod reading;
mod results;

pub use fault::{FeedFault, LineFault};
pub use feed::{LineFeed, MAX_LINE};
pub use laws::{any_cutting, one_meaning, one_splitting};
pub use parameters::{AuthResult, auth_of, message_of};
pub use reading::{Line, read_line};
pub use results::{Decision, write_registration, write_result};
