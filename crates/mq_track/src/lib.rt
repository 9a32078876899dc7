//! Who sends in a session of smtpd, and in which transaction.
//!
//! A [`Tracker`] takes the reports of smtpd-filters(7) line by line. `apply` answers the closing
//! that a line brings, and `standing` says which login and open transaction a session has. Its
//! answers are those that one finds by looking back over all lines that it accepted. From
//! `mq_client/src/filter.rt`:
//!
//!     match tracker.apply(line) {
//!         Ok(closing) => {
//!             let paused = holdup.is_paused();
//!             match close(rt, session_of(line), closing, paused, holdup, link, client) {
//!
//! It stands on `mq_line`, and knows what a line says; it knows nothing of recipients, requests and
//! limits. Begin with `specs/Sessions.antt`, the login and the open transaction of a session, and
//! `tracker.rt`.
#![tactic(auto)]

mod closing;
mod event;
mod fault;
pub mod laws;
mod sessions;
mod standing;
mod tracker;

pub use closing::{CloseEnd, Closing};
pub use fault::TrackFault;
pub use standing::Standing;
pub use tracker::Tracker;
