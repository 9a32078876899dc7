//! Requests to the quota server and its replies, as values.
//!
//! A [`Request`] names what a host or an administrator asks, a [`Reply`] what the server answers;
//! [`is_request`] and [`is_reply`] test whether each field is in its range. A host, a login and
//! other bytes are types of their own ([`Text`]), and [`EscapedText`] prints them. From
//! `mq_process/src/asking.rt`:
//!
//!     if !is_host(host.as_bytes()) {
//!
//! It stands on no crate of ours, and knows neither how a request is spelled nor what it does.
//! Begin with `message.rt` and `specs/Range.antt`, the range of each field; `escaped.rt` has how a
//! login is printed.
#![tactic(auto)]

pub mod bounds;
mod escaped;
pub mod laws;
mod message;
mod range;
mod text;
mod usage;

pub use escaped::EscapedText;
pub use message::{Id, Reply, Request};
pub use range::{are_host_bytes, is_host, is_login, is_moment, is_reply, is_request, is_run};
pub use text::{Bytes, Host, Login, Text};
pub use usage::{UsageRow, UsageRows};
