//! Figures that a program counts as it works, and the file in which they are told.
//!
//! A [`Counter`], a [`Gauge`] and a [`Histogram`] count through a `&`, so a set of them is lent to
//! whoever has something to count, as the log is. [`ServerMetrics`] is the server's set, and
//! [`FilterMetrics`] the filter's. Each is displayed in Prometheus' text format, whose parts stand in
//! [`text`], and a [`MetricsFile`] is written once a minute. [`CountedLog`] counts the warnings of a
//! log. From `mq_watch/src/counting.rt`:
//!
//!     self.metrics.requests.of(kind, outcome).increment();
//!
//! It stands on `mq_request` alone: it knows the kinds of requests and what they are answered, and
//! neither a ledger nor a connection. No contract speaks of a count, and none depends on one. Begin
//! with `counts.rt` and `server.rt`.
#![tactic(auto)]

mod connections;
mod counted_log;
mod counts;
mod file;
mod filter;
mod histogram;
mod part;
mod requests;
mod server;
pub mod text;
mod warnings;

pub use connections::{ConnectionCounts, GivenUp};
pub use counted_log::CountedLog;
pub use counts::{Counter, Gauge};
pub use file::{MetricsFile, UnwrittenFigures};
pub use filter::{AnswerCounts, ExchangeCounts, FilterFigures, FilterMetrics, HeldBackCounts};
pub use histogram::Histogram;
pub use part::ProgramPart;
pub use requests::{RequestCounts, RequestKind, RequestResult};
pub use server::{NightMetrics, ServerBuild, ServerMetrics};
pub use warnings::WarningCounts;
