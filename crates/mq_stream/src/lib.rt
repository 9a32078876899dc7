//! The two ends of a stream of bytes, each of which says whether it has failed.
//!
//! A [`Source`] gives bytes and a [`Sink`] takes them; from their first failing call on each call
//! fails. [`FromRead`] and [`WriterSink`] make them of std's readers and writers. From
//! `mq_client/src/filter.rt`:
//!
//!     match write_and_flush(output, text.as_slice()) {
//!
//! It stands on no crate of ours, and knows nothing of what the bytes say. Begin with `source.rt`
//! and `sink.rt`; `specs/Flow.antt` has what a failed device leaves.
#![tactic(auto)]

mod error;
mod sink;
mod source;

pub use error::DeviceFault;
pub use sink::{Sink, WriterSink, write_and_flush};
pub use source::{FromRead, Source};
