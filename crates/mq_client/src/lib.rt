//! The client of the quota server: numbered requests, each sent again unchanged until a reply
//! decides it, and the filter's loop, which asks before a recipient is let through.
//!
//! A [`Client`] is one run's: `reserve` asks for a recipient, `close` ends a transaction, `drain`
//! sends what waits. [`run_filter`] reads smtpd's lines and answers them by it. From
//! `mq_remote/src/subcommands/filter.rt`:
//!
//!     match run_filter(log, alloc, input, output, link, client) {
//!         Ok(_) => Ok(0),
//!
//! It stands on `mq_line`, `mq_track`, `mq_request`, `mq_stream`, `mq_frame` and `mq_link`: it
//! knows lines, sessions, requests and any link, and nothing of a ledger or of TCP. Begin with
//! `specs/Past.antt`, what a client did and what stands after it, then `client.rt`, `tries.rt`,
//! where a request is sent again, and `filter.rt`. docs/CLIENT.md has the rules.
#![tactic(auto)]

mod answer;
mod client;
mod fault;
mod filter;
mod held_transaction;
mod holdup;
mod journal;
mod laws;
mod logged_limits;
mod moves;
mod named_request;
mod observer;
mod pauses;
mod recipient_answer;
mod refusal;
mod retired;
mod session;
mod spans;
mod transactions;
mod tries;
mod verdict;
mod warnings;

pub use client::Client;
pub use fault::FilterFault;
pub use filter::{RunEnd, run_filter};
pub use held_transaction::HeldTransaction;
pub use laws::{
    closed_is_not_asked_for, few_at_a_time, in_turn, one_request_for_a_number, one_run, readings,
    settles_are_of_what_was_let, when_pauses_begin, without_spans,
};
pub use observer::{AnswerKind, FilterEvent, Observer};
pub use recipient_answer::{RecipientAnswer, TimedAnswer};
pub use spans::Spans;
