//! Tests of a ledger in the tables of a store, and of both ends over a ledger: the client, a link
//! that loses, repeats and delays, and a ledger in a list or in tables. With them stands what no
//! run of the program meets of its clock, its store and its output.
//!
//! What a test compares are rows in tables, as in `mq_ends_tests`, and schedules come from fixed
//! seeds. The two kinds of ledger, from `mq_store_tests/src/asks.rt`:
//!
//!     pub fn plain(alloc: Global, default: u32) -> PlainLedger {
//!         PlainLedger::new(alloc, zone(0), default.min(1_000_000))
//!     }
//!
//! It calls the libraries of both ends and of the tables by what is public. Begin with
//! `store/worked.rt`, requests and their replies, and `world/schedules.rt`, both ends.
#![tactic(auto)]

#[cfg(test)]
mod asker;
#[cfg(test)]
mod asks;
#[cfg(test)]
mod forgetting;
#[cfg(test)]
mod program;
#[cfg(test)]
mod renewals;
#[cfg(test)]
mod store;
#[cfg(test)]
mod world;
