//! Tests of both ends of the link, without the tables: worked examples, what a real smtpd wrote,
//! printed text, and what fails once, which no contract says.
//!
//! What a test compares stands in tables, and what takes their rows has no clauses and ends the
//! test where something is wrong, so that it is cheap to prove. The gate runs the tests without
//! their proofs. From `mq_ends_tests/src/server_end/serving.rt`:
//!
//!     let ended = run(
//!         alloc,
//!         &mut FromRead::new(input.as_slice()),
//!         &mut output,
//!         ledger,
//!     );
//!     assert_that(rt, ended == Ok(end), frames);
//!
//! It calls the libraries of both ends by what is public, and loads no SQL. Begin with
//! `filter_end/client.rt` or `server_end/server.rt`.
#![tactic(auto)]

#[cfg(test)]
mod filter_end;
#[cfg(test)]
mod orders;
#[cfg(test)]
mod questions;
#[cfg(test)]
mod server_end;
