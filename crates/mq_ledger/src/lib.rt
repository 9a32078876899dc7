//! What a login may send: the ledger of a quota server, by the list of all requests that it
//! applied.
//!
//! [`Ledger`] is the trait that all code above is proved over: `apply` answers a request by the
//! whole history, and a number that comes again gets its stored reply. [`PlainLedger`] keeps the
//! list itself; `mq_store` keeps it in tables. A [`Zone`] says on which day a moment lies. From
//! `mq_server/src/answer.rt`:
//!
//!     match ledger.apply(request) {
//!         Ok(reply) => Ok(Some(reply)),
//!         Err(LedgerFault::Memory) => Ok(Some(Reply::Retry)),
//!         Err(LedgerFault::Store) => Err(ServeFault::Store),
//!     }
//!
//! It stands on `mq_request`, and knows requests, replies and their ranges, but no bytes. Begin
//! with `specs/History.antt` and `specs/Answer.antt`, then `ledger.rt`; `laws.rt` has what follows.
//! docs/LEDGER.md has it in words.
#![tactic(auto)]

mod entry;
pub mod laws;
mod ledger;
mod outcome;
mod plain;
mod zone;

pub use entry::Entry;
pub use ledger::{Ledger, LedgerFault, ReportedCall};
pub use outcome::Outcome;
pub use plain::PlainLedger;
pub use zone::{BadOffset, RuleFault, Zone};
