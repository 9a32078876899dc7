//! The rows of the ledger's tables as typed records, without a store: which rows a history has, and
//! what a request reads and writes of them.
//!
//! [`decide`] answers a request whose number is new from the rows that were found, with all that is
//! then written; laws say that this leads from the rows of a history to those of the next. From
//! `mq_store/src/take.rt`:
//!
//!     let arrivals = read_arrivals(tx)?;
//!     let found = find(tx, zone, request)?;
//!     Ok(decide(alloc, zone, default, arrivals, id, request, found)?)
//!
//! It stands on `mq_request`, `mq_frame` and `mq_ledger`: it knows what a ledger means and how a
//! body is spelled, and nothing of SQL; of `sqlite_trees` its proofs take lemmas of lists. Begin
//! with `specs/Rows.antt`, the rows of a history, and `outcome.rt`, where the limit is compared.
//! docs/STORE.md has the tables.
#![tactic(auto)]

mod audited;
mod auditing;
mod books;
pub mod laws;
mod outcome;
mod plan;
mod record;
mod repeat;
mod setting;
mod usage;
mod write;

pub use audited::{Audit, LimitFigures, Pair, TransactionFigures, UsageFigures};
pub use auditing::Books;
pub use plan::{FoundRows, Plan, Runs, Write};
pub use record::{
    AnswerRecord, LimitRecord, RetiredRecord, SettingRecord, TransactionRecord, UsageRecord,
};
pub use repeat::stored_reply;
pub use setting::{VERSION, older_version};
pub use usage::{page_row, usage_reply};
pub use write::decide;
