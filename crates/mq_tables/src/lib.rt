//! The tables of a quota ledger in SQL: how they are made, and what each statement reads and leaves
//! of them, over any schema that has them and whatever else the store holds.
//!
//! Each module has the statements on one table, or one question to it, inside the caller's
//! transaction. From `mq_store/src/write.rt`:
//!
//!     write_transaction(tx, &plan.transaction)?;
//!     write_usage(tx, &plan.usage)?;
//!     write_limit(tx, &plan.limit)?;
//!     write_floor(tx, &plan.retired)?;
//!
//! It stands on `mq_request`, `mq_ledger` and `mq_rows`, and knows typed rows; it doesn't know what
//! a request is answered. Begin with `specs/Tables.antt`, the tables as the schema has them, and
//! `usage.rt`, the shortest statements; docs/ARCHITECTURE.md says how a text of SQL is proved, and
//! docs/STORE.md has the tables.
#![tactic(auto)]

pub mod answer;
pub mod ceiling;
pub mod create;
pub mod days;
pub mod entry;
pub mod figures;
pub mod find;
pub mod floor;
pub mod index;
pub mod laws;
pub mod limits;
pub mod names;
pub mod over;
pub mod page;
pub mod retiring;
pub mod rule;
pub mod setting;
pub mod transaction;
pub mod transaction_days;
pub mod usage;
pub mod version;
