//! A quota ledger in the tables of a store: a numbered request, or several that are put together,
//! is one transaction, committed before any reply is given.
//!
//! [`SqlLedger`] is a [`Ledger`](mq_ledger::Ledger): `create` makes its tables, `open` checks and
//! audits those that a store has, `apply` answers a request and `apply_all` several, and
//! `carry_over` makes a new ledger of what an old one remembers from a day on. A [`Renewal`] makes
//! that ledger a few answers at a time, while requests come to the old one. From
//! `mq_program/src/store.rt`:
//!
//!     match SqlLedger::open(alloc, connection, settings.zone, settings.default) {
//!         Ok(ledger) => Ok(ledger),
//!         Err(refused) => Err(refused_by(log, path, false, settings, refused)),
//!     }
//!
//! It stands on `mq_request`, `mq_frame`, `mq_ledger`, `mq_forget`, `mq_chore`, `mq_rows` and
//! `mq_tables`: it knows what a ledger means, its rows and its statements, and nothing of
//! connections or files. Begin with `specs/Soundness.antt`, when a store is a sound ledger.
//! docs/STORE.md says it in words.
//!
//! A request goes from `SqlLedger::apply` in `ledger.rt` to `apply.rt`, its transaction and the
//! commit, through `take.rt`, whether its number is known and what a new one comes to, to
//! `write.rt`, where the reply is stored with the other rows, and `giving_up.rt`, what a retire
//! closes and clears; `listing.rt` answers what is only read, and `fault.rt` has why a step was
//! refused. `together.rt` takes several in one transaction (`specs/Together.antt`).
//! `specs/Taking.antt` says what they do to the tables, `specs/GivingUp.antt` what a
//! retire does, `specs/Paging.antt` what is read, and `specs/Inside.antt` how a step says so.
//! `opening.rt` and `auditing.rt` are an open. A new ledger is made of an old one by `recall.rt`,
//! what an old row tells, `carry.rt`, one step, `slice.rt`, so many steps, and `fill.rt`, all of
//! them: `forgetting.rt` does that at once, and `renewal.rt` a piece at a time. `laws.rt` has what
//! their proofs stand on.
#![tactic(auto)]

mod apply;
mod auditing;
mod carry;
mod counting;
mod days;
mod fault;
mod fill;
mod forgetting;
mod giving_up;
mod laws;
mod ledger;
mod limits;
mod listing;
mod memory;
mod opening;
mod recall;
mod renewal;
mod renewal_place;
mod slice;
mod take;
mod together;
mod transaction_days;
mod write;

pub use auditing::RowCounts;
pub use days::ReservedDays;
pub use fault::{OpenFault, OpenRefused, StoreCause};
pub use laws::arrivals_leave_what_was_taken_over;
pub use ledger::SqlLedger;
pub use mq_rows::Audit;
pub use renewal::Renewal;
pub use transaction_days::TransactionDays;
