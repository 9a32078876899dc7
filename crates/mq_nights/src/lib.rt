//! Days leave a ledger while its server serves.
//!
//! [`pass_night`] serves connections until days are due to be forgotten and a new ledger has
//! exactly what stays, which it takes over between the rounds. [`what_is_due`] says which days
//! those are, and [`Parts`] makes the store of the new ledger. From `mq_program/src/nights.rt`:
//!
//!     match pass_night(
//!         rt,
//!         log,
//!         rt.alloc(),
//!         network,
//!         times,
//!         nights.permits,
//!         nights.keep,
//!         seen,
//!         parts,
//!         &mut serving,
//!         left,
//!     ) {
//!
//! It stands on `mq_request`, `mq_permits`, `mq_ledger`, `mq_forget`, `mq_chore`, `mq_server`,
//! `mq_link`, `mq_watch`, `mq_store` and `mq_connections`: it knows when a renewal is due and goes
//! on with it, and neither files nor how the one ledger takes the other's place. Begin with
//! `specs/Due.antt`, which days are due, and `night.rt`; `evening.rt` is the chore beside the
//! serving.
#![tactic(auto)]

mod due;
mod evening;
mod lookout;
mod moments;
mod night;
mod parts;
mod tended;
mod terms;

pub use due::{DueDays, day_ahead, night_of, what_is_due};
pub use evening::{Evening, RenewedLedger};
pub use lookout::{Seen, due_at};
pub use moments::Moments;
pub use night::pass_night;
pub use parts::{Look, NoPart, Parts};
pub use terms::NightTerms;
