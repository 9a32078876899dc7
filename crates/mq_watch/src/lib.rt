//! What an administrator has to see of the requests that come to a ledger.
//!
//! A [`WatchedLedger`] logs what is asked of another ledger: each limit and each retire, with what
//! it was answered; a mail host whose clock isn't today's, that asks from two addresses or under a
//! retired run; a login that nears its limit, or is refused all the time. It answers as the other
//! does, but to what the permits don't allow the peer, and to a retire or a reserve that is far
//! ahead of the server's clock, and its contracts are about the other's book. A server says by
//! [`Hear`] whose requests come. From `mq_program/src/serving.rt`:
//!
//!     let mut watched = WatchedLedger::new(rt, log, rt.alloc(), ledger, days);
//!     let mut chore = InnerChore { chore };
//!
//! It stands on `mq_request`, `mq_permits`, `mq_ledger`, `mq_chore` and `mq_metrics`: it knows
//! requests, replies and days, and of a connection its peer alone. [`InnerChore`] has a chore of the
//! other ledger go on. Begin with `watch.rt`, which requests are put to the ledger, and
//! `specs/Seen.antt`, what is to be seen of each: `watch.rt` finds it, and `watched.rt` logs it.
#![tactic(auto)]

mod ahead;
mod allowed;
mod askers;
mod asking;
mod calendar;
mod clock;
mod counting;
mod hear;
mod holdings;
mod hourly;
mod hours;
mod inner_chore;
pub mod laws;
mod nearing;
mod notes;
mod notice;
mod refusals;
mod strangers;
mod unanswered;
mod watch;
mod watched;

pub use calendar::LedgerDays;
pub use clock::millis_of;
pub use hear::Hear;
pub use hours::are_far;
pub use inner_chore::InnerChore;
pub use watched::WatchedLedger;
