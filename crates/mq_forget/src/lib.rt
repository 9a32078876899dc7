//! A ledger's history without the days that are over: what stays of it, that whoever asks about
//! later days gets the same answers, and a new ledger that has it.
//!
//! [`carry_over`] has a new ledger apply what is remembered of a history from a day on. From
//! `mq_forget/src/carry.rt`:
//!
//!     for entry in history {
//!         if stays(history, &zone, day, entry) {
//!             ask(ledger, &entry.request)?;
//!         }
//!     }
//!
//! It stands on `mq_request` and `mq_ledger`, and is proved over any ledger; it knows no rows and
//! no store. Begin with `specs/Remembered.antt`, what is remembered, and `laws.rt`, what that
//! keeps. docs/LEDGER.md has both in words.
#![tactic(auto)]

mod carry;
pub mod laws;

pub use carry::carry_over;
