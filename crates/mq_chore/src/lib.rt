//! What is done between the requests to a ledger, piece by piece.
//!
//! A server that has a [`Chore`] goes on with it after each round over its connections. The chore
//! may ask the ledger and leaves its book as it is; what it has done fits the ledger with all that
//! came to it meanwhile. [`NoChore`] has nothing to do. From `mq_connections/src/serving.rt`:
//!
//!     match chore.go_on(ledger) {
//!         Piece::Done => return Ok(ServingEnd::Chore),
//!         wanted => piece = wanted,
//!     }
//!
//! It stands on `mq_request` and `mq_ledger`, and knows neither what a chore does nor who goes on
//! with it. Begin with `specs/Choring.antt`, what came to a ledger since a piece was done.
#![tactic(auto)]

mod chore;

pub use chore::{Chore, NoChore, Piece};
