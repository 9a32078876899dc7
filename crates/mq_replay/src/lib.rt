//! `replay`: frames in hexadecimal, answered over any ledger, and printed as hexadecimal.
//!
//! [`read_connections`] reads the text, and [`replay_over`] answers its connections in turn. From
//! `mq_program/src/replaying.rt`:
//!
//!     let mut ledger = PlainLedger::new(alloc, zone, default);
//!     replay_over(alloc, connections, &mut ledger, output)
//!
//! It stands on `mq_stream`, `mq_ledger`, `mq_server` and `mq_command`: it knows texts, any ledger
//! and any output, and makes no ledger. Begin with `replay.rt`; its definitions are
//! `specs/Replay.antt`, and those of the text `specs/Connections.antt`.
#![tactic(auto)]

mod connections;
mod lines;
mod replay;

pub use connections::{TEXT_LIMIT, TextFault, read_connections};
pub use replay::{Ending, ReplayFault, replay_over};
