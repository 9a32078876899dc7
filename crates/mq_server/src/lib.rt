//! The engine of the quota server: one connection without its socket, and one or several over any
//! source, sink and ledger.
//!
//! A [`Connection`] takes bytes as they come, answers the whole frames among them and holds the
//! replies until they are taken. [`serve`] is a loop over it that reads and writes, [`serve_all`]
//! goes through several. From `mq_replay/src/replay.rt`:
//!
//!     let mut inputs = inputs_of(alloc, connections)?;
//!     let mut written = outputs_for(alloc, connections)?;
//!     let ends = serve_all(alloc, inputs.as_mut_slice(), written.as_mut_slice(), ledger)?;
//!
//! It stands on `mq_request`, `mq_stream`, `mq_frame` and `mq_ledger`: it knows frames and any
//! ledger through its trait, and neither sockets nor time. Begin with `specs/Text.antt`, the bytes
//! that a connection carries, and `connection.rt`; `laws.rt` says that how the bytes are cut
//! changes nothing. docs/FRAMES.md has the format of requests and replies.
#![tactic(auto)]

mod answer;
mod connection;
mod connections;
mod fault;
mod input;
pub mod laws;
mod output;
mod serving;
mod step;

pub use connection::{Connection, ENOUGH, EndCause, Progress};
pub use connections::{ConnectionEnd, serve_all};
pub use fault::ServeFault;
pub use input::PIECE;
pub use serving::serve;
