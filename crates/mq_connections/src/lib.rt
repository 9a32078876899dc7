//! The connections of a server that are open at once, over streams that don't block: each has its
//! turns, and none waits for another's peer.
//!
//! [`serve_connections`] accepts so many connections and serves each to its end: what
//! came is held, whole frames are answered through a ledger, those that stand next on several
//! connections together, and the peer takes the replies as it can. Between the rounds it goes on
//! with a chore, and ends where that is done. It goes over any [`Port`], of which [`Sockets`] is the
//! one of a server, and [`serve_network`] over any [`Network`]. From
//! `mq_program/src/serving.rt`:
//!
//!     let _ended = serve_connections(
//!
//! It stands on `mq_request`, `mq_permits`, `mq_ledger`, `mq_chore`, `mq_metrics`, `mq_server`,
//! `mq_link` and `mq_watch`: it knows how a connection is answered and when it is late, over any
//! ledger that is told each peer and what it may ask, and neither tables nor what a chore does. Begin
//! with `serving.rt`, the rounds over all that is open, and `specs/Sessions.antt`, what came on each
//! connection and what it was answered.
#![tactic(auto)]

mod accept;
mod fault;
mod given_up;
pub mod laws;
mod lent;
mod network;
mod opened;
mod room;
mod serving;
mod sockets;
mod stay;
mod together;

pub use accept::Connections;
pub use fault::RoomFault;
pub use network::{Network, Port};
pub use serving::{ServingEnd, serve_connections, serve_network};
pub use sockets::Sockets;
pub use stay::{Stay, Times};
