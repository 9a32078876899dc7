//! The link to the quota server: one frame out, the body of one reply back, and how that goes over
//! TCP within its time.
//!
//! [`Link`] is the trait that the filter's client and the commands are proved over, whatever
//! carries the frames; [`read_body`] is the one reader of a reply's body. [`TcpLink`] is a link
//! over whatever makes its connections ([`Connect`]), the program's [`Connector`] over sockets, and
//! [`LoggedLink`] is any link with a log of its outages. [`TimedStream`] has a stream waited for
//! until a deadline and no longer; the server, which waits for all its connections at once, takes
//! [`deadline_after`] and [`moment_after`] alone. From `mq_client/src/tries.rt`:
//!
//!     match link.exchange(framed.frame.as_slice(), body) {
//!         Ok(()) => answered(verdict_in(&framed.request, body.as_slice())),
//!         Err(fault) => faulted(fault),
//!     }
//!
//! It stands on `mq_request` and `mq_frame`, for the type of its bytes, for how a frame begins, and
//! for which replies answer; it doesn't know what a request asks. Begin with `link.rt` and
//! `specs/Link.antt`, what a link says of its exchanges; then `specs/Exchange.antt`, what an
//! exchange over TCP writes and reads, and `tcp.rt`.
#![tactic(auto)]

mod body;
mod connect;
mod kept;
mod link;
mod logged;
mod outage;
mod tcp;
mod timed;
mod trouble;

pub use body::{BodyFault, read_body};
pub use connect::{Connect, Connector};
pub use kept::KeptStream;
pub use link::{ExchangeOutcome, Link, LinkFault, ReportedExchange};
pub use logged::{Explain, LoggedLink};
pub use tcp::TcpLink;
pub use timed::{TimedStream, deadline_after, moment_after};
pub use trouble::Trouble;
