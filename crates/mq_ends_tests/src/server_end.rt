//! The server's end: frames, the ledger, the engine, and a link to it.

mod asserts;
mod counting;
mod deadlines;
mod fails_once;
mod fixtures;
mod frame;
mod kept;
mod ledger;
mod link;
mod metrics;
mod nearing;
mod outages;
mod permits;
mod room;
mod server;
mod serving;
mod texts;
mod troubles;
mod watching;
mod wires;
