//! The program: a sending-quota filter for smtpd, and the quota server that its hosts share.
//!
//! `main` hands the words of its process to `mq_words`, and has `mq_remote` or `mq_program` do what
//! they ask for. From `mailquota/src/main.rt`:
//!
//!     program::run(&rt, dial, Unknown, Unknown, output, &mut rt.stderr())
//!
//! It stands on `mq_request`, `mq_stream`, `mq_link`, `mq_words`, `mq_process`, `mq_remote` and
//! `mq_program`, and knows which subcommand is whose, its streams, its exit status, and that nothing
//! is known of a file. Begin with `program.rt`, then `subcommand.rt`; `specs/Done.antt` says what
//! status 0 means, and docs/ARCHITECTURE.md shows how the data flows from there.
#![tactic(auto)]

mod asking;
mod ledgers;
mod program;
mod subcommand;
mod version;

use mq_process::Dialer;
use sqlite::Unknown;
use std::io;
use std::process::ExitCode;

/// `Unknown` is what a database file and its log hold, one that a server left or one that is just
/// made: all that is proved of a server is proved whatever that is, and this is the one place that
/// names it. A write that the disk tears leaves each byte old or new.
fn main(rt: HostRuntime) -> ExitCode {
    let dial = &Dialer::new(&rt);
    let output = &mut io::writer(&rt);
    ExitCode::from(program::run(&rt, dial, Unknown, Unknown, output, &mut rt.stderr()))
}
