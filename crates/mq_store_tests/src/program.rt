//! What a subcommand says where the clock, the store or the output fails as no run of the program
//! can be made to meet it. The rest is asked of the built program.
//!
//! The helpers have no clauses, so that a test stays cheap to prove.

use mq_ledger::{LedgerFault, Zone};
use mq_process::{OutputArgument, run_number};
use mq_program::{ProgramFault, audit_ledger};
use mq_store::SqlLedger;
use std::alloc::{AllocError, Global};
use std::io;
use std::io::{ErrorKind, Write};
use std::process::Abort;
use std::rt::Clock;
use std::test::Fail;
use std::time::Duration;

/// Asserts a text. Without clauses, so that its callers stay cheap to prove.
fn assert_text(rt: &impl Abort, found: &str, wanted: &str) {
    assert_eq!(rt; found, wanted);
}

/// A clock that stands still at so many milliseconds after 1970, or can't be read.
#[derive(Clone, Copy)]
struct Stopped(Option<u64>);

impl Clock for Stopped {
    fn monotonic(&self) -> io::Result<Duration> {
        self.since_1970()
    }

    fn since_1970(&self) -> io::Result<Duration> {
        match self.0 {
            Some(millis) => Ok(Duration::from_millis(millis)),
            None => Err(io::Error::from(ErrorKind::Other)),
        }
    }
}

/// The run of a clock, or its fault. Without clauses, so that a test stays cheap to prove.
fn run_at(alloc: Global, millis: Option<u64>) -> Result<String, AllocError> {
    match run_number(&Stopped(millis), None) {
        Ok(run) => format!(in alloc; "run {run}"),
        Err(fault) => format!(in alloc; "{fault}, status {}", fault.status()),
    }
}

const NO_RUN: &str = "run number unavailable, status 1";

/// Times, and the runs of their clocks.
const RUNS: [(Option<u64>, &str); 6] = [
    (None, NO_RUN),
    (Some(0), NO_RUN),
    (Some(1), "run 1"),
    (Some(1_576_146_008_006), "run 1576146008006"),
    (Some(281_474_976_710_655), "run 281474976710655"),
    (Some(281_474_976_710_656), NO_RUN),
];

#[test]
fn run_of_the_clock(rt: HostRuntime) -> Result<(), Fail> {
    for (millis, wanted) in RUNS {
        assert_text(&rt, run_at(rt.alloc(), millis)?.as_str(), wanted);
    }
    // One that is given needs no clock.
    assert_eq!(rt; run_number(&Stopped(None), Some(7)).ok(), Some(7));
    Ok(())
}

/// An output that keeps what it takes, and whose flush fails.
#[derive(Drop)]
struct Unflushed {
    taken: Vec<u8>,
}

impl Write for Unflushed {
    fn write(&mut self, buf: &[u8]) -> io::Result<usize> {
        match self.taken.extend_from_slice(buf) {
            Ok(()) => Ok(buf.len()),
            Err(_) => Err(io::Error::from(ErrorKind::OutOfMemory)),
        }
    }

    fn flush(&mut self) -> io::Result<()> {
        Err(io::Error::from(ErrorKind::BrokenPipe))
    }
}

/// What an audit of a new ledger says over an output whose flush fails, after what it printed.
fn audited_unflushed(alloc: Global) -> Result<String, Fail> {
    let ledger = SqlLedger::in_memory(alloc, Zone::of_offset(0)?, 3)?;
    let mut output = Unflushed {
        taken: Vec::new(alloc),
    };
    let said = match audit_ledger(alloc, OutputArgument::Text, &ledger, &mut output) {
        Ok(()) => String::new(alloc),
        Err(fault) => fault.to_string(alloc)?,
    };
    let mut told = String::from_utf8(output.taken)?;
    told.push_str(said.as_str())?;
    Ok(told)
}

#[test]
fn faults(rt: HostRuntime) -> Result<(), Fail> {
    let told = audited_unflushed(rt.alloc())?;
    assert_text(
        &rt,
        told.as_str(),
        "sound days=0 transactions=0\nwrite failed",
    );
    let store = ProgramFault::Audit(LedgerFault::Store).to_string(rt.alloc())?;
    assert_text(&rt, store.as_str(), "store failed");
    let memory = ProgramFault::Audit(LedgerFault::Memory).to_string(rt.alloc())?;
    assert_text(&rt, memory.as_str(), "out of memory");
    Ok(())
}
