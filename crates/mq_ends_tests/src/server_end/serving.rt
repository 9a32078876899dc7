//! Serving over devices of the tests. None of it has a clause, so that the tests stay cheap to
//! prove.

use crate::server_end::asserts::{assert_bytes, assert_that};
use crate::server_end::fixtures::bytes_of;
use mq_ledger::{Ledger, PlainLedger, Zone};
use mq_server::{EndCause, ServeFault, serve};
use mq_stream::{FromRead, Sink, Source, WriterSink};
use std::alloc::Global;
use std::process::Abort;

/// An empty ledger of UTC days, whose logins may send so many recipients a day, at most 1,000,000.
pub fn ledger(rt: &impl Abort, alloc: Global, default: u32) -> PlainLedger {
    assert!(rt; default <= 1_000_000);
    PlainLedger::new(alloc, Zone::of_offset(0).expect(rt, "UTC"), default)
}

/// Serves one connection.
pub fn run<S: Source, W: Sink, L: Ledger>(
    alloc: Global,
    input: &mut S,
    output: &mut W,
    ledger: &mut L,
) -> Result<EndCause, ServeFault> {
    serve(alloc, input, output, ledger)
}

/// Serves the frames over memory: the connection ends so, and just the replies are written.
pub fn check_served(
    rt: &impl Abort,
    alloc: Global,
    ledger: &mut impl Ledger,
    frames: &str,
    end: EndCause,
    replies: &str,
) {
    let input = bytes_of(rt, alloc, frames);
    let mut output = WriterSink::new(Vec::new(alloc));
    let ended = run(
        alloc,
        &mut FromRead::new(input.as_slice()),
        &mut output,
        ledger,
    );
    assert_that(rt, ended == Ok(end), frames);
    assert_bytes(
        rt,
        &output.into_inner(),
        &bytes_of(rt, alloc, replies),
        frames,
    );
}
