//! Worked examples of the link, and what no contract says.
mod devices;

use crate::server_end::asserts::{MEMORY, assert_printed, assert_that};
use crate::server_end::fails_once::FailsOnce;
use crate::server_end::fixtures::{bytes_of, split};
use crate::server_end::serving::{check_served, ledger, run};
use devices::{Flushing, Pieces, Room, Telling, Watching};
use mq_ledger::{Ledger, LedgerFault};
use mq_server::{ConnectionEnd, EndCause, ServeFault, serve_all};
use mq_stream::{Sink, Source};
use std::alloc::Global;
use std::cell::Cell;
use std::process::Abort;

/// One recipient reserved for the login `u` under the number 1 of run 1 of host `a`, and its reply.
pub const RESERVE: &str =
    "0021 01 0161 0000000000000001 00000001 00000001 0000000000015180 0175 00000001";

const GRANTED: &str = "0013 81 0161 0000000000000001 00000001 00000001";

/// What the login `u` has used on day 1.
const USAGE: &str = "0007 05 0175 00000001";

/// The reply to it where nothing was reserved.
const NONE_USED: &str = "0013 8b 0175 00000001 00000000 00000000 00000003";

/// A recipient reserved twice, one of the two settled, what is used, and the settling under another
/// number.
const SETTLING: &str = "\
    0021 01 0161 0000000000000001 00000001 00000001 0000000000015180 0175 00000001 \
    0021 01 0161 0000000000000001 00000002 00000001 0000000000015180 0175 00000001 \
    0021 02 0161 0000000000000001 00000003 00000001 0000000000015180 0175 00000001 \
    0007 05 0175 00000001 \
    0021 02 0161 0000000000000001 00000004 00000001 0000000000015180 0175 00000001";

const SETTLED: &str = "\
    0013 81 0161 0000000000000001 00000001 00000001 \
    0013 81 0161 0000000000000001 00000002 00000002 \
    0013 83 0161 0000000000000001 00000003 00000001 \
    0013 8b 0175 00000001 00000001 00000000 00000003 \
    000f 87 0161 0000000000000001 00000004";

/// The first reserve again and again, and what is used then.
const RESERVED_FOUR_TIMES: &str = "\
    0021 01 0161 0000000000000001 00000001 00000001 0000000000015180 0175 00000001 \
    0021 01 0161 0000000000000001 00000001 00000001 0000000000015180 0175 00000001 \
    0021 01 0161 0000000000000001 00000001 00000001 0000000000015180 0175 00000001 \
    0021 01 0161 0000000000000001 00000001 00000001 0000000000015180 0175 00000001 \
    0007 05 0175 00000001";

const GRANTED_FOUR_TIMES: &str = "\
    0013 81 0161 0000000000000001 00000001 00000001 \
    0013 81 0161 0000000000000001 00000001 00000001 \
    0013 81 0161 0000000000000001 00000001 00000001 \
    0013 81 0161 0000000000000001 00000001 00000001 \
    0013 8b 0175 00000001 00000000 00000001 00000003";

/// How many bytes of `SETTLING` its first frames have, and of `SETTLED` the replies to them.
const FRONTS: &[(usize, usize)] = &[(0, 0), (35, 21), (70, 42), (105, 63), (114, 84), (149, 101)];

/// What the whole frames among so many bytes of `SETTLING` have, and their replies.
fn whole_frames(count: usize) -> (usize, usize) {
    let mut whole = (0, 0);
    for front in FRONTS {
        if front.0 <= count {
            whole = *front;
        }
    }
    whole
}

/// Serves one connection: it ends so, and just what the sink wants is written.
fn check_connection(
    rt: &impl Abort,
    alloc: Global,
    ledger: &mut impl Ledger,
    mut source: Pieces<'_>,
    mut sink: Room<'_>,
    end: Result<EndCause, ServeFault>,
) {
    let ended = run(alloc, &mut source, &mut sink, ledger);
    assert_that(rt, ended == end, "how it ends");
    assert_that(rt, sink.is_right(), "what is written");
}

/// Serves several connections in turn. Without clauses, so that its callers stay cheap to prove.
fn run_all<S: Source, W: Sink, L: Ledger>(
    rt: &impl Abort,
    alloc: Global,
    inputs: &mut [S],
    outputs: &mut [W],
    ledger: &mut L,
) -> Result<Vec<ConnectionEnd>, ServeFault> {
    assert!(rt; inputs.len() == outputs.len());
    serve_all(alloc, inputs, outputs, ledger)
}

/// Just what the sinks want was written.
fn check_outputs(rt: &impl Abort, outputs: &[Room<'_>]) {
    for output in outputs {
        assert_that(rt, output.is_right(), "what is written");
    }
}

/// Serves several connections in turn: this is printed of how they end, and just what the sinks
/// want is written.
fn check_all(
    rt: &impl Abort,
    alloc: Global,
    ledger: &mut impl Ledger,
    inputs: &mut [Pieces<'_>],
    outputs: &mut [Room<'_>],
    ends: &str,
) {
    let ended = run_all(rt, alloc, inputs, outputs, ledger);
    assert_printed(rt, alloc, &ended, ends);
    check_outputs(rt, outputs);
}

/// Inputs, and what is written and how the connection ends on each.
const ENDS_BY_INPUT: &[(&str, &str, EndCause)] = &[
    ("", "", EndCause::InputEnd),
    (RESERVE, GRANTED, EndCause::InputEnd),
    ("00", "", EndCause::CutFrame),
    ("002101", "", EndCause::CutFrame),
    ("0000", "0001 8e", EndCause::BadFrame),
    ("0201", "0001 8e", EndCause::BadFrame),
    ("0008 05 0175 00000001 00", "0001 8e", EndCause::BadFrame),
    (
        "0021 01 0161 0000000000000001 00000001 00000001 000000000001517f 0175 00000001",
        "0001 8e",
        EndCause::BadFrame,
    ),
    (
        "0007 05 0175 00000001 0000 0007 05 0175 00000001",
        "0013 8b 0175 00000001 00000000 00000000 00000003 0001 8e",
        EndCause::BadFrame,
    ),
];

/// Each end of a connection that comes by its input.
#[test]
fn ends_by_the_input(rt: HostRuntime) {
    let alloc = rt.alloc();
    for (input, output, end) in ENDS_BY_INPUT {
        check_served(&rt, alloc, &mut ledger(&rt, alloc, 3), input, *end, output);
    }
}

/// However short the reads and writes, the answers are the same.
#[test]
fn pieces_of_one_byte(rt: HostRuntime) {
    let alloc = rt.alloc();
    for (frames, replies) in &[(RESERVE, GRANTED), (SETTLING, SETTLED)] {
        let input = bytes_of(&rt, alloc, frames);
        let output = bytes_of(&rt, alloc, replies);
        let source = Pieces::new(&input, 1);
        let sink = Room::new(&output, usize::MAX);
        let mut ledger = ledger(&rt, alloc, 3);
        check_connection(
            &rt,
            alloc,
            &mut ledger,
            source,
            sink,
            Ok(EndCause::InputEnd),
        );
    }
}

/// Each answer is flushed before the next read.
#[test]
fn flushes_before_it_reads(rt: HostRuntime) {
    let alloc = rt.alloc();
    let input = bytes_of(&rt, alloc, SETTLING);
    let unflushed = Cell::new(false);
    let mut source = Watching {
        rest: &input,
        unflushed: &unflushed,
        early: false,
    };
    let mut sink = Flushing {
        unflushed: &unflushed,
    };
    let end = run(alloc, &mut source, &mut sink, &mut ledger(&rt, alloc, 3));
    assert!(rt; end == Ok(EndCause::InputEnd));
    assert!(rt; !source.early);
}

/// The bytes of a text, so many times over.
fn repeated(rt: &impl Abort, alloc: Global, text: &str, count: usize) -> Vec<u8> {
    let once = bytes_of(rt, alloc, text);
    let mut bytes = Vec::new(alloc);
    for _ in 0..count {
        bytes.extend_from_slice(&once).expect(rt, MEMORY);
    }
    bytes
}

/// Serves so many frames: 10,000 are answered.
fn check_enough(rt: &impl Abort, alloc: Global, count: usize) {
    let input = repeated(rt, alloc, USAGE, count);
    let output = repeated(rt, alloc, NONE_USED, 10_000);
    let mut ledger = ledger(rt, alloc, 3);
    // 90,000 or 90,009 bytes are 22 reads of at most 4,096, and a further one would fail.
    let source = Pieces {
        rest: &input,
        size: usize::MAX,
        reads: 22,
        failed: false,
    };
    let sink = Room::new(&output, usize::MAX);
    check_connection(rt, alloc, &mut ledger, source, sink, Ok(EndCause::Enough));
}

/// 10,000 frames are answered on a connection, one more gets no answer, and no more is read.
#[test]
fn ten_thousand_frames(rt: HostRuntime) {
    check_enough(&rt, rt.alloc(), 10_000);
    check_enough(&rt, rt.alloc(), 10_001);
}

/// What a ledger told that had no memory for its first call. The host is `a`, and the login `u`.
const CALLS: &str = "[\
    ReportedCall { request: Reserve { id: Id { host: [97], run: 1, number: 1 }, txn: 1, moment: 86400, login: [117], count: 1 }, \
    answer: Err(Memory) }, \
    ReportedCall { request: Reserve { id: Id { host: [97], run: 1, number: 1 }, txn: 1, moment: 86400, login: [117], count: 1 }, \
    answer: Ok(Granted { id: Id { host: [97], run: 1, number: 1 }, used: 1 }) }, \
    ReportedCall { request: Usage { login: [117], day: 1 }, \
    answer: Ok(Usage { login: [117], day: 1, settled: 0, reserved: 1, cap: 3 }) }]";

/// Each frame is one call of the ledger, and `Retry` is the answer to the call that had no memory
/// alone.
#[test]
fn calls_of_a_connection(rt: HostRuntime) {
    let alloc = rt.alloc();
    let frames = "\
        0021 01 0161 0000000000000001 00000001 00000001 0000000000015180 0175 00000001 \
        0021 01 0161 0000000000000001 00000001 00000001 0000000000015180 0175 00000001 \
        0007 05 0175 00000001 0001 07";
    let replies = "\
        0001 8d 0013 81 0161 0000000000000001 00000001 00000001 \
        0013 8b 0175 00000001 00000000 00000001 00000003 0001 8e";
    let mut telling = Telling {
        inner: FailsOnce {
            ledger: ledger(&rt, alloc, 3),
            calls_before: 0,
            fault: LedgerFault::Memory,
        },
        calls: Vec::new(alloc),
        tells: true,
    };
    check_served(
        &rt,
        alloc,
        &mut telling,
        frames,
        EndCause::BadFrame,
        replies,
    );
    assert!(rt; telling.tells);
    assert_printed(&rt, alloc, &telling.calls, CALLS);
}

/// Serves the input over a writer that fails after so many bytes, and then over one that works.
fn check_failing_writer(rt: &impl Abort, alloc: Global, input: &[u8], output: &[u8], count: usize) {
    let mut ledger = ledger(rt, alloc, 3);
    let source = Pieces::new(input, usize::MAX);
    let sink = Room::new(split(output, count).0, count);
    check_connection(rt, alloc, &mut ledger, source, sink, Err(ServeFault::Write));
    let sink = Room::new(output, usize::MAX);
    check_connection(rt, alloc, &mut ledger, source, sink, Ok(EndCause::InputEnd));
}

/// Prints how many places a sweep tried, and says whether it could.
fn is_told(rt: &HostRuntime, what: &str, count: usize, places: &str) -> bool {
    println!(rt; "{what}: {count} {places}").is_ok()
}

/// A writer that fails after any number of bytes has taken just these, and sent again all is as it
/// would have been.
#[test]
fn writer_fails_anywhere(rt: HostRuntime) {
    let alloc = rt.alloc();
    let input = bytes_of(&rt, alloc, SETTLING);
    let output = bytes_of(&rt, alloc, SETTLED);
    for count in 0..output.len() {
        check_failing_writer(&rt, alloc, &input, &output, count);
    }
    assert!(rt; is_told(&rt, "a server's output", output.len(), "places"));
}

/// Serves the input from a reader that fails after so many bytes, and then from one that works.
fn check_failing_reader(rt: &impl Abort, alloc: Global, input: &[u8], output: &[u8], count: usize) {
    let mut ledger = ledger(rt, alloc, 3);
    let source = Pieces::failing(input, count);
    let sink = Room::new(split(output, whole_frames(count).1).0, usize::MAX);
    check_connection(rt, alloc, &mut ledger, source, sink, Err(ServeFault::Read));
    let source = Pieces::new(input, usize::MAX);
    let sink = Room::new(output, usize::MAX);
    check_connection(rt, alloc, &mut ledger, source, sink, Ok(EndCause::InputEnd));
}

/// Before a read that fails just the whole frames are answered, and sent again all is as it would
/// have been.
#[test]
fn reader_fails_anywhere(rt: HostRuntime) {
    let alloc = rt.alloc();
    let input = bytes_of(&rt, alloc, SETTLING);
    let output = bytes_of(&rt, alloc, SETTLED);
    for count in 0..=input.len() {
        check_failing_reader(&rt, alloc, &input, &output, count);
    }
    assert!(rt; is_told(&rt, "a server's input", input.len() + 1, "reads"));
}

/// Serves so many bytes of the input as the whole of it.
fn check_front(rt: &impl Abort, alloc: Global, input: &[u8], output: &[u8], count: usize) {
    let (taken, told) = whole_frames(count);
    let end = if taken == count {
        EndCause::InputEnd
    } else {
        EndCause::CutFrame
    };
    let source = Pieces::new(split(input, count).0, usize::MAX);
    let sink = Room::new(split(output, told).0, usize::MAX);
    check_connection(rt, alloc, &mut ledger(rt, alloc, 3), source, sink, Ok(end));
}

/// Of every prefix of an input just the whole frames are answered.
#[test]
fn input_ends_anywhere(rt: HostRuntime) {
    let alloc = rt.alloc();
    let input = bytes_of(&rt, alloc, SETTLING);
    let output = bytes_of(&rt, alloc, SETTLED);
    for count in 0..input.len() {
        check_front(&rt, alloc, &input, &output, count);
    }
    assert!(rt; is_told(&rt, "a server's input", input.len(), "fronts"));
}

/// The frames sent again get their replies again, also on another connection.
#[test]
fn repeats_over_two_connections(rt: HostRuntime) {
    let alloc = rt.alloc();
    let input = bytes_of(&rt, alloc, RESERVED_FOUR_TIMES);
    let output = bytes_of(&rt, alloc, GRANTED_FOUR_TIMES);
    let (first_input, second_input) = split(&input, 105);
    let (first_output, second_output) = split(&output, 63);
    let mut inputs = [
        Pieces::new(first_input, usize::MAX),
        Pieces::new(second_input, usize::MAX),
    ];
    let mut outputs = [
        Room::new(first_output, usize::MAX),
        Room::new(second_output, usize::MAX),
    ];
    let ends = "Ok([Served(InputEnd), Served(InputEnd)])";
    check_all(
        &rt,
        alloc,
        &mut ledger(&rt, alloc, 3),
        &mut inputs,
        &mut outputs,
        ends,
    );
}

/// The next connection is served after each end but a failed store.
#[test]
fn goes_on_after_an_end(rt: HostRuntime) {
    let alloc = rt.alloc();
    let whole = bytes_of(&rt, alloc, RESERVE);
    let granted = bytes_of(&rt, alloc, GRANTED);
    let mut inputs = [
        Pieces::failing(&whole, 7),
        Pieces::new(&whole, 7),
        Pieces::new(&[0x00, 0x00], 7),
        Pieces::new(&[0x00, 0x21, 0x01], 7),
        Pieces::new(&whole, 7),
    ];
    let mut outputs = [
        Room::new(&[], 100),
        Room::new(&[0x00, 0x13, 0x81, 0x01], 4),
        Room::new(&[0x00, 0x01, 0x8e], 100),
        Room::new(&[], 100),
        Room::new(&granted, 100),
    ];
    let ends = "Ok([Read, Write, Served(BadFrame), Served(CutFrame), Served(InputEnd)])";
    check_all(
        &rt,
        alloc,
        &mut ledger(&rt, alloc, 3),
        &mut inputs,
        &mut outputs,
        ends,
    );
}

/// Where the store fails nothing is written for that frame, and no further connection is served.
#[test]
fn store_fails(rt: HostRuntime) {
    let alloc = rt.alloc();
    let input = bytes_of(&rt, alloc, SETTLING);
    let granted = bytes_of(&rt, alloc, GRANTED);
    let mut faulty = FailsOnce {
        ledger: ledger(&rt, alloc, 3),
        calls_before: 1,
        fault: LedgerFault::Store,
    };
    let mut inputs = [Pieces::new(split(&input, 70).0, usize::MAX); 2];
    let mut outputs = [Room::new(&granted, usize::MAX), Room::new(&[], usize::MAX)];
    check_all(
        &rt,
        alloc,
        &mut faulty,
        &mut inputs,
        &mut outputs,
        "Err(Store)",
    );
}
