//! The client: worked examples, real sessions, and what no contract says.
mod asking;
mod causes;
mod devices;
mod faults;
mod flushing;
mod limits;
mod long;
mod moves;
mod pauses;
mod retires;
mod rows;
mod script;
mod sittings;
mod stops;

use crate::filter_end::asserts::{MEMORY, assert_bytes, assert_count, assert_that};
use crate::filter_end::client::script::ScriptLink;
use log::sink::Memory as Kept;
use mq_client::{Client, FilterFault, RunEnd, Spans, run_filter};
use mq_link::{ExchangeOutcome, LinkFault, ReportedExchange};
use mq_request::{Bytes, Host, is_host};
use mq_stream::{FromRead, Sink, Source, WriterSink};
use std::alloc::Global;
use std::collections::VecDeque;
use std::process::Abort;

const REGISTRATION: &str = "register|report|smtp-in|link-auth
register|report|smtp-in|link-disconnect
register|report|smtp-in|tx-begin
register|report|smtp-in|tx-commit
register|report|smtp-in|tx-rollback
register|report|smtp-in|tx-reset
register|filter|smtp-in|rcpt-to
register|ready
";

const CONFIG: &str = "config|smtpd-version|6.6.1
config|smtp-session-timeout|300
config|subsystem|smtp-in
config|ready
";

const AUTH: &str = "report|0.7|1576146008.006099|smtp-in|link-auth|7641df9771b4ed00|pass|alice
";

const BEGIN: &str = "report|0.7|1576146009.006099|smtp-in|tx-begin|7641df9771b4ed00|4c56d3a1
";

const RECIPIENT: &str =
    "filter|0.7|1576146010.006099|smtp-in|rcpt-to|7641df9771b4ed00|1ef1c203cc576e5d|bob@example.org
";

const COMMIT: &str = "report|0.7|1576146011.006099|smtp-in|tx-commit|7641df9771b4ed00|4c56d3a1|1200
";

const RESET: &str = "report|0.7|1576146012.006099|smtp-in|tx-reset|7641df9771b4ed00|4c56d3a1
";

const PROCEED: &str = "filter-result|7641df9771b4ed00|1ef1c203cc576e5d|proceed
";

const LIMIT: &str =
    "filter-result|7641df9771b4ed00|1ef1c203cc576e5d|reject|550 daily recipient limit reached
";

const SERVICE: &str =
    "filter-result|7641df9771b4ed00|1ef1c203cc576e5d|reject|451 quota service unavailable
";

/// The frame of the first reserve.
const RESERVE: &str =
    "0027 01 036d7831 0000000000000001 00000001 00000001 000000005df21459 05616c696365 00000001";

/// How the body of a grant begins, up to the number of its request.
const GRANT: &str = "81 036d7831 0000000000000001";

const RELEASE: &str =
    "0023 03 036d7831 0000000000000001 00000002 00000001 000000005df21459 05616c696365";

const SETTLE: &str =
    "0027 02 036d7831 0000000000000001 00000002 00000001 000000005df21459 05616c696365 00000001";

/// The grant of the first reserve.
const GRANTED: Reply<'static> = Reply::Body("81 036d7831 0000000000000001 00000001 00000001");

const ONE_RECIPIENT: &[&str] = &[CONFIG, AUTH, BEGIN, RECIPIENT];

const PROCEEDS: &[&str] = &[REGISTRATION, PROCEED];

const REFUSES: &[&str] = &[REGISTRATION, SERVICE];

/// How an exchange ends: by a body of these hexadecimal digits, or by a fault. Or so many of them,
/// each by a grant.
#[derive(Clone, Copy)]
enum Reply<'a> {
    Body(&'a str),
    Fault(LinkFault),
    /// The first recipient of each of so many transactions.
    Transactions(u32),
    /// So many recipients of one transaction.
    Recipients(u32),
    /// The limit refuses so many recipients.
    Full(u32),
}

/// The bytes of hexadecimal digits. Spaces are passed over.
fn bytes_of(rt: &impl Abort, alloc: Global, text: &str) -> Vec<u8> {
    let mut digits = Vec::new(alloc);
    for byte in text.as_bytes() {
        if *byte != b' ' {
            digits.push(*byte).expect(rt, MEMORY);
        }
    }
    hex::decode(alloc, digits.as_slice()).expect(rt, "hexadecimal digits")
}

fn append(rt: &impl Abort, whole: &mut Vec<u8>, part: &[u8]) {
    whole.extend_from_slice(part).expect(rt, MEMORY);
}

fn append_text(rt: &impl Abort, whole: &mut String, part: &str) {
    whole.push_str(part).expect(rt, MEMORY);
}

fn joined(rt: &impl Abort, alloc: Global, parts: &[&str]) -> String {
    let mut whole = String::new(alloc);
    for part in parts {
        append_text(rt, &mut whole, part);
    }
    whole
}

fn add(rt: &impl Abort, script: &mut VecDeque<ExchangeOutcome>, outcome: ExchangeOutcome) {
    script.push_back(outcome).expect(rt, MEMORY);
}

/// Adds the reply whose body begins so and goes on with that number and that count.
fn add_numbered(
    rt: &impl Abort,
    alloc: Global,
    script: &mut VecDeque<ExchangeOutcome>,
    front: &str,
    number: u32,
    count: u32,
) {
    let mut body = bytes_of(rt, alloc, front);
    append(rt, &mut body, &number.to_be_bytes());
    append(rt, &mut body, &count.to_be_bytes());
    add(rt, script, ExchangeOutcome::Answered(Bytes::new(body)));
}

/// Adds the refusal of the request with that number, with 1 used of 1.
fn add_full(rt: &impl Abort, alloc: Global, script: &mut VecDeque<ExchangeOutcome>, number: u32) {
    let mut body = bytes_of(rt, alloc, "82 036d7831 0000000000000001");
    for part in [number, 1, 1] {
        append(rt, &mut body, &part.to_be_bytes());
    }
    add(rt, script, ExchangeOutcome::Answered(Bytes::new(body)));
}

fn add_reply(
    rt: &impl Abort,
    alloc: Global,
    script: &mut VecDeque<ExchangeOutcome>,
    reply: Reply<'_>,
) {
    match reply {
        Reply::Body(text) => {
            let body = bytes_of(rt, alloc, text);
            add(rt, script, ExchangeOutcome::Answered(Bytes::new(body)));
        }
        Reply::Fault(fault) => add(rt, script, ExchangeOutcome::Faulted(fault)),
        Reply::Transactions(last) => {
            for number in 1..=last {
                add_numbered(rt, alloc, script, GRANT, number, 1);
            }
        }
        Reply::Recipients(last) => {
            for number in 1..=last {
                add_numbered(rt, alloc, script, GRANT, number, number);
            }
        }
        Reply::Full(last) => {
            for number in 1..=last {
                add_full(rt, alloc, script, number);
            }
        }
    }
}

/// A link that is answered so, in order; the server is down afterwards.
fn link_of(rt: &impl Abort, alloc: Global, replies: &[Reply<'_>]) -> ScriptLink {
    let mut script = VecDeque::new(alloc);
    for reply in replies {
        add_reply(rt, alloc, &mut script, *reply);
    }
    ScriptLink::new(alloc, script)
}

/// A client of the host mx1 and run 1.
fn client_of(rt: &impl Abort, alloc: Global, tries: u32) -> Client {
    let host = Host::from_slice(alloc, b"mx1").expect(rt, MEMORY);
    if !is_host(host.as_slice()) || tries == 0 || tries > 10 {
        panic!(rt; "no such client");
    }
    Client::new(alloc, &host, 1, tries).expect(rt, MEMORY)
}

/// A client, its link and the log that it writes.
#[derive(Drop)]
struct Rig {
    client: Client,
    link: ScriptLink,
    log: Kept,
}

/// A client with so many tries whose link is answered so.
fn rig_of(rt: &impl Abort, alloc: Global, tries: u32, replies: &[Reply<'_>]) -> Rig {
    Rig {
        client: client_of(rt, alloc, tries),
        link: link_of(rt, alloc, replies),
        log: Kept::new(alloc),
    }
}

/// The same for a row, whose filter holds back for its spans.
fn rig_with(rt: &impl Abort, alloc: Global, row: &Row<'_>) -> Rig {
    let Rig { client, link, log } = rig_of(rt, alloc, row.tries, row.replies);
    Rig {
        client: client.with_spans(row.spans),
        link,
        log,
    }
}

/// How a run ends.
type End = Result<RunEnd, FilterFault>;

/// A run in which smtpd was answered once.
const ONE_ANSWER: End = Ok(RunEnd {
    answers: 1,
    left: 0,
});

const TWO_ANSWERS: End = Ok(RunEnd {
    answers: 2,
    left: 0,
});

const THREE_ANSWERS: End = Ok(RunEnd {
    answers: 3,
    left: 0,
});

/// Runs the filter over these devices.
fn run<S: Source, W: Sink>(alloc: Global, rig: &mut Rig, input: &mut S, output: &mut W) -> End {
    run_filter(
        &rig.log,
        alloc,
        input,
        output,
        &mut rig.link,
        &mut rig.client,
    )
}

/// A run of the filter that was worked out by hand.
#[derive(Clone, Copy)]
struct Row<'a> {
    name: &'a str,
    tries: u32,
    spans: Spans,
    /// What the server answers; it is down afterwards.
    replies: &'a [Reply<'a>],
    /// What smtpd writes.
    lines: &'a [&'a str],
    ended: End,
    /// What the filter writes.
    text: &'a [&'a str],
    /// What is sent to the server.
    sent: Sent<'a>,
    /// How many transactions are held in the end.
    held: usize,
    /// How many closings wait in the end.
    waiting: usize,
    /// How the lines of the log end, where that is looked at.
    log: Option<&'a [&'a str]>,
}

/// What is sent to the server: these frames, or so many.
#[derive(Clone, Copy)]
enum Sent<'a> {
    Frames(&'a [&'a str]),
    Count(usize),
}

/// A recipient is let through, and nothing is asked.
const PLAIN: Row<'static> = Row {
    name: "",
    tries: 3,
    spans: Spans { pause: 0, hold: 0 },
    replies: &[],
    lines: &[],
    ended: ONE_ANSWER,
    text: PROCEEDS,
    sent: Sent::Frames(&[]),
    held: 0,
    waiting: 0,
    log: None,
};

/// Asserts that the run comes out as it was worked.
fn assert_row(rt: &impl Abort, alloc: Global, row: &Row<'_>) {
    let input = joined(rt, alloc, row.lines);
    let output = joined(rt, alloc, row.text);
    assert_run(rt, alloc, row, &input, &output);
}

/// The same of a run that reads and writes this.
fn assert_run(rt: &impl Abort, alloc: Global, row: &Row<'_>, input: &str, output: &str) {
    let mut rig = rig_with(rt, alloc, row);
    let text = written(rt, alloc, &mut rig, input.as_bytes(), row);
    assert_bytes(rt, &text, output.as_bytes());
    assert_sent(rt, alloc, rig.link.kept(), row.sent);
    assert_count(rt, rig.client.held_count(), row.held, row.name);
    assert_count(rt, rig.client.outbox_count(), row.waiting, row.name);
    if let Some(lines) = row.log {
        assert_log(rt, rig, lines);
    }
}

/// Runs the filter on this input, asserts how that ends, and gives what it wrote.
fn written(rt: &impl Abort, alloc: Global, rig: &mut Rig, input: &[u8], row: &Row<'_>) -> Vec<u8> {
    let mut source = FromRead::new(input);
    let mut sink = WriterSink::new(Vec::new(alloc));
    let ended = run(alloc, rig, &mut source, &mut sink);
    assert_ended(rt, ended, row.ended, row.name);
    let _ = source.into_inner();
    sink.into_inner()
}

fn assert_ended(rt: &impl Abort, got: End, wanted: End, name: &str) {
    assert_eq!(rt; got, wanted, "{name}");
}

fn assert_sent(rt: &impl Abort, alloc: Global, kept: &[ReportedExchange], sent: Sent<'_>) {
    match sent {
        Sent::Frames(frames) => assert_frames(rt, alloc, kept, frames),
        Sent::Count(count) => assert_count(rt, kept.len(), count, "exchanges"),
    }
}

/// Asserts that the exchanges had these frames.
fn assert_frames(rt: &impl Abort, alloc: Global, kept: &[ReportedExchange], frames: &[&str]) {
    assert_count(rt, kept.len(), frames.len(), "exchanges");
    for (told, frame) in kept.iter().zip(frames) {
        assert_frame(rt, alloc, told, frame);
    }
}

fn assert_frame(rt: &impl Abort, alloc: Global, told: &ReportedExchange, frame: &str) {
    assert_bytes(rt, told.frame.as_slice(), &bytes_of(rt, alloc, frame));
}

/// Asserts that the log has lines with these ends.
fn assert_log(rt: &impl Abort, rig: Rig, wanted: &[&str]) {
    let Rig { log, .. } = rig;
    assert_lines(rt, log.into_lines().as_slice(), wanted);
}

fn assert_lines(rt: &impl Abort, lines: &[String], wanted: &[&str]) {
    assert_count(rt, lines.len(), wanted.len(), "lines of the log");
    for (line, text) in lines.iter().zip(wanted) {
        assert_that(rt, line.as_str().ends_with(text), line.as_str());
    }
}

fn assert_rows(rt: &impl Abort, alloc: Global, rows: &[Row<'_>]) {
    for row in rows {
        assert_row(rt, alloc, row);
    }
}
