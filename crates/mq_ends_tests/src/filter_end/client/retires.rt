//! A filter over a ledger, whose run is retired before one of its exchanges.
use super::*;
use log::sink::Discard;
use mq_ledger::{PlainLedger, Zone};
use mq_link::Link;
use mq_server::{EndCause, ServeFault, serve};

/// Two mails, one with two recipients and one with one: five exchanges where the run goes on.
const TWO_MAILS: &[&str] = &[
    CONFIG, AUTH, BEGIN, RECIPIENT, RECIPIENT, COMMIT, BEGIN, RECIPIENT, COMMIT,
];

/// A later run of the host retires the first one.
const RETIRE: &str = "0011 07 036d7831 0000000000000002 00000001";

const RETIRED: &str = "0011 8f 036d7831 0000000000000002 00000001";

/// What the login has used on the day of the mails.
const USAGE: &str = "000b 05 05616c696365 00004742";

/// A link to a ledger. The run is retired before the exchange in that place, counted from 0.
#[derive(Drop)]
struct Retiring {
    alloc: Global,
    ledger: PlainLedger,
    exchanges: usize,
    place: usize,
    retire: Vec<u8>,
}

/// Serves one connection. Without clauses, so that its callers stay cheap to prove.
fn serve_one<S: Source, W: Sink>(
    alloc: Global,
    input: &mut S,
    output: &mut W,
    ledger: &mut PlainLedger,
) -> Result<EndCause, ServeFault> {
    serve(alloc, input, output, ledger)
}

/// The frame of the ledger's reply.
fn reply_to(alloc: Global, ledger: &mut PlainLedger, frame: &[u8]) -> Option<Vec<u8>> {
    let mut output = WriterSink::new(Vec::new(alloc));
    match serve_one(alloc, &mut FromRead::new(frame), &mut output, ledger) {
        Ok(EndCause::InputEnd) => Some(output.into_inner()),
        _ => None,
    }
}

impl Retiring {
    fn new(rt: &impl Abort, alloc: Global, place: usize) -> Retiring {
        let zone = Zone::of_offset(0).expect(rt, "UTC");
        Retiring {
            alloc,
            ledger: PlainLedger::new(alloc, zone, 100),
            exchanges: 0,
            place,
            retire: bytes_of(rt, alloc, RETIRE),
        }
    }

    /// The frame of the reply to the next exchange.
    fn next_reply(&mut self, frame: &[u8]) -> Option<Vec<u8>> {
        if self.exchanges == self.place {
            let _ = reply_to(self.alloc, &mut self.ledger, self.retire.as_slice());
        }
        self.exchanges = self.exchanges.saturating_add(1);
        reply_to(self.alloc, &mut self.ledger, frame)
    }
}

impl Link for Retiring {
    fn exchange(&mut self, frame: &[u8], reply: &mut Vec<u8>) -> Result<(), LinkFault> {
        let framed = self.next_reply(frame);
        reply.clear();
        match framed {
            Some(framed) => match framed.as_slice().get(2..) {
                Some(body) => reply.extend_from_slice(body).or(Err(LinkFault::Memory)),
                None => Err(LinkFault::Down),
            },
            None => Err(LinkFault::Down),
        }
    }
}

/// Runs the filter. Without clauses, as `serve_one`.
fn filter<S: Source, W: Sink>(
    alloc: Global,
    input: &mut S,
    output: &mut W,
    link: &mut Retiring,
    client: &mut Client,
) -> End {
    run_filter(&Discard, alloc, input, output, link, client)
}

/// What the filter writes for the two mails.
fn text_over(rt: &impl Abort, alloc: Global, link: &mut Retiring) -> Vec<u8> {
    let input = joined(rt, alloc, TWO_MAILS);
    let mut client = client_of(rt, alloc, 3);
    let mut source = FromRead::new(input.as_bytes());
    let mut sink = WriterSink::new(Vec::new(alloc));
    let ended = filter(alloc, &mut source, &mut sink, link, &mut client);
    assert_ended(rt, ended, THREE_ANSWERS, "two mails");
    let _ = source.into_inner();
    sink.into_inner()
}

/// Asserts that the ledger replies so.
fn assert_reply(rt: &impl Abort, alloc: Global, link: &mut Retiring, frame: &str, wanted: &str) {
    let frame = bytes_of(rt, alloc, frame);
    let reply = reply_to(alloc, &mut link.ledger, &frame).expect(rt, "a reply");
    assert_bytes(rt, &reply, &bytes_of(rt, alloc, wanted));
}

/// What the filter writes after its registration where the run is retired before the exchange in
/// the row's place, and what the login has used in the end: just those let through, and nothing is
/// reserved.
const PLACES: &[(&[&str], &str)] = &[
    (
        &[REGISTRATION, SERVICE, SERVICE, SERVICE],
        "0017 8b 05616c696365 00004742 00000000 00000000 00000064",
    ),
    (
        &[REGISTRATION, PROCEED, SERVICE, SERVICE],
        "0017 8b 05616c696365 00004742 00000001 00000000 00000064",
    ),
    // before the first settle
    (
        &[REGISTRATION, PROCEED, PROCEED, SERVICE],
        "0017 8b 05616c696365 00004742 00000002 00000000 00000064",
    ),
    (
        &[REGISTRATION, PROCEED, PROCEED, SERVICE],
        "0017 8b 05616c696365 00004742 00000002 00000000 00000064",
    ),
    // before the second settle, and after it
    (
        &[REGISTRATION, PROCEED, PROCEED, PROCEED],
        "0017 8b 05616c696365 00004742 00000003 00000000 00000064",
    ),
    (
        &[REGISTRATION, PROCEED, PROCEED, PROCEED],
        "0017 8b 05616c696365 00004742 00000003 00000000 00000064",
    ),
];

/// Retires the run before the exchange in that place: smtpd gets this text, each request is sent
/// once, and the ledger says this of the login, before the run is retired once more and then.
fn check_place(rt: &impl Abort, alloc: Global, place: usize, text: &[&str], usage: &str) {
    let mut link = Retiring::new(rt, alloc, place);
    let written = text_over(rt, alloc, &mut link);
    assert_bytes(rt, &written, joined(rt, alloc, text).as_bytes());
    assert_count(rt, link.exchanges, 5, "exchanges");
    assert_reply(rt, alloc, &mut link, USAGE, usage);
    assert_reply(rt, alloc, &mut link, RETIRE, RETIRED);
    assert_reply(rt, alloc, &mut link, USAGE, usage);
}

#[test]
fn retired_before_each_exchange(rt: HostRuntime) {
    for (place, (text, usage)) in PLACES.iter().enumerate() {
        check_place(&rt, rt.alloc(), place, text, usage);
    }
}
