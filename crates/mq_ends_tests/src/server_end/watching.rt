//! What a ledger logs that is watched.

use crate::server_end::asserts::assert_that;
use crate::server_end::fails_once::FailsOnce;
use crate::server_end::fixtures::{bytes_of, stranger};
use crate::server_end::serving::{ledger, run};
use log::sink::Memory as Kept;
use mq_ledger::{Ledger, LedgerFault, Zone};
use mq_permits::Peer;
use mq_request::{Reply, Request};
use mq_stream::{FromRead, WriterSink};
use mq_watch::{Hear, WatchedLedger};
use std::alloc::Global;
use std::cell::Cell;
use std::io;
use std::process::Abort;
use std::rt::Clock;
use std::test::Fail;
use std::time::Duration;

/// A clock that shows what a test wants, in seconds since 1970.
#[derive(Drop)]
pub struct Shown(pub Cell<u64>);

impl Clock for Shown {
    fn monotonic(&self) -> io::Result<Duration> {
        self.since_1970()
    }

    fn since_1970(&self) -> io::Result<Duration> {
        Ok(Duration::from_secs(self.0.get()))
    }
}

/// What the clock shows, the frame that comes, if any, and the line that is logged, if any.
pub type Row<'a> = (u64, &'a str, &'a str);

/// Limits, each as it is answered.
const LIMITS: &[Row<'_>] = &[
    (
        86_400,
        "0019 04 0161 0000000000000001 00000001 00000001 00000002 0175",
        "[WARN  mq_watch::watched] connection of 192.0.2.7:40312: limit 2 of login u from day 1: set, lowered from 3",
    ),
    // The same again.
    (
        86_400,
        "0019 04 0161 0000000000000001 00000001 00000001 00000002 0175",
        "[INFO  mq_watch::watched] connection of 192.0.2.7:40312: limit 2 of login u from day 1: set",
    ),
    (
        86_400,
        "0019 04 0161 0000000000000001 00000001 00000001 00000003 0175",
        "[INFO  mq_watch::watched] connection of 192.0.2.7:40312: limit 3 of login u from day 1: refused, another request has its number",
    ),
    (
        86_400,
        "0021 01 0161 0000000000000001 00000002 00000001 0000000000015180 0175 00000001",
        "",
    ),
    (
        86_400,
        "0019 04 0161 0000000000000001 00000003 00000000 00000000 0175",
        "[INFO  mq_watch::watched] connection of 192.0.2.7:40312: limit 0 of login u from day 0: refused, 1 used on day 1",
    ),
    // A login of a line feed and a backslash.
    (
        86_400,
        "001a 04 0161 0000000000000001 00000004 00000001 00000005 020a5c",
        "[INFO  mq_watch::watched] connection of 192.0.2.7:40312: limit 5 of login \\x0a\\x5c from day 1: set",
    ),
    // From a day that isn't the clock's.
    (
        86_400,
        "0019 04 0162 0000000000000001 00000001 00000005 00000001 0176",
        "[WARN  mq_watch::watched] connection of 192.0.2.7:40312: limit 1 of login v from day 5: set, lowered from 3",
    ),
    (
        86_400,
        "0019 04 0162 0000000000000001 00000002 00000005 00000002 0176",
        "[INFO  mq_watch::watched] connection of 192.0.2.7:40312: limit 2 of login v from day 5: set",
    ),
    (
        345_600,
        "0021 01 0162 0000000000000001 00000003 00000001 0000000000069780 0176 00000001",
        "",
    ),
    (
        86_400,
        "0019 04 0162 0000000000000001 00000004 00000005 00000000 0176",
        "[INFO  mq_watch::watched] connection of 192.0.2.7:40312: limit 0 of login v from day 5: refused, 1 used on day 5",
    ),
    (
        86_400,
        "000f 07 0161 0000000000000002 00000001",
        "[INFO  mq_watch::watched] connection of 192.0.2.7:40312: runs of host a below 2: retired",
    ),
    (
        86_400,
        "0019 04 0161 0000000000000001 00000005 00000001 00000002 0175",
        "[INFO  mq_watch::watched] connection of 192.0.2.7:40312: limit 2 of login u from day 1: refused, its run is retired",
    ),
    // What a login has used changes nothing, and is no line.
    (86_400, "0007 05 0175 00000001", ""),
];

/// One that isn't taken, and taken then.
const AFTER_A_FAULT: &[Row<'_>] = &[
    (
        86_400,
        "0019 04 0161 0000000000000001 00000001 00000001 00000002 0175",
        "[INFO  mq_watch::watched] connection of 192.0.2.7:40312: limit 2 of login u from day 1: out of memory",
    ),
    (
        86_400,
        "0019 04 0161 0000000000000001 00000001 00000001 00000002 0175",
        "[WARN  mq_watch::watched] connection of 192.0.2.7:40312: limit 2 of login u from day 1: set, lowered from 3",
    ),
];

/// One before which there is no memory to ask for the cap, and one after which there is none.
const WITHOUT_A_CAP: &[Row<'_>] = &[(
    86_400,
    "0019 04 0161 0000000000000001 00000001 00000001 00000002 0175",
    "[INFO  mq_watch::watched] connection of 192.0.2.7:40312: limit 2 of login u from day 1: set",
)];

const WITHOUT_THE_NEW_CAP: &[Row<'_>] = &[(
    86_400,
    "0019 04 0161 0000000000000001 00000001 00000001 00000002 0175",
    "[WARN  mq_watch::watched] connection of 192.0.2.7:40312: limit 2 of login u from day 1: set, lowered from 3",
)];

const AT_A_STORE_THAT_FAILS: &[Row<'_>] = &[(
    86_400,
    "0019 04 0161 0000000000000001 00000001 00000001 00000002 0175",
    "[INFO  mq_watch::watched] connection of 192.0.2.7:40312: limit 2 of login u from day 1: store failed",
)];

/// What is logged of a question at which the store fails.
pub const QUESTION_FAILED: &str =
    "[ERROR mq_watch::watched] connection of 192.0.2.7:40312: the ledger's store failed at a question of the log";

/// The line of a question comes before that of its limit.
const WHERE_THE_CAP_FAILS: &[Row<'_>] = &[
    (86_400, "", QUESTION_FAILED),
    (
        86_400,
        "0019 04 0161 0000000000000001 00000001 00000001 00000002 0175",
        "[INFO  mq_watch::watched] connection of 192.0.2.7:40312: limit 2 of login u from day 1: store failed",
    ),
];

const WHERE_THE_NEW_CAP_FAILS: &[Row<'_>] = &[
    (86_400, "", QUESTION_FAILED),
    (
        86_400,
        "0019 04 0161 0000000000000001 00000001 00000001 00000002 0175",
        "[WARN  mq_watch::watched] connection of 192.0.2.7:40312: limit 2 of login u from day 1: set, lowered from 3",
    ),
];

/// Recipients of day 1 and of later ones, by a clock that goes on and is put back.
const DAYS: &[Row<'_>] = &[
    // Today, yesterday, and the day before.
    (
        86_400,
        "0021 01 0161 0000000000000001 00000001 00000001 0000000000015180 0175 00000001",
        "",
    ),
    (
        259_199,
        "0021 01 0161 0000000000000001 00000002 00000001 0000000000015180 0175 00000001",
        "",
    ),
    (
        259_200,
        "0021 01 0161 0000000000000001 00000003 00000001 0000000000015180 0175 00000001",
        "[WARN  mq_watch::watched] connection of 192.0.2.7:40312: host a reserves for day 1, and today is day 3: its clock or the server's is wrong",
    ),
    // Within the hour it isn't said again, and of another host it is.
    (
        262_799,
        "0021 01 0161 0000000000000001 00000004 00000001 0000000000015180 0175 00000001",
        "",
    ),
    (
        262_799,
        "0021 01 0162 0000000000000001 00000001 00000001 0000000000015180 0175 00000001",
        "[WARN  mq_watch::watched] connection of 192.0.2.7:40312: host b reserves for day 1, and today is day 3: its clock or the server's is wrong",
    ),
    (
        262_800,
        "0021 01 0161 0000000000000001 00000005 00000001 0000000000015180 0175 00000001",
        "[WARN  mq_watch::watched] connection of 192.0.2.7:40312: host a reserves for day 1, and today is day 3: its clock or the server's is wrong",
    ),
    // A server's clock that was put back to 1970. Tomorrow, and the day after.
    (
        0,
        "0021 01 0161 0000000000000001 00000006 00000002 000000000002a300 0175 00000001",
        "",
    ),
    (
        0,
        "0021 01 0161 0000000000000001 00000007 00000003 000000000003f480 0175 00000001",
        "[WARN  mq_watch::watched] connection of 192.0.2.7:40312: host a reserves for day 3, and today is day 1: its clock or the server's is wrong, and its recipients get 451",
    ),
    // Only reserves are looked at.
    (
        864_000,
        "0021 02 0161 0000000000000001 00000008 00000001 0000000000015180 0175 00000001",
        "",
    ),
];

/// A ledger of which one peer asks everything.
#[derive(Drop)]
struct OfOne<L> {
    ledger: L,
    peer: Peer,
}

impl<L: Hear> Ledger for OfOne<L> {
    ghost told = { λ s. L.told s.ledger };

    ghost book = { λ s. L.book s.ledger };

    ghost has_kept = { λ s. L.has_kept s.ledger };

    ghost is_sound = { λ s. L.is_sound s.ledger };

    ghost has_store = { λ s. L.has_store s.ledger };

    ghost sound_is_kept = { λ s. L.sound_is_kept s.ledger };

    ghost sound_is_legal = { λ s. L.sound_is_legal s.ledger };

    fn zone(&self) -> &Zone {
        self.ledger.zone()
    }

    fn default_cap(&self) -> u32 {
        self.ledger.default_cap()
    }

    fn apply(&mut self, request: &Request) -> Result<Reply, LedgerFault> {
        let peer = self.peer;
        self.ledger.apply_of(None, peer, request)
    }
}

/// Serves the frames over a watched ledger, each by a clock that shows what its row says.
fn serve_rows<L: Ledger + Drop>(
    rt: &impl Abort,
    alloc: Global,
    log: &Kept,
    ledger: L,
    rows: &[Row<'_>],
) -> Result<(), Fail> {
    let clock = Shown(Cell::new(0));
    let mut watched = OfOne {
        ledger: WatchedLedger::new(&clock, log, alloc, ledger, None),
        peer: stranger("192.0.2.7:40312".parse()?),
    };
    for row in rows {
        clock.0.set(row.0);
        let input = bytes_of(rt, alloc, row.1);
        let mut output = WriterSink::new(Vec::new(alloc));
        let _ = run(
            alloc,
            &mut FromRead::new(input.as_slice()),
            &mut output,
            &mut watched,
        );
    }
    Ok(())
}

/// The lines of these rows are logged, and no other.
pub fn check_lines<L: Ledger + Drop>(
    rt: &impl Abort,
    alloc: Global,
    ledger: L,
    rows: &[Row<'_>],
) -> Result<(), Fail> {
    let log = Kept::new(alloc);
    serve_rows(rt, alloc, &log, ledger, rows)?;
    let found = log.into_lines();
    let mut lines = found.as_slice().iter();
    for row in rows {
        if !row.2.is_empty() {
            let line = lines.next().expect(rt, row.2);
            assert_that(rt, line.as_str() == row.2, line.as_str());
        }
    }
    assert_that(rt, lines.next().is_none(), "no further line");
    Ok(())
}

#[test]
fn limits_are_logged(rt: HostRuntime) -> Result<(), Fail> {
    let alloc = rt.alloc();
    check_lines(&rt, alloc, ledger(&rt, alloc, 3), LIMITS)
}

#[test]
fn limits_at_faults(rt: HostRuntime) -> Result<(), Fail> {
    let alloc = rt.alloc();
    for (fault, calls_before, rows) in [
        (LedgerFault::Memory, 0, WITHOUT_A_CAP),
        (LedgerFault::Memory, 1, AFTER_A_FAULT),
        (LedgerFault::Memory, 2, WITHOUT_THE_NEW_CAP),
        (LedgerFault::Store, 0, WHERE_THE_CAP_FAILS),
        (LedgerFault::Store, 1, AT_A_STORE_THAT_FAILS),
        (LedgerFault::Store, 2, WHERE_THE_NEW_CAP_FAILS),
    ] {
        let failing = FailsOnce {
            ledger: ledger(&rt, alloc, 3),
            calls_before,
            fault,
        };
        check_lines(&rt, alloc, failing, rows)?;
    }
    Ok(())
}

#[test]
fn clocks_that_differ(rt: HostRuntime) -> Result<(), Fail> {
    let alloc = rt.alloc();
    check_lines(&rt, alloc, ledger(&rt, alloc, 100), DAYS)
}

/// The frame of a recipient of day 1, of the host whose name has these digits.
fn frame_of(alloc: Global, host: u32) -> Result<String, Fail> {
    let (a, b, c, d) = (host / 1_000, host / 100 % 10, host / 10 % 10, host % 10);
    Ok(format!(in alloc;
        "0024 01 043{a}3{b}3{c}3{d} 0000000000000001 00000001 00000001 0000000000015180 0175 00000001"
    )?)
}

/// A ledger that has no memory for any request, so that a long test ends soon.
#[derive(Drop)]
struct Full<L>(L);

impl<L: Ledger> Ledger for Full<L> {
    ghost book = { λ s. L.book s.0 };

    ghost has_kept = { λ s. L.has_kept s.0 };

    ghost is_sound = { λ s. L.is_sound s.0 };

    ghost sound_is_kept = { λ s. L.sound_is_kept s.0 };

    ghost sound_is_legal = { λ s. L.sound_is_legal s.0 };

    fn zone(&self) -> &Zone {
        self.0.zone()
    }

    fn default_cap(&self) -> u32 {
        self.0.default_cap()
    }

    fn apply(&mut self, _request: &Request) -> Result<Reply, LedgerFault> {
        Err(LedgerFault::Memory)
    }
}

/// How many lines so many hosts make in an hour.
#[test]
fn a_thousand_hosts_an_hour(rt: HostRuntime) -> Result<(), Fail> {
    let alloc = rt.alloc();
    let log = Kept::new(alloc);
    let clock = Shown(Cell::new(864_000));
    let mut watched = WatchedLedger::new(&clock, &log, alloc, Full(ledger(&rt, alloc, 3)), None);
    for host in 0..1_003 {
        let input = bytes_of(&rt, alloc, frame_of(alloc, host)?.as_str());
        let mut output = WriterSink::new(Vec::new(alloc));
        // The last two come in the next hour.
        if host == 1_001 {
            clock.0.set(867_600);
        }
        let _ = run(
            alloc,
            &mut FromRead::new(input.as_slice()),
            &mut output,
            &mut watched,
        );
    }
    drop(watched);
    assert_that(&rt, log.into_lines().len() == 1_002, "lines of the log");
    Ok(())
}
