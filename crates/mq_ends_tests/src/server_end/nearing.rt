//! What a watched ledger logs of logins that near their limits.

use crate::server_end::asserts::assert_that;
use crate::server_end::fails_once::FailsOnce;
use crate::server_end::fixtures::{id, login};
use crate::server_end::serving::ledger;
use crate::server_end::watching::{QUESTION_FAILED, Row, Shown, check_lines};
use log::sink::Discard;
use mq_ledger::{Ledger, LedgerFault};
use mq_request::{Reply, Request, is_request};
use mq_watch::WatchedLedger;
use std::alloc::Global;
use std::cell::Cell;
use std::process::Abort;
use std::test::Fail;

/// Recipients of logins whose limit is 5.
const NEAR: &[Row<'_>] = &[
    (
        86_400,
        "0021 01 0161 0000000000000001 00000001 00000001 0000000000015180 0175 00000001",
        "",
    ),
    (
        86_400,
        "0021 01 0161 0000000000000001 00000002 00000001 0000000000015180 0175 00000002",
        "",
    ),
    (
        86_400,
        "0021 01 0161 0000000000000001 00000003 00000001 0000000000015180 0175 00000001",
        "[WARN  mq_watch::watched] connection of 192.0.2.7:40312: login u has used 4 of its limit of 5 on day 1",
    ),
    (
        86_400,
        "0021 01 0161 0000000000000001 00000004 00000001 0000000000015180 0175 00000001",
        "",
    ),
    // The limit, and a reply that comes again.
    (
        86_400,
        "0021 01 0161 0000000000000001 00000005 00000001 0000000000015180 0175 00000001",
        "",
    ),
    (
        86_400,
        "0021 01 0161 0000000000000001 00000003 00000001 0000000000015180 0175 00000001",
        "",
    ),
    // All of it is given back, and the limit neared again.
    (
        86_400,
        "001d 03 0161 0000000000000001 00000006 00000001 0000000000015180 0175",
        "",
    ),
    (
        86_400,
        "0021 01 0161 0000000000000001 00000007 00000002 0000000000015180 0175 00000004",
        "",
    ),
    // Another login, of a line feed, at once.
    (
        86_400,
        "0021 01 0162 0000000000000001 00000001 00000001 0000000000015180 010a 00000005",
        "[WARN  mq_watch::watched] connection of 192.0.2.7:40312: login \\x0a has used 5 of its limit of 5 on day 1",
    ),
    // On the day after the clock's.
    (
        86_400,
        "0021 01 0162 0000000000000001 00000002 00000002 000000000002a300 0176 00000005",
        "[WARN  mq_watch::watched] connection of 192.0.2.7:40312: login v has used 5 of its limit of 5 on day 2",
    ),
    // The day after, and the day before again.
    (
        172_800,
        "0021 01 0161 0000000000000001 00000008 00000003 000000000002a300 0175 00000005",
        "[WARN  mq_watch::watched] connection of 192.0.2.7:40312: login u has used 5 of its limit of 5 on day 2",
    ),
    (
        172_800,
        "0021 01 0161 0000000000000001 00000009 00000004 0000000000015180 0175 00000001",
        "",
    ),
    // A higher limit is neared later.
    (
        172_800,
        "0019 04 0161 0000000000000001 0000000a 00000002 0000000a 0175",
        "[INFO  mq_watch::watched] connection of 192.0.2.7:40312: limit 10 of login u from day 2: set",
    ),
    (
        172_800,
        "0021 01 0161 0000000000000001 0000000b 00000005 000000000002a300 0175 00000002",
        "",
    ),
    (
        172_800,
        "0021 01 0161 0000000000000001 0000000c 00000005 000000000002a300 0175 00000001",
        "[WARN  mq_watch::watched] connection of 192.0.2.7:40312: login u has used 8 of its limit of 10 on day 2",
    ),
];

#[test]
fn logins_near_their_limits(rt: HostRuntime) -> Result<(), Fail> {
    let alloc = rt.alloc();
    check_lines(&rt, alloc, ledger(&rt, alloc, 5), NEAR)
}

/// A reply that was given when a login was near its limit, and comes again after all of it was
/// given back: what is used then is asked for, and isn't near.
const GIVEN_BACK: &[Row<'_>] = &[
    (
        86_400,
        "0021 01 0161 0000000000000001 00000001 00000001 0000000000015180 0175 00000005",
        "[WARN  mq_watch::watched] connection of 192.0.2.7:40312: login u has used 5 of its limit of 5 on day 1",
    ),
    (
        86_400,
        "001d 03 0161 0000000000000001 00000002 00000001 0000000000015180 0175",
        "",
    ),
    (
        86_400,
        "0019 04 0161 0000000000000001 00000003 00000001 00000006 0175",
        "[INFO  mq_watch::watched] connection of 192.0.2.7:40312: limit 6 of login u from day 1: set",
    ),
    (
        86_400,
        "0021 01 0161 0000000000000001 00000001 00000001 0000000000015180 0175 00000005",
        "",
    ),
    (
        86_400,
        "0021 01 0161 0000000000000001 00000004 00000002 0000000000015180 0175 00000005",
        "[WARN  mq_watch::watched] connection of 192.0.2.7:40312: login u has used 5 of its limit of 6 on day 1",
    ),
];

#[test]
fn what_was_given_back_is_not_near(rt: HostRuntime) -> Result<(), Fail> {
    let alloc = rt.alloc();
    check_lines(&rt, alloc, ledger(&rt, alloc, 5), GIVEN_BACK)
}

/// The question after the first reserve finds no memory: the next reserve is asked about.
const AFTER_A_LOST_QUESTION: &[Row<'_>] = &[
    (
        86_400,
        "0021 01 0161 0000000000000001 00000001 00000001 0000000000015180 0175 00000004",
        "",
    ),
    (
        86_400,
        "0021 01 0161 0000000000000001 00000002 00000001 0000000000015180 0175 00000001",
        "[WARN  mq_watch::watched] connection of 192.0.2.7:40312: login u has used 5 of its limit of 5 on day 1",
    ),
];

/// It finds a store that fails.
const AFTER_A_FAILED_QUESTION: &[Row<'_>] = &[
    (
        86_400,
        "0021 01 0161 0000000000000001 00000001 00000001 0000000000015180 0175 00000004",
        QUESTION_FAILED,
    ),
    (
        86_400,
        "0021 01 0161 0000000000000001 00000002 00000001 0000000000015180 0175 00000001",
        "[WARN  mq_watch::watched] connection of 192.0.2.7:40312: login u has used 5 of its limit of 5 on day 1",
    ),
];

/// A reserve of the first day.
fn reserve(rt: &impl Abort, alloc: Global, name: &[u8], count: u32) -> Request {
    Request::Reserve {
        id: id(rt, alloc, b"a", 1),
        txn: 1,
        moment: 86_400,
        login: login(rt, alloc, name),
        count,
    }
}

/// What a ledger answers a request in range.
fn answer_of(
    rt: &impl Abort,
    ledger: &mut impl Ledger,
    request: &Request,
) -> Result<Reply, LedgerFault> {
    assert!(rt; is_request(request));
    ledger.apply(request)
}

#[test]
fn a_lost_question_leaves_the_reply(rt: HostRuntime) -> Result<(), Fail> {
    let alloc = rt.alloc();
    for (fault, rows) in [
        (LedgerFault::Memory, AFTER_A_LOST_QUESTION),
        (LedgerFault::Store, AFTER_A_FAILED_QUESTION),
    ] {
        let failing = FailsOnce {
            ledger: ledger(&rt, alloc, 5),
            calls_before: 1,
            fault,
        };
        check_lines(&rt, alloc, failing, rows)?;
        let clock = Shown(Cell::new(86_400));
        let failing = FailsOnce {
            ledger: ledger(&rt, alloc, 5),
            calls_before: 1,
            fault,
        };
        let mut watched = WatchedLedger::new(&clock, &Discard, alloc, failing, None);
        let answer = answer_of(&rt, &mut watched, &reserve(&rt, alloc, b"u", 4));
        let granted = Reply::Granted {
            id: id(&rt, alloc, b"a", 1),
            used: 4,
        };
        assert_that(
            &rt,
            answer == Ok(granted),
            "granted, though nothing more was heard",
        );
    }
    Ok(())
}
