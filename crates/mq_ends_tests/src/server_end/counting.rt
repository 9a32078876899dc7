//! What a ledger counts that is watched.

use crate::server_end::asserts::{MEMORY, assert_that};
use crate::server_end::fails_once::FailsOnce;
use crate::server_end::fixtures::{request_of, stranger};
use crate::server_end::serving::ledger;
use crate::server_end::watching::Shown;
use log::sink::Discard;
use mq_ledger::LedgerFault;
use mq_metrics::{RequestKind, RequestResult, ServerBuild, ServerMetrics};
use mq_permits::{Hosts, Permits};
use mq_watch::{Hear, WatchedLedger};
use std::alloc::Global;
use std::cell::Cell;
use std::process::Abort;
use std::test::Fail;

/// The body of a request, what it comes to, and how many recipients were granted and given back
/// since the beginning.
type Row<'a> = (&'a str, RequestKind, RequestResult, u64, u64);

/// Requests of transactions 1 to 3 of the login `u`, whose limit is 3.
const ROWS: &[Row<'_>] = &[
    // Two reserves of transaction 1, the second twice.
    (
        "01 0161 0000000000000001 00000001 00000001 0000000000015180 0175 00000001",
        RequestKind::Reserve,
        RequestResult::Granted,
        1,
        0,
    ),
    (
        "01 0161 0000000000000001 00000002 00000001 0000000000015180 0175 00000002",
        RequestKind::Reserve,
        RequestResult::Granted,
        3,
        0,
    ),
    (
        "01 0161 0000000000000001 00000002 00000001 0000000000015180 0175 00000002",
        RequestKind::Reserve,
        RequestResult::Repeated,
        3,
        0,
    ),
    // One more would pass the limit.
    (
        "01 0161 0000000000000001 00000003 00000002 0000000000015180 0175 00000001",
        RequestKind::Reserve,
        RequestResult::Full,
        3,
        0,
    ),
    // A settle of 2 leaves 1 over, and comes twice.
    (
        "02 0161 0000000000000001 00000004 00000001 0000000000015180 0175 00000002",
        RequestKind::Settle,
        RequestResult::Done,
        3,
        1,
    ),
    (
        "02 0161 0000000000000001 00000004 00000001 0000000000015180 0175 00000002",
        RequestKind::Settle,
        RequestResult::Done,
        3,
        1,
    ),
    // What is left goes to transaction 3, which is released, twice.
    (
        "01 0161 0000000000000001 00000005 00000003 0000000000015180 0175 00000001",
        RequestKind::Reserve,
        RequestResult::Granted,
        4,
        1,
    ),
    (
        "03 0161 0000000000000001 00000006 00000003 0000000000015180 0175",
        RequestKind::Release,
        RequestResult::Done,
        4,
        2,
    ),
    (
        "03 0161 0000000000000001 00000006 00000003 0000000000015180 0175",
        RequestKind::Release,
        RequestResult::Done,
        4,
        2,
    ),
    // Its reserve comes again after that.
    (
        "01 0161 0000000000000001 00000005 00000003 0000000000015180 0175 00000001",
        RequestKind::Reserve,
        RequestResult::Repeated,
        4,
        2,
    ),
    // That transaction is closed.
    (
        "01 0161 0000000000000001 00000007 00000003 0000000000015180 0175 00000001",
        RequestKind::Reserve,
        RequestResult::Closed,
        4,
        2,
    ),
    // Another request under a number that was used.
    (
        "01 0161 0000000000000001 00000007 00000003 0000000000015180 0175 00000002",
        RequestKind::Reserve,
        RequestResult::Conflict,
        4,
        2,
    ),
];

/// What counts for a server.
pub fn metrics_of(rt: &impl Abort, alloc: Global) -> ServerMetrics {
    ServerMetrics::new(ServerBuild {
        version: String::from_str(alloc, "1").expect(rt, MEMORY),
        zone: String::from_str(alloc, "offset 0").expect(rt, MEMORY),
    })
}

#[test]
fn requests_are_counted_by_what_they_come_to(rt: HostRuntime) -> Result<(), Fail> {
    let alloc = rt.alloc();
    let metrics = metrics_of(&rt, alloc);
    let clock = Shown(Cell::new(86_400));
    let peer = stranger("192.0.2.7:40312".parse()?);
    let mut watched = WatchedLedger::new(
        &clock,
        &Discard,
        alloc,
        ledger(&rt, alloc, 3),
        None,
    ).with_metrics(&metrics);
    for (body, kind, outcome, granted, released) in ROWS {
        let before = metrics.requests.of(*kind, *outcome).get();
        let request = request_of(&rt, alloc, body);
        let _ = watched.apply_of(None, peer, &request);
        let counted = metrics.requests.of(*kind, *outcome).get();
        assert_that(&rt, counted == before + 1, body);
        assert_that(&rt, metrics.granted.get() == *granted, body);
        assert_that(&rt, metrics.released.get() == *released, body);
    }
    drop(watched);
    assert_that(&rt, metrics.commits.count() == 12, "one time for each");
    assert_that(&rt, metrics.transactions.get() == Some(0), "none is open");
    Ok(())
}

/// What isn't put to the ledger, and what it can't take.
#[test]
fn requests_without_a_reply_are_counted(rt: HostRuntime) -> Result<(), Fail> {
    let alloc = rt.alloc();
    let metrics = metrics_of(&rt, alloc);
    let clock = Shown(Cell::new(86_400));
    let peer = stranger("192.0.2.7:40312".parse()?);
    let nobody = Permits {
        hosts: Hosts::new(alloc),
        admin: Vec::new(alloc),
        report: Vec::new(alloc),
    };
    let failing = FailsOnce {
        ledger: ledger(&rt, alloc, 3),
        calls_before: 0,
        fault: LedgerFault::Store,
    };
    let mut watched = WatchedLedger::new(&clock, &Discard, alloc, failing, None).with_metrics(
        &metrics,
    );
    let request = request_of(&rt, alloc, ROWS[0].0);
    // A retire of a run that is a day ahead.
    let ahead = request_of(&rt, alloc, "07 0161 000000000AAAAAAA 00000001");
    let _ = watched.apply_of(Some(&nobody), peer, &request);
    let _ = watched.apply_of(None, peer, &ahead);
    assert_that(&rt, metrics.commits.count() == 0, "the ledger wasn't asked");
    let _ = watched.apply_of(None, peer, &request);
    drop(watched);
    assert_that(&rt, metrics.commits.count() == 1, "it was asked once");
    for (kind, outcome) in [
        (RequestKind::Reserve, RequestResult::Forbidden),
        (RequestKind::Retire, RequestResult::Ahead),
        (RequestKind::Reserve, RequestResult::Failed),
    ] {
        let count = metrics.requests.of(kind, outcome).get();
        assert_that(&rt, count == 1, "each once");
    }
    assert_that(&rt, metrics.granted.get() == 0, "nothing was granted");
    Ok(())
}

/// A release gives back what its transaction held before anything was counted, once.
#[test]
fn what_was_granted_before_is_given_back(rt: HostRuntime) -> Result<(), Fail> {
    let alloc = rt.alloc();
    let metrics = metrics_of(&rt, alloc);
    let clock = Shown(Cell::new(86_400));
    let peer = stranger("192.0.2.7:40312".parse()?);
    let mut watched = WatchedLedger::new(&clock, &Discard, alloc, ledger(&rt, alloc, 3), None);
    let _ = watched.apply_of(None, peer, &request_of(&rt, alloc, ROWS[1].0));
    watched = watched.with_metrics(&metrics);
    let release = "03 0161 0000000000000001 00000003 00000001 0000000000015180 0175";
    for _time in 0..2 {
        let _ = watched.apply_of(None, peer, &request_of(&rt, alloc, release));
        assert_that(&rt, metrics.released.get() == 2, release);
    }
    drop(watched);
    assert_that(&rt, metrics.granted.get() == 0, "nothing was granted since");
    Ok(())
}
