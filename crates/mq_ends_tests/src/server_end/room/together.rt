//! Requests of several connections, over a ledger that takes them together or can't.

use super::{FIRST, Row, SECOND, THIRD, check_rows};
use crate::server_end::asserts::{MEMORY, assert_bytes, assert_that};
use crate::server_end::counting::metrics_of;
use crate::server_end::fixtures::{bytes_of, request_of, stranger};
use crate::server_end::serving::ledger;
use crate::server_end::watching::Shown;
use log::sink::{Discard, Memory as Kept};
use mq_connections::ServingEnd;
use mq_ledger::{Ledger, LedgerFault, Zone};
use mq_metrics::{RequestKind, RequestResult};
use mq_request::{Reply, Request};
use mq_server::Connection;
use mq_watch::{Hear, WatchedLedger};
use std::alloc::Global;
use std::cell::Cell;
use std::process::Abort;
use std::test::Fail;

/// A ledger that takes requests together, or answers a fault to them and takes each by itself. It
/// counts how many were put together, and how often.
#[derive(Drop)]
struct Together<'a, L> {
    ledger: L,
    fault: Option<LedgerFault>,
    rounds: &'a Cell<(usize, usize)>,
}

impl<L: Ledger> Ledger for Together<'_, L> {
    ghost book = { λ s. L.book s.ledger };

    ghost has_kept = { λ s. L.has_kept s.ledger };

    ghost is_sound = { λ s. L.is_sound s.ledger };

    ghost sound_is_kept = { λ s. L.sound_is_kept s.ledger };

    ghost sound_is_legal = { λ s. L.sound_is_legal s.ledger };

    fn zone(&self) -> &Zone {
        self.ledger.zone()
    }

    fn default_cap(&self) -> u32 {
        self.ledger.default_cap()
    }

    fn apply(&mut self, request: &Request) -> Result<Reply, LedgerFault> {
        self.ledger.apply(request)
    }

    fn apply_all(
        &mut self,
        arrivals: &[Request],
        replies: &mut Vec<Reply>,
    ) -> Result<(), LedgerFault> {
        let (rounds, requests) = self.rounds.get();
        self.rounds.set((
            rounds.saturating_add(1),
            requests.saturating_add(arrivals.len()),
        ));
        if let Some(fault) = self.fault {
            return Err(fault);
        }
        replies.clear();
        for request in arrivals {
            let reply = self.ledger.apply(request)?;
            replies.push(reply).map_err(|_| LedgerFault::Memory)?;
        }
        Ok(())
    }
}

/// Three peers ask at once, one of them twice: what stands next on each is taken together, in the
/// order of the connections, and what comes after it alone.
const AT_ONCE: &[Row<'_>] = &[
    (
        &[FIRST],
        usize::MAX,
        0,
        "0013 81 0161 0000000000000001 00000001 00000001",
    ),
    (
        &[
            "0021 01 0161 0000000000000001 00000002 00000001 0000000000015180 0175 00000001 \
             0001 09",
        ],
        usize::MAX,
        0,
        "0013 81 0161 0000000000000001 00000002 00000002 0001 8e",
    ),
    (
        &[THIRD],
        usize::MAX,
        0,
        "0013 81 0161 0000000000000001 00000003 00000003",
    ),
];

/// A limit, a question and what is no request among them are answered alone, after the others of
/// their round.
const AMONG_OTHERS: &[Row<'_>] = &[
    (
        &["0019 04 0161 0000000000000001 00000009 00000001 00000001 0175"],
        usize::MAX,
        0,
        "0017 86 0161 0000000000000001 00000009 00000001 00000002",
    ),
    (
        &[FIRST],
        usize::MAX,
        0,
        "0013 81 0161 0000000000000001 00000001 00000001",
    ),
    (
        &["0007 05 0175 00000001"],
        usize::MAX,
        0,
        "0013 8b 0175 00000001 00000000 00000002 00000003",
    ),
    (&["0001 09"], usize::MAX, 0, "0001 8e"),
    (
        &[SECOND],
        usize::MAX,
        0,
        "0013 81 0161 0000000000000001 00000002 00000002",
    ),
];

/// One alone is put as ever.
const ALONE: &[Row<'_>] = &[(
    &[FIRST],
    usize::MAX,
    0,
    "0013 81 0161 0000000000000001 00000001 00000001",
)];

/// Two peers ask again as soon as they are answered: that is taken together, too, once both have
/// their replies.
const ASK_AGAIN: &[Row<'_>] = &[
    (
        &[FIRST, THIRD],
        usize::MAX,
        0,
        "0013 81 0161 0000000000000001 00000001 00000001 0013 81 0161 0000000000000001 00000003 00000003",
    ),
    (
        &[
            SECOND,
            "0021 01 0161 0000000000000001 00000004 00000001 0000000000015180 0175 00000001",
        ],
        usize::MAX,
        0,
        "0013 81 0161 0000000000000001 00000002 00000002 0017 82 0161 0000000000000001 00000004 00000003 00000003",
    ),
];

/// Serves the rows over such a ledger; it is asked so often for so many requests together.
fn check(
    rt: &impl Abort,
    alloc: Global,
    rows: &[Row<'_>],
    fault: Option<LedgerFault>,
    wanted: (usize, usize),
) -> Result<(), Fail> {
    let rounds = Cell::new((0, 0));
    let together = Together {
        ledger: ledger(rt, alloc, 3),
        fault,
        rounds: &rounds,
    };
    check_rows(rt, alloc, together, rows, Ok(ServingEnd::Over))?;
    assert_that(rt, rounds.get() == wanted, "requests put together");
    Ok(())
}

#[test]
fn requests_that_come_at_once(rt: HostRuntime) -> Result<(), Fail> {
    let alloc = rt.alloc();
    check(&rt, alloc, AT_ONCE, None, (1, 3))?;
    check(&rt, alloc, AMONG_OTHERS, None, (1, 2))?;
    check(&rt, alloc, ALONE, None, (0, 0))
}

#[test]
fn requests_that_come_as_soon_as_replies_went(rt: HostRuntime) -> Result<(), Fail> {
    check(&rt, rt.alloc(), ASK_AGAIN, None, (2, 4))
}

/// Where they can't be taken together, each is taken alone, and answered as ever.
#[test]
fn requests_that_are_not_taken_together(rt: HostRuntime) -> Result<(), Fail> {
    let alloc = rt.alloc();
    for fault in [LedgerFault::Memory, LedgerFault::Store] {
        check(&rt, alloc, AT_ONCE, Some(fault), (1, 3))?;
    }
    Ok(())
}

/// What is looked at on a connection stands next still, until its reply is held.
#[test]
fn a_request_that_is_looked_at(rt: HostRuntime) -> Result<(), Fail> {
    let alloc = rt.alloc();
    let mut connection = Connection::new(alloc);
    let frame = bytes_of(&rt, alloc, FIRST);
    connection.receive(&frame[..5])?;
    assert_that(&rt, connection.is_waiting(), "a part of a frame waits");
    assert_that(&rt, connection.peek_request(alloc).is_none(), "a part");
    connection.receive(&frame[5..])?;
    assert_that(&rt, !connection.is_waiting(), "a frame is there");
    for _look in 0..2 {
        let found = connection.peek_request(alloc);
        let wanted = request_of(&rt, alloc, FAR[0]);
        assert_that(&rt, found == Some(wanted), "the request");
    }
    connection.hold_reply(&Reply::Retry);
    assert_bytes(
        &rt,
        connection.replies(),
        &bytes_of(&rt, alloc, "0001 8d"),
        "held",
    );
    assert_that(&rt, !connection.is_waiting(), "a reply waits");
    connection.take_replies(3);
    assert_that(&rt, connection.is_waiting(), "all is answered");
    Ok(())
}

/// A limit isn't shown, nor a request behind a reply that waits, or after the end.
#[test]
fn requests_that_are_not_shown(rt: HostRuntime) -> Result<(), Fail> {
    let alloc = rt.alloc();
    let mut connection = Connection::new(alloc);
    let limit = "0019 04 0161 0000000000000001 00000009 00000001 00000001 0175";
    connection.receive(&bytes_of(&rt, alloc, limit))?;
    assert_that(&rt, connection.peek_request(alloc).is_none(), "a limit");
    let mut ledger = ledger(&rt, alloc, 3);
    let _ = connection.answer(alloc, 1, &mut ledger);
    connection.receive(&bytes_of(&rt, alloc, FIRST))?;
    assert_that(
        &rt,
        connection.peek_request(alloc).is_none(),
        "behind a reply",
    );
    let count = connection.replies().len();
    connection.take_replies(count);
    assert_that(
        &rt,
        connection.peek_request(alloc).is_some(),
        "it stands next",
    );
    connection.receive(&bytes_of(&rt, alloc, "0000"))?;
    let _ = connection.answer(alloc, 2, &mut ledger);
    let count = connection.replies().len();
    connection.take_replies(count);
    connection.receive(&bytes_of(&rt, alloc, SECOND))?;
    assert_that(
        &rt,
        connection.peek_request(alloc).is_none(),
        "after the end",
    );
    connection.hold_reply(&Reply::Retry);
    assert_that(&rt, connection.replies().is_empty(), "nothing is held then");
    Ok(())
}

/// Reserves of two hosts for a day that is past, and a limit.
const FAR: &[&str] = &[
    "01 0161 0000000000000001 00000001 00000001 0000000000015180 0175 00000001",
    "01 0162 0000000000000001 00000001 00000001 0000000000015180 0175 00000001",
    "04 0161 0000000000000001 00000009 00000001 00000001 0175",
];

/// The first so many of these requests.
fn far(rt: &impl Abort, alloc: Global, count: usize) -> Vec<Request> {
    let mut requests = Vec::new(alloc);
    for body in &FAR[..count] {
        requests
            .push(request_of(rt, alloc, body))
            .expect(rt, MEMORY);
    }
    requests
}

/// What is to be seen of each is logged with its own peer, in their order. A limit among them is
/// put by itself, and so are the others then.
#[test]
fn each_is_logged_with_its_peer(rt: HostRuntime) -> Result<(), Fail> {
    let alloc = rt.alloc();
    let (log, clock, rounds) = (
        Kept::new(alloc),
        Shown(Cell::new(864_000)),
        Cell::new((0, 0)),
    );
    let together = Together {
        ledger: ledger(&rt, alloc, 3),
        fault: None,
        rounds: &rounds,
    };
    let mut watched = WatchedLedger::new(&clock, &log, alloc, together, None);
    let mut replies = Vec::new(alloc);
    let with_limit = far(&rt, alloc, 3);
    let taken = watched.apply_all_of(None, Vec::new(alloc), &with_limit, &mut replies);
    assert_that(&rt, taken == Err(LedgerFault::Memory), "with a limit");
    assert_that(&rt, rounds.get() == (0, 0), "none was put");
    let peers = vec![in alloc;
        stranger("192.0.2.7:1".parse()?),
        stranger("192.0.2.8:2".parse()?),
    ]?;
    let taken = watched.apply_all_of(None, peers, &far(&rt, alloc, 2), &mut replies);
    assert_that(&rt, taken == Ok(()) && replies.len() == 2, "two reserves");
    drop(watched);
    let lines = log.into_lines();
    for (line, wanted) in lines.as_slice().iter().zip([
        "[WARN  mq_watch::watched] connection of 192.0.2.7:1: host a reserves for day 1, and today is day 10: its clock or the server's is wrong",
        "[WARN  mq_watch::watched] connection of 192.0.2.8:2: host b reserves for day 1, and today is day 10: its clock or the server's is wrong",
    ]) {
        assert_that(&rt, line.as_str() == wanted, line.as_str());
    }
    assert_that(&rt, lines.len() == 2, "two lines");
    Ok(())
}

/// Each of those that are taken together is counted for itself, and the ledger's time once.
#[test]
fn requests_taken_together_are_counted(rt: HostRuntime) -> Result<(), Fail> {
    let alloc = rt.alloc();
    let (clock, rounds) = (Shown(Cell::new(86_400)), Cell::new((0, 0)));
    let metrics = metrics_of(&rt, alloc);
    let together = Together {
        ledger: ledger(&rt, alloc, 3),
        fault: None,
        rounds: &rounds,
    };
    let mut watched = WatchedLedger::new(&clock, &Discard, alloc, together, None);
    watched = watched.with_metrics(&metrics);
    let mut replies = Vec::new(alloc);
    let peers = vec![in alloc;
        stranger("192.0.2.7:1".parse()?),
        stranger("192.0.2.8:2".parse()?),
    ]?;
    let taken = watched.apply_all_of(None, peers, &far(&rt, alloc, 2), &mut replies);
    drop(watched);
    assert_that(&rt, taken == Ok(()), "they are taken");
    let granted = metrics
        .requests
        .of(RequestKind::Reserve, RequestResult::Granted);
    assert_that(&rt, granted.get() == 2, "both were granted");
    assert_that(&rt, metrics.granted.get() == 2, "a recipient each");
    assert_that(&rt, metrics.commits.count() == 1, "one time for both");
    Ok(())
}
