//! Connections of a server that are open at once, over peers of the test's own.
mod choring;
mod network;
mod together;

use crate::server_end::asserts::{assert_bytes, assert_that};
use crate::server_end::fails_once::FailsOnce;
use crate::server_end::fixtures::bytes_of;
use crate::server_end::serving::ledger;
use log::sink::Discard;
use mq_chore::NoChore;
use mq_connections::{RoomFault, ServingEnd, Times};
use mq_ledger::{Ledger, LedgerFault, Zone};
use mq_request::{Reply, Request};
use mq_watch::WatchedLedger;
use network::{Peer, Peers, Ticking, serve_peers};
use std::alloc::Global;
use std::cell::Cell;
use std::collections::VecDeque;
use std::process::Abort;
use std::test::Fail;
use std::time::Duration;

/// What a peer sends, piece by piece, where an empty one says that the others have their turn; how
/// many bytes of replies it takes at a time, after so many refusals; and all that it has taken in
/// the end.
type Row<'a> = (&'a [&'a str], usize, u32, &'a str);

/// Recipients reserved for the login `u` under the numbers 1 to 4.
const FIRST: &str =
    "0021 01 0161 0000000000000001 00000001 00000001 0000000000015180 0175 00000001";

const SECOND: &str =
    "0021 01 0161 0000000000000001 00000002 00000001 0000000000015180 0175 00000001";

const THIRD: &str =
    "0021 01 0161 0000000000000001 00000003 00000001 0000000000015180 0175 00000001";

/// Its halves.
const THIRD_BEGINS: &str = "0021 01 0161 0000000000000001 000000";

const THIRD_ENDS: &str = "03 00000001 0000000000015180 0175 00000001";

/// Half of a head.
const HALF_HEAD: &str = "00";

const AFTER_IT: &str =
    "21 01 0161 0000000000000001 00000004 00000001 0000000000015180 0175 00000001";

/// Each asks in a turn of its own, whatever comes of the others in between: the ledger takes 1, 2,
/// 4 and 3, and 3 is one too many. Halves of frames wait for their ends.
const IN_TURNS: &[Row<'_>] = &[
    (
        &[FIRST, "", THIRD_BEGINS, "", "", THIRD_ENDS],
        usize::MAX,
        0,
        "0013 81 0161 0000000000000001 00000001 00000001 0017 82 0161 0000000000000001 00000003 00000003 00000003",
    ),
    (
        &[HALF_HEAD, "", "", AFTER_IT],
        usize::MAX,
        0,
        "0013 81 0161 0000000000000001 00000004 00000003",
    ),
    (
        &["", SECOND],
        5,
        0,
        "0013 81 0161 0000000000000001 00000002 00000002",
    ),
];

/// A peer that takes its replies late, and one that takes none at all: the others get theirs.
const REPLIES_WAIT: &[Row<'_>] = &[
    (
        &[FIRST, SECOND],
        7,
        3,
        "0013 81 0161 0000000000000001 00000001 00000001 0013 81 0161 0000000000000001 00000002 00000003",
    ),
    (&[FIRST, THIRD], 7, u32::MAX, ""),
    (
        &["", THIRD, "0000"],
        7,
        1,
        "0013 81 0161 0000000000000001 00000003 00000002 0001 8e",
    ),
];

/// Two requests and what is none at once, of a peer that takes the replies bit by bit: it gets the
/// last ones too.
const LAST_REPLIES_WAIT: &[Row<'_>] = &[(
    &[
        "0021 01 0161 0000000000000001 00000001 00000001 0000000000015180 0175 00000001 \
       0021 01 0161 0000000000000001 00000002 00000001 0000000000015180 0175 00000001 \
       0000",
    ],
    7,
    1,
    "0013 81 0161 0000000000000001 00000001 00000001 0013 81 0161 0000000000000001 00000002 00000002 0001 8e",
)];

/// The second and the third of them at once.
const SECOND_AND_THIRD: &str = "\
    0021 01 0161 0000000000000001 00000002 00000001 0000000000015180 0175 00000001 \
    0021 01 0161 0000000000000001 00000003 00000001 0000000000015180 0175 00000001";

/// The store fails at the third request: the replies before it go out as far as their peers take
/// them, and nothing that comes after it is answered.
const STORE_FAILS: &[Row<'_>] = &[
    (
        &[FIRST, "", "", SECOND],
        usize::MAX,
        0,
        "0013 81 0161 0000000000000001 00000001 00000001",
    ),
    (
        &["", SECOND_AND_THIRD],
        20,
        0,
        "0013 81 0161 0000000000000001 00000002 000000",
    ),
    (&["", FIRST], usize::MAX, 0, ""),
];

/// So do those that wait for another peer, which takes none at two writes and all at the third.
const REPLIES_WAIT_AS_IT_FAILS: &[Row<'_>] = &[
    (
        &[FIRST],
        usize::MAX,
        2,
        "0013 81 0161 0000000000000001 00000001 00000001",
    ),
    (
        &["", "", SECOND_AND_THIRD],
        usize::MAX,
        0,
        "0013 81 0161 0000000000000001 00000002 00000002",
    ),
];

/// A peer of a row.
fn peer_of(rt: &impl Abort, alloc: Global, row: &Row<'_>) -> Result<Peer, Fail> {
    let mut sends = Vec::new(alloc);
    let mut reads = VecDeque::new(alloc);
    for piece in row.0 {
        let bytes = bytes_of(rt, alloc, piece);
        sends.extend_from_slice(&bytes)?;
        reads.push_back(bytes.len())?;
    }
    Ok(Peer::new(alloc, sends, reads, row.1, row.2))
}

/// The network of these peers.
fn peers_of(rt: &impl Abort, alloc: Global, rows: &[Row<'_>]) -> Result<Peers, Fail> {
    let mut peers = Vec::new(alloc);
    for row in rows {
        peers.push(peer_of(rt, alloc, row)?)?;
    }
    Ok(Peers {
        address: "127.0.0.1:7025".parse()?,
        peers,
        accepted: 0,
        waits: Vec::new(alloc),
    })
}

/// Serves the peers of these rows: it ends so, and each has taken just what it should. Where all
/// are served each connection is closed and all that came on it was read, also after the peer was
/// given up, so that its end comes in order.
fn check_rows<L: Ledger + Drop>(
    rt: &impl Abort,
    alloc: Global,
    ledger: L,
    rows: &[Row<'_>],
    end: Result<ServingEnd, RoomFault>,
) -> Result<(), Fail> {
    let clock = Ticking(Cell::new(0));
    check_rows_by(rt, alloc, &clock, ledger, rows, end)
}

/// The same by this clock.
fn check_rows_by<L: Ledger + Drop>(
    rt: &impl Abort,
    alloc: Global,
    clock: &Ticking,
    ledger: L,
    rows: &[Row<'_>],
    end: Result<ServingEnd, RoomFault>,
) -> Result<(), Fail> {
    let mut network = peers_of(rt, alloc, rows)?;
    let times = Times {
        timeout: Duration::from_millis(1_000),
        idle: Duration::from_millis(1_000),
    };
    let mut watched = WatchedLedger::new(clock, &Discard, alloc, ledger, None);
    let ended = serve_peers(
        clock,
        &Discard,
        alloc,
        &mut network,
        times,
        None,
        &mut watched,
        &mut NoChore,
    );
    assert_that(rt, ended == end, "how it ends");
    for (peer, row) in network.peers.iter().zip(rows) {
        let wanted = bytes_of(rt, alloc, row.3);
        assert_bytes(rt, peer.written(), &wanted, row.3);
        if end.is_ok() {
            assert_that(rt, !peer.is_open(), "a connection is closed");
            assert_that(rt, peer.is_read(), "all that came was read");
        }
    }
    Ok(())
}

/// A ledger that takes a second and a half for each request, by the clock.
#[derive(Drop)]
struct Slow<'a, L> {
    ledger: L,
    clock: &'a Ticking,
}

impl<L: Ledger> Ledger for Slow<'_, L> {
    ghost book = { λ s. L.book s.ledger };

    ghost has_kept = { λ s. L.has_kept s.ledger };

    ghost is_sound = { λ s. L.is_sound s.ledger };

    ghost has_store = { λ s. L.has_store s.ledger };

    ghost sound_is_kept = { λ s. L.sound_is_kept s.ledger };

    ghost sound_is_legal = { λ s. L.sound_is_legal s.ledger };

    fn zone(&self) -> &Zone {
        self.ledger.zone()
    }

    fn default_cap(&self) -> u32 {
        self.ledger.default_cap()
    }

    fn apply(&mut self, request: &Request) -> Result<Reply, LedgerFault> {
        self.clock.0.set(self.clock.0.get().saturating_add(1_500));
        self.ledger.apply(request)
    }
}

/// The second peer's request comes while the ledger takes longer for the first one's than the
/// timeout: it is answered.
const BEHIND_A_SLOW_ONE: &[Row<'_>] = &[
    (
        &[FIRST],
        usize::MAX,
        0,
        "0013 81 0161 0000000000000001 00000001 00000001",
    ),
    (
        &["", SECOND],
        usize::MAX,
        0,
        "0013 81 0161 0000000000000001 00000002 00000002",
    ),
];

#[test]
fn behind_a_slow_request(rt: HostRuntime) -> Result<(), Fail> {
    let alloc = rt.alloc();
    let clock = Ticking(Cell::new(0));
    let slow = Slow {
        ledger: ledger(&rt, alloc, 3),
        clock: &clock,
    };
    check_rows_by(
        &rt,
        alloc,
        &clock,
        slow,
        BEHIND_A_SLOW_ONE,
        Ok(ServingEnd::Over),
    )
}

#[test]
fn connections_in_turns(rt: HostRuntime) -> Result<(), Fail> {
    let alloc = rt.alloc();
    check_rows(
        &rt,
        alloc,
        ledger(&rt, alloc, 3),
        IN_TURNS,
        Ok(ServingEnd::Over),
    )
}

#[test]
fn replies_that_wait(rt: HostRuntime) -> Result<(), Fail> {
    let alloc = rt.alloc();
    check_rows(
        &rt,
        alloc,
        ledger(&rt, alloc, 3),
        REPLIES_WAIT,
        Ok(ServingEnd::Over),
    )
}

#[test]
fn last_replies_that_wait(rt: HostRuntime) -> Result<(), Fail> {
    let alloc = rt.alloc();
    let rows = LAST_REPLIES_WAIT;
    check_rows(
        &rt,
        alloc,
        ledger(&rt, alloc, 3),
        rows,
        Ok(ServingEnd::Over),
    )
}

#[test]
fn a_store_that_fails(rt: HostRuntime) -> Result<(), Fail> {
    let alloc = rt.alloc();
    let failing = FailsOnce {
        ledger: ledger(&rt, alloc, 3),
        // Two reserves, and a question of the watched ledger after the first.
        calls_before: 3,
        fault: LedgerFault::Store,
    };
    check_rows(&rt, alloc, failing, STORE_FAILS, Err(RoomFault::Store))
}

#[test]
fn replies_that_wait_as_a_store_fails(rt: HostRuntime) -> Result<(), Fail> {
    let alloc = rt.alloc();
    let failing = FailsOnce {
        ledger: ledger(&rt, alloc, 3),
        // Two reserves, and a question of the watched ledger after the first.
        calls_before: 3,
        fault: LedgerFault::Store,
    };
    let rows = REPLIES_WAIT_AS_IT_FAILS;
    check_rows(&rt, alloc, failing, rows, Err(RoomFault::Store))
}
