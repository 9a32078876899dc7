//! A chore of a server: when it goes on, what is waited for after each piece of it, and how it ends
//! the serving.
use super::network::{Peers, Ticking, serve_peers};
use super::{FIRST, Row, peers_of};
use crate::server_end::asserts::{assert_bytes, assert_that};
use crate::server_end::fixtures::bytes_of;
use crate::server_end::serving::ledger;
use log::sink::Discard;
use mq_chore::{Chore, Piece};
use mq_connections::{RoomFault, ServingEnd, Times};
use mq_ledger::Ledger;
use mq_watch::{InnerChore, WatchedLedger};
use std::alloc::Global;
use std::cell::Cell;
use std::collections::VecDeque;
use std::process::Abort;
use std::test::Fail;
use std::time::Duration;

/// A peer that asks once, and then neither sends nor takes anything for 20 turns.
const ASKS_ONCE: Row<'_> = (
    &[
        FIRST, "", "", "", "", "", "", "", "", "", "", "", "", "", "", "", "", "", "", "", "",
    ],
    usize::MAX,
    0,
    "0013 81 0161 0000000000000001 00000001 00000001",
);

/// A chore whose pieces want this, one after the other, and then nothing.
#[derive(Drop)]
struct Wanting {
    pieces: VecDeque<Piece>,
    /// How many pieces of it were done.
    done: u32,
}

impl<L: Ledger> Chore<L> for Wanting {
    fn go_on(&mut self, _ledger: &mut L) -> Piece {
        self.done = self.done.saturating_add(1);
        self.pieces.pop_front().unwrap_or(Piece::Nothing)
    }
}

/// What a serving came to.
#[derive(Drop)]
struct Came {
    network: Peers,
    ended: Result<ServingEnd, RoomFault>,
    done: u32,
}

/// Serves that peer with a chore of these pieces.
fn serve_with(rt: &impl Abort, alloc: Global, pieces: &[Piece]) -> Result<Came, Fail> {
    let clock = Ticking(Cell::new(0));
    let mut network = peers_of(rt, alloc, &[ASKS_ONCE])?;
    let times = Times {
        timeout: Duration::from_millis(1_000),
        idle: Duration::from_millis(1_000),
    };
    let mut watched = WatchedLedger::new(&clock, &Discard, alloc, ledger(rt, alloc, 3), None);
    let mut wanted = VecDeque::new(alloc);
    for piece in pieces {
        wanted.push_back(*piece)?;
    }
    let mut chore = InnerChore {
        chore: Wanting {
            pieces: wanted,
            done: 0,
        },
    };
    let ended = serve_peers(
        &clock,
        &Discard,
        alloc,
        &mut network,
        times,
        None,
        &mut watched,
        &mut chore,
    );
    Ok(Came {
        network,
        ended,
        done: chore.chore.done,
    })
}

#[test]
fn a_chore_between_rounds(rt: HostRuntime) -> Result<(), Fail> {
    let alloc = rt.alloc();
    let later = Duration::from_millis(7);
    let pieces = [
        Piece::More,
        Piece::Nothing,
        Piece::More,
        Piece::Later(later),
    ];
    let came = serve_with(&rt, alloc, &pieces)?;
    assert_that(&rt, came.ended == Ok(ServingEnd::Over), "it ends");
    let waits = &came.network.waits;
    assert_that(&rt, came.done as usize == waits.len(), "a piece each round");
    for (at, wait) in waits.iter().enumerate() {
        let Some(wait) = wait else {
            assert_that(&rt, false, "a wait until the connection is late");
            continue;
        };
        match at {
            0 | 1 | 3 => assert_that(&rt, wait.is_zero(), "nothing is waited for"),
            4 => assert_that(&rt, *wait == later, "it has something to do later"),
            _ => assert_that(&rt, *wait > later, "it has nothing to do"),
        }
    }
    Ok(())
}

#[test]
fn a_chore_that_is_done(rt: HostRuntime) -> Result<(), Fail> {
    let alloc = rt.alloc();
    let pieces = [Piece::More, Piece::Nothing, Piece::Done, Piece::More];
    let came = serve_with(&rt, alloc, &pieces)?;
    assert_that(
        &rt,
        came.ended == Ok(ServingEnd::Chore),
        "the chore ends it",
    );
    assert_that(&rt, came.done == 3, "no piece after the last");
    let wanted = bytes_of(&rt, alloc, ASKS_ONCE.3);
    for peer in &came.network.peers {
        assert_bytes(&rt, peer.written(), &wanted, "what came before is answered");
        assert_that(&rt, !peer.is_open(), "its connection is closed");
    }
    Ok(())
}
