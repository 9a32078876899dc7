//! Connections in memory, whose peers send and take what a test wants and report what came and
//! went, and a clock that goes on as it is read.
ghost use Rattle.std.specs.Prelude.{◌≡◌, ◌≤◌, ◌<◌, [], length, take, vec_len, Ok, Some, IfOk};
ghost use Rattle.std.specs.Prelude.{IfSome, None};
ghost use Rattle.std.specs.Io.{ReadsAtMost, WritesAtMost};
ghost use Rattle.std.specs.Io.KnownBytes.{ReadConsumes, WriteAppends};
ghost use Rattle.mq_chore.specs.Choring.{Fitted};
ghost use Rattle.mq_connections.specs.Gained.{callers};
ghost use Rattle.mq_connections.specs.Wires.{Leaves};
ghost use Rattle.mq_connections.specs.Sessions.{EndsServing};
ghost use Rattle.mq_ends_tests.specs.Peers.{wires_of};

use crate::server_end::fixtures::stranger;
use log::Log;
use mq_chore::Chore;
use mq_connections::{Connections, Network, Port, RoomFault, ServingEnd, Times, serve_connections};
use mq_permits::{Peer as Asker, Permits};
use mq_watch::Hear;
use std::alloc::{AllocError, Global};
use std::cell::Cell;
use std::collections::VecDeque;
use std::io;
use std::io::{ErrorKind, Read};
use std::marker::Model;
use std::net::SocketAddr;
use std::rt::Clock;
use std::time::{Duration, Instant};

/// A clock on which a millisecond goes by from one look to the next.
#[derive(Drop)]
pub struct Ticking(pub Cell<u64>);

impl Clock for Ticking {
    fn monotonic(&self) -> io::Result<Duration> {
        let now = self.0.get();
        self.0.set(now.saturating_add(1));
        Ok(Duration::from_millis(now))
    }

    fn since_1970(&self) -> io::Result<Duration> {
        self.monotonic()
    }
}

/// A peer: it sends its bytes in reads of so many, where 0 says that nothing more has come now, and
/// then the rest at once. It takes so many bytes at a time, after so many times at which it takes
/// none.
///
/// A contract sees what it has still to send, what it was written, and what it left of the last
/// write.
#[derive(Drop)]
pub struct Peer {
    alloc: Global,
    sends: Vec<u8>,
    sent: usize,
    reads: VecDeque<usize>,
    takes: usize,
    refusals: u32,
    written: Vec<u8>,
    // (none where there was no memory to keep it)
    left: Option<Vec<u8>>,
    is_open: bool,
}

impl Model for Peer {
    ghost use Rattle.std.specs.Prelude.{drop, ◌≤◌, length, option_map};
    ghost use Rattle.mq_ends_tests.specs.Peers.{Stream};

    ghost Value = { Stream };

    ghost view = { λ peer. record {
      coming = drop peer.sent peer.sends.items;
      written = peer.written.items;
      left = option_map (λ bytes. bytes.items) peer.left;
    } };

    ghost invariant = { λ peer. peer.sent ≤ length peer.sends.items };
}

impl Peer {
    /// A peer that sends these bytes in such reads, and takes so many at a time after so many
    /// refusals.
    pub fn new(
        alloc: Global,
        sends: Vec<u8>,
        reads: VecDeque<usize>,
        takes: usize,
        refusals: u32,
    ) -> Peer {
        Peer {
            alloc,
            sends,
            sent: 0,
            reads,
            takes,
            refusals,
            written: Vec::new(alloc),
            left: None,
            is_open: true,
        }
    }

    /// All that was written to it.
    pub fn written(&self) -> &[u8] {
        &self.written
    }

    /// Whether all that it sends was read.
    pub fn is_read(&self) -> bool {
        self.sent == self.sends.len()
    }

    /// Whether its connection wasn't closed.
    pub fn is_open(&self) -> bool {
        self.is_open
    }

    /// How many bytes the next read may give.
    fn next_read(&mut self) -> usize
        ensures { self.new ≡ self.old }
    {
        self.reads.pop_front().unwrap_or(usize::MAX)
    }

    /// What is read of it now.
    fn read(&mut self, piece: &mut [u8]) -> io::Result<usize>
        ensures bound { ReadsAtMost result piece.new }
        ensures bytes { ReadConsumes (Some self.old.coming)
            (Some self.new.coming) result piece.new }
        ensures written { self.new.written ≡ self.old.written }
        ensures left { self.new.left ≡ self.old.left }
    {
        let most = self.next_read();
        if most == 0 {
            return Err(io::Error::from(ErrorKind::WouldBlock));
        }
        let count = read_next(&self.sends[self.sent..], most, piece)?;
        self.sent += count;
        Ok(count)
    }

    /// What it takes now, and what it leaves.
    fn write(&mut self, bytes: &[u8]) -> io::Result<usize>
        ensures bound { WritesAtMost result bytes.now }
        ensures bytes { WriteAppends (Some self.old.written)
            (Some self.new.written) result bytes.now }
        ensures left { Leaves self.new.left result bytes.now }
        ensures coming { self.new.coming ≡ self.old.coming }
    {
        match self.take(bytes) {
            Ok(count) => {
                self.left = copy_of(self.alloc, &bytes[count..]);
                Ok(count)
            }
            Err(cause) => {
                self.left = copy_of(self.alloc, bytes);
                Err(cause)
            }
        }
    }

    /// What it takes now.
    fn take(&mut self, bytes: &[u8]) -> io::Result<usize>
        ensures bound { WritesAtMost result bytes.now }
        ensures bytes { WriteAppends (Some self.old.written)
            (Some self.new.written) result bytes.now }
        ensures coming { self.new.coming ≡ self.old.coming }
    {
        if self.refusals > 0 {
            self.refusals -= 1;
            return Err(io::Error::from(ErrorKind::WouldBlock));
        }
        let count = bytes.len().min(self.takes);
        self.written.extend_from_slice(&bytes[..count])?;
        Ok(count)
    }

    /// Its connection is closed.
    fn close(&mut self)
        ensures { self.new ≡ self.old }
    {
        self.is_open = false;
    }
}

/// Reads into the piece what comes next of the bytes, at most so many.
fn read_next(bytes: &[u8], most: usize, piece: &mut [u8]) -> io::Result<usize>
    requires { 0 < most }
    ensures bound { ReadsAtMost result piece.new }
    ensures within { IfOk result (λ count. count ≤ length bytes.now) }
    ensures given { IfOk result (λ count. take count piece.new ≡ take count bytes.now) }
    ensures end { IfOk result (λ count. count ≡ 0 → 0 < length piece.new → bytes.now ≡ []) }
{
    let mut next = &bytes[..bytes.len().min(most)];
    next.read(piece)
}

/// The bytes again, where there is memory for them.
fn copy_of(alloc: Global, bytes: &[u8]) -> Option<Vec<u8>>
    ensures { IfSome result (λ copy. copy.items ≡ bytes.now) }
{
    let mut copy = Vec::new(alloc);
    match copy.extend_from_slice(bytes) {
        Ok(()) => Some(copy),
        Err(_) => None,
    }
}

/// The connections of such peers, which come one after another, all before the first is served.
#[derive(Drop)]
pub struct Peers {
    pub address: SocketAddr,
    pub peers: Vec<Peer>,
    pub accepted: usize,
    /// How long each wait may last, the earliest first.
    pub waits: Vec<Option<Duration>>,
}

impl Network for Peers {
    ghost wire = { λ network. wires_of network.peers.items };

    ghost is_over = { λ network. vec_len network.peers ≤ network.accepted };

    fn accept(&mut self, number: usize) -> Result<Option<Asker>, RoomFault> {
        if self.is_done() {
            return Ok(None);
        }
        self.accepted = number;
        Ok(Some(stranger(self.address)))
    }

    fn last(&self) -> usize {
        self.accepted
    }

    fn peer(&self, _number: usize) -> Option<Asker> {
        Some(stranger(self.address))
    }

    fn is_done(&self) -> bool {
        self.accepted >= self.peers.len()
    }

    fn accepts_in(&self, _now: Instant) -> Option<Duration> {
        None
    }

    fn wait(&mut self, wait: Option<Duration>, ready: &mut Vec<usize>) -> io::Result<()> {
        self.waits.push(wait)?;
        add_all(ready, self.accepted)?;
        Ok(())
    }

    fn watch_again(&mut self, _number: usize) -> io::Result<()> {
        Ok(())
    }

    fn read(&mut self, number: usize, piece: &mut [u8]) -> io::Result<usize> {
        let Some(at) = number.checked_sub(1) else {
            return Err(io::Error::from(ErrorKind::NotConnected));
        };
        match self.peers.get_mut(at) {
            Some(peer) => peer.read(piece),
            None => Err(io::Error::from(ErrorKind::NotConnected)),
        }
    }

    fn write(&mut self, number: usize, bytes: &[u8]) -> io::Result<usize> {
        let Some(at) = number.checked_sub(1) else {
            return Err(io::Error::from(ErrorKind::NotConnected));
        };
        match self.peers.get_mut(at) {
            Some(peer) => peer.write(bytes),
            None => Err(io::Error::from(ErrorKind::NotConnected)),
        }
    }

    fn close(&mut self, number: usize) {
        let Some(at) = number.checked_sub(1) else {
            return;
        };
        if let Some(peer) = self.peers.get_mut(at) {
            peer.close();
        }
    }
}

impl Port for Peers {
    fn listen(&mut self, _address: SocketAddr) -> io::Result<()> {
        Ok(())
    }

    fn begin(&mut self, _connections: Connections) -> Result<(), RoomFault> {
        Ok(())
    }

    fn left(&self) -> Connections {
        if self.accepted >= self.peers.len() {
            Connections::Count(0)
        } else {
            Connections::Endless
        }
    }
}

/// Adds the numbers of so many connections.
fn add_all(ready: &mut Vec<usize>, count: usize) -> Result<(), AllocError> {
    for number in 1..=count {
        ready.push(number)?;
    }
    Ok(())
}

/// Serves the peers to their ends, or until the chore is done. Of each connection is known what was
/// read of its peer, what was written to it and what it left, so what is said of the serving is
/// said of these bytes.
pub fn serve_peers<C: Clock, G: Log, L: Hear, K: Chore<L>>(
    clock: &C,
    log: &G,
    alloc: Global,
    network: &mut Peers,
    times: Times,
    permits: Option<&Permits>,
    ledger: &mut L,
    chore: &mut K,
) -> Result<ServingEnd, RoomFault>
    ensures serves { L.has_kept ledger.new → L.is_sound ledger.old → EndsServing
        (callers permits.entry (λ _. None))
        (record {
          book = L.book ledger.old;
          told = L.told ledger.old;
          wires = wires_of network.old.peers.items;
        })
        (record {
          book = L.book ledger.new;
          told = L.told ledger.new;
          wires = wires_of network.new.peers.items;
        })
        RoomFault.Store result }
    ensures done { L.has_kept ledger.new → L.is_sound ledger.old
        → Fitted (K.fits chore.old) (L.book ledger.old) →
        result ≡ Ok ServingEnd.Chore → K.is_done chore.new (L.book ledger.new) }
{
    let mut connections = Connections::Endless;
    serve_connections(
        clock,
        log,
        alloc,
        network,
        times,
        permits,
        ledger,
        chore,
        &mut connections,
    )
}
