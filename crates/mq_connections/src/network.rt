//! The streams of connections, and what they report of the bytes that they carried.
ghost use Rattle.std.specs.Prelude.{◌≡◌, ◌≢◌, ℕ, IfErr, IfOk, IfSome, IsTrue};
ghost use Rattle.std.specs.Io.{ReadsAtMost, WritesAtMost};
ghost use Rattle.std.specs.Io.KnownBytes.{ReadConsumes, WriteAppends};
ghost use Rattle.mq_connections.specs.Wires.{IsKnownAs, Leaves, Wire, unknown};

use crate::accept::Connections;
use crate::fault::RoomFault;
use mq_metrics::GivenUp;
use mq_permits::Peer;
use std::io;
use std::net::SocketAddr;
use std::time::{Duration, Instant};

/// Connections that come, each under a number, and their streams, whose `read` and `write` mean
/// what those of std mean. What a stream doesn't give or take now is an error `WouldBlock`.
pub trait Network {
    ghost use Rattle.std.specs.Prelude.{None, Option};
    ghost use Rattle.mq_permits.specs.declared.peer.Peer.{Peer};

    // Who is at the other end of each connection that comes, by its number, where that is known.
    ghost peers: { ℕ → Option Peer } = { λ _. None };

    // The bytes that reads of a connection will give from here on, those that were written to it,
    // and what its peer left of the last write, where they are known.
    ghost wire: { Self → ℕ → Wire } = { λ _ n. unknown n };

    // No further connection comes.
    ghost is_over: { Self → Type 0 };

    /// The next connection, if one has come: it has this number from here on, and `accept` says who
    /// its peer is.
    fn accept(&mut self, number: usize) -> Result<Option<Peer>, RoomFault>
        ensures fault { IfErr result (λ fault. fault ≡ RoomFault.Accept) }
        ensures peer { IfOk result (λ came. IfSome came (IsKnownAs (peers number))) }
        ensures same { (n : ℕ) → wire self.new n ≡ wire self.old n };

    /// The number of the connection that was accepted last, and 0 before the first.
    fn last(&self) -> usize;

    /// Whose requests come on a connection that is open.
    fn peer(&self, number: usize) -> Option<Peer>
        ensures { IfSome result (IsKnownAs (peers number)) };

    /// Whether no further connection comes.
    fn is_done(&self) -> bool
        ensures { IsTrue result → is_over self.now };

    /// How long to wait for the next attempt to accept, where one is due without a report of the
    /// system's.
    fn accepts_in(&self, now: Instant) -> Option<Duration>;

    /// Waits until something comes, at most so long, and adds the numbers of the connections of
    /// which something came.
    fn wait(&mut self, wait: Option<Duration>, ready: &mut Vec<usize>) -> io::Result<()>
        ensures same { (n : ℕ) → wire self.new n ≡ wire self.old n };

    /// Has a connection reported again that may have more.
    fn watch_again(&mut self, number: usize) -> io::Result<()>
        ensures same { (n : ℕ) → wire self.new n ≡ wire self.old n };

    /// Reads what came on a connection, as far as there is room for it. 0 at the peer's end.
    fn read(&mut self, number: usize, piece: &mut [u8]) -> io::Result<usize>
        ensures bound { ReadsAtMost result piece.new }
        ensures bytes { ReadConsumes (wire self.old number).remaining
            (wire self.new number).remaining result piece.new }
        ensures contents { (wire self.new number).contents ≡ (wire self.old number).contents }
        ensures left { (wire self.new number).left ≡ (wire self.old number).left }
        ensures others { (n : ℕ) → n ≢ number → wire self.new n ≡ wire self.old n };

    /// Writes a prefix of the bytes to a connection, and says how many.
    fn write(&mut self, number: usize, bytes: &[u8]) -> io::Result<usize>
        ensures bound { WritesAtMost result bytes.now }
        ensures bytes { WriteAppends (wire self.old number).contents
            (wire self.new number).contents result bytes.now }
        ensures left { Leaves (wire self.new number).left result bytes.now }
        ensures over { is_over self.old → is_over self.new }
        ensures remaining { (wire self.new number).remaining ≡ (wire self.old number).remaining }
        ensures others { (n : ℕ) → n ≢ number → wire self.new n ≡ wire self.old n };

    /// Closes a connection: nothing more is read from it or written to it.
    fn close(&mut self, number: usize)
        ensures over { is_over self.old → is_over self.new }
        ensures same { (n : ℕ) → wire self.new n ≡ wire self.old n };

    /// Counts a connection that is given up, where that is wanted.
    fn count_given_up(&self, cause: GivenUp) {
        let _ = cause;
    }
}

/// A network whose connections come at an address, and are accepted by one serving after another.
pub trait Port: Network {
    /// Listens at an address.
    fn listen(&mut self, address: SocketAddr) -> io::Result<()>
        ensures same { Self.wire self.new ≡ Self.wire self.old };

    /// Begins a serving, which accepts so many connections. What prevents it is logged.
    fn begin(&mut self, connections: Connections) -> Result<(), RoomFault>
        ensures fault { IfErr result (λ fault. fault ≢ RoomFault.Store) }
        ensures same { Self.wire self.new ≡ Self.wire self.old };

    /// How many connections are accepted still.
    fn left(&self) -> Connections
        ensures { Self.is_over self.now → result ≡ Connections.Count 0 };
}
