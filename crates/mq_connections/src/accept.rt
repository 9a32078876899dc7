//! The next connection, also after errors that pass.
ghost use Rattle.std.specs.Prelude.{◌≡◌, ◌*◌, ◌-◌, ◌↔◌, ◌⊎◌, min, false, None, Some, true, IfErr};
ghost use Rattle.std.specs.Prelude.{IfOk, IfSome, IsTrue, MatchOption, OnErr};
ghost use Rattle.std.specs.Duration.{as_nanos};
ghost use Rattle.std.specs.Time.{instant_nanos};
ghost use Rattle.std.specs.declared.time.Instant.{Instant};
ghost use Rattle.mq_connections.specs.Counting.{one_less};

use crate::fault::RoomFault;
use log::{Log, error, warn};
use mq_link::deadline_after;
use std::io;
use std::io::ErrorKind;
use std::net::{OpenListener, SocketAddr, TcpListener, TcpStream};
use std::rt::Clock;
use std::time::{Duration, Instant};

/// The first pause before another attempt, in milliseconds.
const FIRST_PAUSE: u64 = 10;

/// The longest pause before another attempt, in milliseconds.
const LONGEST_PAUSE: u64 = 1_000;

/// The errors of accept(2) on Linux that pass: no memory, files or buffers left, a firewall's
/// refusal, a connection that was given up, and what the network reports of the next connection.
const PASSING: [i32; 14] = [
    1, // EPERM
    12, // ENOMEM
    23, // ENFILE
    24, // EMFILE
    64, // ENONET
    71, // EPROTO
    92, // ENOPROTOOPT
    95, // EOPNOTSUPP
    100, // ENETDOWN
    101, // ENETUNREACH
    103, // ECONNABORTED
    105, // ENOBUFS
    112, // EHOSTDOWN
    113, // EHOSTUNREACH
];

/// Whether an error of accept(2) passes.
fn passes(error: &io::Error) -> bool {
    match error.raw_os_error() {
        Some(code) => PASSING.contains(&code),
        None => false,
    }
}

/// The pause after this one: twice as long, and no longer than the longest. In milliseconds.
fn next_pause(pause: u64) -> u64
    ensures { result ≡ min (2 * pause) 1000 }
{
    if pause < LONGEST_PAUSE / 2 {
        pause * 2
    } else {
        LONGEST_PAUSE
    }
}

/// How many connections are accepted still.
#[derive(Clone, Copy, Debug, PartialEq, Eq)]
pub enum Connections {
    /// So many.
    Count(u32),
    /// They have no end.
    Endless,
}

impl Connections {
    /// One less.
    fn one_less(self) -> Connections
        ensures { result ≡ one_less self }
    {
        match self {
            Connections::Count(count) => Connections::Count(count.saturating_sub(1)),
            Connections::Endless => Connections::Endless,
        }
    }
}

/// What a listener still has to accept.
#[derive(Drop)]
pub struct Acceptor {
    /// How many connections are accepted still.
    left: Connections,
    /// Whether a connection may have come.
    may_have: bool,
    /// The next pause, in milliseconds.
    pause: u64,
    /// When the pause is over that is made.
    resume: Option<Instant>,
}

impl Acceptor {
    /// So many are accepted.
    pub fn new(connections: Connections) -> Acceptor
        ensures left { result.left ≡ connections }
        ensures at_once { (result.may_have ≡ true) × (result.resume ≡ None) }
    {
        Acceptor {
            left: connections,
            may_have: true,
            pause: FIRST_PAUSE,
            resume: None,
        }
    }

    /// Whether no further connection is accepted.
    pub fn is_done(&self) -> bool
        ensures { IsTrue result ↔ (self.now.left ≡ Connections.Count 0) }
    {
        matches!(self.left, Connections::Count(0))
    }

    /// How many connections are accepted still.
    pub fn left(&self) -> Connections
        ensures { result ≡ self.now.left }
    {
        self.left
    }

    /// The system says that a connection came.
    pub fn arrived(&mut self)
        ensures left { self.new.left ≡ self.old.left }
        ensures noted { self.new.may_have ≡ true }
    {
        self.may_have = true;
    }

    /// How long to wait for the next attempt, where one is due without the system's word.
    pub fn wait_at(&self, now: Instant) -> Option<Duration>
        ensures none { (result ≡ None) ↔ ((self.now.left ≡ Connections.Count 0)
            ⊎ (self.now.may_have ≡ false)) }
        ensures at_once { self.now.resume ≡ None → IfSome result (λ wait. as_nanos wait ≡ 0) }
        ensures pause { (until : Instant) → self.now.resume ≡ Some until →
            IfSome result (λ wait. as_nanos wait ≡ instant_nanos until - instant_nanos now) }
    {
        if self.is_done() || !self.may_have {
            return None;
        }
        match self.resume {
            Some(resume) => Some(resume.duration_since(now)),
            None => Some(Duration::ZERO),
        }
    }

    /// Whether an attempt is due.
    fn is_due(&self, clock: &impl Clock) -> io::Result<bool> {
        let wait = self.wait_at(Instant::now(clock)?);
        Ok(wait.is_some_and(|wait| wait.is_zero()))
    }

    /// The next connection at this listener, which doesn't block, if one is there. An error that passes is logged and waited out, each
    /// time for longer; any other is logged, and ends the serving.
    pub fn next<C: Clock, G: Log>(
        &mut self,
        clock: &C,
        log: &G,
        listener: &TcpListener,
    ) -> Result<Option<(TcpStream, SocketAddr)>, RoomFault>
        ensures fault { IfErr result (λ fault. fault ≡ RoomFault.Accept) }
        ensures counts { IfOk result (λ next. MatchOption next (self.new.left ≡ self.old.left)
            (λ _. self.new.left ≡ one_less self.old.left)) }
        ensures failed { OnErr result (self.new.left ≡ self.old.left) }
        // After a connection the next attempt is due at once, and the next pause is the first
        // again.
        ensures again { IfOk result (λ next. IfSome next (λ _. (self.new.resume ≡ None)
            × (self.new.pause ≡ 10))) }
    {
        // (where the clock can't be read, an attempt is made)
        if self.is_done() || !self.is_due(clock).unwrap_or(true) {
            return Ok(None);
        }
        match listener.accept() {
            Ok(accepted) => {
                self.left = self.left.one_less();
                self.pause = FIRST_PAUSE;
                self.resume = None;
                Ok(Some(accepted))
            }
            Err(error) if error.kind() == ErrorKind::WouldBlock => {
                self.may_have = false;
                Ok(None)
            }
            Err(error) if passes(&error) => {
                let pause = self.pause;
                warn!(log; "no connection accepted: {error}; next attempt in {pause} ms");
                self.resume = deadline_after(clock, Duration::from_millis(pause)).ok();
                self.pause = next_pause(pause);
                Ok(None)
            }
            Err(error) => {
                error!(log; "no connection accepted: {error}");
                Err(RoomFault::Accept)
            }
        }
    }
}
