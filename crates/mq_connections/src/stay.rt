//! Until when a connection stays open as it is.
ghost use Rattle.std.specs.Prelude.{◌≡◌, IfOk};
ghost use Rattle.std.specs.Time.{instant_nanos};
ghost use Rattle.mq_connections.specs.Stays.{IsBegun, IsIdle, IsPutOff, is_idle, until_of};

use mq_link::moment_after;
use std::io;
use std::time::{Duration, Instant};

/// How long connections may stay as they are.
#[derive(Clone, Copy, Debug)]
pub struct Times {
    /// How long a peer may neither send nor take anything. Until all that it asked is answered, it
    /// has twice as long.
    pub timeout: Duration,
    /// How long a connection may stay without a request after one.
    pub idle: Duration,
}

/// Until when a connection stays open as it is.
#[derive(Clone, Copy, Debug)]
pub enum Stay {
    /// A request is awaited, or was begun, or a reply isn't taken yet.
    Busy {
        /// The peer has to send or take something before.
        until: Instant,
        /// All that came has to be answered before, and the replies taken.
        deadline: Instant,
    },
    /// All requests were answered, their replies were taken, and nothing came since.
    Idle {
        until: Instant,
    },
}

impl Stay {
    /// That of a connection on which a request may come from now on.
    pub fn begin(now: Instant, times: Times) -> io::Result<Stay>
        ensures { IfOk result (IsBegun (instant_nanos now) times) }
    {
        let until = moment_after(now, times.timeout)?;
        let deadline = moment_after(until, times.timeout)?;
        Ok(Stay::Busy { until, deadline })
    }

    /// That of a connection whose requests are all answered by now.
    pub fn idle(now: Instant, times: Times) -> io::Result<Stay>
        ensures { IfOk result (IsIdle (instant_nanos now) times) }
    {
        let until = moment_after(now, times.idle)?;
        Ok(Stay::Idle { until })
    }

    /// The same, as its peer has just sent or taken something: after idle times a request begins.
    pub fn put_off(self, now: Instant, times: Times) -> io::Result<Stay>
        ensures { IfOk result (IsPutOff (instant_nanos now) times self) }
    {
        let Stay::Busy { deadline, .. } = self else {
            return Stay::begin(now, times);
        };
        let until = moment_after(now, times.timeout)?;
        Ok(Stay::Busy {
            until: if until <= deadline { until } else { deadline },
            deadline,
        })
    }

    /// When it is over.
    pub fn until(self) -> Instant
        ensures { result ≡ until_of self }
    {
        match self {
            Stay::Busy { until, .. } | Stay::Idle { until } => until,
        }
    }

    /// Whether all requests were answered, and nothing came since.
    pub fn is_idle(self) -> bool
        ensures { result ≡ is_idle self }
    {
        matches!(self, Stay::Idle { .. })
    }
}
