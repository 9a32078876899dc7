//! A stream that is waited for until a deadline and no longer.
ghost use Rattle.std.specs.Prelude.{◌≡◌, ◌+◌, ◌-◌, ◌<◌, ◌↔◌, IsOk, IfOk, IfErr, min};
ghost use Rattle.std.specs.Duration.{as_nanos};
ghost use Rattle.std.specs.Time.{FitsClock, instant_nanos};
ghost use Rattle.std.specs.IoError.{error_kind};
ghost use Rattle.std.specs.declared.io.ErrorKind.TheVariants.{InvalidInput, TimedOut};
ghost use Rattle.std.specs.declared.time.Instant.{Instant};

use std::io;
use std::io::{ErrorKind, Read, Write};
use std::marker::Model;
use std::net::OpenStream;
use std::rt::Clock;
use std::time::{Duration, Instant};

/// How long a call may wait that begins at a moment: the timeout, and no longer than until the
/// deadline. From the deadline on it fails as timed out.
fn wait_at(now: Instant, deadline: Instant, timeout: Duration) -> io::Result<Duration>
    ensures early { IsOk result ↔ (instant_nanos now < instant_nanos deadline) }
    ensures wait { IfOk result (λ wait. as_nanos wait ≡ min (as_nanos timeout)
        (instant_nanos deadline - instant_nanos now)) }
    ensures late { IfErr result (λ error. error_kind error ≡ TimedOut) }
{
    let left = deadline.duration_since(now);
    if left.is_zero() {
        return Err(io::Error::from(ErrorKind::TimedOut));
    }
    Ok(if timeout <= left { timeout } else { left })
}

/// How long a call may wait that begins now; it fails as timed out from the deadline on.
fn wait_until(clock: &impl Clock, deadline: Instant, timeout: Duration) -> io::Result<Duration>
    ensures { IfOk result (λ wait. (now : Instant) × (instant_nanos now < instant_nanos deadline)
        × (as_nanos wait ≡ min (as_nanos timeout) (instant_nanos deadline - instant_nanos now))) }
{
    wait_at(Instant::now(clock)?, deadline, timeout)
}

/// The moment that is so long after another; it fails as a bad input where no clock shows that.
pub fn moment_after(now: Instant, time: Duration) -> io::Result<Instant>
    ensures fits { IsOk result ↔ FitsClock (instant_nanos now + as_nanos time) }
    ensures after { IfOk result (λ moment. instant_nanos moment
        ≡ instant_nanos now + as_nanos time) }
    ensures far { IfErr result (λ error. error_kind error ≡ InvalidInput) }
{
    match now.checked_add(time) {
        Some(moment) => Ok(moment),
        None => Err(io::Error::from(ErrorKind::InvalidInput)),
    }
}

/// The moment that is so long from now. It fails as a bad input where no clock shows that moment,
/// and with the clock's error where the clock can't be read.
pub fn deadline_after(clock: &impl Clock, time: Duration) -> io::Result<Instant>
    ensures { IfOk result (λ deadline. (now : Instant) ×
        (instant_nanos deadline ≡ instant_nanos now + as_nanos time)) }
{
    moment_after(Instant::now(clock)?, time)
}

/// A stream whose reads and writes wait for a timeout each at most, and never past a deadline: from
/// then on they fail as timed out. Contracts see the stream.
#[derive(Drop)]
pub struct TimedStream<'a, C, S> {
    stream: S,
    clock: &'a C,
    timeout: Duration,
    deadline: Instant,
}

impl<'a, C, S> Model for TimedStream<'a, C, S> {
    ghost Value = { S };

    ghost view = { λ timed. timed.stream };
}

impl<'a, C: Clock, S: OpenStream> TimedStream<'a, C, S> {
    /// The stream with a timeout for each call, above 0, and a deadline for all of them.
    pub fn new(
        stream: S,
        clock: &'a C,
        timeout: Duration,
        deadline: Instant,
    ) -> TimedStream<'a, C, S>
        ensures { result ≡ stream }
    {
        TimedStream {
            stream,
            clock,
            timeout,
            deadline,
        }
    }

    /// The stream, as the calls left it.
    pub fn into_inner(self) -> S
        ensures { result ≡ self.entry }
    {
        let TimedStream {
            stream,
            clock: _,
            timeout: _,
            deadline: _,
        } = self;
        stream
    }

    /// How long the next call may wait.
    fn wait(&self) -> io::Result<Duration> {
        wait_until(self.clock, self.deadline, self.timeout)
    }
}

impl<C: Clock, S: Read + OpenStream> Read for TimedStream<'_, C, S> {
    ghost remaining = { λ timed. S.remaining timed };

    fn read(&mut self, piece: &mut [u8]) -> io::Result<usize> {
        self.stream.set_read_timeout(Some(self.wait()?))?;
        self.stream.read(piece)
    }
}

impl<C: Clock, S: Write + OpenStream> Write for TimedStream<'_, C, S> {
    ghost contents = { λ timed. S.contents timed };

    fn write(&mut self, piece: &[u8]) -> io::Result<usize> {
        self.stream.set_write_timeout(Some(self.wait()?))?;
        self.stream.write(piece)
    }

    fn flush(&mut self) -> io::Result<()> {
        self.stream.flush()
    }
}
