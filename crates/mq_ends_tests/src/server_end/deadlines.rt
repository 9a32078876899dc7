//! How long a link waits, by a clock that each call of its connection moves on.
//!
//! The helpers have no clauses, so that a test stays cheap to prove.

use crate::server_end::asserts::{assert_text, assert_that};
use crate::server_end::fixtures::bytes_of;
use crate::server_end::server::RESERVE;
use mq_link::{Connect, Link, TcpLink};
use std::alloc::Global;
use std::cell::Cell;
use std::io;
use std::io::{ErrorKind, Read, Write};
use std::net::{OpenStream, Shutdown, SocketAddr};
use std::process::Abort;
use std::rt::Clock;
use std::test::Fail;
use std::time::Duration;

/// The frame of the reply to `RESERVE`, in two pieces: it is read by one call each.
const HEAD: [u8; 2] = [0, 19];

const BODY: &str = "81016100000000000000010000000100000001";

/// At most so many bytes are written by one call: the frame of `RESERVE` takes three.
const MOST: usize = 16;

/// A clock, and what was waited for: each call of a connection takes its time, and is to be given
/// just the rest of it.
#[derive(Drop)]
struct Course {
    millis: Cell<u64>,
    /// How long a call takes.
    write: u64,
    read: u64,
    timeout: u64,
    /// When the time of the half in hand is over, once its first call came.
    end: Cell<Option<u64>>,
    /// The writing side was ended.
    is_ended: Cell<bool>,
    /// All calls were given the rest of the time.
    is_right: Cell<bool>,
}

impl Clock for Course {
    fn monotonic(&self) -> io::Result<Duration> {
        Ok(Duration::from_millis(self.millis.get()))
    }

    fn since_1970(&self) -> io::Result<Duration> {
        self.monotonic()
    }
}

impl Course {
    /// Notes how long the next call may wait, which reads or writes.
    fn note_wait(&self, reads: bool, time: Option<Duration>) {
        let now = self.millis.get();
        let end = match self.end.get() {
            Some(end) => end,
            None => now.saturating_add(self.timeout),
        };
        self.end.set(Some(end));
        if reads != self.is_ended.get()
            || time != Some(Duration::from_millis(end.saturating_sub(now)))
        {
            self.is_right.set(false);
        }
    }

    /// A call takes so long. It was said before how long it may wait.
    fn pass(&self, millis: u64) {
        if self.end.get().is_none() {
            self.is_right.set(false);
        }
        self.millis.set(self.millis.get().saturating_add(millis));
    }
}

/// A connection whose peer sends a reply once all was written.
#[derive(Drop)]
struct Slow<'a> {
    course: &'a Course,
    written: usize,
    reply: &'a [u8],
}

impl Read for Slow<'_> {
    fn read(&mut self, piece: &mut [u8]) -> io::Result<usize> {
        if !self.course.is_ended.get() {
            return Err(io::Error::from(ErrorKind::InvalidData));
        }
        self.course.pass(self.course.read);
        self.reply.read(piece)
    }
}

impl Write for Slow<'_> {
    fn write(&mut self, piece: &[u8]) -> io::Result<usize> {
        self.course.pass(self.course.write);
        let count = piece.len().min(MOST);
        self.written = self.written.saturating_add(count);
        Ok(count)
    }

    fn flush(&mut self) -> io::Result<()> {
        Ok(())
    }
}

impl OpenStream for Slow<'_> {
    /// The next half begins.
    fn shutdown(&self, how: Shutdown) -> io::Result<()> {
        self.course.is_ended.set(how == Shutdown::Write);
        self.course.end.set(None);
        Ok(())
    }

    fn set_read_timeout(&self, time: Option<Duration>) -> io::Result<()> {
        self.course.note_wait(true, time);
        Ok(())
    }

    fn set_write_timeout(&self, time: Option<Duration>) -> io::Result<()> {
        self.course.note_wait(false, time);
        Ok(())
    }
}

/// Makes such connections.
#[derive(Drop)]
struct Slows<'a> {
    course: &'a Course,
    reply: &'a [u8],
    address: SocketAddr,
}

impl<'a> Connect for Slows<'a> {
    type Stream = Slow<'a>;

    fn connect(&mut self) -> io::Result<Slow<'a>> {
        Ok(Slow {
            course: self.course,
            written: 0,
            reply: self.reply,
        })
    }

    fn address(&self) -> SocketAddr {
        self.address
    }
}

/// What an exchange brings: the digits of its body, or its fault.
fn brought<L: Link>(alloc: Global, link: &mut L, frame: &[u8]) -> Result<String, Fail> {
    let mut reply = Vec::new(alloc);
    match link.exchange(frame, &mut reply) {
        Ok(()) => Ok(hex::encode(alloc, reply.as_slice())?),
        Err(fault) => Ok(format!(in alloc; "{fault:?}")?),
    }
}

/// Milliseconds: the timeout, and how long a call takes that writes and one that reads; and what
/// the exchange brings.
type Row<'a> = (u64, u64, u64, &'a str);

const ROWS: &[Row<'static>] = &[
    // three calls write the frame: the third one begins after two
    (201, 100, 0, BODY),
    (200, 100, 0, "TimedOut"),
    // two calls read the reply
    (101, 0, 100, BODY),
    (100, 0, 100, "TimedOut"),
    // each half has a timeout of its own
    (201, 100, 200, BODY),
    (200, 66, 199, BODY),
    (200, 66, 200, "TimedOut"),
    (1, 0, 0, BODY),
    // an hour
    (3_600_001, 1_800_000, 3_600_000, BODY),
];

fn assert_row(rt: &impl Abort, alloc: Global, row: &Row<'_>) -> Result<(), Fail> {
    let (timeout, write, read, wanted) = *row;
    let course = Course {
        millis: Cell::new(0),
        write,
        read,
        timeout,
        end: Cell::new(None),
        is_ended: Cell::new(false),
        is_right: Cell::new(true),
    };
    let mut reply = Vec::from_slice(alloc, &HEAD)?;
    reply.extend_from_slice(&bytes_of(rt, alloc, BODY))?;
    let slows = Slows {
        course: &course,
        reply: reply.as_slice(),
        address: "127.0.0.1:7025".parse::<SocketAddr>()?,
    };
    let mut link = TcpLink::over(slows, &course, Duration::from_millis(timeout));
    let found = brought(alloc, &mut link, &bytes_of(rt, alloc, RESERVE))?;
    assert_text(rt, found.as_str(), wanted);
    assert_that(
        rt,
        course.is_right.get(),
        "each call waits for the rest of the time",
    );
    Ok(())
}

#[test]
fn each_half_of_an_exchange_has_its_time(rt: HostRuntime) -> Result<(), Fail> {
    for row in ROWS {
        assert_row(&rt, rt.alloc(), row)?;
    }
    Ok(())
}
