//! A link that keeps its connection, over connections of the test's own, each of which has an end.
//!
//! The helpers have no clauses, so that a test stays cheap to prove.

use crate::server_end::asserts::{assert_text, assert_that};
use mq_link::{Connect, Link, LinkFault, TcpLink};
use std::alloc::Global;
use std::cell::Cell;
use std::collections::VecDeque;
use std::io;
use std::io::{ErrorKind, Read, Write};
use std::net::{OpenStream, Shutdown, SocketAddr};
use std::process::Abort;
use std::rt::Clock;
use std::test::Fail;
use std::time::Duration;

/// What a peer does once it has answered so many frames.
#[derive(Clone, Copy, PartialEq, Eq)]
enum After {
    /// It has ended the connection.
    Gone,
    /// It takes what comes, and its reply comes too late.
    Late,
}

/// What the connections carried, all together.
#[derive(Drop)]
struct Seen {
    connections: Cell<u32>,
    frames: Cell<u32>,
}

/// A connection in memory. Each frame is one byte, and the body of its reply is that byte.
#[derive(Drop)]
struct Peer<'a> {
    seen: &'a Seen,
    left: u32,
    after: After,
    coming: VecDeque<u8>,
    is_late: bool,
}

impl Read for Peer<'_> {
    fn read(&mut self, piece: &mut [u8]) -> io::Result<usize> {
        if self.is_late {
            return Err(io::Error::from(ErrorKind::WouldBlock));
        }
        self.coming.read(piece)
    }
}

impl Write for Peer<'_> {
    fn write(&mut self, piece: &[u8]) -> io::Result<usize> {
        let Some(frame) = piece.first() else {
            return Ok(0);
        };
        let frames = &self.seen.frames;
        frames.set(frames.get().saturating_add(1));
        if self.left == 0 {
            self.is_late = self.after == After::Late;
            return Ok(1);
        }
        self.left -= 1;
        for byte in [0, 1, *frame] {
            if self.coming.push_back(byte).is_err() {
                return Err(io::Error::from(ErrorKind::OutOfMemory));
            }
        }
        Ok(1)
    }

    fn flush(&mut self) -> io::Result<()> {
        Ok(())
    }
}

impl OpenStream for Peer<'_> {
    fn shutdown(&self, _how: Shutdown) -> io::Result<()> {
        Ok(())
    }

    fn set_read_timeout(&self, _time: Option<Duration>) -> io::Result<()> {
        Ok(())
    }

    fn set_write_timeout(&self, _time: Option<Duration>) -> io::Result<()> {
        Ok(())
    }
}

/// Makes such connections, each of which answers so many frames.
#[derive(Drop)]
struct Peers<'a> {
    alloc: Global,
    seen: &'a Seen,
    each: u32,
    after: After,
    address: SocketAddr,
}

impl<'a> Connect for Peers<'a> {
    type Stream = Peer<'a>;

    fn connect(&mut self) -> io::Result<Peer<'a>> {
        let connections = &self.seen.connections;
        connections.set(connections.get().saturating_add(1));
        Ok(Peer {
            seen: self.seen,
            left: self.each,
            after: self.after,
            coming: VecDeque::new(self.alloc),
            is_late: false,
        })
    }

    fn address(&self) -> SocketAddr {
        self.address
    }
}

/// Exchanges of a link, to connections of which each answers so many; and what they come to: how
/// many connections there are, how many frames were sent, and how many of the exchanges were
/// answered by the reply to their own frame.
#[derive(Clone, Copy)]
struct Case {
    keeps: bool,
    each: u32,
    after: After,
    exchanges: u32,
    wanted: (u32, u32, u32),
}

const CASES: &[Case] = &[
    // each has its own
    Case {
        keeps: false,
        each: 5,
        after: After::Gone,
        exchanges: 4,
        wanted: (4, 4, 4),
    },
    // one for all
    Case {
        keeps: true,
        each: 5,
        after: After::Gone,
        exchanges: 4,
        wanted: (1, 4, 4),
    },
    // the third and the fifth find it gone, and go out again
    Case {
        keeps: true,
        each: 2,
        after: After::Gone,
        exchanges: 5,
        wanted: (3, 7, 5),
    },
    // a new one that is gone at once is a fault, and isn't tried twice
    Case {
        keeps: true,
        each: 0,
        after: After::Gone,
        exchanges: 3,
        wanted: (3, 3, 0),
    },
    // the third, the sixth and the ninth get none in time, and what comes after has a new one
    Case {
        keeps: true,
        each: 2,
        after: After::Late,
        exchanges: 9,
        wanted: (3, 9, 6),
    },
    // one takes 9,999 frames
    Case {
        keeps: true,
        each: 10_000,
        after: After::Gone,
        exchanges: 20_000,
        wanted: (3, 20_000, 20_000),
    },
];

/// Whether an exchange is answered by the reply to its own frame. A fault leaves none.
fn is_answered<L: Link>(
    rt: &impl Abort,
    link: &mut L,
    frame: u8,
    reply: &mut Vec<u8>,
    late: bool,
) -> bool {
    match link.exchange(&[frame], reply) {
        Ok(()) => reply.as_slice() == [frame].as_slice(),
        Err(fault) => {
            assert_that(rt, reply.is_empty(), "a fault leaves no reply");
            let wanted = if late {
                LinkFault::TimedOut
            } else {
                LinkFault::Down
            };
            assert_that(rt, fault == wanted, "the fault");
            false
        }
    }
}

fn assert_case<R: Abort + Clock + AllocGlobal>(rt: &R, case: &Case) -> Result<(), Fail> {
    let seen = Seen {
        connections: Cell::new(0),
        frames: Cell::new(0),
    };
    let peers = Peers {
        alloc: rt.alloc(),
        seen: &seen,
        each: case.each,
        after: case.after,
        address: "127.0.0.1:7025".parse::<SocketAddr>()?,
    };
    let link = TcpLink::over(peers, rt, Duration::from_millis(10_000));
    let mut link = link.keeping(case.keeps);
    let mut reply = Vec::new(rt.alloc());
    let mut answered = 0u32;
    let mut frame = 0u8;
    for _exchange in 0..case.exchanges {
        frame = frame.wrapping_add(1);
        if is_answered(rt, &mut link, frame, &mut reply, case.after == After::Late) {
            answered = answered.saturating_add(1);
        }
    }
    let found = (seen.connections.get(), seen.frames.get(), answered);
    let found = format!(in rt.alloc(); "{found:?}")?;
    let wanted = format!(in rt.alloc(); "{:?}", case.wanted)?;
    assert_text(rt, found.as_str(), wanted.as_str());
    Ok(())
}

#[test]
fn connections_that_are_kept(rt: HostRuntime) -> Result<(), Fail> {
    for case in CASES {
        assert_case(&rt, case)?;
    }
    Ok(())
}
