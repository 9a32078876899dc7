//! The link over connections of the test's own, which tell what they carried, as no socket does.

use crate::server_end::asserts::assert_text;
use crate::server_end::fixtures::bytes_of;
use crate::server_end::server::RESERVE;
use log::sink::Discard;
use mq_link::{Connect, Link, LinkFault, LoggedLink, TcpLink};
use std::alloc::Global;
use std::collections::VecDeque;
use std::io;
use std::io::{ErrorKind, Read, Write};
use std::net::{OpenStream, Shutdown, SocketAddr};
use std::process::Abort;
use std::rt::Clock;
use std::test::Fail;
use std::time::Duration;

/// The frame of the reply to `RESERVE`, and a byte after it.
const REPLY: &str = "001381016100000000000000010000000100000001ff";

/// The body of that reply.
const BODY: &str = "81016100000000000000010000000100000001";

/// A connection in memory. Its peer takes one frame, and sends the same reply whatever comes.
#[derive(Drop)]
pub struct Wire<'a> {
    awaited: &'a [u8],
    written: Vec<u8>,
    coming: VecDeque<u8>,
}

impl Read for Wire<'_> {
    ghost use Rattle.std.specs.Prelude.{Some};

    ghost remaining = { λ wire. Some wire.coming.items };

    fn read(&mut self, piece: &mut [u8]) -> io::Result<usize> {
        self.coming.read(piece)
    }
}

impl Write for Wire<'_> {
    ghost use Rattle.std.specs.Prelude.{Some};

    ghost contents = { λ wire. Some wire.written.items };

    fn write(&mut self, piece: &[u8]) -> io::Result<usize> {
        self.written.write(piece)
    }

    fn flush(&mut self) -> io::Result<()> {
        Ok(())
    }
}

impl OpenStream for Wire<'_> {
    /// Fails where anything but the whole frame was written.
    fn shutdown(&self, _how: Shutdown) -> io::Result<()> {
        if self.written.as_slice() == self.awaited {
            Ok(())
        } else {
            Err(io::Error::from(ErrorKind::InvalidData))
        }
    }

    fn set_read_timeout(&self, _time: Option<Duration>) -> io::Result<()> {
        Ok(())
    }

    fn set_write_timeout(&self, _time: Option<Duration>) -> io::Result<()> {
        Ok(())
    }
}

/// Makes such connections, the first so many of which fail.
#[derive(Drop)]
pub struct Wires<'a> {
    pub alloc: Global,
    pub failures: u32,
    pub awaited: &'a [u8],
    pub reply: &'a [u8],
    pub address: SocketAddr,
}

/// The bytes that are to be read, in order.
fn coming(alloc: Global, bytes: &[u8]) -> io::Result<VecDeque<u8>> {
    let mut coming = VecDeque::new(alloc);
    for byte in bytes {
        if coming.push_back(*byte).is_err() {
            return Err(io::Error::from(ErrorKind::OutOfMemory));
        }
    }
    Ok(coming)
}

impl<'a> Connect for Wires<'a> {
    type Stream = Wire<'a>;

    fn connect(&mut self) -> io::Result<Wire<'a>> {
        if self.failures > 0 {
            self.failures -= 1;
            return Err(io::Error::from(ErrorKind::ConnectionRefused));
        }
        Ok(Wire {
            awaited: self.awaited,
            written: Vec::new(self.alloc),
            coming: coming(self.alloc, self.reply)?,
        })
    }

    fn address(&self) -> SocketAddr {
        self.address
    }
}

/// What an exchange brings: the digits of its body, or its fault.
pub fn brought<L: Link>(alloc: Global, link: &mut L, frame: &[u8]) -> Result<String, Fail> {
    let mut reply = Vec::new(alloc);
    match link.exchange(frame, &mut reply) {
        Ok(()) => Ok(hex::encode(alloc, reply.as_slice())?),
        Err(LinkFault::Down) => Ok(format!(in alloc; "down")?),
        Err(_) => Ok(format!(in alloc; "too late")?),
    }
}

/// The same of a link to such connections, after so many exchanges that fail.
fn after_failures<R: Abort + Clock>(
    rt: &R,
    alloc: Global,
    failures: u32,
    awaited: &[u8],
) -> Result<String, Fail> {
    let frame = bytes_of(rt, alloc, RESERVE);
    let reply = bytes_of(rt, alloc, REPLY);
    let wires = Wires {
        alloc,
        failures,
        awaited,
        reply: reply.as_slice(),
        address: "127.0.0.1:7025".parse::<SocketAddr>()?,
    };
    let link = TcpLink::over(wires, rt, Duration::from_millis(10_000));
    let mut link = LoggedLink::new(link, &Discard, 3);
    for _exchange in 0..failures {
        let found = brought(alloc, &mut link, &frame)?;
        assert_text(rt, found.as_str(), "down");
    }
    brought(alloc, &mut link, &frame)
}

#[test]
fn a_link_tries_again_however_often_it_failed(rt: HostRuntime) -> Result<(), Fail> {
    let frame = bytes_of(&rt, rt.alloc(), RESERVE);
    for failures in [0, 1, 3, 2_000] {
        let found = after_failures(&rt, rt.alloc(), failures, &frame)?;
        assert_text(&rt, found.as_str(), BODY);
    }
    Ok(())
}

#[test]
fn a_peer_that_awaits_another_frame(rt: HostRuntime) -> Result<(), Fail> {
    let found = after_failures(&rt, rt.alloc(), 0, b"another")?;
    assert_text(&rt, found.as_str(), "down");
    Ok(())
}
