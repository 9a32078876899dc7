//! Connections over TCP.
ghost use Rattle.std.specs.Prelude.{◌≡◌};
ghost use Rattle.mq_connections.specs.declared.accept.Connections.TheVariants.{Count};

use crate::accept::{Acceptor, Connections};
use crate::fault::RoomFault;
use crate::network::{Network, Port};
use crate::serving::no_wait;
use log::{Log, warn};
use mio::unix::SourceFd;
use mio::{Events, Interest, Poll, Token};
use mq_metrics::{GivenUp, ServerMetrics};
use mq_permits::Peer;
use std::alloc::Global;
use std::collections::BTreeMap;
use std::io;
use std::io::{ErrorKind, Read, Write};
use std::net::{Net, OpenStream, SocketAddr, TcpListener, TcpStream};
use std::os::fd::AsRawFd;
use std::rt::Clock;
use std::time::{Duration, Instant};

/// The most connections that are reported at once: all of them.
pub const EVENTS: usize = 1_024;

/// Under which the system reports the listener; a connection has a number above it.
const LISTENER: Token = Token(0);

/// What the system reports of the listener and of the connections.
#[derive(Drop)]
struct Reports {
    poll: Poll,
    events: Events,
}

/// The socket of a connection that is open, and its peer.
#[derive(Drop)]
struct Socket {
    stream: TcpStream,
    peer: Peer,
    /// When something came last for which nothing was written yet, where that is counted.
    came: Option<Instant>,
}

/// A listener, and the sockets of the connections that are open.
#[derive(Drop)]
pub struct Sockets<'a, R, G> {
    rt: &'a R,
    log: &'a G,
    alloc: Global,
    /// Where connections come, once it listens.
    listener: Option<TcpListener>,
    /// There are some once a serving has begun.
    reports: Option<Reports>,
    acceptor: Acceptor,
    open: BTreeMap<usize, Socket>,
    /// The number of the connection that was accepted last.
    last: usize,
    /// What counts connections and how long replies take, where that is asked for.
    metrics: Option<&'a ServerMetrics>,
}

impl<'a, R, G> Sockets<'a, R, G> {
    /// It listens nowhere yet.
    pub fn new(rt: &'a R, log: &'a G, alloc: Global) -> Sockets<'a, R, G> {
        Sockets {
            rt,
            log,
            alloc,
            listener: None,
            reports: None,
            acceptor: Acceptor::new(Connections::Count(0)),
            open: BTreeMap::new(alloc),
            last: 0,
            metrics: None,
        }
    }

    /// Counts from here on the connections, and how long replies take.
    pub fn count_in(&mut self, metrics: &'a ServerMetrics) {
        self.metrics = Some(metrics);
        self.count_open();
    }

    /// Counts the connections that are open.
    fn count_open(&self) {
        if let Some(metrics) = self.metrics {
            let open = u64::try_from(self.open.len()).unwrap_or(u64::MAX);
            metrics.connections.open.set(open);
        }
    }

    /// Counts a connection that was accepted.
    fn count_accepted(&self) {
        if let Some(metrics) = self.metrics {
            metrics.connections.accepted.increment();
        }
    }
}

impl<R: Clock, G> Sockets<'_, R, G> {
    /// Notes when something came on a connection, where that is counted.
    fn note_arrival(&mut self, number: usize) {
        if self.metrics.is_none() {
            return;
        }
        if let Some(socket) = self.open.get_mut(&number) {
            socket.came = Instant::now(self.rt).ok();
        }
    }

    /// Counts how long a reply took that was written now to what came at that moment.
    fn count_reply(&self, came: Option<Instant>) {
        let (Some(metrics), Some(came)) = (self.metrics, came) else {
            return;
        };
        if let Ok(took) = came.elapsed(self.rt) {
            metrics.replies.observe(took);
        }
    }
}

impl<R: Net, G> Sockets<'_, R, G> {
    /// Has the system report connections that come.
    fn watch(&mut self, events: Events) -> io::Result<()>
        ensures { self.new.acceptor ≡ self.old.acceptor }
    {
        let Some(listener) = &self.listener else {
            return Err(io::Error::from(ErrorKind::NotConnected));
        };
        listener.set_nonblocking(true)?;
        let poll = Poll::new(self.rt)?;
        let descriptor = listener.as_raw_fd();
        poll.registry()
            .register(&mut SourceFd(&descriptor), LISTENER, Interest::READABLE)?;
        self.reports = Some(Reports { poll, events });
        Ok(())
    }
}

impl<R, G> Sockets<'_, R, G> {
    /// Opens a connection that was accepted, and has the system report it.
    fn register(&mut self, number: usize, socket: Socket) -> io::Result<()> {
        let Some(reports) = &self.reports else {
            return Err(io::Error::from(ErrorKind::NotConnected));
        };
        socket.stream.set_nonblocking(true)?;
        let descriptor = socket.stream.as_raw_fd();
        reports
            .poll
            .registry()
            .register(&mut SourceFd(&descriptor), Token(number), both_ways())?;
        match self.open.insert(number, socket) {
            Ok(_) => {
                self.last = number;
                self.count_open();
                Ok(())
            }
            Err(_) => Err(io::Error::from(ErrorKind::OutOfMemory)),
        }
    }
}

/// Whose requests come on a connection from this address.
fn peer_of(stream: &TcpStream, address: SocketAddr) -> Peer {
    // (a connection whose own address the system doesn't tell is one of another machine)
    let here = stream.local_addr().ok();
    Peer {
        address,
        here: here.map(|here| here.ip()),
    }
}

impl<R: Clock, G: Log> Network for Sockets<'_, R, G> {
    ghost is_over = { λ sockets. sockets.acceptor.left ≡ Count 0 };

    fn accept(&mut self, number: usize) -> Result<Option<Peer>, RoomFault> {
        let Some(listener) = &self.listener else {
            return Ok(None);
        };
        let Some((stream, address)) = self.acceptor.next(self.rt, self.log, listener)? else {
            return Ok(None);
        };
        self.count_accepted();
        let peer = peer_of(&stream, address);
        let socket = Socket {
            stream,
            peer,
            came: None,
        };
        match self.register(number, socket) {
            Ok(()) => Ok(Some(peer)),
            Err(cause) => {
                warn!(self.log; "connection of {peer}: {cause}");
                self.count_given_up(GivenUp::System);
                Ok(None)
            }
        }
    }

    fn last(&self) -> usize {
        self.last
    }

    fn peer(&self, number: usize) -> Option<Peer> {
        self.open.get(&number).map(|socket| socket.peer)
    }

    fn is_done(&self) -> bool {
        self.acceptor.is_done()
    }

    fn accepts_in(&self, now: Instant) -> Option<Duration> {
        self.acceptor.wait_at(now)
    }

    fn wait(&mut self, wait: Option<Duration>, ready: &mut Vec<usize>) -> io::Result<()> {
        let Some(reports) = &mut self.reports else {
            return Err(io::Error::from(ErrorKind::NotConnected));
        };
        reports.poll.poll(&mut reports.events, wait)?;
        for event in reports.events.iter() {
            match event.token() {
                LISTENER => self.acceptor.arrived(),
                Token(number) => ready.push(number)?,
            }
        }
        Ok(())
    }

    fn watch_again(&mut self, number: usize) -> io::Result<()> {
        let (Some(reports), Some(socket)) = (&self.reports, self.open.get(&number)) else {
            return Ok(());
        };
        let descriptor = socket.stream.as_raw_fd();
        reports
            .poll
            .registry()
            .reregister(&mut SourceFd(&descriptor), Token(number), both_ways())
    }

    fn read(&mut self, number: usize, piece: &mut [u8]) -> io::Result<usize> {
        let read = match self.open.get_mut(&number) {
            Some(socket) => socket.stream.read(piece),
            None => Err(io::Error::from(ErrorKind::NotConnected)),
        };
        if let Ok(1..) = read {
            self.note_arrival(number);
        }
        read
    }

    fn write(&mut self, number: usize, bytes: &[u8]) -> io::Result<usize> {
        let Some(socket) = self.open.get_mut(&number) else {
            return Err(io::Error::from(ErrorKind::NotConnected));
        };
        let written = socket.stream.write(bytes)?;
        let came = socket.came.take();
        self.count_reply(came);
        Ok(written)
    }

    fn close(&mut self, number: usize) {
        let _ = self.open.remove(&number);
        self.count_open();
    }

    fn count_given_up(&self, cause: GivenUp) {
        if let Some(metrics) = self.metrics {
            metrics.connections.given_up(cause).increment();
        }
    }
}

impl<R, G: Log> Port for Sockets<'_, R, G>
where
    R: Clock + Net<Listener = TcpListener, Stream = TcpStream>,
{
    fn listen(&mut self, address: SocketAddr) -> io::Result<()> {
        self.listener = Some(TcpListener::bind(self.rt, address)?);
        Ok(())
    }

    fn begin(&mut self, connections: Connections) -> Result<(), RoomFault> {
        self.reports = None;
        let events = Events::with_capacity(self.alloc, EVENTS)?;
        match self.watch(events) {
            Ok(()) => {
                self.acceptor = Acceptor::new(connections);
                Ok(())
            }
            Err(error) => Err(no_wait(self.log, &error)),
        }
    }

    fn left(&self) -> Connections {
        self.acceptor.left()
    }
}

/// What the system reports of a connection: that something came, and that its peer takes replies
/// again.
fn both_ways() -> Interest {
    Interest::READABLE | Interest::WRITABLE
}
