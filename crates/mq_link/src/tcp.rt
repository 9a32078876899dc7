//! The link to the quota server over TCP: a connection for each exchange, or one for many.
ghost use Rattle.std.specs.Prelude.{◌≡◌, ◌≢◌, ◌∷◌, [], ℕ, List, Option, None, Err, IfOk, IfErr};
ghost use Rattle.std.specs.Prelude.{OnOk, OnErr, false, option_map, suc, true};
ghost use Rattle.std.specs.Io.KnownBytes.{Appends};
ghost use Rattle.mq_lemmas.specs.Told.{Tells};
ghost use Rattle.mq_link.specs.declared.link.ReportedExchange.{ReportedExchange};
ghost use Rattle.mq_link.specs.Link.{outcome_of};
ghost use Rattle.mq_link.specs.Body.{IsReceived, IsHeadOnly, IsEmptyHead};
ghost use Rattle.mq_link.specs.Exchange.{IsExchange, IsSent, trouble_fault};
ghost use Rattle.mq_link.specs.Keeping.{Asks, IsCarried, IsKept, TriesOne};

use crate::body::read_body;
use crate::connect::{Connect, Connector};
use crate::kept::KeptStream;
use crate::link::{Link, LinkFault};
use crate::logged::Explain;
use crate::timed::{TimedStream, deadline_after};
use crate::trouble::Trouble;
use std::io;
use std::io::{Read, Write};
use std::marker::Model;
use std::net::{Net, OpenStream, Shutdown, SocketAddr};
use std::rt::Clock;
use std::time::{Duration, Instant};

/// The stream with one timeout for all that is done with it from now on.
fn timed<'a, K: Clock, S: OpenStream + Drop>(
    stream: S,
    clock: &'a K,
    timeout: Duration,
) -> io::Result<TimedStream<'a, K, S>>
    ensures { IfOk result (λ timed. timed ≡ stream) }
{
    let deadline = deadline_after(clock, timeout)?;
    Ok(TimedStream::new(stream, clock, timeout, deadline))
}

/// Writes a whole frame and ends the writing side.
fn write_frame<K: Clock, S: Write + OpenStream + Drop>(
    mut stream: TimedStream<'_, K, S>,
    frame: &[u8],
) -> io::Result<S>
    ensures { IfOk result (λ written. Appends (S.contents stream.entry)
        (S.contents written) frame.now) }
{
    stream.write_all(frame)?;
    let stream = stream.into_inner();
    // The server ends the connection once it has answered, as nothing more comes.
    stream.shutdown(Shutdown::Write)?;
    Ok(stream)
}

/// Reads the body of one frame with one timeout for all of it.
fn read_within<K: Clock, S: Read + OpenStream + Drop>(
    stream: S,
    clock: &K,
    timeout: Duration,
    reply: &mut Vec<u8>,
) -> Result<(), Trouble>
    ensures body { OnOk result ((left : Option (List ℕ))
        × IsReceived (S.remaining stream) left reply.new.items) }
    ensures empty { OnErr result (reply.new.items ≡ []) }
    ensures memory { result ≡ Err Trouble.Memory → (left : Option (List ℕ))
        × IsHeadOnly (S.remaining stream) left }
    ensures no_bytes { result ≡ Err Trouble.Empty → (left : Option (List ℕ))
        × IsEmptyHead (S.remaining stream) left }
{
    reply.clear();
    match timed(stream, clock, timeout) {
        Ok(mut stream) => match read_body(&mut stream, reply) {
            Ok(()) => Ok(()),
            Err(fault) => Err(Trouble::from(fault)),
        },
        Err(error) => Err(Trouble::System(error)),
    }
}

/// A link that makes a new connection for each frame, or keeps the one that it made. Contracts see
/// what makes the connections, whether the link keeps them, and the connection that it kept.
#[derive(Drop)]
pub struct TcpLink<'a, K, C: Connect> {
    connector: C,
    clock: &'a K,
    timeout: Duration,
    keeps: bool,
    kept: Option<KeptStream<C::Stream>>,
    trouble: Option<Trouble>,
}

impl<'a, K, C: Connect> Model for TcpLink<'a, K, C> {
    ghost use Rattle.mq_link.specs.Exchange.{LinkState};

    ghost Value = { LinkState C C.Stream };

    ghost view = { λ link. record {
      connector = link.connector;
      keeps = link.keeps;
      kept = link.kept;
    } };
}

impl<'a, R: Net + Clock> TcpLink<'a, R, Connector<'a, R>> {
    /// A link to this address, with no connection, that keeps none. `timeout`, above 0, is how long
    /// it may take to connect, how long to write a whole frame, and how long to read a whole reply.
    pub fn new(
        net: &'a R,
        address: SocketAddr,
        timeout: Duration,
    ) -> TcpLink<'a, R, Connector<'a, R>>
        ensures { result ≡ record {
          connector = record { address = address; timeout = timeout };
          keeps = false;
          kept = None;
        } }
    {
        TcpLink::over(Connector::new(net, address, timeout), net, timeout)
    }
}

impl<'a, K: Clock, C: Connect> TcpLink<'a, K, C> {
    /// A link over the connections that are made so, with none yet, that keeps none. `timeout`,
    /// above 0, is how long it may take to write a whole frame, and how long to read a whole reply.
    pub fn over(connector: C, clock: &'a K, timeout: Duration) -> TcpLink<'a, K, C>
        ensures { result ≡ record { connector = connector; keeps = false; kept = None } }
    {
        TcpLink {
            connector,
            clock,
            timeout,
            keeps: false,
            kept: None,
            trouble: None,
        }
    }

    /// The same link, which keeps its connection from here on, or keeps none. Over a connection that
    /// is kept a frame and its reply have one timeout together.
    pub fn keeping(self, keeps: bool) -> TcpLink<'a, K, C>
        ensures { result ≡ record self.entry { keeps = keeps } }
    {
        TcpLink { keeps, ..self }
    }

    /// Makes a new connection, writes the frame whole and ends the writing side.
    pub fn send(&mut self, frame: &[u8]) -> Result<C::Stream, LinkFault>
        ensures sent { IfOk result (IsSent C.is_new C.Stream.contents frame.now) }
        ensures no_memory { IfErr result (λ fault. fault ≢ LinkFault.Memory) }
        ensures tried { C.tried self.new.connector ≡ option_map suc (C.tried self.old.connector) }
        ensures same { self.new ≡ record self.old { connector = self.new.connector } }
    {
        match self.connect_and_write(frame) {
            Ok(stream) => Ok(stream),
            Err(error) => Err(self.fail(Trouble::System(error))),
        }
    }

    /// Keeps why an exchange brought no reply, and gives it as a link reports it.
    fn fail(&mut self, trouble: Trouble) -> LinkFault
        ensures fault { result ≡ trouble_fault trouble }
        ensures memory { result ≡ LinkFault.Memory → trouble ≡ Trouble.Memory }
        ensures same { self.new ≡ self.old }
    {
        let fault = trouble.fault();
        self.trouble = Some(trouble);
        fault
    }

    /// A new connection over which the frame was written.
    fn connect_and_write(&mut self, frame: &[u8]) -> io::Result<C::Stream>
        ensures sent { IfOk result (IsSent C.is_new C.Stream.contents frame.now) }
        ensures tried { C.tried self.new.connector ≡ option_map suc (C.tried self.old.connector) }
        ensures same { self.new ≡ record self.old { connector = self.new.connector } }
    {
        let stream = self.connector.connect()?;
        write_frame(timed(stream, self.clock, self.timeout)?, frame)
    }

    /// Reads one frame's body and drops the connection, also at a fault. At the end of the input and
    /// at a length of 0 it is `Down`.
    pub fn receive(&mut self, stream: C::Stream, reply: &mut Vec<u8>) -> Result<(), LinkFault>
        ensures same { self.new ≡ self.old }
        ensures body { OnOk result ((left : Option (List ℕ))
            × IsReceived (C.Stream.remaining stream) left reply.new.items) }
        ensures empty { OnErr result (reply.new.items ≡ []) }
        ensures memory { result ≡ Err LinkFault.Memory → (left : Option (List ℕ))
            × IsHeadOnly (C.Stream.remaining stream) left }
    {
        match read_within(stream, self.clock, self.timeout, reply) {
            Ok(()) => Ok(()),
            Err(trouble) => Err(self.fail(trouble)),
        }
    }

    /// Exchanges a frame over the connection that was kept, and once more over a new one where that
    /// is gone, with the rest of its time. Where none was kept, it goes over a new one.
    fn ask(
        &mut self,
        kept: Option<KeptStream<C::Stream>>,
        frame: &[u8],
        reply: &mut Vec<u8>,
    ) -> Result<Option<KeptStream<C::Stream>>, Trouble>
        ensures asked { IfOk result (λ now. Asks C.is_new C.tried C.Stream.contents
            C.Stream.remaining frame.now reply.new.items self.old.connector kept
            self.new.connector now) }
        ensures empty { OnErr result (reply.new.items ≡ []) }
        ensures once { TriesOne C.tried self.old.connector kept self.new.connector }
        ensures same { self.new ≡ record self.old { connector = self.new.connector } }
    {
        reply.clear();
        let Some(kept) = kept else {
            let opened = KeptStream::new(self.connector.connect()?);
            let end = deadline_after(self.clock, self.timeout)?;
            return opened.exchange(self.clock, self.timeout, end, frame, reply);
        };
        let end = deadline_after(self.clock, self.timeout)?;
        match kept.exchange(self.clock, self.timeout, end, frame, reply) {
            Err(trouble) if trouble.is_gone() => {
                let opened = KeptStream::new(self.connector.connect()?);
                opened.exchange(self.clock, self.timeout, end, frame, reply)
            }
            ended => ended,
        }
    }
}

impl<K: Clock, C: Connect> Explain for TcpLink<'_, K, C> {
    fn address(&self) -> SocketAddr {
        self.connector.address()
    }

    fn trouble(&self) -> Option<&Trouble> {
        self.trouble.as_ref()
    }

    fn now(&self) -> Option<Instant> {
        Instant::now(self.clock).ok()
    }
}

impl<K: Clock, C: Connect> Link for TcpLink<'_, K, C> {
    /// Sends the frame over a new connection, or over the one that was kept, and reads one body of
    /// 1 to 65,535 bytes. After a fault no connection is left.
    fn exchange(&mut self, frame: &[u8], reply: &mut Vec<u8>) -> Result<(), LinkFault>
        // (it reports none)
        ensures told { Tells {X = ReportedExchange} None None (record {
          frame = frame.now;
          outcome = outcome_of result reply.new.items;
        }
            ∷ []) }
        ensures empty { OnErr result (reply.new.items ≡ []) }
        ensures closed { OnErr result (self.new.kept ≡ None) }
        ensures keeps { self.new.keeps ≡ self.old.keeps }

        // Where no connection is to be kept, one is tried at each exchange, and none is left: the
        // frame was written whole over it, and the body is the one that was read.
        ensures tried { self.old.keeps ≡ false →
            C.tried self.new.connector ≡ option_map suc (C.tried self.old.connector) }
        ensures exchanged { self.old.keeps ≡ false → OnOk result (IsExchange C.is_new
            C.Stream.contents C.Stream.remaining frame.now reply.new.items) }
        ensures alone { self.old.keeps ≡ false → self.new.kept ≡ None }

        // Where one is, that goes over the one that was kept, or over the only new one.
        ensures asked { self.old.keeps ≡ true → OnOk result (Asks C.is_new C.tried
            C.Stream.contents C.Stream.remaining frame.now reply.new.items self.old.connector
            self.old.kept self.new.connector self.new.kept) }
        ensures once { self.old.keeps ≡ true → TriesOne C.tried self.old.connector self.old.kept
            self.new.connector }

        // So as many bodies were read from a connection as frames were written to it before, and
        // the next one is that of the next frame.
        ensures carried { IsKept C.is_new C.Stream.contents C.Stream.remaining self.old.kept →
            OnOk result (IsCarried C.is_new C.Stream.contents C.Stream.remaining frame.now
            reply.new.items) }
        ensures kept { IsKept C.is_new C.Stream.contents C.Stream.remaining self.old.kept →
            IsKept C.is_new C.Stream.contents C.Stream.remaining self.new.kept }
    {
        reply.clear();
        self.trouble = None;
        // (a fault leaves none)
        let kept = self.kept.take();
        if !self.keeps {
            let stream = self.send(frame)?;
            return self.receive(stream, reply);
        }
        match self.ask(kept, frame, reply) {
            Ok(kept) => {
                self.kept = kept;
                Ok(())
            }
            Err(trouble) => Err(self.fail(trouble)),
        }
    }
}
