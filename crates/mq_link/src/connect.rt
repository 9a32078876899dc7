//! How a link comes to its connections.

use std::io;
use std::io::{Read, Write};
use std::marker::Model;
use std::net::{Net, OpenStream, SocketAddr, TcpStream};
use std::time::Duration;

/// Makes connections to the quota server. What a connection carried is what its stream reports.
pub trait Connect {
    ghost use Rattle.std.specs.Prelude.{◌≡◌, ℕ, Option, None, IfOk, option_map, suc, ⊤};

    type Stream: Read + Write + OpenStream + Drop;

    // How many connections were tried, where that is counted.
    ghost tried: { Self → Option ℕ } = { λ _. None };

    // A stream as it was made, over which nothing went yet.
    ghost is_new: { Self.Stream → Type 0 } = { λ _. ⊤ };

    /// Makes a new connection.
    fn connect(&mut self) -> io::Result<Self::Stream>
        ensures tried { tried self.new ≡ option_map suc (tried self.old) }
        ensures new { IfOk result is_new };

    /// Where the server is.
    fn address(&self) -> SocketAddr;
}

/// Makes connections over TCP. Contracts see where they lead.
#[derive(Drop)]
pub struct Connector<'a, R> {
    net: &'a R,
    address: SocketAddr,
    timeout: Duration,
}

impl<'a, R> Model for Connector<'a, R> {
    ghost use Rattle.mq_link.specs.Exchange.{Route};

    ghost Value = { Route };

    ghost view = { λ connector. record {
      address = connector.address;
      timeout = connector.timeout;
    } };
}

impl<'a, R: Net> Connector<'a, R> {
    ghost use Rattle.std.specs.Prelude.{◌≡◌};

    /// Connects to this address, in no more than the timeout, which is above 0.
    pub fn new(net: &'a R, address: SocketAddr, timeout: Duration) -> Connector<'a, R>
        ensures { result ≡ record { address = address; timeout = timeout } }
    {
        Connector {
            net,
            address,
            timeout,
        }
    }
}

impl<R: Net> Connect for Connector<'_, R> {
    type Stream = R::Stream;

    fn connect(&mut self) -> io::Result<R::Stream> {
        TcpStream::connect_timeout(self.net, &self.address, self.timeout)
    }

    fn address(&self) -> SocketAddr {
        self.address
    }
}
