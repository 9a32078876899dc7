//! How a command comes to its links.
ghost use Rattle.std.specs.Prelude.{◌≡◌};

use mq_link::{Connector, Explain, Link, TcpLink};
use std::net::{Net, SocketAddr};
use std::rt::Clock;
use std::time::Duration;

/// Makes links to quota servers.
pub trait Dial {
    ghost use Rattle.std.specs.Prelude.{ℕ, Bool};
    ghost use Rattle.std.specs.declared.net.SocketAddr.{SocketAddr};

    type Link: Link + Explain + Drop;

    // The link leads to this address, and so many milliseconds may pass over each step of an
    // exchange.
    ghost leads: { Self.Link → SocketAddr → ℕ → Type 0 };

    // The link keeps its connection from one exchange to the next, or makes a new one for each.
    ghost keeps: { Self.Link → Bool → Type 0 };

    /// A link to the server at this address, over which nothing went yet. `timeout`, above 0, is
    /// how many milliseconds it may take to connect, to write a request and to read its reply, and
    /// `is_kept` whether one connection is for many requests.
    fn link(&self, address: SocketAddr, timeout: u64, is_kept: bool) -> Self::Link
        ensures leads { leads result address timeout }
        ensures keeps { keeps result is_kept };
}

/// Makes links over TCP.
#[derive(Drop)]
pub struct Dialer<'a, R> {
    rt: &'a R,
}

impl<'a, R> Dialer<'a, R> {
    /// Makes links over the sockets of this runtime.
    pub fn new(rt: &'a R) -> Dialer<'a, R> {
        Dialer { rt }
    }
}

impl<'a, R: Clock + Net> Dial for Dialer<'a, R> {
    ghost use Rattle.mq_process.specs.Links.{LeadsTo};

    type Link = TcpLink<'a, R, Connector<'a, R>>;

    ghost leads = { λ link address timeout. LeadsTo link address timeout };

    ghost keeps = { λ link keeps. link.keeps ≡ keeps };

    fn link(
        &self,
        address: SocketAddr,
        timeout: u64,
        is_kept: bool,
    ) -> TcpLink<'a, R, Connector<'a, R>> {
        TcpLink::new(self.rt, address, Duration::from_millis(timeout)).keeping(is_kept)
    }
}
