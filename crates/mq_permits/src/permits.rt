//! From which addresses what may be asked.
ghost use Rattle.std.specs.Prelude.{◌≡◌};
ghost use Rattle.mq_permits.specs.Permits.{allows, are_from, is_from, is_of_host, may_ask, may_read};

use crate::hosts::Hosts;
use crate::network::{Network, number_of};
use crate::peer::Peer;
use mq_request::{Host, Request};

/// From where requests may come.
#[derive(Clone, Copy, Debug)]
pub enum Origin {
    /// From the addresses of a network.
    Network(Network),
    /// From this machine itself.
    ThisMachine,
}

impl Origin {
    /// Whether the peer asks from there.
    fn has(&self, peer: &Peer) -> bool
        ensures { result ≡ is_from peer.now self.now }
    {
        match self {
            Origin::Network(network) => network.has(number_of(peer.address.ip())),
            Origin::ThisMachine => peer.is_own(),
        }
    }
}

/// Whether the peer asks from one of these.
fn are_from(origins: &[Origin], peer: &Peer) -> bool
    ensures { result ≡ are_from peer.now origins.now }
{
    origins.iter().any(|origin| origin.has(peer))
}

/// From which addresses what may be asked of a server. What no list has is refused.
#[derive(Debug, Drop)]
pub struct Permits {
    /// Each mail host asks from here: for its recipients, and to retire its own runs.
    pub hosts: Hosts,
    /// From here limits are set and any host's runs retired, and all is read.
    pub admin: Vec<Origin>,
    /// From here it is read what logins have used.
    pub report: Vec<Origin>,
}

impl Permits {
    /// Whether the peer asks from an address of this host.
    fn is_of_host(&self, peer: &Peer, host: &Host) -> bool
        ensures { result ≡ is_of_host self.now peer.now host.now }
    {
        are_from(self.hosts.origins(host), peer)
    }

    /// Whether the peer may read what logins have used. This machine itself may.
    fn may_read(&self, peer: &Peer) -> bool
        ensures { result ≡ may_read self.now peer.now }
    {
        peer.is_own() || are_from(&self.admin, peer) || are_from(&self.report, peer)
    }

    /// Whether a request of this peer is put to the ledger.
    pub fn allows(&self, peer: &Peer, request: &Request) -> bool
        ensures { result ≡ allows self.now peer.now request.now }
    {
        match request {
            Request::Reserve { id, .. }
            | Request::Settle { id, .. }
            | Request::Release { id, .. } => self.is_of_host(peer, &id.host),
            Request::Retire { id } => {
                self.is_of_host(peer, &id.host) || are_from(&self.admin, peer)
            }
            Request::Limit { .. } => are_from(&self.admin, peer),
            Request::Usage { .. } | Request::List { .. } => self.may_read(peer),
        }
    }
}

/// Whether a request of this peer is put to the ledger. Without permits each is.
pub fn may_ask(permits: Option<&Permits>, peer: &Peer, request: &Request) -> bool
    ensures { result ≡ may_ask permits.entry peer.now request.now }
{
    match permits {
        Some(permits) => permits.allows(peer, request),
        None => true,
    }
}
