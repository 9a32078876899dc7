//! Whether requests that come together may all be asked.
ghost use Rattle.std.specs.Prelude.{◌≡◌};
ghost use Rattle.mq_watch.specs.Allowed.{are_allowed, may_each_ask};

use mq_permits::{Peer, Permits};
use mq_request::Request;

/// Whether each of these may be asked by its peer: they are in one order. Without permits each may.
pub fn may_each_ask(permits: Option<&Permits>, peers: &[Peer], requests: &[Request]) -> bool
    ensures { result ≡ may_each_ask permits.entry peers.now requests.now }
{
    match permits {
        Some(permits) => are_allowed(permits, peers, requests),
        None => true,
    }
}

/// Whether the permits allow each of these to its peer. One without a peer isn't allowed.
fn are_allowed(permits: &Permits, peers: &[Peer], requests: &[Request]) -> bool
    ensures { result ≡ are_allowed permits.now peers.now requests.now }
{
    for at in 0..requests.len() {
        let Some(peer) = peers.get(at) else {
            return false;
        };
        if !permits.allows(peer, &requests[at]) {
            return false;
        }
    }
    true
}
