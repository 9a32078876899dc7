//! From where hosts ask.
ghost use Rattle.std.specs.Prelude.{◌≡◌, ◌≢◌, List, ℕ, Option};
ghost use Rattle.mq_watch.specs.Known.{IsKnownAt, known};
ghost use Rattle.mq_watch.specs.Storms.{Asks};
ghost use Rattle.mq_watch.specs.declared.askers.Asker.{Asker as AnyAsker};

use crate::hourly::Hourly;
use mq_request::Host;
use std::alloc::Global;
use std::net::IpAddr;

/// The most hosts whose addresses are noted in an hour.
const HOSTS: usize = 1_000;

/// From where a host asked in an hour.
#[derive(Clone, Copy, Drop)]
pub enum Asker {
    /// From this address alone.
    One(IpAddr),
    /// From several, which was logged.
    Several,
}

/// The addresses from which hosts ask in an hour.
#[derive(Drop)]
pub struct Askers {
    hosts: Hourly<Asker>,
}

impl Askers {
    /// None has asked yet.
    pub fn new(alloc: Global) -> Askers
        ensures { (l : List ℕ) → known result.hosts.names l ≡ None }
    {
        Askers {
            hosts: Hourly::new(alloc, HOSTS),
        }
    }

    /// Notes that a host asks from an address at this moment, in seconds. Where it asked from
    /// another one before in the hour that runs, and that wasn't given yet in this hour: that other
    /// one.
    pub fn other(&mut self, host: &Host, address: IpAddr, now: u64) -> Option<IpAddr>
        ensures asks { (before : Option AnyAsker) →
            IsKnownAt self.old.hosts.since self.old.hosts.names now host.now before →
            Asks before address result (known self.new.hosts.names host.now) }
        ensures others { (l : List ℕ) (before : Option AnyAsker) → l ≢ host.now →
            IsKnownAt self.old.hosts.since self.old.hosts.names now l before →
            known self.new.hosts.names l ≡ before }
    {
        self.hosts.begin(now);
        let host = host.as_slice();
        match self.hosts.get(host) {
            None => {
                // (where there is no room, the host asks for the first time again)
                let _ = self.hosts.put(host, Asker::One(address));
                None
            }
            Some(Asker::One(first)) if first != address => {
                if self.hosts.put(host, Asker::Several) {
                    Some(first)
                } else {
                    None
                }
            }
            Some(_) => None,
        }
    }
}
