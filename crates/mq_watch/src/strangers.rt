//! From which addresses something was asked that isn't allowed.
ghost use Rattle.std.specs.Prelude.{◌≡◌, ◌≢◌, List, ℕ, Option};
ghost use Rattle.mq_watch.specs.Known.{IsKnownAt, known};
ghost use Rattle.mq_watch.specs.Storms.{TellsOnce, octets_of_ip};

use crate::hourly::Hourly;
use std::alloc::Global;
use std::net::IpAddr;

/// The most addresses that are named in an hour: each is a line of the log.
const ADDRESSES: usize = 1_000;

/// From which addresses something was asked in an hour that isn't allowed.
#[derive(Drop)]
pub struct Strangers {
    addresses: Hourly<()>,
}

impl Strangers {
    /// None asked yet.
    pub fn new(alloc: Global) -> Strangers
        ensures { (l : List ℕ) → known result.addresses.names l ≡ None }
    {
        Strangers {
            addresses: Hourly::new(alloc, ADDRESSES),
        }
    }

    /// Whether a line that names the address is due at this moment, in seconds: none did in the hour
    /// that runs. It counts as named then. One that finds no memory, or no place, isn't named.
    pub fn is_due(&mut self, address: IpAddr, now: u64) -> bool
        ensures tells { (before : Option (Unit {0})) →
            IsKnownAt self.old.addresses.since self.old.addresses.names now (octets_of_ip address) before →
            TellsOnce before result (known self.new.addresses.names (octets_of_ip address)) }
        ensures others { (l : List ℕ) (before : Option (Unit {0})) → l ≢ octets_of_ip address →
            IsKnownAt self.old.addresses.since self.old.addresses.names now l before →
            known self.new.addresses.names l ≡ before }
    {
        match address {
            IpAddr::V4(ip) => self.is_due_for(&ip.octets(), now),
            IpAddr::V6(ip) => self.is_due_for(&ip.octets(), now),
        }
    }

    /// The same of the address of these octets.
    fn is_due_for(&mut self, octets: &[u8], now: u64) -> bool
        ensures tells { (before : Option (Unit {0})) →
            IsKnownAt self.old.addresses.since self.old.addresses.names now octets.now before →
            TellsOnce before result (known self.new.addresses.names octets.now) }
        ensures others { (l : List ℕ) (before : Option (Unit {0})) → l ≢ octets.now →
            IsKnownAt self.old.addresses.since self.old.addresses.names now l before →
            known self.new.addresses.names l ≡ before }
    {
        self.addresses.begin(now);
        match self.addresses.get(octets) {
            Some(_) => false,
            None => self.addresses.put(octets, ()),
        }
    }
}
