//! From which addresses each mail host asks.
ghost use Rattle.std.specs.Prelude.{◌≡◌, ◌≢◌, ℕ, List, [], OnErr, OnOk};
ghost use Rattle.mq_permits.specs.Hosts.{origins_in};

use crate::permits::Origin;
use mq_request::Host;
use std::alloc::{AllocError, Global};
use std::collections::BTreeMap;

/// From where the requests of each mail host come, by the name under which it asks.
#[derive(Debug, Drop)]
pub struct Hosts {
    origins: BTreeMap<Vec<u8>, Vec<Origin>>,
}

impl Hosts {
    /// None may ask.
    pub fn new(alloc: Global) -> Hosts
        ensures { (host : List ℕ) → origins_in result host ≡ [] }
    {
        Hosts {
            origins: BTreeMap::new(alloc),
        }
    }

    /// How many there are.
    pub fn len(&self) -> usize {
        self.origins.len()
    }

    /// Has a host ask from these alone. An `Err` changes nothing.
    pub fn put(&mut self, host: Host, origins: Vec<Origin>) -> Result<(), AllocError>
        ensures put { OnOk result (origins_in self.new host ≡ origins.items) }
        ensures others { (other : List ℕ) → other ≢ host →
            origins_in self.new other ≡ origins_in self.old other }
        ensures err { OnErr result ((other : List ℕ) →
            origins_in self.new other ≡ origins_in self.old other) }
    {
        self.origins.insert(host.into_bytes(), origins)?;
        Ok(())
    }

    /// From where a host asks: from nowhere, where it isn't named.
    pub fn origins(&self, host: &Host) -> &[Origin]
        ensures { result.now ≡ origins_in self.now host.now }
    {
        match self.origins.get(host.as_slice()) {
            Some(origins) => origins,
            None => &[],
        }
    }
}
