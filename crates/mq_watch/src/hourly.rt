//! What is known of hosts or logins within an hour.
ghost use Rattle.std.specs.Prelude.{◌≡◌, ◌≢◌, ◌<◌, ◌≤◌, List, ℕ, None, Some, IsTrue, false};
ghost use Rattle.std.specs.BTreeMap.{btree_map_len};
ghost use Rattle.mq_watch.specs.Hours.{IsOver};
ghost use Rattle.mq_watch.specs.Known.{known};

use crate::hours::is_over;
use std::alloc::Global;
use std::collections::BTreeMap;

/// What is known of names within an hour, of so many of them at most.
#[derive(Drop)]
pub struct Hourly<T> {
    alloc: Global,
    /// The most names that something is noted of in an hour: who sends chooses them.
    most: usize,
    /// When the hour began, in seconds.
    since: u64,
    names: BTreeMap<Vec<u8>, T>,
}

impl<T: Copy + Drop> Hourly<T> {
    /// Nothing is known yet. It is of at most so many names in an hour.
    pub fn new(alloc: Global, most: usize) -> Hourly<T>
        ensures most { result.most ≡ most }
        ensures none { (l : List ℕ) → known result.names l ≡ None }
    {
        Hourly {
            alloc,
            most,
            since: 0,
            names: BTreeMap::new(alloc),
        }
    }

    /// Begins a new hour at this moment, where the last one is over. In seconds.
    pub fn begin(&mut self, now: u64)
        ensures most { self.new.most ≡ self.old.most }
        ensures over { IsOver self.old.since now → self.new.since ≡ now }
        ensures none { IsOver self.old.since now → (l : List ℕ) → known self.new.names l ≡ None }
        ensures runs { (IsOver self.old.since now → ⊥) → self.new ≡ self.old }
    {
        if is_over(self.since, now) {
            self.since = now;
            self.names.clear();
        }
    }

    /// What is known of a name in the hour that runs.
    pub fn get(&self, name: &[u8]) -> Option<T>
        ensures { result ≡ known self.now.names name.now }
    {
        self.names.get(name).copied()
    }

    /// Whether so many names are known that this one has no room.
    fn is_full(&self, name: &[u8]) -> bool
        ensures full { IsTrue result → (known self.now.names name.now ≡ None)
            × (self.now.most ≤ btree_map_len self.now.names) }
        ensures room { result ≡ false → known self.now.names name.now ≡ None →
            btree_map_len self.now.names < self.now.most }
    {
        match self.get(name) {
            Some(_) => false,
            None => self.most <= self.names.len(),
        }
    }

    /// Notes something of a name, and says whether it is known then: it isn't where there is no
    /// memory, or where so many others are known.
    pub fn put(&mut self, name: &[u8], value: T) -> bool
        ensures most { self.new.most ≡ self.old.most }
        ensures since { self.new.since ≡ self.old.since }
        ensures kept { IsTrue result → known self.new.names name.now ≡ Some value }
        ensures lost { result ≡ false → (l : List ℕ) → known self.new.names l
            ≡ known self.old.names l }
        ensures others { (l : List ℕ) → l ≢ name.now → known self.new.names l
            ≡ known self.old.names l }
        ensures few { btree_map_len self.old.names ≤ self.old.most
            → btree_map_len self.new.names ≤ self.old.most }
    {
        if self.is_full(name) {
            return false;
        }
        match Vec::from_slice(self.alloc, name) {
            Ok(key) => self.names.insert(key, value).is_ok(),
            Err(_) => false,
        }
    }
}
