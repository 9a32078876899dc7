//! What open transactions hold, as their requests are counted.

use mq_request::Id;
use std::alloc::{AllocError, Global};
use std::collections::{BTreeMap, BTreeSet};
use std::mem;

/// The most transactions that are known at once: those of a host that never retires its runs stay.
const TRANSACTIONS: usize = 100_000;

/// Of so many transactions that were closed last it is known that they were, and of as many before
/// them at most.
const RECENT: usize = 1_000;

/// What an open transaction holds.
#[derive(Drop)]
struct Holding {
    recipients: u64,
    /// The numbers of its granted reserves.
    numbers: Vec<u32>,
}

impl Holding {
    /// A reserve was granted under this number. Whether that is its first reply.
    fn grant(&mut self, number: u32, count: u32) -> bool {
        if self.numbers.contains(&number) {
            return false;
        }
        self.recipients = self.recipients.saturating_add(u64::from(count));
        // (where there is no memory, its next reply counts as the first)
        let _ = self.numbers.push(number);
        true
    }
}

/// The transactions that were closed last: their requests may come again.
#[derive(Drop)]
struct Closed {
    alloc: Global,
    /// Fewer than `RECENT`.
    last: BTreeSet<Vec<u8>>,
    /// Those before them.
    before: BTreeSet<Vec<u8>>,
}

impl Closed {
    fn new(alloc: Global) -> Closed {
        Closed {
            alloc,
            last: BTreeSet::new(alloc),
            before: BTreeSet::new(alloc),
        }
    }

    fn has(&self, name: &[u8]) -> bool {
        self.last.contains(name) || self.before.contains(name)
    }

    /// Adds one. Where there is no memory, it isn't known.
    fn add(&mut self, name: Vec<u8>) {
        let _ = self.last.insert(name);
        if RECENT <= self.last.len() {
            self.before = mem::replace(&mut self.last, BTreeSet::new(self.alloc));
        }
    }
}

/// What the transactions hold that began since it is counted, and are open: so each recipient is
/// counted once, however often its requests come.
#[derive(Drop)]
pub struct Holdings {
    alloc: Global,
    /// By host, run and transaction, as bytes in this order.
    open: BTreeMap<Vec<u8>, Holding>,
    closed: Closed,
}

impl Holdings {
    /// None began yet.
    pub fn new(alloc: Global) -> Holdings {
        Holdings {
            alloc,
            open: BTreeMap::new(alloc),
            closed: Closed::new(alloc),
        }
    }

    /// How many transactions are open.
    pub fn count(&self) -> usize {
        self.open.len()
    }

    /// A reserve of a transaction was granted. Whether that is its first reply.
    pub fn grant(&mut self, id: &Id, txn: u32, count: u32) -> bool {
        let Ok(name) = self.name_of(id, txn) else {
            return true;
        };
        if self.closed.has(name.as_slice()) {
            return false;
        }
        match self.open.get_mut(name.as_slice()) {
            Some(holding) => holding.grant(id.number, count),
            None => {
                self.begin(name, id.number, count);
                true
            }
        }
    }

    /// A transaction was closed. How many it held before that, as far as it is known, if this is
    /// the first that is heard of its end.
    pub fn close(&mut self, id: &Id, txn: u32) -> Option<u64> {
        let name = self.name_of(id, txn).ok()?;
        if self.closed.has(name.as_slice()) {
            return None;
        }
        let holding = self.open.remove(name.as_slice());
        self.closed.add(name);
        Some(holding.map_or(0, |holding| holding.recipients))
    }

    /// The runs of a host below its own were retired: their transactions are closed with all that
    /// they held.
    pub fn retire(&mut self, id: &Id) {
        let host = id.host.as_slice();
        let run = id.run.to_be_bytes();
        self.open
            .retain(|name, _| !is_before(name.as_slice(), host, &run));
    }

    /// Notes a transaction with its first reserve, where there is room.
    fn begin(&mut self, name: Vec<u8>, number: u32, count: u32) {
        if TRANSACTIONS <= self.open.len() {
            return;
        }
        let mut holding = Holding {
            recipients: 0,
            numbers: Vec::new(self.alloc),
        };
        holding.grant(number, count);
        // (where there is no memory, it isn't known)
        let _ = self.open.insert(name, holding);
    }

    /// A host, a run and a transaction in it, as bytes. No host has a byte 0.
    fn name_of(&self, id: &Id, txn: u32) -> Result<Vec<u8>, AllocError> {
        let mut name = Vec::from_slice(self.alloc, id.host.as_slice())?;
        name.push(0)?;
        name.extend_from_slice(&id.run.to_be_bytes())?;
        name.extend_from_slice(&txn.to_be_bytes())?;
        Ok(name)
    }
}

/// Whether a transaction of this name is one of that host, in a run before that one.
fn is_before(name: &[u8], host: &[u8], run: &[u8; 8]) -> bool {
    match name.strip_prefix(host) {
        Some([0, of @ .., _, _, _, _]) => of < run.as_slice(),
        _ => false,
    }
}
