//! Frames that come to a ledger, and what it says that a login has used.

use crate::asks::{ask, deliver};
use mq_ledger::Ledger;
use mq_request::{Login, Reply, Request};
use std::alloc::Global;

/// Hands a frame to a ledger. The body of its reply; none where there is a fault.
pub fn deliver_frame<L: Ledger>(alloc: Global, ledger: &mut L, frame: &[u8]) -> Option<Vec<u8>> {
    deliver(alloc, ledger, frame.get(2..)?)
}

/// What a login has settled and reserved on a day, and its limit.
#[derive(Clone, Copy, PartialEq)]
pub struct Used {
    pub settled: u32,
    pub reserved: u32,
    pub cap: u32,
}

impl Used {
    /// How many recipients are settled or reserved; nothing where these are above the limit.
    fn within_limit(self) -> Option<u64> {
        let taken = self.settled as u64 + self.reserved as u64;
        if taken <= self.cap as u64 {
            Some(taken)
        } else {
            None
        }
    }
}

/// What a reply says that a login has used.
fn used_by(reply: &Reply) -> Option<Used> {
    let Reply::Usage {
        settled,
        reserved,
        cap,
        ..
    } = reply
    else {
        return None;
    };
    Some(Used {
        settled: *settled,
        reserved: *reserved,
        cap: *cap,
    })
}

/// What a ledger replies to such a request.
fn used_of<L: Ledger>(ledger: &mut L, request: &Request) -> Option<Used> {
    match ask(ledger, request) {
        Ok(reply) => used_by(&reply),
        Err(_) => None,
    }
}

/// What a ledger says that a login has used on a day; nothing where there is a fault.
pub fn usage_of<L: Ledger>(alloc: Global, ledger: &mut L, login: &[u8], day: u32) -> Option<Used> {
    match Login::from_slice(alloc, login) {
        Ok(login) => used_of(ledger, &Request::Usage { login, day }),
        Err(_) => None,
    }
}

/// How many recipients of a login a ledger says to have settled or reserved on a day; nothing where
/// these are above its limit, or there is a fault.
pub fn taken_of<L: Ledger>(alloc: Global, ledger: &mut L, login: &[u8], day: u32) -> Option<u64> {
    match usage_of(alloc, ledger, login, day) {
        Some(used) => used.within_limit(),
        None => None,
    }
}

/// Whether a ledger says that what was let through of a login on a day is settled or reserved, and
/// that this is within the limit.
pub fn is_covered<L: Ledger>(
    alloc: Global,
    ledger: &mut L,
    login: &[u8],
    day: u32,
    let_through: u32,
) -> bool {
    match taken_of(alloc, ledger, login, day) {
        Some(taken) => let_through as u64 <= taken,
        None => false,
    }
}
