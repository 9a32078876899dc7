//! Requests and replies by the hexadecimal digits of their bodies, new ledgers, ledgers that are
//! asked, and what is told of what they answer.

use mq_frame::{decode_request, encode_reply};
use mq_ledger::{Ledger, LedgerFault, PlainLedger, Zone};
use mq_request::{Reply, Request, is_reply, is_request};
use mq_store::{Audit, SqlLedger};
use sqlite::MemStore;
use std::alloc::Global;
use std::fmt::Debug;
use std::test::*;

/// Requests with their replies, in turn.
pub type Asked = &'static [(&'static str, &'static str)];

/// Whether something came out as it says, or else why not.
pub type Verdict = Result<(), &'static str>;

/// It goes on where this is so.
pub fn wanted(holds: bool, why: &'static str) -> Verdict {
    if holds { Ok(()) } else { Err(why) }
}

/// A failure names the case and what came out otherwise.
pub fn told<N: Debug + Drop>(alloc: Global, name: N, verdict: Verdict) -> Result<(), Fail> {
    match verdict {
        Ok(()) => Ok(()),
        Err(why) => Err(Fail::new(format!(in alloc; "{name:?}: {why}")?)),
    }
}

/// The bytes of hexadecimal digits. Spaces are passed over.
pub fn bytes_of(alloc: Global, text: &str) -> Option<Vec<u8>> {
    let mut digits = String::new(alloc);
    for part in text.split(' ') {
        digits.push_str(part).ok()?;
    }
    hex::decode(alloc, digits.as_bytes()).ok()
}

/// Whether these are the bytes of the digits.
pub fn is_body(alloc: Global, body: &[u8], digits: &str) -> bool {
    match bytes_of(alloc, digits) {
        Some(bytes) => bytes.as_slice() == body,
        None => false,
    }
}

/// What a ledger replies to a request in range. Without clauses, so that its callers stay cheap to
/// prove.
pub fn ask<L: Ledger>(ledger: &mut L, request: &Request) -> Result<Reply, LedgerFault> {
    if !is_request(request) {
        return Err(LedgerFault::Memory);
    }
    ledger.apply(request)
}

/// Puts the frame of a reply in range after the bytes, if there is memory.
fn put_frame(reply: &Reply, bytes: &mut Vec<u8>) -> bool {
    is_reply(reply) && encode_reply(reply, bytes).is_ok()
}

/// The body of a reply.
pub fn body_of(alloc: Global, reply: &Reply) -> Option<Vec<u8>> {
    let mut frame = Vec::new(alloc);
    if put_frame(reply, &mut frame) {
        Vec::from_slice(alloc, frame.get(2..).unwrap_or(&[])).ok()
    } else {
        None
    }
}

/// The body of a ledger's reply to a request; none where there is a fault.
fn reply_to<L: Ledger>(alloc: Global, ledger: &mut L, request: &Request) -> Option<Vec<u8>> {
    match ask(ledger, request) {
        Ok(reply) => body_of(alloc, &reply),
        Err(_) => None,
    }
}

/// The body of a ledger's reply to a request of this body; none where there is a fault.
pub fn deliver<L: Ledger>(alloc: Global, ledger: &mut L, body: &[u8]) -> Option<Vec<u8>> {
    match decode_request(alloc, body) {
        Ok(request) => reply_to(alloc, ledger, &request),
        Err(_) => None,
    }
}

/// The request of these digits.
pub fn request_of(alloc: Global, digits: &str) -> Option<Request> {
    let body = bytes_of(alloc, digits)?;
    decode_request(alloc, body.as_slice()).ok()
}

/// What a ledger replies to the request of these digits, as `deliver`.
pub fn reply_of<L: Ledger>(alloc: Global, ledger: &mut L, digits: &str) -> Option<Vec<u8>> {
    let body = bytes_of(alloc, digits)?;
    deliver(alloc, ledger, body.as_slice())
}

/// Whether a ledger replies so to requests that are put together; nothing where it doesn't reply.
pub fn put_together<L: Ledger>(
    alloc: Global,
    ledger: &mut L,
    asked: &[(&str, &str)],
) -> Option<bool> {
    let mut requests = Vec::new(alloc);
    for (request, _) in asked {
        requests.push(request_of(alloc, request)?).ok()?;
    }
    let mut replies = Vec::new(alloc);
    ledger.apply_all(&requests, &mut replies).ok()?;
    for ((_, wanted), reply) in asked.iter().zip(&replies) {
        if !is_body(alloc, body_of(alloc, reply)?.as_slice(), wanted) {
            return Some(false);
        }
    }
    Some(replies.len() == asked.len())
}

/// Whether a ledger replies so to a request; nothing where it doesn't reply.
pub fn replies<L: Ledger>(
    alloc: Global,
    ledger: &mut L,
    request: &str,
    reply: &str,
) -> Option<bool> {
    let body = reply_of(alloc, ledger, request)?;
    Some(is_body(alloc, body.as_slice(), reply))
}

/// Has a ledger take requests in turn; nothing where it doesn't reply to one.
pub fn ask_in_turn<L: Ledger>(alloc: Global, ledger: &mut L, asked: &[(&str, &str)]) -> Option<()> {
    for (request, _) in asked {
        reply_of(alloc, ledger, request)?;
    }
    Some(())
}

/// An audit of a ledger in tables finds each pair right.
pub fn check_audit(ledger: &mut SqlLedger<MemStore>) -> Verdict {
    let right = matches!(ledger.audit(), Ok(Audit::Sound { .. }));
    wanted(right, "not right by an audit")
}

/// The zone that is so many minutes ahead of UTC, less than a day.
pub fn zone(minutes: i32) -> Zone {
    Zone::of_offset(minutes.clamp(-1439, 1439)).unwrap()
}

/// The zone of a rule; UTC where the text is none.
pub fn zone_by(rule: &str) -> Zone {
    match Zone::of_rule(rule) {
        Ok(zone) => zone,
        Err(_) => zone(0),
    }
}

/// A new plain ledger of offset 0. A default is at most 1,000,000.
pub fn plain(alloc: Global, default: u32) -> PlainLedger {
    PlainLedger::new(alloc, zone(0), default.min(1_000_000))
}

/// A new ledger of offset 0 in tables in memory. A default is at most 1,000,000.
pub fn tables(alloc: Global, default: u32) -> Result<SqlLedger<MemStore>, &'static str> {
    tables_in(alloc, zone(0), default)
}

/// The same of this zone.
pub fn tables_in(
    alloc: Global,
    zone: Zone,
    default: u32,
) -> Result<SqlLedger<MemStore>, &'static str> {
    SqlLedger::in_memory(alloc, zone, default.min(1_000_000)).or(Err("no tables"))
}
