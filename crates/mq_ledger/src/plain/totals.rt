//! What a login has reserved, settled and used on a day.
ghost use Rattle.std.specs.Prelude.{◌≡◌, ◌<◌, ◌^◌, ◌+◌, if◌then◌else◌, All};
ghost use Rattle.mq_request.specs.Range.{IsRequest};
ghost use Rattle.mq_ledger.specs.Day.{day_of};
ghost use Rattle.mq_ledger.specs.History.{concerns, is_open, is_abandoned, granted, counted};
ghost use Rattle.mq_ledger.specs.History.{reserved_of, settled_of, reserved, settled, used};

use crate::entry::Entry;
use crate::plain::entries::{counted, granted};
use crate::plain::standing::{self, is_closed};
use crate::zone::Zone;
use mq_request::{Login, Request};

/// Whether the request is a reserve or settle of that login and day.
fn concerns(request: &Request, zone: Zone, login: &Login, day: u32) -> bool
    requires { IsRequest request.now }
    ensures { result ≡ concerns (day_of zone) login.now day request.now }
{
    match request {
        Request::Reserve {
            login: other,
            moment,
            ..
        }
        | Request::Settle {
            login: other,
            moment,
            ..
        } => *login == *other && zone.day_at(*moment) == day,
        _ => false,
    }
}

/// Whether the request is a reserve whose transaction isn't closed.
fn is_open(entries: &[Entry], request: &Request) -> bool
    ensures { result ≡ is_open entries.now request.now }
{
    match request {
        Request::Reserve { id, txn, .. } => !is_closed(entries, id, *txn),
        _ => false,
    }
}

/// What the entry reserves of that login and day.
///
/// A reserve that wasn't granted, or is of another login or day, costs no look back.
fn reserved_of(entries: &[Entry], zone: Zone, login: &Login, day: u32, entry: &Entry) -> u32
    requires { IsRequest entry.now.request }
    ensures { result ≡ reserved_of (day_of zone) entries.now login.now day entry.now }
{
    // (in this order, since to look back for a closing costs a walk over all entries)
    let count = granted(entry);
    if 0 < count && concerns(&entry.request, zone, login, day) && is_open(entries, &entry.request) {
        count
    } else {
        0
    }
}

/// Whether the request is a reserve whose transaction a retire alone closed.
fn is_abandoned(entries: &[Entry], request: &Request) -> bool
    ensures { result ≡ is_abandoned entries.now request.now }
{
    match request {
        Request::Reserve { id, txn, .. } => standing::is_abandoned(entries, id, *txn),
        _ => false,
    }
}

/// What the entry counts for: what was settled, or what was granted and then abandoned.
fn settled_count(entries: &[Entry], entry: &Entry) -> u32
    ensures { result ≡ counted entry.now.request entry.now.reply
        + (if is_abandoned entries.now entry.now.request then granted entry.now.request
        entry.now.reply else 0) }
{
    let count = granted(entry);
    if 0 < count {
        if is_abandoned(entries, &entry.request) {
            count
        } else {
            0
        }
    } else {
        counted(entry)
    }
}

/// What the entry settles of that login and day.
fn settled_of(entries: &[Entry], zone: Zone, login: &Login, day: u32, entry: &Entry) -> u32
    requires { IsRequest entry.now.request }
    ensures { result ≡ settled_of (day_of zone) entries.now login.now day entry.now }
{
    if concerns(&entry.request, zone, login, day) {
        settled_count(entries, entry)
    } else {
        0
    }
}

/// What the login has reserved on that day.
pub fn reserved(entries: &[Entry], zone: Zone, login: &Login, day: u32) -> u32
    requires range { All (λ entry. IsRequest entry.request) entries.now }
    requires fits { reserved (day_of zone) entries.now login.now day < 2 ^ 32 }
    ensures { result ≡ reserved (day_of zone) entries.now login.now day }
{
    entries
        .iter()
        .map(|entry| reserved_of(entries, zone, login, day, entry))
        .sum()
}

/// What the login has settled on that day.
pub fn settled(entries: &[Entry], zone: Zone, login: &Login, day: u32) -> u32
    requires range { All (λ entry. IsRequest entry.request) entries.now }
    requires fits { settled (day_of zone) entries.now login.now day < 2 ^ 32 }
    ensures { result ≡ settled (day_of zone) entries.now login.now day }
{
    entries
        .iter()
        .map(|entry| settled_of(entries, zone, login, day, entry))
        .sum()
}

/// What the login has used on that day.
pub fn used(entries: &[Entry], zone: Zone, login: &Login, day: u32) -> u32
    requires range { All (λ entry. IsRequest entry.request) entries.now }
    requires fits { used (day_of zone) entries.now login.now day < 2 ^ 32 }
    ensures { result ≡ used (day_of zone) entries.now login.now day }
{
    reserved(entries, zone, login, day) + settled(entries, zone, login, day)
}
