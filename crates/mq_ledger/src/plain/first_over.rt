//! The first day on which a login has used more than a limit would allow.
ghost use Rattle.std.specs.Prelude.{◌≡◌, ◌<◌, ◌^◌, ℕ, All, IfSome};
ghost use Rattle.mq_request.specs.Range.{IsRequest, IsDay};
ghost use Rattle.mq_ledger.specs.Day.{day_of};
ghost use Rattle.mq_ledger.specs.History.{used};
ghost use Rattle.mq_ledger.specs.Over.{day_from, days_from, lesser, least, over};

use crate::entry::Entry;
use crate::plain::totals::used;
use crate::zone::Zone;
use mq_request::{Login, Reply, Request};

/// The day of the login's granted reserve or settled settle, where it is that day or a later one.
fn day_from(entry: &Entry, zone: Zone, login: &Login, from: u32) -> Option<u32>
    requires { IsRequest entry.now.request }
    ensures value { result ≡ day_from (day_of zone) login.now from entry.now.request entry.now.reply }
    ensures in_range { IfSome result IsDay }
{
    match (&entry.request, &entry.reply) {
        (
            Request::Reserve {
                login: other,
                moment,
                ..
            },
            Reply::Granted { .. },
        )
        | (
            Request::Settle {
                login: other,
                moment,
                ..
            },
            Reply::Settled { .. },
        ) => {
            if *login != *other {
                return None;
            }
            let day = zone.day_at(*moment);
            if from <= day { Some(day) } else { None }
        }
        _ => None,
    }
}

/// The lesser of the two, where there is a second.
fn lesser(day: u32, other: Option<u32>) -> u32
    ensures { result ≡ lesser day other }
{
    match other {
        Some(other) if other < day => other,
        _ => day,
    }
}

/// The first of the login's days from that day on.
fn next_day(entries: &[Entry], zone: Zone, login: &Login, from: u32) -> Option<u32>
    requires { All (λ entry. IsRequest entry.request) entries.now }
    ensures value { result ≡ least (days_from (day_of zone) entries.now login.now from) }
    ensures in_range { IfSome result IsDay }
{
    let mut found = None;
    for entry in entries {
        if let Some(day) = day_from(entry, zone, login, from) {
            found = Some(lesser(day, found));
        }
    }
    found
}

/// The first day from that day on on which the login has used more than the cap.
///
/// It goes from day to day on which the login has used anything.
pub fn over(entries: &[Entry], zone: Zone, login: &Login, from: u32, cap: u32) -> Option<u32>
    requires range { All (λ entry. IsRequest entry.request) entries.now }
    requires fits { (d : ℕ) → used (day_of zone) entries.now login.now d < 2 ^ 32 }
    ensures { result ≡ over (day_of zone) entries.now login.now from cap }
{
    let mut start = from;
    // (the label is the loop's name in its proof)
    'days: while let Some(day) = next_day(entries, zone, login, start) {
        if cap < used(entries, zone, login, day) {
            return Some(day);
        }
        start = day + 1;
    }
    None
}
