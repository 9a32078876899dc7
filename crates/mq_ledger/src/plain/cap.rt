//! The limit of a login on a day.
ghost use Rattle.std.specs.Prelude.{◌≡◌};
ghost use Rattle.mq_ledger.specs.Limits.{governs, from_of, cap_of, cap};

use crate::entry::Entry;
use mq_request::{Login, Reply, Request};

/// Whether a limit was set for the login from that day or an earlier one on.
fn governs(entry: &Entry, login: &Login, day: u32) -> bool
    ensures { result ≡ governs login.now day entry.now }
{
    match (&entry.request, &entry.reply) {
        (
            Request::Limit {
                from_day,
                login: other,
                ..
            },
            Reply::LimitSet { .. },
        ) => *login == *other && *from_day <= day,
        _ => false,
    }
}

fn from_of(request: &Request) -> u32
    ensures { result ≡ from_of request.now }
{
    match request {
        Request::Limit { from_day, .. } => *from_day,
        _ => 0,
    }
}

fn cap_of(request: &Request) -> u32
    ensures { result ≡ cap_of request.now }
{
    match request {
        Request::Limit { cap, .. } => *cap,
        _ => 0,
    }
}

/// The login's limit on that day: of the limits from the latest day, the last that was set.
pub fn cap(entries: &[Entry], default: u32, login: &Login, day: u32) -> u32
    ensures { result ≡ cap default entries.now login.now day }
{
    let mut cap = default;
    let mut latest = 0;
    for entry in entries {
        if governs(entry, login, day) && latest <= from_of(&entry.request) {
            latest = from_of(&entry.request);
            cap = cap_of(&entry.request);
        }
    }
    cap
}
