//! The logins of a day, page by page.
ghost use Rattle.std.specs.Prelude.{◌≡◌, ◌<◌, ◌^◌, ℕ, List, All, IfOk, map, slice_get};
ghost use Rattle.std.specs.Option.{option_copied};
ghost use Rattle.mq_request.specs.Range.{IsRequest};
ghost use Rattle.mq_ledger.specs.Day.{day_of};
ghost use Rattle.mq_ledger.specs.History.{used};
ghost use Rattle.mq_ledger.specs.Page.{below, login_on, nearer, logins_above, page, row};

use crate::entry::Entry;
use crate::plain::cap::cap;
use crate::plain::totals::{reserved, settled};
use crate::zone::Zone;
use mq_request::bounds::ROW_LIMIT;
use mq_request::{Login, Reply, Request, UsageRow};
use std::alloc::{AllocError, Global};
use std::cmp::Ordering;

/// Whether the one stands before the other in byte order.
fn below(login: &[u8], other: &[u8]) -> bool
    ensures { result ≡ below login.now other.now }
{
    matches!(login.cmp(other), Ordering::Less)
}

/// The login of a granted reserve of that day.
fn login_on(entry: &Entry, zone: Zone, day: u32) -> Option<&Login>
    requires { IsRequest entry.now.request }
    ensures { option_copied result ≡ login_on (day_of zone) day entry.now.request entry.now.reply }
{
    match (&entry.request, &entry.reply) {
        (Request::Reserve { moment, login, .. }, Reply::Granted { .. }) => {
            if zone.day_at(*moment) == day {
                Some(login)
            } else {
                None
            }
        }
        _ => None,
    }
}

/// The login, or one that was found before it where that is no later.
fn nearer<'a>(found: Option<&'a Login>, login: &'a Login) -> &'a Login
    ensures { result.now ≡ nearer (option_copied found.entry) login.entry.now }
{
    match found {
        Some(other) if !below(login.as_slice(), other.as_slice()) => other,
        _ => login,
    }
}

/// The first login above `after` that has a granted reserve on that day.
fn next_login<'a>(entries: &'a [Entry], zone: Zone, day: u32, after: &[u8]) -> Option<&'a Login>
    requires { All (λ entry. IsRequest entry.request) entries.now }
    ensures { option_copied result ≡ slice_get (logins_above
        (day_of zone) entries.now day after.now) 0 }
{
    let mut found = None;
    for entry in entries {
        if let Some(login) = login_on(entry, zone, day) {
            if below(after, login.as_slice()) {
                found = Some(nearer(found, login));
            }
        }
    }
    found
}

/// What the login has used on that day, and its limit.
pub fn row(
    entries: &[Entry],
    zone: Zone,
    default: u32,
    login: &Login,
    day: u32,
) -> Result<UsageRow, AllocError>
    requires range { All (λ entry. IsRequest entry.request) entries.now }
    requires fits { used (day_of zone) entries.now login.now day < 2 ^ 32 }
    ensures { IfOk result (λ r. r ≡ row (day_of zone) default entries.now day login.now) }
{
    Ok(UsageRow {
        login: login.clone()?,
        settled: settled(entries, zone, login, day),
        reserved: reserved(entries, zone, login, day),
        cap: cap(entries, default, login, day),
    })
}

/// The rows of the first hundred logins above `after` that have a granted reserve on that day.
///
/// It goes from login to login.
pub fn page(
    alloc: Global,
    entries: &[Entry],
    zone: Zone,
    default: u32,
    day: u32,
    after: &[u8],
) -> Result<Vec<UsageRow>, AllocError>
    requires range { All (λ entry. IsRequest entry.request) entries.now }
    requires fits { (l : List ℕ) → used (day_of zone) entries.now l day < 2 ^ 32 }
    ensures { IfOk result (λ rows. rows.items
        ≡ map (row (day_of zone) default entries.now day)
        (page (day_of zone) entries.now day after.now)) }
{
    let mut rows = Vec::new(alloc);
    let mut last = after;
    // (the label is the loop's name in its proof)
    'rows: for _ in 0..ROW_LIMIT {
        let Some(login) = next_login(entries, zone, day, last) else {
            return Ok(rows);
        };
        rows.push(row(entries, zone, default, login, day)?)?;
        last = login.as_slice();
    }
    Ok(rows)
}
