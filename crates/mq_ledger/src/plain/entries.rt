//! What an entry says.
ghost use Rattle.std.specs.Prelude.{◌≡◌, nat_lt};
ghost use Rattle.std.specs.Option.{option_copied};
ghost use Rattle.mq_ledger.specs.Arrivals.{id_of, has_id, raised, greater, floor};
ghost use Rattle.mq_ledger.specs.Answer.{stored};
ghost use Rattle.mq_ledger.specs.History.{requests, closes, granted, counted};

use crate::entry::Entry;
use mq_request::{Host, Id, Reply, Request};

/// The number of a request: usage and list have none.
pub fn id_of(request: &Request) -> Option<&Id>
    ensures { option_copied result ≡ id_of request.now }
{
    match request {
        Request::Reserve { id, .. }
        | Request::Settle { id, .. }
        | Request::Release { id, .. }
        | Request::Limit { id, .. }
        | Request::Retire { id } => Some(id),
        Request::Usage { .. } | Request::List { .. } => None,
    }
}

/// Whether the request has that number.
pub fn has_id(request: &Request, id: &Id) -> bool
    ensures { result ≡ has_id id.now request.now }
{
    match id_of(request) {
        Some(other) => id.is_same(other),
        None => false,
    }
}

/// The entry with that number.
pub fn stored<'a>(entries: &'a [Entry], id: &Id) -> Option<&'a Entry>
    ensures { option_copied result ≡ stored entries.now id.now }
{
    entries.iter().find(|entry| has_id(&entry.request, id))
}

/// The run to which a request raises the floor of the host.
fn raised(request: &Request, host: &Host) -> u64
    ensures { result ≡ raised host.now request.now }
{
    match request {
        Request::Retire { id } if *host == id.host => id.run,
        _ => 0,
    }
}

/// The greater of the two.
fn greater(run: u64, other: u64) -> u64
    ensures { result ≡ greater run other }
{
    if run < other { other } else { run }
}

/// The floor of a host: runs below it are retired.
fn floor(entries: &[Entry], host: &Host) -> u64
    ensures { result ≡ floor (requests entries.now) host.now }
{
    let mut run = 0;
    for entry in entries {
        run = greater(run, raised(&entry.request, host));
    }
    run
}

/// Whether that run of the host is below its floor.
pub fn is_below(entries: &[Entry], host: &Host, run: u64) -> bool
    ensures { result ≡ nat_lt run (floor (requests entries.now) host.now) }
{
    run < floor(entries, host)
}

/// Whether the reply closes its transaction.
pub fn closes(reply: &Reply) -> bool
    ensures { result ≡ closes reply.now }
{
    matches!(reply, Reply::Settled { .. } | Reply::Released { .. })
}

/// The count of a granted reserve.
pub fn granted(entry: &Entry) -> u32
    ensures { result ≡ granted entry.now.request entry.now.reply }
{
    match (&entry.request, &entry.reply) {
        (Request::Reserve { count, .. }, Reply::Granted { .. }) => *count,
        _ => 0,
    }
}

/// The count of a settled settle.
pub fn counted(entry: &Entry) -> u32
    ensures { result ≡ counted entry.now.request entry.now.reply }
{
    match (&entry.request, &entry.reply) {
        (Request::Settle { count, .. }, Reply::Settled { .. }) => *count,
        _ => 0,
    }
}
