//! How a transaction stands: who it belongs to, whether it is closed, and what it was granted.
ghost use Rattle.std.specs.Prelude.{◌≡◌, ◌<◌, ◌^◌, ◌&&◌};
ghost use Rattle.std.specs.Option.{option_copied, MatchOption};
ghost use Rattle.mq_request.specs.declared.message.Reply.{Reply as AnyReply};
ghost use Rattle.mq_ledger.specs.Answer.{if_open};
ghost use Rattle.mq_ledger.specs.Outcome.{reply_of};
ghost use Rattle.mq_ledger.specs.History.{transaction, is_of, is_at, named, agrees, closes, ended};
ghost use Rattle.mq_ledger.specs.History.{closed, abandoned, granted_in, IsOpenTo};

use crate::entry::Entry;
use crate::outcome::Outcome;
use crate::plain::entries::{closes, granted, is_below};
use mq_request::{Id, Login, Request};

/// Whether the request is of the transaction.
fn is_of(request: &Request, id: &Id, txn: u32) -> bool
    ensures { result ≡ is_of (transaction id.now txn) request.now }
{
    // (the numbers first: they differ most often, and a host is compared byte by byte)
    match request {
        Request::Reserve {
            id: other,
            txn: number,
            ..
        }
        | Request::Settle {
            id: other,
            txn: number,
            ..
        }
        | Request::Release {
            id: other,
            txn: number,
            ..
        } => txn == *number && id.run == other.run && id.host == other.host,
        _ => false,
    }
}

/// Whether the request is of that moment and login.
fn is_at(request: &Request, moment: u64, login: &Login) -> bool
    ensures { result ≡ is_at moment login.now request.now }
{
    match request {
        Request::Reserve {
            moment: begun,
            login: other,
            ..
        }
        | Request::Settle {
            moment: begun,
            login: other,
            ..
        }
        | Request::Release {
            moment: begun,
            login: other,
            ..
        } => moment == *begun && *login == *other,
        _ => false,
    }
}

/// The first entry of the transaction.
fn named<'a>(entries: &'a [Entry], id: &Id, txn: u32) -> Option<&'a Entry>
    ensures { option_copied result ≡ named entries.now (transaction id.now txn) }
{
    entries.iter().find(|entry| is_of(&entry.request, id, txn))
}

/// Whether the transaction has that moment and login, or no entry yet.
fn agrees(entries: &[Entry], id: &Id, txn: u32, moment: u64, login: &Login) -> bool
    ensures { result ≡ agrees moment login.now (named entries.now (transaction id.now txn)) }
{
    match named(entries, id, txn) {
        None => true,
        Some(entry) => is_at(&entry.request, moment, login),
    }
}

/// Whether the entry settled or released the transaction.
fn ends(entry: &Entry, id: &Id, txn: u32) -> bool
    ensures { result ≡ (is_of (transaction id.now txn) entry.now.request
        && closes entry.now.reply) }
{
    // (the reply first: of the entries that are looked back at few close anything)
    closes(&entry.reply) && is_of(&entry.request, id, txn)
}

/// Whether the transaction was settled or released.
fn is_ended(entries: &[Entry], id: &Id, txn: u32) -> bool
    ensures { result ≡ ended entries.now (transaction id.now txn) }
{
    entries.iter().any(|entry| ends(entry, id, txn))
}

/// Whether the transaction is closed: settled, released or of a retired run.
pub fn is_closed(entries: &[Entry], id: &Id, txn: u32) -> bool
    ensures { result ≡ closed entries.now (transaction id.now txn) }
{
    is_below(entries, &id.host, id.run) || is_ended(entries, id, txn)
}

/// Whether the transaction is of a retired run, and was neither settled nor released.
pub fn is_abandoned(entries: &[Entry], id: &Id, txn: u32) -> bool
    ensures { result ≡ abandoned entries.now (transaction id.now txn) }
{
    is_below(entries, &id.host, id.run) && !is_ended(entries, id, txn)
}

/// What a request comes to whose transaction isn't open to it: it has another moment or login, or
/// is closed.
pub fn refusal(entries: &[Entry], id: &Id, txn: u32, moment: u64, login: &Login) -> Option<Outcome>
    ensures { MatchOption result (IsOpenTo moment login.now entries.now (transaction id.now txn))
        (λ refused. (a : AnyReply) → reply_of id.now refused
        ≡ if_open entries.now id.now txn moment login.now a) }
{
    if !agrees(entries, id, txn, moment, login) {
        return Some(Outcome::Mismatch);
    }
    if is_closed(entries, id, txn) {
        return Some(Outcome::Closed);
    }
    None
}

/// What the transaction's reserves were granted: what it holds while it is open.
pub fn granted_in(entries: &[Entry], id: &Id, txn: u32) -> u32
    requires { granted_in entries.now (transaction id.now txn) < 2 ^ 32 }
    ensures { result ≡ granted_in entries.now (transaction id.now txn) }
{
    entries
        .iter()
        .map(|entry| if is_of(&entry.request, id, txn) {
            granted(entry)
        } else {
            0
        })
        .sum()
}
