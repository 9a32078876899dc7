//! What is remembered of a history, put into a new ledger.
ghost use Rattle.std.specs.Prelude.{◌≡◌, ◌∷◌, ◌++◌, List, [], All, OnOk, OnErr};
ghost use Rattle.std.specs.Option.{option_copied};
ghost use Rattle.mq_request.specs.Range.{IsRequest, IsMoment};
ghost use Rattle.mq_ledger.specs.declared.entry.Entry.{Entry as AnyEntry};
ghost use Rattle.mq_ledger.specs.Answer.{history_of};
ghost use Rattle.mq_ledger.specs.Day.{day_of};
ghost use Rattle.mq_ledger.specs.History.{transaction, is_of, named, requests, moment_of};
ghost use Rattle.mq_ledger.specs.Legal.{IsLegal};
ghost use Rattle.mq_forget.specs.Remembered.{day_named, is_about, is_set, stays};
ghost use Rattle.mq_forget.specs.Remembered.{remembered};
ghost use Rattle.mq_forget.specs.Carried.{IsFront};

use crate::laws::next_place_is_carried_over;
use mq_ledger::{Entry, Ledger, LedgerFault, Zone};
use mq_request::{Id, Reply, Request};

/// Whether the request is of the transaction.
fn is_of(request: &Request, id: &Id, txn: u32) -> bool
    ensures { result ≡ is_of (transaction id.now txn) request.now }
{
    match request {
        Request::Reserve {
            id: other,
            txn: number,
            ..
        }
        | Request::Settle {
            id: other,
            txn: number,
            ..
        }
        | Request::Release {
            id: other,
            txn: number,
            ..
        } => id.host == other.host && id.run == other.run && txn == *number,
        _ => false,
    }
}

/// The first entry of the transaction.
fn named<'a>(history: &'a [Entry], id: &Id, txn: u32) -> Option<&'a Entry>
    ensures { option_copied result ≡ named history.now (transaction id.now txn) }
{
    history.iter().find(|entry| is_of(&entry.request, id, txn))
}

/// The moment of a reserve, settle or release.
fn moment_of(request: &Request) -> u64
    ensures { result ≡ moment_of request.now }
{
    match request {
        Request::Reserve { moment, .. }
        | Request::Settle { moment, .. }
        | Request::Release { moment, .. } => *moment,
        Request::Limit { .. }
        | Request::Usage { .. }
        | Request::List { .. }
        | Request::Retire { .. } => 0,
    }
}

/// The day of the transaction, or of the moment where no entry names it.
fn day_named(history: &[Entry], zone: &Zone, id: &Id, txn: u32, moment: u64) -> u32
    requires range { All (λ e. IsRequest e.request) history.now }
    requires moment { IsMoment moment }
    ensures { result ≡ day_named (day_of zone.now) moment
        (named history.now (transaction id.now txn)) }
{
    match named(history, id, txn) {
        None => zone.day_at(moment),
        Some(entry) => zone.day_at(moment_of(&entry.request)),
    }
}

/// Whether the request is about that day or a later one.
fn is_about(history: &[Entry], zone: &Zone, day: u32, request: &Request) -> bool
    requires range { All (λ e. IsRequest e.request) history.now }
    requires request { IsRequest request.now }
    ensures { result ≡ is_about (day_of zone.now) day history.now request.now }
{
    match request {
        Request::Reserve {
            id,
            txn,
            moment,
            ..
        }
        | Request::Settle {
            id,
            txn,
            moment,
            ..
        }
        | Request::Release {
            id,
            txn,
            moment,
            ..
        } => day <= day_named(history, zone, id, *txn, *moment),
        Request::Limit { from_day, .. } => day <= *from_day,
        Request::Usage { day: asked, .. } | Request::List { day: asked, .. } => day <= *asked,
        Request::Retire { .. } => true,
    }
}

/// Whether it is a limit that was set.
fn is_set(entry: &Entry) -> bool
    ensures { result ≡ is_set entry.now.request entry.now.reply }
{
    match (&entry.request, &entry.reply) {
        (Request::Limit { .. }, Reply::LimitSet { .. }) => true,
        _ => false,
    }
}

/// Whether the entry of the history stays.
fn stays(history: &[Entry], zone: &Zone, day: u32, entry: &Entry) -> bool
    requires range { All (λ e. IsRequest e.request) history.now }
    requires request { IsRequest entry.now.request }
    ensures { result ≡ stays (day_of zone.now) day history.now entry.now }
{
    is_about(history, zone, day, &entry.request) || is_set(entry)
}

/// Has the ledger apply the request, whatever the reply.
fn ask<L: Ledger>(ledger: &mut L, request: &Request) -> Result<(), LedgerFault>
    requires { IsRequest request.now }
    ensures same_zone { (L.book ledger.new).zone ≡ (L.book ledger.old).zone }
    ensures same_default { (L.book ledger.new).default ≡ (L.book ledger.old).default }
    ensures kept { L.has_kept ledger.new → L.has_kept ledger.old }
    ensures history { L.has_kept ledger.new → L.is_sound ledger.old → (let b = L.book ledger.old in
        OnOk result ((L.book ledger.new).history
        ≡ history_of (day_of b.zone) b.default (requests b.history ++ request.now ∷ []))) }
    ensures fault { L.has_kept ledger.new → L.is_sound ledger.old →
        OnErr result ((L.book ledger.new).history ≡ (L.book ledger.old).history) }
    ensures sound { L.has_kept ledger.new → L.is_sound ledger.old → L.is_sound ledger.new }
{
    // (by `remembered_is_legal` it is the reply that the entry has; nobody waits for it)
    let _reply = ledger.apply(request)?;
    Ok(())
}

/// Has a new ledger apply what is remembered of a legal history from that day on, oldest first. The
/// history is one of the ledger's zone and default, and `day` a day number since 1970-01-01.
///
/// After a fault the ledger has what is remembered of a prefix of it.
///
/// Each entry of a transaction costs a search for the transaction's first.
pub fn carry_over<L: Ledger>(history: &[Entry], day: u32, ledger: &mut L) -> Result<(), LedgerFault>
    requires { IsLegal (day_of (L.book ledger.old).zone) (L.book ledger.old).default history.now }
    ensures same_zone { (L.book ledger.new).zone ≡ (L.book ledger.old).zone }
    ensures same_default { (L.book ledger.new).default ≡ (L.book ledger.old).default }
    ensures kept { L.has_kept ledger.new → L.has_kept ledger.old }
    ensures sound { L.has_kept ledger.new → L.is_sound ledger.old → L.is_sound ledger.new }
    ensures ok { L.has_kept ledger.new → L.is_sound ledger.old → (L.book ledger.old).history ≡ [] →
        OnOk result ((L.book ledger.new).history
        ≡ remembered (day_of (L.book ledger.old).zone) day history.now) }
    ensures err { L.has_kept ledger.new → L.is_sound ledger.old → (L.book ledger.old).history ≡ [] →
        OnErr result ((front : List AnyEntry) × IsFront front history.now
        × ((L.book ledger.new).history ≡ remembered (day_of (L.book ledger.old).zone) day front)) }
{
    // One entry more of the history, and what the ledger then has.
    next_place_is_carried_over();
    let zone = *ledger.zone();
    for entry in history {
        if stays(history, &zone, day, entry) {
            ask(ledger, &entry.request)?;
        }
    }
    Ok(())
}
