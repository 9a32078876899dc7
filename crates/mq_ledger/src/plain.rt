//! A ledger that keeps the list of its entries.
ghost use Rattle.std.specs.Prelude.{◌≡◌, ℕ, [], ◌∷◌, ◌++◌, true, false, IfOk, OnOk, OnErr, IfErr};
ghost use Rattle.std.specs.Option.{MatchOption};
ghost use Rattle.mq_request.specs.Range.{IsRequest, IsReply, IsAmount};
ghost use Rattle.mq_ledger.specs.Answer.{build, known_by, reply};
ghost use Rattle.mq_ledger.specs.Arrivals.{id_of, first};
ghost use Rattle.mq_ledger.specs.Day.{day_of};
ghost use Rattle.mq_ledger.specs.History.{requests};
ghost use Rattle.mq_ledger.specs.Legal.{IsLegalBook};

mod answer;
mod cap;
mod entries;
mod first_over;
mod listing;
mod standing;
mod totals;

use crate::entry::Entry;
use crate::ledger::{Ledger, LedgerFault};
use crate::plain::entries::{id_of, is_below, stored};
use crate::zone::Zone;
use mq_request::{Reply, Request};
use std::alloc::{AllocError, Global};
use std::marker::Model;

/// A ledger in memory: it keeps its history and looks back over all of it.
#[derive(Drop)]
pub struct PlainLedger {
    alloc: Global,
    zone: Zone,
    default: u32,
    entries: Vec<Entry>,
}

impl Model for PlainLedger {
    ghost use Rattle.mq_ledger.specs.Legal.{Book, IsLegalBook};

    ghost Value = { Book };

    ghost view = { λ ledger. record {
      zone = ledger.zone;
      default = ledger.default;
      history = ledger.entries.items;
    } };

    ghost invariant = { λ ledger. IsLegalBook (record {
      zone = ledger.zone;
      default = ledger.default;
      history = ledger.entries.items;
    }) };
}

impl PlainLedger {
    /// A ledger with no history. The default is the limit of a login that has none for a day:
    /// recipients, 0 to 1,000,000.
    pub fn new(alloc: Global, zone: Zone, default: u32) -> PlainLedger
        requires { IsAmount default }
        ensures book { result ≡ record { zone = zone; default = default; history = [] } }
        ensures sound { IsLegalBook result }
    {
        PlainLedger {
            alloc,
            zone,
            default,
            entries: Vec::new(alloc),
        }
    }
}

/// The reply to a request whose run is below the floor, or whose number is among the entries.
fn known_reply(entries: &[Entry], request: &Request) -> Result<Option<Reply>, AllocError>
    ensures { let known_so = known_by entries.now (id_of request.now) in IfOk result
        (λ known. MatchOption known
        (known_so ≡ false)
        (λ r. (known_so ≡ true)
        × ((day : ℕ → ℕ) (default : ℕ) → r ≡ reply day default entries.now request.now))) }
{
    let Some(id) = id_of(request) else {
        return Ok(None);
    };
    if is_below(entries, &id.host, id.run) {
        return Ok(Some(Reply::Old { id: id.clone()? }));
    }
    match stored(entries, id) {
        None => Ok(None),
        Some(entry) => {
            if request.is_same(&entry.request) {
                Ok(Some(entry.reply.clone()?))
            } else {
                Ok(Some(Reply::Conflict { id: id.clone()? }))
            }
        }
    }
}

/// Puts the request and its reply after the entries.
fn append(entries: &mut Vec<Entry>, request: &Request, reply: &Reply) -> Result<(), AllocError>
    ensures ok { OnOk result (entries.new.items
        ≡ entries.old.items ++ record { request = request.now; reply = reply.now } ∷ []) }
    ensures err { OnErr result (entries.new.items ≡ entries.old.items) }
{
    let entry = Entry {
        request: request.clone()?,
        reply: reply.clone()?,
    };
    entries.push(entry)?;
    Ok(())
}

impl Ledger for PlainLedger {
    ghost book = { λ ledger. ledger };

    ghost has_kept = { λ _. Unit {0} };

    ghost is_sound = { IsLegalBook };

    ghost has_store = { λ _. ⊥ };

    ghost sound_is_kept = { λ _ _. tt };

    ghost sound_is_legal = { λ _ sound. sound };

    fn zone(&self) -> &Zone {
        &self.zone
    }

    fn default_cap(&self) -> u32 {
        self.default
    }

    /// Replies to a request. Its only fault is `Memory`, after which nothing has changed.
    fn apply(&mut self, request: &Request) -> Result<Reply, LedgerFault>
        requires { IsRequest request.now }
        ensures in_range { IfOk result IsReply }
        ensures same_zone { self.new.zone ≡ self.old.zone }
        ensures same_default { self.new.default ≡ self.old.default }
        ensures reply { let b = self.old in
            IfOk result (λ r. r ≡ reply (day_of b.zone) b.default b.history request.now) }
        ensures history { let b = self.old in
            OnOk result (self.new.history
            ≡ build (day_of b.zone) b.default (first (requests b.history ++ request.now ∷ []))) }
        ensures fault { OnErr result (self.new ≡ self.old) }
        ensures memory { IfErr result (λ fault. fault ≡ LedgerFault.Memory) }
        ensures sound { IsLegalBook self.new }
    {
        if let Some(reply) = known_reply(&self.entries, request)? {
            return Ok(reply);
        }
        let reply = self.answer(request)?;
        // A usage and a list have no number, and leave the history alone.
        if id_of(request).is_some() {
            append(&mut self.entries, request, &reply)?;
        }
        Ok(reply)
    }
}
