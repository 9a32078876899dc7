//! A ledger as one peer asks it.
ghost use Rattle.std.specs.Prelude.{◌≡◌, [], ◌∷◌, ◌++◌, Err, IfOk, IsTrue, OnErr, OnOk};
ghost use Rattle.mq_lemmas.specs.Told.{Tells};
ghost use Rattle.mq_request.specs.Range.{IsReply, IsRequest};
ghost use Rattle.mq_ledger.specs.Answer.{build, reply};
ghost use Rattle.mq_ledger.specs.Arrivals.{first};
ghost use Rattle.mq_ledger.specs.Day.{day_of};
ghost use Rattle.mq_ledger.specs.History.{requests};
ghost use Rattle.mq_permits.specs.Permits.{may_ask};

use mq_ledger::{Ledger, LedgerFault, Zone};
use mq_permits::{Peer, Permits};
use mq_request::{Reply, Request};
use mq_watch::Hear;
use std::marker::{Brand, PhantomData};

/// A ledger that is lent for the requests of one peer.
#[derive(Drop)]
pub struct Lent<'l, 'p, L> {
    pub ledger: &'l mut L,
    pub permits: Option<&'p Permits>,
    pub peer: Peer,
}

impl<L: Hear> Lent<'_, '_, L> {
    /// What its days go by.
    fn zone(&self) -> &Zone
        ensures { result.now ≡ (L.book self.now.ledger.now).zone }
    {
        self.ledger.zone()
    }

    /// The limit of a login that has none for a day.
    fn default_cap(&self) -> u32
        ensures { result ≡ (L.book self.now.ledger.now).default }
    {
        self.ledger.default_cap()
    }

    /// Replies to a request of the peer. It is the same ledger still, for the same peer.
    fn apply(&mut self, request: &Request) -> Result<Reply, LedgerFault>
        requires { IsRequest request.now }
        ensures reference { self.new.ledger.ghost_name ≡ self.old.ledger.ghost_name }
        ensures permits { self.new.permits ≡ self.old.permits }
        ensures peer { self.new.peer ≡ self.old.peer }
        ensures allowed { OnOk result (IsTrue (may_ask self.old.permits self.old.peer request.now)) }

        // As `Ledger` says of `apply`.
        ensures told { Tells (L.told self.old.ledger.now) (L.told self.new.ledger.now)
            (record { request = request.now; answer = result } ∷ []) }
        ensures in_range { IfOk result IsReply }
        ensures same_zone { (L.book self.new.ledger.now).zone ≡ (L.book self.old.ledger.now).zone }
        ensures same_default { (L.book self.new.ledger.now).default
            ≡ (L.book self.old.ledger.now).default }
        ensures kept { L.has_kept self.new.ledger.now → L.has_kept self.old.ledger.now }
        ensures no_store { L.has_store self.new.ledger.now → L.has_store self.old.ledger.now }
        ensures store { result ≡ Err LedgerFault.Store → L.has_store self.old.ledger.now }
        ensures reply { L.has_kept self.new.ledger.now → L.is_sound self.old.ledger.now
            → (let b = L.book self.old.ledger.now in
            IfOk result (λ r. r ≡ reply (day_of b.zone) b.default b.history request.now)) }
        ensures history { L.has_kept self.new.ledger.now → L.is_sound self.old.ledger.now
            → (let b = L.book self.old.ledger.now in
            OnOk result ((L.book self.new.ledger.now).history
            ≡ build (day_of b.zone) b.default (first (requests b.history ++ request.now ∷ [])))) }
        ensures fault { L.has_kept self.new.ledger.now → L.is_sound self.old.ledger.now →
            OnErr result ((L.book self.new.ledger.now).history
            ≡ (L.book self.old.ledger.now).history) }
        ensures sound { L.has_kept self.new.ledger.now → L.is_sound self.old.ledger.now
            → L.is_sound self.new.ledger.now }
    {
        let peer = self.peer;
        let permits = self.permits;
        self.ledger.apply_of(permits, peer, request)
    }
}

/// What is known as a ledger is lent: through which reference, what its peer may ask, and what
/// stands in it.
pub trait Lending {
    ghost use Rattle.std.specs.Prelude.{ℕ, List, Bool};
    ghost use Rattle.mq_request.specs.declared.message.Request.{Request};
    ghost use Rattle.mq_ledger.specs.declared.entry.Entry.{Entry};

    ghost reference: { ℕ };

    ghost may: { Request → Bool };

    ghost start: { List Entry };
}

// (each lending picks its own)
impl Lending for Brand {
    ghost use Rattle.std.specs.Prelude.{[], true};

    ghost reference = { 0 };

    ghost may = { λ _. true };

    ghost start = { [] };
}

/// A ledger that one peer asks. While it is sound it has gained nothing but what that peer may ask.
#[derive(Drop)]
pub struct PeerLedger<'l, 'p, L: Hear, K: Lending> {
    pub lent: Lent<'l, 'p, L>,
    pub of: PhantomData<K>,
    ghost same: { lent.ledger.ghost_name ≡ K.reference },
}

impl<L: Hear, K: Lending> Ledger for PeerLedger<'_, '_, L, K> {
    ghost use Rattle.std.specs.Prelude.{◌≡◌, IsTrue};
    ghost use Rattle.mq_request.specs.declared.message.Request.{Request};
    ghost use Rattle.mq_permits.specs.Permits.{may_ask};
    ghost use Rattle.mq_connections.specs.Gained.{Gains};

    ghost told = { λ asked. L.told asked.lent.ledger.now };

    ghost book = { λ asked. L.book asked.lent.ledger.now };

    ghost has_kept = { λ asked. L.has_kept asked.lent.ledger.now };

    ghost is_sound = { λ asked. L.is_sound asked.lent.ledger.now
        × ((request : Request) → may_ask asked.lent.permits asked.lent.peer request ≡ K.may request)
        × Gains (λ request. IsTrue (K.may request)) K.start (L.book asked.lent.ledger.now).history };

    ghost has_store = { λ asked. L.has_store asked.lent.ledger.now };

    ghost sound_is_kept = { λ asked sound. L.sound_is_kept asked.lent.ledger.now sound.0 };

    ghost sound_is_legal = { λ asked sound. L.sound_is_legal asked.lent.ledger.now sound.0 };

    fn zone(&self) -> &Zone {
        self.lent.zone()
    }

    fn default_cap(&self) -> u32 {
        self.lent.default_cap()
    }

    fn apply(&mut self, request: &Request) -> Result<Reply, LedgerFault> {
        self.lent.apply(request)
    }
}
