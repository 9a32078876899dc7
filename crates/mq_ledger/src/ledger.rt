//! What every ledger keeps to.
ghost use Rattle.std.specs.Prelude.{◌≡◌, [], ◌∷◌, ◌++◌, All, None, Err, ⊤, IfOk, OnOk, OnErr};
ghost use Rattle.mq_request.specs.Range.{IsRequest, IsReply};
ghost use Rattle.mq_ledger.specs.Answer.{build, history_of, replies_after, reply};
ghost use Rattle.mq_ledger.specs.Arrivals.{first};
ghost use Rattle.mq_ledger.specs.Day.{day_of};
ghost use Rattle.mq_ledger.specs.History.{requests};
ghost use Rattle.mq_ledger.specs.Legal.{Book, IsLegalBook};

use crate::zone::Zone;
use mq_request::{Reply, Request};
use std::alloc::AllocError;
use thiserror::Error;

/// Why a ledger couldn't take a request.
#[derive(Clone, Copy, Debug, PartialEq, Eq, Error)]
pub enum LedgerFault {
    /// A growth was refused.
    #[error("out of memory")]
    Memory,
    /// The store failed at this request.
    #[error("store failed")]
    Store,
}

impl From<AllocError> for LedgerFault {
    ghost use Rattle.mq_ledger.specs.declared.ledger.LedgerFault.TheVariants.{Memory};

    ghost from_gives = { λ _ fault. fault ≡ Memory };

    fn from(_error: AllocError) -> LedgerFault {
        LedgerFault::Memory
    }
}

/// One call of `apply`, as a ledger reports it: what was asked, and how it was answered.
#[derive(Debug, Drop)]
pub struct ReportedCall {
    pub request: Request,
    pub answer: Result<Reply, LedgerFault>,
}

/// A ledger, by the list of the numbered requests that it applied, each with its reply, oldest
/// first.
///
/// A ledger is sound while its store has kept its premise and its history is a legal one, with its
/// zone and its default. What is promised of a reply is promised of a sound ledger whose store has
/// still kept its premise as the call returns.
pub trait Ledger {
    ghost use Rattle.std.specs.Prelude.{◌∷◌, [], List, Option, None};
    ghost use Rattle.mq_lemmas.specs.Told.{Tells};
    ghost use Rattle.mq_ledger.specs.declared.ledger.ReportedCall.{ReportedCall};

    // The calls of `apply` so far, the oldest first, where the ledger reports them.
    ghost told: { Self → Option (List ReportedCall) } = { λ _. None };

    /// Its zone, its default limit and its history.
    ghost book: { Self → Book };

    /// Its store has kept its premise so far: nobody else wrote it, and it gave back what was
    /// written.
    ghost has_kept: { Self → Type 0 };

    /// It has kept it, and its history is legal.
    ghost is_sound: { Self → Type 0 };

    /// It has a store, which may fail.
    ghost has_store: { Self → Type 0 } = { λ _. ⊤ };

    /// What its days go by.
    fn zone(&self) -> &Zone
        ensures { result.now ≡ (book self.now).zone };

    /// The limit of a login that has none for a day: recipients, 0 to 1,000,000.
    fn default_cap(&self) -> u32
        ensures { result ≡ (book self.now).default };

    /// Replies to a request.
    ///
    /// A number that comes again gets its stored reply, or `Conflict` where the request differs; so
    /// a request may be sent until its reply comes. Once its run is retired it gets `Old`, and the
    /// history stays as it is.
    fn apply(&mut self, request: &Request) -> Result<Reply, LedgerFault>
        requires { IsRequest request.now }

        // Of any ledger, sound or not.
        ensures told { Tells (told self.old) (told self.new)
            (record { request = request.now; answer = result } ∷ []) }
        ensures in_range { IfOk result IsReply }
        ensures same_zone { (book self.new).zone ≡ (book self.old).zone }
        ensures same_default { (book self.new).default ≡ (book self.old).default }
        ensures kept { has_kept self.new → has_kept self.old }

        // A ledger without a store has none later, and never answers `Store`.
        ensures no_store { has_store self.new → has_store self.old }
        ensures store { result ≡ Err LedgerFault.Store → has_store self.old }

        // Of a sound one that has kept its premise.
        ensures reply { has_kept self.new → is_sound self.old → (let b = book self.old in
            IfOk result (λ r. r ≡ reply (day_of b.zone) b.default b.history request.now)) }
        ensures history { has_kept self.new → is_sound self.old → (let b = book self.old in
            OnOk result ((book self.new).history
            ≡ build (day_of b.zone) b.default (first (requests b.history ++ request.now ∷ [])))) }
        ensures fault { has_kept self.new → is_sound self.old →
            OnErr result ((book self.new).history ≡ (book self.old).history) }
        ensures sound { has_kept self.new → is_sound self.old → is_sound self.new };

    /// Replies to several requests, to each as `apply` does after those before it: to all of them,
    /// or to none. `replies` has these replies alone, in the order of the requests. After a fault
    /// it may have any, the history is as it was, and each request may be put by `apply`.
    ///
    /// A ledger that takes each by itself alone, since it gains nothing by more or reports each
    /// call, answers `Memory`, as one that has none for them together.
    fn apply_all(
        &mut self,
        arrivals: &[Request],
        replies: &mut Vec<Reply>,
    ) -> Result<(), LedgerFault>
        requires { All IsRequest arrivals.now }

        // Of any ledger, sound or not.
        ensures told { OnErr result (Tells (told self.old) (told self.new) []) }
        ensures untold { OnOk result (told self.new ≡ None) }
        ensures in_range { OnOk result (All IsReply replies.new.items) }
        ensures same_zone { (book self.new).zone ≡ (book self.old).zone }
        ensures same_default { (book self.new).default ≡ (book self.old).default }
        ensures kept { has_kept self.new → has_kept self.old }
        ensures no_store { has_store self.new → has_store self.old }
        ensures store { result ≡ Err LedgerFault.Store → has_store self.old }

        // Of a sound one that has kept its premise.
        ensures replies { has_kept self.new → is_sound self.old → (let b = book self.old in
            OnOk result (replies.new.items
            ≡ replies_after (day_of b.zone) b.default (requests b.history) arrivals.now)) }
        ensures history { has_kept self.new → is_sound self.old → (let b = book self.old in
            OnOk result ((book self.new).history
            ≡ history_of (day_of b.zone) b.default (requests b.history ++ arrivals.now))) }
        ensures fault { has_kept self.new → is_sound self.old →
            OnErr result ((book self.new).history ≡ (book self.old).history) }
        ensures sound { has_kept self.new → is_sound self.old → is_sound self.new }
    {
        let _ = arrivals;
        let _ = replies;
        Err(LedgerFault::Memory)
    }

    /// A sound ledger has kept its premise.
    ghost sound_is_kept: { (s : Self) → is_sound s → has_kept s };

    /// The history of a sound ledger is legal.
    ghost sound_is_legal: { (s : Self) → is_sound s → IsLegalBook (book s) };
}
