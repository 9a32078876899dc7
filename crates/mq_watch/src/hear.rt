//! A ledger that is told whose requests come.
ghost use Rattle.std.specs.Prelude.{◌≡◌, [], ◌∷◌, ◌++◌, All, None, Err, IfOk, IsTrue, OnErr, OnOk};
ghost use Rattle.mq_lemmas.specs.Told.{Tells};
ghost use Rattle.mq_request.specs.Range.{IsReply, IsRequest};
ghost use Rattle.mq_ledger.specs.Answer.{build, history_of, replies_after, reply};
ghost use Rattle.mq_ledger.specs.Arrivals.{first};
ghost use Rattle.mq_ledger.specs.Day.{day_of};
ghost use Rattle.mq_ledger.specs.History.{requests};
ghost use Rattle.mq_permits.specs.Permits.{may_ask};
ghost use Rattle.mq_watch.specs.Allowed.{may_each_ask};

use mq_ledger::{Ledger, LedgerFault};
use mq_permits::{Peer, Permits};
use mq_request::{Reply, Request};

/// A ledger that is told whose requests come, and takes those alone that they may ask.
pub trait Hear: Ledger {
    /// Replies to a request of this peer as [`Ledger::apply`] does. What the permits don't allow the
    /// peer isn't taken.
    fn apply_of(
        &mut self,
        permits: Option<&Permits>,
        peer: Peer,
        request: &Request,
    ) -> Result<Reply, LedgerFault>
        requires { IsRequest request.now }
        ensures allowed { OnOk result (IsTrue (may_ask permits.entry peer request.now)) }

        // As `Ledger` says of `apply`.
        ensures told { Tells (Self.told self.old) (Self.told self.new)
            (record { request = request.now; answer = result } ∷ []) }
        ensures in_range { IfOk result IsReply }
        ensures same_zone { (Self.book self.new).zone ≡ (Self.book self.old).zone }
        ensures same_default { (Self.book self.new).default ≡ (Self.book self.old).default }
        ensures kept { Self.has_kept self.new → Self.has_kept self.old }
        ensures no_store { Self.has_store self.new → Self.has_store self.old }
        ensures store { result ≡ Err LedgerFault.Store → Self.has_store self.old }
        ensures reply { Self.has_kept self.new → Self.is_sound self.old → (let b = Self.book self.old in
            IfOk result (λ r. r ≡ reply (day_of b.zone) b.default b.history request.now)) }
        ensures history { Self.has_kept self.new → Self.is_sound self.old
            → (let b = Self.book self.old in
            OnOk result ((Self.book self.new).history
            ≡ build (day_of b.zone) b.default (first (requests b.history ++ request.now ∷ [])))) }
        ensures fault { Self.has_kept self.new → Self.is_sound self.old →
            OnErr result ((Self.book self.new).history ≡ (Self.book self.old).history) }
        ensures sound { Self.has_kept self.new → Self.is_sound self.old → Self.is_sound self.new };

    /// Replies to several requests, each of the peer at its place, as [`Ledger::apply_all`] does:
    /// to all of them, or to none, as where the permits don't allow one of them to its peer.
    fn apply_all_of(
        &mut self,
        permits: Option<&Permits>,
        peers: Vec<Peer>,
        arrivals: &[Request],
        replies: &mut Vec<Reply>,
    ) -> Result<(), LedgerFault>
        requires { All IsRequest arrivals.now }
        ensures allowed { OnOk result (IsTrue (may_each_ask permits.entry peers.items arrivals.now)) }

        // As `Ledger` says of `apply_all`.
        ensures told { OnErr result (Tells (Self.told self.old) (Self.told self.new) []) }
        ensures untold { OnOk result (Self.told self.new ≡ None) }
        ensures in_range { OnOk result (All IsReply replies.new.items) }
        ensures same_zone { (Self.book self.new).zone ≡ (Self.book self.old).zone }
        ensures same_default { (Self.book self.new).default ≡ (Self.book self.old).default }
        ensures kept { Self.has_kept self.new → Self.has_kept self.old }
        ensures no_store { Self.has_store self.new → Self.has_store self.old }
        ensures store { result ≡ Err LedgerFault.Store → Self.has_store self.old }
        ensures replies { Self.has_kept self.new → Self.is_sound self.old
            → (let b = Self.book self.old in
            OnOk result (replies.new.items
            ≡ replies_after (day_of b.zone) b.default (requests b.history) arrivals.now)) }
        ensures history { Self.has_kept self.new → Self.is_sound self.old
            → (let b = Self.book self.old in
            OnOk result ((Self.book self.new).history
            ≡ history_of (day_of b.zone) b.default (requests b.history ++ arrivals.now))) }
        ensures fault { Self.has_kept self.new → Self.is_sound self.old →
            OnErr result ((Self.book self.new).history ≡ (Self.book self.old).history) }
        ensures sound { Self.has_kept self.new → Self.is_sound self.old → Self.is_sound self.new };
}
