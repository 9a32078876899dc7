//! A ledger, which requests are put to it, and what is to be seen of them.
ghost use Rattle.std.specs.Prelude.{◌≡◌, [], ◌∷◌, ◌++◌, All, IfOk, IfErr, IfNone, IfSome, OnErr, OnOk};
ghost use Rattle.std.specs.Prelude.{Err, IsTrue, false};
ghost use Rattle.mq_request.specs.Range.{IsReply, IsRequest};
ghost use Rattle.mq_ledger.specs.Answer.{build, history_of, replies_after, reply};
ghost use Rattle.mq_ledger.specs.Arrivals.{first};
ghost use Rattle.mq_ledger.specs.Day.{day_of};
ghost use Rattle.mq_ledger.specs.History.{requests};
ghost use Rattle.mq_permits.specs.Permits.{may_ask};
ghost use Rattle.mq_watch.specs.Ahead.{IsAhead, MayBePutWithOthers};
ghost use Rattle.mq_watch.specs.Allowed.{may_each_ask};
ghost use Rattle.mq_watch.specs.Asked.{FailsAtQuestion, IsAsked, IsCapBefore, IsPut, LacksCap};
ghost use Rattle.mq_watch.specs.Notices.{answered};
ghost use Rattle.mq_watch.specs.Hours.{seconds_at};
ghost use Rattle.mq_watch.specs.Seen.{Sees, SeesAhead, SeesForbidden, SeesPut, TellsFrom, TellsUse};
ghost use Rattle.mq_watch.specs.Today.{millis_in};
ghost use Rattle.mq_watch.specs.Unanswered.{answer_of, IsFault};

use crate::ahead::{is_ahead, may_be_put_together};
use crate::allowed::may_each_ask;
use crate::asking::{ask_usage, cap_of};
use crate::calendar::ServerTime;
use crate::clock::seconds_of;
use crate::notes::{Notes, see_ahead_day, see_forbidden, see_granted, see_limit, see_run};
use crate::notice::{Notice, RequestNotices, verdict_of};
use crate::unanswered::Unanswered;
use mq_ledger::{Ledger, LedgerFault};
use mq_permits::{Peer, Permits, may_ask};
use mq_request::{Reply, Request};

/// A ledger, whose request came last, and what was noted of those that came.
#[derive(Drop)]
pub struct Watch<L> {
    pub ledger: L,
    pub peer: Peer,
    /// From whom the requests came that were put together last, in their order.
    pub peers: Vec<Peer>,
    pub notes: Notes,
}

/// What a request is answered, and what is to be logged of it.
#[derive(Drop)]
pub struct NoticedRequest<'r> {
    pub answer: Result<Reply, Unanswered>,
    pub seen: RequestNotices<'r>,
}

/// What a ledger answered a request that was put to it, and what is to be logged of it.
#[derive(Drop)]
pub struct NoticedAnswer<'r> {
    pub answer: Result<Reply, LedgerFault>,
    pub seen: RequestNotices<'r>,
}

impl<'r> NoticedAnswer<'r> {
    /// The same of a request, which the ledger answered.
    fn of_request(self) -> NoticedRequest<'r>
        ensures answer { answer_of result.answer ≡ self.entry.answer }
        ensures fault { IfErr result.answer IsFault }
        ensures seen { result.seen ≡ self.entry.seen }
    {
        let NoticedAnswer { answer, seen } = self;
        NoticedRequest {
            answer: match answer {
                Ok(reply) => Ok(reply),
                Err(fault) => Err(Unanswered::Fault(fault)),
            },
            seen,
        }
    }
}

impl<L: Ledger> Watch<L> {
    /// Puts a request of this peer to the ledger at this time of the server's clock, but one that
    /// its peer may not ask, and one that is ahead of it.
    pub fn take<'r>(
        &mut self,
        permits: Option<&Permits>,
        peer: Peer,
        request: &'r Request,
        now: Option<ServerTime>,
    ) -> NoticedRequest<'r>
        requires { IsRequest request.now }
        ensures forbidden { may_ask permits.entry peer request.now ≡ false →
            (result.answer ≡ Err Unanswered.Forbidden)
            × (self.new.ledger ≡ self.old.ledger)
            × SeesForbidden peer (seconds_at (millis_in now)) self.old.notes.strangers
            self.new.notes.strangers result.seen request.now
            × (self.new.notes ≡ record self.old.notes { strangers = self.new.notes.strangers }) }
        ensures ahead { IsTrue (may_ask permits.entry peer request.now) →
            IsAhead (day_of (L.book self.old.ledger).zone) request.now now →
            (result.answer ≡ Err Unanswered.Ahead)
            × (self.new.ledger ≡ self.old.ledger)
            × SeesAhead (day_of (L.book self.old.ledger).zone) peer.address now
            self.old.notes self.new.notes result.seen request.now }
        ensures put { IsTrue (may_ask permits.entry peer request.now) →
            (IsAhead (day_of (L.book self.old.ledger).zone) request.now now → ⊥) →
            IsPut request.now (answer_of result.answer) (L.told self.old.ledger)
            (L.told self.new.ledger)
            × IfErr result.answer IsFault }
        ensures peer { self.new.peer ≡ peer }
        ensures peers { self.new.peers ≡ self.old.peers }
        ensures seen { IsTrue (may_ask permits.entry peer request.now) →
            (IsAhead (day_of (L.book self.old.ledger).zone) request.now now → ⊥) →
            SeesPut (day_of (L.book self.old.ledger).zone) peer.address
            (answer_of result.answer) (millis_in now)
            (L.told self.new.ledger)
            self.old.notes self.new.notes result.seen request.now }
        ensures usage { L.has_kept self.new.ledger → L.is_sound self.old.ledger
            → TellsUse (L.book self.new.ledger) request.now result.seen.main }

        // As `Ledger` says of `apply`.
        ensures in_range { IfOk (answer_of result.answer) IsReply }
        ensures same_zone { (L.book self.new.ledger).zone ≡ (L.book self.old.ledger).zone }
        ensures same_default { (L.book self.new.ledger).default ≡ (L.book self.old.ledger).default }
        ensures kept { L.has_kept self.new.ledger → L.has_kept self.old.ledger }
        ensures no_store { L.has_store self.new.ledger → L.has_store self.old.ledger }
        ensures store { answer_of result.answer ≡ Err LedgerFault.Store
            → L.has_store self.old.ledger }
        ensures reply { L.has_kept self.new.ledger → L.is_sound self.old.ledger
            → (let b = L.book self.old.ledger in
            IfOk (answer_of result.answer) (λ r. r
            ≡ reply (day_of b.zone) b.default b.history request.now)) }
        ensures history { L.has_kept self.new.ledger → L.is_sound self.old.ledger
            → (let b = L.book self.old.ledger in
            OnOk (answer_of result.answer) ((L.book self.new.ledger).history
            ≡ build (day_of b.zone) b.default (first (requests b.history ++ request.now ∷ [])))) }
        ensures fault { L.has_kept self.new.ledger → L.is_sound self.old.ledger →
            OnErr (answer_of result.answer) ((L.book self.new.ledger).history
            ≡ (L.book self.old.ledger).history) }
        ensures sound { L.has_kept self.new.ledger → L.is_sound self.old.ledger
            → L.is_sound self.new.ledger }
    {
        self.peer = peer;
        if !may_ask(permits, &peer, request) {
            let seconds = seconds_of(ServerTime::millis_in(now));
            return NoticedRequest {
                answer: Err(Unanswered::Forbidden),
                seen: see_forbidden(&mut self.notes.strangers, &peer, request, seconds),
            };
        }
        if is_ahead(request, self.ledger.zone(), now) {
            return NoticedRequest {
                answer: Err(Unanswered::Ahead),
                seen: self.see_ahead(request, now),
            };
        }
        self.put(request, ServerTime::millis_in(now)).of_request()
    }

    /// Puts requests to the ledger together, in their order, each of the peer at its
    /// place. Where one of them may not be asked by its peer, or has to be put by itself, none is put.
    pub fn put_all(
        &mut self,
        permits: Option<&Permits>,
        peers: Vec<Peer>,
        arrivals: &[Request],
        replies: &mut Vec<Reply>,
        now: Option<ServerTime>,
    ) -> Result<(), LedgerFault>
        requires { All IsRequest arrivals.now }
        ensures allowed { OnOk result (IsTrue (may_each_ask permits.entry peers.items
            arrivals.now)) }
        ensures together { OnOk result
            (All (MayBePutWithOthers (day_of (L.book self.old.ledger).zone) now) arrivals.now) }
        ensures peers { OnOk result (self.new.peers ≡ peers) }

        // As `Ledger` says of `apply_all`.
        ensures in_range { OnOk result (All IsReply replies.new.items) }
        ensures same_zone { (L.book self.new.ledger).zone ≡ (L.book self.old.ledger).zone }
        ensures same_default { (L.book self.new.ledger).default ≡ (L.book self.old.ledger).default }
        ensures kept { L.has_kept self.new.ledger → L.has_kept self.old.ledger }
        ensures no_store { L.has_store self.new.ledger → L.has_store self.old.ledger }
        ensures store { result ≡ Err LedgerFault.Store → L.has_store self.old.ledger }
        ensures replies { L.has_kept self.new.ledger → L.is_sound self.old.ledger
            → (let b = L.book self.old.ledger in
            OnOk result (replies.new.items
            ≡ replies_after (day_of b.zone) b.default (requests b.history) arrivals.now)) }
        ensures history { L.has_kept self.new.ledger → L.is_sound self.old.ledger
            → (let b = L.book self.old.ledger in
            OnOk result ((L.book self.new.ledger).history
            ≡ history_of (day_of b.zone) b.default (requests b.history ++ arrivals.now))) }
        ensures fault { L.has_kept self.new.ledger → L.is_sound self.old.ledger →
            OnErr result ((L.book self.new.ledger).history ≡ (L.book self.old.ledger).history) }
        ensures sound { L.has_kept self.new.ledger → L.is_sound self.old.ledger
            → L.is_sound self.new.ledger }
    {
        if !may_each_ask(permits, peers.as_slice(), arrivals)
            || !may_be_put_together(arrivals, self.ledger.zone(), now)
        {
            return Err(LedgerFault::Memory);
        }
        self.peers = peers;
        self.ledger.apply_all(arrivals, replies)
    }

    /// What is to be seen of a request that is ahead, and isn't put to the ledger.
    fn see_ahead<'r>(&mut self, request: &'r Request, now: Option<ServerTime>) -> RequestNotices<'r>
        requires { IsRequest request.now }
        ensures ledger { self.new.ledger ≡ self.old.ledger }
        ensures peer { self.new.peer ≡ self.old.peer }
        ensures seen { IsAhead (day_of (L.book self.old.ledger).zone) request.now now →
            SeesAhead (day_of (L.book self.old.ledger).zone) self.old.peer.address now
            self.old.notes self.new.notes result request.now }
        ensures peers { self.new.peers ≡ self.old.peers }
    {
        let nothing = RequestNotices::nothing(self.peer.address);
        match (request, now) {
            (Request::Retire { id }, Some(now)) => RequestNotices {
                main: Some(Notice::Ahead {
                    id,
                    now: now.millis,
                }),
                ..nothing
            },
            (Request::Reserve { id, moment, .. }, Some(now)) => {
                let day = self.ledger.zone().day_at(*moment);
                RequestNotices {
                    day: see_ahead_day(&mut self.notes.hosts, &id.host, day, now),
                    ..nothing
                }
            }
            _ => nothing,
        }
    }

    /// Puts a request to the ledger, and says what is to be seen of it. Where a question before it
    /// finds a failed store, that is the answer.
    fn put<'r>(&mut self, request: &'r Request, now: Option<u64>) -> NoticedAnswer<'r>
        requires { IsRequest request.now }
        ensures put { IsPut request.now result.answer (L.told self.old.ledger)
            (L.told self.new.ledger) }
        ensures peer { self.new.peer ≡ self.old.peer }
        ensures peers { self.new.peers ≡ self.old.peers }
        ensures seen { SeesPut (day_of (L.book self.old.ledger).zone) self.old.peer.address
            result.answer now (L.told self.new.ledger)
            self.old.notes self.new.notes result.seen request.now }
        ensures usage { L.has_kept self.new.ledger → L.is_sound self.old.ledger
            → TellsUse (L.book self.new.ledger) request.now result.seen.main }

        // As `Ledger` says of `apply`.
        ensures in_range { IfOk result.answer IsReply }
        ensures same_zone { (L.book self.new.ledger).zone ≡ (L.book self.old.ledger).zone }
        ensures same_default { (L.book self.new.ledger).default ≡ (L.book self.old.ledger).default }
        ensures kept { L.has_kept self.new.ledger → L.has_kept self.old.ledger }
        ensures no_store { L.has_store self.new.ledger → L.has_store self.old.ledger }
        ensures store { result.answer ≡ Err LedgerFault.Store → L.has_store self.old.ledger }
        ensures reply { L.has_kept self.new.ledger → L.is_sound self.old.ledger
            → (let b = L.book self.old.ledger in
            IfOk result.answer (λ r. r ≡ reply (day_of b.zone) b.default b.history request.now)) }
        ensures history { L.has_kept self.new.ledger → L.is_sound self.old.ledger
            → (let b = L.book self.old.ledger in
            OnOk result.answer ((L.book self.new.ledger).history
            ≡ build (day_of b.zone) b.default (first (requests b.history ++ request.now ∷ [])))) }
        ensures fault { L.has_kept self.new.ledger → L.is_sound self.old.ledger →
            OnErr result.answer ((L.book self.new.ledger).history
            ≡ (L.book self.old.ledger).history) }
        ensures sound { L.has_kept self.new.ledger → L.is_sound self.old.ledger
            → L.is_sound self.new.ledger }
    {
        let before = self.cap_before(request);
        let answer = match before {
            Ok(_) => self.ledger.apply(request),
            Err(fault) => Err(fault),
        };
        let seen = self.look(request, before, lent(&answer), now);
        NoticedAnswer { answer, seen }
    }

    /// The cap of the login and day from which a limit is asked for, before that is set. Of other
    /// requests there is none. The fault is that of a store that failed.
    fn cap_before(&mut self, request: &Request) -> Result<Option<u32>, LedgerFault>
        requires { IsRequest request.now }
        ensures peer { self.new.peer ≡ self.old.peer }
        ensures peers { self.new.peers ≡ self.old.peers }
        ensures notes { self.new.notes ≡ self.old.notes }
        ensures asked { IsAsked L.told L.book L.has_kept L.is_sound L.has_store self.old.ledger
            self.new.ledger }
        ensures cap { L.has_kept self.new.ledger → L.is_sound self.old.ledger
            → (let b = L.book self.old.ledger in
            IfOk result (λ before. IfSome before (λ n. IsCapBefore b.default b.history request.now
            n))) }
        ensures none { L.has_kept self.new.ledger → L.is_sound self.old.ledger
            → IfOk result (λ before. IfNone before
            (LacksCap request.now (L.told self.old.ledger) (L.told self.new.ledger))) }
        ensures fault { IfErr result (λ fault. fault ≡ LedgerFault.Store) }
        ensures store { OnErr result (L.has_store self.old.ledger) }
        ensures failed { OnErr result (FailsAtQuestion (L.told self.old.ledger)
            (L.told self.new.ledger)) }
    {
        let Request::Limit {
            login,
            from_day,
            ..
        } = request
        else {
            return Ok(None);
        };
        let usage = ask_usage(&mut self.ledger, login, *from_day)?;
        Ok(cap_of(usage))
    }

    /// What is to be seen of a request that was answered so. A limit came where a question said
    /// this cap before.
    pub fn look<'r>(
        &mut self,
        request: &'r Request,
        before: Result<Option<u32>, LedgerFault>,
        answer: Result<&Reply, LedgerFault>,
        now: Option<u64>,
    ) -> RequestNotices<'r>
        requires { IsRequest request.now }
        ensures asked { IsAsked L.told L.book L.has_kept L.is_sound L.has_store self.old.ledger
            self.new.ledger }
        ensures peer { self.new.peer ≡ self.old.peer }
        ensures peers { self.new.peers ≡ self.old.peers }
        ensures sees { Sees (day_of (L.book self.old.ledger).zone) self.old.peer.address before
            (answered answer.entry) now (L.told self.old.ledger)
            (L.told self.new.ledger) self.old.notes self.new.notes result request.now }
        ensures from { TellsFrom request.now before result.main }
        ensures usage { L.has_kept self.new.ledger → L.is_sound self.old.ledger
            → TellsUse (L.book self.old.ledger) request.now result.main }
    {
        let peer = self.peer.address;
        match request {
            Request::Limit {
                login,
                from_day,
                cap,
                ..
            } => see_limit(
                &mut self.ledger,
                &mut self.notes.nearing,
                peer,
                login,
                *from_day,
                *cap,
                before,
                answer,
            ),
            Request::Reserve {
                id,
                moment,
                login,
                ..
            } => {
                let zone = self.ledger.zone();
                let day = zone.day_at(*moment);
                let seen = self
                    .notes
                    .see_reserve(zone, peer, id, *moment, login, answer, seconds_of(now));
                match answer {
                    Ok(Reply::Granted { used, .. }) => RequestNotices {
                        main: see_granted(
                            &mut self.ledger,
                            &mut self.notes.nearing,
                            login,
                            day,
                            *used,
                        ),
                        ..seen
                    },
                    _ => seen,
                }
            }
            Request::Settle { id, .. } | Request::Release { id, .. } => RequestNotices {
                refusal: see_run(&mut self.notes.retired, id, answer, seconds_of(now)),
                ..RequestNotices::nothing(peer)
            },
            Request::Retire { id } => RequestNotices {
                main: Some(Notice::Retire {
                    id,
                    verdict: verdict_of(answer),
                }),
                ..RequestNotices::nothing(peer)
            },
            _ => RequestNotices::nothing(peer),
        }
    }
}

/// An answer whose reply is lent.
fn lent(answer: &Result<Reply, LedgerFault>) -> Result<&Reply, LedgerFault>
    ensures { answered result ≡ answer.now }
{
    match answer {
        Ok(reply) => Ok(reply),
        Err(fault) => Err(*fault),
    }
}
