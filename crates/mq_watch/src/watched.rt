//! A ledger that logs what comes to it.
ghost use Rattle.std.specs.Prelude.{◌≡◌, ◌⊎◌, [], ◌∷◌, ◌++◌, All, IfOk, OnErr, OnOk, Err, IsTrue};
ghost use Rattle.mq_request.specs.Range.{IsReply, IsRequest};
ghost use Rattle.mq_ledger.specs.Answer.{build, history_of, replies_after, reply};
ghost use Rattle.mq_ledger.specs.Arrivals.{first};
ghost use Rattle.mq_ledger.specs.Day.{day_of};
ghost use Rattle.mq_ledger.specs.History.{requests};
ghost use Rattle.mq_ledger.specs.Leaving.{LeavesLedger};
ghost use Rattle.mq_permits.specs.Permits.{may_ask};
ghost use Rattle.mq_watch.specs.Allowed.{may_each_ask};
ghost use Rattle.mq_watch.specs.Ahead.{IsAhead, MayBePutWithOthers};
ghost use Rattle.mq_watch.specs.Asked.{IsPut};
ghost use Rattle.mq_watch.specs.Unanswered.{answer_of};

use crate::calendar::{Calendar, LedgerDays, ServerTime};
use crate::clock::millis_of;
use crate::counting::Counting;
use crate::hear::Hear;
use crate::notes::Notes;
use crate::notice::{Notice, RequestNotices};
use crate::unanswered::Unanswered;
use crate::watch::{NoticedRequest, Watch};
use log::{Log, log};
use mq_ledger::{Ledger, LedgerFault, Zone};
use mq_metrics::ServerMetrics;
use mq_permits::{Peer, Permits};
use mq_request::{Reply, Request};
use std::alloc::Global;
use std::marker::Model;
use std::net::{Ipv4Addr, SocketAddr};
use std::rt::Clock;
use std::time::Instant;

/// A ledger that answers as another one does, and logs with the address of the peer that asked:
/// each limit and each retire with its answer; once an hour and host, a reserve whose day isn't
/// today, yesterday or tomorrow by the server's clock, requests of a retired run, and reserves from
/// two addresses; once an hour and login, that it is refused all the time; and once for a login and
/// day, that the login nears its limit. For the log it asks the other one what logins have used,
/// which leaves it as it was. Contracts see the other one.
///
/// Requests that the other one takes together are logged once it has. A limit among them wants a
/// question before it, so then none is taken together.
///
/// What a peer may not ask, by the permits, doesn't come to the other one ([`Hear`]), nor a
/// retire that is more than an hour ahead of the server's clock, or a reserve whose day is more than
/// one after today ([`Calendar`]). It is answered as if memory had run out, so that it may be sent
/// again: once taken, such a retire would refuse its host's filters until then, and what a reserve
/// uses would stay until that day.
#[derive(Drop)]
pub struct WatchedLedger<'a, L, C, G> {
    pub(crate) watch: Watch<L>,
    clock: &'a C,
    calendar: Calendar,
    log: &'a G,
    /// What counts what comes, where that is asked for.
    counting: Option<Counting<'a>>,
}

impl<'a, L, C, G> Model for WatchedLedger<'a, L, C, G> {
    ghost Value = { L };

    ghost view = { λ watched. watched.watch.ledger };
}

impl<'a, L: Ledger, C: Clock, G: Log> WatchedLedger<'a, L, C, G> {
    /// The ledger, with a log of what comes to it. Nobody has asked yet. It has something reserved
    /// on these days, or on none.
    pub fn new(
        clock: &'a C,
        log: &'a G,
        alloc: Global,
        ledger: L,
        days: Option<LedgerDays>,
    ) -> WatchedLedger<'a, L, C, G>
        ensures { result ≡ ledger }
    {
        let calendar = Calendar::new(ledger.zone(), days, millis_of(clock));
        WatchedLedger {
            watch: Watch {
                ledger,
                peer: Peer {
                    address: SocketAddr::new(Ipv4Addr::UNSPECIFIED.into(), 0),
                    here: None,
                },
                peers: Vec::new(alloc),
                notes: Notes::new(alloc),
            },
            clock,
            calendar,
            log,
            counting: None,
        }
    }

    /// The same, which counts from here on what comes, and how long the ledger takes.
    pub fn with_metrics(self, metrics: &'a ServerMetrics) -> WatchedLedger<'a, L, C, G>
        ensures { result ≡ self.entry }
    {
        let WatchedLedger {
            watch,
            clock,
            calendar,
            log,
            counting: _,
        } = self;
        let counting = Some(Counting::new(*watch.peers.allocator(), metrics));
        WatchedLedger {
            watch,
            clock,
            calendar,
            log,
            counting,
        }
    }

    /// The server's time, where the clock can be read.
    fn tell_time(&mut self) -> Option<ServerTime>
        ensures { self.new ≡ self.old }
    {
        let now = millis_of(self.clock);
        self.calendar.tell(self.watch.ledger.zone(), now)
    }

    /// The ledger, as the calls left it.
    pub fn into_inner(self) -> L
        ensures { result ≡ self.entry }
    {
        let WatchedLedger {
            watch,
            clock: _,
            calendar: _,
            log: _,
            counting: _,
        } = self;
        let Watch {
            ledger,
            peer: _,
            peers: _,
            notes: _,
        } = watch;
        ledger
    }

    /// The same log around another ledger: what was noted stays, and what counts as today. The former
    /// ledger comes back.
    pub fn take_over<M: Ledger>(self, ledger: M) -> (L, WatchedLedger<'a, M, C, G>)
        ensures former { result.0 ≡ self.entry }
        ensures ledger { result.1 ≡ ledger }
    {
        let WatchedLedger {
            watch,
            clock,
            calendar,
            log,
            counting,
        } = self;
        let Watch {
            ledger: former,
            peer,
            peers,
            notes,
        } = watch;
        let watch = Watch {
            ledger,
            peer,
            peers,
            notes,
        };
        let watched = WatchedLedger {
            watch,
            clock,
            calendar,
            log,
            counting,
        };
        (former, watched)
    }

    /// Puts a request of this peer to the ledger at this time of the server's clock, as
    /// [`Watch::take`] does, and logs what is to be seen of it.
    fn take(
        &mut self,
        permits: Option<&Permits>,
        peer: Peer,
        request: &Request,
        now: Option<ServerTime>,
    ) -> Result<Reply, LedgerFault>
        requires { IsRequest request.now }
        ensures allowed { OnOk result (IsTrue (may_ask permits.entry peer request.now)) }
        ensures ahead { IsAhead (day_of (L.book self.old).zone) request.now now →
            (result ≡ Err LedgerFault.Memory)
            × (self.new ≡ self.old) }
        ensures put { (IsAhead (day_of (L.book self.old).zone) request.now now → ⊥) →
            IsPut request.now result (L.told self.old) (L.told self.new)
            ⊎ ((result ≡ Err LedgerFault.Memory) × (self.new ≡ self.old)) }

        // As `Ledger` says of `apply`.
        ensures in_range { IfOk result IsReply }
        ensures same_zone { (L.book self.new).zone ≡ (L.book self.old).zone }
        ensures same_default { (L.book self.new).default ≡ (L.book self.old).default }
        ensures kept { L.has_kept self.new → L.has_kept self.old }
        ensures no_store { L.has_store self.new → L.has_store self.old }
        ensures store { result ≡ Err LedgerFault.Store → L.has_store self.old }
        ensures reply { L.has_kept self.new → L.is_sound self.old → (let b = L.book self.old in
            IfOk result (λ r. r ≡ reply (day_of b.zone) b.default b.history request.now)) }
        ensures history { L.has_kept self.new → L.is_sound self.old → (let b = L.book self.old in
            OnOk result ((L.book self.new).history
            ≡ build (day_of b.zone) b.default (first (requests b.history ++ request.now ∷ [])))) }
        ensures fault { L.has_kept self.new → L.is_sound self.old →
            OnErr result ((L.book self.new).history ≡ (L.book self.old).history) }
        ensures sound { L.has_kept self.new → L.is_sound self.old → L.is_sound self.new }
    {
        let began = self.begin_count();
        let NoticedRequest { answer, seen } = self.watch.take(permits, peer, request, now);
        self.count_answer(request, &answer, began);
        log_seen(self.log, &seen);
        answered(answer)
    }

    /// Puts requests to the ledger together, as [`Watch::put_all`] does, and logs what is to be seen
    /// of each, in their order.
    fn take_all(
        &mut self,
        permits: Option<&Permits>,
        peers: Vec<Peer>,
        arrivals: &[Request],
        replies: &mut Vec<Reply>,
        now: Option<ServerTime>,
    ) -> Result<(), LedgerFault>
        requires { All IsRequest arrivals.now }
        ensures allowed { OnOk result (IsTrue (may_each_ask permits.entry peers.items arrivals.now)) }
        ensures together { OnOk result
            (All (MayBePutWithOthers (day_of (L.book self.old).zone) now) arrivals.now) }

        // As `Ledger` says of `apply_all`.
        ensures in_range { OnOk result (All IsReply replies.new.items) }
        ensures same_zone { (L.book self.new).zone ≡ (L.book self.old).zone }
        ensures same_default { (L.book self.new).default ≡ (L.book self.old).default }
        ensures kept { L.has_kept self.new → L.has_kept self.old }
        ensures no_store { L.has_store self.new → L.has_store self.old }
        ensures store { result ≡ Err LedgerFault.Store → L.has_store self.old }
        ensures replies { L.has_kept self.new → L.is_sound self.old → (let b = L.book self.old in
            OnOk result (replies.new.items
            ≡ replies_after (day_of b.zone) b.default (requests b.history) arrivals.now)) }
        ensures history { L.has_kept self.new → L.is_sound self.old → (let b = L.book self.old in
            OnOk result ((L.book self.new).history
            ≡ history_of (day_of b.zone) b.default (requests b.history ++ arrivals.now))) }
        ensures fault { L.has_kept self.new → L.is_sound self.old →
            OnErr result ((L.book self.new).history ≡ (L.book self.old).history) }
        ensures sound { L.has_kept self.new → L.is_sound self.old → L.is_sound self.new }
    {
        let began = self.begin_count();
        self.watch.put_all(permits, peers, arrivals, replies, now)?;
        self.count_time(began);
        self.see_each(arrivals, replies.as_slice(), ServerTime::millis_in(now));
        Ok(())
    }

    /// Logs what is to be seen of requests that were taken together, in their order.
    fn see_each(&mut self, arrivals: &[Request], replies: &[Reply], now: Option<u64>)
        requires { All IsRequest arrivals.now }
        ensures leaves { LeavesLedger L.book L.has_kept L.is_sound L.has_store self.old self.new }
        ensures history { L.has_kept self.new → L.is_sound self.old →
            (L.book self.new).history ≡ (L.book self.old).history }
    {
        for at in 0..arrivals.len() {
            self.hear_at(at);
            self.see(&arrivals[at], replies.get(at), now);
        }
    }

    /// What is seen now was asked by the peer of the request at this place.
    fn hear_at(&mut self, at: usize)
        ensures { self.new ≡ self.old }
    {
        if let Some(peer) = self.watch.peers.get(at) {
            self.watch.peer = *peer;
        }
    }

    /// Logs what is to be seen of a request that was taken with others, but for a limit.
    fn see(&mut self, request: &Request, reply: Option<&Reply>, now: Option<u64>)
        requires { IsRequest request.now }
        ensures leaves { LeavesLedger L.book L.has_kept L.is_sound L.has_store self.old self.new }
        ensures history { L.has_kept self.new → L.is_sound self.old →
            (L.book self.new).history ≡ (L.book self.old).history }
    {
        let Some(reply) = reply else {
            return;
        };
        self.count(request, Ok(reply));
        let seen = self.watch.look(request, Ok(None), Ok(reply), now);
        log_seen(self.log, &seen);
    }

    /// When the ledger is asked, where that is counted and the clock can be read.
    fn begin_count(&self) -> Option<Instant> {
        match &self.counting {
            Some(_) => Instant::now(self.clock).ok(),
            None => None,
        }
    }

    /// Counts a request and its answer, and how long the ledger took, if it was asked.
    fn count_answer(
        &mut self,
        request: &Request,
        answer: &Result<Reply, Unanswered>,
        began: Option<Instant>,
    )
        ensures { self.new ≡ self.old }
    {
        match answer {
            Ok(reply) => {
                self.count_time(began);
                self.count(request, Ok(reply));
            }
            Err(cause) => {
                if let Unanswered::Fault(_) = cause {
                    self.count_time(began);
                }
                self.count(request, Err(*cause));
            }
        }
    }

    /// Counts a request and its answer.
    fn count(&mut self, request: &Request, answer: Result<&Reply, Unanswered>)
        ensures { self.new ≡ self.old }
    {
        if let Some(counting) = &mut self.counting {
            counting.count(request, answer);
        }
    }

    /// Counts how long the ledger took, which was asked at that moment.
    fn count_time(&self, began: Option<Instant>) {
        let (Some(counting), Some(began)) = (&self.counting, began) else {
            return;
        };
        if let Ok(took) = began.elapsed(self.clock) {
            counting.count_time(took);
        }
    }
}

/// How a server answers a request.
fn answered(answer: Result<Reply, Unanswered>) -> Result<Reply, LedgerFault>
    ensures { result ≡ answer_of answer }
{
    match answer {
        Ok(reply) => Ok(reply),
        Err(cause) => Err(cause.fault()),
    }
}

/// Logs what is to be seen of a request, in its order.
fn log_seen<G: Log>(log: &G, seen: &RequestNotices<'_>) {
    let notices = seen.in_order();
    for notice in &notices {
        if let Some(notice) = notice {
            log_notice(log, seen.peer, notice);
        }
    }
}

/// Logs one notice, with the peer whose request it is of.
fn log_notice<G: Log>(log: &G, peer: SocketAddr, notice: &Notice<'_>) {
    log!(log; notice.level(), "connection of {peer}: {notice}");
}

impl<L: Ledger, C: Clock, G: Log> Hear for WatchedLedger<'_, L, C, G> {
    fn apply_of(
        &mut self,
        permits: Option<&Permits>,
        peer: Peer,
        request: &Request,
    ) -> Result<Reply, LedgerFault> {
        let now = self.tell_time();
        self.take(permits, peer, request, now)
    }

    fn apply_all_of(
        &mut self,
        permits: Option<&Permits>,
        peers: Vec<Peer>,
        arrivals: &[Request],
        replies: &mut Vec<Reply>,
    ) -> Result<(), LedgerFault> {
        let now = self.tell_time();
        self.take_all(permits, peers, arrivals, replies, now)
    }
}

impl<L: Ledger, C: Clock, G: Log> Ledger for WatchedLedger<'_, L, C, G> {
    // The meaning and the promises are those of its ledger. Of calls it reports none: those of its
    // ledger have its own questions among them.
    ghost book = { λ watched. L.book watched };

    ghost has_kept = { λ watched. L.has_kept watched };

    ghost is_sound = { λ watched. L.is_sound watched };

    ghost has_store = { λ watched. L.has_store watched };

    ghost sound_is_kept = { λ watched. L.sound_is_kept watched };

    ghost sound_is_legal = { λ watched. L.sound_is_legal watched };

    fn zone(&self) -> &Zone {
        self.watch.ledger.zone()
    }

    fn default_cap(&self) -> u32 {
        self.watch.ledger.default_cap()
    }

    // Whoever has the ledger itself may ask everything, as the peer whose request came last.
    fn apply(&mut self, request: &Request) -> Result<Reply, LedgerFault> {
        let now = self.tell_time();
        let peer = self.watch.peer;
        self.take(None, peer, request, now)
    }
}
