//! Numbered requests, each sent again under its number until a reply decides it.
ghost use Rattle.std.specs.Prelude.{◌≡◌, ◌≤◌, ◌<◌, ◌+◌, List, Option, [], length, None, true};
ghost use Rattle.std.specs.Prelude.{false, IfOk, IsOk, OnOk, OnErr};
ghost use Rattle.mq_request.specs.Range.{IsHost, IsRun, IsWithin, IsOrdinal, IsMoment, IsLogin};
ghost use Rattle.mq_lemmas.specs.Told.{Tells};
ghost use Rattle.mq_client.specs.Exchanges.{Exchange, told_all};
ghost use Rattle.mq_client.specs.Past.{Step, Ask, Close, Drain, StandsAt, Makes, view, answer_of};
ghost use Rattle.mq_client.specs.Past.{find, refuses, reserve_of, closing_of, answer_by, tries_in};
ghost use Rattle.mq_client.specs.Exchanges.{AreTries, has_timed_out};
ghost use Rattle.mq_client.specs.Holding.{freed};
ghost use Rattle.mq_client.specs.HeldTransactions.{IsHeld};
ghost use Rattle.mq_client.specs.FramedRequests.{IsFramed};
ghost use Rattle.mq_request.specs.declared.message.Reply.{Reply};

use crate::held_transaction::{HeldTransaction, closing_request, reserve_request};
use crate::holdup::Holdup;
use crate::journal::Journal;
use crate::observer::{FilterEvent, Observer};
use crate::recipient_answer::{RecipientAnswer, TimedAnswer, answer_to};
use crate::refusal::{GivenWarnings, RefusalCause, RefusedRecipient};
use crate::session::SessionName;
use crate::spans::Spans;
use crate::transactions::Transactions;
use crate::tries::{FramedRequest, send_all, try_all};
use log::{Log, warn};
use mq_link::Link;
use mq_request::Host;
use mq_track::Closing;
use std::alloc::{AllocError, Global};
use std::collections::VecDeque;
use std::marker::Model;

/// The client of one run of a host's filter.
///
/// It holds each transaction from its first request until its closing, numbers its requests from 1
/// on, and keeps the closings that no reply has decided yet, in order.
#[derive(Drop)]
pub struct Client {
    alloc: Global,
    host: Host,
    run: u64,
    /// How many times a request is sent that no reply decides, 1 to 10.
    tries: u32,
    spans: Spans,
    held: Transactions,
    /// How many numbers are used, from 1 on.
    numbers: u32,
    /// The closings that no reply has decided yet, in order.
    outbox: VecDeque<FramedRequest>,
    warned: GivenWarnings,
    journal: Journal,
    /// The session whose requests come next.
    session: SessionName,
}

impl Model for Client {
    ghost use Rattle.mq_client.specs.Past.{State};

    ghost Value = { State };

    ghost use Rattle.mq_client.specs.Inside.{IsInside, state_of};

    ghost view = { state_of };

    ghost invariant = { IsInside };
}

/// The request for one recipient, with its frame.
fn framed_reserve(
    alloc: Global,
    host: &Host,
    run: u64,
    number: u32,
    txn: u32,
    moment: u64,
    login: &[u8],
) -> Result<FramedRequest, AllocError>
    requires host { IsHost host.now }
    requires run { IsRun run }
    requires number { 1 ≤ number }
    requires txn { IsOrdinal txn }
    requires moment { IsMoment moment }
    requires login { IsLogin login.now }
    ensures request { IfOk result (λ framed. framed.request
        ≡ reserve_of (record { host = host.now; run = run }) number txn moment login.now) }
    ensures frame { IfOk result IsFramed }
{
    let request = reserve_request(alloc, host, run, number, txn, moment, login)?;
    FramedRequest::new(alloc, request)
}

/// The request that closes a held transaction, with its frame.
fn framed_closing(
    alloc: Global,
    host: &Host,
    run: u64,
    number: u32,
    closing: Closing,
    known: &HeldTransaction,
) -> Result<FramedRequest, AllocError>
    requires host { IsHost host.now }
    requires run { IsRun run }
    requires number { 1 ≤ number }
    requires held { IsHeld closing.txn known.now }
    ensures request { IfOk result (λ framed. framed.request
        ≡ closing_of (record { host = host.now; run = run }) number closing.txn closing.end
        known.now) }
    ensures frame { IfOk result IsFramed }
{
    let request = closing_request(host, run, number, closing.txn, closing.end, known)?;
    FramedRequest::new(alloc, request)
}

/// How often each request is tried: in a pause none is.
fn tries_in(tries: u32, paused: bool) -> u32
    ensures { result ≡ tries_in tries paused }
{
    if paused { 0 } else { tries }
}

/// Sends the request for a recipient, and answers whether it may go through.
fn send_reserve<R: Observer, L: Link>(
    rt: &R,
    alloc: Global,
    link: &mut L,
    reserve: FramedRequest,
    tries: u32,
    journal: &mut Journal,
) -> TimedAnswer
    requires { IsFramed reserve }
    ensures { (group : List Exchange) × (decided : Option Reply)
        × Tells (L.told link.old) (L.told link.new) (told_all group)
        × AreTries tries reserve.request group decided × (result.answer ≡ answer_by decided)
        × (result.timed_out ≡ has_timed_out group) }
{
    let tried = try_all(rt, alloc, link, &reserve, tries, journal);
    TimedAnswer {
        answer: answer_to(tried.verdict()),
        timed_out: tried.has_timed_out(),
    }
}

impl Client {
    /// A client of that host and run, with no transaction and no number used, that sends each
    /// request at most `tries` times. `run` is 1 to 281,474,976,710,655, and `tries` 1 to 10. An
    /// `Err` says that there was no memory for the host's name.
    pub fn new(alloc: Global, host: &Host, run: u64, tries: u32) -> Result<Client, AllocError>
        requires host { IsHost host.now }
        requires run { IsRun run }
        requires tries { IsWithin 1 10 tries }
        ensures past { IfOk result (λ client. StandsAt client []) }
        ensures source { IfOk result (λ client. client.source
            ≡ record { host = host.now; run = run }) }
        ensures tries { IfOk result (λ client. client.tries ≡ tries) }
        ensures spans { IfOk result (λ client. client.spans ≡ record { pause = 0; hold = 0 }) }
    {
        Ok(Client {
            alloc,
            host: host.clone()?,
            run,
            tries,
            spans: Spans { pause: 0, hold: 0 },
            held: Transactions::new(alloc),
            numbers: 0,
            outbox: VecDeque::new(alloc),
            warned: GivenWarnings::new(alloc),
            journal: Journal::new(alloc),
            session: SessionName::none(),
        })
    }

    /// The same client, whose filter holds back for these spans.
    pub fn with_spans(self, spans: Spans) -> Client
        ensures past { (P : List Step) → StandsAt self P → StandsAt result P }
        ensures source { result.source ≡ self.source }
        ensures tries { result.tries ≡ self.tries }
        ensures spans { result.spans ≡ spans }
    {
        let mut client = self;
        client.spans = spans;
        client
    }

    /// For how long its filter holds back.
    pub fn spans(&self) -> Spans
        ensures { result ≡ self.now.spans }
    {
        self.spans
    }

    /// How many transactions are live.
    pub fn held_count(&self) -> usize
        ensures { (P : List Step) → StandsAt self.now P
            → result ≡ length (view self.now.source P).live }
    {
        self.held.len()
    }

    /// How many closings wait.
    pub fn outbox_count(&self) -> usize
        ensures { (P : List Step) → StandsAt self.now P
            → result ≡ length (view self.now.source P).waiting }
    {
        self.outbox.len()
    }

    /// The next requests come of a line of this session, which the log names, and of this second,
    /// by which it says again what lasts.
    pub fn set_line(&mut self, session: &[u8], seconds: Option<u64>)
        ensures { self.new ≡ self.old }
    {
        self.session = SessionName::of(session);
        if let Some(seconds) = seconds {
            self.journal.set_seconds(seconds);
        }
    }

    /// Asks whether a recipient of a transaction may go through. `txn` is 1 to 4,294,967,295,
    /// `moment` is 86,400 to 32,503,680,000 and `login` has 1 to 255 bytes.
    ///
    /// It is `Unavailable` with no exchange, and a warning of the cause, where the transaction is
    /// held with another login or moment, or has let 1,000 recipients through; where it isn't held
    /// and held transactions and waiting closings are 4,096; and where a number would be lacking
    /// for it or for a later closing. After an `Err` nothing has changed and no exchange was made.
    pub fn reserve<R: Observer, L: Link>(
        &mut self,
        rt: &R,
        link: &mut L,
        txn: u32,
        moment: u64,
        login: &[u8],
    ) -> Result<TimedAnswer, AllocError>
        requires txn { IsOrdinal txn }
        requires moment { IsMoment moment }
        requires login { IsLogin login.now }
        ensures ok { IfOk result (λ asking. (group : List Exchange)
            × Tells (L.told link.old) (L.told link.new) (told_all group)
            × (asking.answer ≡ answer_of group) × Makes self.old self.new (record {
              action = Ask txn moment login.now;
              group = group;
              quiet = false;
            }) × (asking.timed_out ≡ has_timed_out group)) }
        // Memory is asked for only where the server is.
        ensures refused { refuses (find self.old.held txn)
            (length self.old.held) self.old.numbers (length self.old.waiting) moment login.now
            ≡ true → IsOk result }
        ensures client { OnErr result (self.new ≡ self.old) }
        ensures link { OnErr result (link.new ≡ link.old) }
    {
        let closings = self.outbox.len();
        if let Some(cause) = self
            .held
            .refusal(self.numbers, closings, txn, moment, login)
        {
            self.warn_refused(rt, login, cause);
            return Ok(TimedAnswer {
                answer: RecipientAnswer::Unavailable,
                timed_out: false,
            });
        }
        let number = self.numbers + 1;
        // All memory comes first: where there is none, no number is used and nothing was sent.
        let mut reserve = framed_reserve(
            self.alloc, &self.host, self.run, number, txn, moment, login,
        )?;
        reserve.session = self.session;
        self.held.hold(txn, moment, login)?;
        // The number is used from here on, whatever comes of it: the server may have seen it.
        self.numbers = number;
        rt.observe(FilterEvent::Numbered);
        let journal = &mut self.journal;
        let asking = send_reserve(rt, self.alloc, link, reserve, self.tries, journal);
        self.journal
            .note_pause(rt, asking.timed_out, self.spans.pause);
        self.held.count(txn, asking.answer);
        Ok(asking)
    }

    /// Warns that recipients of the session are refused without asking the server, once for each
    /// cause.
    pub fn warn_refused<R: Log>(&mut self, rt: &R, login: &[u8], cause: RefusalCause)
        ensures { self.new ≡ self.old }
    {
        let session = self.session;
        if self.warned.is_first(session, cause) {
            let refused = RefusedRecipient {
                session,
                login,
                cause,
            };
            warn!(rt; "{refused}");
        }
    }

    /// A recipient of a login is answered 451 in a pause, which the log counts.
    pub fn count_held_back(&mut self)
        ensures { self.new ≡ self.old }
    {
        self.journal.count_held_back();
    }

    /// Closes a transaction and sends what waits; in a pause it sends nothing. One that isn't held
    /// changes and sends nothing. It answers whether a request was left undecided of which a try
    /// ran out of time. After an `Err` nothing has changed and no exchange was made.
    pub fn close<R: Observer, L: Link>(
        &mut self,
        rt: &R,
        link: &mut L,
        closing: Closing,
        paused: bool,
    ) -> Result<bool, AllocError>
        ensures ok { IfOk result (λ timed_out. (group : List Exchange)
            × Tells (L.told link.old) (L.told link.new) (told_all group)
            × Makes self.old self.new (record {
              action = Close closing.txn closing.end;
              group = group;
              quiet = paused;
            }) × (timed_out ≡ has_timed_out group)) }
        // Memory is asked for only where there is something to close.
        ensures unheld { find self.old.held closing.txn ≡ None → IsOk result }
        ensures client { OnErr result (self.new ≡ self.old) }
        ensures link { OnErr result (link.new ≡ link.old) }
    {
        let mut nobody = Holdup::new(self.alloc, self.spans);
        self.close_and_free(rt, link, closing, paused, &mut nobody)
    }

    /// The same for a filter that holds logins back: one of which recipients were given back is
    /// held back no longer.
    pub fn close_and_free<R: Observer, L: Link>(
        &mut self,
        rt: &R,
        link: &mut L,
        closing: Closing,
        paused: bool,
        holdup: &mut Holdup,
    ) -> Result<bool, AllocError>
        ensures ok { IfOk result (λ timed_out. (group : List Exchange)
            × Tells (L.told link.old) (L.told link.new) (told_all group)
            × Makes self.old self.new (record {
              action = Close closing.txn closing.end;
              group = group;
              quiet = paused;
            }) × (timed_out ≡ has_timed_out group)
            × (holdup.new ≡ (holdup.old.0, freed group holdup.old.1))) }
        // Memory is asked for only where there is something to close.
        ensures unheld { find self.old.held closing.txn ≡ None → IsOk result }
        ensures client { OnErr result (self.new ≡ self.old) }
        ensures link { OnErr result (link.new ≡ link.old) }
        ensures holdup { OnErr result (holdup.new ≡ holdup.old) }
    {
        let Some(known) = self.held.get(closing.txn) else {
            return Ok(false);
        };
        let number = self.numbers + 1;
        let mut framed = framed_closing(self.alloc, &self.host, self.run, number, closing, known)?;
        framed.session = self.session;
        // It waits before the transaction goes, so that no closing is lost where memory runs out.
        self.outbox.push_back(framed)?;
        self.held.release(closing.txn);
        self.numbers = number;
        rt.observe(FilterEvent::Numbered);
        let tries = tries_in(self.tries, paused);
        let journal = &mut self.journal;
        let timed_out = send_all(
            rt,
            self.alloc,
            link,
            &mut self.outbox,
            tries,
            journal,
            holdup,
        );
        self.journal.note_pause(rt, timed_out, self.spans.pause);
        Ok(timed_out)
    }

    /// Sends the closings that wait, and answers how many are left.
    pub fn drain<R: Observer, L: Link>(&mut self, rt: &R, link: &mut L) -> u32
        ensures step { (group : List Exchange) × Tells (L.told link.old) (L.told link.new)
            (told_all group)
            × Makes self.old self.new (record { action = Drain; group = group; quiet = false }) }
        ensures left { (P : List Step) → StandsAt self.new P
            → result ≡ length (view self.new.source P).waiting }
    {
        let (tries, journal) = (self.tries, &mut self.journal);
        // (what follows the input's end is nothing that could be held back)
        let mut nobody = Holdup::new(self.alloc, self.spans);
        let _ = send_all(
            rt,
            self.alloc,
            link,
            &mut self.outbox,
            tries,
            journal,
            &mut nobody,
        );
        let left = self.outbox.len();
        left as u32
    }
}
