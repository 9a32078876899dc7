//! One request, sent up to so many times, and a queue of requests, sent from its front.
ghost use Rattle.std.specs.Prelude.{◌≡◌, ◌<◌, ◌≤◌, ◌∷◌, ◌||◌, [], List, Option, None, false};
ghost use Rattle.std.specs.Prelude.{length, IfOk};
ghost use Rattle.mq_request.specs.Range.{IsRequest};
ghost use Rattle.std.specs.List.{AllByRecursion};
ghost use Rattle.mq_lemmas.specs.Told.{Tells};
ghost use Rattle.mq_client.specs.Exchanges.{Exchange, IsTry, AreTries, IsSent, Sends, told_of};
ghost use Rattle.mq_client.specs.Exchanges.{told_all};
ghost use Rattle.mq_frame.specs.Spelling.{request_frame};
ghost use Rattle.mq_client.specs.Exchanges.{ran_out, has_timed_out};
ghost use Rattle.mq_link.specs.declared.link.ExchangeOutcome.TheVariants.{Faulted};
ghost use Rattle.mq_client.specs.TriesOutcome.{ComesOf, verdict_of, is_decided, is_late, given_by};
ghost use Rattle.mq_client.specs.Holding.{Holding, freed};
ghost use Rattle.mq_client.specs.Freeing.{heard};
ghost use Rattle.mq_request.specs.declared.message.Reply.{Reply};
ghost use Rattle.mq_client.specs.declared.tries.FramedRequest.{FramedRequest as AnyFramedRequest};
ghost use Rattle.mq_client.specs.FramedRequests.{IsFramed, requests_of};

use crate::holdup::Holdup;
use crate::journal::Journal;
use crate::observer::Observer;
use crate::session::SessionName;
use crate::verdict::{Verdict, is_other_reply, verdict_in};
use log::{Level, Log, log};
use mq_frame::encode_request;
use mq_link::{Link, LinkFault};
use mq_request::Request;
use std::alloc::{AllocError, Global};
use std::collections::VecDeque;
use std::fmt::Display;

/// A request with its frame, so that sending it asks for no memory, and with smtpd's session, for
/// the log.
#[derive(Drop)]
pub struct FramedRequest {
    pub request: Request,
    pub frame: Vec<u8>,
    pub session: SessionName,
}

/// The frame of a request.
fn frame_of(alloc: Global, request: &Request) -> Result<Vec<u8>, AllocError>
    requires { IsRequest request.now }
    ensures { IfOk result (λ frame. frame.items ≡ request_frame request.now) }
{
    let mut frame = Vec::new(alloc);
    encode_request(request, &mut frame)?;
    Ok(frame)
}

impl FramedRequest {
    /// The request with its frame, of no session yet. An `Err` says that there was no memory for
    /// the frame.
    pub fn new(alloc: Global, request: Request) -> Result<FramedRequest, AllocError>
        requires { IsRequest request }
        ensures request { IfOk result (λ framed. framed.request ≡ request) }
        ensures frame { IfOk result IsFramed }
    {
        match frame_of(alloc, &request) {
            Ok(frame) => Ok(FramedRequest {
                request,
                frame,
                session: SessionName::none(),
            }),
            Err(refused) => Err(refused),
        }
    }
}

/// Logs a text about tries: a line begins with the name of this module.
pub fn log_text<R: Log, T: Display>(rt: &R, level: Level, text: &T) {
    log!(rt; level, "{text}");
}

/// What came of a request's tries.
#[derive(Clone, Copy)]
pub enum TriesOutcome {
    /// A reply decides it.
    Decided(Verdict),
    /// No reply decides it, and no try ran out of time.
    Undecided,
    /// No reply decides it, and a try ran out of time.
    TimedOut,
}

impl TriesOutcome {
    /// What the reply decides, where one does.
    pub fn verdict(self) -> Option<Verdict>
        ensures { result ≡ verdict_of self }
    {
        match self {
            TriesOutcome::Decided(verdict) => Some(verdict),
            _ => None,
        }
    }

    /// Whether a reply decides the request.
    fn is_decided(self) -> bool
        ensures { result ≡ is_decided self }
    {
        matches!(self, TriesOutcome::Decided(_))
    }

    /// How many recipients the server gave back.
    pub fn given_back(self) -> u32
        ensures { result ≡ given_by self }
    {
        match self {
            TriesOutcome::Decided(Verdict::Released(held)) => held,
            _ => 0,
        }
    }

    /// Whether no reply decides it, and a try ran out of time.
    pub fn has_timed_out(self) -> bool
        ensures { result ≡ is_late self }
    {
        matches!(self, TriesOutcome::TimedOut)
    }
}

/// What comes of tries that decide nothing.
fn undecided(timed_out: bool) -> TriesOutcome
    ensures verdict { verdict_of result ≡ None }
    ensures late { is_late result ≡ timed_out }
{
    if timed_out {
        TriesOutcome::TimedOut
    } else {
        TriesOutcome::Undecided
    }
}

/// What comes of a reply that decides so, or of one that decides nothing.
fn answered(verdict: Option<Verdict>) -> TriesOutcome
    ensures verdict { verdict_of result ≡ verdict }
    ensures late { is_late result ≡ false }
{
    match verdict {
        Some(verdict) => TriesOutcome::Decided(verdict),
        None => TriesOutcome::Undecided,
    }
}

/// What comes of an exchange that brings no reply.
fn faulted(fault: LinkFault) -> TriesOutcome
    ensures verdict { verdict_of result ≡ None }
    ensures late { is_late result ≡ ran_out (Faulted fault) }
{
    match fault {
        LinkFault::TimedOut => TriesOutcome::TimedOut,
        LinkFault::Down | LinkFault::Memory => TriesOutcome::Undecided,
    }
}

/// One exchange of a framed request, and what comes of it.
fn try_once<L: Link>(link: &mut L, framed: &FramedRequest, body: &mut Vec<u8>) -> TriesOutcome
    requires { IsFramed framed.now }
    ensures { (x : Exchange) × (decided : Option Reply)
        × Tells (L.told link.old) (L.told link.new) (told_of x ∷ [])
        × IsTry framed.now.request x decided × ComesOf decided (x ∷ []) result }
{
    match link.exchange(framed.frame.as_slice(), body) {
        Ok(()) => answered(verdict_in(&framed.request, body.as_slice())),
        Err(fault) => faulted(fault),
    }
}

/// Whether a try ran out of time, with one more.
fn with_try(timed_out: bool, tried: TriesOutcome) -> bool
    ensures { result ≡ (is_late tried || timed_out) }
{
    matches!(tried, TriesOutcome::TimedOut) || timed_out
}

/// Exchanges a framed request until a reply decides it, up to so many times.
pub fn try_all<R: Observer, L: Link>(
    rt: &R,
    alloc: Global,
    link: &mut L,
    framed: &FramedRequest,
    tries: u32,
    journal: &mut Journal,
) -> TriesOutcome
    requires { IsFramed framed.now }
    ensures { (group : List Exchange) × (decided : Option Reply)
        × Tells (L.told link.old) (L.told link.new) (told_all group)
        × AreTries tries framed.now.request group decided × ComesOf decided group result }
{
    let mut body = Vec::new(alloc);
    let mut has_other_reply = false;
    let mut timed_out = false;
    for _attempt in 0..tries {
        let tried = try_once(link, framed, &mut body);
        if let TriesOutcome::Decided(verdict) = tried {
            journal.note_decided(rt, framed, verdict);
            return tried;
        }
        timed_out = with_try(timed_out, tried);
        has_other_reply = has_other_reply || is_other_reply(body.as_slice());
    }
    journal.note_undecided(rt, framed, tries, has_other_reply);
    undecided(timed_out)
}

/// Sends a closing up to so many times, and answers what came of it. Apart from `try_all` so that
/// the loop over closings is proved by less: whether a closing was decided, by whichever reply.
fn send<R: Observer, L: Link>(
    rt: &R,
    alloc: Global,
    link: &mut L,
    closing: &FramedRequest,
    tries: u32,
    journal: &mut Journal,
) -> TriesOutcome
    requires { IsFramed closing.now }
    ensures { (group : List Exchange) × Tells (L.told link.old) (L.told link.new) (told_all group)
        × IsSent tries closing.now.request group (is_decided result)
        × (has_timed_out group ≡ is_late result)
        × ((h : Holding) → freed group h ≡ heard closing.now.request (given_by result) h) }
{
    try_all(rt, alloc, link, closing, tries, journal)
}

/// Takes the first request away.
fn drop_front(outbox: &mut VecDeque<FramedRequest>)
    requires { 0 < length outbox.old.items }
    ensures { (x : AnyFramedRequest) × (outbox.old.items ≡ x ∷ outbox.new.items) }
{
    // (it is decided, and nobody asks for it again)
    let _ = outbox.pop_front();
}

/// Sends a queue from its front, until a request stays undecided, and answers whether a try of that
/// one ran out of time. What is held back hears of each.
pub fn send_all<R: Observer, L: Link>(
    rt: &R,
    alloc: Global,
    link: &mut L,
    outbox: &mut VecDeque<FramedRequest>,
    tries: u32,
    journal: &mut Journal,
    holdup: &mut Holdup,
) -> bool
    requires { AllByRecursion IsFramed outbox.old.items }
    ensures step { (group : List Exchange) × Tells (L.told link.old) (L.told link.new)
        (told_all group)
        × Sends tries (requests_of outbox.old.items) group (requests_of outbox.new.items)
        × (result ≡ has_timed_out group)
        × (holdup.new ≡ (holdup.old.0, freed group holdup.old.1)) }
    ensures framed { AllByRecursion IsFramed outbox.new.items }
    ensures len { length outbox.new.items ≤ length outbox.old.items }
{
    while let Some(closing) = outbox.front() {
        // What stands after an undecided closing waits with it, so that closings go out in order.
        let sent = send(rt, alloc, link, closing, tries, journal);
        if !sent.is_decided() {
            return sent.has_timed_out();
        }
        holdup.hear(&closing.request, sent);
        drop_front(outbox);
    }
    false
}
