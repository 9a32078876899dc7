//! A question of an administrator to the quota server.
ghost use Rattle.std.specs.Prelude.{◌≡◌, ◌∷◌, [], true, false, IfOk, MatchResult};
ghost use Rattle.std.specs.Option.{MatchOption};
ghost use Rattle.mq_request.specs.Range.{IsReply, IsRequest};
ghost use Rattle.mq_frame.specs.Spelling.{SpellsReply, request_frame};
ghost use Rattle.mq_request.specs.declared.message.Reply.{Reply as AnyReply};
ghost use Rattle.mq_command.specs.Asking.{Asks, ComesTo, Sends, attempt_of, fits};
ghost use Rattle.mq_lemmas.specs.Told.{Tells};
ghost use Rattle.mq_link.specs.Link.{Brings};
ghost use Rattle.mq_command.specs.declared.ask.NoAnswer.TheVariants.{Memory as NoMemory};
ghost use Rattle.mq_link.specs.declared.link.ReportedExchange.{ReportedExchange};

use mq_frame::{DecodeFault, decode_reply, encode_request};
use mq_link::Link;
use mq_request::{Reply, Request};
use std::alloc::{AllocError, Global};
use thiserror::Error;

/// How often a request is sent.
pub const TRIES: u32 = 3;

/// Why a question brought no answer.
#[derive(Clone, Copy, Debug, PartialEq, Error)]
pub enum NoAnswer {
    /// The server took none of the tries: to each it replied that the request is to be sent again.
    #[error("quota server didn't take this: its log says why")]
    NotTaken,
    /// No reply came that answers, in all tries: three, or one where it is asked once.
    #[error("quota service unavailable")]
    Unavailable,
    /// A growth was refused, for the request's frame or for a reply that came.
    #[error("out of memory")]
    Memory,
}

impl From<AllocError> for NoAnswer {
    ghost from_gives = { λ _ fault. fault ≡ NoMemory };

    fn from(_error: AllocError) -> NoAnswer {
        NoAnswer::Memory
    }
}

/// Why it isn't known whether a server answers.
#[derive(Clone, Copy, Debug, PartialEq, Error)]
pub enum AskFault {
    /// No reply came that answers.
    #[error("quota service unavailable")]
    Unavailable,
    /// A growth was refused, for the request's frame or for a reply that came.
    #[error("out of memory")]
    Memory,
}

/// What comes of sending a request once.
#[derive(Debug, Drop)]
pub(crate) enum Attempt {
    /// This reply answers it.
    Answered(Reply),
    /// The server didn't take it: it is to be sent again.
    NotTaken,
    /// No reply came, or one that doesn't answer it.
    Missed,
}

/// Whether a reply answers a release, a limit, a retire, a usage or a list.
fn fits(request: &Request, reply: &Reply) -> bool
    ensures { result ≡ fits request.now reply.now }
{
    match (request, reply) {
        (Request::Release { id, .. }, Reply::Released { id: other, .. }) => id.is_same(other),
        (Request::Release { id, .. }, Reply::Closed { id: other }) => id.is_same(other),
        (Request::Release { id, .. }, Reply::Mismatch { id: other }) => id.is_same(other),
        (Request::Release { id, .. }, Reply::Conflict { id: other }) => id.is_same(other),
        (Request::Release { id, .. }, Reply::Old { id: other }) => id.is_same(other),
        (Request::Limit { id, .. }, Reply::LimitSet { id: other }) => id.is_same(other),
        (Request::Limit { id, .. }, Reply::Over { id: other, .. }) => id.is_same(other),
        (Request::Limit { id, .. }, Reply::Conflict { id: other }) => id.is_same(other),
        (Request::Limit { id, .. }, Reply::Old { id: other }) => id.is_same(other),
        (Request::Retire { id }, Reply::Retired { id: other }) => id.is_same(other),
        (Request::Retire { id }, Reply::Conflict { id: other }) => id.is_same(other),
        (Request::Retire { id }, Reply::Old { id: other }) => id.is_same(other),
        (
            Request::Usage { login, day },
            Reply::Usage {
                login: other,
                day: other_day,
                ..
            },
        ) => *login == *other && *day == *other_day,
        (Request::List { .. }, Reply::List { .. }) => true,
        _ => false,
    }
}

/// Sends a frame once, and gives what comes of its request. Memory may fail for a reply that came.
pub(crate) fn try_once<L: Link>(
    alloc: Global,
    link: &mut L,
    request: &Request,
    frame: &[u8],
    body: &mut Vec<u8>,
) -> Result<Attempt, AllocError>
    requires { frame.now ≡ request_frame request.now }
    ensures { (one : ReportedExchange) × Sends request.now one
        × Tells (L.told link.old) (L.told link.new) (one ∷ [])
        × MatchResult result (ComesTo request.now (Brings one.outcome))
        (λ fault. (reply : AnyReply) × Brings one.outcome reply) }
{
    if link.exchange(frame, body).is_err() {
        return Ok(Attempt::Missed);
    }
    attempt_in(alloc, request, body.as_slice())
}

/// What a reply comes to.
fn attempt_of(request: &Request, reply: Reply) -> Attempt
    ensures { result ≡ attempt_of request.now reply }
{
    if matches!(&reply, Reply::Retry) {
        return Attempt::NotTaken;
    }
    if fits(request, &reply) {
        Attempt::Answered(reply)
    } else {
        Attempt::Missed
    }
}

/// What the reply that a body spells comes to, if it spells one.
fn attempt_in(alloc: Global, request: &Request, body: &[u8]) -> Result<Attempt, AllocError>
    ensures { MatchResult result (ComesTo request.now (SpellsReply body.now))
        (λ fault. (reply : AnyReply) × SpellsReply body.now reply) }
{
    match decode_reply(alloc, body) {
        Ok(reply) => Ok(attempt_of(request, reply)),
        Err(DecodeFault::Bad) => Ok(Attempt::Missed),
        Err(DecodeFault::Memory) => Err(AllocError),
    }
}

/// Sends a request up to three times, until a reply answers it.
pub fn ask<L: Link>(alloc: Global, link: &mut L, request: &Request) -> Result<Reply, NoAnswer>
    requires { IsRequest request.now }
    ensures asks { Asks request.now (L.told link.old) (L.told link.new) result }
    ensures in_range { IfOk result IsReply }
{
    let mut frame = Vec::new(alloc);
    encode_request(request, &mut frame)?;
    let mut body = Vec::new(alloc);
    let mut none_taken = true;
    for _attempt in 0..TRIES {
        let attempt = try_once(alloc, link, request, frame.as_slice(), &mut body)?;
        match attempt {
            Attempt::Answered(reply) => return Ok(reply),
            Attempt::NotTaken => {}
            Attempt::Missed => none_taken = false,
        }
    }
    if none_taken {
        Err(NoAnswer::NotTaken)
    } else {
        Err(NoAnswer::Unavailable)
    }
}
