//! What a reply decides.
ghost use Rattle.std.specs.Prelude.{◌≡◌, Option, Some, None, false, if◌then◌else◌};
ghost use Rattle.mq_request.specs.declared.message.Reply.{Reply};
ghost use Rattle.mq_frame.specs.Parts.{shown_reply};
ghost use Rattle.mq_frame.specs.Shown.{shown_id};
ghost use Rattle.mq_request.specs.Same.{same_id};
ghost use Rattle.mq_client.specs.Exchanges.{answers_reserve, answers_closing, IsDecision};
ghost use Rattle.mq_client.specs.Verdict.{IsVerdict, deciding, is_answer};
ghost use Rattle.mq_frame.specs.Spelling.{SpellsReply};
ghost use Rattle.mq_link.specs.declared.link.ExchangeOutcome.TheVariants.{Answered};

use mq_frame::{IdParts, ReplyParts, read_reply};
use mq_request::{Id, Request};

/// How a reply decides a request. No memory is asked for, so that a reply that came is never lost.
#[derive(Clone, Copy, Debug, PartialEq, Eq)]
pub enum Verdict {
    Granted,
    /// So many are used of the limit.
    Full { used: u32, cap: u32 },
    Settled,
    /// The server held this many, and gives them back.
    Released(u32),
    Closed,
    Mismatch,
    /// The server holds this many only.
    TooMany(u32),
    Conflict,
    /// The run is retired.
    Old,
}

/// Whether a reply carries this id.
fn is_id(id: &Id, parts: IdParts<'_>) -> bool
    ensures { result ≡ same_id id.now (shown_id parts.entry) }
{
    id.host.as_slice() == parts.host && id.run == parts.run && id.number == parts.number
}

/// What a reply says to the reserve with this id, where it is an answer to it.
fn reserve_verdict(id: &Id, reply: ReplyParts<'_>) -> Option<Verdict>
    ensures { IsVerdict (if answers_reserve id.now (shown_reply reply.entry) then Some
        (shown_reply reply.entry)
        else None) result }
{
    let (other, verdict) = match reply {
        ReplyParts::Granted { id, .. } => (id, Verdict::Granted),
        ReplyParts::Full { id, used, cap } => (id, Verdict::Full { used, cap }),
        ReplyParts::Closed { id } => (id, Verdict::Closed),
        ReplyParts::Mismatch { id } => (id, Verdict::Mismatch),
        ReplyParts::Conflict { id } => (id, Verdict::Conflict),
        ReplyParts::Old { id } => (id, Verdict::Old),
        _ => return None,
    };
    if is_id(id, other) {
        Some(verdict)
    } else {
        None
    }
}

/// What a reply says to the settle or release with this id, where it is an answer to it.
fn closing_verdict(id: &Id, reply: ReplyParts<'_>) -> Option<Verdict>
    ensures { IsVerdict (if answers_closing id.now (shown_reply reply.entry) then Some
        (shown_reply reply.entry)
        else None) result }
{
    let (other, verdict) = match reply {
        ReplyParts::Settled { id, .. } => (id, Verdict::Settled),
        ReplyParts::Released { id, held } => (id, Verdict::Released(held)),
        ReplyParts::Closed { id } => (id, Verdict::Closed),
        ReplyParts::Mismatch { id } => (id, Verdict::Mismatch),
        ReplyParts::TooMany { id, held } => (id, Verdict::TooMany(held)),
        ReplyParts::Conflict { id } => (id, Verdict::Conflict),
        ReplyParts::Old { id } => (id, Verdict::Old),
        _ => return None,
    };
    if is_id(id, other) {
        Some(verdict)
    } else {
        None
    }
}

/// What a reply decides about a request, where it carries the request's id and is of a kind that
/// answers it.
fn verdict_of(request: &Request, reply: ReplyParts<'_>) -> Option<Verdict>
    ensures { IsVerdict (deciding request.now (shown_reply reply.entry)) result }
{
    match request {
        Request::Reserve { id, .. } => reserve_verdict(id, reply),
        Request::Settle { id, .. } | Request::Release { id, .. } => closing_verdict(id, reply),
        _ => None,
    }
}

/// Whether this reply is an answer to some request.
fn is_answer(reply: ReplyParts<'_>) -> bool
    ensures { result ≡ is_answer (shown_reply reply.entry) }
{
    !matches!(reply, ReplyParts::Retry | ReplyParts::Bad)
}

/// Whether this body, which decides nothing, is an answer, though to another request.
pub fn is_other_reply(body: &[u8]) -> bool
    ensures spelled { (reply : Reply) → SpellsReply body.now reply → result ≡ is_answer reply }
    ensures other { ((reply : Reply) → SpellsReply body.now reply → ⊥) → result ≡ false }
{
    match read_reply(body) {
        Some(reply) => is_answer(reply),
        None => false,
    }
}

/// What the body of a reply decides about a request, where it spells a reply that decides it.
pub fn verdict_in(request: &Request, body: &[u8]) -> Option<Verdict>
    ensures { (decided : Option Reply) × IsDecision request.now (Answered body.now) decided
        × IsVerdict decided result }
{
    match read_reply(body) {
        Some(reply) => verdict_of(request, reply),
        None => None,
    }
}
