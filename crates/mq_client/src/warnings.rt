//! What the warnings of a client say.
ghost use Rattle.std.specs.Prelude.{◌≡◌};
ghost use Rattle.mq_client.specs.Verdict.{is_refusal};

use crate::named_request::NamedRequest;
use crate::tries::FramedRequest;
use crate::verdict::Verdict;
use mq_request::Request;
use std::fmt;

/// A request that no reply decided in so many tries. A closing then waits.
#[derive(Clone, Copy)]
pub struct UnansweredRequest<'a> {
    pub framed: &'a FramedRequest,
    /// How many times the request was sent, 1 to 10.
    pub tries: u32,
    /// Whether a reply came that answers another request.
    pub has_other_reply: bool,
}

impl fmt::Display for UnansweredRequest<'_> {
    fn fmt<W: fmt::Write>(&self, f: &mut fmt::Formatter<W>) -> fmt::Result {
        let named = NamedRequest(self.framed);
        let tries = self.tries;
        let other = if self.has_other_reply {
            ", but a reply of another kind or number"
        } else {
            ""
        };
        let waits = match &self.framed.request {
            Request::Settle { .. } | Request::Release { .. } => ", it waits",
            _ => "",
        };
        write!(f, "{named}: no answer in {tries} tries{other}{waits}")
    }
}

/// A recipient that the login's limit doesn't allow.
#[derive(Clone, Copy)]
pub struct LimitReached<'a> {
    pub reserve: &'a FramedRequest,
    /// Recipients of the login on that day, 0 to 1,000,000.
    pub used: u32,
    /// The login's limit on that day, 0 to 1,000,000.
    pub cap: u32,
}

impl fmt::Display for LimitReached<'_> {
    fn fmt<W: fmt::Write>(&self, f: &mut fmt::Formatter<W>) -> fmt::Result {
        let named = NamedRequest(self.reserve);
        let used = self.used;
        let cap = self.cap;
        write!(f, "{named}: refused by the limit, {used} used of {cap}")
    }
}

/// Whether the server refused a request for another cause than the limit.
pub fn is_refusal(verdict: Verdict) -> bool
    ensures { result ≡ is_refusal verdict }
{
    matches!(
        verdict,
        Verdict::Closed | Verdict::Mismatch | Verdict::TooMany(_) | Verdict::Conflict | Verdict::Old
    )
}

/// Writes that the server holds less of a transaction than a request settles.
fn write_too_many<W: fmt::Write>(
    f: &mut fmt::Formatter<W>,
    framed: &FramedRequest,
    held: u32,
) -> fmt::Result {
    let named = NamedRequest(framed);
    write!(
        f,
        "{named}: the transaction holds {held} only, the server's address may have moved"
    )
}

/// A request that the server refused for another cause than the limit.
#[derive(Clone, Copy)]
pub struct RefusedRequest<'a> {
    pub framed: &'a FramedRequest,
    pub verdict: Verdict,
}

impl fmt::Display for RefusedRequest<'_> {
    fn fmt<W: fmt::Write>(&self, f: &mut fmt::Formatter<W>) -> fmt::Result {
        let why = match self.verdict {
            Verdict::Closed => "the transaction was closed before",
            Verdict::Mismatch => "the transaction has another login or moment",
            Verdict::TooMany(held) => return write_too_many(f, self.framed, held),
            Verdict::Conflict => "the number was used by another request",
            Verdict::Old => "the run is retired",
            _ => return Ok(()),
        };
        write!(f, "{}: {why}", NamedRequest(self.framed))
    }
}
